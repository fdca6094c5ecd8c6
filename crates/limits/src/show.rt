//! What a trial starts from, and how its answer is written.
use scope::{Refusal, Step};
use stack::EvmStack;
use std::fmt::Display;
use std::io::{self, Write};
use tracked_state::TrackedState;

pub(crate) fn yes_or_no(out: &mut impl Write, yes: bool) -> io::Result<()> {
    writeln!(out, ": {}", if yes { "yes" } else { "no" })
}

/// What a call found, or that it found nothing.
pub(crate) fn found<T: Display + Drop>(out: &mut impl Write, found: Option<T>) -> io::Result<()> {
    match found {
        Some(value) => write!(out, ": {value}"),
        None => write!(out, ": nothing"),
    }
}

/// The code of a refusal, 0 where there is none.
pub(crate) fn code<T>(answer: &Result<T, Refusal>) -> u32 {
    match answer {
        Ok(_) => 0,
        Err(refusal) => refusal.code(),
    }
}

/// The first five entries of a list, then its last.
pub(crate) fn list(out: &mut impl Write, entries: &[u32]) -> io::Result<()> {
    for value in entries.iter().take(5) {
        write!(out, " {value}")?;
    }
    match entries.iter().skip(5).last() {
        Some(value) => write!(out, " .. {value}"),
        None => Ok(()),
    }
}

/// In how many places two lists differ.
fn differing(a: &[u32], b: &[u32]) -> usize {
    a.iter().zip(b).filter(|(x, y)| x != y).count()
}

/// Writes 1, 2, 3 and so on.
pub(crate) fn count_up(values: &mut [u32]) {
    let mut next = 1u32;
    for value in values {
        *value = next;
        next = next.saturating_add(1);
    }
}

/// The values 1, 2, 3 and so on, top first; above 1,024 only the length field grows.
pub(crate) fn stack_of(height: u16) -> EvmStack {
    let mut values = [0u32; 1024];
    count_up(&mut values);
    let part = &values[..usize::from(height).min(1024)];
    let mut stack = EvmStack::from_fifo(part).unwrap_or(EvmStack::new());
    stack.stack_len = height;
    stack
}

/// The stack after a call: its length field, how many of its words are others than before, its values.
pub(crate) fn stack_after(
    out: &mut impl Write,
    before: &EvmStack,
    after: &EvmStack,
) -> io::Result<()> {
    let changed = differing(&before.stack_raw, &after.stack_raw);
    let len = after.stack_len;
    write!(out, ", stack_len {len}, changed {changed}, values")?;
    list(out, after.fifo())
}

/// A tracked state over the values 1, 2, 3 and so on.
pub(crate) fn state_of(height: u16, first: u32, filled: usize, written: usize) -> TrackedState {
    TrackedState {
        stack: stack_of(height),
        first,
        filled,
        written,
    }
}

/// The numbers of the state that a call is asked of.
pub(crate) fn asked_of(out: &mut impl Write, state: &TrackedState) -> io::Result<()> {
    let TrackedState {
        stack,
        first,
        filled,
        written,
    } = state;
    let len = stack.stack_len;
    write!(
        out,
        " at {len}, first {first}, filled {filled}, written {written}"
    )
}

/// The state after a call.
pub(crate) fn state_after(
    out: &mut impl Write,
    before: &TrackedState,
    after: &TrackedState,
) -> io::Result<()> {
    let TrackedState {
        stack,
        first,
        filled,
        written,
    } = after;
    write!(out, ", first {first}, filled {filled}, written {written}")?;
    stack_after(out, &before.stack, stack)
}

/// The operation's two words, or the code of the refusal.
pub(crate) fn step(out: &mut impl Write, step: Step) -> io::Result<()> {
    match step {
        Step::Wrote(op) => write!(out, ": wrote {} {}", op.kind(), op.argument()),
        Step::Refused(refusal) => write!(out, ": refused {}", refusal.code()),
    }
}

/// The buffers after a call.
pub(crate) fn buffers(out: &mut impl Write, spill: &[u32], ops: &[u32]) -> io::Result<()> {
    write!(out, ", slots")?;
    list(out, spill)?;
    write!(out, ", words")?;
    list(out, ops)?;
    writeln!(out)
}

/// The answer of a call that makes a tracked state, one that holds nothing where it is refused; its stack is held against the one that
/// it was given.
pub(crate) fn made(
    out: &mut impl Write,
    given: &TrackedState,
    answer: Result<TrackedState, Refusal>,
) -> io::Result<()> {
    write!(out, ": code {}", code(&answer))?;
    state_after(out, given, &answer.unwrap_or(state_of(0, 0, 0, 0)))
}
