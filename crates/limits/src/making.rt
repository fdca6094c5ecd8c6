//! Making a tracked state, copying one, and what can be asked of one without changing it. The spill buffer is 70 71 72.
use super::show::{asked_of, code, count_up, found, list, made, state_of};
use std::io::{self, Write};
use tracked_state::TrackedState;

fn new_from_evm(out: &mut impl Write, height: u16, first: u32) -> io::Result<()> {
    let given = state_of(height, first, 0, 0);
    write!(out, "new_from_evm")?;
    asked_of(out, &given)?;
    let answer = TrackedState::new_from_evm(first, given.stack, &[70, 71, 72]);
    made(out, &given, answer)?;
    writeln!(out)
}

/// The same with a spill buffer of no words.
fn new_from_evm_no_slots(out: &mut impl Write, height: u16, first: u32) -> io::Result<()> {
    let given = state_of(height, first, 0, 0);
    write!(out, "new_from_evm with no slots")?;
    asked_of(out, &given)?;
    made(
        out,
        &given,
        TrackedState::new_from_evm(first, given.stack, &[]),
    )?;
    writeln!(out)
}

fn new_from_parts(out: &mut impl Write, n: usize, first: u32, filled: usize) -> io::Result<()> {
    let mut values = [0u32; 1025];
    count_up(&mut values);
    let part = &values[..n.min(1025)];
    let answer = TrackedState::new_from_parts(first, part, filled, &[70, 71, 72]);
    write!(out, "new_from_parts of {n}, first {first}, filled {filled}")?;
    made(out, &state_of(0, 0, 0, 0), answer)?;
    writeln!(out)
}

/// From these slots into a second buffer of three words.
fn clone_with(out: &mut impl Write, given: &TrackedState, spill: &[u32]) -> io::Result<()> {
    let mut other = [80, 81, 82];
    write!(out, "clone_with {} to 3 slots", spill.len())?;
    asked_of(out, given)?;
    let answer = given.clone_with(spill, &mut other);
    made(out, given, answer)?;
    write!(out, ", slots")?;
    list(out, spill)?;
    write!(out, ", others")?;
    list(out, &other)?;
    writeln!(out)
}

/// The buffer is 70 71 70 72.
fn get_spilled(out: &mut impl Write, first: u32, filled: usize, target: u32) -> io::Result<()> {
    let state = state_of(1, first, filled, 0);
    write!(out, "get_spilled {target}")?;
    asked_of(out, &state)?;
    found(out, state.get_spilled(&[70, 71, 70, 72], target))?;
    writeln!(out)
}

/// A number of 0 stands for none.
fn into_next_alloc_id(out: &mut impl Write, first: u32, filled: usize) -> io::Result<()> {
    let state = state_of(1, first, filled, 0);
    let next = state.into_next_alloc_id();
    write!(out, "into_next_alloc_id")?;
    asked_of(out, &state)?;
    writeln!(out, ": code {}, id {}", code(&next), next.unwrap_or(0))
}

fn alloc_id(out: &mut impl Write, first: u32, i: usize) -> io::Result<()> {
    write!(out, "alloc_id of first {first} and {i}")?;
    found(out, tracked::alloc_id(first, i))?;
    writeln!(out)
}

fn parts_are(out: &mut impl Write, height: u16, first: u32, filled: usize) -> io::Result<()> {
    let state = state_of(height, first, filled, 0);
    write!(out, "parts")?;
    asked_of(out, &state)?;
    let start = state.start_alloc_id();
    let height = state.stack().len();
    write!(
        out,
        ": start_alloc_id {start}, stack {height}, underlying_spilled"
    )?;
    list(out, state.underlying_spilled(&[70, 71, 72]))?;
    writeln!(out)
}

fn from_evm(out: &mut impl Write) -> io::Result<()> {
    for (height, first) in [
        (0, 0),
        (1024, 5),
        (1025, 5),
        (65535, 5),
        (1, 4294967292),
        (1, 4294967293),
        (1, u32::MAX),
        (1025, 4294967293),
    ] {
        new_from_evm(out, height, first)?;
    }
    for (height, first) in [(1, u32::MAX), (1025, u32::MAX)] {
        new_from_evm_no_slots(out, height, first)?;
    }
    Ok(())
}

fn from_parts(out: &mut impl Write) -> io::Result<()> {
    for (n, first, filled) in [
        (0, 5, 0),
        (1, 5, 2),
        (1024, 5, 3),
        (1025, 5, 3),
        (3, 5, 3),
        (3, 5, 4),
        (3, 4294967292, 3),
        (3, 4294967293, 3),
        (3, 4294967293, 4),
        (1024, 4294967293, 4),
        (1025, 4294967293, 4),
        (1025, 4294967293, 3),
        (3, 5, usize::MAX),
    ] {
        new_from_parts(out, n, first, filled)?;
    }
    Ok(())
}

fn cloning(out: &mut impl Write) -> io::Result<()> {
    for (height, first, filled) in [
        (0, 5, 0),
        (3, 5, 2),
        (3, 5, 3),
        (3, 5, 4),
        (1024, 5, 3),
        (1025, 5, 3),
        (3, 4294967292, 3),
        (3, 4294967293, 3),
        (3, 4294967293, 4),
        (1025, 4294967293, 4),
    ] {
        clone_with(out, &state_of(height, first, filled, 2), &[70, 71, 72, 73])?;
    }
    for (height, first, filled) in [(3, 5, 2), (3, 5, 3), (3, 4294967292, 2), (3, 4294967293, 2)] {
        clone_with(out, &state_of(height, first, filled, 2), &[70, 71])?;
    }
    Ok(())
}

fn asking(out: &mut impl Write) -> io::Result<()> {
    for (first, filled, target) in [
        (5, 0, 70),
        (5, 1, 70),
        (5, 2, 70),
        (5, 3, 70),
        (5, 3, 72),
        (5, 4, 72),
        (5, 9, 72),
        (5, 4, 73),
        (4294967294, 4, 71),
        (u32::MAX, 4, 71),
        (u32::MAX, 4, 70),
        (u32::MAX, 1, 70),
    ] {
        get_spilled(out, first, filled, target)?;
    }
    for (first, filled) in [
        (0, 0),
        (5, 2),
        (u32::MAX, 0),
        (4294967293, 2),
        (4294967294, 2),
        (0, usize::MAX),
    ] {
        into_next_alloc_id(out, first, filled)?;
    }
    for (first, i) in [
        (0, 4294967295),
        (0, 4294967296),
        (u32::MAX, 0),
        (u32::MAX, 1),
    ] {
        alloc_id(out, first, i)?;
    }
    for (height, first, filled) in [(0, 0, 0), (1024, u32::MAX, 2), (1025, 5, 3), (3, 5, 4)] {
        parts_are(out, height, first, filled)?;
    }
    Ok(())
}

pub(crate) fn run(out: &mut impl Write) -> io::Result<()> {
    from_evm(out)?;
    from_parts(out)?;
    cloning(out)?;
    asking(out)
}
