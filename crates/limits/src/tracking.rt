//! The operations of a tracked state. Lent are the three slots 70 71 72 and five words, all 9: room for two operations, and one word over.
use super::show::{asked_of, buffers, state_after, state_of, step};
use scope::Step;
use std::io::{self, Write};
use tracked_state::TrackedState;

/// A step of this state, and both buffers after it.
fn performed<F: FnOnce(&mut TrackedState, &mut [u32], &mut [u32]) -> Step>(
    out: &mut impl Write,
    before: &TrackedState,
    spill: &mut [u32],
    ops: &mut [u32],
    call: F,
) -> io::Result<()>
    requires { F.IsAlwaysCallable call }
{
    asked_of(out, before)?;
    let mut after = *before;
    step(out, call(&mut after, ops, spill))?;
    state_after(out, before, &after)?;
    buffers(out, spill, ops)
}

/// Such a step with the slots and the words that are lent here.
fn tried<F: FnOnce(&mut TrackedState, &mut [u32], &mut [u32]) -> Step>(
    out: &mut impl Write,
    before: &TrackedState,
    call: F,
) -> io::Result<()>
    requires { F.IsAlwaysCallable call }
{
    performed(out, before, &mut [70, 71, 72], &mut [9; 5], call)
}

fn pop(out: &mut impl Write, height: u16, written: usize) -> io::Result<()> {
    write!(out, "pop")?;
    let before = state_of(height, 5, 2, written);
    tried(out, &before, |state, ops, _| state.pop(ops))
}

fn swap(out: &mut impl Write, height: u16, depth: u8, written: usize) -> io::Result<()> {
    write!(out, "swap {depth}")?;
    let before = state_of(height, 5, 2, written);
    tried(out, &before, |state, ops, _| state.swap(ops, depth))
}

fn dup(out: &mut impl Write, height: u16, depth: u8, written: usize) -> io::Result<()> {
    write!(out, "dup {depth}")?;
    let before = state_of(height, 5, 2, written);
    tried(out, &before, |state, ops, _| state.dup(ops, depth))
}

fn spill_top(out: &mut impl Write, before: &TrackedState) -> io::Result<()> {
    write!(out, "spill_top")?;
    tried(out, before, |state, ops, spill| state.spill_top(ops, spill))
}

fn load(out: &mut impl Write, before: &TrackedState, id: u32) -> io::Result<()> {
    write!(out, "load {id}")?;
    tried(out, before, |state, ops, spill| state.load(ops, spill, id))
}

/// The slots are 70 71 70 72 here.
fn unspill(out: &mut impl Write, before: &TrackedState, target: u32) -> io::Result<()> {
    write!(out, "unspill {target}")?;
    let mut spill = [70, 71, 70, 72];
    performed(out, before, &mut spill, &mut [9; 5], |state, ops, spill| {
        state.unspill(ops, spill, target)
    })
}

/// Drops the only value, with these operation words.
fn pop_in(out: &mut impl Write, name: &str, written: usize, ops: &mut [u32]) -> io::Result<()> {
    write!(out, "{name}")?;
    let before = state_of(1, 5, 2, written);
    performed(out, &before, &mut [70, 71, 72], ops, |state, ops, _| {
        state.pop(ops)
    })
}

/// Operation buffers of 0, 1, 2 and 3 words.
fn rooms(out: &mut impl Write) -> io::Result<()> {
    pop_in(out, "pop in 0 words", 0, &mut [])?;
    pop_in(out, "pop in 1 word", 0, &mut [9])?;
    pop_in(out, "pop in 2 words", 0, &mut [9, 9])?;
    pop_in(out, "pop in 3 words", 0, &mut [9, 9, 9])?;
    pop_in(out, "pop in 3 words", 1, &mut [9, 9, 9])
}

fn pops(out: &mut impl Write) -> io::Result<()> {
    for (height, written) in [
        (0, 0),
        (0, 2),
        (1, 0),
        (1, 1),
        (1, 2),
        (1, 3),
        (1, usize::MAX),
        (1023, 0),
        (1024, 1),
        (1025, 1),
        (65535, 2),
    ] {
        pop(out, height, written)?;
    }
    Ok(())
}

fn swaps(out: &mut impl Write) -> io::Result<()> {
    for (height, depth, written) in [
        (0, 0, 2),
        (3, 0, 0),
        (0, 1, 0),
        (0, 1, 2),
        (1, 1, 0),
        (3, 1, 0),
        (3, 2, 1),
        (3, 2, 2),
        (3, 3, 1),
        (3, 3, 2),
        (255, 255, 0),
        (256, 255, 0),
        (1024, 255, 1),
        (65535, 1, 1),
        (65535, 1, 2),
        (3, 1, usize::MAX),
    ] {
        swap(out, height, depth, written)?;
    }
    Ok(())
}

fn dups(out: &mut impl Write) -> io::Result<()> {
    for (height, depth, written) in [
        (0, 0, 0),
        (0, 0, 2),
        (1, 0, 0),
        (1, 1, 0),
        (3, 2, 1),
        (3, 2, 2),
        (3, 3, 1),
        (3, 3, 2),
        (255, 255, 0),
        (256, 255, 0),
        (1023, 0, 1),
        (1023, 0, 2),
        (1024, 0, 1),
        (1024, 255, 2),
        (65535, 0, 0),
        (3, 0, usize::MAX),
    ] {
        dup(out, height, depth, written)?;
    }
    Ok(())
}

fn spills(out: &mut impl Write) -> io::Result<()> {
    for (height, first, filled, written) in [
        (0, 5, 2, 0),
        (0, 5, 3, 2),
        (1, 5, 0, 0),
        (1, 5, 2, 0),
        (1, 5, 3, 0),
        (1, 5, 4, 0),
        (1, 5, usize::MAX, 0),
        (1, 5, 2, 1),
        (1, 5, 2, 2),
        (1, 5, 3, 2),
        (1, 4294967293, 2, 0),
        (1, 4294967294, 2, 0),
        (1, 4294967294, 2, 2),
        (1, u32::MAX, 0, 0),
        (1024, 5, 2, 1),
        (65535, 5, 2, 1),
    ] {
        spill_top(out, &state_of(height, first, filled, written))?;
    }
    Ok(())
}

fn loads(out: &mut impl Write) -> io::Result<()> {
    for (height, first, filled, written, id) in [
        (1, 5, 2, 0, 4),
        (1, 5, 2, 0, 5),
        (1, 5, 2, 0, 6),
        (1, 5, 2, 0, 7),
        (1, 5, 3, 0, 7),
        (1, 5, 3, 0, 8),
        (1, 5, 9, 0, 7),
        (1, 5, 9, 0, 8),
        (1, 5, 0, 0, 5),
        (1, 5, 2, 0, u32::MAX),
        (0, 0, 1, 0, 0),
        (1, 4294967294, 2, 0, u32::MAX),
        (1, 4294967294, 1, 0, u32::MAX),
        (1, 5, 2, 1, 6),
        (1, 5, 2, 2, 6),
        (1, 5, 2, 2, 7),
        (1023, 5, 2, 1, 6),
        (1023, 5, 2, 2, 6),
        (1024, 5, 2, 1, 6),
        (1024, 5, 2, 2, 6),
        (1024, 5, 2, 2, 7),
        (1024, 5, 2, 2, 4),
        (65535, 5, 2, 1, 6),
    ] {
        load(out, &state_of(height, first, filled, written), id)?;
    }
    Ok(())
}

fn unspills(out: &mut impl Write) -> io::Result<()> {
    for (height, first, filled, written, target) in [
        (1, 5, 0, 0, 70),
        (1, 5, 1, 0, 70),
        (1, 5, 2, 0, 70),
        (1, 5, 3, 0, 70),
        (1, 5, 3, 0, 72),
        (1, 5, 4, 0, 72),
        (1, 5, 9, 0, 72),
        (1, 5, 4, 0, 73),
        (0, 5, 4, 0, 71),
        (1, 5, 4, 1, 71),
        (1, 5, 4, 2, 71),
        (1, 5, 4, 2, 73),
        (1, 4294967294, 4, 0, 71),
        (1, u32::MAX, 4, 0, 71),
        (1, u32::MAX, 4, 0, 70),
        (1023, 5, 4, 1, 71),
        (1023, 5, 4, 2, 71),
        (1024, 5, 4, 1, 71),
        (1024, 5, 4, 2, 71),
        (1024, 5, 4, 2, 73),
        (65535, 5, 4, 1, 71),
    ] {
        unspill(out, &state_of(height, first, filled, written), target)?;
    }
    Ok(())
}

pub(crate) fn run(out: &mut impl Write) -> io::Result<()> {
    pops(out)?;
    rooms(out)?;
    swaps(out)?;
    dups(out)?;
    spills(out)?;
    loads(out)?;
    unspills(out)
}
