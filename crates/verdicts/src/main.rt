//! Puts to the checker a list for each of its codes, and lists on both sides of each limit. It writes what it lends, the verdict, and the
//! slots after it.
#![tactic(auto)]

use operations::ScheduleConfig;
use std::fmt;
use std::io::{self, Write};

/// How many words there are, and the first eight of them.
#[derive(Clone, Copy)]
struct Words<'a>(&'a [u32]);

impl fmt::Display for Words<'_> {
    fn fmt<W: fmt::Write>(&self, f: &mut fmt::Formatter<W>) -> fmt::Result {
        write!(f, "{}:", self.0.len())?;
        for word in self.0.iter().take(8) {
            write!(f, " {word}")?;
        }
        Ok(())
    }
}

/// A job that is put to the checker, with the first so many of four slots.
#[derive(Clone, Copy)]
struct Job<'a> {
    start: &'a [u32],
    slots: usize,
    filled: usize,
    first: u32,
    target: &'a [u32],
    swaps: u8,
    dups: u8,
}

impl Job<'_> {
    /// One list: what is lent, and what comes of it.
    fn put(&self, out: &mut impl Write, ops: &[u32]) -> io::Result<()> {
        let Job {
            start,
            slots,
            filled,
            first,
            target,
            swaps,
            dups,
        } = *self;
        let config = ScheduleConfig {
            max_swap_depth: swaps,
            max_dup_depth: dups,
            ..ScheduleConfig::PRE_AMSTERDAM
        };
        let mut words = [70, 71, 72, 73];
        let spill = &mut words[..slots.min(4)];
        write!(out, "S {swaps} D {dups} first {first} filled {filled}")?;
        write!(out, " start {}", Words(start))?;
        write!(out, " target {}", Words(target))?;
        write!(out, " words {}", Words(ops))?;
        let found = replay::check(start, spill, filled, first, target, config, ops);
        write!(out, "\n  code {} index {}", found.code(), found.index)?;
        write!(out, " gas {} filled {}", found.gas, found.filled)?;
        writeln!(out, " slots {}", Words(spill))
    }
}

/// Starts and lists on the limits 2 and 1, with the target 1 2 3 and the slots 5 to 8, of which 5 and 6 are filled.
const SMALL: [(&[u32], &[u32]); 61] = [
    // 31: a kind that is none, a Pop with an argument
    (&[1, 2, 3], &[0, 0]),
    (&[1, 2, 3], &[6, 0]),
    (&[1, 2, 3], &[4294967295, 1]),
    (&[1, 2, 3], &[3, 1]),
    (&[1, 2, 3], &[3, 4294967295]),
    (&[1, 2, 3], &[3, 0, 0, 0]),
    (&[], &[3, 1]),
    // 32 and 33: Swap within S, which is 2, and within the stack
    (&[1, 2, 3], &[1, 0]),
    (&[1, 2, 3], &[1, 1, 1, 1]),
    (&[1, 2, 3], &[1, 2, 1, 2]),
    (&[1, 2, 3], &[1, 3]),
    (&[1, 2, 3], &[1, 256]),
    (&[1, 2, 3], &[1, 258]),
    (&[1, 2, 3], &[1, 4294967295]),
    (&[1], &[1, 1]),
    (&[1, 2], &[1, 2]),
    (&[], &[1, 0]),
    (&[], &[1, 3]),
    // 34 and 35: Dup within D, which is 1, and within the stack
    (&[1, 2, 3], &[2, 0, 3, 0]),
    (&[1, 2, 3], &[2, 1, 3, 0]),
    (&[1, 2, 3], &[2, 2]),
    (&[1, 2, 3], &[2, 256]),
    (&[1, 2, 3], &[2, 257]),
    (&[1, 2, 3], &[2, 4294967295]),
    (&[], &[2, 0]),
    (&[1], &[2, 1]),
    (&[], &[2, 2]),
    // 37: a Pop or a Store on nothing, whatever slot it names
    (&[1, 2, 3], &[3, 0, 3, 0, 3, 0, 3, 0]),
    (&[1, 2, 3], &[4, 7, 4, 8, 3, 0, 4, 9]),
    (&[], &[4, 6]),
    // 38 and 39: the next slot is 7, the last one 8
    (&[1, 2, 3], &[4, 6]),
    (&[1, 2, 3], &[4, 8]),
    (&[1, 2, 3], &[4, 4294967295]),
    (&[1, 2, 3], &[4, 7, 5, 7]),
    (&[1, 2, 3], &[4, 7, 4, 7]),
    (&[1, 2, 3], &[4, 7, 4, 8, 5, 8, 5, 7]),
    (&[1, 2, 3], &[4, 7, 4, 8, 4, 9]),
    (&[1, 2, 3], &[4, 7, 4, 8, 4, 10]),
    // 40: slots 5 and 6 are filled
    (&[1, 2, 3], &[5, 4]),
    (&[1, 2, 3], &[5, 5, 3, 0]),
    (&[1, 2, 3], &[5, 6, 3, 0]),
    (&[1, 2, 3], &[5, 7]),
    (&[1, 2, 3], &[5, 0]),
    (&[1, 2, 3], &[5, 4294967295]),
    (&[1, 2, 3], &[5, 7, 4, 7]),
    // 41, 30 and 0: the end of the list
    (&[1, 2, 3], &[]),
    (&[], &[]),
    (&[1, 2, 4], &[]),
    (&[1, 2], &[]),
    (&[1, 2, 3, 4], &[]),
    (&[1, 2, 3], &[3]),
    (&[1, 2, 3], &[4, 7, 3]),
    (&[], &[3]),
    (&[1, 2, 3], &[1; 20000]),
    (&[1, 2, 3], &[1; 20001]),
    (&[1, 2, 3], &[1, 1]),
    (&[1, 2, 3], &[2, 0]),
    (&[1, 2, 3], &[3, 0]),
    (&[1, 2, 3], &[4, 7]),
    (&[1, 2, 3], &[5, 6]),
    (&[1, 2, 3], &[3, 0, 3, 0, 5, 5, 4, 7, 1, 1]),
];

/// Heights of a start and of a target of sevens, the two limits, and a list, on the same slots.
const TALL: [(usize, usize, u8, u8, &[u32]); 20] = [
    // 36: the height 1,024
    (1023, 1024, 16, 15, &[2, 0]),
    (1024, 1024, 16, 15, &[2, 0]),
    (1024, 1024, 16, 15, &[2, 15]),
    (1024, 1024, 16, 15, &[2, 16]),
    (1023, 1023, 16, 15, &[5, 6, 1, 16]),
    (1024, 1024, 16, 15, &[5, 5]),
    (1024, 1024, 16, 15, &[5, 7]),
    (1024, 1024, 16, 15, &[3, 0, 2, 0, 2, 0]),
    (1024, 1024, 16, 15, &[1, 16]),
    (1024, 1023, 16, 15, &[4, 7]),
    // arguments of 255 and 256 where the limits are 255
    (256, 256, 255, 255, &[1, 255]),
    (255, 255, 255, 255, &[1, 255]),
    (257, 257, 255, 255, &[1, 256]),
    (256, 257, 255, 255, &[2, 255]),
    (255, 255, 255, 255, &[2, 255]),
    (257, 257, 255, 255, &[2, 256]),
    (2, 2, 1, 0, &[1, 1]),
    (3, 3, 1, 0, &[1, 2]),
    (1, 2, 1, 0, &[2, 0]),
    (2, 2, 1, 0, &[2, 1]),
];

/// Heights of a start and of a target of sevens, the slots that are filled, the first one's number, the swap limit, and a list.
const EDGES: [(usize, usize, usize, u32, u8, &[u32]); 10] = [
    // 1 to 5 in their order, and each just within its limit; the words are odd, so that the next code is 30
    (1025, 1025, 5, 4294967292, 0, &[3]),
    (1025, 1025, 5, 4294967292, 1, &[3]),
    (1024, 1025, 5, 4294967292, 1, &[3]),
    (1024, 1024, 5, 4294967292, 1, &[3]),
    (1024, 1024, 4, 4294967292, 1, &[3]),
    (1024, 1024, 4, 4294967291, 1, &[3]),
    // slots up to number 4,294,967,294
    (2, 2, 3, 4294967291, 16, &[4, 4294967294, 5, 4294967294]),
    (2, 2, 3, 4294967291, 16, &[4, 4294967294, 4, 4294967295]),
    (2, 2, 4, 4294967291, 16, &[5, 4294967295]),
    (2, 2, 4, 4294967291, 16, &[5, 4294967290]),
];

/// Lists on a buffer with no slots, and how many of them are said to be filled.
const NO_SLOTS: [(usize, &[u32]); 3] = [(0, &[4, 5]), (0, &[5, 5]), (1, &[3, 0])];

/// The lists on tall stacks.
fn on_tall_stacks(out: &mut impl Write, small: Job) -> io::Result<()> {
    let sevens = [7; 1025];
    for (height, target, swaps, dups, ops) in TALL {
        let job = Job {
            start: &sevens[..height.min(1025)],
            target: &sevens[..target.min(1025)],
            swaps,
            dups,
            ..small
        };
        job.put(out, ops)?;
    }
    Ok(())
}

/// The lists on the edges of a job.
fn on_edges(out: &mut impl Write, small: Job) -> io::Result<()> {
    let sevens = [7; 1025];
    for (height, target, filled, first, swaps, ops) in EDGES {
        let job = Job {
            start: &sevens[..height.min(1025)],
            filled,
            first,
            target: &sevens[..target.min(1025)],
            swaps,
            dups: 15,
            ..small
        };
        job.put(out, ops)?;
    }
    Ok(())
}

fn main(rt: HostRuntime) -> io::Result<()> {
    let mut out = io::writer(&rt);
    let small = Job {
        start: &[],
        slots: 4,
        filled: 2,
        first: 5,
        target: &[1, 2, 3],
        swaps: 2,
        dups: 1,
    };
    for (start, ops) in SMALL {
        Job { start, ..small }.put(&mut out, ops)?;
    }
    on_tall_stacks(&mut out, small)?;
    on_edges(&mut out, small)?;
    for (filled, ops) in NO_SLOTS {
        let job = Job {
            start: &[1],
            slots: 0,
            filled,
            target: &[1],
            ..small
        };
        job.put(&mut out, ops)?;
    }
    Ok(())
}
