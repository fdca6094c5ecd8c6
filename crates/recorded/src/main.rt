//! Puts the recorded jobs to the driver's work and compares every line that it writes with what the original Rust answered.
#![tactic(auto)]

use compare::Outcome;
use input::{Inputs, read_full};
use std::io::{self, Read, Write};
use std::process::ExitCode;
use std::rt::Files;

mod compare;
mod packed;

const CLASSES: [&str; 12] = [
    "cases",
    "limits",
    "all-small",
    "random-small",
    "medium",
    "low-swap-tall",
    "near-1024",
    "to-255",
    "little-room",
    "top-of-range",
    "endless",
    "driver-limits",
];

/// What came of the classes so far: their jobs, and how many were answered otherwise than recorded.
#[derive(Clone, Copy, Default)]
struct Tally {
    jobs: u32,
    differ: u32,
}

/// The codes that came, each with how often.
fn show_codes(out: &mut impl Write, codes: &[u32]) -> io::Result<()> {
    for (code, count) in codes.iter().enumerate() {
        if 0 < *count {
            write!(out, " {code}:{count}")?;
        }
    }
    Ok(())
}

/// The next four bytes of a file as a number; what the file does not have is 0.
fn next_word(file: &mut impl Read) -> io::Result<u32> {
    let mut four = [0; 4];
    read_full(file, &mut four)?;
    Ok(u32::from_le_bytes(four))
}

/// The next record of a file, put to the driver's work. One that is longer than its room differs.
fn next_record(
    file: &mut impl Read,
    bytes: &mut [u8],
    job: &mut [u8],
    lines: &mut [u8],
) -> io::Result<Outcome> {
    let len = next_word(file)? as usize;
    let Some(bytes) = bytes.get_mut(..len) else {
        return Ok(Outcome {
            code: 0,
            agrees: false,
        });
    };
    let n = read_full(file, bytes)?;
    Ok(compare::put_to(&bytes[..n], job, lines))
}

/// So many records of a file; how many differ. The first twenty of them are named.
fn records(
    out: &mut impl Write,
    file: &mut impl Read,
    name: &str,
    count: u32,
    codes: &mut [u32],
) -> io::Result<u32> {
    let mut bytes = [0; 65536];
    let mut job = [0; 16420];
    let mut lines = [0; 221344];
    let mut differ = 0u32;
    for i in 0..count {
        let found = next_record(file, &mut bytes, &mut job, &mut lines)?;
        if let Some(count) = codes.get_mut(usize::from(found.code)) {
            *count = count.saturating_add(1);
        }
        if found.agrees {
            continue;
        }
        if differ < 20 {
            writeln!(out, "differs: {name} job {}", i + 1)?;
        }
        differ = differ.saturating_add(1);
    }
    Ok(differ)
}

/// One class: a line with its jobs, the codes recorded and how many jobs differ. A file that is not there differs.
fn class<R: Files + Eprint>(
    out: &mut impl Write,
    inputs: &mut Inputs<'_, R>,
    name: &str,
) -> io::Result<Tally> {
    let Some(mut file) = inputs.open(name) else {
        return Ok(Tally { jobs: 0, differ: 1 });
    };
    let mut codes = [0; 14];
    let jobs = next_word(&mut file)?;
    let differ = records(out, &mut file, name, jobs, &mut codes)?;
    write!(out, "{name} {jobs} jobs,")?;
    show_codes(out, &codes)?;
    writeln!(out, ", {differ} differ")?;
    Ok(Tally { jobs, differ })
}

fn main(rt: HostRuntime) -> io::Result<ExitCode> {
    let mut out = io::writer(&rt);
    let mut inputs = Inputs::new(&rt);
    let mut all = Tally::default();
    for name in CLASSES {
        let found = class(&mut out, &mut inputs, name)?;
        all.jobs = all.jobs.saturating_add(found.jobs);
        all.differ = all.differ.saturating_add(found.differ);
    }
    writeln!(out, "{} jobs, {} differ", all.jobs, all.differ)?;
    Ok(inputs.status())
}
