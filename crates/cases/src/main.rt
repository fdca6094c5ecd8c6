//! Puts stored jobs to the driver's work, one after the other, and writes each one's name and the lines that answer it.
#![tactic(auto)]

use driving::answer_job;
use input::{Inputs, read_full};
use std::io::{self, Write};
use std::process::ExitCode;
use std::rt::Files;

/// The runs worked by hand, A to L, and N both ways.
const TABLE: [&str; 14] = [
    "a.job", "b.job", "c.job", "d.job", "e.job", "f.job", "g.job", "h.job", "i.job", "j.job",
    "k.job", "l.job", "n.job", "n2.job",
];

/// Each other code that a shuffle gives the driver, 1 to 5, 10 and 11, and the jobs next to 4 and 5 that pass.
const CODES: [&str; 9] = [
    "code1.job",
    "code2.job",
    "code3.job",
    "code4.job",
    "code5.job",
    "first_last.job",
    "slots_full.job",
    "code10.job",
    "code11.job",
];

/// Bytes that are no job, each for one reason: too short, an offset, a sum that would wrap, a length, a limit; and jobs next to them.
const NO_JOBS: [&str; 21] = [
    "empty.job",
    "short35.job",
    "start_offset.job",
    "spilled_offset.job",
    "target_offset.job",
    "start_offset_list.job",
    "spilled_offset_list.job",
    "target_offset_list.job",
    "wrap_start.job",
    "wrap_spilled.job",
    "wrap_target.job",
    "byte_less.job",
    "byte_more.job",
    "word_less.job",
    "word_more.job",
    "longest.job",
    "too_long.job",
    "byte_too_long.job",
    "s255.job",
    "s256.job",
    "d256.job",
];

/// One stored job: its name, then its answer. One byte more than a job may have is read, as the driver does.
fn one<R: Files + Eprint>(
    out: &mut impl Write,
    inputs: &mut Inputs<'_, R>,
    path: &str,
) -> io::Result<()> {
    writeln!(out, "{path}")?;
    let Some(mut file) = inputs.open(path) else {
        return Ok(());
    };
    let mut bytes = [0; 16421];
    let mut lines = [0; 221344];
    let n = read_full(&mut file, &mut bytes)?;
    if let Ok(len) = answer_job(&bytes[..n], &mut lines)
        && let Some(text) = lines.get(..len)
    {
        out.write_all(text)?;
    }
    Ok(())
}

fn main(rt: HostRuntime) -> io::Result<ExitCode> {
    let mut out = io::writer(&rt);
    let mut inputs = Inputs::new(&rt);
    for path in TABLE.iter().chain(&CODES).chain(&NO_JOBS) {
        one(&mut out, &mut inputs, path)?;
    }
    Ok(inputs.status())
}
