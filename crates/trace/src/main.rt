//! Reads one job from standard input and writes its trace; with an argument, the trace of the list in that file. The work is `tracing`'s.
#![tactic(auto)]

use input::{Inputs, read_full};
use std::env::{Env, FillError};
use std::io::{self, ErrorKind, Write};
use std::process::ExitCode;
use std::rt::Files;
use std::str;
use tracing::{room, trace_job, trace_list};

/// The list in a file, on a job. One byte more than a list may have is read, so that a longer one shows.
fn list<R: Files + Eprint>(
    out: &mut impl Write,
    inputs: &mut Inputs<'_, R>,
    path: &str,
    bytes: &[u8],
) -> io::Result<()> {
    let Some(mut file) = inputs.open(path) else {
        return Ok(());
    };
    let mut text = [0u8; 131072];
    let mut lines = room();
    let n = read_full(&mut file, &mut text)?;
    let len = trace_list(bytes, &text[..n], &mut lines);
    out.write_all(&lines[..len.min(lines.len())])
}

/// The run of a job.
fn run(out: &mut impl Write, bytes: &[u8]) -> io::Result<()> {
    let mut lines = room();
    let len = trace_job(bytes, &mut lines);
    out.write_all(&lines[..len.min(lines.len())])
}

/// One byte more than a job may have is read, as the driver does. A name that no path can have is taken for an empty one.
fn main(rt: HostRuntime) -> io::Result<ExitCode> {
    let mut bytes = [0u8; 16421];
    let n = read_full(&mut rt.reader(), &mut bytes)?;
    let mut inputs = Inputs::new(&rt);
    let mut out = io::writer(&rt);
    let mut path = [0u8; 4095];
    match rt.arg(1, &mut path) {
        Err(FillError::NotPresent) => run(&mut out, &bytes[..n])?,
        Err(FillError::TooLong) => list(&mut out, &mut inputs, "", &bytes[..n])?,
        Ok(k) => match str::from_utf8(&path[..k]) {
            Ok(path) => list(&mut out, &mut inputs, path, &bytes[..n])?,
            Err(_) => return Err(io::Error::from(ErrorKind::InvalidInput)),
        },
    }
    Ok(inputs.status())
}
