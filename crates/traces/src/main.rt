//! Traces stored jobs, and stored lists on them, one after the other, and writes each one's name and its trace.
#![tactic(auto)]

ghost use Rattle.std.specs.Prelude.{◌≤◌, length, IfOk};

use input::{Inputs, read_full};
use std::io::{self, Write};
use std::process::ExitCode;
use std::rt::Files;
use tracing::{room, trace_job, trace_list, trace_words};

/// A file's bytes, as many as the buffer takes; how many there are.
fn read<R: Files + Eprint>(
    inputs: &mut Inputs<'_, R>,
    path: &str,
    bytes: &mut [u8],
) -> io::Result<usize>
    ensures { IfOk result (λ n. n ≤ length bytes.new) }
{
    let Some(mut file) = inputs.open(path) else {
        return Ok(0);
    };
    read_full(&mut file, bytes)
}

/// The first and the last four hundred bytes of the lines, where there are more than eight hundred.
fn write_ends(out: &mut impl Write, lines: &[u8]) -> io::Result<()> {
    if lines.len() > 800 {
        let (first, _) = lines.split_at(400);
        let (_, last) = lines.split_at(lines.len() - 400);
        out.write_all(first)?;
        out.write_all(b"\n..\n")?;
        out.write_all(last)?;
    }
    Ok(())
}

/// The trace of a job. The lines are lent, here and below: so many bytes stand on the stack once.
fn job<R: Files + Eprint>(
    out: &mut impl Write,
    inputs: &mut Inputs<'_, R>,
    lines: &mut [u8],
    path: &str,
) -> io::Result<()> {
    let mut bytes = [0u8; 16421];
    writeln!(out, "{path}")?;
    let n = read(inputs, path, &mut bytes)?;
    let len = trace_job(&bytes[..n], lines);
    out.write_all(&lines[..len.min(lines.len())])
}

/// The same of a long one, cut.
fn long_job<R: Files + Eprint>(
    out: &mut impl Write,
    inputs: &mut Inputs<'_, R>,
    lines: &mut [u8],
    path: &str,
) -> io::Result<()> {
    let mut bytes = [0u8; 16421];
    writeln!(out, "{path}")?;
    let n = read(inputs, path, &mut bytes)?;
    let len = trace_job(&bytes[..n], lines);
    write_ends(out, &lines[..len.min(lines.len())])
}

/// The trace of a list on a job.
fn list<R: Files + Eprint>(
    out: &mut impl Write,
    inputs: &mut Inputs<'_, R>,
    lines: &mut [u8],
    path: &str,
    on: &str,
) -> io::Result<()> {
    let mut bytes = [0u8; 16421];
    let mut listed = [0u8; 16421];
    writeln!(out, "{path} on {on}")?;
    let n = read(inputs, on, &mut bytes)?;
    let k = read(inputs, path, &mut listed)?;
    let len = trace_list(&bytes[..n], &listed[..k], lines);
    out.write_all(&lines[..len.min(lines.len())])
}

/// The trace of operation words, for those that no text gives.
fn words<R: Files + Eprint>(
    out: &mut impl Write,
    inputs: &mut Inputs<'_, R>,
    lines: &mut [u8],
    name: &str,
    on: &str,
    list: &[u32],
) -> io::Result<()> {
    let mut bytes = [0u8; 16421];
    writeln!(out, "{name} on {on}")?;
    let n = read(inputs, on, &mut bytes)?;
    let len = trace_words(&bytes[..n], list, lines);
    out.write_all(&lines[..len.min(lines.len())])
}

/// The runs worked by hand, A to L, and N both ways, which shows a stack that is cut.
fn table<R: Files + Eprint>(
    out: &mut impl Write,
    inputs: &mut Inputs<'_, R>,
    lines: &mut [u8],
) -> io::Result<()> {
    for path in [
        "a.job", "b.job", "c.job", "d.job", "e.job", "f.job", "g.job", "h.job", "i.job", "j.job",
        "k.job", "l.job", "n.job", "n2.job",
    ] {
        job(out, inputs, lines, path)?;
    }
    Ok(())
}

/// Each other code that a job can get from the driver.
fn codes<R: Files + Eprint>(
    out: &mut impl Write,
    inputs: &mut Inputs<'_, R>,
    lines: &mut [u8],
) -> io::Result<()> {
    for path in [
        "code1.job",
        "code2.job",
        "code3.job",
        "code4.job",
        "code5.job",
        "code10.job",
    ] {
        job(out, inputs, lines, path)?;
    }
    long_job(out, inputs, lines, "code11.job")?;
    job(out, inputs, lines, "empty.job")
}

/// Each verdict on a list from elsewhere, the driver's own output first.
fn verdicts<R: Files + Eprint>(
    out: &mut impl Write,
    inputs: &mut Inputs<'_, R>,
    lines: &mut [u8],
) -> io::Result<()> {
    for (path, on) in [
        ("l.list", "l.job"),
        ("restored.list", "v.job"),
        ("32.list", "v.job"),
        ("32zero.list", "v.job"),
        ("33.list", "v.job"),
        ("34.list", "v.job"),
        ("35.list", "v.job"),
        ("36.list", "n.job"),
        ("37.list", "v.job"),
        ("38.list", "v.job"),
        ("39.list", "full.job"),
        ("40.list", "v.job"),
        ("41.list", "v.job"),
        ("41.list", "code1.job"),
        ("41.list", "code2.job"),
        ("41.list", "code3.job"),
        ("41.list", "code4.job"),
        ("41.list", "code5.job"),
        ("41.list", "empty.job"),
    ] {
        list(out, inputs, lines, path, on)?;
    }
    Ok(())
}

/// Words that are no list, and lists that cannot be read.
fn no_lists<R: Files + Eprint>(
    out: &mut impl Write,
    inputs: &mut Inputs<'_, R>,
    lines: &mut [u8],
) -> io::Result<()> {
    words(out, inputs, lines, "3 words", "v.job", &[3, 0, 3])?;
    words(
        out,
        inputs,
        lines,
        "an unknown kind",
        "v.job",
        &[3, 0, 6, 258],
    )?;
    words(
        out,
        inputs,
        lines,
        "a Pop with an argument",
        "v.job",
        &[3, 7],
    )?;
    for path in [
        "spelling.list",
        "zero.list",
        "large.list",
        "exchange.list",
        "answer.list",
        "many.list",
    ] {
        list(out, inputs, lines, path, "v.job")?;
    }
    Ok(())
}

fn main(rt: HostRuntime) -> io::Result<ExitCode> {
    let mut out = io::writer(&rt);
    let mut inputs = Inputs::new(&rt);
    let mut lines = room();
    table(&mut out, &mut inputs, &mut lines)?;
    codes(&mut out, &mut inputs, &mut lines)?;
    verdicts(&mut out, &mut inputs, &mut lines)?;
    no_lists(&mut out, &mut inputs, &mut lines)?;
    Ok(inputs.status())
}
