//! Reads one job from standard input and writes the lines that answer it. The work is `driving`'s.
#![tactic(auto)]

use driving::answer_job;
use input::read_full;
use std::io::{self, Write};

/// One byte more than a job may have is read, so that a longer one shows.
fn main(rt: HostRuntime) -> io::Result<()> {
    let mut bytes = [0; 16421];
    let mut lines = [0; 221344];
    let n = read_full(&mut rt.reader(), &mut bytes)?;
    if let Ok(len) = answer_job(&bytes[..n], &mut lines)
        && let Some(text) = lines.get(..len)
    {
        io::writer(&rt).write_all(text)?;
    }
    Ok(())
}
