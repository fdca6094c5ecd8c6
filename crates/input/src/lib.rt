//! What the programs read: bytes until a buffer is full, and files by name; one that cannot be opened is named on standard error.
#![tactic(auto)]

ghost use Rattle.std.specs.Prelude.{◌≡◌, ◌<◌, ◌≤◌, true, false, length, take, IfOk, IfNone};
ghost use Rattle.std.specs.Io.KnownBytes.{Consumes, IsAtEnd};
ghost use Rattle.std.specs.Process.{exit_status};

use std::io::{self, Cursor, Read, Write};
use std::process::ExitCode;
use std::rt::Files;
use std::{fs, str};

/// Reads until the buffer is full or the reader ends; how many bytes came, at the buffer's low end.
pub fn read_full<R: Read>(reader: &mut R, bytes: &mut [u8]) -> io::Result<usize>
    ensures within { IfOk result (λ n. n ≤ length bytes.new) }
    ensures read { IfOk result (λ n. Consumes (R.remaining reader.old) (R.remaining reader.new) (take n bytes.new)) }
    ensures end { IfOk result (λ n. n < length bytes.new → IsAtEnd (R.remaining reader.new)) }
{
    let mut filled = 0;
    while filled < bytes.len() {
        let n = reader.read(&mut bytes[filled..])?;
        if n == 0 {
            break;
        }
        filled += n;
    }
    Ok(filled)
}

/// The files of a run, and whether one of them could not be opened.
#[derive(Drop)]
pub struct Inputs<'a, R> {
    rt: &'a R,
    missing: bool,
}

impl<'a, R: Files + Eprint> Inputs<'a, R> {
    /// No file is missing yet.
    pub fn new(rt: &'a R) -> Self
        ensures { result.missing ≡ false }
    {
        Inputs { rt, missing: false }
    }

    /// The file, or nothing where it cannot be opened. Then a line on standard error has its name and what the system says.
    pub fn open(&mut self, path: &str) -> Option<R::File>
        ensures named { IfNone result (self.new.missing ≡ true) }
        ensures kept { self.old.missing ≡ true → self.new.missing ≡ true }
    {
        match fs::open(self.rt, path) {
            Ok(file) => Some(file),
            Err(error) => {
                self.missing = true;
                let mut said = Cursor::new([0u8; 256]);
                let _ = write!(said, "{error}");
                let len = said.position() as usize;
                let text = said.get_ref().get(..len).unwrap_or(b"");
                let _ = eprintln!(self.rt;
                    "{path}: {}",
                    before(str::from_utf8(text).unwrap_or(""), " (os error ")
                );
                None
            }
        }
    }

    /// The status to end with: 1 where a file could not be opened.
    pub fn status(&self) -> ExitCode
        ensures missing { self.now.missing ≡ true → exit_status result ≡ 1 }
        ensures found { self.now.missing ≡ false → exit_status result ≡ 0 }
    {
        if self.missing {
            ExitCode::FAILURE
        } else {
            ExitCode::SUCCESS
        }
    }
}

/// A text up to where a mark begins in it, all of it where there is none.
fn before<'a>(text: &'a str, mark: &str) -> &'a str {
    text.split_once(mark).map_or(text, |(front, _)| front)
}
