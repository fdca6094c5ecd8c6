//! A reader over operation words: it keeps the slice and its place. A word that is not there reads as 0.
#![tactic(auto)]

ghost use Rattle.std.specs.Prelude.{◌≡◌};
ghost use Rattle.reader.specs.Promises.{record_at};

/// An operation's two words.
#[derive(Clone, Copy, Debug, PartialEq, Eq, Default)]
pub struct Record {
    pub kind: u32,
    pub argument: u32,
}

/// The operation words, and the place of the next record.
#[derive(Clone, Copy, Debug)]
pub struct Reader<'a> {
    pub words: &'a [u32],
    pub at: usize,
}

/// The record that starts at a place of the words, counted in words.
pub fn read_at(words: &[u32], at: usize) -> Record
    ensures { result ≡ record_at words.now at }
{
    let word = |place: usize| words.get(place).copied().unwrap_or(0);
    Record {
        kind: word(at),
        argument: word(at.saturating_add(1)),
    }
}

impl<'a> Reader<'a> {
    /// A reader at the first word.
    pub fn new(words: &'a [u32]) -> Reader<'a>
        ensures words { result.words ≡ words.entry }
        ensures start { result.at ≡ 0 }
    {
        Reader { words, at: 0 }
    }
}

impl Iterator for Reader<'_> {
    type Item = Record;

    ghost use Rattle.std.specs.Iterator.{item_count};
    ghost use Rattle.reader.specs.Promises.{left, Reads};

    ghost next_gives = { Reads };

    ghost remaining = { item_count left };

    fn next(&mut self) -> Option<Record> {
        if self.words.len() <= self.at {
            return None;
        }
        let record = read_at(self.words, self.at);
        self.at += 2;
        Some(record)
    }
}
