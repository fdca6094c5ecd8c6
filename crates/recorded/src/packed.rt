//! The recording's bytes as numbers, read from the front on. Past the end of a record every byte is 0.
use answer::read_op;
use scope::Op;

/// What is left of a record.
#[derive(Clone, Copy)]
pub(crate) struct Packed<'a> {
    pub(crate) rest: &'a [u8],
}

impl<'a> Packed<'a> {
    pub(crate) fn byte(&mut self) -> u8 {
        match self.rest {
            [first, rest @ ..] => {
                self.rest = rest;
                *first
            }
            [] => 0,
        }
    }

    /// So many bytes as they are, where there are so many.
    pub(crate) fn bytes(&mut self, count: usize) -> Option<&'a [u8]> {
        let (front, rest) = self.rest.split_at_checked(count)?;
        self.rest = rest;
        Some(front)
    }

    /// A number: one byte below 253; else two bytes after a 253, or four after another, the lowest first.
    pub(crate) fn number(&mut self) -> u32 {
        match self.byte() {
            253 => u32::from(u16::from_le_bytes([self.byte(), self.byte()])),
            254.. => u32::from_le_bytes([self.byte(), self.byte(), self.byte(), self.byte()]),
            small => u32::from(small),
        }
    }

    /// An operation: the kind in a byte's upper three bits, the argument in the others, or 31 there and the argument after it.
    pub(crate) fn operation(&mut self) -> Option<Op> {
        let first = u32::from(self.byte());
        let argument = match first % 32 {
            31 => self.number(),
            small => small,
        };
        read_op(first / 32, argument)
    }
}
