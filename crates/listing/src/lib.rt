//! A list of operations as text, in the driver's printed form, read into operation words.
#![tactic(auto)]

ghost use Rattle.std.specs.Prelude.{◌≡◌, ◌<◌, IfSome};
ghost use Rattle.lines.specs.Promises.{spelled};
ghost use Rattle.listing.specs.Promises.{Stored, Takes, Lists, taken, counted};

use lines::put_operation;
use printing::Text;
use reader::Record;

/// Why a line of a list is refused.
#[derive(Clone, Copy, Debug, PartialEq, Eq)]
pub enum Unlisted {
    /// It is no operation.
    NoOperation,
    /// It is an operation, and there is no room for its words.
    NoRoom,
}

/// A list that is refused: why, at which line, counted from 1, and how many operations stand before it.
#[derive(Clone, Copy, Debug, PartialEq, Eq)]
pub struct ListError {
    pub why: Unlisted,
    pub line: usize,
    pub ops: usize,
}

/// The number that the digits of a line are; nothing where a `u32` does not hold it.
fn number_in(line: &[u8]) -> Option<u32> {
    line.iter()
        .filter_map(|byte| char::from(*byte).to_digit(10))
        .try_fold(0u32, |n, digit| n.checked_mul(10)?.checked_add(digit))
}

/// The kind of the operation whose form begins as a line does.
fn kind_in(line: &[u8]) -> Option<u32>
    ensures { IfSome result (λ kind. 0 < kind) }
{
    match line.first()? {
        b'S' => Some(1),
        b'D' => Some(2),
        b'P' => Some(3),
        b's' => Some(4),
        b'l' => Some(5),
        _ => None,
    }
}

/// The words of the operation that a line is, byte for byte; nothing where it is none.
pub fn read_line(line: &[u8]) -> Option<Record>
    ensures kind { IfSome result (λ item. 0 < item.kind) }
    ensures form { IfSome result (λ item. line.now ≡ spelled item.kind item.argument) }
{
    let kind = kind_in(line)?;
    let argument = number_in(line)?;
    let item = Record { kind, argument };
    let mut form = [0u8; 56];
    let mut text = Text {
        out: &mut form,
        len: 0,
    };
    put_operation(&mut text, item);
    let len = text.len;
    if line == &form[..len] {
        return Some(item);
    }
    None
}

/// Whether a line is passed over: an empty one, and the driver's own first line, "answer ..".
fn is_passed_over(line: &[u8], index: usize) -> bool {
    line.is_empty() || index == 0 && line.starts_with(b"answer ")
}

/// Stores an operation's words after so many operations.
fn store(words: &mut [u32], ops: usize, item: Record) -> Result<(), Unlisted>
    ensures { Stored ops item result words.old words.new }
{
    if words.len() / 2 <= ops {
        return Err(Unlisted::NoRoom);
    }
    words[2 * ops] = item.kind;
    words[2 * ops + 1] = item.argument;
    Ok(())
}

/// Takes one line, after so many operations; how many there are then.
fn take_line(words: &mut [u32], ops: usize, line: &[u8]) -> Result<usize, Unlisted>
    ensures { Takes ops (taken ops result) words.old words.new }
{
    let item = read_line(line).ok_or(Unlisted::NoOperation)?;
    store(words, ops, item)?;
    Ok(ops + 1)
}

/// The operations of a text's lines, as words at the low end of a buffer: how many. Refused, those before the line stand there.
pub fn read_list(text: &[u8], words: &mut [u32]) -> Result<usize, ListError>
    ensures { Lists (counted result) words.old words.new }
{
    let mut ops = 0;
    for (index, line) in text.split(|byte| *byte == b'\n').enumerate() {
        if is_passed_over(line, index) {
            continue;
        }
        let number = index + 1;
        ops = take_line(words, ops, line).map_err(|why| ListError {
            why,
            line: number,
            ops,
        })?;
    }
    Ok(ops)
}
