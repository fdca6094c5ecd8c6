//! The lines that answer a job, as bytes in a lent buffer.
#![tactic(auto)]

ghost use Rattle.std.specs.Prelude.{◌≡◌, ◌*◌, ◌≤◌, List, length, IfSome, Some};
ghost use Rattle.scope.specs.declared.Op.{Op};
ghost use Rattle.scope.specs.JobFile.{op_lines};
ghost use Rattle.printing.specs.Promises.{Lays};
ghost use Rattle.answer.specs.Promises.{said, ops_in, measured, first_line, writes, written_of};

use printing::{Text, printed_len};
use reader::Reader;
use scope::Op;

/// The numbers of an answer, but for the count and the gas of the operations, which their words tell.
#[derive(Clone, Copy, Debug, PartialEq, Eq)]
pub struct Answer {
    pub code: u32,
    pub shrink_ticks: u32,
    pub grow_ticks: u32,
    pub slots: u32,
}

/// Why an answer is not written.
#[derive(Clone, Copy, Debug, PartialEq, Eq)]
pub enum Unwritten {
    /// The lines do not fit.
    NoRoom,
    /// The words are not whole operations, or more than the driver lends.
    NoOperations,
}

/// What the operations of a list of words come to: the bytes of their lines, and their gas.
#[derive(Clone, Copy)]
struct Measured {
    len: usize,
    gas: u64,
}

/// The operation that a kind and an argument say; none for an unknown kind, a Pop with an argument, a depth that is no byte.
#[tactic(auto, unfolding(crate::specs::Promises::said))]
pub fn read_op(kind: u32, argument: u32) -> Option<Op>
    ensures { result ≡ said kind argument }
{
    match kind {
        1 => Some(Op::Swap(u8::try_from(argument).ok()?)),
        2 => Some(Op::Dup(u8::try_from(argument).ok()?)),
        3 if argument == 0 => Some(Op::Pop),
        4 => Some(Op::Store(argument)),
        5 => Some(Op::Load(argument)),
        _ => None,
    }
}

/// The bytes and the gas of the operations that words say; none where one record says none, or a word is left over.
fn measure(words: &[u32]) -> Option<Measured>
    requires { length words.now ≤ 8192 }
    ensures all { result ≡ measured (ops_in words.now) }
    ensures few { IfSome result (λ m. (m.len ≤ 54 * length words.now) × (m.gas ≤ 6 * length words.now)) }
{
    if words.len() % 2 != 0 {
        return None;
    }
    let mut len = 0;
    let mut gas = 0;
    for item in Reader::new(words) {
        let op = read_op(item.kind, item.argument)?;
        len += printed_len(op.into()) + 1;
        gas += op.gas();
    }
    Some(Measured { len, gas })
}

/// The first line of an answer.
fn put_first(text: &mut Text<'_>, answer: Answer, ops: u64, gas: u64)
    ensures lays { Lays text.old.out.now text.old.len (first_line answer ops gas) text.new.out.now text.new.len }
    ensures same { text.new.out.ghost_name ≡ text.old.out.ghost_name }
{
    text.label(b"answer ", answer.code.into());
    text.label(b" shrink ", answer.shrink_ticks.into());
    text.label(b" grow ", answer.grow_ticks.into());
    text.label(b" ops ", ops);
    text.label(b" slots ", answer.slots.into());
    text.label(b" gas ", gas);
    text.put(b"\n");
}

/// A line for each operation that the words say.
fn put_lines(text: &mut Text<'_>, words: &[u32])
    ensures lays { (os : List Op) → ops_in words.now ≡ Some os
        → Lays text.old.out.now text.old.len (op_lines os) text.new.out.now text.new.len }
    ensures same { text.new.out.ghost_name ≡ text.old.out.ghost_name }
{
    for item in Reader::new(words) {
        if let Some(op) = read_op(item.kind, item.argument) {
            text.operation(op.into());
            text.put(b"\n");
        }
    }
}

/// The lines that answer a job, at the low end of a buffer, for the operations that the words say; how many bytes they are.
/// Where they are not written, the buffer is as it was.
pub fn write_answer(out: &mut [u8], answer: Answer, words: &[u32]) -> Result<usize, Unwritten>
    ensures { written_of result out.new ≡ writes answer words.now out.old }
{
    if 8192 < words.len() {
        return Err(Unwritten::NoOperations);
    }
    let Some(lines) = measure(words) else {
        return Err(Unwritten::NoOperations);
    };
    let mut bytes = [0; 160];
    let mut first = Text {
        out: &mut bytes,
        len: 0,
    };
    put_first(&mut first, answer, words.len() as u64 / 2, lines.gas);
    let head = first.len;
    let mut text = Text { out, len: 0 };
    if !text.fits(head + lines.len) {
        return Err(Unwritten::NoRoom);
    }
    text.put(&bytes[..head]);
    put_lines(&mut text, words);
    Ok(text.len)
}
