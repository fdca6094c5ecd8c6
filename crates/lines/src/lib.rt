//! The parts of a trace as text. Each call adds its part at the text's end, as far as the buffer goes.
#![tactic(auto)]

ghost use Rattle.std.specs.Prelude.{◌≡◌, ◌-◌};
ghost use Rattle.printing.specs.Promises.{Lays};
ghost use Rattle.lines.specs.Promises.{blanks, column, no_operation, spelled, rest_of, values_text, front_of, slot_number};
ghost use Rattle.lines.specs.Promises.{slot_text, slots_text, operation_column, turn_text, state_text, list_text};

use printing::Text;
use reader::Record;

/// How many values of a stack are shown, top first.
const VALUES: usize = 17;

/// How many slots are shown, the latest ones.
const SLOTS: usize = 8;

/// Blanks, eighteen at most.
fn put_blanks(text: &mut Text, n: usize)
    ensures lays { Lays text.old.out.now text.old.len (blanks n) text.new.out.now text.new.len }
    ensures same { text.new.out.ghost_name ≡ text.old.out.ghost_name }
{
    text.put(&[b' '; 18][..n.min(18)]);
}

/// Blanks up to a width, after what stands from a place on.
fn pad(text: &mut Text, from: usize, width: usize)
    ensures lays { Lays text.old.out.now text.old.len (blanks (width - (text.old.len - from))) text.new.out.now text.new.len }
    ensures same { text.new.out.ghost_name ≡ text.old.out.ghost_name }
{
    put_blanks(text, width.saturating_sub(text.len.saturating_sub(from)));
}

/// A number, and blanks up to a width.
pub fn put_column(text: &mut Text, n: u64, width: usize)
    ensures lays { Lays text.old.out.now text.old.len (column n width) text.new.out.now text.new.len }
    ensures same { text.new.out.ghost_name ≡ text.old.out.ghost_name }
{
    let from = text.len;
    text.number(n);
    pad(text, from, width);
}

/// Two words that are no operation.
fn put_unknown(text: &mut Text, item: Record)
    ensures lays { Lays text.old.out.now text.old.len (no_operation item.kind item.argument) text.new.out.now text.new.len }
    ensures same { text.new.out.ghost_name ≡ text.old.out.ghost_name }
{
    text.label(b"kind ", item.kind.into());
    text.label(b" argument ", item.argument.into());
}

/// The operation that two words are, as the driver prints it; the words themselves where they are none.
#[tactic(auto, unfolding(crate::specs::Promises::spelled))]
pub fn put_operation(text: &mut Text, item: Record)
    ensures lays { Lays text.old.out.now text.old.len (spelled item.kind item.argument) text.new.out.now text.new.len }
    ensures same { text.new.out.ghost_name ≡ text.old.out.ghost_name }
{
    let argument = item.argument.into();
    match item.kind {
        1 => text.around(b"Swap(", argument, b")"),
        2 => text.around(b"Dup(", argument, b")"),
        3 if item.argument == 0 => text.put(b"Pop"),
        4 => text.around(b"store(", argument, b")"),
        5 => text.around(b"load(", argument, b")"),
        _ => put_unknown(text, item),
    }
}

/// The same, and blanks up to eighteen bytes.
pub fn put_operation_column(text: &mut Text, item: Record)
    ensures lays { Lays text.old.out.now text.old.len (operation_column item.kind item.argument) text.new.out.now text.new.len }
    ensures same { text.new.out.ghost_name ≡ text.old.out.ghost_name }
{
    let from = text.len;
    put_operation(text, item);
    pad(text, from, 18);
}

/// What follows the values that are shown of so many.
fn put_rest(text: &mut Text, n: usize)
    ensures lays { Lays text.old.out.now text.old.len (rest_of n) text.new.out.now text.new.len }
    ensures same { text.new.out.ghost_name ≡ text.old.out.ghost_name }
{
    if n == 0 {
        text.put(b" -");
    } else if n > VALUES {
        text.label(b" ... (", n as u64);
        text.put(b" in all)");
    }
}

/// Values, top first: the first seventeen, and how many there are where that is not all.
pub fn put_values(text: &mut Text, values: &[u32])
    ensures lays { Lays text.old.out.now text.old.len (values_text values.now) text.new.out.now text.new.len }
    ensures same { text.new.out.ghost_name ≡ text.old.out.ghost_name }
{
    let shown = &values[..VALUES.min(values.len())];
    for value in shown {
        text.label(b" ", u64::from(*value));
    }
    put_rest(text, values.len());
}

/// What stands before the slots that are shown of so many.
fn put_front(text: &mut Text, n: usize)
    ensures lays { Lays text.old.out.now text.old.len (front_of n) text.new.out.now text.new.len }
    ensures same { text.new.out.ghost_name ≡ text.old.out.ghost_name }
{
    if n == 0 {
        text.put(b" -");
    } else if n > SLOTS {
        text.put(b" ...");
    }
}

/// The number of a slot by its place, as far as 64 bits hold it.
fn slot_number(first: u32, i: usize) -> u64
    ensures { result ≡ slot_number first i }
{
    u64::from(first).saturating_add(i as u64)
}

/// A slot's number and what it holds.
fn put_slot(text: &mut Text, first: u32, i: usize, value: u32)
    ensures lays { Lays text.old.out.now text.old.len (slot_text first i value) text.new.out.now text.new.len }
    ensures same { text.new.out.ghost_name ≡ text.old.out.ghost_name }
{
    text.label(b" ", slot_number(first, i));
    text.label(b"=", value.into());
}

/// The latest eight slots with their numbers, oldest first. The first slot's number is `first`.
pub fn put_slots(text: &mut Text, first: u32, slots: &[u32])
    ensures lays { Lays text.old.out.now text.old.len (slots_text first slots.now) text.new.out.now text.new.len }
    ensures same { text.new.out.ghost_name ≡ text.old.out.ghost_name }
{
    put_front(text, slots.len());
    for i in slots.len().saturating_sub(SLOTS)..slots.len() {
        put_slot(text, first, i, slots[i]);
    }
}

/// An operation's index and its form, in columns.
pub fn put_turn(text: &mut Text, index: usize, item: Record)
    ensures lays { Lays text.old.out.now text.old.len (turn_text index item.kind item.argument) text.new.out.now text.new.len }
    ensures same { text.new.out.ghost_name ≡ text.old.out.ghost_name }
{
    put_column(text, index as u64, 6);
    put_operation_column(text, item);
}

/// How many positions are completed, in a column, and the stack.
pub fn put_state(text: &mut Text, done: usize, values: &[u32])
    ensures lays { Lays text.old.out.now text.old.len (state_text done values.now) text.new.out.now text.new.len }
    ensures same { text.new.out.ghost_name ≡ text.old.out.ghost_name }
{
    put_column(text, done as u64, 5);
    put_values(text, values);
}

/// A name, values, and the line's end.
pub fn put_list(text: &mut Text, name: &[u8], values: &[u32])
    ensures lays { Lays text.old.out.now text.old.len (list_text name.now values.now) text.new.out.now text.new.len }
    ensures same { text.new.out.ghost_name ≡ text.old.out.ghost_name }
{
    text.put(name);
    put_values(text, values);
    text.put(b"\n");
}
