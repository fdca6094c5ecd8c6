//! The lines of a list's operations, one after the other, each with the stack that it leaves.
#![tactic(auto)]

ghost use Rattle.std.specs.Prelude.{◌≡◌};
ghost use Rattle.stack.specs.Promises.{laid, values_in};
ghost use Rattle.printing.specs.Promises.{Lays};
ghost use Rattle.lines.specs.Promises.{Wrote};
ghost use Rattle.tracked.specs.Promises.{tracked_of, SameLoans};
ghost use Rattle.turns.specs.Promises.{turned, completed_in};
ghost use Rattle.walks.specs.Promises.{filled_text, fresh, line_text};

use lines::{put_slots, put_state, put_turn};
use printing::Text;
use reader::{Reader, Record};
use stack::EvmStack;
use tracked::TrackedStack;
use turns::{completed, turn};

/// What a walk goes towards, and how many positions are completed so far.
#[derive(Clone, Copy)]
struct Walk<'a> {
    target: &'a [u32],
    done: usize,
}

/// The slots, where an operation has filled one, and the line's end.
fn put_filled(text: &mut Text, first: u32, before: usize, slots: &[u32])
    ensures lays { Lays text.old.out.now text.old.len (filled_text first before slots.now) text.new.out.now text.new.len }
    ensures same { text.new.out.ghost_name ≡ text.old.out.ghost_name }
{
    if before < slots.len() {
        text.put(b"  slots");
        put_slots(text, first, slots);
    }
    text.put(b"\n");
}

/// The line of the start, under the names of the columns.
fn put_start(text: &mut Text, done: usize, values: &[u32])
    ensures wrote { Wrote text.old.out.now text.old.len text.new.out.now text.new.len }
    ensures same { text.new.out.ghost_name ≡ text.old.out.ghost_name }
{
    text.put(b"#     operation         done  stack, top first\n");
    text.put(b"      start             ");
    put_state(text, done, values);
    text.put(b"\n");
}

impl Walk<'_> {
    /// One operation: carried out, counted, shown.
    fn put_one(&mut self, text: &mut Text, current: &mut TrackedStack, index: usize, item: Record)
        ensures target { self.new.target ≡ self.old.target }
        ensures loans { SameLoans current.old current.new }
        ensures state { tracked_of current.new ≡ (turned item (fresh current.old)).step.state }
        ensures array { current.new.stack.now.stack_raw
            ≡ laid (turned item (fresh current.old)).step.state.stack.values current.old.stack.now.stack_raw }
        ensures slots { current.new.spill.now ≡ (turned item (fresh current.old)).spill }
        ensures counted { self.new.done ≡ completed_in (values_in current.new.stack.now) self.old.target.now self.old.done }
        ensures shown { Lays text.old.out.now text.old.len (line_text index item current.old.filled current.new self.new.done)
            text.new.out.now text.new.len }
        ensures same { text.new.out.ghost_name ≡ text.old.out.ghost_name }
    {
        let before = current.filled;
        current.written = 0;
        turn(current, item);
        self.done = completed(current.fifo(), self.target, self.done);
        put_turn(text, index, item);
        put_state(text, self.done, current.fifo());
        put_filled(text, current.first, before, current.underlying_spilled());
    }

    /// A line for each operation of the words.
    fn put_turns(&mut self, text: &mut Text, current: &mut TrackedStack, words: &[u32])
        ensures wrote { Wrote text.old.out.now text.old.len text.new.out.now text.new.len }
        ensures same { text.new.out.ghost_name ≡ text.old.out.ghost_name }
    {
        for (index, item) in Reader::new(words).take(words.len() / 2).enumerate() {
            self.put_one(text, current, index, item);
        }
    }
}

/// From a start stack of at most 1,024 values: its line, and a line for each operation of the words.
pub fn put_walk(
    text: &mut Text,
    start: &[u32],
    spill: &mut [u32],
    filled: usize,
    first: u32,
    target: &[u32],
    words: &[u32],
)
    ensures wrote { Wrote text.old.out.now text.old.len text.new.out.now text.new.len }
    ensures same { text.new.out.ghost_name ≡ text.old.out.ghost_name }
{
    let mut stack = EvmStack::from_fifo(start).unwrap_or(EvmStack::new());
    let mut current = TrackedStack {
        stack: &mut stack,
        ops: &mut [],
        spill,
        first,
        filled,
        written: 0,
    };
    let mut walk = Walk {
        target,
        done: completed(start, target, 0),
    };
    put_start(text, walk.done, start);
    walk.put_turns(text, &mut current, words);
}
