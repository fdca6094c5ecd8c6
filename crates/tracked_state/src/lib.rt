//! 002's TrackedStack as a value: the stack and its counts in one struct, the operation and the spill words lent to each call.
#![tactic(auto)]

ghost use Rattle.std.specs.Prelude.{◌≡◌, length, ltb, IfOk};
ghost use Rattle.scope.specs.Codes.{code};
ghost use Rattle.scope.specs.Words.{stack_of};
ghost use Rattle.scope.specs.Tracked.{making_code, made, cloned, next_id, stored_in, spilled_slot, pop_step, swap_step, dup_step};
ghost use Rattle.scope.specs.Tracked.{spill_step, load_step, unspill_step};
ghost use Rattle.stack.specs.Promises.{stack_in, blank, laid};
ghost use Rattle.tracked.specs.Promises.{put_step};
ghost use Rattle.tracked_state.specs.Promises.{array_of, tracked_of, StepsTo};

use scope::{Op, Refusal, Step};
use stack::EvmStack;
use tracked::{Slots, TrackedStack};

/// A stack, the number of the first slot, the filled slots and the operations written. C makes it and keeps it.
#[repr(C)]
#[derive(Clone, Copy)]
pub struct TrackedState {
    pub stack: EvmStack,
    pub first: u32,
    pub filled: usize,
    pub written: usize,
}

/// Whether a state can be made. `Refusal::Start` by the length as it stands, `Refusal::Filled` where the filled entries do not fit the
/// room, `Refusal::Slots` where a slot has no number.
fn check_parts(
    len: u16,
    first: u32,
    filled: usize,
    room: usize,
    slots: usize,
) -> Result<(), Refusal>
    ensures { code result ≡ making_code len (ltb room filled) slots first }
{
    if 1024 < len {
        return Err(Refusal::Start);
    }
    if room < filled {
        return Err(Refusal::Filled);
    }
    match tracked::alloc_id(first, slots) {
        Some(_) => Ok(()),
        None => Err(Refusal::Slots),
    }
}

impl TrackedState {
    /// Over a stack, with no slot filled. `Refusal::Start`, `Refusal::Slots`, in this order.
    #[tactic(auto, unfolding(scope::specs::Tracked::made))]
    pub fn new_from_evm(first: u32, stack: EvmStack, spill: &[u32]) -> Result<Self, Refusal>
        ensures code { code result ≡ (made (stack_in stack) first 0 (length spill.now)).code }
        ensures state { IfOk result (λ s. tracked_of s ≡ (made (stack_in stack) first 0 (length spill.now)).state) }
        ensures words { IfOk result (λ s. array_of s ≡ stack.stack_raw) }
    {
        check_parts(stack.stack_len, first, 0, spill.len(), spill.len())?;
        Ok(TrackedState {
            stack,
            first,
            filled: 0,
            written: 0,
        })
    }

    /// Over these values, top first, and the first filled words of a spill buffer. `Refusal::Start`, `Refusal::Filled`,
    /// `Refusal::Slots`, in this order.
    #[tactic(auto, unfolding(scope::specs::Tracked::made, scope::specs::Stack::made_from))]
    pub fn new_from_parts(
        first: u32,
        fifo: &[u32],
        filled: usize,
        spill: &[u32],
    ) -> Result<Self, Refusal>
        ensures code { code result ≡ (made (stack_of fifo.now) first filled (length spill.now)).code }
        ensures state { IfOk result (λ s. tracked_of s ≡ (made (stack_of fifo.now) first filled (length spill.now)).state) }
        ensures words { IfOk result (λ s. array_of s ≡ laid fifo.now blank) }
    {
        let stack = EvmStack::from_fifo(fifo)?;
        check_parts(stack.stack_len, first, filled, spill.len(), spill.len())?;
        Ok(TrackedState {
            stack,
            first,
            filled,
            written: 0,
        })
    }

    /// The same state with nothing written, the filled entries copied into a second spill buffer. `Refusal::Start`, `Refusal::Filled`,
    /// `Refusal::Slots`, in this order: then the second buffer stays.
    #[tactic(auto, unfolding(scope::specs::Tracked::cloned))]
    pub fn clone_with(&self, spill: &[u32], other: &mut [u32]) -> Result<Self, Refusal>
        ensures code { code result ≡ (cloned (tracked_of self.now) spill.now other.old).made.code }
        ensures state { IfOk result (λ s. tracked_of s ≡ (cloned (tracked_of self.now) spill.now other.old).made.state) }
        ensures words { IfOk result (λ s. array_of s ≡ array_of self.now) }
        ensures spill { other.new ≡ (cloned (tracked_of self.now) spill.now other.old).spill }
    {
        let room = spill.len().min(other.len());
        check_parts(
            self.stack.stack_len,
            self.first,
            self.filled,
            room,
            other.len(),
        )?;
        other[..self.filled].copy_from_slice(&spill[..self.filled]);
        Ok(TrackedState {
            stack: self.stack,
            first: self.first,
            filled: self.filled,
            written: 0,
        })
    }

    /// The number of the first slot.
    pub fn start_alloc_id(&self) -> u32
        ensures { result ≡ self.now.first }
    {
        self.first
    }

    /// A copy of the stack.
    pub fn stack(&self) -> EvmStack
        ensures { result ≡ self.now.stack }
    {
        self.stack
    }

    /// The slots in the spill words, to look at.
    pub fn slots<'a>(&self, spill: &'a [u32]) -> Slots<'a>
        ensures words { result.words.now ≡ spill.now }
        ensures first { result.first ≡ self.now.first }
        ensures filled { result.filled ≡ self.now.filled }
    {
        Slots {
            words: spill,
            first: self.first,
            filled: self.filled,
        }
    }

    /// The filled slots' values, oldest first.
    pub fn underlying_spilled<'a>(&self, spill: &'a [u32]) -> &'a [u32]
        ensures { result.now ≡ stored_in self.now.filled spill.now }
    {
        tracked::underlying_spilled(spill, self.filled)
    }

    /// The number of the latest slot with a value, or nothing.
    #[tactic(auto, unfolding(scope::specs::Tracked::spilled_slot))]
    pub fn get_spilled(&self, spill: &[u32], target: u32) -> Option<u32>
        ensures { result ≡ spilled_slot target (tracked_of self.now) spill.now }
    {
        self.slots(spill).get_spilled(target)
    }

    /// The number after the last filled slot's. `Refusal::Slots` where a `u32` does not hold it.
    #[tactic(auto, unfolding(scope::specs::Tracked::next_id))]
    pub fn into_next_alloc_id(self) -> Result<u32, Refusal>
        ensures code { code result ≡ (next_id (tracked_of self)).code }
        ensures id { IfOk result (λ id. id ≡ (next_id (tracked_of self)).id) }
    {
        tracked::alloc_id(self.first, self.filled).ok_or(Refusal::Slots)
    }

    /// Drops the top. `Refusal::Empty`, `Refusal::Ops`, in this order.
    pub fn pop(&mut self, ops: &mut [u32]) -> Step
        ensures { StepsTo (pop_step (tracked_of self.old) ops.old) result self.old self.new ops.new }
    {
        let mut tracked = TrackedStack {
            stack: &mut self.stack,
            ops,
            spill: &mut [],
            first: self.first,
            filled: self.filled,
            written: self.written,
        };
        let step = tracked.pop();
        self.filled = tracked.filled;
        self.written = tracked.written;
        step
    }

    /// Exchanges the top with the value at a depth. `Refusal::SwapOfZero`, `Refusal::Empty`, `Refusal::Outside`, `Refusal::Ops`, in this
    /// order.
    pub fn swap(&mut self, ops: &mut [u32], depth: u8) -> Step
        ensures { StepsTo (swap_step depth (tracked_of self.old) ops.old) result self.old self.new ops.new }
    {
        let mut tracked = TrackedStack {
            stack: &mut self.stack,
            ops,
            spill: &mut [],
            first: self.first,
            filled: self.filled,
            written: self.written,
        };
        let step = tracked.swap(depth);
        self.filled = tracked.filled;
        self.written = tracked.written;
        step
    }

    /// Puts a copy of the value at a depth on top. `Refusal::Empty`, `Refusal::Outside`, `Refusal::Full`, `Refusal::Ops`, in this order.
    pub fn dup(&mut self, ops: &mut [u32], depth: u8) -> Step
        ensures { StepsTo (dup_step depth (tracked_of self.old) ops.old) result self.old self.new ops.new }
    {
        let mut tracked = TrackedStack {
            stack: &mut self.stack,
            ops,
            spill: &mut [],
            first: self.first,
            filled: self.filled,
            written: self.written,
        };
        let step = tracked.dup(depth);
        self.filled = tracked.filled;
        self.written = tracked.written;
        step
    }

    /// Moves the top into the next slot. `Refusal::Empty`, `Refusal::Spill`, `Refusal::Ops`, in this order.
    pub fn spill_top(&mut self, ops: &mut [u32], spill: &mut [u32]) -> Step
        ensures step { StepsTo (spill_step (tracked_of self.old) ops.old spill.old).step result self.old self.new ops.new }
        ensures spill { spill.new ≡ (spill_step (tracked_of self.old) ops.old spill.old).spill }
    {
        let mut tracked = TrackedStack {
            stack: &mut self.stack,
            ops,
            spill,
            first: self.first,
            filled: self.filled,
            written: self.written,
        };
        let step = tracked.spill_top();
        self.filled = tracked.filled;
        self.written = tracked.written;
        step
    }

    /// Puts a value on top by an operation. `Refusal::Full`, `Refusal::Ops`, in this order.
    fn put(&mut self, ops: &mut [u32], value: u32, op: Op) -> Step
        ensures { StepsTo (put_step value op (tracked_of self.old) ops.old) result self.old self.new ops.new }
    {
        let mut tracked = TrackedStack {
            stack: &mut self.stack,
            ops,
            spill: &mut [],
            first: self.first,
            filled: self.filled,
            written: self.written,
        };
        let step = tracked.put(value, op);
        self.filled = tracked.filled;
        self.written = tracked.written;
        step
    }

    /// Puts what a slot holds on top. `Refusal::Unfilled`, `Refusal::Full`, `Refusal::Ops`, in this order.
    #[tactic(auto, unfolding(scope::specs::Tracked::load_step))]
    pub fn load(&mut self, ops: &mut [u32], spill: &[u32], id: u32) -> Step
        ensures { StepsTo (load_step id (tracked_of self.old) ops.old spill.now) result self.old self.new ops.new }
    {
        match self.slots(spill).value(id) {
            Ok(value) => self.put(ops, value, Op::Load(id)),
            Err(refusal) => Step::Refused(refusal),
        }
    }

    /// Puts a stored value on top, by its latest slot. `Refusal::Missing`, `Refusal::Full`, `Refusal::Ops`, in this order.
    #[tactic(auto, using(stack::proofs::Laws::laid_fifo), unfolding(scope::specs::Tracked::unspill_step))]
    pub fn unspill(&mut self, ops: &mut [u32], spill: &[u32], target: u32) -> Step
        ensures { StepsTo (unspill_step target (tracked_of self.old) ops.old spill.now) result self.old self.new ops.new }
    {
        match self.get_spilled(spill, target) {
            Some(id) => self.load(ops, spill, id),
            None => Step::Refused(Refusal::Missing),
        }
    }
}
