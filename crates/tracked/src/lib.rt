//! 002's TrackedStack: a stack, with the words that its operations and its slots are kept in. A refusal changes nothing.
#![tactic(auto)]

ghost use Rattle.std.specs.Prelude.{◌≡◌, ◌+◌, ◌<◌, ◌≤◌, length, IfOk, Some as some};
ghost use Rattle.scope.specs.Codes.{code};
ghost use Rattle.scope.specs.Words.{latest_of};
ghost use Rattle.scope.specs.Machine.{capacity};
ghost use Rattle.scope.specs.Tracked.{step, step_op, emitted, stored_in, numbered, spilled_slot, next_id};
ghost use Rattle.stack.specs.Promises.{values_in, laid};
ghost use Rattle.tracked.specs.Promises.{tracked_of, popped, swapped, dupped, loaded, unspilled, spilled, put, room_for_one, next_free};
ghost use Rattle.tracked.specs.Promises.{value_in, SameLoans, Moves};

use scope::{Op, Refusal, Step};
use stack::EvmStack;

/// The slots that are lent: their words, the number of the first one, how many are filled.
#[derive(Clone, Copy)]
pub struct Slots<'a> {
    pub words: &'a [u32],
    pub first: u32,
    pub filled: usize,
}

/// A stack, the words for its operations (two for each) and for its slots, the number of the first slot, the filled slots and the
/// operations written.
#[derive(Drop)]
pub struct TrackedStack<'a> {
    pub stack: &'a mut EvmStack,
    pub ops: &'a mut [u32],
    pub spill: &'a mut [u32],
    pub first: u32,
    pub filled: usize,
    pub written: usize,
}

/// The number of the slot at a place in the spill list; nothing where a `u32` does not hold it.
pub fn alloc_id(first: u32, i: usize) -> Option<u32>
    ensures { result ≡ numbered first (some i) }
{
    u32::try_from(i).ok()?.checked_add(first)
}

/// The filled slots' values, oldest first: all words where more are said to be filled.
pub fn underlying_spilled(spill: &[u32], filled: usize) -> &[u32]
    ensures { result.now ≡ stored_in filled spill.now }
{
    &spill[..filled.min(spill.len())]
}

impl Slots<'_> {
    /// The filled slots' values, oldest first.
    pub fn stored(&self) -> &[u32]
        ensures { result.now ≡ stored_in self.now.filled self.now.words.now }
    {
        underlying_spilled(self.words, self.filled)
    }

    /// The number of the latest slot with a value, or nothing.
    pub fn get_spilled(&self, target: u32) -> Option<u32>
        ensures { result ≡ numbered self.now.first (latest_of target (stored_in self.now.filled self.now.words.now)) }
    {
        let place = lists::find_last(self.stored(), target)?;
        alloc_id(self.first, place)
    }

    /// What the slot with a number holds. `Refusal::Unfilled` for a number below the first, or of a slot that is not filled.
    pub fn value(&self, id: u32) -> Result<u32, Refusal>
        ensures { result ≡ value_in id self.now.first (stored_in self.now.filled self.now.words.now) }
    {
        let place = id.checked_sub(self.first).ok_or(Refusal::Unfilled)?;
        self.stored()
            .get(place as usize)
            .copied()
            .ok_or(Refusal::Unfilled)
    }

    /// The number of the next slot. `Refusal::Spill` where no slot is free, or the next one has no number.
    pub fn next(&self) -> Result<u32, Refusal>
        ensures { result ≡ next_free self.now.first self.now.filled (length self.now.words.now) }
    {
        if self.words.len() <= self.filled {
            return Err(Refusal::Spill);
        }
        alloc_id(self.first, self.filled).ok_or(Refusal::Spill)
    }
}

impl TrackedStack<'_> {
    /// The number of values.
    pub fn len(&self) -> u16
        ensures values { result ≡ length (values_in self.now.stack.now) }
        ensures within { result ≤ 1024 }
    {
        self.stack.len()
    }

    /// The values, top first.
    pub fn fifo(&self) -> &[u32]
        ensures { result.now ≡ values_in self.now.stack.now }
    {
        self.stack.fifo()
    }

    /// The slots, to look at.
    pub fn slots(&self) -> Slots<'_>
        ensures words { result.words.now ≡ self.now.spill.now }
        ensures first { result.first ≡ self.now.first }
        ensures filled { result.filled ≡ self.now.filled }
    {
        Slots {
            words: self.spill,
            first: self.first,
            filled: self.filled,
        }
    }

    /// The filled slots' values, oldest first.
    pub fn underlying_spilled(&self) -> &[u32]
        ensures { result.now ≡ stored_in self.now.filled self.now.spill.now }
    {
        underlying_spilled(self.spill, self.filled)
    }

    /// The number of the latest slot with a value, or nothing.
    #[tactic(auto, unfolding(scope::specs::Tracked::spilled_slot))]
    pub fn get_spilled(&self, target: u32) -> Option<u32>
        ensures { result ≡ spilled_slot target (tracked_of self.now) self.now.spill.now }
    {
        self.slots().get_spilled(target)
    }

    /// The number of the first slot.
    pub fn start_alloc_id(&self) -> u32
        ensures { result ≡ self.now.first }
    {
        self.first
    }

    /// The number after the last filled slot's. `Refusal::Slots` where a `u32` does not hold it.
    #[tactic(auto, unfolding(scope::specs::Tracked::next_id))]
    pub fn into_next_alloc_id(&self) -> Result<u32, Refusal>
        ensures code { code result ≡ (next_id (tracked_of self.now)).code }
        ensures id { IfOk result (λ id. id ≡ (next_id (tracked_of self.now)).id) }
    {
        alloc_id(self.first, self.filled).ok_or(Refusal::Slots)
    }

    /// Whether there is room for one operation more. `Refusal::Ops`.
    fn room(&self) -> Result<(), Refusal>
        ensures { result ≡ room_for_one self.now }
    {
        if self.ops.len() / 2 <= self.written {
            return Err(Refusal::Ops);
        }
        Ok(())
    }

    /// Writes an operation as two words.
    #[tactic(auto, unfolding(scope::specs::Tracked::emitted))]
    fn emit(&mut self, op: Op) -> Op
        requires { self.old.written < capacity (length self.old.ops.now) }
        ensures answer { result ≡ op }
        ensures loans { SameLoans self.old self.new }
        ensures stack { self.new.stack ≡ self.old.stack }
        ensures filled { self.new.filled ≡ self.old.filled }
        ensures written { self.new.written ≡ self.old.written + 1 }
        ensures words { self.new.ops.now ≡ emitted self.old.ops.now self.old.written op }
        ensures spill { self.new.spill ≡ self.old.spill }
    {
        let at = 2 * self.written;
        self.ops[at] = op.kind();
        self.ops[at + 1] = op.argument();
        self.written += 1;
        op
    }

    /// Puts a value on top, and writes the operation that brings it. `Refusal::Full`, `Refusal::Ops`, in this order.
    #[tactic(auto, using(stack::proofs::Laws::laid_fifo), unfolding(scope::specs::Stack::push_on))]
    fn try_put(&mut self, value: u32, op: Op) -> Result<Op, Refusal>
        ensures loans { SameLoans self.old self.new }
        ensures code { code result ≡ (put value op self.old).code }
        ensures op { step_op (step result) ≡ (put value op self.old).op }
        ensures state { tracked_of self.new ≡ (put value op self.old).state }
        ensures words { self.new.ops.now ≡ (put value op self.old).words }
        ensures spill { self.new.spill ≡ self.old.spill }
        ensures array { self.new.stack.now.stack_raw ≡ laid (put value op self.old).state.stack.values self.old.stack.now.stack_raw }
    {
        if self.len() == 1024 {
            return Err(Refusal::Full);
        }
        self.room()?;
        self.stack.push(value).unwrap();
        Ok(self.emit(op))
    }

    /// Drops the top. `Refusal::Empty`, `Refusal::Ops`, in this order.
    #[tactic(auto, using(stack::proofs::Laws::laid_fifo), unfolding(scope::specs::Tracked::pop_step, scope::specs::Stack::pop_on))]
    pub fn try_pop(&mut self) -> Result<Op, Refusal>
        ensures loans { SameLoans self.old self.new }
        ensures code { code result ≡ (popped self.old).code }
        ensures op { step_op (step result) ≡ (popped self.old).op }
        ensures state { tracked_of self.new ≡ (popped self.old).state }
        ensures words { self.new.ops.now ≡ (popped self.old).words }
        ensures spill { self.new.spill ≡ self.old.spill }
        ensures array { self.new.stack.now.stack_raw ≡ laid (popped self.old).state.stack.values self.old.stack.now.stack_raw }
    {
        if self.stack.is_empty() {
            return Err(Refusal::Empty);
        }
        self.room()?;
        self.stack.pop();
        Ok(self.emit(Op::Pop))
    }

    /// Exchanges the top with the value at a depth. `Refusal::SwapOfZero`, `Refusal::Empty`, `Refusal::Outside`, `Refusal::Ops`, in this
    /// order.
    #[tactic(auto, using(stack::proofs::Laws::laid_fifo), unfolding(scope::specs::Tracked::swap_step, scope::specs::Stack::exchange_on))]
    pub fn try_swap(&mut self, depth: u8) -> Result<Op, Refusal>
        ensures loans { SameLoans self.old self.new }
        ensures code { code result ≡ (swapped depth self.old).code }
        ensures op { step_op (step result) ≡ (swapped depth self.old).op }
        ensures state { tracked_of self.new ≡ (swapped depth self.old).state }
        ensures words { self.new.ops.now ≡ (swapped depth self.old).words }
        ensures spill { self.new.spill ≡ self.old.spill }
        ensures array { self.new.stack.now.stack_raw ≡ laid (swapped depth self.old).state.stack.values self.old.stack.now.stack_raw }
    {
        if depth == 0 {
            return Err(Refusal::SwapOfZero);
        }
        self.stack.value_at(depth.into())?;
        self.room()?;
        self.stack.swap_with_top(depth.into()).unwrap();
        Ok(self.emit(Op::Swap(depth)))
    }

    /// Puts a copy of the value at a depth on top. `Refusal::Empty`, `Refusal::Outside`, `Refusal::Full`, `Refusal::Ops`, in this order.
    #[tactic(auto, using(stack::proofs::Laws::laid_fifo), unfolding(scope::specs::Tracked::dup_step))]
    pub fn try_dup(&mut self, depth: u8) -> Result<Op, Refusal>
        ensures loans { SameLoans self.old self.new }
        ensures code { code result ≡ (dupped depth self.old).code }
        ensures op { step_op (step result) ≡ (dupped depth self.old).op }
        ensures state { tracked_of self.new ≡ (dupped depth self.old).state }
        ensures words { self.new.ops.now ≡ (dupped depth self.old).words }
        ensures spill { self.new.spill ≡ self.old.spill }
        ensures array { self.new.stack.now.stack_raw ≡ laid (dupped depth self.old).state.stack.values self.old.stack.now.stack_raw }
    {
        let value = self.stack.value_at(depth.into())?;
        self.try_put(value, Op::Dup(depth))
    }

    /// Moves the top into the next slot. `Refusal::Empty`, `Refusal::Spill`, `Refusal::Ops`, in this order.
    #[tactic(auto, using(stack::proofs::Laws::laid_fifo), unfolding(scope::specs::Tracked::spill_step, scope::specs::Stack::pop_on))]
    pub fn try_spill_top(&mut self) -> Result<Op, Refusal>
        ensures loans { SameLoans self.old self.new }
        ensures code { code result ≡ (spilled self.old).step.code }
        ensures op { step_op (step result) ≡ (spilled self.old).step.op }
        ensures state { tracked_of self.new ≡ (spilled self.old).step.state }
        ensures words { self.new.ops.now ≡ (spilled self.old).step.words }
        ensures spill { self.new.spill.now ≡ (spilled self.old).spill }
        ensures array { self.new.stack.now.stack_raw ≡ laid (spilled self.old).step.state.stack.values self.old.stack.now.stack_raw }
    {
        let value = self.stack.value_at(0)?;
        let id = self.slots().next()?;
        self.room()?;
        self.stack.pop();
        self.spill[self.filled] = value;
        self.filled += 1;
        Ok(self.emit(Op::Store(id)))
    }

    /// Puts what a slot holds on top. `Refusal::Unfilled`, `Refusal::Full`, `Refusal::Ops`, in this order.
    #[tactic(auto, using(stack::proofs::Laws::laid_fifo), unfolding(scope::specs::Tracked::load_step))]
    pub fn try_load(&mut self, id: u32) -> Result<Op, Refusal>
        ensures loans { SameLoans self.old self.new }
        ensures code { code result ≡ (loaded id self.old).code }
        ensures op { step_op (step result) ≡ (loaded id self.old).op }
        ensures state { tracked_of self.new ≡ (loaded id self.old).state }
        ensures words { self.new.ops.now ≡ (loaded id self.old).words }
        ensures spill { self.new.spill ≡ self.old.spill }
        ensures array { self.new.stack.now.stack_raw ≡ laid (loaded id self.old).state.stack.values self.old.stack.now.stack_raw }
    {
        let value = self.slots().value(id)?;
        self.try_put(value, Op::Load(id))
    }

    /// Puts a stored value on top, by its latest slot. `Refusal::Missing`, `Refusal::Full`, `Refusal::Ops`, in this order.
    #[tactic(auto, using(stack::proofs::Laws::laid_fifo), unfolding(scope::specs::Tracked::unspill_step))]
    pub fn try_unspill(&mut self, target: u32) -> Result<Op, Refusal>
        ensures loans { SameLoans self.old self.new }
        ensures code { code result ≡ (unspilled target self.old).code }
        ensures op { step_op (step result) ≡ (unspilled target self.old).op }
        ensures state { tracked_of self.new ≡ (unspilled target self.old).state }
        ensures words { self.new.ops.now ≡ (unspilled target self.old).words }
        ensures spill { self.new.spill ≡ self.old.spill }
        ensures array { self.new.stack.now.stack_raw ≡ laid (unspilled target self.old).state.stack.values self.old.stack.now.stack_raw }
    {
        let id = self.get_spilled(target).ok_or(Refusal::Missing)?;
        self.try_load(id)
    }

    /// Drops the top, and says which operation was written, or why none was.
    pub fn pop(&mut self) -> Step
        ensures loans { SameLoans self.old self.new }
        ensures moves { Moves (popped self.old) result self.old self.new }
        ensures spill { self.new.spill ≡ self.old.spill }
    {
        self.try_pop().into()
    }

    /// `try_swap`, as a step.
    pub fn swap(&mut self, depth: u8) -> Step
        ensures loans { SameLoans self.old self.new }
        ensures moves { Moves (swapped depth self.old) result self.old self.new }
        ensures spill { self.new.spill ≡ self.old.spill }
    {
        self.try_swap(depth).into()
    }

    /// `try_dup`, as a step.
    pub fn dup(&mut self, depth: u8) -> Step
        ensures loans { SameLoans self.old self.new }
        ensures moves { Moves (dupped depth self.old) result self.old self.new }
        ensures spill { self.new.spill ≡ self.old.spill }
    {
        self.try_dup(depth).into()
    }

    /// `try_spill_top`, as a step.
    pub fn spill_top(&mut self) -> Step
        ensures loans { SameLoans self.old self.new }
        ensures moves { Moves (spilled self.old).step result self.old self.new }
        ensures spill { self.new.spill.now ≡ (spilled self.old).spill }
    {
        self.try_spill_top().into()
    }

    /// `try_load`, as a step.
    pub fn load(&mut self, id: u32) -> Step
        ensures loans { SameLoans self.old self.new }
        ensures moves { Moves (loaded id self.old) result self.old self.new }
        ensures spill { self.new.spill ≡ self.old.spill }
    {
        self.try_load(id).into()
    }

    /// `try_unspill`, as a step.
    pub fn unspill(&mut self, target: u32) -> Step
        ensures loans { SameLoans self.old self.new }
        ensures moves { Moves (unspilled target self.old) result self.old self.new }
        ensures spill { self.new.spill ≡ self.old.spill }
    {
        self.try_unspill(target).into()
    }

    /// `try_put`, as a step.
    pub fn put(&mut self, value: u32, op: Op) -> Step
        ensures loans { SameLoans self.old self.new }
        ensures moves { Moves (put value op self.old) result self.old self.new }
        ensures spill { self.new.spill ≡ self.old.spill }
    {
        self.try_put(value, op).into()
    }
}
