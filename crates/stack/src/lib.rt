//! 002's EvmStack: 1,024 words, the top at index 1024 - len. A length above 1,024 is read as 1,024: every value of the type is a stack.
#![tactic(auto, unfolding(scope::specs::Stack::fifo))]

ghost use Rattle.std.specs.Prelude.{◌≡◌, ◌≤◌, ◌<◌, ◌↔◌, min, length, IfOk, IsOk};
ghost use Rattle.scope.specs.Codes.{code};
ghost use Rattle.scope.specs.Words.{count, first_of};
ghost use Rattle.scope.specs.Stack.{fifo as kept_values, push_on, duplicate_on, exchange_on, swap_with_top_on, pop_on, made_from};
ghost use Rattle.scope.specs.Stack.{is_empty, at_depth};
ghost use Rattle.stack.specs.Promises.{stack_in, values_in, blank, laid, value_at, Fresh};

use scope::Refusal;

/// A stack of at most 1,024 words: `stack_len` of them, kept at the end of the array, top first. `Clone` copies all of it.
#[repr(C)]
#[derive(Clone, Copy)]
pub struct EvmStack {
    pub stack_raw: [u32; 1024],
    pub stack_len: u16,
}

/// How many values a length says: all words where it says more.
pub fn height(words: &[u32], len: u16) -> usize
    ensures { result ≡ min (length words.now) len }
{
    usize::from(len).min(words.len())
}

/// The values that a length says, top first: the end of the words.
pub fn fifo(words: &[u32], len: u16) -> &[u32]
    ensures { result.now ≡ kept_values words.now len }
{
    &words[words.len() - height(words, len)..]
}

impl EvmStack {
    /// No values.
    pub const fn new() -> Self
        ensures { Fresh result }
    {
        EvmStack {
            stack_raw: [0; 1024],
            stack_len: 0,
        }
    }

    /// These values, top first. `Refusal::Start` where there are more than 1,024.
    #[tactic(auto, unfolding(scope::specs::Stack::made_from))]
    pub fn from_fifo(values: &[u32]) -> Result<Self, Refusal>
        ensures code { code result ≡ (made_from values.now).code }
        ensures stack { IfOk result (λ s. stack_in s ≡ (made_from values.now).stack) }
        ensures words { IfOk result (λ s. s.stack_raw ≡ laid values.now blank) }
    {
        let mut this = EvmStack::new();
        this.lay(values)?;
        Ok(this)
    }

    /// These values in place of those there are, top first; the words outside them stay. `Refusal::Start` where there are more than 1,024:
    /// then the stack is empty, and every word stays.
    #[tactic(auto, unfolding(scope::specs::Stack::fifo, scope::specs::Stack::made_from, crate::specs::Promises::laid))]
    pub fn lay(&mut self, values: &[u32]) -> Result<(), Refusal>
        ensures stack { stack_in self.new ≡ (made_from values.now).stack }
        ensures code { code result ≡ (made_from values.now).code }
        ensures words { self.new.stack_raw ≡ laid (made_from values.now).stack.values self.old.stack_raw }
    {
        if 1024 < values.len() {
            self.stack_len = 0;
            return Err(Refusal::Start);
        }
        self.stack_raw[1024 - values.len()..].copy_from_slice(values);
        self.stack_len = values.len() as u16;
        Ok(())
    }

    /// How many values there are, 1,024 at most.
    fn height(&self) -> usize
        ensures value { result ≡ length (values_in self.now) }
        ensures within { result ≤ 1024 }
        ensures means { result ≡ min 1024 self.now.stack_len }
    {
        height(&self.stack_raw, self.stack_len)
    }

    /// The values, top first.
    pub fn fifo(&self) -> &[u32]
        ensures values { result.now ≡ values_in self.now }
        ensures within { length result.now ≤ 1024 }
    {
        fifo(&self.stack_raw, self.stack_len)
    }

    /// The number of values.
    pub fn len(&self) -> u16
        ensures values { result ≡ length (values_in self.now) }
        ensures within { result ≤ 1024 }
    {
        self.height() as u16
    }

    /// Whether there is no value.
    pub fn is_empty(&self) -> bool
        ensures { result ≡ is_empty (values_in self.now) }
    {
        self.height() == 0
    }

    /// The value at a depth, or nothing.
    #[tactic(auto, unfolding(scope::specs::Stack::at_depth))]
    pub fn get_by_depth(&self, depth: u16) -> Option<u32>
        ensures { result ≡ at_depth depth (values_in self.now) }
    {
        self.fifo().get(usize::from(depth)).copied()
    }

    /// The value at depth 0, or nothing.
    pub fn top(&self) -> Option<u32>
        ensures { result ≡ at_depth 0 (values_in self.now) }
    {
        self.get_by_depth(0)
    }

    /// Takes the top off; nothing on an empty stack.
    #[tactic(auto, unfolding(scope::specs::Stack::fifo, scope::specs::Stack::pop_on))]
    pub fn pop(&mut self) -> Option<u32>
        ensures value { result ≡ (pop_on (stack_in self.old)).value }
        ensures stack { stack_in self.new ≡ (pop_on (stack_in self.old)).stack }
        ensures words { self.new.stack_raw ≡ self.old.stack_raw }
    {
        let height = self.height();
        if height == 0 {
            return None;
        }
        self.stack_len = (height - 1) as u16;
        Some(self.stack_raw[1024 - height])
    }

    /// Puts a value on top. `Refusal::Full` at 1,024 values.
    #[tactic(auto, unfolding(scope::specs::Stack::fifo, scope::specs::Stack::push_on, crate::specs::Promises::laid))]
    pub fn push(&mut self, value: u32) -> Result<(), Refusal>
        ensures stack { stack_in self.new ≡ (push_on value (stack_in self.old)).stack }
        ensures code { code result ≡ (push_on value (stack_in self.old)).code }
        ensures words { self.new.stack_raw ≡ laid (push_on value (stack_in self.old)).stack.values self.old.stack_raw }
        ensures ok { IsOk result ↔ (length (values_in self.old) < 1024) }
    {
        let height = self.height();
        if height == 1024 {
            return Err(Refusal::Full);
        }
        self.stack_raw[1023 - height] = value;
        self.stack_len = (height + 1) as u16;
        Ok(())
    }

    /// The value at a depth. `Refusal::Empty`, `Refusal::Outside`, in this order.
    #[tactic(auto, unfolding(scope::specs::Stack::at_depth))]
    pub fn value_at(&self, depth: u16) -> Result<u32, Refusal>
        ensures { result ≡ value_at depth (values_in self.now) }
    {
        if self.is_empty() {
            return Err(Refusal::Empty);
        }
        self.get_by_depth(depth).ok_or(Refusal::Outside)
    }

    /// Puts a copy of the value at a depth on top. `Refusal::Empty`, `Refusal::Outside`, `Refusal::Full`, in this order.
    #[tactic(auto, unfolding(scope::specs::Stack::fifo, scope::specs::Stack::duplicate_on, crate::specs::Promises::laid))]
    pub fn duplicate(&mut self, depth: u16) -> Result<(), Refusal>
        ensures stack { stack_in self.new ≡ (duplicate_on depth (stack_in self.old)).stack }
        ensures code { code result ≡ (duplicate_on depth (stack_in self.old)).code }
        ensures words { self.new.stack_raw ≡ laid (duplicate_on depth (stack_in self.old)).stack.values self.old.stack_raw }
    {
        let value = self.value_at(depth)?;
        self.push(value)
    }

    /// Exchanges the top and the value at a depth. Refusals as of `exchange`.
    pub fn swap_with_top(&mut self, depth: u16) -> Result<(), Refusal>
        ensures stack { stack_in self.new ≡ (swap_with_top_on depth (stack_in self.old)).stack }
        ensures code { code result ≡ (swap_with_top_on depth (stack_in self.old)).code }
        ensures words { self.new.stack_raw ≡ laid (swap_with_top_on depth (stack_in self.old)).stack.values self.old.stack_raw }
        ensures ok { IsOk result ↔ (depth < length (values_in self.old)) }
    {
        self.exchange(0, depth)
    }

    /// Exchanges the values at two depths. `Refusal::Empty`, `Refusal::Outside`, in this order.
    #[tactic(auto, unfolding(scope::specs::Stack::fifo, scope::specs::Stack::exchange_on, crate::specs::Promises::laid))]
    pub fn exchange(&mut self, n: u16, m: u16) -> Result<(), Refusal>
        ensures stack { stack_in self.new ≡ (exchange_on n m (stack_in self.old)).stack }
        ensures code { code result ≡ (exchange_on n m (stack_in self.old)).code }
        ensures words { self.new.stack_raw ≡ laid (exchange_on n m (stack_in self.old)).stack.values self.old.stack_raw }
        ensures ok { IsOk result ↔ ((n < length (values_in self.old)) × (m < length (values_in self.old))) }
    {
        let height = self.height();
        if height == 0 {
            return Err(Refusal::Empty);
        }
        if height <= usize::from(n) || height <= usize::from(m) {
            return Err(Refusal::Outside);
        }
        self.stack_raw[1024 - height..].swap(usize::from(n), usize::from(m));
        self.stack_len = height as u16;
        Ok(())
    }

    /// How often a value is on the stack.
    #[tactic(auto, using(crate::proofs::Laws::count_le))]
    pub fn count(&self, target: u32) -> u16
        ensures { result ≡ count target (values_in self.now) }
    {
        lists::count_of(self.fifo(), target) as u16
    }

    /// The smallest depth of a value, or nothing.
    #[tactic(auto, using(crate::proofs::Laws::first_below))]
    pub fn find_first(&self, target: u32) -> Option<u16>
        ensures { result ≡ first_of target (values_in self.now) }
    {
        match lists::find_first(self.fifo(), target) {
            Some(depth) => Some(depth as u16),
            None => None,
        }
    }
}
