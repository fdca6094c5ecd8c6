//! The replay checker: a list of operation words, from anywhere, is replayed on a start stack; the first fault is the verdict.
#![tactic(auto)]

ghost use Rattle.std.specs.Prelude.{◌≡◌, ◌≤◌, length, IfOk, nat_lt, if◌then◌else◌, Some as some, None as none};
ghost use Rattle.scope.specs.Codes.{code};
ghost use Rattle.scope.specs.Machine.{more_gas, stack_after};
ghost use Rattle.scope.specs.Replay.{decoded, fault};
ghost use Rattle.scope.specs.Shuffle.{job_code};
ghost use Rattle.scope.specs.Once.{check_due};
ghost use Rattle.replay.specs.Faults.{number_of, code_of};
ghost use Rattle.replay.specs.Promises.{seen, lent_to, lent_now, seen_now, replay_due, filled_after, spill_after};
ghost use Rattle.replay.specs.Promises.{SameLoans, SameRun, Plays, job_of, values_now, slots_now, slot_at};

use operations::ScheduleConfig;
use reader::{Record, read_at};
use scope::{Op, Refusal};
use stack::EvmStack;

/// Why a list of operations is refused. Each fault has a code, which is what C sees.
#[derive(Clone, Copy, Debug, PartialEq, Eq)]
pub enum Fault {
    /// The job itself is refused.
    Job(Refusal),
    /// The words are not whole records.
    Odd,
    /// A record is no operation.
    Unknown,
    /// The depth of a swap is 0 or past the limit.
    SwapFar,
    /// The depth of a swap is outside the stack.
    SwapBelow,
    /// The depth of a dup is past the limit.
    DupFar,
    /// The depth of a dup is outside the stack.
    DupBelow,
    /// The stack has 1,024 values and would grow.
    TooHigh,
    /// There is no value to take off.
    NoneLeft,
    /// A store does not name the next slot.
    OtherSlot,
    /// There is no next slot.
    NoSlot,
    /// The slot of a load is not filled.
    NotFilled,
    /// The stack at the end is not the target.
    Unlike,
}

impl Fault {
    /// The code that C and the trace see: 1 to 5 for a job that is refused, 30 to 41 for the list.
    pub fn code(self) -> u32
        ensures { result ≡ number_of self }
    {
        match self {
            Fault::Job(refusal) => refusal.code(),
            Fault::Odd => 30,
            Fault::Unknown => 31,
            Fault::SwapFar => 32,
            Fault::SwapBelow => 33,
            Fault::DupFar => 34,
            Fault::DupBelow => 35,
            Fault::TooHigh => 36,
            Fault::NoneLeft => 37,
            Fault::OtherSlot => 38,
            Fault::NoSlot => 39,
            Fault::NotFilled => 40,
            Fault::Unlike => 41,
        }
    }
}

impl From<Refusal> for Fault {
    ghost use Rattle.replay.specs.declared.Fault.TheVariants.{Job};

    ghost from_gives = { λ refusal fault. fault ≡ Job refusal };

    fn from(refusal: Refusal) -> Self {
        Self::Job(refusal)
    }
}

/// What the checker finds: the first fault, if there is one; the index of its operation, or their count where there is none; the gas of
/// the operations before it; the slots that are filled then.
#[derive(Clone, Copy, Debug, PartialEq, Eq)]
pub struct Verdict {
    pub outcome: Result<(), Fault>,
    pub index: usize,
    pub gas: u64,
    pub filled: usize,
}

impl Verdict {
    /// The code of the outcome, 0 where there is no fault.
    pub fn code(self) -> u32
        ensures { result ≡ code_of self.outcome }
    {
        match self.outcome {
            Ok(()) => 0,
            Err(fault) => fault.code(),
        }
    }
}

/// A replay on its way: the stack and the slots, of which the first `filled` are, the limits, and how many operations of how much gas it
/// has replayed.
#[derive(Drop)]
pub(crate) struct Replay<'a> {
    pub(crate) stack: &'a mut EvmStack,
    pub(crate) spill: &'a mut [u32],
    pub(crate) first: u32,
    pub(crate) filled: usize,
    pub(crate) config: ScheduleConfig,
    pub(crate) index: usize,
    pub(crate) gas: u64,
}

/// Whether there is such a job, for a start and a target of these heights.
fn check_job(
    config: ScheduleConfig,
    start: usize,
    target: usize,
    filled: usize,
    slots: usize,
    first: u32,
) -> Result<(), Refusal>
    ensures { code result ≡ job_code config.max_swap_depth start target filled slots first }
{
    if config.max_swap_depth == 0 {
        return Err(Refusal::Limit);
    }
    if 1024 < start {
        return Err(Refusal::Start);
    }
    if 1024 < target {
        return Err(Refusal::Target);
    }
    if slots < filled {
        return Err(Refusal::Filled);
    }
    if ((u32::MAX - first) as usize) < slots {
        return Err(Refusal::Slots);
    }
    Ok(())
}

/// An argument as a depth, where a limit lets it through.
fn within(argument: u32, limit: u8) -> Option<u8>
    ensures { result ≡ (if nat_lt limit argument then none else some argument) }
{
    if argument > u32::from(limit) {
        return None;
    }
    Some(argument as u8)
}

/// The gas with one operation more: a sum that stays at the largest `u64`.
fn more_gas(gas: u64, op: Op) -> u64
    ensures { result ≡ more_gas gas op }
{
    gas.saturating_add(op.gas())
}

impl Replay<'_> {
    /// Kind 1: depths 0 and `argument` exchanged.
    #[tactic(auto, unfolding(scope::specs::Stack::exchange_on))]
    fn swap(&mut self, argument: u32) -> Result<Op, Fault>
        ensures { Plays (Op.Swap argument) result self.old self.new }
    {
        if argument == 0 {
            return Err(Fault::SwapFar);
        }
        let depth = within(argument, self.config.max_swap_depth).ok_or(Fault::SwapFar)?;
        self.stack
            .swap_with_top(depth.into())
            .map_err(|_| Fault::SwapBelow)?;
        Ok(Op::Swap(depth))
    }

    /// Kind 2: a copy of the value at depth `argument` on top.
    #[tactic(auto, unfolding(scope::specs::Stack::duplicate_on, scope::specs::Stack::push_on))]
    fn dup(&mut self, argument: u32) -> Result<Op, Fault>
        ensures { Plays (Op.Dup argument) result self.old self.new }
    {
        let depth = within(argument, self.config.max_dup_depth).ok_or(Fault::DupFar)?;
        match self.stack.duplicate(depth.into()) {
            Ok(()) => Ok(Op::Dup(depth)),
            Err(Refusal::Full) => Err(Fault::TooHigh),
            Err(_) => Err(Fault::DupBelow),
        }
    }

    /// Kind 3: the top dropped.
    #[tactic(auto, unfolding(scope::specs::Stack::pop_on))]
    fn pop(&mut self) -> Result<Op, Fault>
        ensures { Plays Op.Pop result self.old self.new }
    {
        self.stack.pop().ok_or(Fault::NoneLeft)?;
        Ok(Op::Pop)
    }

    /// The values of the filled slots, oldest first.
    fn slots(&self) -> &[u32]
        ensures { result.now ≡ slots_now self.now }
    {
        &self.spill[..self.filled.min(self.spill.len())]
    }

    /// The value of a filled slot, by the slot's number.
    fn slot(&self, id: u32) -> Option<u32>
        ensures { result ≡ slot_at self.now.first id (slots_now self.now) }
    {
        let place = id.checked_sub(self.first)?;
        self.slots().get(place as usize).copied()
    }

    /// Kind 4: the top moved into the next slot, which `argument` names.
    #[tactic(auto, unfolding(scope::specs::Stack::pop_on))]
    fn store(&mut self, argument: u32) -> Result<Op, Fault>
        ensures { Plays (Op.Store argument) result self.old self.new }
    {
        let top = self.stack.pop().ok_or(Fault::NoneLeft)?;
        if argument as usize != self.first as usize + self.slots().len() {
            return Err(Fault::OtherSlot);
        }
        if self.spill.len() <= self.filled {
            return Err(Fault::NoSlot);
        }
        self.spill[self.filled] = top;
        self.filled += 1;
        Ok(Op::Store(argument))
    }

    /// Kind 5: the value of slot `argument` on top.
    #[tactic(auto, unfolding(scope::specs::Stack::push_on))]
    fn load(&mut self, argument: u32) -> Result<Op, Fault>
        ensures { Plays (Op.Load argument) result self.old self.new }
    {
        if 1024 <= self.stack.len() {
            return Err(Fault::TooHigh);
        }
        let value = self.slot(argument).ok_or(Fault::NotFilled)?;
        self.stack.push(value).map_err(|_| Fault::TooHigh)?;
        Ok(Op::Load(argument))
    }

    /// One record by its kind: the operation that it is. One at fault leaves the slots as they are.
    fn turn(&mut self, item: Record) -> Result<Op, Fault>
        ensures same { SameRun self.old self.new }
        ensures code { code_of result
            ≡ fault (job_of self.old) (values_now self.old) (length (slots_now self.old)) (decoded item.kind item.argument) }
        ensures op { IfOk result (λ op. decoded item.kind item.argument ≡ some op) }
        ensures stack { IfOk result (λ op.
            values_now self.new ≡ stack_after self.old.first op (slots_now self.old) (values_now self.old)) }
        ensures filled { self.new.filled ≡ filled_after result self.old.filled }
        ensures spill { self.new.spill.now ≡ spill_after result self.old.filled (values_now self.old) self.old.spill.now }
    {
        match item.kind {
            1 => self.swap(item.argument),
            2 => self.dup(item.argument),
            3 if item.argument == 0 => self.pop(),
            4 => self.store(item.argument),
            5 => self.load(item.argument),
            _ => Err(Fault::Unknown),
        }
    }

    /// Record after record, to the first fault; at the end the stack must be the target.
    #[tactic(auto, unfolding(scope::specs::Stack::made_from, crate::specs::Promises::replay_due))]
    fn run(&mut self, start: &[u32], target: &[u32], ops: &[u32]) -> Result<(), Fault>
        requires start { length start.now ≤ 1024 }
        requires slots { self.old.filled ≤ length self.old.spill.now }
        requires fresh { self.old.index ≡ 0 }
        requires free { self.old.gas ≡ 0 }
        ensures loans { SameLoans self.old self.new }
        ensures due { seen_now result self.new ≡ replay_due (lent_now self.old start.now target.now ops.now) }
    {
        if ops.len() % 2 != 0 {
            return Err(Fault::Odd);
        }
        self.stack.lay(start)?;
        for index in 0..ops.len() / 2 {
            let op = self.turn(read_at(ops, 2 * index))?;
            self.gas = more_gas(self.gas, op);
            self.index += 1;
        }
        if !lists::equal(self.stack.fifo(), target) {
            return Err(Fault::Unlike);
        }
        Ok(())
    }
}

/// The checker: the first fault of a job and of a list of operation words for it. A job that is refused has a verdict with all else 0; the
/// slots are left as the replay filled them.
pub fn check(
    start: &[u32],
    spill: &mut [u32],
    filled: usize,
    first: u32,
    target: &[u32],
    config: ScheduleConfig,
    ops: &[u32],
) -> Verdict
    ensures { seen result spill.new
        ≡ check_due (lent_to start.now spill.old filled first target.now config.max_swap_depth config.max_dup_depth ops.now) }
{
    if let Err(refusal) = check_job(
        config,
        start.len(),
        target.len(),
        filled,
        spill.len(),
        first,
    ) {
        return Verdict {
            outcome: Err(refusal.into()),
            index: 0,
            gas: 0,
            filled: 0,
        };
    }
    let mut stack = EvmStack::new();
    let mut replay = Replay {
        stack: &mut stack,
        spill,
        first,
        filled,
        config,
        index: 0,
        gas: 0,
    };
    let outcome = replay.run(start, target, ops);
    Verdict {
        outcome,
        index: replay.index,
        gas: replay.gas,
        filled: replay.filled,
    }
}
