//! 000's GreedyShuffler: performing what the rules choose, the tick, shrink and grow, the finish, and the whole run.
//! The stack, the operation words and the spill words are lent to a run, which keeps them in a `TrackedStack`.
#![tactic(auto)]

ghost use Rattle.std.specs.Prelude.{◌≡◌};
ghost use Rattle.scope.specs.Codes.{code};
ghost use Rattle.scope.specs.Shuffle.{job_code};
ghost use Rattle.scope.specs.Once.{shuffle_due};
ghost use Rattle.tracked_state.specs.Promises.{tracked_of};
ghost use Rattle.shuffler.specs.Promises.{seen_in, answer_in, stopped_by, lent_plain, lent_state, state_due, KeptIfRefused};

use operations::ScheduleConfig;
use scope::Refusal;
use stack::EvmStack;
use tracked::TrackedStack;
use tracked_state::TrackedState;

mod greedy;
mod perform;
mod phases;

use greedy::GreedyShuffler;

/// What a shuffle answers: whether it is done, the ticks of shrink and of grow, the operations that it wrote, the slots filled, and the
/// end stack. A job that `Refusal::Limit` to `Refusal::Slots` refuse has zero counts and an empty stack.
#[derive(Clone, Copy)]
pub struct Answer {
    pub outcome: Result<(), Refusal>,
    pub shrink_ticks: u32,
    pub grow_ticks: u32,
    pub ops: usize,
    pub slots: usize,
    pub stack: EvmStack,
}

/// How a run in a stack that is lent ended: the same without the stack.
#[derive(Clone, Copy)]
pub struct Ended {
    pub outcome: Result<(), Refusal>,
    pub shrink_ticks: u32,
    pub grow_ticks: u32,
    pub ops: usize,
    pub slots: usize,
}

/// The answer, and the tracked state after the run.
#[derive(Clone, Copy)]
pub struct Finished {
    pub answer: Answer,
    pub state: TrackedState,
}

impl Ended {
    /// The end of a job that is refused before the run.
    fn refused(refusal: Refusal) -> Self
        ensures { result ≡ stopped_by refusal }
    {
        Ended {
            outcome: Err(refusal),
            shrink_ticks: 0,
            grow_ticks: 0,
            ops: 0,
            slots: 0,
        }
    }

    /// The answer with this end and a stack.
    fn with(self, stack: EvmStack) -> Answer
        ensures { result ≡ answer_in self stack }
    {
        Answer {
            outcome: self.outcome,
            shrink_ticks: self.shrink_ticks,
            grow_ticks: self.grow_ticks,
            ops: self.ops,
            slots: self.slots,
            stack,
        }
    }
}

/// `Refusal::Limit`, `Start`, `Target`, `Filled` and `Slots`, in that order, of the start's height and the target's, the slots filled
/// and the slots lent.
fn check_job(
    config: ScheduleConfig,
    height: usize,
    target: usize,
    filled: usize,
    slots: usize,
    first: u32,
) -> Result<(), Refusal>
    ensures { code result ≡ job_code config.max_swap_depth height target filled slots first }
{
    if config.max_swap_depth == 0 {
        return Err(Refusal::Limit);
    }
    if height > 1024 {
        return Err(Refusal::Start);
    }
    if target > 1024 {
        return Err(Refusal::Target);
    }
    if filled > slots {
        return Err(Refusal::Filled);
    }
    if slots > (u32::MAX - first) as usize {
        return Err(Refusal::Slots);
    }
    Ok(())
}

/// The shuffle over plain slices, in a stack whatever it holds: it holds the end stack after it.
pub fn shuffle_in(
    stack: &mut EvmStack,
    start: &[u32],
    spill: &mut [u32],
    filled: usize,
    first: u32,
    target: &[u32],
    config: ScheduleConfig,
    ops: &mut [u32],
) -> Ended
    ensures { seen_in (answer_in result stack.new) spill.new ops.new
        ≡ shuffle_due (lent_plain start.now spill.old filled first target.now config ops.old) }
{
    if let Err(refusal) = check_job(
        config,
        start.len(),
        target.len(),
        filled,
        spill.len(),
        first,
    ) {
        stack.stack_len = 0;
        return Ended::refused(refusal);
    }
    stack.lay(start).unwrap();
    let mut current = TrackedStack {
        stack,
        ops,
        spill,
        first,
        filled,
        written: 0,
    };
    GreedyShuffler::run(config, &mut current, target)
}

/// The shuffle over plain slices. The operations' words and the stored values stand at the low ends of the two lent buffers; every other
/// word of them is as it was lent.
pub fn shuffle(
    start: &[u32],
    spill: &mut [u32],
    filled: usize,
    first: u32,
    target: &[u32],
    config: ScheduleConfig,
    ops: &mut [u32],
) -> Answer
    ensures { seen_in result spill.new ops.new ≡ shuffle_due (lent_plain start.now spill.old filled first target.now config ops.old) }
{
    let mut stack = EvmStack::new();
    let ended = shuffle_in(&mut stack, start, spill, filled, first, target, config, ops);
    ended.with(stack)
}

/// The shuffle of a tracked state, which comes back by value. The operations follow those that the state has written already; the answer
/// counts those of this run. Where `Refusal::Limit` to `Refusal::Slots` refuse, the state comes back as it was, every word of it.
pub fn run(
    state: TrackedState,
    spill: &mut [u32],
    target: &[u32],
    config: ScheduleConfig,
    ops: &mut [u32],
) -> Finished
    ensures ops_after { seen_in result.answer spill.new ops.new ≡ shuffle_due (lent_state state spill.old target.now config ops.old) }
    ensures state_value { tracked_of result.state ≡ state_due (lent_state state spill.old target.now config ops.old) }
    ensures kept_if_refused { KeptIfRefused (lent_state state spill.old target.now config ops.old) state result.state }
{
    if let Err(refusal) = check_job(
        config,
        usize::from(state.stack.stack_len),
        target.len(),
        state.filled,
        spill.len(),
        state.first,
    ) {
        let answer = Ended::refused(refusal).with(EvmStack::new());
        return Finished { answer, state };
    }
    let mut after = state;
    let mut current = TrackedStack {
        stack: &mut after.stack,
        ops,
        spill,
        first: state.first,
        filled: state.filled,
        written: state.written,
    };
    let ended = GreedyShuffler::run(config, &mut current, target);
    after.filled = current.filled;
    after.written = current.written;
    let answer = ended.with(after.stack);
    Finished {
        answer,
        state: after,
    }
}
