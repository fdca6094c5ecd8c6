//! The C interface. A slice is a pointer and then a length; a struct by value is laid out as C lays it out.
#![tactic(auto)]

ghost use Rattle.std.specs.Prelude.{◌≡◌};
ghost use Rattle.scope.specs.Codes.{code};
ghost use Rattle.scope.specs.Once.{shuffle_due, check_due};
ghost use Rattle.tracked_state.specs.Promises.{tracked_of};
ghost use Rattle.shuffler.specs.Promises.{lent_plain, lent_state, state_due, KeptIfRefused};
ghost use Rattle.replay.specs.Promises.{lent_to};
ghost use Rattle.exports.specs.Promises.{limits, seen_in, seen};

use operations::ScheduleConfig;
use scope::Refusal;
use stack::EvmStack;
use tracked_state::TrackedState;

/// What a shuffle answers: its code, the ticks of shrink and of grow, the operations that it wrote, the slots filled, the end stack.
#[repr(C)]
#[derive(Clone, Copy)]
pub struct Answer {
    pub code: u32,
    pub shrink_ticks: u32,
    pub grow_ticks: u32,
    pub ops: usize,
    pub slots: usize,
    pub stack: EvmStack,
}

/// What the checker answers: its code, the index of the operation at fault, the gas, the slots filled.
#[repr(C)]
#[derive(Clone, Copy)]
pub struct Verdict {
    pub code: u32,
    pub index: usize,
    pub gas: u64,
    pub filled: usize,
}

/// The settings that the two limits stand for: there is no exchange.
fn without_exchange(max_swap_depth: u8, max_dup_depth: u8) -> ScheduleConfig
    ensures { result ≡ limits max_swap_depth max_dup_depth }
{
    ScheduleConfig {
        max_swap_depth,
        max_dup_depth,
        max_exchange_range: 0,
        exchange_cost: 0,
    }
}

/// The code of an outcome, 0 for done.
fn code(outcome: Result<(), Refusal>) -> u32
    ensures { result ≡ code outcome }
{
    match outcome {
        Ok(()) => 0,
        Err(refusal) => refusal.code(),
    }
}

/// The shuffle over plain slices, by the two limits.
#[unsafe(no_mangle)]
pub extern "C" fn njallavet_shuffle(
    start: &[u32],
    spill: &mut [u32],
    filled: usize,
    first: u32,
    target: &[u32],
    max_swap_depth: u8,
    max_dup_depth: u8,
    ops: &mut [u32],
) -> Answer
    ensures { seen_in result spill.new ops.new
        ≡ shuffle_due (lent_plain start.now spill.old filled first target.now (limits max_swap_depth max_dup_depth) ops.old) }
{
    let config = without_exchange(max_swap_depth, max_dup_depth);
    // filled in place: the end stack is 4 KB
    let mut answer = Answer {
        code: 0,
        shrink_ticks: 0,
        grow_ticks: 0,
        ops: 0,
        slots: 0,
        stack: EvmStack::new(),
    };
    let ended = shuffler::shuffle_in(
        &mut answer.stack,
        start,
        spill,
        filled,
        first,
        target,
        config,
        ops,
    );
    answer.code = code(ended.outcome);
    answer.shrink_ticks = ended.shrink_ticks;
    answer.grow_ticks = ended.grow_ticks;
    answer.ops = ended.ops;
    answer.slots = ended.slots;
    answer
}

/// The shuffle of a tracked state that the caller lends, by the two limits. It leaves the state as it stands after the run; where codes
/// 1 to 5 refuse, as it was lent, every word of it.
#[unsafe(no_mangle)]
pub extern "C" fn njallavet_run(
    state: &mut TrackedState,
    spill: &mut [u32],
    target: &[u32],
    max_swap_depth: u8,
    max_dup_depth: u8,
    ops: &mut [u32],
) -> Answer
    ensures answer { seen_in result spill.new ops.new
        ≡ shuffle_due (lent_state state.old spill.old target.now (limits max_swap_depth max_dup_depth) ops.old) }
    ensures state { tracked_of state.new
        ≡ state_due (lent_state state.old spill.old target.now (limits max_swap_depth max_dup_depth) ops.old) }
    ensures kept { KeptIfRefused (lent_state state.old spill.old target.now (limits max_swap_depth max_dup_depth) ops.old)
        state.old state.new }
{
    let config = without_exchange(max_swap_depth, max_dup_depth);
    let answer = entry::run(state, spill, target, config, ops);
    Answer {
        code: code(answer.outcome),
        shrink_ticks: answer.shrink_ticks,
        grow_ticks: answer.grow_ticks,
        ops: answer.ops,
        slots: answer.slots,
        stack: answer.stack,
    }
}

/// The replay checker.
#[unsafe(no_mangle)]
pub extern "C" fn njallavet_check(
    start: &[u32],
    spill: &mut [u32],
    filled: usize,
    first: u32,
    target: &[u32],
    max_swap_depth: u8,
    max_dup_depth: u8,
    ops: &[u32],
) -> Verdict
    ensures { seen result spill.new
        ≡ check_due (lent_to start.now spill.old filled first target.now max_swap_depth max_dup_depth ops.now) }
{
    let config = without_exchange(max_swap_depth, max_dup_depth);
    let verdict = replay::check(start, spill, filled, first, target, config, ops);
    Verdict {
        code: verdict.code(),
        index: verdict.index,
        gas: verdict.gas,
        filled: verdict.filled,
    }
}
