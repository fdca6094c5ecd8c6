//! The shuffle of a tracked state that is lent: 000's `run`, which changes the state in place.
#![tactic(auto)]

ghost use Rattle.shuffler.specs.Promises.{lent_state};
ghost use Rattle.entry.specs.Promises.{Entered};

use operations::ScheduleConfig;
use shuffler::Answer;
use tracked_state::TrackedState;

/// The shuffle of the state, which it leaves as it stands after the run. Where `Refusal::Limit` to `Refusal::Slots` refuse, the state
/// stays as it was lent, every word of it.
pub fn run(
    state: &mut TrackedState,
    spill: &mut [u32],
    target: &[u32],
    config: ScheduleConfig,
    ops: &mut [u32],
) -> Answer
    ensures { Entered (lent_state state.old spill.old target.now config ops.old) state.old state.new result spill.new ops.new }
{
    let finished = shuffler::run(*state, spill, target, config, ops);
    *state = finished.state;
    finished.answer
}
