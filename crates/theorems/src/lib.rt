//! The combined statement over the code: a shuffle, and then the checker on what it wrote.
#![tactic(auto)]

ghost use Rattle.std.specs.Prelude.{◌*◌, ◌≡◌, take};
ghost use Rattle.scope.specs.Once.{shuffle_due};
ghost use Rattle.shuffler.specs.Promises.{seen_in, lent_plain};
ghost use Rattle.replay.specs.Promises.{seen};
ghost use Rattle.theorems.specs.Outcomes.{confirm_due};

use operations::ScheduleConfig;
use replay::Verdict;
use shuffler::Answer;

/// What a shuffle answered, and the checker's verdict on it.
#[derive(Clone, Copy)]
pub struct Both {
    pub answer: Answer,
    pub verdict: Verdict,
}

/// The words of the first so many operations.
fn records(ops: &[u32], count: usize) -> &[u32]
    ensures { result.now ≡ take (2 * count) ops.now }
{
    &ops[..count.saturating_mul(2).min(ops.len())]
}

/// The shuffle, and then the checker on the operations that it wrote, from the same start with the same slots and limits. The answer and
/// the words are the shuffle's, none is changed by the checker; the verdict finds no fault in the list, and accepts it where the shuffle
/// had no refusal.
pub fn shuffle_and_check(
    start: &[u32],
    spill: &mut [u32],
    filled: usize,
    first: u32,
    target: &[u32],
    config: ScheduleConfig,
    ops: &mut [u32],
) -> Both
    ensures ops_after { seen_in result.answer spill.new ops.new
        ≡ shuffle_due (lent_plain start.now spill.old filled first target.now config ops.old) }
    ensures spill_after { seen result.verdict spill.new
        ≡ confirm_due (lent_plain start.now spill.old filled first target.now config ops.old) }
{
    let answer = shuffler::shuffle(start, spill, filled, first, target, config, ops);
    let verdict = replay::check(
        start,
        spill,
        filled,
        first,
        target,
        config,
        records(ops, answer.ops),
    );
    Both { answer, verdict }
}
