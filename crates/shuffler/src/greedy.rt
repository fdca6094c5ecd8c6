//! A run over a tracked stack: counting, the ticks of shrink and of grow, and the finish.
ghost use Rattle.std.specs.Prelude.{◌≡◌, ◌-◌, ℕ, length};
ghost use Rattle.scope.specs.Codes.{code};
ghost use Rattle.scope.specs.Shuffle.{run_from};
ghost use Rattle.scope.specs.Tracked.{stored_in};
ghost use Rattle.tracked.specs.Promises.{tracked_of, SameLoans};
ghost use Rattle.rules.specs.Promises.{counted_in};
ghost use Rattle.shuffler.specs.Held.{holding};
ghost use Rattle.shuffler.specs.Runs.{Ticks, Loops, Downs, Tells, from_shrink};

use crate::Ended;
use crate::perform::{perform, pop};
use crate::phases::{Grow, Phase, Shrink};
use operations::ScheduleConfig;
use questions::View;
use scope::Refusal;
use tracked::TrackedStack;

/// The ticks that each loop has at most.
const LIMIT: u32 = 100_000;

/// What a run goes for, and how many bottom positions are completed. Each method is lent the stack.
#[derive(Clone, Copy)]
pub(crate) struct GreedyShuffler<'a> {
    target: &'a [u32],
    config: ScheduleConfig,
    complete: usize,
}

impl<'a> GreedyShuffler<'a> {
    /// Counting, shrink, grow and the finish: the whole run.
    #[tactic(auto, using(crate::proofs::Runs::run_told))]
    pub(crate) fn run(
        config: ScheduleConfig,
        current: &mut TrackedStack,
        target: &'a [u32],
    ) -> Ended
        ensures loans { SameLoans current.old current.new }
        ensures slots { result.slots ≡ current.new.filled }
        ensures ops { result.ops ≡ current.new.written - current.old.written }
        ensures told { Tells target.now config (holding 0 current.old)
            (code result.outcome) result.shrink_ticks result.grow_ticks (holding 0 current.new) run_from }
    {
        let mut this = Self {
            target,
            config,
            complete: 0,
        };
        let written = current.written;
        let mut shrink_ticks = 0;
        let mut grow_ticks = 0;
        this.update_complete_at_bottom(current);
        let outcome = this.run_to_end(current, &mut shrink_ticks, &mut grow_ticks);
        Ended {
            outcome,
            shrink_ticks,
            grow_ticks,
            ops: current.written.saturating_sub(written),
            slots: current.filled,
        }
    }

    /// What follows the first counting, one part after the other; the first that is refused ends the run.
    fn run_to_end(
        &mut self,
        current: &mut TrackedStack,
        shrink_ticks: &mut u32,
        grow_ticks: &mut u32,
    ) -> Result<(), Refusal>
        ensures loans { SameLoans current.old current.new }
        ensures told { grow_ticks.old ≡ 0 → Tells self.old.target.now self.old.config (holding self.old.complete current.old)
            (code result) shrink_ticks.new grow_ticks.new (holding self.new.complete current.new) from_shrink }
    {
        self.ticks::<Shrink>(current, shrink_ticks)?;
        self.ticks::<Grow>(current, grow_ticks)?;
        self.cleanup_unneeded_top(current)
    }

    /// What the rules look at.
    fn view<'v>(&'v self, current: &'v TrackedStack) -> View<'v>
        ensures current { result.current.now ≡ (tracked_of current.now).stack.values }
        ensures target { result.target.now ≡ self.now.target.now }
        ensures spilled { result.spilled.now ≡ stored_in current.now.filled current.now.spill.now }
        ensures complete { result.complete ≡ self.now.complete }
        ensures config { result.config ≡ self.now.config }
    {
        View {
            current: current.fifo(),
            target: self.target,
            spilled: current.underlying_spilled(),
            complete: self.complete,
            config: self.config,
        }
    }

    /// Counting: the completed count of now.
    fn update_complete_at_bottom(&mut self, current: &TrackedStack)
        ensures target { self.new.target ≡ self.old.target }
        ensures config { self.new.config ≡ self.old.config }
        ensures counted { self.new.complete ≡ counted_in (tracked_of current.now).stack.values self.old.target.now self.old.complete }
    {
        self.complete = rules::counting::update_complete_at_bottom(&self.view(current));
    }

    /// One tick, where the loop goes on: what the rules choose, and counting after it.
    fn tick<P: Phase>(&mut self, current: &mut TrackedStack) -> Result<(), Refusal>
        ensures loans { SameLoans current.old current.new }
        ensures target { self.new.target ≡ self.old.target }
        ensures config { self.new.config ≡ self.old.config }
        ensures held { Ticks self.old.target.now self.old.config P.goes P.plan (holding self.old.complete current.old)
            (code result) (holding self.new.complete current.new) }
    {
        let choice = P::choose(&self.view(current))?;
        perform(current, choice)?;
        self.update_complete_at_bottom(current);
        Ok(())
    }

    /// A loop of ticks, which counts them. `Refusal::Ticks` where it would go on after the last.
    fn ticks<P: Phase>(
        &mut self,
        current: &mut TrackedStack,
        ticks: &mut u32,
    ) -> Result<(), Refusal>
        ensures loans { SameLoans current.old current.new }
        ensures target { self.new.target ≡ self.old.target }
        ensures config { self.new.config ≡ self.old.config }
        ensures held { Loops self.old.target.now self.old.config P.goes P.plan (holding self.old.complete current.old)
            (code result) ticks.new (holding self.new.complete current.new) }
    {
        *ticks = 0;
        while P::goes(&self.view(current)) {
            if *ticks == LIMIT {
                return Err(Refusal::Ticks);
            }
            *ticks += 1;
            self.tick::<P>(current)?;
        }
        Ok(())
    }

    /// The finish: drops what stands above the target's height.
    fn cleanup_unneeded_top(&self, current: &mut TrackedStack) -> Result<(), Refusal>
        ensures loans { SameLoans current.old current.new }
        ensures held { (c : ℕ) → Downs (length self.now.target.now) (holding c current.old) (code result) (holding c current.new) }
    {
        for _ in self.target.len()..usize::from(current.len()) {
            pop(current)?;
        }
        Ok(())
    }
}
