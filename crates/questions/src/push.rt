//! The push test: may the stack grow by one value, or would that bury one that is still needed?
ghost use Rattle.std.specs.Prelude.{◌≡◌};
ghost use Rattle.scope.specs.Words.{latest_of, found};
ghost use Rattle.scope.specs.Rules as R;
ghost use Rattle.questions.specs.Promises as K;

use super::View;
use indices::{FromBottom, FromTop, Side};
use scope::Refusal;

impl View<'_> {
    /// Whether a value is in the spill list: the one lookup in it finds an entry.
    fn is_spilled(&self, value: u32) -> bool
        ensures { result ≡ found (latest_of value self.now.spilled.now) }
    {
        lists::find_last(self.spilled, value).is_some()
    }

    /// Whether a position may sink below the reach of a swap.
    #[tactic(auto, unfolding(scope::specs::Rules::safe_to_bury))]
    fn safe_to_bury(&self, horizon: FromBottom) -> bool
        ensures { result ≡ R.safe_to_bury self.now.current.now self.now.target.now self.now.spilled.now horizon.0 }
    {
        if self.differs(horizon) {
            return false;
        }
        let value = indices::at(self.target, horizon);
        !lists::occurs(self.part_above(Side::Target, horizon), value)
            || lists::occurs(self.part_above(Side::Current, horizon), value)
            || self.is_spilled(value)
    }

    /// May we push? Yes while the bottom stays within a swap's reach; else where the value at the horizon is safe to bury.
    /// `Err(Inside)` where the target has no value at the horizon.
    #[tactic(auto, unfolding(scope::specs::Rules::may_push))]
    pub fn can_push(&self) -> Result<bool, Refusal>
        ensures { result ≡ K.push_test self.now }
    {
        let limit = usize::from(self.config.max_swap_depth);
        if self.current.len() <= limit {
            return Ok(true);
        }
        let horizon = FromTop(limit).to_position(self.current.len());
        if self.target.len() <= horizon.0 {
            return Err(Refusal::Inside);
        }
        Ok(self.safe_to_bury(horizon))
    }
}
