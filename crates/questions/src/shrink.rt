//! What (a) to (e) ask.
ghost use Rattle.std.specs.Prelude.{◌≡◌, leb};
ghost use Rattle.scope.specs.Words.{count, ◌from◌};
ghost use Rattle.scope.specs.Rules as R;
ghost use Rattle.questions.specs.Promises as K;

use super::View;
use indices::{FromBottom, Side};

impl View<'_> {
    /// Whether the target has no use for a value from the completed positions up.
    pub fn is_unneeded(&self, value: u32) -> bool
        ensures { result ≡ K.unneeded self.now.target.now self.now.complete value }
    {
        self.complete == self.target.len()
            || !lists::occurs(self.part(Side::Target, FromBottom(self.complete)), value)
    }

    /// Whether the target has a value at a position, and the current stack has not.
    #[tactic(auto, unfolding(scope::specs::Rules::wants_top))]
    pub fn wants_top(&self, value: u32, p: FromBottom) -> bool
        ensures { result ≡ R.wants_top self.now.current.now self.now.target.now value p.0 }
    {
        indices::at(self.target, p) == value && indices::at(self.current, p) != value
    }

    /// Whether a value is more often in the current stack than in the target, both from the completed positions up.
    #[tactic(auto, unfolding(scope::specs::Rules::extra))]
    pub fn is_extra(&self, value: u32) -> bool
        ensures { result ≡ R.extra self.now.current.now self.now.target.now self.now.complete value }
    {
        let from = FromBottom(self.complete);
        let target_count = lists::count_of(self.part(Side::Target, from), value);
        let current_count = lists::count_of(self.part(Side::Current, from), value);
        target_count < current_count
    }

    /// Whether a value is at least twice in the current stack from the completed positions up.
    pub fn is_duplicate(&self, value: u32) -> bool
        ensures { result ≡ leb 2 (count value (self.now.current.now from self.now.complete)) }
    {
        2 <= lists::count_of(self.part(Side::Current, FromBottom(self.complete)), value)
    }
}
