//! What (x), (u), (v) and (w) ask.
ghost use Rattle.std.specs.Prelude.{◌≡◌};
ghost use Rattle.scope.specs.Rules as R;
ghost use Rattle.questions.specs.Promises as K;

use super::View;
use indices::{FromBottom, Side};

impl View<'_> {
    /// Whether the current stack's value at q is wrong there and is the one wanted at another position.
    #[tactic(auto, unfolding(scope::specs::Rules::gives_for))]
    fn gives_for(&self, p: FromBottom, q: FromBottom) -> bool
        ensures { result ≡ R.gives_for self.now.current.now self.now.target.now p.0 q.0 }
    {
        self.differs(q) && indices::at(self.current, q) == indices::at(self.target, p)
    }

    /// The lowest position from the floor that gives the value wanted at p, or nothing.
    fn giver(&self, start: FromBottom, p: FromBottom) -> Option<usize>
        ensures { result ≡ R.giver self.now.current.now self.now.target.now start.0 p.0 }
    {
        (start.0..self.end()).find(|q| self.gives_for(p, FromBottom(*q)))
    }

    /// The same for a position whose value is wrong; nothing for one whose value is right.
    pub fn source_for(&self, start: FromBottom, p: FromBottom) -> Option<usize>
        ensures { result ≡ K.source_for self.now.current.now self.now.target.now start.0 p.0 }
    {
        if self.differs(p) {
            self.giver(start, p)
        } else {
            None
        }
    }

    /// Whether the target's value at a position is not among the top values of the current stack.
    #[tactic(auto, unfolding(scope::specs::Rules::out_of_reach))]
    pub fn out_of_reach(&self, reach: usize, p: FromBottom) -> bool
        ensures { result ≡ R.out_of_reach self.now.current.now self.now.target.now reach p.0 }
    {
        let within = &self.current[..reach.min(self.current.len())];
        !lists::occurs(within, indices::at(self.target, p))
    }

    /// Whether the value at a position is wrong and the right one is out of reach.
    pub fn is_unavailable(&self, reach: usize, p: FromBottom) -> bool
        ensures { result ≡ K.unavailable self.now.current.now self.now.target.now reach p.0 }
    {
        self.differs(p) && self.out_of_reach(reach, p)
    }

    /// The smallest depth of the target's value at p, where the current stack has it from the start up, but less often than the target
    /// has it from there; else nothing.
    pub fn copy_for(&self, start: FromBottom, p: FromBottom) -> Option<usize>
        ensures { result ≡ K.copy_for self.now.current.now self.now.target.now start.0 p.0 }
    {
        let value = indices::at(self.target, p);
        let available = self.part(Side::Current, start);
        let first = lists::find_first(available, value)?;
        let copies = lists::count_of(available, value);
        let required = lists::count_of(self.part(Side::Target, start), value);
        (copies < required).then_some(first)
    }
}
