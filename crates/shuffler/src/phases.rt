//! The two loops of a run: while what they go on, and by which rules.
ghost use Rattle.shuffler.specs.Picks.{Goes, Picks};

use questions::View;
use rules::Choice;
use scope::Refusal;

/// One of the two loops.
pub(crate) trait Phase {
    ghost use Rattle.std.specs.Prelude.{Bool};
    ghost use Rattle.scope.specs.Rules.{Job, State, Plan};

    ghost goes: { Job → State → Bool };

    ghost plan: { Job → State → Plan };

    /// Whether there is another tick.
    fn goes(view: &View) -> bool
        ensures { Goes view.now goes result };

    /// What the rules choose for a tick.
    fn choose(view: &View) -> Result<Choice, Refusal>
        ensures { Picks view.now goes plan result };
}

/// Shrink, while more positions are incomplete than a swap reaches.
pub(crate) struct Shrink;

impl Phase for Shrink {
    ghost use Rattle.scope.specs.Rules.{shrink_plan};
    ghost use Rattle.scope.specs.Shuffle.{shrinks};

    ghost goes = { shrinks };

    ghost plan = { shrink_plan };

    fn goes(view: &View) -> bool {
        let can_access_length = usize::from(view.config.max_swap_depth) + 1;
        view.current.len().saturating_sub(view.complete) > can_access_length
    }

    #[tactic(auto, using(crate::proofs::Picks::shrink_picks))]
    fn choose(view: &View) -> Result<Choice, Refusal> {
        Ok(rules::shrink::shrink_choice(view))
    }
}

/// Grow, while the target is not complete.
pub(crate) struct Grow;

impl Phase for Grow {
    ghost use Rattle.scope.specs.Rules.{grow_plan};
    ghost use Rattle.scope.specs.Shuffle.{grows};

    ghost goes = { grows };

    ghost plan = { grow_plan };

    fn goes(view: &View) -> bool {
        view.complete < view.target.len()
    }

    #[tactic(auto, using(crate::proofs::Picks::grow_picks))]
    fn choose(view: &View) -> Result<Choice, Refusal> {
        rules::grow::grow_choice(view)
    }
}
