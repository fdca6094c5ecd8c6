//! Counting: how many positions from the bottom need no more work.
ghost use Rattle.std.specs.Prelude.{◌≡◌};
ghost use Rattle.scope.specs.Rules as R;
ghost use Rattle.rules.specs.Promises as K;

use indices::{FromBottom, Side};
use questions::View;

/// Whether counting goes no further than a position: the stacks differ there, or the target has the value again above and the current
/// stack has not.
#[tactic(auto, unfolding(scope::specs::Rules::counting_stops))]
fn counting_stops(view: &View, p: FromBottom) -> bool
    ensures { result ≡ R.counting_stops view.now.current.now view.now.target.now p.0 }
{
    if view.differs(p) {
        return true;
    }
    let value = indices::at(view.target, p);
    lists::occurs(view.part_above(Side::Target, p), value)
        && !lists::occurs(view.part_above(Side::Current, p), value)
}

/// The new count of completed positions.
pub fn update_complete_at_bottom(view: &View) -> usize
    ensures { result ≡ K.counted_in view.now.current.now view.now.target.now view.now.complete }
{
    let end = view.end();
    (view.complete..end)
        .find(|p| counting_stops(view, FromBottom(*p)))
        .unwrap_or(view.complete.max(end))
}
