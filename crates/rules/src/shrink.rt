//! Shrink: (a) to (f), and the order in which a tick of shrink tries them.
ghost use Rattle.std.specs.Prelude.{List, ℕ, Ok, Some};
ghost use Rattle.scope.specs.Rules as R;
ghost use Rattle.rules.specs.Promises as K;

use super::{Choice, depth};
use indices::FromBottom;
use questions::View;

/// (a) Pops the top where it is not needed.
pub(crate) fn pop_unneeded(view: &View) -> Option<Choice>
    ensures { (L : List ℕ) (S D : ℕ) → K.Picks 1 view.now L S D R.rule_a (Ok result) }
{
    view.is_unneeded(view.top()).then_some(Choice::Pop)
}

/// (b) Swaps the top to the lowest position from the floor that wants it.
pub(crate) fn swap_to_correct_position(view: &View) -> Option<Choice>
    ensures { (L : List ℕ) (D : ℕ) → K.Picks 0 view.now L view.now.config.max_swap_depth D R.rule_b (Ok result) }
{
    let top = view.top();
    let p = (view.floor().0..view.end()).find(|p| view.wants_top(top, FromBottom(*p)))?;
    Some(Choice::Swap(depth(view, FromBottom(p))))
}

/// (c) Pops the top where it is extra.
pub(crate) fn pop_extra(view: &View) -> Option<Choice>
    ensures { (L : List ℕ) (S D : ℕ) → K.Picks 1 view.now L S D R.rule_c (Ok result) }
{
    view.is_extra(view.top()).then_some(Choice::Pop)
}

/// (d) Swaps the lowest value from the floor that is extra with the top and pops it.
fn swap_and_pop_extra(view: &View) -> Option<Choice>
    ensures { (L : List ℕ) (D : ℕ) → K.Picks 0 view.now L view.now.config.max_swap_depth D R.rule_d (Ok result) }
{
    let p = (view.floor().0..view.current.len()).find(|p| {
        view.is_extra(indices::at(view.current, FromBottom(*p)))
    })?;
    Some(Choice::SwapPop(depth(view, FromBottom(p))))
}

/// (e) Pops the top where it is a duplicate.
fn pop_duplicate(view: &View) -> Option<Choice>
    ensures { (L : List ℕ) (S D : ℕ) → K.Picks 1 view.now L S D R.rule_e (Ok result) }
{
    view.is_duplicate(view.top()).then_some(Choice::Pop)
}

/// What a tick of shrink does: the first of (a) to (e) that applies, else the store of (f).
pub fn shrink_choice(view: &View) -> Choice
    ensures { (L : List ℕ) (D : ℕ) → K.Picks 1 view.now L view.now.config.max_swap_depth D R.shrink_plan (Ok (Some result)) }
{
    if let Some(choice) = pop_unneeded(view) {
        return choice;
    }
    if let Some(choice) = swap_to_correct_position(view) {
        return choice;
    }
    if let Some(choice) = pop_extra(view) {
        return choice;
    }
    if let Some(choice) = swap_and_pop_extra(view) {
        return choice;
    }
    if let Some(choice) = pop_duplicate(view) {
        return choice;
    }
    Choice::Store
}
