//! Grow: (x), (u), (v), (w), and the order in which a tick of grow tries the rules.
ghost use Rattle.std.specs.Prelude.{List, ℕ, Ok};
ghost use Rattle.scope.specs.Rules as R;
ghost use Rattle.rules.specs.Promises as K;

use super::shrink::{pop_extra, pop_unneeded, swap_to_correct_position};
use super::{Choice, depth, within};
use indices::{FromBottom, FromTop};
use questions::View;
use scope::Refusal;

/// (x) Brings the lowest position that can be set right its value, by two swaps through the top.
fn exchange_via_top(view: &View) -> Option<Choice>
    ensures { K.Picked 0 view.now R.rule_x (Ok result) }
{
    let start = view.floor();
    for p in start.0..view.end() {
        if let Some(q) = view.source_for(start, FromBottom(p)) {
            let down = depth(view, FromBottom(q));
            let back = depth(view, FromBottom(p));
            return Some(Choice::Swaps(down, back));
        }
    }
    None
}

/// Loads a value from the latest slot that has it; `Err(Missing)` where no slot has.
fn unspill(view: &View, value: u32) -> Result<Choice, Refusal>
    ensures { (C T : List ℕ) (c S D : ℕ) → K.Chosen 0 C T view.now.spilled.now c S D (K.loading value) (K.always result) }
{
    let slot = lists::find_last(view.spilled, value).ok_or(Refusal::Missing)?;
    Ok(Choice::Load(slot))
}

/// (u) Loads the value for the deepest position that a swap still reaches after one push, where it is wrong and not within reach.
/// `Err(Inside)` where one of the stacks has no such position, `Err(Missing)` where no slot has the value.
fn unspill_unavailable_horizon(view: &View) -> Result<Option<Choice>, Refusal>
    ensures { K.Picked 0 view.now R.rule_u result }
{
    let limit = usize::from(view.config.max_swap_depth);
    if view.current.len() < limit {
        return Ok(None);
    }
    let horizon = FromBottom(view.current.len() - limit);
    if view.end() <= horizon.0 {
        return Err(Refusal::Inside);
    }
    if !view.is_unavailable(limit, horizon) {
        return Ok(None);
    }
    let choice = unspill(view, indices::at(view.target, horizon))?;
    Ok(Some(choice))
}

/// (v) Copies the lowest value within a dup's reach that needs another copy, from its smallest depth.
fn dup_needed(view: &View) -> Option<Choice>
    ensures { K.Picked 0 view.now R.rule_v (Ok result) }
{
    if view.current.is_empty() {
        return None;
    }
    let limit = view.config.max_dup_depth;
    let reach = usize::from(limit).min(view.current.len() - 1);
    let start = FromTop(reach).to_position(view.current.len());
    for p in start.0..view.end() {
        if let Some(d) = view.copy_for(start, FromBottom(p)) {
            return Some(Choice::Dup(within(FromTop(d), limit)));
        }
    }
    None
}

/// (w) Loads the lowest value from the completed positions up that no dup reaches. `Err(Stuck)` where there is none,
/// `Err(Missing)` where no slot has the value.
fn unspill_needed(view: &View) -> Result<Choice, Refusal>
    ensures { K.Picked 0 view.now R.rule_w (K.always result) }
{
    let reach = (usize::from(view.config.max_dup_depth) + 1).min(view.current.len());
    let p = (view.complete..view.target.len())
        .find(|p| view.out_of_reach(reach, FromBottom(*p)))
        .ok_or(Refusal::Stuck)?;
    unspill(view, indices::at(view.target, FromBottom(p)))
}

/// What a tick of grow does with the values that are there: the first of (a), (b), (x), (c) that applies. Nothing where all are completed.
fn settle(view: &View) -> Option<Choice>
    ensures { K.Picked 0 view.now K.settled (Ok result) }
{
    if view.current.len() <= view.complete {
        return None;
    }
    if let Some(choice) = pop_unneeded(view) {
        return Some(choice);
    }
    if let Some(choice) = swap_to_correct_position(view) {
        return Some(choice);
    }
    if let Some(choice) = exchange_via_top(view) {
        return Some(choice);
    }
    pop_extra(view)
}

/// Where a push is allowed: (u), (v), (w).
fn get_needed(view: &View) -> Result<Choice, Refusal>
    ensures { K.Picked 0 view.now K.getting (K.always result) }
{
    if let Some(choice) = unspill_unavailable_horizon(view)? {
        return Ok(choice);
    }
    if let Some(choice) = dup_needed(view) {
        return Ok(choice);
    }
    unspill_needed(view)
}

/// Where nothing that is there can be used: a push where it is allowed, else a store.
fn push_or_store(view: &View) -> Result<Choice, Refusal>
    ensures { K.Picked 0 view.now K.pushing (K.always result) }
{
    if view.can_push()? {
        get_needed(view)
    } else {
        Ok(Choice::Store)
    }
}

/// What a tick of grow does. `Err(Inside)` where a rule reads outside the stacks, `Err(Missing)` where no slot has the value to load,
/// `Err(Stuck)` where there is nothing to load.
pub fn grow_choice(view: &View) -> Result<Choice, Refusal>
    ensures { K.Picked 0 view.now R.grow_plan (K.always result) }
{
    if let Some(choice) = settle(view) {
        return Ok(choice);
    }
    push_or_store(view)
}
