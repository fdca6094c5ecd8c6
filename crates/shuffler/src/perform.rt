//! Performing a choice, by the tracked stack's calls. A choice that a rule made names depths inside the stack and filled slots, so that
//! `Refusal::Empty` to `Refusal::SwapOfZero` do not come; what comes, comes before anything of its operation is done.
ghost use Rattle.std.specs.Prelude.{ℕ};
ghost use Rattle.scope.specs.Codes.{code};
ghost use Rattle.rules.specs.declared.Choice.TheVariants as C;
ghost use Rattle.tracked.specs.Promises.{SameLoans};
ghost use Rattle.shuffler.specs.Held.{holding};
ghost use Rattle.shuffler.specs.Performing.{Performs};

use rules::Choice;
use scope::Refusal;
use tracked::TrackedStack;

/// Drops the top.
#[tactic(auto, using(crate::proofs::Performing::pop_performs))]
pub(crate) fn pop(current: &mut TrackedStack) -> Result<(), Refusal>
    ensures loans { SameLoans current.old current.new }
    ensures held { (c : ℕ) → Performs (holding c current.old) (code result) (holding c current.new) C.Pop }
{
    current.try_pop()?;
    Ok(())
}

/// Exchanges the top with the value at a depth; nothing at depth 0.
#[tactic(auto, using(crate::proofs::Performing::swap_performs, crate::proofs::Performing::swap_nothing))]
fn swap(current: &mut TrackedStack, depth: u8) -> Result<(), Refusal>
    ensures loans { SameLoans current.old current.new }
    ensures held { (c : ℕ) → Performs (holding c current.old) (code result) (holding c current.new) (C.Swap depth) }
{
    if depth == 0 {
        return Ok(());
    }
    current.try_swap(depth)?;
    Ok(())
}

/// Exchanges the top with the value at a depth, and drops what came to the top.
#[tactic(auto, using(crate::proofs::Performing::swap_pop_stops, crate::proofs::Performing::swap_pop_goes))]
fn swap_pop(current: &mut TrackedStack, depth: u8) -> Result<(), Refusal>
    ensures loans { SameLoans current.old current.new }
    ensures held { (c : ℕ) → Performs (holding c current.old) (code result) (holding c current.new) (C.SwapPop depth) }
{
    swap(current, depth)?;
    pop(current)
}

/// Two exchanges, through the top.
#[tactic(auto, using(crate::proofs::Performing::swaps_stops, crate::proofs::Performing::swaps_goes))]
fn swaps(current: &mut TrackedStack, from: u8, to: u8) -> Result<(), Refusal>
    ensures loans { SameLoans current.old current.new }
    ensures held { (c : ℕ) → Performs (holding c current.old) (code result) (holding c current.new) (C.Swaps from to) }
{
    swap(current, from)?;
    swap(current, to)
}

/// Puts a copy of the value at a depth on top.
#[tactic(auto, using(crate::proofs::Performing::dup_performs))]
fn dup(current: &mut TrackedStack, depth: u8) -> Result<(), Refusal>
    ensures loans { SameLoans current.old current.new }
    ensures held { (c : ℕ) → Performs (holding c current.old) (code result) (holding c current.new) (C.Dup depth) }
{
    current.try_dup(depth)?;
    Ok(())
}

/// Moves the top into the next slot.
#[tactic(auto, using(crate::proofs::Performing::store_performs))]
fn store(current: &mut TrackedStack) -> Result<(), Refusal>
    ensures loans { SameLoans current.old current.new }
    ensures held { (c : ℕ) → Performs (holding c current.old) (code result) (holding c current.new) C.Store }
{
    current.try_spill_top()?;
    Ok(())
}

/// Puts what the slot at a place in the spill list holds on top.
#[tactic(auto, using(crate::proofs::Performing::load_performs, crate::proofs::Performing::load_nothing))]
fn load(current: &mut TrackedStack, i: usize) -> Result<(), Refusal>
    ensures loans { SameLoans current.old current.new }
    ensures held { (c : ℕ) → Performs (holding c current.old) (code result) (holding c current.new) (C.Load i) }
{
    let id = tracked::alloc_id(current.first, i).ok_or(Refusal::Missing)?;
    current.try_load(id)?;
    Ok(())
}

/// Does what was chosen.
pub(crate) fn perform(current: &mut TrackedStack, choice: Choice) -> Result<(), Refusal>
    ensures loans { SameLoans current.old current.new }
    ensures held { (c : ℕ) → Performs (holding c current.old) (code result) (holding c current.new) choice }
{
    match choice {
        Choice::Pop => pop(current),
        Choice::Swap(depth) => swap(current, depth),
        Choice::SwapPop(depth) => swap_pop(current, depth),
        Choice::Swaps(from, to) => swaps(current, from, to),
        Choice::Store => store(current),
        Choice::Load(i) => load(current, i),
        Choice::Dup(depth) => dup(current, depth),
    }
}
