//! What the step rules ask of the current stack and the target. Each answer is a definition of scope's `Rules`, or one of `Promises` over it;
//! every function answers for every input. The stacks are slices, top first.
#![tactic(auto)]

ghost use Rattle.std.specs.Prelude.{◌≡◌, ◌-◌, max, min, get_or, length};
ghost use Rattle.scope.specs.Words.{◌from◌, ◌above◌};
ghost use Rattle.scope.specs.Rules as R;
ghost use Rattle.indices.specs.Promises.{sided};

use indices::{FromBottom, FromTop, Side};
use operations::ScheduleConfig;

pub mod grow;
pub mod push;
pub mod shrink;

/// What the rules look at. The values come top first; those in `spilled` oldest first.
#[derive(Clone, Copy, Debug)]
pub struct View<'a> {
    pub current: &'a [u32],
    pub target: &'a [u32],
    pub spilled: &'a [u32],
    /// How many positions from the bottom need no more work.
    pub complete: usize,
    pub config: ScheduleConfig,
}

/// The lowest position of a stack of that height that is not completed and that a swap reaches.
pub fn floor(height: usize, complete: usize, swaps: u8) -> FromBottom
    ensures { result.0 ≡ max complete (height - 1 - swaps) }
{
    let reach = FromTop(usize::from(swaps)).to_position(height);
    FromBottom(complete.max(reach.0))
}

impl View<'_> {
    /// The top; 0 where there is none.
    pub fn top(&self) -> u32
        ensures { result ≡ get_or self.now.current.now 0 0 }
    {
        self.current.first().copied().unwrap_or(0)
    }

    /// Where the positions that both stacks have end.
    pub fn end(&self) -> usize
        ensures { result ≡ min (length self.now.current.now) (length self.now.target.now) }
    {
        self.current.len().min(self.target.len())
    }

    /// The floor of the current stack.
    pub fn floor(&self) -> FromBottom
        ensures { result.0 ≡ max self.now.complete (length self.now.current.now - 1 - self.now.config.max_swap_depth) }
    {
        floor(
            self.current.len(),
            self.complete,
            self.config.max_swap_depth,
        )
    }

    /// Whether the two stacks differ at a position.
    #[tactic(auto, unfolding(scope::specs::Rules::differs))]
    pub fn differs(&self, p: FromBottom) -> bool
        ensures { result ≡ R.differs self.now.current.now self.now.target.now p.0 }
    {
        indices::at(self.current, p) != indices::at(self.target, p)
    }

    /// The part of the named stack from a position up.
    pub fn part(&self, side: Side, start: FromBottom) -> &[u32]
        ensures { result.now ≡ (sided self.now.current.now self.now.target.now side from start.0) }
    {
        indices::part(self.current, self.target, side, start)
    }

    /// The part of the named stack above a position.
    #[tactic(auto, using(crate::proofs::Above::all_but_last))]
    pub fn part_above(&self, side: Side, p: FromBottom) -> &[u32]
        ensures { result.now ≡ (sided self.now.current.now self.now.target.now side above p.0) }
    {
        let part = self.part(side, p);
        &part[..part.len().saturating_sub(1)]
    }
}
