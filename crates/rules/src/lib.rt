//! The step rules. They choose and change nothing: a rule answers what it would do, or `None` where it does not apply.
#![tactic(auto)]

ghost use Rattle.std.specs.Prelude.{◌≡◌, ◌-◌, min, length};

use indices::{FromBottom, FromTop};
use questions::View;

pub mod counting;
pub mod grow;
pub mod shrink;

/// What a tick is to do: at most two operations. A swap names a depth, a load the index of its slot.
#[derive(Clone, Copy, Debug, PartialEq, Eq)]
pub enum Choice {
    Pop,
    Swap(u8),
    SwapPop(u8),
    Swaps(u8, u8),
    Store,
    Load(usize),
    Dup(u8),
}

/// A depth, or a limit that it passes.
pub(crate) fn within(d: FromTop, limit: u8) -> u8
    ensures { result ≡ min d.0 limit }
{
    d.0.min(usize::from(limit)) as u8
}

/// The depth of a position on the current stack, or the swap limit that it passes.
pub(crate) fn depth(view: &View, p: FromBottom) -> u8
    ensures { result ≡ min (length view.now.current.now - 1 - p.0) view.now.config.max_swap_depth }
{
    within(p.to_depth(view.current.len()), view.config.max_swap_depth)
}
