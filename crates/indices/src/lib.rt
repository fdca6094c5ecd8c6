//! Places on a stack. A stack is a slice, top first: a depth counts from the top, a position from the bottom, and the two meet
//! only through the conversions here. Every function answers for every input; a place outside is said where it is asked for.
#![tactic(auto)]

ghost use Rattle.std.specs.Prelude.{◌≡◌, ◌-◌};
ghost use Rattle.scope.specs.Words.{◌at◌, ◌from◌};
ghost use Rattle.indices.specs.Promises.{sided};

/// A depth: 0 is the top.
#[derive(Clone, Copy, Debug, PartialEq, Eq)]
pub struct FromTop(pub usize);

/// A position: 0 is the bottom.
#[derive(Clone, Copy, Debug, PartialEq, Eq)]
pub struct FromBottom(pub usize);

/// Which of the two stacks is meant.
#[derive(Clone, Copy, Debug, PartialEq, Eq)]
pub enum Side {
    Current,
    Target,
}

impl FromBottom {
    /// The depth of a position on a stack of that height; 0 for a position past the top.
    pub fn to_depth(self, height: usize) -> FromTop
        ensures { result.0 ≡ height - 1 - self.0 }
    {
        FromTop(height.saturating_sub(1).saturating_sub(self.0))
    }
}

impl FromTop {
    /// The position of a depth on a stack of that height; 0 for a depth past the bottom.
    pub fn to_position(self, height: usize) -> FromBottom
        ensures { result.0 ≡ height - 1 - self.0 }
    {
        FromBottom(height.saturating_sub(1).saturating_sub(self.0))
    }
}

/// The value at a position; past the top the top, on an empty stack 0.
pub fn at(s: &[u32], p: FromBottom) -> u32
    ensures { result ≡ (s.now at p.0) }
{
    if p.0 < s.len() {
        s[s.len() - 1 - p.0]
    } else {
        s.first().copied().unwrap_or(0)
    }
}

/// The part of the named stack from a position up, lent back; nothing past the top. What is above a position p is asked for with p + 1.
pub fn part<'a>(current: &'a [u32], target: &'a [u32], side: Side, p: FromBottom) -> &'a [u32]
    ensures { result.now ≡ (sided current.now target.now side from p.0) }
{
    let stack = match side {
        Side::Current => current,
        Side::Target => target,
    };
    &stack[..stack.len().saturating_sub(p.0)]
}
