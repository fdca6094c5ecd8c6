//! What a schedule may have: the settings and their limits.
#![tactic(auto)]

ghost use Rattle.std.specs.Prelude.{◌≡◌, IfOk};
ghost use Rattle.scope.specs.Codes.{code};
ghost use Rattle.scope.specs.Stack.{pre_amsterdam, no_exchange, is_valid};
ghost use Rattle.operations.specs.Promises.{config_of};

use scope::{Refusal, StackOps};

/// The settings of a schedule: how deep a swap and a dup may reach, how far an exchange, and what one costs.
#[derive(Clone, Copy, Debug, PartialEq, Eq)]
pub struct ScheduleConfig {
    pub max_swap_depth: u8,
    pub max_dup_depth: u8,
    pub max_exchange_range: u8,
    pub exchange_cost: u8,
}

impl ScheduleConfig {
    /// What the EVM has before Amsterdam.
    pub const PRE_AMSTERDAM: ScheduleConfig = ScheduleConfig {
        max_swap_depth: 16,
        max_dup_depth: 15,
        max_exchange_range: 16,
        exchange_cost: 9,
    };

    /// The constant, with its promise.
    pub fn pre_amsterdam() -> Self
        ensures { config_of result ≡ pre_amsterdam }
    {
        Self::PRE_AMSTERDAM
    }

    /// The settings for a swap limit and no exchange: a dup reaches one less deep than a swap. `Err(Limit)` for a limit of 0.
    #[tactic(auto, unfolding(scope::specs::Stack::no_exchange))]
    pub fn max_swap_no_exchange(max_swap_depth: u8) -> Result<Self, Refusal>
        ensures answer { code result ≡ (no_exchange max_swap_depth).code }
        ensures config { IfOk result (λ made. config_of made ≡ (no_exchange max_swap_depth).config) }
    {
        let max_dup_depth = max_swap_depth.checked_sub(1).ok_or(Refusal::Limit)?;
        Ok(Self {
            max_swap_depth,
            max_dup_depth,
            max_exchange_range: max_swap_depth,
            exchange_cost: 9,
        })
    }
}

impl Default for ScheduleConfig {
    ghost use Rattle.scope.specs.Stack.{pre_amsterdam};
    ghost use Rattle.operations.specs.Promises.{config_of};

    ghost is_default = { λ config. config_of config ≡ pre_amsterdam };

    fn default() -> Self {
        Self::PRE_AMSTERDAM
    }
}

/// May a schedule with these settings have the operation? A swap of depth 0 is let through, as in 002.
#[tactic(auto, unfolding(scope::specs::Stack::is_valid))]
pub fn is_valid(op: StackOps, config: ScheduleConfig) -> bool
    ensures { result ≡ is_valid op (config_of config) }
{
    match op {
        StackOps::Swap(depth) => depth <= config.max_swap_depth,
        StackOps::Dup(depth) => depth <= config.max_dup_depth,
        StackOps::Exchange(n, m) => {
            n.checked_add(m)
                .is_some_and(|range| range <= config.max_exchange_range)
        }
        StackOps::Pop | StackOps::Store(_) | StackOps::Load(_) => true,
    }
}
