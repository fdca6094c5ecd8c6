//! The settings of a schedule, and the operations just within and just beyond them.
use super::show::{code, yes_or_no};
use operations::{ScheduleConfig, is_valid};
use scope::StackOps;
use std::io::{self, Write};

/// What is written where settings are refused.
const NONE: ScheduleConfig = ScheduleConfig {
    max_swap_depth: 0,
    max_dup_depth: 0,
    max_exchange_range: 0,
    exchange_cost: 0,
};

fn settings(out: &mut impl Write, config: &ScheduleConfig) -> io::Result<()> {
    let ScheduleConfig {
        max_swap_depth: swap,
        max_dup_depth: dup,
        max_exchange_range: range,
        exchange_cost: cost,
    } = config;
    writeln!(
        out,
        ": swap {swap}, dup {dup}, exchange {range}, cost {cost}"
    )
}

fn max_swap_no_exchange(out: &mut impl Write, depth: u8) -> io::Result<()> {
    let made = ScheduleConfig::max_swap_no_exchange(depth);
    write!(out, "max_swap_no_exchange {depth}: code {}", code(&made))?;
    settings(out, &made.unwrap_or(NONE))
}

/// Whether an operation is valid with the settings for a swap limit.
fn valid(out: &mut impl Write, limit: u8, op: StackOps) -> io::Result<()> {
    let config = ScheduleConfig::max_swap_no_exchange(limit).unwrap_or(NONE);
    yes_or_no(out, is_valid(op, config))
}

fn swap(out: &mut impl Write, limit: u8, depth: u8) -> io::Result<()> {
    write!(out, "is_valid Swap {depth} with limit {limit}")?;
    valid(out, limit, StackOps::Swap(depth))
}

fn dup(out: &mut impl Write, limit: u8, depth: u8) -> io::Result<()> {
    write!(out, "is_valid Dup {depth} with limit {limit}")?;
    valid(out, limit, StackOps::Dup(depth))
}

fn exchange(out: &mut impl Write, limit: u8, n: u8, m: u8) -> io::Result<()> {
    write!(out, "is_valid Exchange {n} {m} with limit {limit}")?;
    valid(out, limit, StackOps::Exchange(n, m))
}

fn slot(out: &mut impl Write, id: u32) -> io::Result<()> {
    write!(out, "is_valid Store {id}")?;
    valid(out, 1, StackOps::Store(id))?;
    write!(out, "is_valid Load {id}")?;
    valid(out, 1, StackOps::Load(id))
}

fn named(out: &mut impl Write) -> io::Result<()> {
    write!(out, "PRE_AMSTERDAM")?;
    settings(out, &ScheduleConfig::pre_amsterdam())?;
    write!(out, "default")?;
    settings(out, &ScheduleConfig::default())?;
    write!(out, "is_valid Pop")?;
    valid(out, 1, StackOps::Pop)
}

fn depths(out: &mut impl Write) -> io::Result<()> {
    for (limit, depth) in [
        (16, 0),
        (16, 1),
        (16, 16),
        (16, 17),
        (1, 1),
        (1, 2),
        (255, 254),
        (255, 255),
    ] {
        swap(out, limit, depth)?;
    }
    for (limit, depth) in [
        (16, 0),
        (16, 15),
        (16, 16),
        (1, 0),
        (1, 1),
        (255, 254),
        (255, 255),
    ] {
        dup(out, limit, depth)?;
    }
    Ok(())
}

fn exchanges(out: &mut impl Write) -> io::Result<()> {
    for (limit, n, m) in [
        (16, 0, 0),
        (16, 8, 8),
        (16, 8, 9),
        (16, 16, 0),
        (16, 0, 17),
        (16, 255, 1),
        (16, 255, 255),
        (255, 255, 0),
        (255, 128, 127),
        (255, 128, 128),
        (255, 0, 255),
        (255, 1, 255),
        (255, 255, 255),
    ] {
        exchange(out, limit, n, m)?;
    }
    Ok(())
}

pub(crate) fn run(out: &mut impl Write) -> io::Result<()> {
    for depth in [0, 1, 2, 255] {
        max_swap_no_exchange(out, depth)?;
    }
    named(out)?;
    depths(out)?;
    exchanges(out)?;
    slot(out, 0)?;
    slot(out, u32::MAX)
}
