//! Runs each call of the stacks on both sides of each of its limits. A line for each trial says what was asked, and the whole answer.
#![tactic(auto)]

use std::io;

pub mod making;
pub mod settings;
pub mod show;
pub mod stacks;
pub mod tracking;

fn main(rt: HostRuntime) -> io::Result<()> {
    let mut out = io::writer(&rt);
    stacks::run(&mut out)?;
    making::run(&mut out)?;
    tracking::run(&mut out)?;
    settings::run(&mut out)
}
