//! The cleaning program: a noise file on standard input, the figures of its entries and the keys on standard output.
#![tactic(auto)]

mod deal;
mod fault;
#[cfg(test)]
mod tests;
mod text;
mod work;

use std::io::Read;

/// The most bytes that are read: one more than the longest noise file has.
const MOST_INPUT: u64 = 61_503;

fn main(rt: HostRuntime) -> anyhow::Result<()> {
    let mut bytes = Vec::new(rt.alloc());
    rt.stdin().take(MOST_INPUT).read_to_end(&mut bytes)?;
    let text = work::clean(rt.alloc(), bytes)?;
    rt.print(text)?;
    Ok(())
}
