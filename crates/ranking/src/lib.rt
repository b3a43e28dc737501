//! Ranking: blocks of a recording by their place in their count class, for coins and for symbols.
#![tactic(auto)]

mod binomial;
mod blocks;
pub mod coin;
mod group;
pub mod symbol;
#[cfg(test)]
mod tests;
