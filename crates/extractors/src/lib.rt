//! Extractors of fair bits from recordings of unfair symbols: their faults, their two interfaces, and the plain ones.
#![tactic(auto)]

pub mod fault;
pub mod interface;
pub mod judge;
pub mod no_bits;
pub mod pairs;
pub mod rows;
pub mod scratch;
#[cfg(test)]
mod tests;
