//! A store of fair bits: fed by extractors, drawn from by keys, with a slip for every draw.
#![tactic(auto)]

pub mod fault;
mod queue;
pub mod slip;
pub mod store;
#[cfg(test)]
mod tests;
pub mod tray;
