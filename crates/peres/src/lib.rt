//! The Peres layer over any coin extractor.
#![tactic(auto)]

pub mod layer;
mod parts;
#[cfg(test)]
mod tests;
