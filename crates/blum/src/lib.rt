//! The Blum layer over any symbol extractor, and what the even law makes of a pile.
#![tactic(auto)]

mod lanes;
pub mod layer;
pub mod standing;
#[cfg(test)]
mod tests;
