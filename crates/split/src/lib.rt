//! The split layer: a symbol extractor of any coin extractor, by the bits in which codes are written.
#![tactic(auto)]

pub mod layer;
#[cfg(test)]
mod tests;
