//! Noise files: their contents, kinds and entries, and feeding an entry to a well.
#![tactic(auto)]

mod bodies;
mod contents;
pub mod entry;
pub mod fault;
pub mod file;
mod judge;
pub mod kind;
#[cfg(test)]
mod tests;
