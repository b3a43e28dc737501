//! The ten towers by which entries are cleaned: a base, with or without the Blum layer on top, fed to a well.
#![tactic(auto)]

pub mod examples;
pub mod extract;
pub mod feed;
#[cfg(test)]
mod tests;
pub mod tower;
