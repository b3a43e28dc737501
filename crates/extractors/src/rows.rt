//! Codes filed under keys: a list of codes for each key, each in the order of filing.
ghost use Rattle.std.specs.Prelude.{◌≡◌, ◌<◌, [], ◌∷◌, ◌++◌, IfOk, OnErr, OnOk, get_or, length, replicate, set};

use std::alloc::{AllocError, Global};
use std::marker::Model;

#[cfg(test)]
mod tests;

/// A list of codes for each key from 0 up, each in the order of filing.
#[derive(Drop)]
pub struct Rows {
    rows: Vec<Vec<u8>>,
}

impl Model for Rows {
    ghost use Rattle.std.specs.Prelude.{ℕ, List, map, vec_items};

    ghost Value = { List (List ℕ) };

    ghost view = { λ a. map vec_items a.rows.items };
}

impl Rows {
    /// Empty lists for the keys 0 to `count - 1`.
    pub fn new(heap: Global, count: usize) -> Result<Rows, AllocError>
        ensures { IfOk result (λ r. r ≡ replicate count []) }
    {
        let mut rows = Vec::with_capacity(heap, count)?;
        // A chain with `collect` was tried; the goal of what it answers did not close.
        for _ in 0..count {
            rows.push(Vec::new(heap))?;
        }
        Ok(Rows { rows })
    }

    /// How many keys there are.
    pub fn len(&self) -> usize
        ensures { result ≡ length self.now }
    {
        self.rows.len()
    }

    /// Files the code at the end of the list of `key`. Where memory is wanting, all lists are as they were.
    pub fn file(&mut self, key: usize, code: u8) -> Result<(), AllocError>
        requires { key < length self.old }
        ensures filed { OnOk result (self.new ≡ set self.old key (get_or self.old key [] ++ (code ∷ []))) }
        ensures unchanged { OnErr result (self.new ≡ self.old) }
    {
        self.rows[key].push(code)?;
        Ok(())
    }

    /// The codes filed under `key`.
    pub fn row(&self, key: usize) -> &[u8]
        requires { key < length self.now }
        ensures { result.now ≡ get_or self.now key [] }
    {
        &self.rows[key]
    }
}
