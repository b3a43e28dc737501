//! The figures that a well shows.
ghost use Rattle.std.specs.Prelude.{◌≡◌, ◌≤◌, length};
ghost use Rattle.well.specs.View.{state};

use super::Well;

impl Well {
    /// The number of bits held.
    pub fn held(&self) -> usize
        ensures value { result ≡ length (state self.now).queue }
        ensures most { result ≤ 16640 }
    {
        self.queue.len()
    }

    /// The number of bits poured since the making.
    pub fn poured(&self) -> u32
        ensures { result ≡ (state self.now).poured }
    {
        self.poured
    }

    /// The number of bits on slips that were loaded.
    pub fn loaded(&self) -> u32
        ensures { result ≡ (state self.now).loaded }
    {
        self.loaded
    }
}
