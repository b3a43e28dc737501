//! The well: a queue of held bits with its mark and totals.
ghost use Rattle.std.specs.Prelude.{◌≡◌, ◌+◌, ◌≤◌, length};
ghost use Rattle.well.specs.Held.{held};

use crate::queue::Queue;

pub mod calls;
pub mod figures;

/// The most bits that are poured into one well.
pub const MOST_POURED: u32 = 16_777_216;

// Contracts say `state well`: a model in its place is no plainer, since what a call does is said of states.
/// A store of fair bits that deals keys, the oldest bits first, each bit once. Its mark, a number chosen by the maker,
/// tells its slips from those of other wells.
#[derive(Drop)]
pub struct Well {
    mark: u32,
    queue: Queue,
    poured: u32,
    loaded: u32,
    out: u32,
    draws: u32,
    ghost limit: { poured ≤ 16777216 },
    ghost balance: { loaded + out + length (held queue) ≡ poured },
    ghost drawn: { draws ≤ loaded + out },
}
