//! The queue of held bits: its room is taken once, when it is made.
ghost use Rattle.std.specs.Prelude.{◌+◌, ◌*◌, ◌^◌, ◌<◌, ◌≤◌};
ghost use Rattle.std.specs.VecDeque.{deque_len, deque_capacity};

use std::collections::VecDeque;

pub mod moves;

/// The most bits that a queue holds.
pub const ROOM: usize = 16_640;

/// Bits too few for a byte.
#[derive(Clone, Copy)]
struct Tail {
    /// The number that the bits write, the first of them highest.
    number: u8,
    /// How many they are.
    count: usize,
    ghost short: { count < 8 },
    ghost fits: { number < 2 ^ count },
}

impl Tail {
    /// No bits.
    const NONE: Tail = Tail {
        number: 0,
        count: 0,
    };
}

/// The bits held, in the order in which they came: eight to a byte, the first of them highest, and the tail behind the
/// whole bytes.
#[derive(Drop)]
pub struct Queue {
    bytes: VecDeque<u8>,
    tail: Tail,
    ghost few: { 8 * deque_len bytes + tail.count ≤ 16640 },
    ghost room: { 2080 ≤ deque_capacity bytes },
}
