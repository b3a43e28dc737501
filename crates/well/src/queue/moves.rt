//! The calls on a queue: new bits enter at its end, a key takes the oldest.
ghost use Rattle.std.specs.Prelude.{◌≡◌, ◌+◌, ◌*◌, ◌^◌, ◌<◌, ◌≤◌, [], ◌++◌, length, take, drop, IfOk};
ghost use Rattle.well.specs.Held.{held};
ghost use Rattle.well.specs.Lean.{flags, lean};
ghost use Rattle.well.specs.Packing.{digits, packed, unpacked, value};

use super::{Queue, ROOM, Tail};
use std::alloc::{AllocError, Global};
use std::collections::VecDeque;

impl Queue {
    /// An empty queue with room for 16,640 bits, or the want of memory for them.
    pub fn new(heap: Global) -> Result<Queue, AllocError>
        ensures { IfOk result (λ q. held q ≡ []) }
    {
        let bytes = VecDeque::with_capacity(heap, ROOM / 8)?;
        Ok(Queue {
            bytes,
            tail: Tail::NONE,
        })
    }

    /// The number of bits held.
    pub fn len(&self) -> usize
        ensures value { result ≡ length (held self.now) }
        ensures bound { result ≤ 16640 }
    {
        8 * self.bytes.len() + self.tail.count
    }

    /// Appends the bits that the tray's bytes stand for and answers ones minus zeros.
    pub(crate) fn append(&mut self, tray: &[u8]) -> i32
        requires { length (held self.old) + length tray.now ≤ 16640 }
        ensures appended { held self.new ≡ held self.old ++ flags tray.now }
        ensures leans { result ≡ lean (flags tray.now) }
    {
        let (whole, few) = tray.as_chunks::<8>();
        for eight in whole {
            self.push_bits(number_of(eight), 8);
        }
        for byte in few {
            self.push_bits(u8::from(*byte == 1), 1);
        }
        lean_of(tray)
    }

    /// Appends the `count` bits of a number, the highest first: where they and those of the tail are eight or more, the first
    /// eight make a byte.
    fn push_bits(&mut self, number: u8, count: usize)
        requires few { count ≤ 8 }
        requires within { number < 2 ^ count }
        requires room { length (held self.old) + count ≤ 16640 }
        ensures { held self.new ≡ held self.old ++ digits count number }
    {
        let all = (u16::from(self.tail.number) << count) + u16::from(number);
        let total = self.tail.count + count;
        if total < 8 {
            // Fewer than eight bits, so the cast loses nothing.
            self.tail = Tail {
                number: all as u8,
                count: total,
            };
            return;
        }
        let unit = 1u16 << (total - 8);
        // The first eight bits and those behind them, so the casts lose nothing.
        self.tail = Tail {
            number: (all % unit) as u8,
            count: total - 8,
        };
        self.bytes.push_back_reserved((all / unit) as u8);
    }

    /// Takes the oldest bits, eight a byte, and fills the key with them.
    pub(crate) fn take_front(&mut self, key: &mut [u8])
        requires { 8 * length key.old ≤ length (held self.old) }
        ensures filled { key.new ≡ packed (length key.old) (held self.old) }
        ensures oldest_first { unpacked key.new ≡ take (8 * length key.old) (held self.old) }
        ensures rest { held self.new ≡ drop (8 * length key.old) (held self.old) }
    {
        for byte in key.iter_mut() {
            *byte = self.take_byte();
        }
    }

    /// Takes the first eight bits as a byte, the first bit highest.
    pub(crate) fn take_byte(&mut self) -> u8
        requires { 8 ≤ length (held self.old) }
        ensures byte { result ≡ value (take 8 (held self.old)) }
        ensures rest { held self.new ≡ drop 8 (held self.old) }
    {
        self.bytes.pop_front().unwrap()
    }
}

/// The number that the bits of at most eight bytes write, the first of them highest.
fn number_of(tray: &[u8]) -> u8
    requires { length tray.now ≤ 8 }
    ensures { result ≡ value (flags tray.now) }
{
    let mut number = 0;
    for byte in tray {
        number = 2 * number + u8::from(*byte == 1);
    }
    number
}

/// Ones minus zeros of the bits that the bytes stand for.
fn lean_of(tray: &[u8]) -> i32
    requires { length tray.now ≤ 16640 }
    ensures { result ≡ lean (flags tray.now) }
{
    let mut lean = 0;
    for byte in tray {
        lean += if *byte == 1 { 1 } else { -1 };
    }
    lean
}
