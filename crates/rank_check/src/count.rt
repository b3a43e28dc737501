//! The bits of a block by counting: its rank and the size of its class by a scan of all blocks, then the group rule.
ghost use Rattle.std.specs.Prelude.{◌<◌, length};

use crate::block::Counts;
use std::alloc::{AllocError, Global};

/// More powers of two than the size of a class of eight codes has.
const POWERS: u32 = 16;

/// How many blocks have these counts; there are fewer than 2^32.
fn alike(all: &[Counts], own: Counts) -> usize {
    // A loop over numbers of 32 bits, of which many are compared and added at once; `filter` and `count` go one by one.
    let own = u32::from_le_bytes(own);
    let mut found = 0u32;
    for counts in all {
        found = found.wrapping_add(u32::from(u32::from_le_bytes(*counts) == own));
    }
    found as usize
}

/// A position in `a` bits, highest first.
fn in_bits(heap: Global, position: usize, a: u32) -> Result<Vec<u8>, AllocError>
    requires { a < 64 }
{
    (0..a)
        .rev()
        .map(|k| u8::from(position >> k & 1 == 1))
        .collect(heap)
}

/// The bits of a rank in a class: the class is cut into groups, a group for each power of two in the binary form of its
/// size, largest first.
fn group_bits(heap: Global, size: usize, rank: usize) -> Result<Vec<u8>, AllocError> {
    let mut position = rank;
    for a in (0..POWERS).rev() {
        let group = 1usize << a;
        if size & group != 0 {
            if position < group {
                return in_bits(heap, position, a);
            }
            position -= group;
        }
    }
    Ok(Vec::new(heap))
}

/// The bits of the block with this number, where the counts of all blocks stand in the order of their numbers.
pub(crate) fn counted_bits(
    heap: Global,
    all: &[Counts],
    number: usize,
) -> Result<Vec<u8>, AllocError>
    requires { number < length all.now }
{
    let own = all[number];
    let rank = alike(&all[..number], own);
    let size = alike(all, own);
    group_bits(heap, size, rank)
}
