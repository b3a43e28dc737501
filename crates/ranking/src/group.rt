//! The group rule, for both rankings: the bits of a rank in a class.
ghost use Rattle.std.specs.Prelude.{◌≡◌, ◌^◌, ◌<◌, ◌≤◌, length};
ghost use Rattle.extractors.specs.Bits.{bytes};
ghost use Rattle.extractors.specs.Calls.{Written};
ghost use Rattle.ranking.specs.Groups.{in_bits, rank_bits};

/// Writes a position over all of `bits`, highest first.
fn write_bits(position: u64, bits: &mut [u8])
    requires few { length bits.old < 64 }
    requires within { position < 2 ^ length bits.old }
    ensures { bits.new ≡ bytes (in_bits (length bits.old) position) }
{
    let a = bits.len();
    for (i, bit) in bits.iter_mut().enumerate() {
        *bit = u8::from(position >> (a - 1 - i) & 1 == 1);
    }
}

/// Writes the bits of a rank in a class of `size` blocks to the front of the tray, and answers their number: the groups
/// are passed largest first until the rank lies in one.
pub(crate) fn write_rank_bits(size: u64, rank: u64, tray: &mut [u8]) -> usize
    requires { length (rank_bits size rank) ≤ length tray.old }
    ensures { Written (rank_bits size rank) tray.old result tray.new }
{
    let mut left = size;
    let mut position = rank;
    for a in (0..64usize).rev() {
        let power = 1u64 << a;
        if left >= power {
            if position < power {
                write_bits(position, &mut tray[..a]);
                return a;
            }
            left -= power;
            position -= power;
        }
    }
    0
}
