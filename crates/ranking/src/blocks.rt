//! The blocks of a recording: the type of both rankings, which holds how long they are, and their bits one block after another.
ghost use Rattle.std.specs.Prelude.{◌≡◌, ◌*◌, ◌<◌, ◌≤◌, length, IfOk};
ghost use Rattle.classes.specs.Recordings.{Codes, Sized, width};
ghost use Rattle.extractors.specs.Calls.{Judged, Written};
ghost use Rattle.ranking.specs.GroupLaw.{GroupLaw};
ghost use Rattle.ranking.specs.Blocks.{by_blocks};
ghost use Rattle.ranking.specs.Made.{outside};
ghost use Rattle.ranking.specs.PairsAsBlocks.{PairsAreBlocks};
ghost use Rattle.ranking.specs.Ranks.{block_bits, class_size, rank as rank_of};
ghost use Rattle.ranking.specs.Sizes.{CoinSizes, SymbolSizes};

use crate::group::write_rank_bits;
use extractors::fault::ExtractorFault;

/// The shortest block.
pub const LEAST_BLOCK: usize = 2;

/// Ranks blocks of one length, 2 to `MOST`, in their count classes, and gives their bits by the group rule.
#[derive(Clone, Copy)]
pub struct Ranking<const MOST: usize> {
    pub(crate) block: usize,
    ghost least: { 2 ≤ block },
    ghost greatest: { block ≤ MOST },
}

impl<const MOST: usize> Ranking<MOST> {
    /// Blocks of `block` codes, 2 to `MOST`; any other length is refused.
    #[tactic(auto, using(crate::specs::CoinScan::coin_size, crate::specs::SymbolScan::class_multinomial, crate::specs::GroupRule::group_law, crate::proofs::PairsAreBlocks::pairs_are_blocks))]
    pub fn new(block: usize) -> Result<Ranking<MOST>, ExtractorFault>
        ensures refuses { Judged (outside 2 MOST block) result }
        ensures value { IfOk result (λ c. c.block ≡ block) }
        ensures coin_sizes { CoinSizes }
        ensures symbol_sizes { SymbolSizes }
        ensures groups_even { GroupLaw }
        ensures pairs { PairsAreBlocks }
    {
        if (LEAST_BLOCK..=MOST).contains(&block) {
            Ok(Ranking { block })
        } else {
            Err(ExtractorFault::Parameter(block))
        }
    }
}

/// Writes the bits of the blocks of `b` codes, one block after another, to the front of the tray, and answers their number.
/// The rule gives the rank of a block in its count class and the size of the class.
pub(crate) fn write_blocks<F: Fn(&[u8]) -> (u64, u64)>(
    size: u8,
    b: usize,
    recording: &[u8],
    tray: &mut [u8],
    rule: F,
) -> usize
    requires some { 0 < b }
    requires sized { Sized size }
    requires codes { Codes size recording.now }
    requires room { width size * length recording.now ≤ length tray.old }
    requires callable { (x : _) → Codes size x.now → length x.now ≤ b → F.pre rule x }
    requires ranked { (x r : _) → Codes size x.now → length x.now ≤ b → F.post rule x r → r.0 ≡ rank_of size x.now }
    requires class_sized { (x r : _) → Codes size x.now → length x.now ≤ b → F.post rule x r → r.1 ≡ class_size size x.now }
    ensures { Written (by_blocks b (block_bits size) recording.now) tray.old result tray.new }
{
    let mut given = 0;
    for block in recording.chunks(b) {
        let (rank, arrangements) = rule(block);
        given += write_rank_bits(arrangements, rank, &mut tray[given..]);
    }
    given
}
