//! The symbol ranking: blocks of codes of any size, by running counts.
ghost use Rattle.std.specs.Prelude.{◌≡◌, ◌^◌, ◌<◌, ◌≤◌, length, sum as sum_of};
ghost use Rattle.classes.specs.Recordings.{Codes};
ghost use Rattle.extractors.specs.Piles.Pile.{bare};
ghost use Rattle.ranking.specs.Blocks.{by_blocks};
ghost use Rattle.ranking.specs.Factorials.{Multinomial};
ghost use Rattle.ranking.specs.Ranks.{block_bits, class_size, rank as rank_of};
ghost use Rattle.ranking.specs.RankingEven.{symbol_ranking_even};

pub use crate::blocks::LEAST_BLOCK;
use crate::blocks::{Ranking, write_blocks};
use extractors::fault::ExtractorFault;
use extractors::interface::SymbolExtractor;
use extractors::judge::{GREATEST_SIZE, judge};
use std::alloc::Global;

/// The longest block of symbols: its arrangements fit 64 bits.
pub const GREATEST_BLOCK: usize = 20;
/// The number of codes of the largest alphabet.
// The cast loses nothing, and a constant's value calls no function, so not `usize::from`.
const CODES: usize = GREATEST_SIZE as usize;

/// Ranks blocks of 2 to 20 symbols in their count classes and gives their bits by the group rule.
pub type SymbolRanking = Ranking<GREATEST_BLOCK>;

/// The sum of some counts.
fn total(counts: &[u64]) -> u64
    requires { sum_of counts.now < 2 ^ 64 }
    ensures { result ≡ sum_of counts.now }
{
    counts.iter().sum()
}

/// The rank of a block of codes below the size in its count class, and the number of arrangements of its codes, which is
/// the size of the class. From the last code to the first: a code more multiplies the arrangements by the new length and
/// divides them by the code's own count; of them, those that begin with a smaller code are as many as the smaller codes'
/// part of the length. Neither division has a remainder.
pub(crate) fn symbol_rank(size: u8, block: &[u8]) -> (u64, u64)
    requires sized { size ≤ 16 }
    requires short { length block.now ≤ 20 }
    requires codes { Codes size block.now }
    ensures ranked { result.0 ≡ rank_of size block.now }
    ensures sized { result.1 ≡ class_size size block.now }
    ensures factorials { Multinomial size block.now result.1 }
{
    let mut counts = [0u64; CODES];
    let mut arrangements = 1;
    let mut rank = 0;
    for (later, code) in block.iter().rev().enumerate() {
        // The cast loses nothing, and u64 has no From of usize.
        let length = later as u64 + 1;
        let code = usize::from(*code);
        let own = counts[code] + 1;
        counts[code] = own;
        arrangements = arrangements * length / own;
        rank += arrangements * total(&counts[..code]) / length;
    }
    (rank, arrangements)
}

impl SymbolExtractor for SymbolRanking {
    ghost pile = { λ s. bare (λ m. by_blocks s.block (block_bits m)) };

    ghost lawful = { λ e m sized. symbol_ranking_even e.block e.least e.greatest m sized };

    fn extract(
        &self,
        heap: Global,
        size: u8,
        recording: &[u8],
        tray: &mut [u8],
    ) -> Result<usize, ExtractorFault> {
        judge(size, recording, tray.len())?;
        let rule = |block: &[u8]| symbol_rank(size, block);
        Ok(write_blocks(size, self.block, recording, tray, rule))
    }
}
