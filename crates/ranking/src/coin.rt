//! The coin ranking: blocks of coins, by the table of binomials.
ghost use Rattle.std.specs.Prelude.{◌≡◌, ◌≤◌, length};
ghost use Rattle.classes.specs.Recordings.{Codes};
ghost use Rattle.ranking.specs.Blocks.{by_blocks};
ghost use Rattle.ranking.specs.Ranks.{block_bits, class_size, rank as rank_of};
ghost use Rattle.ranking.specs.RankingEven.{coin_ranking_even};

use crate::binomial::binomial;
pub use crate::blocks::LEAST_BLOCK;
use crate::blocks::{Ranking, write_blocks};
use extractors::fault::ExtractorFault;
use extractors::interface::CoinExtractor;
use extractors::judge::judge;
use std::alloc::Global;

/// The longest block of coins: its binomials stand in the table.
pub const GREATEST_BLOCK: usize = 60;

/// Ranks blocks of 2 to 60 coins in their count classes and gives their bits by the group rule.
pub type CoinRanking = Ranking<GREATEST_BLOCK>;

/// The rank of a block of coins in its count class, and the size of the class. A one comes after all words that agree
/// with the block up to it and have a 0 there: as many as there are ways to place the ones from it on behind it.
pub(crate) fn coin_rank(block: &[u8]) -> (u64, u64)
    requires short { length block.now ≤ 60 }
    requires coins { Codes 2 block.now }
    ensures ranked { result.0 ≡ rank_of 2 block.now }
    ensures sized { result.1 ≡ class_size 2 block.now }
{
    let mut ones = 0;
    let mut rank = 0;
    for (later, coin) in block.iter().rev().enumerate() {
        if *coin == 1 {
            ones += 1;
            rank += binomial(later, ones);
        }
    }
    (rank, binomial(block.len(), ones))
}

impl CoinExtractor for CoinRanking {
    ghost gives = { λ s. by_blocks s.block (block_bits 2) };

    ghost even = { λ e. coin_ranking_even e.block e.least e.greatest };

    fn extract(
        &self,
        heap: Global,
        recording: &[u8],
        tray: &mut [u8],
    ) -> Result<usize, ExtractorFault> {
        judge(2, recording, tray.len())?;
        Ok(write_blocks(2, self.block, recording, tray, coin_rank))
    }
}
