//! The coin extractor that gives no bits: what a Peres layer that keeps to pairs stands on.
ghost use Rattle.std.specs.Prelude.{[]};
ghost use Rattle.extractors.specs.PairsEven.{no_bits_even};

use crate::fault::ExtractorFault;
use crate::interface::CoinExtractor;
use crate::judge::judge;
use std::alloc::Global;

/// Gives no bits of any recording.
#[derive(Clone, Copy)]
pub struct NoBits;

impl CoinExtractor for NoBits {
    ghost gives = { λ _ x. [] };

    ghost even = { λ e. no_bits_even 2 };

    fn extract(
        &self,
        heap: Global,
        recording: &[u8],
        tray: &mut [u8],
    ) -> Result<usize, ExtractorFault> {
        judge(2, recording, tray.len())?;
        Ok(0)
    }
}
