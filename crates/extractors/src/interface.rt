//! The two interfaces of extractors: what an implementation means, the even law that it owes, and what a call leaves.
ghost use Rattle.std.specs.Prelude.{ℕ, Bool, List};
ghost use Rattle.classes.specs.Evenness.{Even};
ghost use Rattle.extractors.specs.Calls.{Extracted};
ghost use Rattle.extractors.specs.Piles.{Lawful, Pile, bits};

use crate::fault::ExtractorFault;
use std::alloc::Global;

// The tray and the yield are two values by a rule of the project: the tray is the caller's, and keeps its length.
/// One function from recordings of size 2 to bit strings, even on every count class.
pub trait CoinExtractor {
    ghost gives: { Self → List ℕ → List Bool };

    /// Writes the bits to the front of the tray, a byte 0 or 1 each, and answers the yield.
    fn extract(
        &self,
        heap: Global,
        recording: &[u8],
        tray: &mut [u8],
    ) -> Result<usize, ExtractorFault>
        ensures { Extracted (gives self.now) 2 recording.now tray.old result tray.new };

    ghost even: { (e : Self) → Even 2 (gives e) };
}

/// One function from recordings to bit strings for every size, even on every count class.
pub trait SymbolExtractor {
    ghost pile: { Self → Pile };

    /// Writes the bits to the front of the tray, a byte 0 or 1 each, and answers the yield.
    fn extract(
        &self,
        heap: Global,
        size: u8,
        recording: &[u8],
        tray: &mut [u8],
    ) -> Result<usize, ExtractorFault>
        ensures { Extracted (bits (pile self.now) size) size recording.now tray.old result tray.new };

    ghost lawful: { (e : Self) → Lawful (pile e) };
}
