//! The pairs extractor, for every size.
ghost use Rattle.std.specs.Prelude.{◌≤◌, length};
ghost use Rattle.extractors.specs.Calls.{Written};
ghost use Rattle.extractors.specs.PairsRule.{pairs};
ghost use Rattle.extractors.specs.Piles.Pile.{bare};
ghost use Rattle.extractors.specs.PairsEven.{pairs_even};

use crate::fault::ExtractorFault;
use crate::interface::SymbolExtractor;
use crate::judge::judge;
use std::alloc::Global;

/// Takes the codes two by two: the smaller first gives 0, the larger first gives 1, equal codes give nothing.
#[derive(Clone, Copy)]
pub struct Pairs;

/// Writes the bits of pairs to the front of the tray, and answers their number.
fn write_pairs(recording: &[u8], tray: &mut [u8]) -> usize
    requires { length recording.now ≤ length tray.old }
    ensures { Written (pairs recording.now) tray.old result tray.new }
{
    let (pairs, _) = recording.as_chunks::<2>();
    let mut given = 0;
    for [a, b] in pairs {
        if a != b {
            tray[given] = u8::from(b < a);
            given += 1;
        }
    }
    given
}

impl SymbolExtractor for Pairs {
    ghost pile = { λ _. bare (λ m. pairs) };

    ghost lawful = { λ e m sized. pairs_even m };

    fn extract(
        &self,
        heap: Global,
        size: u8,
        recording: &[u8],
        tray: &mut [u8],
    ) -> Result<usize, ExtractorFault> {
        judge(size, recording, tray.len())?;
        Ok(write_pairs(recording, tray))
    }
}
