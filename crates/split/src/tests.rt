//! The split layer over the pairs of coins and over no bits, on small recordings worked out by hand.
ghost use Rattle.extractors.specs.PairsRule.{pairs};
ghost use Rattle.extractors.specs.PairsEven.{pairs_even};

use crate::layer::Split;
use extractors::fault::ExtractorFault;
use extractors::interface::{CoinExtractor, SymbolExtractor};
use extractors::no_bits::NoBits;
use extractors::pairs::Pairs;
use std::alloc::Global;
use std::test::Fail;

/// The pairs of coins, for the layer of these tests to stand on.
#[derive(Clone, Copy)]
struct CoinPairs;

impl CoinExtractor for CoinPairs {
    ghost gives = { λ _. pairs };

    ghost even = { λ e. pairs_even 2 };

    fn extract(
        &self,
        heap: Global,
        recording: &[u8],
        tray: &mut [u8],
    ) -> Result<usize, ExtractorFault> {
        SymbolExtractor::extract(&Pairs, heap, 2, recording, tray)
    }
}

#[test]
fn size_four(rt: HostRuntime) -> Result<(), Fail> {
    let mut tray = [9; 9];
    let yielded = Split { below: CoinPairs }.extract(rt.alloc(), 4, &[2, 1, 3, 0], &mut tray)?;
    assert_eq!(rt; yielded, 4);
    assert_eq!(rt; tray, [1, 1, 1, 0, 9, 9, 9, 9, 9]);
    Ok(())
}

#[test]
fn size_six(rt: HostRuntime) -> Result<(), Fail> {
    let mut tray = [9; 18];
    let codes = [5, 0, 3, 2, 4, 1];
    let yielded = Split { below: CoinPairs }.extract(rt.alloc(), 6, &codes, &mut tray)?;
    assert_eq!(rt; yielded, 7);
    assert_eq!(rt;
        tray,
        [1, 1, 0, 1, 0, 1, 1, 9, 9, 9, 9, 9, 9, 9, 9, 9, 9, 9]
    );
    Ok(())
}

#[test]
fn size_sixteen(rt: HostRuntime) -> Result<(), Fail> {
    let mut tray = [9; 24];
    let codes = [9, 4, 13, 2, 7, 12];
    let yielded = Split { below: CoinPairs }.extract(rt.alloc(), 16, &codes, &mut tray)?;
    assert_eq!(rt; yielded, 7);
    assert_eq!(rt;
        tray,
        [
            1, 1, 0, 1, 0, 0, 1, 9, 9, 9, 9, 9, 9, 9, 9, 9, 9, 9, 9, 9, 9, 9, 9, 9,
        ]
    );
    Ok(())
}

#[test]
fn no_bits_below(rt: HostRuntime) -> Result<(), Fail> {
    let mut tray = [9; 8];
    let yielded = Split { below: NoBits }.extract(rt.alloc(), 4, &[2, 1, 3, 0], &mut tray)?;
    assert_eq!(rt; yielded, 0);
    assert_eq!(rt; tray, [9; 8]);
    Ok(())
}

#[test]
fn refusals(rt: HostRuntime) {
    let layer = Split { below: CoinPairs };
    let mut tray = [9; 5];
    let size = layer.extract(rt.alloc(), 17, &[2], &mut tray);
    assert_eq!(rt; size, Err(ExtractorFault::Size(17)));
    let code = layer.extract(rt.alloc(), 6, &[5, 6], &mut tray);
    assert_eq!(rt; code, Err(ExtractorFault::Code(1)));
    let room = layer.extract(rt.alloc(), 6, &[5, 0], &mut tray);
    assert_eq!(rt; room, Err(ExtractorFault::Tray(5)));
    assert_eq!(rt; tray, [9; 5]);
}
