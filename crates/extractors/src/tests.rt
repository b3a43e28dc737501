//! The plain extractors on small recordings, and each refusal with its place.
use crate::fault::{ExtractorFault, Fault, Layer};
use crate::interface::{CoinExtractor, SymbolExtractor};
use crate::judge::{judge, room};
use crate::no_bits::NoBits;
use crate::pairs::Pairs;
use crate::scratch::extract_by;
use std::test::Fail;

#[test]
fn pairs_of_coins(rt: HostRuntime) -> Result<(), Fail> {
    let mut tray = [9; 8];
    let yielded = Pairs.extract(rt.alloc(), 2, &[0, 1, 1, 0, 0, 0, 1], &mut tray)?;
    assert_eq!(rt; yielded, 2);
    assert_eq!(rt; tray, [0, 1, 9, 9, 9, 9, 9, 9]);
    Ok(())
}

#[test]
fn no_bits_of_coins(rt: HostRuntime) -> Result<(), Fail> {
    let mut tray = [9; 3];
    let yielded = NoBits.extract(rt.alloc(), &[0, 1, 1], &mut tray)?;
    assert_eq!(rt; yielded, 0);
    assert_eq!(rt; tray, [9, 9, 9]);
    Ok(())
}

#[test]
fn refusals_in_order(rt: HostRuntime) {
    assert_eq!(rt; judge(1, &[7], 0), Err(ExtractorFault::Size(1)));
    assert_eq!(rt; judge(17, &[], 0), Err(ExtractorFault::Size(17)));
    assert_eq!(rt; judge(2, &[9; 4097], 0), Err(ExtractorFault::Length(4097)));
    assert_eq!(rt; judge(6, &[5, 0, 6, 7], 0), Err(ExtractorFault::Code(2)));
    assert_eq!(rt; judge(6, &[5, 0, 1], 8), Err(ExtractorFault::Tray(8)));
    assert_eq!(rt; judge(16, &[15; 4096], room(16, 4096)), Ok(()));
}

#[test]
fn figures_of_a_fault(rt: HostRuntime) {
    let fault = ExtractorFault::Code(5);
    assert_eq!(rt; fault.number(), 3);
    assert_eq!(rt; fault.layer(), Layer::Extractor);
    assert_eq!(rt; fault.place(), 5);
}

#[test]
fn filled_by_way_of_scratch(rt: HostRuntime) -> Result<(), Fail> {
    let mut tray = [9; 3];
    let yielded = extract_by(rt.alloc(), 2, &[0, 1, 1], &mut tray, |scratch| {
        scratch[0] = 1;
        Ok(1)
    })?;
    assert_eq!(rt; yielded, 1);
    assert_eq!(rt; tray, [1, 9, 9]);
    Ok(())
}
