//! Layers over each other and over ranking, on small recordings.
use crate::tower::{Base, Tower};
use extractors::interface::{CoinExtractor, SymbolExtractor};
use extractors::no_bits::NoBits;
use peres::layer::Peres;
use ranking::coin::CoinRanking;
use split::layer::Split;
use std::test::Fail;

#[test]
fn peres_over_ranking(rt: HostRuntime) -> Result<(), Fail> {
    let layer = Peres::new(CoinRanking::new(4)?, 1)?;
    let mut tray = [9; 8];
    let yielded = CoinExtractor::extract(&layer, rt.alloc(), &[0, 1, 1, 1, 0, 0, 1, 0], &mut tray)?;
    assert_eq!(rt; yielded, 5);
    assert_eq!(rt; tray, [0, 1, 1, 1, 1, 9, 9, 9]);
    Ok(())
}

#[test]
fn depth_zero_is_the_extractor_below(rt: HostRuntime) -> Result<(), Fail> {
    let layer = Peres::new(CoinRanking::new(4)?, 0)?;
    let mut tray = [9; 4];
    let yielded = CoinExtractor::extract(&layer, rt.alloc(), &[1, 0, 0, 1], &mut tray)?;
    assert_eq!(rt; yielded, 2);
    assert_eq!(rt; tray, [1, 1, 9, 9]);
    Ok(())
}

#[test]
fn split_over_peres(rt: HostRuntime) -> Result<(), Fail> {
    let layer = Split {
        below: Peres::new(NoBits, 1)?,
    };
    let mut tray = [9; 8];
    let yielded = SymbolExtractor::extract(&layer, rt.alloc(), 4, &[2, 1, 3, 0], &mut tray)?;
    assert_eq!(rt; yielded, 4);
    assert_eq!(rt; tray, [1, 1, 1, 0, 9, 9, 9, 9]);
    Ok(())
}

#[test]
fn letters_name_towers(rt: HostRuntime) -> Result<(), Fail> {
    assert!(rt; Tower::of('x').is_none());
    let tower = Tower::of('Q').ok_or_else(|| Fail::new("Q is a tower"))?;
    assert_eq!(rt; tower.letter(), 'Q');
    Ok(())
}

#[test]
fn base_extracts(rt: HostRuntime) -> Result<(), Fail> {
    let mut tray = [9; 8];
    let yielded = Base::Pairs.extract(rt.alloc(), 2, &[0, 1, 1, 0, 0, 0, 1], &mut tray)?;
    assert_eq!(rt; yielded, 2);
    assert_eq!(rt; tray, [0, 1, 9, 9, 9, 9, 9, 9]);
    Ok(())
}

#[test]
fn capital_extracts_by_lanes(rt: HostRuntime) -> Result<(), Fail> {
    let tower = Tower::of('V').ok_or_else(|| Fail::new("V is a tower"))?;
    let codes = [0, 2, 0, 1, 0, 1, 1, 0, 2, 0, 1];
    let mut tray = [9; 22];
    let yielded = tower.extract(rt.alloc(), 3, &codes, &mut tray)?;
    assert_eq!(rt; yielded, 3);
    assert!(rt; tray[..4] == [1, 0, 0, 9]);
    Ok(())
}
