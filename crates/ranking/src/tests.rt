//! Ranks of small blocks, whole recordings, the longest blocks, and block lengths out of range.
use crate::coin::{CoinRanking, coin_rank};
use crate::symbol::{SymbolRanking, symbol_rank};
use extractors::fault::{ExtractorFault, Fault};
use extractors::interface::{CoinExtractor, SymbolExtractor};
use std::array;
use std::test::Fail;

/// The first `n` bits of a tray as a number, the first highest.
fn number(tray: &[u8], n: usize) -> u64 {
    tray.iter().take(n).fold(
        0u64,
        |value, bit| value.wrapping_mul(2).wrapping_add(u64::from(*bit)),
    )
}

#[test]
fn ranks_of_coins(rt: HostRuntime) {
    assert_eq!(rt; coin_rank(&[1, 0, 0, 1]), (3, 6));
    assert_eq!(rt; coin_rank(&[1, 1, 0, 0]), (5, 6));
}

#[test]
fn ranks_of_symbols(rt: HostRuntime) {
    assert_eq!(rt; symbol_rank(3, &[2, 0, 1]), (4, 6));
}

#[test]
fn blocks_of_coins(rt: HostRuntime) -> Result<(), Fail> {
    let mut tray = [9; 10];
    let yielded = CoinExtractor::extract(
        &CoinRanking::new(4)?,
        rt.alloc(),
        &[1, 0, 0, 1, 1, 1, 0, 0, 1, 0],
        &mut tray,
    )?;
    assert_eq!(rt; yielded, 4);
    assert_eq!(rt; tray, [1, 1, 1, 1, 9, 9, 9, 9, 9, 9]);
    Ok(())
}

#[test]
fn block_of_symbols(rt: HostRuntime) -> Result<(), Fail> {
    let mut tray = [9; 6];
    let yielded = SymbolExtractor::extract(
        &SymbolRanking::new(3)?,
        rt.alloc(),
        3,
        &[2, 0, 1],
        &mut tray,
    )?;
    assert_eq!(rt; yielded, 1);
    assert_eq!(rt; tray, [0, 9, 9, 9, 9, 9]);
    Ok(())
}

/// Sixty coins, one and zero in turn.
fn in_turn() -> [u8; 60] {
    array::from_fn(|i| u8::from(i % 2 == 0))
}

#[test]
fn longest_block_of_coins(rt: HostRuntime) -> Result<(), Fail> {
    let mut tray = [9; 60];
    let coins = in_turn();
    let yielded = CoinExtractor::extract(&CoinRanking::new(60)?, rt.alloc(), &coins, &mut tray)?;
    assert_eq!(rt; yielded, 55);
    assert_eq!(rt; number(&tray, yielded), 7238963978249825);
    Ok(())
}

/// Twenty codes, all sixteen among them: up to 15, then 3 down to 0.
fn up_and_down() -> [u8; 20] {
    let mut codes = [0; 20];
    for (place, code) in codes.iter_mut().zip((0..16u8).chain((0..4u8).rev())) {
        *place = code;
    }
    codes
}

#[test]
fn longest_block_of_symbols(rt: HostRuntime) -> Result<(), Fail> {
    let mut tray = [9; 80];
    let codes = up_and_down();
    let yielded = SymbolExtractor::extract(
        &SymbolRanking::new(20)?,
        rt.alloc(),
        16,
        &codes,
        &mut tray,
    )?;
    assert_eq!(rt; yielded, 57);
    assert_eq!(rt; number(&tray, yielded), 1015131022641239);
    Ok(())
}

#[test]
fn equal_codes_give_nothing(rt: HostRuntime) -> Result<(), Fail> {
    let mut tray = [9; 80];
    let yielded = SymbolExtractor::extract(
        &SymbolRanking::new(20)?,
        rt.alloc(),
        16,
        &[5; 20],
        &mut tray,
    )?;
    assert_eq!(rt; yielded, 0);
    assert_eq!(rt; tray[0], 9);
    Ok(())
}

#[test]
fn block_lengths(rt: HostRuntime) {
    assert!(rt; CoinRanking::new(2).is_ok());
    assert!(rt; CoinRanking::new(60).is_ok());
    assert!(rt; SymbolRanking::new(20).is_ok());
    assert!(rt; SymbolRanking::new(1).is_err());
    assert!(rt; SymbolRanking::new(21).is_err());
    let fault = CoinRanking::new(61).err();
    assert_eq!(rt; fault, Some(ExtractorFault::Parameter(61)));
    assert_eq!(rt; fault.map(|fault| fault.number()), Some(5));
}
