//! The rankings held against the count, block by block, and a line for each size and length.
ghost use Rattle.std.specs.Prelude.{◌<◌};

use crate::block::Blocks;
use crate::count::counted_bits;
use extractors::fault::ExtractorFault;
use extractors::interface::{CoinExtractor, SymbolExtractor};
use extractors::judge::room;
use ranking::coin::CoinRanking;
use ranking::symbol::SymbolRanking;
use std::alloc::{AllocError, Global};
use std::fmt;
use std::fmt::Write;

/// The shortest block that is compared.
const LEAST_BLOCK: u8 = 2;
/// The longest block that is compared.
const GREATEST_BLOCK: u8 = 8;
/// The byte of an unwritten tray: no bit.
const BLANK: u8 = 9;

/// How many blocks of a size and a length agree with the count, and how many differ.
#[derive(Drop)]
struct Comparison {
    blocks: Blocks,
    same: usize,
    differ: usize,
}

impl fmt::Display for Comparison {
    fn fmt<W: fmt::Write>(&self, f: &mut fmt::Formatter<W>) -> fmt::Result {
        let Blocks { size, length } = self.blocks;
        let same = self.same;
        write!(f, "size {size} length {length}: {same} blocks agree")?;
        if self.differ > 0 {
            let differ = self.differ;
            write!(f, ", {differ} differ")?;
        }
        Ok(())
    }
}

/// Whether an extraction from a block of the size gives these bits.
fn gives<F: FnOnce(&mut [u8]) -> Result<usize, ExtractorFault>>(
    heap: Global,
    size: u8,
    block: &[u8],
    bits: &[u8],
    extract: F,
) -> Result<bool, AllocError>
    requires { F.IsAlwaysCallable extract }
{
    let mut tray = vec![in heap; BLANK; room(size, block.len())]?;
    let yielded = extract(&mut tray);
    Ok(yielded == Ok(bits.len()) && tray.starts_with(bits))
}

/// Whether each ranking that takes blocks of the size gives these bits of a block.
fn agree(heap: Global, size: u8, block: &[u8], bits: &[u8]) -> Result<bool, AllocError> {
    let symbols = gives(
        heap,
        size,
        block,
        bits,
        |tray| SymbolRanking::new(block.len())?.extract(heap, size, block, tray),
    )?;
    if size != 2 {
        return Ok(symbols);
    }
    let coins = gives(
        heap,
        size,
        block,
        bits,
        |tray| CoinRanking::new(block.len())?.extract(heap, block, tray),
    )?;
    Ok(symbols && coins)
}

/// Compares the blocks of a size and a length with the count.
fn compare_blocks(heap: Global, blocks: Blocks) -> Result<Comparison, AllocError> {
    let all = blocks.counts(heap)?;
    let mut same = 0;
    for number in 0..all.len() {
        let block = blocks.block(heap, number)?;
        let bits = counted_bits(heap, &all, number)?;
        if agree(heap, blocks.size, &block, &bits)? {
            same += 1;
        }
    }
    Ok(Comparison {
        blocks,
        same,
        differ: all.len() - same,
    })
}

/// Compares the blocks of every length at a size, and adds a line for each length to the text.
pub(crate) fn compare_size(heap: Global, size: u8, text: &mut String) -> Result<(), AllocError>
    requires { 0 < size }
{
    for length in LEAST_BLOCK..=GREATEST_BLOCK {
        let comparison = compare_blocks(heap, Blocks { size, length })?;
        writeln!(text, "{comparison}")?;
    }
    Ok(())
}
