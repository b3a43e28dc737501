//! The split layer over any coin extractor: nodes, levels, and the bits of all levels.
ghost use Rattle.std.specs.Prelude.{◌*◌, ◌^◌, ◌<◌, ◌≤◌, [], IfOk, get_or, length};
ghost use Rattle.std.specs.List.{All, sum_by};
ghost use Rattle.classes.specs.Recordings.{Codes, Recording, Sized, width as width_of};
ghost use Rattle.extractors.specs.Bits.{gather};
ghost use Rattle.extractors.specs.Calls.{Filled};
ghost use Rattle.extractors.specs.Piles.Pile.{bare};
ghost use Rattle.extractors.specs.Rows.{Filed};
ghost use Rattle.split.specs.SplitRule.{node, split};
ghost use Rattle.split.specs.SplitEven.{split_even};

use extractors::fault::ExtractorFault;
use extractors::interface::{CoinExtractor, SymbolExtractor};
use extractors::judge::width;
use extractors::rows::Rows;
use extractors::scratch::extract_by;
use std::alloc::{AllocError, Global};

/// Writes each code in bits, highest first, and hands the next bits after each prefix to the coin extractor below.
#[derive(Drop)]
pub struct Split<E> {
    pub below: E,
}

/// Files the next bit of each code under its first `d` bits of `w`: the node of each prefix.
fn file_bits(heap: Global, w: usize, d: usize, codes: &[u8]) -> Result<Rows, AllocError>
    requires deep { d < w }
    requires narrow { w ≤ 4 }
    requires coded { Codes (2 ^ w) codes.now }
    ensures { IfOk result (Filed (2 ^ d) (node w d) codes.now) }
{
    let mut nodes = Rows::new(heap, 1 << d)?;
    for code in codes {
        let lead = *code >> (w - d);
        nodes.file(usize::from(lead), (*code >> (w - d - 1)) % 2)?;
    }
    Ok(nodes)
}

impl<E: CoinExtractor> Split<E> {
    /// Writes the bits of the nodes of one level to the front of `out`, and answers their number.
    fn fill_level(
        &self,
        heap: Global,
        nodes: &Rows,
        out: &mut [u8],
    ) -> Result<usize, ExtractorFault>
        requires coins { All (Recording 2) nodes.now }
        requires room { sum_by length nodes.now ≤ length out.old }
        ensures { Filled (gather (length nodes.now) (λ p. E.CoinExtractor.gives self.now.below (get_or nodes.now p []))) out.old result out.new }
    {
        let mut at = 0;
        // An iterator on `Rows` would be a type more, with its laws, for this loop alone.
        for lead in 0..nodes.len() {
            let coins = nodes.row(lead);
            // A node with no coins gives no bits.
            if coins.is_empty() {
                continue;
            }
            let part = &mut out[at..at + coins.len()];
            at += self.below.extract(heap, coins, part)?;
        }
        Ok(at)
    }

    // What is passed on is what the interface passes, so no struct holds it.
    /// Writes the bits of all levels to the front of `out`, and answers their number.
    fn fill(
        &self,
        heap: Global,
        size: u8,
        codes: &[u8],
        out: &mut [u8],
    ) -> Result<usize, ExtractorFault>
        requires sized { Sized size }
        requires recorded { Recording size codes.now }
        requires room { width_of size * length codes.now ≤ length out.old }
        ensures { Filled (split (width_of size) (E.CoinExtractor.gives self.now.below) codes.now) out.old result out.new }
    {
        // No memory is wanted where there are no codes.
        if codes.is_empty() {
            return Ok(0);
        }
        let w = width(size);
        let mut at = 0;
        for d in 0..w {
            let nodes = file_bits(heap, w, d, codes)?;
            at += self.fill_level(heap, &nodes, &mut out[at..at + codes.len()])?;
        }
        Ok(at)
    }
}

impl<E: CoinExtractor> SymbolExtractor for Split<E> {
    ghost pile = { λ s. bare (λ m. split (width_of m) (E.CoinExtractor.gives s.below)) };

    ghost lawful = { λ e m sized. split_even m (E.CoinExtractor.gives e.below) sized (E.CoinExtractor.even e.below) };

    // Reads as the Blum layer's: a trait that both would fill by is no plainer than these two calls.
    fn extract(
        &self,
        heap: Global,
        size: u8,
        recording: &[u8],
        tray: &mut [u8],
    ) -> Result<usize, ExtractorFault> {
        extract_by(heap, size, recording, tray, |scratch| {
            self.fill(heap, size, recording, scratch)
        })
    }
}
