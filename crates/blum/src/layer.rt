//! The Blum layer: the lanes of a recording go one by one to the extractor below.
ghost use Rattle.std.specs.Prelude.{◌≡◌, ◌*◌, ◌≤◌, length, if◌then◌else◌, nat_eq};
ghost use Rattle.classes.specs.Recordings.{Recording, Sized, width as width_of};
ghost use Rattle.extractors.specs.Lanes.{blum, init};
ghost use Rattle.extractors.specs.Piles.{bits};
ghost use Rattle.extractors.specs.Piles.Pile.{laned};
ghost use Rattle.extractors.specs.Calls.{Filled};
ghost use Rattle.blum.specs.PileTheorems.{counts_even};

use crate::lanes::file_exits;
use extractors::fault::ExtractorFault;
use extractors::interface::SymbolExtractor;
use extractors::judge::width;
use extractors::scratch::extract_by;
use std::alloc::Global;

/// Gives the extractor below the exits of each state in turn, states from 0 upward.
#[derive(Drop)]
pub struct Blum<E> {
    pub below: E,
}

/// The exits that are kept of a state's lane: all where the recording ends in the state, else all but the last.
fn kept_exits(state: u8, last: u8, lane: &[u8]) -> &[u8]
    ensures { result.now ≡ (if nat_eq last state then lane.now else init lane.now) }
{
    if last == state {
        return lane;
    }
    &lane[..lane.len().saturating_sub(1)]
}

impl<E: SymbolExtractor> Blum<E> {
    // What is passed on is what the interface passes, so no struct holds it.
    /// Writes the bits of all kept exits to the front of the scratch slice, states from 0 upward.
    fn fill(
        &self,
        heap: Global,
        size: u8,
        recording: &[u8],
        scratch: &mut [u8],
    ) -> Result<usize, ExtractorFault>
        requires sized { Sized size }
        requires recorded { Recording size recording.now }
        requires room { width_of size * length recording.now ≤ length scratch.old }
        ensures { Filled (blum size (bits (E.SymbolExtractor.pile self.now.below) size) recording.now) scratch.old result scratch.new }
    {
        let Some(last) = recording.last() else {
            return Ok(0);
        };
        let w = width(size);
        let lanes = file_exits(heap, recording)?;
        let mut at = 0;
        for state in 0..size {
            let exits = kept_exits(state, *last, lanes.lane(usize::from(state)));
            let part = &mut scratch[at..at + w * exits.len()];
            at += self.below.extract(heap, size, exits, part)?;
        }
        Ok(at)
    }
}

impl<E: SymbolExtractor> SymbolExtractor for Blum<E> {
    ghost pile = { λ s. laned (bits (E.SymbolExtractor.pile s.below)) };

    ghost lawful = { λ e. counts_even (E.SymbolExtractor.pile e.below) (E.SymbolExtractor.lawful e.below) };

    fn extract(
        &self,
        heap: Global,
        size: u8,
        recording: &[u8],
        tray: &mut [u8],
    ) -> Result<usize, ExtractorFault> {
        extract_by(heap, size, recording, tray, |scratch| {
            self.fill(heap, size, recording, scratch)
        })
    }
}
