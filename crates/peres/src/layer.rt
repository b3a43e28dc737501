//! The Peres layer: its depth is judged when it is made, and it calls the extractor below by its contract alone.
ghost use Rattle.std.specs.Prelude.{◌≡◌, ◌≤◌, length, Ok, Err};
ghost use Rattle.classes.specs.Recordings.{Recording};
ghost use Rattle.extractors.specs.Calls.{Filled, Judged};
ghost use Rattle.peres.specs.PeresRule.{depth_due, peres};
ghost use Rattle.peres.specs.PeresEven.{peres_even};

use crate::parts::take_apart;
use extractors::fault::ExtractorFault;
use extractors::interface::CoinExtractor;
use extractors::scratch::extract_by;
use std::alloc::Global;

/// The greatest depth.
pub const MOST_DEPTH: usize = 12;

/// Takes codes two by two: gives the bits of pairs, then goes on with where pairs differ, and with what they agree in.
/// After `depth` such steps the extractor below gives the bits.
#[derive(Drop)]
pub struct Peres<E> {
    below: E,
    depth: usize,
    ghost shallow: { depth ≤ 12 },
}

impl<E: Drop> Peres<E> {
    /// The layer of that depth over an extractor; refused where the depth is over 12.
    pub fn new(below: E, depth: usize) -> Result<Peres<E>, ExtractorFault>
        ensures refused { Judged (depth_due depth) result }
        ensures made { elim result [ Ok p ↦ (p.below ≡ below) × (p.depth ≡ depth) | Err e ↦ Unit {0} ] }
    {
        if depth > MOST_DEPTH {
            return Err(ExtractorFault::Parameter(depth));
        }
        Ok(Peres { below, depth })
    }
}

/// Writes the bits of a depth to the front of `out`, and answers their number.
// No method is plainer: the depth goes down from call to call, while that of the layer stays.
fn fill<E: CoinExtractor>(
    below: &E,
    heap: Global,
    depth: usize,
    recording: &[u8],
    out: &mut [u8],
) -> Result<usize, ExtractorFault>
    requires coins { Recording 2 recording.now }
    requires room { length recording.now ≤ length out.old }
    ensures { Filled (peres depth (E.CoinExtractor.gives below.now) recording.now) out.old result out.new }
{
    if recording.is_empty() {
        return Ok(0);
    }
    if depth == 0 {
        // The extractor below is lent as many bytes as it is given codes, so that it never goes over the rest.
        return below.extract(heap, recording, &mut out[..recording.len()]);
    }
    let parts = take_apart(heap, recording, out)?;
    let next = depth - 1;
    let mut given = parts.yielded;
    given += fill(below, heap, next, &parts.differing, &mut out[given..])?;
    given += fill(below, heap, next, &parts.agreed, &mut out[given..])?;
    Ok(given)
}

impl<E: CoinExtractor> CoinExtractor for Peres<E> {
    ghost gives = { λ s. peres s.depth (E.CoinExtractor.gives s.below) };

    ghost even = { λ e. peres_even e.depth (E.CoinExtractor.gives e.below) (E.CoinExtractor.even e.below) };

    fn extract(
        &self,
        heap: Global,
        recording: &[u8],
        tray: &mut [u8],
    ) -> Result<usize, ExtractorFault> {
        extract_by(heap, 2, recording, tray, |scratch| {
            fill(&self.below, heap, self.depth, recording, scratch)
        })
    }
}
