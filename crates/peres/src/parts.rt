//! One pass over a recording of coins: the bits of its pairs, and the two lists that a Peres layer goes on with.
ghost use Rattle.std.specs.Prelude.{◌≤◌, length};
ghost use Rattle.peres.specs.Fills.{TakenApart};

use extractors::fault::ExtractorFault;
use std::alloc::Global;

/// What is left of a recording when the bits of its pairs are written.
#[derive(Drop)]
pub(crate) struct Parts {
    /// The number of bits that the pairs gave.
    pub(crate) yielded: usize,
    /// For each pair, 1 if its codes differ and 0 if they agree.
    pub(crate) differing: Vec<u8>,
    /// The common code of each agreeing pair, in order.
    pub(crate) agreed: Vec<u8>,
}

// Not the pairs extractor with two lists beside it: a layer reads its recording once.
/// Writes the bits of pairs to the front of `out`, and lists where pairs differ and in what they agree.
pub(crate) fn take_apart(
    heap: Global,
    recording: &[u8],
    out: &mut [u8],
) -> Result<Parts, ExtractorFault>
    requires { length recording.now ≤ length out.old }
    ensures { TakenApart recording.now out.old result out.new }
{
    let (pairs, _) = recording.as_chunks::<2>();
    let mut differing = Vec::new(heap);
    let mut agreed = Vec::new(heap);
    let mut given = 0;
    for [a, b] in pairs {
        differing.push(u8::from(a != b))?;
        if a == b {
            agreed.push(*a)?;
        } else {
            out[given] = u8::from(b < a);
            given += 1;
        }
    }
    Ok(Parts {
        yielded: given,
        differing,
        agreed,
    })
}
