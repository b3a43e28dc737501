//! Extraction by way of scratch memory: what the layers share.
ghost use Rattle.std.specs.Prelude.{◌≡◌, ℕ, Bool, List, ◌*◌, length, None};
ghost use Rattle.std.specs.Fn.{FnOnceReturnsAtMut, FnOnceTakesAtMut};
ghost use Rattle.classes.specs.Recordings.{width as width_of};
ghost use Rattle.extractors.specs.Calls.{Extracted, Fills, due};

use crate::fault::ExtractorFault;
use crate::judge::{judge, width};
use std::alloc::Global;

/// Judges a call, has `fill` write the bits of the recording to the front of scratch memory, and moves them to the front of
/// the tray. The scratch has as many bytes as the recording needs; a tray keeps its values where the call is refused.
pub fn extract_by<F: FnOnce(&mut [u8]) -> Result<usize, ExtractorFault>>(
    heap: Global,
    size: u8,
    recording: &[u8],
    tray: &mut [u8],
    fill: F,
) -> Result<usize, ExtractorFault>
    requires takes { due size recording.now (length tray.old) ≡ None → (s : List ℕ) → length s ≡ width_of size * length recording.now → FnOnceTakesAtMut F.FnOnce fill s }
    requires fills { (b : List Bool) × Fills (width_of size * length recording.now) b (FnOnceReturnsAtMut F.FnOnce fill) }
    ensures { (f : List ℕ → List Bool) → Fills (width_of size * length recording.now) (f recording.now) (FnOnceReturnsAtMut F.FnOnce fill) → Extracted f size recording.now tray.old result tray.new }
{
    judge(size, recording, tray.len())?;
    let mut scratch = vec![in heap; 0u8; width(size) * recording.len()]?;
    let n = fill(&mut scratch)?;
    tray[0..n].copy_from_slice(&scratch[0..n]);
    Ok(n)
}
