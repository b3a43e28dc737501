//! What every extractor asks of its input: the width of an alphabet, the room that a tray needs, the refusals in order.
ghost use Rattle.std.specs.Prelude.{◌≡◌, ℕ, ◌-◌, ◌*◌, ◌^◌, ◌≤◌, min, Bool, List, length};
ghost use Rattle.classes.specs.Evenness.{Even};
ghost use Rattle.classes.specs.Recordings.{LeastWidth, Recording, Sized, width as width_of};
ghost use Rattle.extractors.specs.Calls.{Judged, due};

use crate::fault::ExtractorFault;

/// The smallest alphabet.
pub const LEAST_SIZE: u8 = 2;
/// The largest alphabet.
pub const GREATEST_SIZE: u8 = 16;
/// The longest recording.
pub const MOST_CODES: usize = 4096;

/// The number of bits that write any code of a size: the least `w` for which 2 to the power `w` is at least the size.
pub fn width(size: u8) -> usize
    ensures value { result ≡ width_of size }
    ensures least { Sized size → LeastWidth size result }
    ensures most { result ≤ 4 }
{
    match size {
        0..=2 => 1,
        3..=4 => 2,
        5..=8 => 3,
        _ => 4,
    }
}

/// The tray that `n` codes of a size need: no extractor that keeps the even law gives more bits of them.
pub fn room(size: u8, n: usize) -> usize
    ensures bytes { result ≡ min (width_of size * n) (2 ^ 64 - 1) }
    ensures suffices { Sized size → (f : List ℕ → List Bool) → Even size f → (x : List ℕ) → Recording size x → length x ≡ n → length (f x) ≤ result }
{
    width(size).saturating_mul(n)
}

/// The refusal that a size, a recording and a tray of `room` bytes call for, if any.
pub fn judge(size: u8, recording: &[u8], room: usize) -> Result<(), ExtractorFault>
    ensures { Judged (due size recording.now room) result }
{
    if !(LEAST_SIZE..=GREATEST_SIZE).contains(&size) {
        return Err(ExtractorFault::Size(size));
    }
    let n = recording.len();
    if n > MOST_CODES {
        return Err(ExtractorFault::Length(n));
    }
    if let Some(first) = recording.iter().position(|code| *code >= size) {
        return Err(ExtractorFault::Code(first));
    }
    if room < width(size) * n {
        return Err(ExtractorFault::Tray(room));
    }
    Ok(())
}
