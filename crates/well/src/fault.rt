//! Why the well refuses a call, and what each fault shows.
ghost use Rattle.std.specs.Prelude.{◌≡◌};
ghost use Rattle.well.specs.Faults.{refusal_of};
ghost use Rattle.well.specs.declared.fault.WellFault.TheVariants.{Extractor};

use extractors::fault::{ExtractorFault, Fault, Layer, Refusal};

/// Why a call on a well is refused; each case holds its place.
#[derive(Clone, Copy, PartialEq, Eq, Debug)]
pub enum WellFault {
    /// The extractor of a feed refuses: its fault, passed up whole.
    Extractor(ExtractorFault),
    /// The key buffer has 0 or over 32 bytes: its length.
    KeyLength(usize),
    /// The bits poured would pass 16,777,216: the yield.
    Poured(usize),
    /// The bits held would pass 16,640: the yield.
    Full(usize),
    /// Fewer bits are held than the key needs: the bits held.
    Short(usize),
    /// The slip's mark is not the well's: the slip's mark.
    Mark(u32),
    /// The slip has more bits than are out: the slip's bits.
    Excess(u32),
}

impl Fault for WellFault {
    ghost shows = { refusal_of };

    fn refusal(&self) -> Refusal {
        let (number, place) = match *self {
            WellFault::Extractor(fault) => return fault.refusal(),
            WellFault::KeyLength(bytes) => (6, bytes),
            WellFault::Poured(gain) => (20, gain),
            WellFault::Full(gain) => (21, gain),
            WellFault::Short(held) => (22, held),
            // `usize` has no `From<u32>`; a `usize` has 64 bits, so the casts lose nothing.
            WellFault::Mark(mark) => (23, mark as usize),
            WellFault::Excess(bits) => (24, bits as usize),
        };
        Refusal {
            number,
            layer: Layer::Well,
            place,
        }
    }
}

// The conversion is written by hand, since a derived one would not say what it gives.
impl From<ExtractorFault> for WellFault {
    ghost from_gives = { λ e r. r ≡ Extractor e };

    fn from(below: ExtractorFault) -> WellFault {
        WellFault::Extractor(below)
    }
}
