//! Why a call is refused, and what every fault shows: number, layer and place.
ghost use Rattle.std.specs.Prelude.{◌≡◌};
ghost use Rattle.extractors.specs.Faults.{refusal_of};
ghost use Rattle.extractors.specs.declared.fault.Refusal.{Refusal};
ghost use Rattle.extractors.specs.declared.fault.ExtractorFault.TheVariants.{Memory};

use std::alloc::{AllocError, AllocFailed};

/// The part of the product that refuses.
#[derive(Clone, Copy, PartialEq, Eq, Debug)]
pub enum Layer {
    File,
    Extractor,
    Well,
}

/// What every fault shows.
#[derive(Clone, Copy, PartialEq, Eq, Debug)]
pub struct Refusal {
    /// The number under which the refusal is documented; 0 stands for want of memory.
    pub number: u8,
    /// The layer that refuses.
    pub layer: Layer,
    /// The place: a size, a length, an index or the like, as the case of the fault says.
    pub place: usize,
}

/// Why a call is refused, in any layer: each case shows one refusal.
pub trait Fault {
    ghost shows: { Self → Refusal };

    /// The number, the layer and the place of the refusal.
    fn refusal(&self) -> Refusal
        ensures { result ≡ shows self.now };

    /// The number under which the refusal is documented; 0 stands for want of memory.
    fn number(&self) -> u8
        ensures { result ≡ (shows self.now).number }
    {
        self.refusal().number
    }

    /// The layer that refuses.
    fn layer(&self) -> Layer
        ensures { result ≡ (shows self.now).layer }
    {
        self.refusal().layer
    }

    /// The place of the fault: a size, a length, an index or the like, as its case says.
    fn place(&self) -> usize
        ensures { result ≡ (shows self.now).place }
    {
        self.refusal().place
    }
}

/// Why an extractor refuses a call; each case holds its place.
#[derive(Clone, Copy, PartialEq, Eq, Debug)]
pub enum ExtractorFault {
    /// The size is not 2 to 16: the size.
    Size(u8),
    /// The recording has more than 4,096 codes: its length.
    Length(usize),
    /// A code is not below the size: the index of the first such code.
    Code(usize),
    /// The tray is shorter than the width times the length: its length.
    Tray(usize),
    /// A depth or block length is outside its range when made: that number.
    Parameter(usize),
    /// Memory was wanting.
    Memory,
}

impl Fault for ExtractorFault {
    ghost shows = { refusal_of };

    fn refusal(&self) -> Refusal {
        let (number, place) = match *self {
            ExtractorFault::Size(size) => (1, usize::from(size)),
            ExtractorFault::Length(n) => (2, n),
            ExtractorFault::Code(i) => (3, i),
            ExtractorFault::Tray(room) => (4, room),
            ExtractorFault::Parameter(n) => (5, n),
            ExtractorFault::Memory => (0, 0),
        };
        Refusal {
            number,
            layer: Layer::Extractor,
            place,
        }
    }
}

// The conversions are written by hand, since a derived one would not say what it gives.
impl From<AllocError> for ExtractorFault {
    ghost from_gives = { λ _ r. r ≡ Memory };

    fn from(_e: AllocError) -> ExtractorFault {
        ExtractorFault::Memory
    }
}

impl<T: Drop> From<AllocFailed<T>> for ExtractorFault {
    ghost from_gives = { λ _ r. r ≡ Memory };

    fn from(_e: AllocFailed<T>) -> ExtractorFault {
        ExtractorFault::Memory
    }
}
