//! Why a file or an entry number is refused, and what each fault shows.
ghost use Rattle.std.specs.Prelude.{◌≡◌};
ghost use Rattle.noise_file.specs.Faults.{refusal_of};
ghost use Rattle.noise_file.specs.Feeds.{refusal_of as feed_refusal};
ghost use Rattle.noise_file.specs.declared.fault.FeedFault.TheVariants.{File, Well};
ghost use Rattle.noise_file.specs.declared.fault.FileFault.TheVariants.{Memory};

use extractors::fault::{Fault, Layer, Refusal};
use std::alloc::{AllocError, AllocFailed};
use well::fault::WellFault;

/// Why a file is refused; each case holds its place, where that is not fixed.
#[derive(Clone, Copy, PartialEq, Eq, Debug)]
pub enum FileFault {
    /// The file ends inside the contents: its length.
    Cut(usize),
    /// The number of entries is 0 or over 15: byte 0.
    Entries,
    /// The key length is 0 or over 32: byte 1.
    KeyLength,
    /// The kind letter is unknown: its byte offset.
    Kind(usize),
    /// The tower letter is unknown: its byte offset.
    Tower(usize),
    /// The length is over 4,096: the offset of its high byte.
    Length(usize),
    /// The bodies end elsewhere than the file: the smaller of the two ends.
    End(usize),
    /// A letter is not of its kind: its byte offset, or its index where letters alone are read.
    Letter(usize),
    /// There is no entry of that number: the number.
    Number(usize),
    /// Memory was wanting.
    Memory,
}

impl Fault for FileFault {
    ghost shows = { refusal_of };

    fn refusal(&self) -> Refusal {
        let (number, place) = match *self {
            FileFault::Cut(n) => (7, n),
            FileFault::Entries => (8, 0),
            FileFault::KeyLength => (9, 1),
            FileFault::Kind(at) => (10, at),
            FileFault::Tower(at) => (11, at),
            FileFault::Length(at) => (12, at),
            FileFault::End(at) => (13, at),
            FileFault::Letter(at) => (14, at),
            FileFault::Number(n) => (15, n),
            FileFault::Memory => (0, 0),
        };
        Refusal {
            number,
            layer: Layer::File,
            place,
        }
    }
}

// The conversions are written by hand, since a derived one would not say what it gives.
impl From<AllocError> for FileFault {
    ghost from_gives = { λ _ r. r ≡ Memory };

    fn from(_e: AllocError) -> FileFault {
        FileFault::Memory
    }
}

impl<T: Drop> From<AllocFailed<T>> for FileFault {
    ghost from_gives = { λ _ r. r ≡ Memory };

    fn from(_e: AllocFailed<T>) -> FileFault {
        FileFault::Memory
    }
}

/// Why feeding an entry is refused: by the file, or by the well and what is below it.
#[derive(Clone, Copy, PartialEq, Eq, Debug)]
pub enum FeedFault {
    /// The file refuses.
    File(FileFault),
    /// The well refuses, or the extractor that feeds it.
    Well(WellFault),
}

impl Fault for FeedFault {
    ghost shows = { feed_refusal };

    fn refusal(&self) -> Refusal {
        match self {
            FeedFault::File(fault) => fault.refusal(),
            FeedFault::Well(fault) => fault.refusal(),
        }
    }
}

/// A refused entry feed: the fault, passed up whole, and the number of the entry.
#[derive(Clone, Copy, PartialEq, Eq, Debug)]
pub struct EntryFault {
    pub entry: usize,
    pub fault: FeedFault,
}

impl Fault for EntryFault {
    ghost shows = { λ e. feed_refusal e.fault };

    fn refusal(&self) -> Refusal {
        self.fault.refusal()
    }
}

impl From<FileFault> for FeedFault {
    ghost from_gives = { λ e r. r ≡ File e };

    fn from(fault: FileFault) -> FeedFault {
        FeedFault::File(fault)
    }
}

impl From<WellFault> for FeedFault {
    ghost from_gives = { λ e r. r ≡ Well e };

    fn from(fault: WellFault) -> FeedFault {
        FeedFault::Well(fault)
    }
}
