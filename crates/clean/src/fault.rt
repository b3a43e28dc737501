//! Why the program ends without its text.
ghost use Rattle.std.specs.Prelude.{◌≡◌};
ghost use Rattle.clean.specs.declared.fault.CleanFault.TheVariants.{Memory, Entry};

use extractors::fault::Fault;
use noise_file::fault::EntryFault;
use std::alloc::AllocError;
use std::error::Error;
use std::fmt;

/// Why a file is not cleaned to its end.
#[derive(Clone, Copy, Debug)]
pub enum CleanFault {
    /// Memory was wanting.
    Memory,
    /// An entry could not be fed.
    Entry(EntryFault),
}

// The conversions are written by hand, since a derived one would not say what it gives.
impl From<AllocError> for CleanFault {
    ghost from_gives = { λ _ r. r ≡ Memory };

    fn from(_e: AllocError) -> CleanFault {
        CleanFault::Memory
    }
}

impl From<EntryFault> for CleanFault {
    ghost from_gives = { λ e r. r ≡ Entry e };

    fn from(fault: EntryFault) -> CleanFault {
        CleanFault::Entry(fault)
    }
}

impl fmt::Display for CleanFault {
    fn fmt<W: fmt::Write>(&self, f: &mut fmt::Formatter<W>) -> fmt::Result {
        match self {
            CleanFault::Memory => write!(f, "memory was wanting"),
            CleanFault::Entry(refused) => {
                let entry = refused.entry;
                let number = refused.number();
                let place = refused.place();
                write!(f, "entry {entry}: refusal {number} at {place}")
            }
        }
    }
}

impl Error for CleanFault {}
