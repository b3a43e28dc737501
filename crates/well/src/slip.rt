//! The slip that a draw hands over with a key, and that a load takes back.
ghost use Rattle.std.specs.Prelude.{◌≡◌};

use crate::fault::WellFault;

/// The receipt of one draw. Only a draw makes a slip; it is neither copied nor let go:
/// a load takes it, and it is not spent twice.
pub struct Slip {
    mark: u32,
    number: u32,
    bits: u32,
}

impl Slip {
    /// Makes the slip of a draw.
    pub(crate) fn cut(mark: u32, number: u32, bits: u32) -> Slip
        ensures { (result.mark ≡ mark) × (result.number ≡ number) × (result.bits ≡ bits) }
    {
        Slip { mark, number, bits }
    }

    /// The mark of the well that dealt the key.
    pub fn mark(&self) -> u32
        ensures { result ≡ self.now.mark }
    {
        self.mark
    }

    /// The number of the draw, from 1.
    pub fn number(&self) -> u32
        ensures { result ≡ self.now.number }
    {
        self.number
    }

    /// The number of bits drawn.
    pub fn bits(&self) -> u32
        ensures { result ≡ self.now.bits }
    {
        self.bits
    }

    /// Ends the slip and answers its bits.
    pub(crate) fn spend(self) -> u32
        ensures { result ≡ self.bits }
    {
        let Slip {
            mark: _,
            number: _,
            bits,
        } = self;
        bits
    }
}

/// A slip that was not taken, handed back, and why.
pub struct Returned {
    pub slip: Slip,
    pub fault: WellFault,
}
