//! The guard that wipes a tray on every way out.
ghost use Rattle.well.specs.Trays.{Zero};

/// Holds a tray while its bits move to the well; its end zeroes every byte.
pub struct Wipe<'a> {
    pub tray: &'a mut [u8],
}

impl Drop for Wipe<'_> {
    fn drop(self)
        ensures { Zero self.exit.0.now }
    {
        let Wipe { tray } = self;
        tray.fill(0);
    }
}
