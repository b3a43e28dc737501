//! Feeding an entry of a file to a well.
ghost use Rattle.std.specs.Prelude.{length};
ghost use Rattle.well.specs.Trays.{Zero};
ghost use Rattle.well.specs.View.{state};
ghost use Rattle.noise_file.specs.Feeds.{EntryFed, NumberFed};

use super::NoiseFile;
use crate::fault::{EntryFault, FeedFault};
use std::alloc::Global;
use well::store::Well;
use well::tray::Wipe;

impl NoiseFile {
    /// Feeds the entry of a number, which counts from 1, to a well, and answers the yield and the lean. To a fault from
    /// below it adds the entry number and nothing else. The tray is all zero on every way out.
    pub fn feed(
        &self,
        number: usize,
        heap: Global,
        well: &mut Well,
        tray: &mut [u8],
    ) -> Result<(u32, i32), EntryFault>
        ensures fed { EntryFed self.now.bytes.items number (length tray.old) (state well.old) result (state well.new) }
        ensures tray_wiped { Zero tray.new }
    {
        let guard = Wipe { tray };
        self.feed_numbered(number, heap, well, guard.tray)
            .map_err(|fault| EntryFault {
                entry: number,
                fault,
            })
    }

    /// Feeds the entry of a number, with a fault that does not name it yet.
    fn feed_numbered(
        &self,
        number: usize,
        heap: Global,
        well: &mut Well,
        tray: &mut [u8],
    ) -> Result<(u32, i32), FeedFault>
        ensures { NumberFed self.now.bytes.items number (length tray.old) (state well.old) result (state well.new) }
    {
        let entry = self.entry(number)?;
        let codes = entry.codes(heap)?;
        Ok(towers::feed::feed(entry.body().tower, heap, entry.size(), &codes, well, tray)?)
    }
}
