//! Feeding a well by a tower.
ghost use Rattle.std.specs.Prelude.{length};
ghost use Rattle.towers.specs.EveryPile.{EveryPile};
ghost use Rattle.towers.specs.Towers.{pile_of};
ghost use Rattle.well.specs.Steps.{Call, Step, of_feed};
ghost use Rattle.well.specs.Trays.{Zero};
ghost use Rattle.well.specs.View.{state};

use crate::tower::Tower;
use std::alloc::Global;
use well::fault::WellFault;
use well::store::Well;

// It stays beside the well's own feed for its statement on every pile.
/// Feeds codes to a well by the pile of a tower, and answers the yield and the lean. The tray is all zero on every way out.
pub fn feed(
    tower: Tower,
    heap: Global,
    size: u8,
    codes: &[u8],
    well: &mut Well,
    tray: &mut [u8],
) -> Result<(u32, i32), WellFault>
    ensures step { Step (state well.old) (Call.feed (pile_of tower) size codes.now (length tray.old)) (of_feed result) (state well.new) }
    ensures tray_wiped { Zero tray.new }
    ensures every_pile { EveryPile }
{
    well.feed(heap, &tower, size, codes, tray)
}
