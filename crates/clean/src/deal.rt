//! Keys dealt from a well, each with its slip loaded.
ghost use Rattle.std.specs.Prelude.{◌≤◌, length, string_bytes, OnOk};
ghost use Rattle.well.specs.View.{state};
ghost use Rattle.clean.specs.Keys.{DealtOnto, NextKey};

use crate::text::KeyLine;
use std::alloc::AllocError;
use std::fmt::Write;
use well::fault::WellFault;
use well::store::Well;

/// Draws one key and loads its slip, if enough bits are held for it.
fn next_key(well: &mut Well, key: &mut [u8]) -> Result<(), WellFault>
    ensures { NextKey (state well.old) key.old result key.new (state well.new) }
{
    let slip = well.draw(key)?;
    well.load(slip).unwrap();
    Ok(())
}

/// Deals keys while enough bits are held, and adds the line of each to the text.
pub(crate) fn deal_keys(
    well: &mut Well,
    key: &mut [u8],
    text: &mut String,
) -> Result<(), AllocError>
    requires some { 1 ≤ length key.old }
    requires few { length key.old ≤ 32 }
    ensures { OnOk result (DealtOnto (length key.old) (state well.old) (string_bytes text.old) (string_bytes text.new) (state well.new)) }
{
    while next_key(well, key).is_ok() {
        let line = KeyLine(key);
        write!(text, "{line}")?;
    }
    Ok(())
}
