//! A check of the rankings: the bits of every short block, held against those that counting its class gives.
#![tactic(auto)]

mod block;
mod compare;
mod count;

use crate::compare::compare_size;
use std::alloc::{AllocError, Global};

/// The lines of both sizes.
fn compare_all(heap: Global) -> Result<String, AllocError> {
    let mut text = String::new(heap);
    compare_size(heap, 2, &mut text)?;
    compare_size(heap, 3, &mut text)?;
    Ok(text)
}

fn main(rt: HostRuntime) -> anyhow::Result<()> {
    let text = compare_all(rt.alloc())?;
    rt.print(text)?;
    Ok(())
}
