//! Blocks as numbers: the codes of a block are the digits of its number, highest first.
ghost use Rattle.std.specs.Prelude.{◌<◌};

use std::alloc::{AllocError, Global};

/// How often each of the codes 0 to 3 stands in a block.
pub(crate) type Counts = [u8; 4];

/// The blocks of one length over the codes below a size.
#[derive(Clone, Copy)]
pub(crate) struct Blocks {
    pub(crate) size: u8,
    pub(crate) length: u8,
    ghost some: { 0 < size },
}

impl Blocks {
    /// How many blocks there are.
    fn total(&self) -> usize {
        usize::from(self.size).saturating_pow(u32::from(self.length))
    }

    /// The block with this number.
    pub(crate) fn block(&self, heap: Global, number: usize) -> Result<Vec<u8>, AllocError> {
        let size = usize::from(self.size);
        let mut block = vec![in heap; 0u8; usize::from(self.length)]?;
        let mut left = number;
        for code in block.iter_mut().rev() {
            // A remainder is below the size, so the cast loses nothing.
            *code = (left % size) as u8;
            left /= size;
        }
        Ok(block)
    }

    /// The counts of all blocks, in the order of their numbers.
    pub(crate) fn counts(&self, heap: Global) -> Result<Vec<Counts>, AllocError> {
        let mut all = Vec::new(heap);
        for number in 0..self.total() {
            let block = self.block(heap, number)?;
            all.push(counts(&block))?;
        }
        Ok(all)
    }
}

/// The counts of a block of at most 255 codes.
fn counts(block: &[u8]) -> Counts {
    [0, 1, 2, 3].map(|code| {
        let found = block.iter().filter(|other| **other == code).count();
        u8::try_from(found).unwrap_or(u8::MAX)
    })
}
