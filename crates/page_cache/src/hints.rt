//! The indexes at which pages were found in a table, as a first guess for the next look.
use crate::seals::slot_of;
use std::alloc::Global;

/// For some of the pages, by their numbers, the index at which the page was found last. It is a guess: the table may have changed.
///
/// Each page has one slot, its number modulo 65,536, which it shares with others. There are as many slots as the last one noted needs, of
/// four bytes each: 256 KiB at most.
#[derive(Drop)]
pub struct Hints {
    indices: Vec<u32>,
}

impl Hints {
    /// Hints without a guess. Takes no memory.
    pub fn new(alloc: Global) -> Hints {
        Hints {
            indices: Vec::new(alloc),
        }
    }

    // The index at which the page may be. Costs a look at one slot.
    #[inline(always)]
    pub(crate) fn index_of(&self, page: u32) -> usize {
        let slot = slot_of(page);
        if slot < self.indices.len() {
            return self.indices[slot] as usize;
        }
        0
    }

    // Notes the index at which the page was found, unless memory runs out.
    pub(crate) fn note(&mut self, page: u32, index: usize) {
        let slot = slot_of(page);
        let Ok(index) = u32::try_from(index) else {
            return;
        };
        if slot < self.indices.len() || self.indices.resize(slot + 1, 0).is_ok() {
            self.indices[slot] = index;
        }
    }
}
