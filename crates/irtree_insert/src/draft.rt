//! A node that is being changed.
ghost use Rattle.std.specs.Prelude.{◌≡◌, ◌⊎◌, ◌<◌, ℕ, true, OnOk, IfOk, IfErr, IsOk};
ghost use Rattle.rtree_nodes.specs.Slots.{filled, tops};
ghost use Rattle.rtree_nodes.specs.Trees.{with_slot};
ghost use Rattle.rtree_nodes.specs.Masks.{kept_of, moved_of};
ghost use Rattle.rtree_nodes.specs.Reach.{item_of, reach_of};
ghost use Rattle.rtree_nodes.specs.Pages.{level_in, mask_of, is_form, slots_in};
ghost use Rattle.rtree_nodes.specs.Breaks.{BreaksHeader, BreaksNode};
ghost use Rattle.irtree_insert.specs.Fits.{Fits};
ghost use Rattle.irtree_insert.specs.Drafts.{IsDraft};
ghost use Rattle.irtree_insert.specs.Parts.{IsPutAt};

use crate::outline::{origin, outline};
use page_face::{Page, Rule};
use rtree_nodes::{Slot, free_slot, header, put_slot, rects, split_off};
use spatial_base::Rect;

/// A node that is being changed: its page's bytes, the mask of its used slots, and the rectangle of each of these.
///
/// The rectangles are read from the bytes once, on the way down, so that nothing on the way up can find the bytes damaged.
#[derive(Drop)]
pub(crate) struct Draft {
    pub(crate) bytes: Page,
    pub(crate) used: u32,
    pub(crate) rects: [Rect; 32],
}

impl Draft {
    /// Makes a draft of no node, to be loaded into.
    pub(crate) fn blank() -> Draft {
        Draft {
            bytes: [0; 4096],
            used: 0,
            rects: [origin(); 32],
        }
    }

    /// Loads a page, and returns its level.
    ///
    /// Refuses `Kind` or `Fill` as `header` does, and then `Value` as `rects` does.
    pub(crate) fn load(&mut self, page: &Page) -> Result<u8, Rule>
        ensures bytes { OnOk result (self.new.bytes ≡ page.now) }
        ensures draft { OnOk result (is_form page.now ≡ true → IsDraft self.new) }
        ensures used { OnOk result (self.new.used ≡ mask_of page.now) }
        ensures some { OnOk result (0 < self.new.used) }
        ensures level { IfOk result (λ level. level ≡ level_in page.now) }
        ensures ok { 0 < filled (slots_in page.now) → IsOk result }
        ensures refuses { IfErr result (λ rule. BreaksHeader rule page.now ⊎ ((rule ≡ Rule.Value) × BreaksNode Rule.Value page.now)) }
    {
        self.bytes = *page;
        let head = header(page)?;
        self.used = head.used;
        self.rects = rects(page)?;
        Ok(head.level)
    }

    /// Puts an item into a slot, in place of what was there.
    pub(crate) fn put(&mut self, at: usize, slot: &Slot)
        requires { at < 32 }
        ensures draft { IsDraft self.old → Fits (level_in self.old.bytes) slot.now → IsDraft self.new }
        ensures slots { IsDraft self.old → Fits (level_in self.old.bytes) slot.now → slots_in self.new.bytes ≡ with_slot at (item_of slot.now) (slots_in self.old.bytes) }
        ensures level { level_in self.new.bytes ≡ level_in self.old.bytes }
    {
        put_slot(&mut self.bytes, at, slot);
        self.used |= 1 << at;
        self.rects[at] = slot.rect();
    }

    /// Puts an item into the lowest free slot, and returns its number. A full node stays as it is, and 0 is returned.
    pub(crate) fn put_free(&mut self, slot: &Slot) -> usize
        ensures draft { IsDraft self.old → Fits (level_in self.old.bytes) slot.now → IsDraft self.new }
        ensures put { IsDraft self.old → Fits (level_in self.old.bytes) slot.now → filled (slots_in self.old.bytes) < 32 → IsPutAt (slots_in self.old.bytes) (item_of slot.now) result (slots_in self.new.bytes) }
        ensures within { result < 32 }
        ensures level { level_in self.new.bytes ≡ level_in self.old.bytes }
    {
        match free_slot(&self.bytes) {
            Some(at) => {
                self.put(at, slot);
                at
            }
            None => 0,
        }
    }

    /// Moves the items of the slots that a mask names to a node of its own, each to the slot of its number.
    pub(crate) fn split_off(&mut self, moves: u32) -> Draft
        ensures draft { IsDraft self.old → IsDraft self.new }
        ensures its_draft { IsDraft self.old → IsDraft result }
        ensures kept { IsDraft self.old → slots_in self.new.bytes ≡ kept_of moves (slots_in self.old.bytes) }
        ensures moved { IsDraft self.old → slots_in result.bytes ≡ moved_of moves (slots_in self.old.bytes) }
        ensures level { level_in self.new.bytes ≡ level_in self.old.bytes }
        ensures its_level { level_in result.bytes ≡ level_in self.old.bytes }
    {
        let bytes = split_off(&mut self.bytes, moves);
        let other = Draft {
            bytes,
            used: self.used & moves,
            rects: self.rects,
        };
        self.used &= !moves;
        other
    }

    /// Returns the least rectangle round its items.
    pub(crate) fn bounds(&self) -> Rect
        ensures { IsDraft self.now → 0 < filled (slots_in self.now.bytes) → (d : ℕ) → reach_of result d ≡ tops d (slots_in self.now.bytes) }
    {
        outline(self.used, &self.rects)
    }
}
