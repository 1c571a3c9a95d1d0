//! A full node that is parted in two.
ghost use Rattle.std.specs.Prelude.{◌≡◌, ◌≢◌, ◌<◌, ◌++◌, ◌∷◌, [], ℕ, IfOk, OnOk, IsErrOf};
ghost use Rattle.std.specs.Int.{bit_at};
ghost use Rattle.page_face.specs.Calls.{Looks};
ghost use Rattle.btree_nodes.specs.Damages.{AreReadable, AsksOnly};
ghost use Rattle.btree_nodes.specs.Tree.{IsMap, map_uses};
ghost use Rattle.paged_map.specs.Maps.{AreCounted};
ghost use Rattle.rtree_nodes.specs.Slots.{IsFull};
ghost use Rattle.rtree_nodes.specs.Stock.{rows_form};
ghost use Rattle.rtree_nodes.specs.Made.{Rises};
ghost use Rattle.rtree_nodes.specs.Reach.{item_of};
ghost use Rattle.rtree_nodes.specs.Pages.{level_in, slots_in};
ghost use Rattle.split_policy.specs.Masks.{IsMask};
ghost use Rattle.node_rows.specs.Damages.{IsRowsHarm};
ghost use Rattle.node_rows.specs.Rows.{bytes_in};
ghost use Rattle.irtree_insert.specs.Fits.{Fits};
ghost use Rattle.irtree_insert.specs.Drafts.{IsDraft};
ghost use Rattle.irtree_insert.specs.Parts.{IsAsked, IsParted};

use crate::draft::Draft;
use crate::outline::is_set;
use node_inverted::{Tree, like};
use page_face::{Damage, PageFault, Pages};
use rtree_nodes::{SLOTS, Slot};
use spatial_base::Rect;
use split_policy::SplitPolicy;

/// What has become of a full node and one item more.
#[derive(Drop)]
pub(crate) struct Parted {
    /// The node of the items that move, each in the slot of its number.
    pub(crate) other: Draft,
    /// The mask of the slots that move.
    pub(crate) moves: u32,
    /// Whether the new item moves.
    pub(crate) is_moved: bool,
    /// The slot of the new item in its node.
    pub(crate) at: usize,
}

// Asks the policy by the rectangles of 32 slots, that of the new entry after them, and the words that each two share. The arrays have a
// frame of their own, since they are larger than a page.
fn ask_policy(
    policy: &mut dyn SplitPolicy,
    rects: &[Rect; 32],
    add: &Rect,
    like: &[[u32; 33]; 33],
) -> u64
    ensures mask { IsMask result }
    ensures division { splits_by policy.old (rects.now ++ add.now ∷ []) like.now result }
    ensures rise { Rises (count policy.old) (count policy.new) 1 }
{
    let mut entries = [*add; 33];
    entries[..SLOTS].copy_from_slice(rects);
    policy.split(&entries, like)
}

/// Asks the policy which of 33 entries move: those of a full node's 32 slots, and the new one after them. The policy gets the number of
/// words that each two of them share. It goes through the rows of the node once.
///
/// Refuses as `like` does. No page changes.
pub(crate) fn ask<P: Pages>(
    pages: &mut P,
    tree: &Tree,
    policy: &mut dyn SplitPolicy,
    page: u32,
    draft: &Draft,
    add: &Rect,
    words: &[(u64, u8)],
) -> Result<u64, PageFault>
    ensures mask { IfOk result (λ mask. IsMask mask) }
    ensures asked { IsMap rows_form (P.pages pages.old) tree.now.rows
        → IfOk result (λ mask. IsAsked (bytes_in (P.pages pages.old) tree.now.rows) page words.now ((SplitPolicy-dyn policy.old).splits_by policy.old.1 (draft.now.rects ++ add.now ∷ [])) mask) }
    ensures rise { OnOk result (Rises ((SplitPolicy-dyn policy.old).count policy.old.1) ((SplitPolicy-dyn policy.new).count policy.new.1) 1) }

    ensures no_false_damage { IsMap rows_form (P.pages pages.old) tree.now.rows → AreCounted (map_uses rows_form (P.pages pages.old) tree.now.rows) (P.count pages.old)
        → AreReadable (P.pages pages.old) (P.count pages.old) → (damage : Damage) → result ≢ Err (PageFault.Damaged damage) }
    ensures damaged { AreReadable (P.pages pages.old) (P.count pages.old) → (damage : Damage) → IsErrOf result (PageFault.Damaged damage)
        → IsRowsHarm (P.pages pages.new) (P.count pages.new) (P.first pages.new) tree.now.rows (P.asked pages.old) (P.asked pages.new) damage }
    ensures more { AreReadable (P.pages pages.old) (P.count pages.old) → AsksOnly (λ _. 1) (P.asked pages.old) (P.asked pages.new) }
    ensures looks { Looks P.Pages pages.old pages.new result }
{
    let like = like(pages, tree, page, words)?;
    Ok(ask_policy(policy, &draft.rects, add, &like))
}

// The lower 32 bits.
fn low_bits(mask: u64) -> u32
    ensures { (i : ℕ) → i < 32 → bit_at result i ≡ bit_at mask i }
{
    (mask & 0xFFFF_FFFF) as u32
}

/// Parts a full node and one item more by a mask of 33 entries. Makes the node of those that move, each in the slot of its number. Puts the
/// new item into the lowest free slot of the node that it goes to.
pub(crate) fn part(mask: u64, draft: &mut Draft, slot: &Slot) -> Parted
    ensures draft { IsDraft draft.old → Fits (level_in draft.old.bytes) slot.now → IsDraft draft.new }
    ensures its_draft { IsDraft draft.old → Fits (level_in draft.old.bytes) slot.now → IsDraft result.other }
    ensures within { result.at < 32 }
    ensures parts { IsDraft draft.old → Fits (level_in draft.old.bytes) slot.now → IsFull (slots_in draft.old.bytes) → IsMask mask
        → IsParted mask result.moves result.is_moved result.at (slots_in draft.old.bytes) (item_of slot.now) (slots_in draft.new.bytes) (slots_in result.other.bytes) }
    ensures level { level_in draft.new.bytes ≡ level_in draft.old.bytes }
    ensures its_level { level_in result.other.bytes ≡ level_in draft.old.bytes }
{
    let moves = low_bits(mask);
    let mut other = draft.split_off(moves);
    let is_moved = is_set(mask, 32);
    let at = if is_moved {
        other.put_free(slot)
    } else {
        draft.put_free(slot)
    };
    Parted {
        other,
        moves,
        is_moved,
        at,
    }
}
