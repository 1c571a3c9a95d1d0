//! An item that is added to a node, with its words.
ghost use Rattle.std.specs.Prelude.{◌≡◌, ◌≢◌, ◌+◌, ◌<◌, ℕ, List, Some, option_map, if◌then◌else◌, IfOk, OnOk, IsErrOf};
ghost use Rattle.page_face.specs.Calls.{FailsChanging, Changes};
ghost use Rattle.page_face.specs.Causes.{IsUncounted};
ghost use Rattle.btree_nodes.specs.Damages.{AreReadable, AsksOnly};
ghost use Rattle.btree_nodes.specs.Supply.{one_at};
ghost use Rattle.rtree_nodes.specs.Slots.{IsFull};
ghost use Rattle.rtree_nodes.specs.Stock.{view, spare_in};
ghost use Rattle.rtree_nodes.specs.Made.{Rises};
ghost use Rattle.rtree_nodes.specs.Reach.{reach_of, item_of};
ghost use Rattle.rtree_nodes.specs.Pages.{node_of, slots_in};
ghost use Rattle.node_rows.specs.Damages.{IsRowsHarm};
ghost use Rattle.node_rows.specs.Rows.{bytes_in};
ghost use Rattle.node_rows.specs.Turns.{HasNone, moved};
ghost use Rattle.node_rows.specs.Impacts.{impact_in, raised};
ghost use Rattle.irtree_shape.specs.Words.{joined, worded, words_on};
ghost use Rattle.irtree_shape.specs.Stock.{IsSupplied};
ghost use Rattle.irtree_shape.specs.Made.{nodes_in, IsReady, Makes};
ghost use Rattle.irtree_shape.specs.Steps.{Steps, bounding_child_in};
ghost use Rattle.irtree_insert.specs.Fits.{Fits};
ghost use Rattle.irtree_insert.specs.Drafts.{IsDraft};
ghost use Rattle.irtree_insert.specs.Grown.{beside_item};

use crate::draft::Draft;
use crate::grown::{Beside, Grown};
use crate::part::{ask, part};
use crate::store::{store, store_two};
use node_inverted::{Tree, move_slots, raise};
use page_face::{Damage, PageFault, Pages};
use rtree_nodes::{Slot, free_slot};
use split_policy::SplitPolicy;
use std::alloc::Global;

// Moves the words of some slots of a node to one without rows, and raises a slot of one of the two by an entry's words.
fn part_words<P: Pages>(
    alloc: Global,
    pages: &mut P,
    tree: &mut Tree,
    page: u32,
    right: u32,
    moves: u32,
    is_moved: bool,
    at: usize,
    words: &[(u64, u8)],
) -> Result<(), PageFault>
    requires { at < 32 }
    ensures steps { (free : List ℕ) → IsSupplied (view (P.pages pages.old) tree.old.rows (P.count pages.old) (P.first pages.old) free)
        → spare_in (view (P.pages pages.old) tree.old.rows (P.count pages.old) (P.first pages.old) free) page ≡ 0 → spare_in (view (P.pages pages.old) tree.old.rows (P.count pages.old) (P.first pages.old) free) right ≡ 0
        → (page ≡ right → ⊥) → HasNone (bytes_in (P.pages pages.old) tree.old.rows) right
        → OnOk result (Steps (view (P.pages pages.old) tree.old.rows (P.count pages.old) (P.first pages.old) free) (P.pages pages.new) tree.new.rows (P.count pages.new) (P.first pages.new) (λ n. one_at page n + one_at right n) (λ n. one_at page n + one_at right n)
        (raised (if is_moved then right else page) at (impact_in words.now) (moved page moves right (bytes_in (P.pages pages.old) tree.old.rows))) (P.pages pages.old)) }
    ensures root { tree.new.root ≡ tree.old.root }

    ensures no_false_damage { (free : List ℕ) → IsSupplied (view (P.pages pages.old) tree.old.rows (P.count pages.old) (P.first pages.old) free)
        → spare_in (view (P.pages pages.old) tree.old.rows (P.count pages.old) (P.first pages.old) free) page ≡ 0 → spare_in (view (P.pages pages.old) tree.old.rows (P.count pages.old) (P.first pages.old) free) right ≡ 0
        → (page ≡ right → ⊥) → HasNone (bytes_in (P.pages pages.old) tree.old.rows) right → AreReadable (P.pages pages.old) (P.count pages.old)
        → (damage : Damage) → result ≢ Err (PageFault.Damaged damage) }
    ensures damaged { AreReadable (P.pages pages.old) (P.count pages.old) → (damage : Damage) → IsErrOf result (PageFault.Damaged damage)
        → IsRowsHarm (P.pages pages.new) (P.count pages.new) (P.first pages.new) tree.new.rows (P.asked pages.old) (P.asked pages.new) damage }
    ensures told { AreReadable (P.pages pages.old) (P.count pages.old) → OnOk result (AreReadable (P.pages pages.new) (P.count pages.new)) }
    ensures more { AreReadable (P.pages pages.old) (P.count pages.old) → AsksOnly (λ _. 1) (P.asked pages.old) (P.asked pages.new) }
    ensures fails { FailsChanging P.Pages pages.old pages.new result }
    ensures frame { Changes P.Pages pages.old pages.new }
{
    move_slots(alloc, pages, tree, page, moves, right)?;
    let home = if is_moved { right } else { page };
    raise(pages, tree, home, at, words)
}

// Splits a full node and one item more, and writes both nodes and their words.
fn split<P: Pages>(
    alloc: Global,
    pages: &mut P,
    tree: &mut Tree,
    policy: &mut dyn SplitPolicy,
    page: u32,
    draft: &mut Draft,
    slot: &Slot,
    words: &[(u64, u8)],
) -> Result<Grown, PageFault>
    requires counted { IsUncounted (P.count pages.old) page → ⊥ }
    ensures made { (least level : ℕ) (free : List ℕ) → IsReady node_of (view (P.pages pages.old) tree.old.rows (P.count pages.old) (P.first pages.old) free) least level page (joined (node_of draft.old.bytes) (bytes_in (P.pages pages.old) tree.old.rows page)) (Some (worded (impact_in words.now) (item_of slot.now)))
        → IsDraft draft.old → Fits level slot.now → IsFull (slots_in draft.old.bytes)
        → IfOk result (λ g. Makes node_of (view (P.pages pages.old) tree.old.rows (P.count pages.old) (P.first pages.old) free) (P.pages pages.new) tree.new.rows (P.count pages.new) (P.first pages.new) least level page
        (words_on (bytes_in (P.pages pages.old) tree.old.rows page) (slots_in draft.old.bytes)) (Some (worded (impact_in words.now) (item_of slot.now))) (bounding_child_in (nodes_in node_of (P.pages pages.new) tree.new.rows) (option_map beside_item g.more)) (reach_of g.rect) (Rises ((SplitPolicy-dyn policy.old).count policy.old.1) ((SplitPolicy-dyn policy.new).count policy.new.1))) }
    ensures root { tree.new.root ≡ tree.old.root }

    ensures no_false_damage { (least level : ℕ) (free : List ℕ) → IsReady node_of (view (P.pages pages.old) tree.old.rows (P.count pages.old) (P.first pages.old) free) least level page (joined (node_of draft.old.bytes) (bytes_in (P.pages pages.old) tree.old.rows page)) (Some (worded (impact_in words.now) (item_of slot.now)))
        → IsDraft draft.old → Fits level slot.now → IsFull (slots_in draft.old.bytes) → AreReadable (P.pages pages.old) (P.count pages.old)
        → (damage : Damage) → result ≢ Err (PageFault.Damaged damage) }
    ensures damaged { AreReadable (P.pages pages.old) (P.count pages.old) → (damage : Damage) → IsErrOf result (PageFault.Damaged damage)
        → IsRowsHarm (P.pages pages.new) (P.count pages.new) (P.first pages.new) tree.new.rows (P.asked pages.old) (P.asked pages.new) damage }
    ensures told { AreReadable (P.pages pages.old) (P.count pages.old) → OnOk result (AreReadable (P.pages pages.new) (P.count pages.new)) }
    ensures more { AreReadable (P.pages pages.old) (P.count pages.old) → AsksOnly (λ _. 1) (P.asked pages.old) (P.asked pages.new) }
    ensures fails { FailsChanging P.Pages pages.old pages.new result }
    ensures frame { Changes P.Pages pages.old pages.new }
{
    let mask = ask(pages, tree, policy, page, draft, &slot.rect(), words)?;
    let parted = part(mask, draft, slot);
    let right = store_two(pages, page, &draft.bytes, &parted.other.bytes)?;
    part_words(
        alloc,
        pages,
        tree,
        page,
        right,
        parted.moves,
        parted.is_moved,
        parted.at,
        words,
    )?;
    Ok(Grown {
        rect: draft.bounds(),
        more: Some(Beside {
            rect: parted.other.bounds(),
            page: right,
        }),
    })
}

/// Adds an item with its words to a node at a counted page, or splits the node if it is full. The item goes into the lowest free slot, and
/// the node and the words' rows are written.
///
/// It writes one page and the rows of the words. A split goes twice through the node's rows, leaf by leaf, takes one page and writes two,
/// and moves the rows of the entries that move, leaf by leaf.
///
/// Refuses as `take`, `raise`, `like` and `move_slots` do. No page is damaged if the node may be written and the pages are readable. After
/// a failure pages may have changed: they are to be abandoned.
pub(crate) fn add<P: Pages>(
    alloc: Global,
    pages: &mut P,
    tree: &mut Tree,
    policy: &mut dyn SplitPolicy,
    page: u32,
    draft: &mut Draft,
    slot: &Slot,
    words: &[(u64, u8)],
) -> Result<Grown, PageFault>
    requires counted { IsUncounted (P.count pages.old) page → ⊥ }
    ensures made { (least level : ℕ) (free : List ℕ) → IsReady node_of (view (P.pages pages.old) tree.old.rows (P.count pages.old) (P.first pages.old) free) least level page (joined (node_of draft.old.bytes) (bytes_in (P.pages pages.old) tree.old.rows page)) (Some (worded (impact_in words.now) (item_of slot.now)))
        → IsDraft draft.old → Fits level slot.now
        → IfOk result (λ g. Makes node_of (view (P.pages pages.old) tree.old.rows (P.count pages.old) (P.first pages.old) free) (P.pages pages.new) tree.new.rows (P.count pages.new) (P.first pages.new) least level page
        (words_on (bytes_in (P.pages pages.old) tree.old.rows page) (slots_in draft.old.bytes)) (Some (worded (impact_in words.now) (item_of slot.now))) (bounding_child_in (nodes_in node_of (P.pages pages.new) tree.new.rows) (option_map beside_item g.more)) (reach_of g.rect) (Rises ((SplitPolicy-dyn policy.old).count policy.old.1) ((SplitPolicy-dyn policy.new).count policy.new.1))) }
    ensures root { tree.new.root ≡ tree.old.root }

    ensures no_false_damage { (least level : ℕ) (free : List ℕ) → IsReady node_of (view (P.pages pages.old) tree.old.rows (P.count pages.old) (P.first pages.old) free) least level page (joined (node_of draft.old.bytes) (bytes_in (P.pages pages.old) tree.old.rows page)) (Some (worded (impact_in words.now) (item_of slot.now)))
        → IsDraft draft.old → Fits level slot.now → AreReadable (P.pages pages.old) (P.count pages.old)
        → (damage : Damage) → result ≢ Err (PageFault.Damaged damage) }
    ensures damaged { AreReadable (P.pages pages.old) (P.count pages.old) → (damage : Damage) → IsErrOf result (PageFault.Damaged damage)
        → IsRowsHarm (P.pages pages.new) (P.count pages.new) (P.first pages.new) tree.new.rows (P.asked pages.old) (P.asked pages.new) damage }
    ensures told { AreReadable (P.pages pages.old) (P.count pages.old) → OnOk result (AreReadable (P.pages pages.new) (P.count pages.new)) }
    ensures more { AreReadable (P.pages pages.old) (P.count pages.old) → AsksOnly (λ _. 1) (P.asked pages.old) (P.asked pages.new) }
    ensures fails { FailsChanging P.Pages pages.old pages.new result }
    ensures frame { Changes P.Pages pages.old pages.new }
{
    match free_slot(&draft.bytes) {
        Some(at) => {
            draft.put(at, slot);
            raise(pages, tree, page, at, words)?;
            store(pages, page, &draft.bytes)?;
            Ok(Grown {
                rect: draft.bounds(),
                more: None,
            })
        }
        None => split(alloc, pages, tree, policy, page, draft, slot, words),
    }
}
