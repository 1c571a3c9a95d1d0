//! An item that is put in below a page, with its words.
ghost use Rattle.std.specs.Prelude.{◌≡◌, ◌≢◌, ◌<◌, ℕ, suc, max, List, Option, Some, None, option_map, IfOk, OnOk, IsErrOf};
ghost use Rattle.page_face.specs.Calls.{FailsReading, FailsWriting, FailsChanging, Reads, Writes, Changes};
ghost use Rattle.page_face.specs.Causes.{IsUncounted};
ghost use Rattle.btree_nodes.specs.Damages.{AreReadable, AskedSince, AsksOnly};
ghost use Rattle.btree_nodes.specs.Supply.{one_at};
ghost use Rattle.btree_nodes.specs.Tree.{IsMap, map_uses};
ghost use Rattle.paged_map.specs.Maps.{AreCounted};
ghost use Rattle.rtree_nodes.specs.Slots.{IsChildAt};
ghost use Rattle.rtree_nodes.specs.Trees.{with_slot};
ghost use Rattle.rtree_nodes.specs.Stock.{view, spare_in, rows_form};
ghost use Rattle.rtree_nodes.specs.Made.{Rises};
ghost use Rattle.rtree_nodes.specs.Reach.{reach_of, item_of, child_item};
ghost use Rattle.rtree_nodes.specs.Pages.{node_of, slots_in, level_in, mask_of};
ghost use Rattle.split_policy.specs.Masks.{IsUsed};
ghost use Rattle.node_rows.specs.Damages.{IsRowsHarm};
ghost use Rattle.node_rows.specs.Rows.{Bytes, bytes_in};
ghost use Rattle.node_rows.specs.Impacts.{impact_in, top_at};
ghost use Rattle.node_rows.specs.Known.{AreRowsAt};
ghost use Rattle.irtree_shape.specs.Words.{joined, worded, words_on};
ghost use Rattle.irtree_shape.specs.Stock.{IsSupplied};
ghost use Rattle.irtree_shape.specs.Made.{nodes_in, IsReady, IsOpen, Makes, Puts};
ghost use Rattle.irtree_shape.specs.Steps.{Steps, bounding_child, bounding_child_in, relinked};
ghost use Rattle.irtree_shape.specs.Damages.{IsTreeHarm};
ghost use Rattle.irtree_insert.specs.Fits.{Fits};
ghost use Rattle.irtree_insert.specs.Drafts.{IsDraft};
ghost use Rattle.irtree_insert.specs.Grown.{beside_item, beside_top};
ghost use Rattle.irtree_insert.specs.Ways.{IsChosen};

use crate::add::add;
use crate::draft::Draft;
use crate::fetch::fetch_at;
use crate::grown::{Beside, Grown};
use crate::store::store;
use node_inverted::{Tree, raise, renew, rising, rows_at, shared_by, words_of};
use page_face::{Damage, PageFault, Pages};
use rtree_nodes::{Slot, child_at};
use spatial_base::Rect;
use split_policy::SplitPolicy;
use std::alloc::Global;

// Asks the policy which slot to go down through. It gets the number of the entry's words that are below each slot, by the node's row for
// each of the words.
fn choose(policy: &mut dyn SplitPolicy, draft: &Draft, add: &Rect, known: &[[u8; 32]]) -> usize
    requires { 0 < draft.now.used }
    ensures used { IsUsed draft.now.used result }
    ensures chosen { (b : Bytes) (page : ℕ) (words : List (ℕ × ℕ)) → AreRowsAt b page words known.now
        → IsChosen b page words ((SplitPolicy-dyn policy.old).chooses policy.old.1 draft.now.used draft.now.rects add.now) result }
    ensures count { (SplitPolicy-dyn policy.new).count policy.new.1 ≡ (SplitPolicy-dyn policy.old).count policy.old.1 }
{
    let counts = shared_by(known);
    usize::from(policy.choose(draft.used, &draft.rects, add, &counts))
}

// Returns the words of a node that was made, each with its greatest impact, or no word if none was made.
fn words_beside<P: Pages>(
    alloc: Global,
    pages: &mut P,
    tree: &Tree,
    more: &Option<Beside>,
) -> Result<Vec<(u64, u8)>, PageFault>
    ensures words { IsMap rows_form (P.pages pages.old) tree.now.rows
        → IfOk result (λ words. (w : ℕ) → impact_in words.items w ≡ beside_top (bytes_in (P.pages pages.old) tree.now.rows) more.now w) }

    ensures no_false_damage { IsMap rows_form (P.pages pages.old) tree.now.rows → AreCounted (map_uses rows_form (P.pages pages.old) tree.now.rows) (P.count pages.old)
        → AreReadable (P.pages pages.old) (P.count pages.old) → (damage : Damage) → result ≢ Err (PageFault.Damaged damage) }
    ensures damaged { AreReadable (P.pages pages.old) (P.count pages.old) → (damage : Damage) → IsErrOf result (PageFault.Damaged damage)
        → IsRowsHarm (P.pages pages.new) (P.count pages.new) (P.first pages.new) tree.now.rows (P.asked pages.old) (P.asked pages.new) damage }
    ensures more { AreReadable (P.pages pages.old) (P.count pages.old) → AsksOnly (λ _. 1) (P.asked pages.old) (P.asked pages.new) }
    ensures fails { FailsReading P.Pages pages.old pages.new result }
    ensures frame { Reads P.Pages pages.old pages.new }
{
    match more {
        None => Ok(Vec::new(alloc)),
        Some(beside) => words_of(alloc, pages, tree, beside.page),
    }
}

// Makes the words of a slot right again after an item with these words was put in below its child. Returns the words of the node
// that was made beside the child, if one was. The slot is raised by the item's words, for each of which the node's row is known. Only
// words of the new node may have left the child: of these the slot is set to what the child still has.
fn relink<P: Pages>(
    alloc: Global,
    pages: &mut P,
    tree: &mut Tree,
    page: u32,
    at: usize,
    child: u32,
    words: &[(u64, u8)],
    known: &[[u8; 32]],
    more: &Option<Beside>,
) -> Result<Vec<(u64, u8)>, PageFault>
    requires { at < 32 }
    ensures steps { (free : List ℕ) → IsSupplied (view (P.pages pages.old) tree.old.rows (P.count pages.old) (P.first pages.old) free) → spare_in (view (P.pages pages.old) tree.old.rows (P.count pages.old) (P.first pages.old) free) page ≡ 0 → (page ≡ child → ⊥)
        → AreRowsAt (bytes_in (P.pages pages.old) tree.old.rows) page words.now known.now
        → ((w : ℕ) → beside_top (bytes_in (P.pages pages.old) tree.old.rows) more.now w ≡ 0 → max (bytes_in (P.pages pages.old) tree.old.rows page w at) (impact_in words.now w) ≡ top_at (bytes_in (P.pages pages.old) tree.old.rows) child w)
        → OnOk result (Steps (view (P.pages pages.old) tree.old.rows (P.count pages.old) (P.first pages.old) free) (P.pages pages.new) tree.new.rows (P.count pages.new) (P.first pages.new) (one_at page) (one_at page) (relinked more.now page at child words.now (bytes_in (P.pages pages.old) tree.old.rows)) (P.pages pages.old)) }
    ensures theirs { IsMap rows_form (P.pages pages.old) tree.old.rows
        → IfOk result (λ theirs. (w : ℕ) → impact_in theirs.items w ≡ beside_top (bytes_in (P.pages pages.old) tree.old.rows) more.now w) }
    ensures root { tree.new.root ≡ tree.old.root }

    ensures no_false_damage { (free : List ℕ) → IsSupplied (view (P.pages pages.old) tree.old.rows (P.count pages.old) (P.first pages.old) free) → (page ≡ child → ⊥) → AreReadable (P.pages pages.old) (P.count pages.old) → (damage : Damage) → result ≢ Err (PageFault.Damaged damage) }
    ensures damaged { AreReadable (P.pages pages.old) (P.count pages.old) → (damage : Damage) → IsErrOf result (PageFault.Damaged damage)
        → IsRowsHarm (P.pages pages.new) (P.count pages.new) (P.first pages.new) tree.new.rows (P.asked pages.old) (P.asked pages.new) damage }
    ensures told { AreReadable (P.pages pages.old) (P.count pages.old) → OnOk result (AreReadable (P.pages pages.new) (P.count pages.new)) }
    ensures more { AreReadable (P.pages pages.old) (P.count pages.old) → AsksOnly (λ _. 1) (P.asked pages.old) (P.asked pages.new) }
    ensures fails { FailsChanging P.Pages pages.old pages.new result }
    ensures frame { Changes P.Pages pages.old pages.new }
{
    let theirs = words_beside(alloc, pages, tree, more)?;
    let above = rising(alloc, at, words, known)?;
    raise(pages, tree, page, at, &above)?;
    renew(alloc, pages, tree, page, at, child, &theirs)?;
    Ok(theirs)
}

// Sets the rectangle of a child that is still one node, and returns the least one round all. A node that stays the same isn't written.
fn widen<P: Pages>(
    pages: &mut P,
    page: u32,
    draft: &mut Draft,
    at: usize,
    child: u32,
    rect: &Rect,
) -> Result<Rect, PageFault>
    requires counted { IsUncounted (P.count pages.old) page → ⊥ }
    requires within { at < 32 }
    ensures made { (least below rows : ℕ) (free : List ℕ) → IsDraft draft.old → level_in draft.old.bytes ≡ suc below → P.pages pages.old page ≡ draft.old.bytes
        → IsChildAt (slots_in draft.old.bytes) at child
        → IsReady node_of (view (P.pages pages.old) rows (P.count pages.old) (P.first pages.old) free) least (suc below) page
        (joined (record { level = suc below; slots = with_slot at (child_item rect.now child) (slots_in draft.old.bytes) }) (bytes_in (P.pages pages.old) rows page)) None
        → IfOk result (λ bounds. Makes node_of (view (P.pages pages.old) rows (P.count pages.old) (P.first pages.old) free) (P.pages pages.new) rows (P.count pages.new) (P.first pages.new) least (suc below) page
        (words_on (bytes_in (P.pages pages.old) rows page) (with_slot at (child_item rect.now child) (slots_in draft.old.bytes))) None None (reach_of bounds) (λ n. n ≡ 0)) }

    ensures damaged { (damage : Damage) → result ≢ Err (PageFault.Damaged damage) }
    ensures told { AreReadable (P.pages pages.old) (P.count pages.old) → OnOk result (AreReadable (P.pages pages.new) (P.count pages.new)) }
    ensures fails { FailsWriting P.Pages pages.old result }
    ensures frame { Writes P.Pages pages.old pages.new }
{
    if *rect == draft.rects[at] {
        return Ok(draft.bounds());
    }
    let linked = Slot::Child {
        rect: *rect,
        page: child,
    };
    draft.put(at, &linked);
    store(pages, page, &draft.bytes)?;
    Ok(draft.bounds())
}

// Adds a child that was made, with the words below it, each with its greatest impact.
fn add_child<P: Pages>(
    alloc: Global,
    pages: &mut P,
    tree: &mut Tree,
    policy: &mut dyn SplitPolicy,
    page: u32,
    draft: &mut Draft,
    more: &Beside,
    words: &[(u64, u8)],
) -> Result<Grown, PageFault>
    requires counted { IsUncounted (P.count pages.old) page → ⊥ }
    ensures made { (least below : ℕ) (free : List ℕ) → IsReady node_of (view (P.pages pages.old) tree.old.rows (P.count pages.old) (P.first pages.old) free) least (suc below) page (joined (node_of draft.old.bytes) (bytes_in (P.pages pages.old) tree.old.rows page)) (Some (bounding_child (nodes_in node_of (P.pages pages.old) tree.old.rows) (beside_item more.now)))
        → IsDraft draft.old → ((w : ℕ) → impact_in words.now w ≡ top_at (bytes_in (P.pages pages.old) tree.old.rows) more.now.page w)
        → IfOk result (λ g. Makes node_of (view (P.pages pages.old) tree.old.rows (P.count pages.old) (P.first pages.old) free) (P.pages pages.new) tree.new.rows (P.count pages.new) (P.first pages.new) least (suc below) page
        (words_on (bytes_in (P.pages pages.old) tree.old.rows page) (slots_in draft.old.bytes)) (Some (bounding_child (nodes_in node_of (P.pages pages.old) tree.old.rows) (beside_item more.now))) (bounding_child_in (nodes_in node_of (P.pages pages.new) tree.new.rows) (option_map beside_item g.more)) (reach_of g.rect) (Rises ((SplitPolicy-dyn policy.old).count policy.old.1) ((SplitPolicy-dyn policy.new).count policy.new.1))) }
    ensures root { tree.new.root ≡ tree.old.root }

    ensures no_false_damage { (least below : ℕ) (free : List ℕ) → IsReady node_of (view (P.pages pages.old) tree.old.rows (P.count pages.old) (P.first pages.old) free) least (suc below) page (joined (node_of draft.old.bytes) (bytes_in (P.pages pages.old) tree.old.rows page)) (Some (bounding_child (nodes_in node_of (P.pages pages.old) tree.old.rows) (beside_item more.now)))
        → IsDraft draft.old → ((w : ℕ) → impact_in words.now w ≡ top_at (bytes_in (P.pages pages.old) tree.old.rows) more.now.page w) → AreReadable (P.pages pages.old) (P.count pages.old) → (damage : Damage) → result ≢ Err (PageFault.Damaged damage) }
    ensures damaged { AreReadable (P.pages pages.old) (P.count pages.old) → (damage : Damage) → IsErrOf result (PageFault.Damaged damage)
        → IsRowsHarm (P.pages pages.new) (P.count pages.new) (P.first pages.new) tree.new.rows (P.asked pages.old) (P.asked pages.new) damage }
    ensures told { AreReadable (P.pages pages.old) (P.count pages.old) → OnOk result (AreReadable (P.pages pages.new) (P.count pages.new)) }
    ensures more { AreReadable (P.pages pages.old) (P.count pages.old) → AsksOnly (λ _. 1) (P.asked pages.old) (P.asked pages.new) }
    ensures fails { FailsChanging P.Pages pages.old pages.new result }
    ensures frame { Changes P.Pages pages.old pages.new }
{
    add(alloc, pages, tree, policy, page, draft, &more.slot(), words)
}

// Writes a node whose child has grown, with the child that was made beside it and its words, if one was made.
fn finish<P: Pages>(
    alloc: Global,
    pages: &mut P,
    tree: &mut Tree,
    policy: &mut dyn SplitPolicy,
    page: u32,
    draft: &mut Draft,
    at: usize,
    child: u32,
    grown: &Grown,
    theirs: &[(u64, u8)],
) -> Result<Grown, PageFault>
    requires counted { IsUncounted (P.count pages.old) page → ⊥ }
    requires within { at < 32 }
    ensures made { (least below : ℕ) (free : List ℕ) → IsDraft draft.old → level_in draft.old.bytes ≡ suc below → P.pages pages.old page ≡ draft.old.bytes
        → IsChildAt (slots_in draft.old.bytes) at child
        → IsReady node_of (view (P.pages pages.old) tree.old.rows (P.count pages.old) (P.first pages.old) free) least (suc below) page
        (joined (record { level = suc below; slots = with_slot at (child_item grown.now.rect child) (slots_in draft.old.bytes) }) (bytes_in (P.pages pages.old) tree.old.rows page)) (bounding_child_in (nodes_in node_of (P.pages pages.old) tree.old.rows) (option_map beside_item grown.now.more))
        → ((w : ℕ) → impact_in theirs.now w ≡ beside_top (bytes_in (P.pages pages.old) tree.old.rows) grown.now.more w)
        → IfOk result (λ g. Makes node_of (view (P.pages pages.old) tree.old.rows (P.count pages.old) (P.first pages.old) free) (P.pages pages.new) tree.new.rows (P.count pages.new) (P.first pages.new) least (suc below) page
        (words_on (bytes_in (P.pages pages.old) tree.old.rows page) (with_slot at (child_item grown.now.rect child) (slots_in draft.old.bytes))) (bounding_child_in (nodes_in node_of (P.pages pages.old) tree.old.rows) (option_map beside_item grown.now.more)) (bounding_child_in (nodes_in node_of (P.pages pages.new) tree.new.rows) (option_map beside_item g.more)) (reach_of g.rect) (Rises ((SplitPolicy-dyn policy.old).count policy.old.1) ((SplitPolicy-dyn policy.new).count policy.new.1))) }
    ensures root { tree.new.root ≡ tree.old.root }

    ensures no_false_damage { (least below : ℕ) (free : List ℕ) → IsDraft draft.old → level_in draft.old.bytes ≡ suc below → P.pages pages.old page ≡ draft.old.bytes
        → IsChildAt (slots_in draft.old.bytes) at child
        → IsReady node_of (view (P.pages pages.old) tree.old.rows (P.count pages.old) (P.first pages.old) free) least (suc below) page
        (joined (record { level = suc below; slots = with_slot at (child_item grown.now.rect child) (slots_in draft.old.bytes) }) (bytes_in (P.pages pages.old) tree.old.rows page)) (bounding_child_in (nodes_in node_of (P.pages pages.old) tree.old.rows) (option_map beside_item grown.now.more))
        → ((w : ℕ) → impact_in theirs.now w ≡ beside_top (bytes_in (P.pages pages.old) tree.old.rows) grown.now.more w)
        → AreReadable (P.pages pages.old) (P.count pages.old) → (damage : Damage) → result ≢ Err (PageFault.Damaged damage) }
    ensures damaged { AreReadable (P.pages pages.old) (P.count pages.old) → (damage : Damage) → IsErrOf result (PageFault.Damaged damage)
        → IsRowsHarm (P.pages pages.new) (P.count pages.new) (P.first pages.new) tree.new.rows (P.asked pages.old) (P.asked pages.new) damage }
    ensures told { AreReadable (P.pages pages.old) (P.count pages.old) → OnOk result (AreReadable (P.pages pages.new) (P.count pages.new)) }
    ensures more { AreReadable (P.pages pages.old) (P.count pages.old) → AsksOnly (λ _. 1) (P.asked pages.old) (P.asked pages.new) }
    ensures fails { FailsChanging P.Pages pages.old pages.new result }
    ensures frame { Changes P.Pages pages.old pages.new }
{
    match &grown.more {
        Some(more) => {
            let linked = Slot::Child {
                rect: grown.rect,
                page: child,
            };
            draft.put(at, &linked);
            add_child(alloc, pages, tree, policy, page, draft, more, theirs)
        }
        None => {
            let rect = widen(pages, page, draft, at, child, &grown.rect)?;
            Ok(Grown { rect, more: None })
        }
    }
}

/// Puts an item with its words in below a counted page of this level, which was loaded, and returns what has become of the node at the
/// page. Leaves have level 0. A place goes to level 0, a child to a level above. The policy chooses the way and the splits.
///
/// It reads each node on the way once, and the node's row for each word with [`rows_at`]. On the way back it goes down for a row again only
/// to raise a slot by a word whose byte is too low there. It writes a node if its own slots changed. If a child was split it also goes
/// through the rows of three nodes for the new node's words, leaf by leaf. These are the new node, the child and the node above. A leaf of
/// rows is written once for all of its rows that change together.
///
/// Refuses `Damaged` if a page on the way is no node of the level that its place requires, or as the rows' calls do. Neither happens on
/// well-formed pages that are readable. Refuses as `take` does, `Disk`, `Stopped` and `Memory`: then pages may have changed, and are to be
/// abandoned.
pub(crate) fn put_below<P: Pages>(
    alloc: Global,
    pages: &mut P,
    tree: &mut Tree,
    policy: &mut dyn SplitPolicy,
    page: u32,
    draft: &mut Draft,
    level: u8,
    goal: u8,
    slot: &Slot,
    words: &[(u64, u8)],
) -> Result<Grown, PageFault>
    requires counted { IsUncounted (P.count pages.old) page → ⊥ }
    requires some { 0 < draft.old.used }
    ensures made { (least : ℕ) (free : List ℕ) → IsDraft draft.old → draft.old.used ≡ mask_of draft.old.bytes → draft.old.bytes ≡ P.pages pages.old page
        → IsOpen node_of (view (P.pages pages.old) tree.old.rows (P.count pages.old) (P.first pages.old) free) least level page goal (worded (impact_in words.now) (item_of slot.now)) → Fits goal slot.now
        → IfOk result (λ g. Puts node_of (view (P.pages pages.old) tree.old.rows (P.count pages.old) (P.first pages.old) free) (P.pages pages.new) tree.new.rows (P.count pages.new) (P.first pages.new) least level page
        goal (worded (impact_in words.now) (item_of slot.now)) (bounding_child_in (nodes_in node_of (P.pages pages.new) tree.new.rows) (option_map beside_item g.more)) (reach_of g.rect) (Rises ((SplitPolicy-dyn policy.old).count policy.old.1) ((SplitPolicy-dyn policy.new).count policy.new.1))) }
    ensures root { tree.new.root ≡ tree.old.root }

    ensures no_false_damage { (least : ℕ) (free : List ℕ) → IsDraft draft.old → draft.old.used ≡ mask_of draft.old.bytes → draft.old.bytes ≡ P.pages pages.old page
        → IsOpen node_of (view (P.pages pages.old) tree.old.rows (P.count pages.old) (P.first pages.old) free) least level page goal (worded (impact_in words.now) (item_of slot.now)) → Fits goal slot.now → AreReadable (P.pages pages.old) (P.count pages.old) → (damage : Damage) → result ≢ Err (PageFault.Damaged damage) }
    ensures damaged { (before : List ℕ) → AreReadable (P.pages pages.old) (P.count pages.old) → draft.old.bytes ≡ P.pages pages.old page → draft.old.used ≡ mask_of draft.old.bytes → level_in draft.old.bytes ≡ level
        → AskedSince before (P.asked pages.old) page → (damage : Damage) → IsErrOf result (PageFault.Damaged damage)
        → IsTreeHarm (P.pages pages.new) (P.count pages.new) (P.first pages.new) tree.new.rows before (P.asked pages.new) damage }
    ensures told { AreReadable (P.pages pages.old) (P.count pages.old) → OnOk result (AreReadable (P.pages pages.new) (P.count pages.new)) }
    ensures more { AreReadable (P.pages pages.old) (P.count pages.old) → AsksOnly (λ _. 1) (P.asked pages.old) (P.asked pages.new) }
    ensures fails { FailsChanging P.Pages pages.old pages.new result }
    ensures frame { Changes P.Pages pages.old pages.new }
{
    if level <= goal {
        return add(alloc, pages, tree, policy, page, draft, slot, words);
    }
    let known = rows_at(alloc, pages, tree, page, words)?;
    let at = choose(policy, draft, &slot.rect(), &known);
    let child = child_at(&draft.bytes, at);
    let mut below = Draft::blank();
    fetch_at(pages, child, level - 1, &mut below)?;
    let grown = put_below(
        alloc,
        pages,
        tree,
        policy,
        child,
        &mut below,
        level - 1,
        goal,
        slot,
        words,
    )?;
    let theirs = relink(
        alloc,
        pages,
        tree,
        page,
        at,
        child,
        words,
        &known,
        &grown.more,
    )?;
    finish(
        alloc, pages, tree, policy, page, draft, at, child, &grown, &theirs,
    )
}
