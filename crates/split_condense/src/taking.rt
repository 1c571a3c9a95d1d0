//! An entry that is taken out along a path.
ghost use Rattle.std.specs.Prelude.{◌≡◌, ◌≢◌, ◌<◌, ◌≤◌, ◌==◌, ℕ, List, Option, Some, None, true, false, option_map, length, IfOk, OnOk, IfErr, IfSome, IsSome, IsErr, IsErrOf};
ghost use Rattle.page_face.specs.Calls.{FailsChanging, Changes};
ghost use Rattle.page_face.specs.Causes.{IsUncounted};
ghost use Rattle.page_face.specs.declared.fault.Damage.{Damage};
ghost use Rattle.btree_nodes.specs.Damages.{AreReadable, AsksOnly};
ghost use Rattle.rtree_nodes.specs.Slots.{Item, filled};
ghost use Rattle.rtree_nodes.specs.Stock.{view, plain};
ghost use Rattle.rtree_nodes.specs.Loose.{with_opt};
ghost use Rattle.rtree_nodes.specs.Reach.{item_of, is_place};
ghost use Rattle.rtree_nodes.specs.Pages.{level_in, is_form, slots_in, node_of};
ghost use Rattle.rtree_nodes.specs.Ways.{IsWay};
ghost use Rattle.node_rows.specs.Damages.{IsRowsHarm};
ghost use Rattle.node_rows.specs.Rows.{IsRows, bytes_in};
ghost use Rattle.node_rows.specs.Turns.{Turns};
ghost use Rattle.node_rows.specs.Impacts.{impact_in, refreshed, top_at};
ghost use Rattle.node_rows.specs.Refreshing.{is_named};
ghost use Rattle.irtree_shape.specs.Words.{worded};
ghost use Rattle.irtree_shape.specs.Made.{nodes_in};
ghost use Rattle.irtree_shape.specs.Loose.{IsTaking, TakesOut};
ghost use Rattle.irtree_shape.specs.Steps.{bounding_child_in};
ghost use Rattle.irtree_shape.specs.Damages.{IsLone, IsTreeHarm};
ghost use Rattle.irtree_insert.specs.Fits.{Fits};
ghost use Rattle.split_condense.specs.Clears.{KeepsWords};
ghost use Rattle.split_condense.specs.Orphans.{loose_in, AreLow, IsChildOf, IsMisplaced, IsOffPath};

use crate::Orphan;
use crate::clearing::clear_words;
use crate::condensing::settle;
use btree_nodes::damaged;
use node_inverted::{Tree, refresh, renew};
use page_face::{Page, PageFault, Pages, Rule};
use rtree_nodes::{Node, SLOTS, SLOTS_MIN, Slot, clear_slot, count, put_slot, slot_at};
use spatial_base::Rect;
use std::alloc::Global;

// Whether a node of this level is an inner one of one child, which would choose nothing.
fn is_lone(bytes: &Page, level: u8) -> bool
    ensures lone { is_form bytes.now ≡ true → level ≡ level_in bytes.now → result ≡ true → IsLone bytes.now }
    ensures several { is_form bytes.now ≡ true → result ≡ false → 0 < level → filled (slots_in bytes.now) ≢ 1 }
{
    level > 0 && count(bytes) == 1
}

// Checks a node whole, as it was read, so that nothing of it is refused once pages below it are written.
//
// Refuses the first rule of a node's page that the bytes break, as `Node::decode` does. Refuses `Level` if the node isn't of this level,
// and `Fill` at an inner node of one child. The node in memory is in this call's frame only.
#[inline(never)]
fn check_node(page: u32, bytes: &Page, level: u8) -> Result<(), PageFault>
    ensures form { OnOk result (is_form bytes.now ≡ true) }
    ensures level { OnOk result (level ≡ level_in bytes.now) }
    ensures several { OnOk result (0 < level → filled (slots_in bytes.now) ≢ 1) }
    ensures refuses { IfErr result (IsMisplaced page level bytes.now) }
{
    let node = match Node::decode(bytes) {
        Ok(node) => node,
        Err(rule) => return Err(damaged(page, rule)),
    };
    if node.level != level {
        return Err(damaged(page, Rule::Level));
    }
    if is_lone(bytes, level) {
        return Err(damaged(page, Rule::Fill));
    }
    Ok(())
}

// What is in a slot that a path names.
fn slot_on_path(page: u32, bytes: &Page, at: usize) -> Result<Slot, PageFault>
    ensures within { OnOk result (at < 32) }
    ensures item { is_form bytes.now ≡ true → IfOk result (λ slot. slots_in bytes.now at ≡ Some (item_of slot)) }
    ensures fits { IfOk result (λ slot. Fits (level_in bytes.now) slot) }
    ensures refuses { IfErr result (IsOffPath page at bytes.now) }
{
    if at >= SLOTS {
        return Err(damaged(page, Rule::Value));
    }
    match slot_at(bytes, at) {
        Ok(Some(slot)) => Ok(slot),
        Ok(None) => Err(damaged(page, Rule::Value)),
        Err(rule) => Err(damaged(page, rule)),
    }
}

// Whether two rectangles are the same.
fn is_same(a: &Rect, b: &Rect) -> bool
    ensures { result ≡ true → a.now ≡ b.now }
{
    a.west() == b.west() && a.south() == b.south() && a.east() == b.east() && a.north() == b.north()
}

// Puts what is left of a child into its slot, or clears the slot if nothing is. Returns whether the page changed.
fn set_slot(bytes: &mut Page, at: usize, old: &Slot, left: &Option<Slot>) -> bool
    requires at { at < 32 }
    requires level { 0 < level_in bytes.old }
    requires old { is_place old.now ≡ false }
    requires left { IfSome left.now (IsChildOf (item_of old.now).to) }
    ensures form { is_form bytes.old ≡ true → is_form bytes.new ≡ true }
    ensures slots { is_form bytes.old ≡ true → slots_in bytes.old at ≡ Some (item_of old.now) → slots_in bytes.new ≡ with_opt at (option_map item_of left.now) (slots_in bytes.old) }
    ensures level { level_in bytes.new ≡ level_in bytes.old }
    ensures same { result ≡ false → bytes.new ≡ bytes.old }
{
    match left {
        Some(slot) => {
            if is_same(&slot.rect(), &old.rect()) {
                return false;
            }
            put_slot(bytes, at, slot);
            true
        }
        None => {
            clear_slot(bytes, at);
            true
        }
    }
}

// Makes the words of a slot right again after an entry of these words was taken out below its child. Unless nodes were dissolved
// there, no other word of the child has changed.
fn relink<P: Pages>(
    alloc: Global,
    pages: &mut P,
    tree: &mut Tree,
    page: u32,
    at: usize,
    child: u32,
    words: &[(u64, u8)],
    is_condensed: bool,
) -> Result<(), PageFault>
    requires { at < 32 }
    ensures turns { (free : List ℕ) → IsRows (plain (view (P.pages pages.old) tree.old.rows (P.count pages.old) (P.first pages.old) free)) tree.old.rows → (page ≡ child → ⊥)
        → (is_condensed ≡ false → (w : ℕ) → is_named words.now w ≡ false → bytes_in (P.pages pages.old) tree.old.rows page w at ≡ top_at (bytes_in (P.pages pages.old) tree.old.rows) child w)
        → OnOk result (Turns (plain (view (P.pages pages.old) tree.old.rows (P.count pages.old) (P.first pages.old) free)) tree.old.rows (P.pages pages.new) (P.count pages.new) (P.first pages.new) tree.new.rows (refreshed page at child (bytes_in (P.pages pages.old) tree.old.rows))) }
    ensures no_false_damage { (free : List ℕ) → IsRows (plain (view (P.pages pages.old) tree.old.rows (P.count pages.old) (P.first pages.old) free)) tree.old.rows → (page ≡ child → ⊥)
        → AreReadable (P.pages pages.old) (P.count pages.old) → (damage : Damage) → result ≢ Err (PageFault.Damaged damage) }
    ensures damaged { AreReadable (P.pages pages.old) (P.count pages.old) → (damage : Damage) → IsErrOf result (PageFault.Damaged damage)
        → IsRowsHarm (P.pages pages.new) (P.count pages.new) (P.first pages.new) tree.new.rows (P.asked pages.old) (P.asked pages.new) damage }
    ensures told { AreReadable (P.pages pages.old) (P.count pages.old) → OnOk result (AreReadable (P.pages pages.new) (P.count pages.new)) }
    ensures more { AreReadable (P.pages pages.old) (P.count pages.old) → AsksOnly (λ _. 1) (P.asked pages.old) (P.asked pages.new) }
    ensures root { tree.new.root ≡ tree.old.root }
    ensures fails { FailsChanging P.Pages pages.old pages.new result }
    ensures frame { Changes P.Pages pages.old pages.new }
{
    if is_condensed {
        refresh(pages, tree, page, at, child)
    } else {
        renew(alloc, pages, tree, page, at, child, words)
    }
}

/// Takes the item of these words at the end of a path out of the tree below a page, and condenses the nodes that the path leads through.
///
/// `path[l]` is the slot at level `l`, and `level` that of the page's node. Returns the slot of what is left of this node, for the node
/// above. Returns `None` if the node had fewer than `least` slots left. Then each of its items became an orphan with its words, its rows
/// were dropped, and its page was given back. The same holds for each node below, of which 12 slots have to be left. The bytes of the
/// child's slot are made those below the child again.
///
/// On the way down, before anything is written, refuses `Damaged`:
///
/// - with `Link` at a page that isn't counted;
/// - with the first rule that a page breaks, as `Node::decode` has it;
/// - with `Level` at a node that isn't of its level;
/// - with `Fill` at an inner node of one child;
/// - with `Value` at a node whose slot on the path isn't used.
///
/// After that it refuses `Damaged` as the rows' calls do. Refuses also `Disk`, `NoRoom`, `Stopped` and `Memory`. After a refusal some pages
/// may be written, and `tree` has no meaning.
///
/// Reads one page a level and decodes it once, and writes one a level at most: a node of which neither the slots nor the rectangle changed
/// isn't written. Costs a call of `set_impact` for each of the words at the leaf. Each level above costs a call of `renew`, or of `refresh`
/// if nodes were dissolved below. Each node that is dissolved costs a call of `take_rows`.
pub(crate) fn take_out<P: Pages>(
    alloc: Global,
    pages: &mut P,
    tree: &mut Tree,
    page: u32,
    level: u8,
    least: usize,
    path: &[u8],
    words: &[(u64, u8)],
    orphans: &mut Vec<Orphan>,
) -> Result<Option<Slot>, PageFault>
    requires path { level < length path.now }
    requires some { 0 < least }
    requires least { least ≤ 12 }
    ensures taken { (free : List ℕ) (x : Item) → IsTaking node_of (view (P.pages pages.old) tree.old.rows (P.count pages.old) (P.first pages.old) free) least level page path.now (worded (impact_in words.now) x) (loose_in orphans.old.items)
        → IfOk result (λ left. TakesOut node_of (view (P.pages pages.old) tree.old.rows (P.count pages.old) (P.first pages.old) free) (P.pages pages.new) tree.new.rows (P.count pages.new) (P.first pages.new) least level page (worded (impact_in words.now) x)
        (bounding_child_in (nodes_in node_of (P.pages pages.new) tree.new.rows) (option_map item_of left)) (loose_in orphans.old.items) (loose_in orphans.new.items)) }

    // If no orphan came, the other words are below the page as they were.
    ensures others { (free : List ℕ) (x : Item) → IsTaking node_of (view (P.pages pages.old) tree.old.rows (P.count pages.old) (P.first pages.old) free) least level page path.now (worded (impact_in words.now) x) (loose_in orphans.old.items)
        → OnOk result (KeepsWords words.now page (bytes_in (P.pages pages.old) tree.old.rows) (bytes_in (P.pages pages.new) tree.new.rows) (length orphans.old.items) (length orphans.new.items)) }
    ensures counted { IsUncounted (P.count pages.old) page → IsErr result }
    ensures here { IfOk result (λ left. IfSome left (IsChildOf page)) }
    ensures stays { least < filled (slots_in (P.pages pages.old page)) → IfOk result IsSome }
    ensures level_is { 0 < filled (slots_in (P.pages pages.old page)) → OnOk result (level ≡ level_in (P.pages pages.old page)) }
    ensures low { (top : ℕ) → level ≤ top → AreLow top (loose_in orphans.old.items) → OnOk result (AreLow top (loose_in orphans.new.items)) }

    // If one slot has to be left and none was, nothing was let go.
    ensures gone { least ≡ 1 → IfOk result (λ left. left ≡ None → length orphans.new.items ≡ length orphans.old.items) }
    ensures told { AreReadable (P.pages pages.old) (P.count pages.old) → OnOk result (AreReadable (P.pages pages.new) (P.count pages.new)) }

    // On a well-formed tree whose pages are readable no page is damaged. A root that is an inner node has more than one child there.
    ensures no_false_damage { (free : List ℕ) (x : Item) → IsTaking node_of (view (P.pages pages.old) tree.old.rows (P.count pages.old) (P.first pages.old) free) least level page path.now (worded (impact_in words.now) x) (loose_in orphans.old.items)
        → (least ≡ 1 → 0 < level → filled (slots_in (P.pages pages.old page)) ≢ 1) → AreReadable (P.pages pages.old) (P.count pages.old) → (damage : Damage) → result ≢ Err (PageFault.Damaged damage) }

    // Over readable pages by whose bytes the path leads down: a damage is of a page that was requested, as the call leaves it, or of the
    // refused take.
    ensures damaged { AreReadable (P.pages pages.old) (P.count pages.old) → IsWay (P.pages pages.old) path.now level page → (damage : Damage) → IsErrOf result (PageFault.Damaged damage)
        → IsTreeHarm (P.pages pages.new) (P.count pages.new) (P.first pages.new) tree.new.rows (P.asked pages.old) (P.asked pages.new) damage }
    ensures more { AreReadable (P.pages pages.old) (P.count pages.old) → AsksOnly (λ _. 1) (P.asked pages.old) (P.asked pages.new) }
    ensures root { tree.new.root ≡ tree.old.root }
    ensures fails { FailsChanging P.Pages pages.old pages.new result }
    ensures frame { Changes P.Pages pages.old pages.new }
{
    match pages.look(page) {
        Ok(()) => {}
        Err(fault) => return Err(fault),
    }
    let mut bytes = *pages.looked();
    match check_node(page, &bytes, level) {
        Ok(()) => {}
        Err(fault) => return Err(fault),
    }
    let at = usize::from(path[usize::from(level)]);
    let old = match slot_on_path(page, &bytes, at) {
        Ok(old) => old,
        Err(fault) => return Err(fault),
    };
    let child = match old {
        Slot::Place { .. } => {
            match clear_words(pages, tree, page, at, words) {
                Ok(()) => {}
                Err(fault) => return Err(fault),
            }
            clear_slot(&mut bytes, at);
            return settle(
                alloc, pages, tree, page, &bytes, level, least, true, orphans,
            );
        }
        Slot::Child { page: child, .. } => child,
    };
    let many = orphans.len();
    let left = match take_out(
        alloc,
        pages,
        tree,
        child,
        level - 1,
        SLOTS_MIN,
        path,
        words,
        orphans,
    ) {
        Ok(left) => left,
        Err(fault) => return Err(fault),
    };
    let is_condensed = orphans.len() > many;
    match relink(alloc, pages, tree, page, at, child, words, is_condensed) {
        Ok(()) => {}
        Err(fault) => return Err(fault),
    }
    let is_changed = set_slot(&mut bytes, at, &old, &left);
    settle(
        alloc, pages, tree, page, &bytes, level, least, is_changed, orphans,
    )
}
