//! A root that has one child left.
ghost use Rattle.std.specs.Prelude.{◌≡◌, ◌≢◌, ◌<◌, ◌≤◌, ◌+◌, ℕ, List, [], Option, IfOk, OnOk, IfErr, IsErrOf, MatchOption};
ghost use Rattle.std.specs.Int.{bit_at};
ghost use Rattle.page_face.specs.Calls.{FailsChanging, Changes};
ghost use Rattle.page_face.specs.declared.fault.Damage.{Damage};
ghost use Rattle.btree_nodes.specs.Damages.{AreReadable, AsksOnly};
ghost use Rattle.rtree_nodes.specs.Slots.{Item, filled};
ghost use Rattle.rtree_nodes.specs.Trees.{root_least};
ghost use Rattle.rtree_nodes.specs.Stock.{View, view};
ghost use Rattle.rtree_nodes.specs.Pages.{level_in, slots_in, node_of};
ghost use Rattle.irtree_shape.specs.Stock.{IsSupplied};
ghost use Rattle.irtree_shape.specs.Made.{nodes_in};
ghost use Rattle.irtree_shape.specs.Loose.{IsStanding};
ghost use Rattle.irtree_shape.specs.Whole.{tree_uses, tree_sum, IsWhole, IsFelled};
ghost use Rattle.irtree_shape.specs.Damages.{IsTreeHarm};
ghost use Rattle.split_condense.specs.Orphans.{IsHeadless, IsOnlyChild};

use btree_nodes::damaged;
use node_inverted::{Tree, drop_node};
use page_face::{Page, PageFault, Pages};
use rtree_nodes::{child_at, count, header};
use std::alloc::Global;

// The least number of slots of an inner root: one of a single child adds a level and chooses nothing (Guttman 1984, section 2).
const INNER_ROOT_MIN: usize = 2;

// The lowest bit of a mask that is set.
fn lowest_used(used: u32) -> usize
    requires { 0 < used }
    ensures within { result < 32 }
    ensures used { bit_at used result ≡ 1 }
{
    used.trailing_zeros() as usize
}

// The page of the child of an inner node that has one, or `None` for a leaf and for a node of more children.
fn only_child(page: u32, bytes: &Page) -> Result<Option<u32>, PageFault>
    ensures child { 0 < filled (slots_in bytes.now) → IfOk result (λ child. MatchOption child (root_least (level_in bytes.now) ≤ filled (slots_in bytes.now)) (IsOnlyChild bytes.now)) }
    ensures refuses { IfErr result (IsHeadless page bytes.now) }
{
    let head = match header(bytes) {
        Ok(head) => head,
        Err(rule) => return Err(damaged(page, rule)),
    };
    if head.level == 0 || count(bytes) >= INNER_ROOT_MIN {
        return Ok(None);
    }
    Ok(Some(child_at(bytes, lowest_used(head.used))))
}

/// Gives an inner root with one child back and drops its rows: its child is the root then. Any other root stays.
///
/// Refuses `Damaged` with the rule that the root's page breaks, and as `drop_node` does. Refuses `Disk`, `NoRoom`, `Stopped` and `Memory`.
/// After a refusal `tree` has no meaning. Reads one page. If the root gives way, costs a call of `drop_node` and gives one page back.
pub(crate) fn lower_root<P: Pages>(
    alloc: Global,
    pages: &mut P,
    tree: &mut Tree,
) -> Result<(), PageFault>
    ensures lowered { (before : View) (free : List ℕ) (level old_root : ℕ) (x : Item) (sums : (Item → ℕ) → ℕ) → IsWhole node_of before old_root
        → IsStanding node_of before (view (P.pages pages.old) tree.old.rows (P.count pages.old) (P.first pages.old) free) level tree.old.root [] (tree_uses (nodes_in node_of before.pages before.rows) old_root) sums
        → ((f : Item → ℕ) → sums f + f x ≡ tree_sum (nodes_in node_of before.pages before.rows) old_root f)
        → OnOk result (IsFelled node_of before (P.pages pages.new) tree.new.rows (P.count pages.new) (P.first pages.new) old_root tree.new.root x) }
    ensures no_false_damage { (before : View) (free : List ℕ) (level : ℕ) (mine : ℕ → ℕ) (sums : (Item → ℕ) → ℕ) → IsSupplied before
        → IsStanding node_of before (view (P.pages pages.old) tree.old.rows (P.count pages.old) (P.first pages.old) free) level tree.old.root [] mine sums
        → AreReadable (P.pages pages.old) (P.count pages.old) → (damage : Damage) → result ≢ Err (PageFault.Damaged damage) }
    ensures damaged { AreReadable (P.pages pages.old) (P.count pages.old) → (damage : Damage) → IsErrOf result (PageFault.Damaged damage)
        → IsTreeHarm (P.pages pages.new) (P.count pages.new) (P.first pages.new) tree.new.rows (P.asked pages.old) (P.asked pages.new) damage }
    ensures told { AreReadable (P.pages pages.old) (P.count pages.old) → OnOk result (AreReadable (P.pages pages.new) (P.count pages.new)) }
    ensures more { AreReadable (P.pages pages.old) (P.count pages.old) → AsksOnly (λ _. 1) (P.asked pages.old) (P.asked pages.new) }
    ensures fails { FailsChanging P.Pages pages.old pages.new result }
    ensures frame { Changes P.Pages pages.old pages.new }
{
    let root = tree.root;
    match pages.look(root) {
        Ok(()) => {}
        Err(fault) => return Err(fault),
    }
    let child = match only_child(root, pages.looked()) {
        Ok(Some(child)) => child,
        Ok(None) => return Ok(()),
        Err(fault) => return Err(fault),
    };
    match drop_node(alloc, pages, tree, root) {
        Ok(()) => {}
        Err(fault) => return Err(fault),
    }
    match pages.give_back(root) {
        Ok(()) => {
            tree.root = child;
            Ok(())
        }
        Err(fault) => Err(fault),
    }
}
