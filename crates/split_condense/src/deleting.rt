//! An entry that is taken out of a tree.
ghost use Rattle.std.specs.Prelude.{◌≡◌, ◌≢◌, ◌≤◌, ℕ, List, Ok, true, false, OnOk, IsErrOf};
ghost use Rattle.page_face.specs.Calls.{Changes, FailsChanging};
ghost use Rattle.btree_nodes.specs.Damages.{AreReadable, AsksOnly};
ghost use Rattle.rtree_nodes.specs.Stock.{view};
ghost use Rattle.spatial_base.specs.Key.{form_of};
ghost use Rattle.rtree_nodes.specs.Pages.{node_of};
ghost use Rattle.rtree_nodes.specs.Entries.{is_entry};
ghost use Rattle.irtree_shape.specs.Made.{nodes_in};
ghost use Rattle.irtree_shape.specs.Whole.{IsWhole, IsFelled, tree_sum};
ghost use Rattle.irtree_shape.specs.Damages.{IsTreeHarm};
ghost use Rattle.irtree_shape.specs.Entries.{AreWorded};
ghost use Rattle.split_condense.specs.Entries.{entry_item, impact_of};

use crate::{Entry, remove_at};
use node_inverted::Tree;
use page_face::{Damage, PageFault, Pages};
use rtree_nodes::find;
use split_policy::SplitPolicy;
use std::alloc::Global;

/// Takes the entry of a point and a key out of a tree, and returns whether it was there. If it was there, its words have to be those that
/// the tree has of it.
///
/// Nodes left with fewer than 12 slots are dissolved and their items put back at their level. Rectangles and impacts become the least ones
/// again. A root of one child gives way to it, and the last entry gives the last page back.
///
/// Fails with `Damaged`, which names a page and a rule as that of [`insert`](crate::insert) does; with `Disk`, `NoRoom` or `Stopped`; or
/// with `Memory`. The tree's roots and the pages are then as the call left them, and are to be abandoned.
///
/// Looks at each node whose rectangle holds the point until it has found the entry. Then looks once more at those of its path and at their
/// rows, and writes each of these that changes. Each node that is dissolved costs a way down for each of its items.
pub fn delete<P: Pages>(
    alloc: Global,
    pages: &mut P,
    tree: &mut Tree,
    policy: &mut dyn SplitPolicy,
    entry: &Entry,
) -> Result<bool, PageFault>
    ensures felled { (free : List ℕ) → IsWhole node_of (view (P.pages pages.old) tree.old.rows (P.count pages.old) (P.first pages.old) free) tree.old.root
        → AreWorded (nodes_in node_of (P.pages pages.old) tree.old.rows) tree.old.root entry.now.point (form_of entry.now.key) (impact_of entry.now) → result ≡ Ok true
        → IsFelled node_of (view (P.pages pages.old) tree.old.rows (P.count pages.old) (P.first pages.old) free) (P.pages pages.new) tree.new.rows (P.count pages.new) (P.first pages.new)
        tree.old.root tree.new.root (entry_item entry.now) }
    ensures there { (free : List ℕ) → IsWhole node_of (view (P.pages pages.old) tree.old.rows (P.count pages.old) (P.first pages.old) free) tree.old.root → result ≡ Ok true
        → 1 ≤ tree_sum (nodes_in node_of (P.pages pages.old) tree.old.rows) tree.old.root (is_entry entry.now.point (form_of entry.now.key)) }
    ensures absent { (free : List ℕ) → IsWhole node_of (view (P.pages pages.old) tree.old.rows (P.count pages.old) (P.first pages.old) free) tree.old.root → result ≡ Ok false
        → tree_sum (nodes_in node_of (P.pages pages.old) tree.old.rows) tree.old.root (is_entry entry.now.point (form_of entry.now.key)) ≡ 0 }
    ensures left { result ≡ Ok false → (P.pages pages.new ≡ P.pages pages.old) × (P.count pages.new ≡ P.count pages.old) × (P.first pages.new ≡ P.first pages.old) × (tree.new ≡ tree.old) }
    ensures unsplit { result ≡ Ok false → (SplitPolicy-dyn policy.new).count policy.new.1 ≡ (SplitPolicy-dyn policy.old).count policy.old.1 }
    ensures no_false_damage { (free : List ℕ) → IsWhole node_of (view (P.pages pages.old) tree.old.rows (P.count pages.old) (P.first pages.old) free) tree.old.root
        → AreWorded (nodes_in node_of (P.pages pages.old) tree.old.rows) tree.old.root entry.now.point (form_of entry.now.key) (impact_of entry.now)
        → AreReadable (P.pages pages.old) (P.count pages.old)
        → (damage : Damage) → result ≢ Err (PageFault.Damaged damage) }

    // Over readable pages, which stay readable: why it is damaged, over the pages as the call leaves them.
    ensures damaged { AreReadable (P.pages pages.old) (P.count pages.old) → (damage : Damage) → IsErrOf result (PageFault.Damaged damage)
        → IsTreeHarm (P.pages pages.new) (P.count pages.new) (P.first pages.new) tree.new.rows (P.asked pages.old) (P.asked pages.new) damage }
    ensures told { AreReadable (P.pages pages.old) (P.count pages.old) → OnOk result (AreReadable (P.pages pages.new) (P.count pages.new)) }
    ensures more { AreReadable (P.pages pages.old) (P.count pages.old) → AsksOnly (λ _. 1) (P.asked pages.old) (P.asked pages.new) }
    ensures fails { FailsChanging P.Pages pages.old pages.new result }
    ensures frame { Changes P.Pages pages.old pages.new }
{
    if tree.root == 0 {
        return Ok(false);
    }
    let mut path = [0; 10];
    match find(pages, tree.root, &entry.point, &entry.key, &mut path) {
        Ok(None) => Ok(false),
        Ok(Some(level)) => {
            let way = &path[..usize::from(level) + 1];
            match remove_at(alloc, pages, tree, policy, way, entry.words()) {
                Ok(()) => Ok(true),
                Err(fault) => Err(fault),
            }
        }
        Err(fault) => Err(fault),
    }
}
