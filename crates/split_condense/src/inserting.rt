//! An entry that is put into a tree.
ghost use Rattle.std.specs.Prelude.{◌≢◌, ℕ, List, OnOk, IsErrOf};
ghost use Rattle.page_face.specs.Calls.{Changes, FailsChanging};
ghost use Rattle.btree_nodes.specs.Damages.{AreReadable, AsksOnly};
ghost use Rattle.rtree_nodes.specs.Stock.{view};
ghost use Rattle.rtree_nodes.specs.Made.{Rises};
ghost use Rattle.rtree_nodes.specs.Pages.{node_of};
ghost use Rattle.irtree_shape.specs.Whole.{IsWhole, IsPlanted};
ghost use Rattle.irtree_shape.specs.Damages.{IsTreeHarm};
ghost use Rattle.split_condense.specs.Entries.{entry_item};

use crate::Entry;
use irtree_insert::insert_at;
use node_inverted::Tree;
use page_face::{Damage, PageFault, Pages};
use rtree_nodes::Slot;
use split_policy::SplitPolicy;
use std::alloc::Global;

/// Puts an entry into a tree that has no entry of its key.
///
/// Over a well-formed tree each node stays at its page and level. As many new nodes are made as the policy was asked for splits, and one
/// more if the tree was empty or its root was split. Fails with `Damaged`, as below; with `Disk`, `NoRoom` or `Stopped`; or with `Memory`.
/// The tree's roots and the pages are then as the call left them, and are to be abandoned.
///
/// Over readable pages `Damaged` names a page that was requested and a rule that it breaks as the call leaves it. It is a node's page that
/// breaks the rule by itself, or that isn't one level below a node's that names it. Or it is a page of the map of rows that breaks it in
/// its place there. Else it is what a `take` was refused for.
///
/// For each level looks at one page and at a row for each of the entry's words, and writes those that change. These are the leaf, each node
/// above it whose slot's rectangle grew or whose child was split, and each row in which a word's impact rose. A split takes a page, and
/// moves or makes a row for each word of the node. A new root takes a page.
pub fn insert<P: Pages>(
    alloc: Global,
    pages: &mut P,
    tree: &mut Tree,
    policy: &mut dyn SplitPolicy,
    entry: &Entry,
) -> Result<(), PageFault>
    ensures planted { (free : List ℕ) → IsWhole node_of (view (P.pages pages.old) tree.old.rows (P.count pages.old) (P.first pages.old) free) tree.old.root
        → OnOk result (IsPlanted node_of (view (P.pages pages.old) tree.old.rows (P.count pages.old) (P.first pages.old) free) (P.pages pages.new) tree.new.rows (P.count pages.new) (P.first pages.new)
        tree.old.root tree.new.root (entry_item entry.now) (Rises ((SplitPolicy-dyn policy.old).count policy.old.1) ((SplitPolicy-dyn policy.new).count policy.new.1))) }
    ensures no_false_damage { (free : List ℕ) → IsWhole node_of (view (P.pages pages.old) tree.old.rows (P.count pages.old) (P.first pages.old) free) tree.old.root
        → AreReadable (P.pages pages.old) (P.count pages.old)
        → (damage : Damage) → result ≢ Err (PageFault.Damaged damage) }

    // Over readable pages, which stay readable: why it is damaged, over the pages as the call leaves them.
    ensures damaged { AreReadable (P.pages pages.old) (P.count pages.old) → (damage : Damage) → IsErrOf result (PageFault.Damaged damage)
        → IsTreeHarm (P.pages pages.new) (P.count pages.new) (P.first pages.new) tree.new.rows (P.asked pages.old) (P.asked pages.new) damage }
    ensures told { AreReadable (P.pages pages.old) (P.count pages.old) → OnOk result (AreReadable (P.pages pages.new) (P.count pages.new)) }
    ensures more { AreReadable (P.pages pages.old) (P.count pages.old) → AsksOnly (λ _. 1) (P.asked pages.old) (P.asked pages.new) }
    ensures fails { FailsChanging P.Pages pages.old pages.new result }
    ensures frame { Changes P.Pages pages.old pages.new }
{
    let slot = Slot::Place {
        point: entry.point,
        key: entry.key,
    };
    insert_at(alloc, pages, tree, policy, 0, &slot, entry.words())
}
