//! The entry of a place that is taken out.
ghost use Rattle.std.specs.Prelude.{◌≡◌, ◌≢◌, ◌⊎◌, ℕ, List, None, Some, OnOk, IsErrOf};
ghost use Rattle.page_face.specs.Calls.{Changes, FailsChanging};
ghost use Rattle.btree_nodes.specs.Damages.{AreReadable, AsksOnly};
ghost use Rattle.rtree_nodes.specs.Stock.{view};
ghost use Rattle.rtree_nodes.specs.Pages.{node_of};
ghost use Rattle.irtree_shape.specs.Made.{nodes_in};
ghost use Rattle.irtree_shape.specs.Whole.{IsWhole};
ghost use Rattle.irtree_shape.specs.Damages.{IsTreeHarm};
ghost use Rattle.irtree_shape.specs.Entries.{HasEntry, HasPlace, entry_at};
ghost use Rattle.irtree_shape.specs.Regrown.{IsMissing, IsRegrown};
ghost use Rattle.split_condense.specs.Updates.{entry_for};

use crate::{Entry, delete};
use node_inverted::Tree;
use page_face::{Damage, PageFault, Pages, Rule};
use row_codec::Stored;
use spatial_base::Key;
use split_policy::SplitPolicy;
use std::alloc::Global;

/// Takes the entry of a key's place out of a tree that has it: the place's point, and its words.
///
/// Fails with `Damaged`, the rule `Entry` and page 0 if the tree has no entry of that key at that point. Else fails as [`delete`] does,
/// whose `Damaged` gives which page breaks which rule. The tree's roots and the pages are then as the call left them, and are to be
/// abandoned. Costs a [`delete`].
pub fn take_entry<P: Pages>(
    alloc: Global,
    pages: &mut P,
    tree: &mut Tree,
    policy: &mut dyn SplitPolicy,
    key: &Key,
    old: &Stored,
) -> Result<(), PageFault>
    ensures taken { (free : List ℕ) → IsWhole node_of (view (P.pages pages.old) tree.old.rows (P.count pages.old) (P.first pages.old) free) tree.old.root
        → HasEntry (nodes_in node_of (P.pages pages.old) tree.old.rows) tree.old.root key.now old.now
        → OnOk result (IsRegrown node_of (view (P.pages pages.old) tree.old.rows (P.count pages.old) (P.first pages.old) free) (P.pages pages.new) tree.new.rows (P.count pages.new) (P.first pages.new)
        tree.old.root tree.new.root (Some (entry_at key.now old.now)) None) }
    ensures there { (free : List ℕ) → IsWhole node_of (view (P.pages pages.old) tree.old.rows (P.count pages.old) (P.first pages.old) free) tree.old.root
        → OnOk result (HasPlace (nodes_in node_of (P.pages pages.old) tree.old.rows) tree.old.root key.now old.now.point) }
    ensures no_false_damage { (free : List ℕ) → IsWhole node_of (view (P.pages pages.old) tree.old.rows (P.count pages.old) (P.first pages.old) free) tree.old.root
        → HasEntry (nodes_in node_of (P.pages pages.old) tree.old.rows) tree.old.root key.now old.now
        → AreReadable (P.pages pages.old) (P.count pages.old)
        → (damage : Damage) → result ≢ Err (PageFault.Damaged damage) }

    // Over readable pages, which stay readable: why it is damaged, over the pages as the call leaves them. Or the old tree has no such
    // entry.
    ensures damaged { AreReadable (P.pages pages.old) (P.count pages.old) → (damage : Damage) → IsErrOf result (PageFault.Damaged damage)
        → IsTreeHarm (P.pages pages.new) (P.count pages.new) (P.first pages.new) tree.new.rows (P.asked pages.old) (P.asked pages.new) damage
        ⊎ IsMissing (P.pages pages.old) tree.old.rows (P.count pages.old) (P.first pages.old) tree.old.root key.now old.now.point damage }
    ensures told { AreReadable (P.pages pages.old) (P.count pages.old) → OnOk result (AreReadable (P.pages pages.new) (P.count pages.new)) }
    ensures more { AreReadable (P.pages pages.old) (P.count pages.old) → AsksOnly (λ _. 1) (P.asked pages.old) (P.asked pages.new) }
    ensures fails { FailsChanging P.Pages pages.old pages.new result }
    ensures frame { Changes P.Pages pages.old pages.new }
{
    match delete(alloc, pages, tree, policy, &entry_of(key, old)) {
        Ok(true) => Ok(()),
        Ok(false) => Err(PageFault::Damaged(Damage {
            page: 0,
            rule: Rule::Entry,
        })),
        Err(fault) => Err(fault),
    }
}

// The entry of a key's place.
pub(crate) fn entry_of(key: &Key, stored: &Stored) -> Entry
    ensures { result ≡ entry_for key.now stored.now }
{
    Entry {
        key: *key,
        point: stored.point,
        count: stored.count,
        pairs: stored.pairs,
    }
}
