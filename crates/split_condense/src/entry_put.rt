//! The entry of a place that is put.
ghost use Rattle.std.specs.Prelude.{◌≡◌, ◌≢◌, ◌⊎◌, ℕ, List, Ok, None, Some, true, IfSome, OnOk, IsErrOf, MatchOption, option_map};
ghost use Rattle.std.specs.Option.{option_copied};
ghost use Rattle.page_face.specs.Calls.{Changes, FailsChanging};
ghost use Rattle.btree_nodes.specs.Damages.{AreReadable, AsksOnly};
ghost use Rattle.spatial_base.specs.Key.{Name};
ghost use Rattle.rtree_nodes.specs.Stock.{view};
ghost use Rattle.rtree_nodes.specs.Made.{Rises};
ghost use Rattle.rtree_nodes.specs.Pages.{node_of};
ghost use Rattle.irtree_shape.specs.Made.{nodes_in};
ghost use Rattle.irtree_shape.specs.Whole.{IsPlanted, IsWhole};
ghost use Rattle.irtree_shape.specs.Damages.{IsTreeHarm};
ghost use Rattle.irtree_shape.specs.Entries.{HasEntry, HasPlace, entry_at};
ghost use Rattle.irtree_shape.specs.Regrown.{IsMissing, IsRegrown};
ghost use Rattle.split_condense.specs.Updates.{entry_for};

use crate::entry_taken::{entry_of, take_entry};
use crate::insert;
use node_inverted::Tree;
use page_face::{Damage, PageFault, Pages};
use row_codec::Stored;
use spatial_base::Key;
use split_policy::SplitPolicy;
use std::alloc::Global;

/// Puts the entry of a key's place `new` into a tree, and takes out that of the key's place `old` before, if there was one.
///
/// Does nothing if both have the same entry: the same point and the same words, whatever their labels. Fails as [`take_entry`] of `old`
/// and [`insert`] do. `Damaged` has the rule `Entry` and page 0 only if there was a place and the tree has no entry of it. Else `Damaged`
/// gives which page breaks which rule. The tree's roots and the pages are then as the call left them, and are to be abandoned. Costs an
/// [`insert`], and a [`take_entry`] if there was a place.
pub fn put_entry<P: Pages>(
    alloc: Global,
    pages: &mut P,
    tree: &mut Tree,
    policy: &mut dyn SplitPolicy,
    key: &Key,
    old: Option<&Stored>,
    new: &Stored,
) -> Result<(), PageFault>
    ensures put { (free : List ℕ) → IsWhole node_of (view (P.pages pages.old) tree.old.rows (P.count pages.old) (P.first pages.old) free) tree.old.root
        → IfSome (option_copied old.entry) (HasEntry (nodes_in node_of (P.pages pages.old) tree.old.rows) tree.old.root key.now)
        → OnOk result (IsRegrown node_of (view (P.pages pages.old) tree.old.rows (P.count pages.old) (P.first pages.old) free) (P.pages pages.new) tree.new.rows (P.count pages.new) (P.first pages.new)
        tree.old.root tree.new.root (option_map (entry_at key.now) (option_copied old.entry)) (Some (entry_at key.now new.now))) }
    ensures there { (free : List ℕ) → IsWhole node_of (view (P.pages pages.old) tree.old.rows (P.count pages.old) (P.first pages.old) free) tree.old.root
        → OnOk result (IfSome (option_copied old.entry) (λ stored. entry_for key.now stored ≢ entry_for key.now new.now → HasPlace (nodes_in node_of (P.pages pages.old) tree.old.rows) tree.old.root key.now stored.point)) }
    ensures same { option_map (entry_for key.now) (option_copied old.entry) ≡ Some (entry_for key.now new.now) → (result ≡ Ok tt) × (pages.new ≡ pages.old) × (tree.new ≡ tree.old) }
    ensures unsplit { option_map (entry_for key.now) (option_copied old.entry) ≡ Some (entry_for key.now new.now) → (SplitPolicy-dyn policy.new).count policy.new.1 ≡ (SplitPolicy-dyn policy.old).count policy.old.1 }

    // A new place's entry is put as `insert` puts it: each node stays at its page and level, and the splits count the new ones.
    ensures planted { (free : List ℕ) → IsWhole node_of (view (P.pages pages.old) tree.old.rows (P.count pages.old) (P.first pages.old) free) tree.old.root
        → option_copied old.entry ≡ None
        → OnOk result (IsPlanted node_of (view (P.pages pages.old) tree.old.rows (P.count pages.old) (P.first pages.old) free) (P.pages pages.new) tree.new.rows (P.count pages.new) (P.first pages.new)
        tree.old.root tree.new.root (entry_at key.now new.now) (Rises ((SplitPolicy-dyn policy.old).count policy.old.1) ((SplitPolicy-dyn policy.new).count policy.new.1))) }
    ensures no_false_damage { (free : List ℕ) → IsWhole node_of (view (P.pages pages.old) tree.old.rows (P.count pages.old) (P.first pages.old) free) tree.old.root
        → IfSome (option_copied old.entry) (HasEntry (nodes_in node_of (P.pages pages.old) tree.old.rows) tree.old.root key.now)
        → AreReadable (P.pages pages.old) (P.count pages.old)
        → (damage : Damage) → result ≢ Err (PageFault.Damaged damage) }

    // Over readable pages, which stay readable: why it is damaged, over the pages as the call leaves them. Or the old tree has no entry of
    // the old place.
    ensures damaged { AreReadable (P.pages pages.old) (P.count pages.old) → (damage : Damage) → IsErrOf result (PageFault.Damaged damage)
        → IsTreeHarm (P.pages pages.new) (P.count pages.new) (P.first pages.new) tree.new.rows (P.asked pages.old) (P.asked pages.new) damage
        ⊎ MatchOption (option_copied old.entry) ⊥ (λ stored. IsMissing (P.pages pages.old) tree.old.rows (P.count pages.old) (P.first pages.old) tree.old.root key.now stored.point damage) }
    ensures told { AreReadable (P.pages pages.old) (P.count pages.old) → OnOk result (AreReadable (P.pages pages.new) (P.count pages.new)) }
    ensures more { AreReadable (P.pages pages.old) (P.count pages.old) → AsksOnly (λ _. 1) (P.asked pages.old) (P.asked pages.new) }
    ensures fails { FailsChanging P.Pages pages.old pages.new result }
    ensures frame { Changes P.Pages pages.old pages.new }
{
    let Some(old) = old else {
        return insert(alloc, pages, tree, policy, &entry_of(key, new));
    };
    if is_same_entry(old, new) {
        return Ok(());
    }
    take_entry(alloc, pages, tree, policy, key, old)?;
    insert(alloc, pages, tree, policy, &entry_of(key, new))?;
    Ok(())
}

// Whether two places of a key have the same entry: their points and words are the same. A tree has no labels.
fn is_same_entry(old: &Stored, new: &Stored) -> bool
    ensures same { result ≡ true → (key : Name) → entry_for key old.now ≡ entry_for key new.now }
    ensures differs { (key : Name) → entry_for key old.now ≡ entry_for key new.now → result ≡ true }
{
    old.point == new.point && old.count == new.count && old.pairs == new.pairs
}
