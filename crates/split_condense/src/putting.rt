//! Orphans that are put back.
ghost use Rattle.std.specs.Prelude.{◌≢◌, ℕ, List, [], OnOk, IsErrOf};
ghost use Rattle.page_face.specs.Calls.{FailsChanging, Changes};
ghost use Rattle.page_face.specs.declared.fault.Damage.{Damage};
ghost use Rattle.btree_nodes.specs.Damages.{AreReadable, AsksOnly};
ghost use Rattle.rtree_nodes.specs.Slots.{Item};
ghost use Rattle.rtree_nodes.specs.Stock.{View, view};
ghost use Rattle.rtree_nodes.specs.Pages.{node_of};
ghost use Rattle.irtree_shape.specs.Stock.{IsSupplied};
ghost use Rattle.irtree_shape.specs.Loose.{IsStanding};
ghost use Rattle.irtree_shape.specs.Damages.{IsTreeHarm};
ghost use Rattle.irtree_insert.specs.Roots.{Stands};
ghost use Rattle.split_condense.specs.Orphans.{loose_in};

use crate::Orphan;
use irtree_insert::insert_at;
use node_inverted::Tree;
use page_face::{PageFault, Pages};
use split_policy::SplitPolicy;
use std::alloc::Global;

/// Puts all orphans back with their words, the last one first, each into a node of its own level. The tree has a new root if the old
/// one was split. Refuses as `insert_at` does, and costs an insertion for each orphan.
pub(crate) fn put_back<P: Pages>(
    alloc: Global,
    pages: &mut P,
    tree: &mut Tree,
    policy: &mut dyn SplitPolicy,
    orphans: &mut Vec<Orphan>,
) -> Result<(), PageFault>
    ensures standing { (before : View) (free : List ℕ) (level : ℕ) (mine : ℕ → ℕ) (sums : (Item → ℕ) → ℕ) → IsSupplied before
        → IsStanding node_of before (view (P.pages pages.old) tree.old.rows (P.count pages.old) (P.first pages.old) free) level tree.old.root (loose_in orphans.old.items) mine sums
        → OnOk result (Stands before (P.pages pages.new) tree.new.rows (P.count pages.new) (P.first pages.new) tree.new.root [] mine sums) }
    ensures no_false_damage { (before : View) (free : List ℕ) (level : ℕ) (mine : ℕ → ℕ) (sums : (Item → ℕ) → ℕ) → IsSupplied before
        → IsStanding node_of before (view (P.pages pages.old) tree.old.rows (P.count pages.old) (P.first pages.old) free) level tree.old.root (loose_in orphans.old.items) mine sums
        → AreReadable before.pages before.count → (damage : Damage) → result ≢ Err (PageFault.Damaged damage) }
    ensures damaged { AreReadable (P.pages pages.old) (P.count pages.old) → (damage : Damage) → IsErrOf result (PageFault.Damaged damage)
        → IsTreeHarm (P.pages pages.new) (P.count pages.new) (P.first pages.new) tree.new.rows (P.asked pages.old) (P.asked pages.new) damage }
    ensures told { AreReadable (P.pages pages.old) (P.count pages.old) → OnOk result (AreReadable (P.pages pages.new) (P.count pages.new)) }
    ensures more { AreReadable (P.pages pages.old) (P.count pages.old) → AsksOnly (λ _. 1) (P.asked pages.old) (P.asked pages.new) }
    ensures fails { FailsChanging P.Pages pages.old pages.new result }
    ensures frame { Changes P.Pages pages.old pages.new }
{
    while let Some(orphan) = orphans.pop() {
        match insert_at(
            alloc,
            pages,
            tree,
            policy,
            orphan.level,
            &orphan.slot,
            &orphan.words,
        ) {
            Ok(()) => {}
            Err(fault) => return Err(fault),
        }
    }
    Ok(())
}
