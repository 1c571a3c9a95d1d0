//! Roots: the first leaf of a tree, and a root above two nodes.
ghost use Rattle.std.specs.Prelude.{◌≡◌, ◌≢◌, ◌<◌, ℕ, suc, List, Some, None, true, IfOk, OnOk, IsErrOf};
ghost use Rattle.page_face.specs.Calls.{FailsChanging, Changes};
ghost use Rattle.btree_nodes.specs.Damages.{AreReadable, AsksOnly};
ghost use Rattle.rtree_nodes.specs.Slots.{Item};
ghost use Rattle.rtree_nodes.specs.Trees.{stand_uses};
ghost use Rattle.rtree_nodes.specs.Heads.{stand_heads};
ghost use Rattle.rtree_nodes.specs.Stock.{view};
ghost use Rattle.rtree_nodes.specs.Reach.{reach_of, item_of, is_place};
ghost use Rattle.rtree_nodes.specs.Pages.{node_of};
ghost use Rattle.node_rows.specs.Damages.{IsRowsHarm};
ghost use Rattle.node_rows.specs.Impacts.{impact_in};
ghost use Rattle.irtree_shape.specs.Words.{worded};
ghost use Rattle.irtree_shape.specs.Made.{nodes_in, IsMade, IsRaised};
ghost use Rattle.irtree_shape.specs.Whole.{IsWhole, IsPlanted};
ghost use Rattle.irtree_shape.specs.Steps.{bounding_child};
ghost use Rattle.irtree_insert.specs.Grown.{beside_item};

use crate::grown::Beside;
use crate::store::store_new;
use node_inverted::{Tree, raise, refresh};
use page_face::{Damage, PageFault, Pages};
use rtree_nodes::{Slot, new_node, put_slot};
use spatial_base::Rect;

/// Makes a root above a node of level `level` that was split, with the words below both, and returns it. `rect` is the least rectangle
/// round the node at `root`, and `more` the node beside it. It takes a page and writes it, and goes through the rows of both nodes.
///
/// Refuses as `take` and the rows' calls do, `Damaged` among it, `NoRoom`, `Disk`, `Stopped` and `Memory`.
pub(crate) fn raise_root<P: Pages>(
    pages: &mut P,
    tree: &mut Tree,
    root: u32,
    level: u8,
    rect: &Rect,
    more: &Beside,
) -> Result<u32, PageFault>
    requires level { level < 255 }
    ensures made { (free : List ℕ) (sums : (Item → ℕ) → ℕ) (wide : ℕ → ℕ) (least : ℕ) → IsRaised node_of (view (P.pages pages.old) tree.old.rows (P.count pages.old) (P.first pages.old) free) least level root (bounding_child (nodes_in node_of (P.pages pages.old) tree.old.rows) (beside_item more.now)) sums wide (reach_of rect.now)
        → IfOk result (λ top. IsMade node_of (view (P.pages pages.old) tree.old.rows (P.count pages.old) (P.first pages.old) free) (P.pages pages.new) tree.new.rows (P.count pages.new) (P.first pages.new) 2 (suc level) top
        (λ n. stand_uses (nodes_in node_of (P.pages pages.old) tree.old.rows) level root (Some (bounding_child (nodes_in node_of (P.pages pages.old) tree.old.rows) (beside_item more.now))) n) None sums (λ g. stand_heads (nodes_in node_of (P.pages pages.old) tree.old.rows) g level root (Some (bounding_child (nodes_in node_of (P.pages pages.old) tree.old.rows) (beside_item more.now)))) wide wide (λ n. n ≡ 1)) }
    ensures some { IfOk result (λ top. 0 < top) }
    ensures root { tree.new.root ≡ tree.old.root }

    ensures no_false_damage { (free : List ℕ) (sums : (Item → ℕ) → ℕ) (wide : ℕ → ℕ) (least : ℕ) → IsRaised node_of (view (P.pages pages.old) tree.old.rows (P.count pages.old) (P.first pages.old) free) least level root (bounding_child (nodes_in node_of (P.pages pages.old) tree.old.rows) (beside_item more.now)) sums wide (reach_of rect.now)
        → AreReadable (P.pages pages.old) (P.count pages.old) → (damage : Damage) → result ≢ Err (PageFault.Damaged damage) }
    ensures damaged { AreReadable (P.pages pages.old) (P.count pages.old) → (damage : Damage) → IsErrOf result (PageFault.Damaged damage)
        → IsRowsHarm (P.pages pages.new) (P.count pages.new) (P.first pages.new) tree.new.rows (P.asked pages.old) (P.asked pages.new) damage }
    ensures told { AreReadable (P.pages pages.old) (P.count pages.old) → OnOk result (AreReadable (P.pages pages.new) (P.count pages.new)) }
    ensures more { AreReadable (P.pages pages.old) (P.count pages.old) → AsksOnly (λ _. 1) (P.asked pages.old) (P.asked pages.new) }
    ensures fails { FailsChanging P.Pages pages.old pages.new result }
    ensures frame { Changes P.Pages pages.old pages.new }
{
    let mut bytes = new_node(level + 1);
    let left = Slot::Child {
        rect: *rect,
        page: root,
    };
    put_slot(&mut bytes, 0, &left);
    put_slot(&mut bytes, 1, &more.slot());
    let top = store_new(pages, &bytes)?;
    refresh(pages, tree, top, 0, root)?;
    refresh(pages, tree, top, 1, more.page)?;
    Ok(top)
}

/// Makes the first leaf of an empty tree, with one place and its words, and returns it. It takes a page and writes it, and the rows
/// of the words.
///
/// Refuses as `take` and `raise` do.
pub(crate) fn first_leaf<P: Pages>(
    pages: &mut P,
    tree: &mut Tree,
    slot: &Slot,
    words: &[(u64, u8)],
) -> Result<u32, PageFault>
    ensures planted { (free : List ℕ) → is_place slot.now ≡ true → IsWhole node_of (view (P.pages pages.old) tree.old.rows (P.count pages.old) (P.first pages.old) free) 0
        → IfOk result (λ top. IsPlanted node_of (view (P.pages pages.old) tree.old.rows (P.count pages.old) (P.first pages.old) free) (P.pages pages.new) tree.new.rows (P.count pages.new) (P.first pages.new) 0 top (worded (impact_in words.now) (item_of slot.now)) (λ n. n ≡ 0)) }
    ensures some { IfOk result (λ top. 0 < top) }
    ensures root { tree.new.root ≡ tree.old.root }

    ensures no_false_damage { (free : List ℕ) → IsWhole node_of (view (P.pages pages.old) tree.old.rows (P.count pages.old) (P.first pages.old) free) 0 → AreReadable (P.pages pages.old) (P.count pages.old) → (damage : Damage) → result ≢ Err (PageFault.Damaged damage) }
    ensures damaged { AreReadable (P.pages pages.old) (P.count pages.old) → (damage : Damage) → IsErrOf result (PageFault.Damaged damage)
        → IsRowsHarm (P.pages pages.new) (P.count pages.new) (P.first pages.new) tree.new.rows (P.asked pages.old) (P.asked pages.new) damage }
    ensures told { AreReadable (P.pages pages.old) (P.count pages.old) → OnOk result (AreReadable (P.pages pages.new) (P.count pages.new)) }
    ensures more { AreReadable (P.pages pages.old) (P.count pages.old) → AsksOnly (λ _. 1) (P.asked pages.old) (P.asked pages.new) }
    ensures fails { FailsChanging P.Pages pages.old pages.new result }
    ensures frame { Changes P.Pages pages.old pages.new }
{
    let mut bytes = new_node(0);
    put_slot(&mut bytes, 0, slot);
    let top = store_new(pages, &bytes)?;
    raise(pages, tree, top, 0, words)?;
    Ok(top)
}
