//! An item that is put into a tree, with its words.
ghost use Rattle.std.specs.Prelude.{◌≡◌, ◌≢◌, ◌<◌, ◌≤◌, ◌∷◌, ℕ, List, Some, None, option_map, IfOk, OnOk, OnErr, IsErrOf};
ghost use Rattle.page_face.specs.Calls.{FailsChanging, Changes};
ghost use Rattle.btree_nodes.specs.Damages.{AreReadable, AsksOnly};
ghost use Rattle.rtree_nodes.specs.Slots.{Item};
ghost use Rattle.rtree_nodes.specs.Stock.{View, view};
ghost use Rattle.rtree_nodes.specs.Made.{Rises};
ghost use Rattle.rtree_nodes.specs.Loose.{Loose};
ghost use Rattle.rtree_nodes.specs.Reach.{reach_of, item_of};
ghost use Rattle.rtree_nodes.specs.Pages.{node_of};
ghost use Rattle.node_rows.specs.Impacts.{impact_in};
ghost use Rattle.irtree_shape.specs.Words.{worded};
ghost use Rattle.irtree_shape.specs.Stock.{IsSupplied};
ghost use Rattle.irtree_shape.specs.Made.{nodes_in, IsOpen, Puts};
ghost use Rattle.irtree_shape.specs.Whole.{IsWhole, IsPlanted};
ghost use Rattle.irtree_shape.specs.Loose.{IsStanding};
ghost use Rattle.irtree_shape.specs.Damages.{IsTreeHarm};
ghost use Rattle.irtree_shape.specs.Steps.{bounding_child_in};
ghost use Rattle.irtree_insert.specs.Fits.{Fits};
ghost use Rattle.irtree_insert.specs.Grown.{beside_item};
ghost use Rattle.irtree_insert.specs.Roots.{Stands};

use crate::draft::Draft;
use crate::fetch::{damaged, fetch};
use crate::grown::Grown;
use crate::put::put_below;
use crate::root::{first_leaf, raise_root};
use node_inverted::Tree;
use page_face::{Damage, PageFault, Pages, Rule};
use rtree_nodes::{LEVEL_MAX, Slot};
use split_policy::SplitPolicy;
use std::alloc::Global;

// What putting an item in has made of a root, and the root's level.
#[derive(Clone, Copy)]
struct Climbed {
    level: u8,
    grown: Grown,
}

// Puts an item in below a root, whose level its page gives.
fn climb<P: Pages>(
    alloc: Global,
    pages: &mut P,
    tree: &mut Tree,
    root: u32,
    policy: &mut dyn SplitPolicy,
    goal: u8,
    slot: &Slot,
    words: &[(u64, u8)],
) -> Result<Climbed, PageFault>
    ensures made { (least level : ℕ) (free : List ℕ) → IsOpen node_of (view (P.pages pages.old) tree.old.rows (P.count pages.old) (P.first pages.old) free) least level root goal (worded (impact_in words.now) (item_of slot.now)) → Fits goal slot.now
        → IfOk result (λ c. (c.level ≡ level) × Puts node_of (view (P.pages pages.old) tree.old.rows (P.count pages.old) (P.first pages.old) free) (P.pages pages.new) tree.new.rows (P.count pages.new) (P.first pages.new) least level root
        goal (worded (impact_in words.now) (item_of slot.now)) (bounding_child_in (nodes_in node_of (P.pages pages.new) tree.new.rows) (option_map beside_item c.grown.more)) (reach_of c.grown.rect) (Rises ((SplitPolicy-dyn policy.old).count policy.old.1) ((SplitPolicy-dyn policy.new).count policy.new.1))) }
    ensures low { IfOk result (λ c. c.level ≤ 9) }
    ensures root { tree.new.root ≡ tree.old.root }

    ensures no_false_damage { (least level : ℕ) (free : List ℕ) → IsOpen node_of (view (P.pages pages.old) tree.old.rows (P.count pages.old) (P.first pages.old) free) least level root goal (worded (impact_in words.now) (item_of slot.now)) → Fits goal slot.now → AreReadable (P.pages pages.old) (P.count pages.old) → (damage : Damage) → result ≢ Err (PageFault.Damaged damage) }
    ensures damaged { AreReadable (P.pages pages.old) (P.count pages.old) → (damage : Damage) → IsErrOf result (PageFault.Damaged damage)
        → IsTreeHarm (P.pages pages.new) (P.count pages.new) (P.first pages.new) tree.new.rows (P.asked pages.old) (P.asked pages.new) damage }
    ensures told { AreReadable (P.pages pages.old) (P.count pages.old) → OnOk result (AreReadable (P.pages pages.new) (P.count pages.new)) }
    ensures more { AreReadable (P.pages pages.old) (P.count pages.old) → AsksOnly (λ _. 1) (P.asked pages.old) (P.asked pages.new) }
    ensures fails { FailsChanging P.Pages pages.old pages.new result }
    ensures frame { Changes P.Pages pages.old pages.new }
{
    // Read because the number of pages is known to fit a u32 only at this place.
    let _counted = pages.counted();
    let mut draft = Draft::blank();
    let level = match fetch(pages, root, &mut draft) {
        Ok(level) => level,
        Err(fault) => return Err(fault),
    };
    if level > LEVEL_MAX {
        return Err(damaged(root, Rule::Level));
    }
    match put_below(
        alloc, pages, tree, policy, root, &mut draft, level, goal, slot, words,
    ) {
        Ok(grown) => Ok(Climbed { level, grown }),
        Err(fault) => Err(fault),
    }
}

// Puts an item into a tree that has a root, and returns its root.
fn insert_below<P: Pages>(
    alloc: Global,
    pages: &mut P,
    tree: &mut Tree,
    policy: &mut dyn SplitPolicy,
    goal: u8,
    slot: &Slot,
    words: &[(u64, u8)],
) -> Result<u32, PageFault>
    ensures planted { (free : List ℕ) → goal ≡ 0 → 0 < tree.old.root → Fits goal slot.now → IsWhole node_of (view (P.pages pages.old) tree.old.rows (P.count pages.old) (P.first pages.old) free) tree.old.root
        → IfOk result (λ top. IsPlanted node_of (view (P.pages pages.old) tree.old.rows (P.count pages.old) (P.first pages.old) free) (P.pages pages.new) tree.new.rows (P.count pages.new) (P.first pages.new) tree.old.root top (worded (impact_in words.now) (item_of slot.now)) (Rises ((SplitPolicy-dyn policy.old).count policy.old.1) ((SplitPolicy-dyn policy.new).count policy.new.1))) }
    ensures standing { (before : View) (free : List ℕ) (level : ℕ) (rest : Loose) (mine : ℕ → ℕ) (sums : (Item → ℕ) → ℕ) → IsSupplied before
        → IsStanding node_of before (view (P.pages pages.old) tree.old.rows (P.count pages.old) (P.first pages.old) free) level tree.old.root ((goal, (worded (impact_in words.now) (item_of slot.now))) ∷ rest) mine sums → Fits goal slot.now
        → IfOk result (λ top. Stands before (P.pages pages.new) tree.new.rows (P.count pages.new) (P.first pages.new) top rest mine sums) }
    ensures root { tree.new.root ≡ tree.old.root }

    ensures no_false_damage { (free : List ℕ) → goal ≡ 0 → 0 < tree.old.root → Fits goal slot.now → IsWhole node_of (view (P.pages pages.old) tree.old.rows (P.count pages.old) (P.first pages.old) free) tree.old.root → AreReadable (P.pages pages.old) (P.count pages.old) → (damage : Damage) → result ≢ Err (PageFault.Damaged damage) }
    ensures no_false_damage_standing { (before : View) (free : List ℕ) (level : ℕ) (rest : Loose) (mine : ℕ → ℕ) (sums : (Item → ℕ) → ℕ) → IsSupplied before
        → IsStanding node_of before (view (P.pages pages.old) tree.old.rows (P.count pages.old) (P.first pages.old) free) level tree.old.root ((goal, (worded (impact_in words.now) (item_of slot.now))) ∷ rest) mine sums → Fits goal slot.now → AreReadable (P.pages pages.old) (P.count pages.old) → (damage : Damage) → result ≢ Err (PageFault.Damaged damage) }
    ensures damaged { AreReadable (P.pages pages.old) (P.count pages.old) → (damage : Damage) → IsErrOf result (PageFault.Damaged damage)
        → IsTreeHarm (P.pages pages.new) (P.count pages.new) (P.first pages.new) tree.new.rows (P.asked pages.old) (P.asked pages.new) damage }
    ensures told { AreReadable (P.pages pages.old) (P.count pages.old) → OnOk result (AreReadable (P.pages pages.new) (P.count pages.new)) }
    ensures more { AreReadable (P.pages pages.old) (P.count pages.old) → AsksOnly (λ _. 1) (P.asked pages.old) (P.asked pages.new) }
    ensures fails { FailsChanging P.Pages pages.old pages.new result }
    ensures frame { Changes P.Pages pages.old pages.new }
{
    let root = tree.root;
    let climbed = climb(alloc, pages, tree, root, policy, goal, slot, words)?;
    match &climbed.grown.more {
        None => Ok(root),
        Some(more) => raise_root(pages, tree, root, climbed.level, &climbed.grown.rect, more),
    }
}

/// Puts an item with its words into a node of level `goal` of a tree, and sets the tree's root and that of its rows. A place goes to level
/// 0. Root 0 is the empty tree, whose first leaf takes a place.
///
/// The policy chooses the way and the splits. It gets the number of words that the item shares with each slot, and the slots with each
/// other. `words` are the item's words, each by its number, with their greatest impacts.
///
/// It reads each node on the way once, and a row for each word there. On the way back a node is written if its own slots changed, once, and
/// a row if a word rises. A split goes through the rows of the node and of the new one, takes a page, and writes the rows of the entries
/// that move. In the node above the two, it reads a row for each word of the new node, and writes it if it changes.
///
/// Refuses `Damaged` for a page on the way: `Link` if it is 0 or isn't counted, `Kind` if it isn't a node's, `Fill` if it has no slot.
/// `Value` is for a point or rectangle that is none. `Level` is for a page that isn't of the level that its place requires, or for a root
/// above level 9. Refuses `Damaged` also as the rows' calls do. Over readable pages it names a page that was requested and breaks the rule
/// so, except for a refused take. On a well-formed tree whose pages are readable no page is damaged.
///
/// Refuses as `take` does, `NoRoom` among it, `Disk`, `Stopped` and `Memory`. After a failure the tree's root is as before. Its root of
/// rows and the pages are as the call left them: they are to be abandoned.
pub fn insert_at<P: Pages>(
    alloc: Global,
    pages: &mut P,
    tree: &mut Tree,
    policy: &mut dyn SplitPolicy,
    goal: u8,
    slot: &Slot,
    words: &[(u64, u8)],
) -> Result<(), PageFault>
    ensures planted { (free : List ℕ) → goal ≡ 0 → Fits goal slot.now → IsWhole node_of (view (P.pages pages.old) tree.old.rows (P.count pages.old) (P.first pages.old) free) tree.old.root
        → OnOk result (IsPlanted node_of (view (P.pages pages.old) tree.old.rows (P.count pages.old) (P.first pages.old) free) (P.pages pages.new) tree.new.rows (P.count pages.new) (P.first pages.new) tree.old.root tree.new.root (worded (impact_in words.now) (item_of slot.now)) (Rises ((SplitPolicy-dyn policy.old).count policy.old.1) ((SplitPolicy-dyn policy.new).count policy.new.1))) }

    // A loose item is put back at its level.
    ensures standing { (before : View) (free : List ℕ) (level : ℕ) (rest : Loose) (mine : ℕ → ℕ) (sums : (Item → ℕ) → ℕ) → IsSupplied before
        → IsStanding node_of before (view (P.pages pages.old) tree.old.rows (P.count pages.old) (P.first pages.old) free) level tree.old.root ((goal, (worded (impact_in words.now) (item_of slot.now))) ∷ rest) mine sums → Fits goal slot.now
        → OnOk result (Stands before (P.pages pages.new) tree.new.rows (P.count pages.new) (P.first pages.new) tree.new.root rest mine sums) }
    ensures root { OnErr result (tree.new.root ≡ tree.old.root) }

    // On a well-formed tree, or while loose items are put back, no page is damaged.
    ensures no_false_damage { (free : List ℕ) → goal ≡ 0 → Fits goal slot.now → IsWhole node_of (view (P.pages pages.old) tree.old.rows (P.count pages.old) (P.first pages.old) free) tree.old.root → AreReadable (P.pages pages.old) (P.count pages.old) → (damage : Damage) → result ≢ Err (PageFault.Damaged damage) }
    ensures no_false_damage_standing { (before : View) (free : List ℕ) (level : ℕ) (rest : Loose) (mine : ℕ → ℕ) (sums : (Item → ℕ) → ℕ) → IsSupplied before
        → IsStanding node_of before (view (P.pages pages.old) tree.old.rows (P.count pages.old) (P.first pages.old) free) level tree.old.root ((goal, (worded (impact_in words.now) (item_of slot.now))) ∷ rest) mine sums → Fits goal slot.now → AreReadable (P.pages pages.old) (P.count pages.old) → (damage : Damage) → result ≢ Err (PageFault.Damaged damage) }

    // Over readable pages a damage is of a page that was requested, as the call leaves it, or of the take that was refused.
    ensures damaged { AreReadable (P.pages pages.old) (P.count pages.old) → (damage : Damage) → IsErrOf result (PageFault.Damaged damage)
        → IsTreeHarm (P.pages pages.new) (P.count pages.new) (P.first pages.new) tree.new.rows (P.asked pages.old) (P.asked pages.new) damage }
    ensures told { AreReadable (P.pages pages.old) (P.count pages.old) → OnOk result (AreReadable (P.pages pages.new) (P.count pages.new)) }
    ensures more { AreReadable (P.pages pages.old) (P.count pages.old) → AsksOnly (λ _. 1) (P.asked pages.old) (P.asked pages.new) }
    ensures fails { FailsChanging P.Pages pages.old pages.new result }
    ensures frame { Changes P.Pages pages.old pages.new }
{
    if tree.root == 0 {
        let root = first_leaf(pages, tree, slot, words)?;
        tree.root = root;
        return Ok(());
    }
    let root = insert_below(alloc, pages, tree, policy, goal, slot, words)?;
    tree.root = root;
    Ok(())
}
