//! An entry that is taken out of a tree.
ghost use Rattle.std.specs.Prelude.{◌≡◌, ◌≢◌, ◌<◌, ◌≤◌, ◌+◌, ◌⊎◌, ℕ, suc, List, length, OnOk, IsErrOf, MatchOption};
ghost use Rattle.page_face.specs.Calls.{FailsChanging, Changes};
ghost use Rattle.page_face.specs.declared.fault.Damage.{Damage};
ghost use Rattle.btree_nodes.specs.Damages.{AreReadable, AsksOnly};
ghost use Rattle.rtree_nodes.specs.Slots.{Item};
ghost use Rattle.rtree_nodes.specs.Stock.{view};
ghost use Rattle.rtree_nodes.specs.Loose.{Leads};
ghost use Rattle.rtree_nodes.specs.Pages.{node_of};
ghost use Rattle.rtree_nodes.specs.Ways.{IsWay};
ghost use Rattle.node_rows.specs.Impacts.{impact_in};
ghost use Rattle.irtree_shape.specs.Words.{worded};
ghost use Rattle.irtree_shape.specs.Made.{nodes_in};
ghost use Rattle.irtree_shape.specs.Whole.{level_at, IsWhole, IsFelled};
ghost use Rattle.irtree_shape.specs.Damages.{IsTreeHarm};

use crate::Orphan;
use crate::lowering::lower_root;
use crate::putting::put_back;
use crate::taking::take_out;
use btree_nodes::damaged;
use node_inverted::Tree;
use page_face::{PageFault, Pages, Rule};
use rtree_nodes::LEVEL_MAX;
use split_policy::SplitPolicy;
use std::alloc::Global;

// The level of the root that a path starts at, or `None` if the path has no slot, or more than a tree has levels.
fn level_of(path: &[u8]) -> Option<u8>
    ensures { MatchOption result ((length path.now ≡ 0) ⊎ (10 < length path.now)) (λ level. length path.now ≡ level + 1) }
{
    if path.is_empty() || path.len() > usize::from(LEVEL_MAX) + 1 {
        return None;
    }
    Some((path.len() - 1) as u8)
}

// Takes the entry out, puts the items of dissolved nodes back, and lowers the root. After a refusal `tree` has no meaning.
fn remove_from<P: Pages>(
    alloc: Global,
    pages: &mut P,
    tree: &mut Tree,
    policy: &mut dyn SplitPolicy,
    level: u8,
    path: &[u8],
    words: &[(u64, u8)],
) -> Result<(), PageFault>
    requires path { level < length path.now }
    ensures felled { (free : List ℕ) (x : Item) → IsWhole node_of (view (P.pages pages.old) tree.old.rows (P.count pages.old) (P.first pages.old) free) tree.old.root
        → Leads (nodes_in node_of (P.pages pages.old) tree.old.rows) path.now (level_at (nodes_in node_of (P.pages pages.old) tree.old.rows) tree.old.root) tree.old.root (worded (impact_in words.now) x)
        → OnOk result (IsFelled node_of (view (P.pages pages.old) tree.old.rows (P.count pages.old) (P.first pages.old) free) (P.pages pages.new) tree.new.rows (P.count pages.new) (P.first pages.new) tree.old.root tree.new.root (worded (impact_in words.now) x)) }
    ensures no_false_damage { (free : List ℕ) (x : Item) → IsWhole node_of (view (P.pages pages.old) tree.old.rows (P.count pages.old) (P.first pages.old) free) tree.old.root → 0 < tree.old.root
        → Leads (nodes_in node_of (P.pages pages.old) tree.old.rows) path.now (level_at (nodes_in node_of (P.pages pages.old) tree.old.rows) tree.old.root) tree.old.root (worded (impact_in words.now) x)
        → level ≡ level_at (nodes_in node_of (P.pages pages.old) tree.old.rows) tree.old.root → AreReadable (P.pages pages.old) (P.count pages.old)
        → (damage : Damage) → result ≢ Err (PageFault.Damaged damage) }
    ensures damaged { AreReadable (P.pages pages.old) (P.count pages.old) → IsWay (P.pages pages.old) path.now level tree.old.root → (damage : Damage) → IsErrOf result (PageFault.Damaged damage)
        → IsTreeHarm (P.pages pages.new) (P.count pages.new) (P.first pages.new) tree.new.rows (P.asked pages.old) (P.asked pages.new) damage }
    ensures told { AreReadable (P.pages pages.old) (P.count pages.old) → OnOk result (AreReadable (P.pages pages.new) (P.count pages.new)) }
    ensures more { AreReadable (P.pages pages.old) (P.count pages.old) → AsksOnly (λ _. 1) (P.asked pages.old) (P.asked pages.new) }
    ensures fails { FailsChanging P.Pages pages.old pages.new result }
    ensures frame { Changes P.Pages pages.old pages.new }
{
    let root = tree.root;
    let mut orphans = Vec::new(alloc);
    match take_out(
        alloc,
        pages,
        tree,
        root,
        level,
        1,
        path,
        words,
        &mut orphans,
    ) {
        Ok(Some(_)) => {}
        Ok(None) => {
            // No item was let go: it would be below no root.
            let is_none_left = orphans.is_empty();
            prove!(is_none_left);
            tree.root = 0;
            return Ok(());
        }
        Err(fault) => return Err(fault),
    }
    match put_back(alloc, pages, tree, policy, &mut orphans) {
        Ok(()) => lower_root(alloc, pages, tree),
        Err(fault) => Err(fault),
    }
}

/// Takes the entry of these words at the end of a path out of a tree. The tree's root is 0 then if no entry is left.
///
/// `path` has the number of a slot for each level: `path[l]` is the slot at level `l`, and the last one that of the root. `words` are the
/// entry's, each by its number, with its impact. Nodes of which fewer than 12 slots are left are dissolved. Their items are put back with
/// their words into nodes of their own level (Guttman 1984, `CondenseTree`), and `policy` decides how a node is split. An inner root of
/// which one child is left gives way to it.
///
/// Refuses `Damaged` with `Level` at the root if the path has no slot or more than ten. Then, before anything is written, refuses `Damaged`
/// at a page on the path:
///
/// - with `Link` if it isn't counted;
/// - with the first rule of a node's page that it breaks;
/// - with `Level` if it isn't of its level, so at the root if the path isn't as long as the tree has levels;
/// - with `Fill` if it is an inner node of one child;
/// - with `Value` if its slot on the path isn't used.
///
/// After that it refuses `Damaged` as the rows' calls and `insert_at` do, and in the end with `Link`, `Kind` or `Fill` at the root that is
/// left. If the path leads down by the bytes of readable pages, a damage has one of two causes. It is of a page that was requested and
/// breaks the rule as the call leaves it, or a take was refused for it.
///
/// Refuses also `Disk`, `NoRoom`, `Stopped` and `Memory`. After a refusal `tree` and the pages are as the call left them, and are to be
/// abandoned.
///
/// Reads one page a level, decodes it once, and writes one at most. Costs two rows for each of the words a level, or a call of `refresh`
/// above nodes that are dissolved, and an insertion for each item of a dissolved node.
pub fn remove_at<P: Pages>(
    alloc: Global,
    pages: &mut P,
    tree: &mut Tree,
    policy: &mut dyn SplitPolicy,
    path: &[u8],
    words: &[(u64, u8)],
) -> Result<(), PageFault>
    ensures felled { (free : List ℕ) (x : Item) → IsWhole node_of (view (P.pages pages.old) tree.old.rows (P.count pages.old) (P.first pages.old) free) tree.old.root
        → Leads (nodes_in node_of (P.pages pages.old) tree.old.rows) path.now (level_at (nodes_in node_of (P.pages pages.old) tree.old.rows) tree.old.root) tree.old.root (worded (impact_in words.now) x)
        → OnOk result (IsFelled node_of (view (P.pages pages.old) tree.old.rows (P.count pages.old) (P.first pages.old) free) (P.pages pages.new) tree.new.rows (P.count pages.new) (P.first pages.new) tree.old.root tree.new.root (worded (impact_in words.now) x)) }

    // On a well-formed tree whose pages are readable no page is damaged.
    ensures no_false_damage { (free : List ℕ) (x : Item) → IsWhole node_of (view (P.pages pages.old) tree.old.rows (P.count pages.old) (P.first pages.old) free) tree.old.root → 0 < tree.old.root
        → Leads (nodes_in node_of (P.pages pages.old) tree.old.rows) path.now (level_at (nodes_in node_of (P.pages pages.old) tree.old.rows) tree.old.root) tree.old.root (worded (impact_in words.now) x)
        → length path.now ≡ suc (level_at (nodes_in node_of (P.pages pages.old) tree.old.rows) tree.old.root) → AreReadable (P.pages pages.old) (P.count pages.old)
        → (damage : Damage) → result ≢ Err (PageFault.Damaged damage) }

    // Over readable pages by whose bytes the path leads down from the root: a damage is of a requested page, as the call leaves it, or of
    // the refused take.
    ensures damaged { (level : ℕ) → AreReadable (P.pages pages.old) (P.count pages.old) → length path.now ≡ suc level → level ≤ 9 → IsWay (P.pages pages.old) path.now level tree.old.root → (damage : Damage) → IsErrOf result (PageFault.Damaged damage) → IsTreeHarm (P.pages pages.new) (P.count pages.new) (P.first pages.new) tree.new.rows (P.asked pages.old) (P.asked pages.new) damage }
    ensures told { AreReadable (P.pages pages.old) (P.count pages.old) → OnOk result (AreReadable (P.pages pages.new) (P.count pages.new)) }
    ensures more { AreReadable (P.pages pages.old) (P.count pages.old) → AsksOnly (λ _. 1) (P.asked pages.old) (P.asked pages.new) }
    ensures fails { FailsChanging P.Pages pages.old pages.new result }
    ensures frame { Changes P.Pages pages.old pages.new }
{
    let _counted = pages.counted();
    let level = match level_of(path) {
        Some(level) => level,
        None => return Err(damaged(tree.root, Rule::Level)),
    };
    remove_from(alloc, pages, tree, policy, level, path, words)
}
