//! The whole tree.
ghost use Rattle.std.specs.Prelude.{◌≡◌, ℕ, ◌+◌, ◌++◌, OnOk, IsErrOf};
ghost use Rattle.page_face.specs.Calls.{Reads, FailsReading};
ghost use Rattle.page_face.specs.Causes.{IsUncounted};
ghost use Rattle.btree_nodes.specs.Damages.{AreReadable};
ghost use Rattle.page_walks.specs.Met.{held};
ghost use Rattle.rtree_nodes.specs.Pages.{node_of};
ghost use Rattle.rtree_nodes.specs.Whole.{IsWell, tree_uses};
ghost use Rattle.tree_check.specs.Nodes.{tree_pages};
ghost use Rattle.tree_check.specs.Damages.{IsBrokenTree, IsWholeTree};

use crate::node::root_least;
use crate::walk::walk_node;
use btree_nodes::damaged;
use page_face::{Damage, PageFault, Pages, Rule};
use page_walks::enter;
use rtree_nodes::{LEVEL_MAX, header};
use std::collections::BTreeSet;

// Walks the tree at a root, and returns the first damage.
fn walk_tree<P: Pages>(
    pages: &mut P,
    root: u32,
    met: &mut BTreeSet<u32>,
    list: &mut Vec<u32>,
) -> Result<(), PageFault>
    ensures tree { AreReadable (P.pages pages.old) (P.count pages.old) → OnOk result (IsWell node_of (P.pages pages.old) root) }
    ensures counted { AreReadable (P.pages pages.old) (P.count pages.old)
        → OnOk result ((n : ℕ) → IsUncounted (P.count pages.old) n → tree_uses node_of (P.pages pages.old) root n ≡ 0) }
    ensures met { AreReadable (P.pages pages.old) (P.count pages.old)
        → OnOk result ((n : ℕ) → held met.new n ≡ held met.old n + tree_uses node_of (P.pages pages.old) root n) }
    ensures list { AreReadable (P.pages pages.old) (P.count pages.old) → OnOk result (list.new.items ≡ list.old.items ++ tree_pages (P.pages pages.old) root) }
    ensures damaged { AreReadable (P.pages pages.old) (P.count pages.old) → (damage : Damage) → IsErrOf result (PageFault.Damaged damage)
        → IsBrokenTree (P.pages pages.old) (P.count pages.old) (held met.old) root damage }
    ensures fails { FailsReading P.Pages pages.old pages.new result }
    ensures frame { Reads P.Pages pages.old pages.new }
{
    if root == 0 {
        return Ok(());
    }
    match enter(pages, root, met) {
        Ok(()) => {}
        Err(fault) => return Err(fault),
    }
    let bytes = *pages.looked();
    let level = match header(&bytes) {
        Ok(head) => head.level,
        Err(rule) => return Err(damaged(root, rule)),
    };
    if level > LEVEL_MAX {
        return Err(damaged(root, Rule::Level));
    }
    let least = root_least(level);
    match walk_node(pages, root, &bytes, level, least, met, list) {
        Ok(_rect) => Ok(()),
        Err(fault) => Err(fault),
    }
}

/// Walks the nodes of the tree at a root, each once, and decides whether they are an R-tree on pages that weren't met before.
///
/// A root of 0 is the empty tree, for which no page is read. The tree's pages join those met and the list, each after those below it.
///
/// Refuses `Damaged` exactly if the tree isn't whole, with a rule that is broken at the page that is named. It is `Link` if the page is 0
/// or isn't counted, `Shared` if it was met before, `Kind` if it isn't a node's, and `Spare` if a spare byte isn't 0. It is `Fill` if a
/// node has fewer than 12 items, or a root fewer than it needs. It is `Value` if a slot isn't of its form, `Level` if a child isn't one
/// level below its parent or the root is above level 9, and `Rect` if a rectangle of the page isn't the least one. Refuses also `Disk`,
/// `Stopped` and `Memory`. After a refusal some pages may have joined those met and the list.
///
/// Looks at each page of the tree once, and keeps a copy of it for each level. Takes memory for two numbers a page.
pub fn check_nodes<P: Pages>(
    pages: &mut P,
    root: u32,
    met: &mut BTreeSet<u32>,
    list: &mut Vec<u32>,
) -> Result<(), PageFault>
    ensures tree { AreReadable (P.pages pages.old) (P.count pages.old) → OnOk result (IsWell node_of (P.pages pages.old) root) }
    ensures counted { AreReadable (P.pages pages.old) (P.count pages.old)
        → OnOk result ((n : ℕ) → IsUncounted (P.count pages.old) n → tree_uses node_of (P.pages pages.old) root n ≡ 0) }
    ensures met { AreReadable (P.pages pages.old) (P.count pages.old)
        → OnOk result ((n : ℕ) → held met.new n ≡ held met.old n + tree_uses node_of (P.pages pages.old) root n) }
    ensures list { AreReadable (P.pages pages.old) (P.count pages.old) → OnOk result (list.new.items ≡ list.old.items ++ tree_pages (P.pages pages.old) root) }

    // What is named is broken there, and so the tree isn't whole.
    ensures damaged { AreReadable (P.pages pages.old) (P.count pages.old) → (damage : Damage) → IsErrOf result (PageFault.Damaged damage)
        → IsBrokenTree (P.pages pages.old) (P.count pages.old) (held met.old) root damage }
    ensures exact { AreReadable (P.pages pages.old) (P.count pages.old) → (damage : Damage) → IsErrOf result (PageFault.Damaged damage)
        → ¬ IsWholeTree (P.pages pages.old) (P.count pages.old) (held met.old) root }
    ensures fails { FailsReading P.Pages pages.old pages.new result }
    ensures frame { Reads P.Pages pages.old pages.new }
{
    // The pages counted are a u32, so no well-formed tree is above level 9.
    let _counted = pages.counted();
    match walk_tree(pages, root, met, list) {
        Ok(()) => Ok(()),
        Err(fault) => Err(fault),
    }
}
