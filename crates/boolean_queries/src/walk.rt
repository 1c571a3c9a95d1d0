//! The walk down a tree to the places in a region.
ghost use Rattle.std.specs.Prelude.{◌≡◌, ◌≢◌, ◌<◌, ◌∷◌, [], Err, IfOk, IsErrOf};
ghost use Rattle.std.specs.List.{flat_map};
ghost use Rattle.page_face.specs.Calls.{Reads, FailsReading};
ghost use Rattle.btree_nodes.specs.Damages.{AreReadable};
ghost use Rattle.btree_nodes.specs.Tree.{map_uses};
ghost use Rattle.place_values.specs.First.{ranked};
ghost use Rattle.place_values.specs.Members.{SameMembers};
ghost use Rattle.place_values.specs.Hit.{comes_before};
ghost use Rattle.rtree_nodes.specs.Stock.{rows_form};
ghost use Rattle.rtree_nodes.specs.Pages.{level_in, node_of};
ghost use Rattle.rtree_nodes.specs.Harms.{IfReadable};
ghost use Rattle.irtree_shape.specs.Made.{nodes_in};
ghost use Rattle.best_first.specs.declared.item.Item.TheVariants.{Node};
ghost use Rattle.best_first.specs.Leads.{leads};
ghost use Rattle.node_filter.specs.Entries.{tree_places};
ghost use Rattle.boolean_queries.specs.Regions.{IsOnTheMap};
ghost use Rattle.boolean_queries.specs.Opens.{Fits, IsGood, filter_in, hits_in, opens_in, starts_at};
ghost use Rattle.boolean_queries.specs.Walked.{Walked};
ghost use Rattle.boolean_queries.specs.Harms.{IsQueryHarm};

use crate::entering::enter_root;
use crate::node::open;
use crate::query::Query;
use crate::sorting::{Waiting, sort_near};
use node_rows::Tree;
use page_face::{Damage, PageFault, Pages};
use place_values::Hit;
use std::alloc::Global;

// Opens the root of this level and all that it leads to. The hits come in any order.
fn open_all<P: Pages>(
    alloc: Global,
    pages: &mut P,
    tree: &Tree,
    query: &Query<'_>,
    level: u8,
) -> Result<Vec<Hit>, PageFault>
    ensures found { IsGood (P.pages pages.old) tree.now.rows (P.count pages.old) level tree.now.root → IfOk result (λ found. SameMembers
        (leads (opens_in query.now.region query.now.ids.now (filter_in query.now.filter) (nodes_in node_of (P.pages pages.old) tree.now.rows)) (Node tree.now.root level 0 ∷ [])) found.items) }
    ensures walked { AreReadable (P.pages pages.old) (P.count pages.old) → IfOk result (λ found. Walked query.now.region (P.pages pages.old) (map_uses rows_form (P.pages pages.old) tree.now.rows)
        (IsGood (P.pages pages.old) tree.now.rows (P.count pages.old) level tree.now.root)
        (opens_in query.now.region query.now.ids.now (filter_in query.now.filter) (nodes_in node_of (P.pages pages.old) tree.now.rows)) (Node tree.now.root level 0 ∷ []) tree.now.root
        (P.asked pages.old) (P.asked pages.new) found.items) }
    ensures no_false_damage { IsGood (P.pages pages.old) tree.now.rows (P.count pages.old) level tree.now.root → AreReadable (P.pages pages.old) (P.count pages.old)
        → (damage : Damage) → result ≢ Err (PageFault.Damaged damage) }
    ensures damaged { AreReadable (P.pages pages.old) (P.count pages.old) → IfReadable (P.pages pages.old) tree.now.root (λ bytes. level_in bytes ≡ level)
        → (damage : Damage) → IsErrOf result (PageFault.Damaged damage)
        → IsQueryHarm (P.pages pages.old) (P.count pages.old) tree.now.rows tree.now.root (P.asked pages.old) (P.asked pages.new) damage }
    ensures fails { FailsReading P.Pages pages.old pages.new result }
    ensures frame { Reads P.Pages pages.old pages.new }
{
    let mut found = Vec::new(alloc);
    let mut near = Vec::new(alloc);
    let mut waiting = Vec::new(alloc);
    let root = Waiting {
        page: tree.root,
        level,
        bound: 0,
    };
    match waiting.push(root) {
        Ok(()) => {}
        Err(_) => return Err(PageFault::Memory),
    }
    'walk: while let Some(node) = waiting.pop() {
        let mask = match open(pages, tree, query, node.page, node.level, &mut near) {
            Ok(mask) => mask,
            Err(fault) => return Err(fault),
        };
        match sort_near(&near, mask, &mut waiting, &mut found) {
            Ok(()) => {}
            Err(fault) => return Err(fault),
        }
    }
    Ok(found)
}

/// Returns the places of a tree that a query finds, by cost and then by key.
///
/// Looks at the root twice, and once at each other node whose rectangle meets the region and below which a place may pass the filter, as
/// its parent shows. Of each it looks at one row a word.
pub(crate) fn walk<P: Pages>(
    alloc: Global,
    pages: &mut P,
    tree: &Tree,
    query: &Query<'_>,
) -> Result<Vec<Hit>, PageFault>
    ensures found { IsOnTheMap query.now.region → Fits (P.pages pages.old) tree.now.rows (P.count pages.old) (P.first pages.old) tree.now.root → IfOk result (λ found.
        found.items ≡ ranked comes_before (flat_map (hits_in query.now.region query.now.ids.now (filter_in query.now.filter)) (tree_places (nodes_in node_of (P.pages pages.old) tree.now.rows) tree.now.root))) }
    ensures walked { AreReadable (P.pages pages.old) (P.count pages.old) → IfOk result (λ found. Walked query.now.region (P.pages pages.old) (map_uses rows_form (P.pages pages.old) tree.now.rows)
        (Fits (P.pages pages.old) tree.now.rows (P.count pages.old) (P.first pages.old) tree.now.root)
        (opens_in query.now.region query.now.ids.now (filter_in query.now.filter) (nodes_in node_of (P.pages pages.old) tree.now.rows)) (starts_at (nodes_in node_of (P.pages pages.old) tree.now.rows) tree.now.root)
        tree.now.root (P.asked pages.old) (P.asked pages.new) found.items) }
    ensures no_false_damage { Fits (P.pages pages.old) tree.now.rows (P.count pages.old) (P.first pages.old) tree.now.root → AreReadable (P.pages pages.old) (P.count pages.old)
        → (damage : Damage) → result ≢ Err (PageFault.Damaged damage) }
    ensures damaged { AreReadable (P.pages pages.old) (P.count pages.old) → (damage : Damage) → IsErrOf result (PageFault.Damaged damage)
        → IsQueryHarm (P.pages pages.old) (P.count pages.old) tree.now.rows tree.now.root (P.asked pages.old) (P.asked pages.new) damage }
    ensures empty { tree.now.root ≡ 0 → P.asked pages.new ≡ P.asked pages.old }
    ensures fails { FailsReading P.Pages pages.old pages.new result }
    ensures frame { Reads P.Pages pages.old pages.new }
{
    if tree.root == 0 {
        return Ok(Vec::new(alloc));
    }
    let level = match enter_root(pages, tree.root) {
        Ok(level) => level,
        Err(fault) => return Err(fault),
    };
    let mut found = match open_all(alloc, pages, tree, query, level) {
        Ok(found) => found,
        Err(fault) => return Err(fault),
    };
    found.sort_unstable();
    Ok(found)
}
