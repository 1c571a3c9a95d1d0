//! The places in a circle, and those in a rectangle.
ghost use Rattle.std.specs.Prelude.{◌≡◌, ◌≢◌, ◌≤◌, ℕ, List, Err, IfOk, IsErrOf};
ghost use Rattle.std.specs.List.{flat_map};
ghost use Rattle.page_face.specs.Calls.{Reads, FailsReading};
ghost use Rattle.btree_nodes.specs.Damages.{AreReadable};
ghost use Rattle.btree_nodes.specs.Tree.{map_uses};
ghost use Rattle.spatial_base.specs.Point.{seen_from};
ghost use Rattle.place_values.specs.First.{ranked};
ghost use Rattle.place_values.specs.Hit.{comes_before};
ghost use Rattle.rtree_nodes.specs.Stock.{view, rows_form};
ghost use Rattle.rtree_nodes.specs.Pages.{node_of};
ghost use Rattle.irtree_shape.specs.Made.{nodes_in};
ghost use Rattle.irtree_shape.specs.Whole.{IsWhole};
ghost use Rattle.node_filter.specs.Entries.{tree_places};
ghost use Rattle.node_filter.specs.Hits.{range_item, box_item};
ghost use Rattle.boolean_queries.specs.declared.region.Region.TheVariants.{Within, Inside};
ghost use Rattle.boolean_queries.specs.Opens.{Fits, filter_in, opens_in, starts_at};
ghost use Rattle.boolean_queries.specs.Walked.{Walked};
ghost use Rattle.boolean_queries.specs.Harms.{IsQueryHarm};

use crate::query::Query;
use crate::region::Region;
use crate::walk::walk;
use node_filter::Ids;
use node_rows::Tree;
use page_face::{Damage, PageFault, Pages};
use place_values::{Expr, Hit};
use spatial_base::{Origin, Point, Rect};
use std::alloc::Global;

/// Returns the places of a tree that are at most `radius` from a point and pass the filter, by distance and then by key. Distances are in
/// degrees times 10^7, with this scale of longitudes. Without a filter every place passes. `ids` are the numbers of the filter's words that
/// the store knows.
///
/// Returns `Damaged` with a rule that a page read in this call breaks, never over a well-formed tree. For the tree's pages the rules are:
///
/// - `Link` if the page is 0 or isn't counted;
/// - `Kind` if it isn't a node's;
/// - `Fill` if it has no slot;
/// - `Value` if a slot isn't of its form;
/// - `Level` if a child isn't one level below its parent or the root is above level 9.
///
/// For the pages of the rows' map it is any rule that such a page can break. Returns also `Disk`, `Stopped`, and `Memory` if it runs out of
/// memory. The tree is as before in any case.
///
/// Reads the root twice. Reads once each other node whose rectangle comes as near and below which a place may pass the filter, by its
/// parent's rectangles and rows. For each of these nodes it reads one row a word of the filter. The empty tree costs no page.
pub fn range<P: Pages>(
    alloc: Global,
    pages: &mut P,
    tree: &Tree,
    ids: &Ids,
    at: &Point,
    scale: u16,
    radius: u64,
    filter: Option<&Expr>,
) -> Result<Vec<Hit>, PageFault>
    requires scale { scale ≤ 1000 }
    ensures found { (free : List ℕ) → IsWhole node_of (view (P.pages pages.old) tree.now.rows (P.count pages.old) (P.first pages.old) free) tree.now.root → IfOk result (λ found.
        found.items ≡ ranked comes_before (flat_map (range_item ids.now (seen_from at.now scale) radius (filter_in filter.entry)) (tree_places (nodes_in node_of (P.pages pages.old) tree.now.rows) tree.now.root))) }
    ensures opened { AreReadable (P.pages pages.old) (P.count pages.old) → IfOk result (λ found. Walked (Within (seen_from at.now scale) radius) (P.pages pages.old) (map_uses rows_form (P.pages pages.old) tree.now.rows)
        (Fits (P.pages pages.old) tree.now.rows (P.count pages.old) (P.first pages.old) tree.now.root)
        (opens_in (Within (seen_from at.now scale) radius) ids.now (filter_in filter.entry) (nodes_in node_of (P.pages pages.old) tree.now.rows)) (starts_at (nodes_in node_of (P.pages pages.old) tree.now.rows) tree.now.root)
        tree.now.root (P.asked pages.old) (P.asked pages.new) found.items) }
    ensures no_false_damage { (free : List ℕ) → IsWhole node_of (view (P.pages pages.old) tree.now.rows (P.count pages.old) (P.first pages.old) free) tree.now.root → AreReadable (P.pages pages.old) (P.count pages.old)
        → (damage : Damage) → result ≢ Err (PageFault.Damaged damage) }
    ensures damaged { AreReadable (P.pages pages.old) (P.count pages.old) → (damage : Damage) → IsErrOf result (PageFault.Damaged damage)
        → IsQueryHarm (P.pages pages.old) (P.count pages.old) tree.now.rows tree.now.root (P.asked pages.old) (P.asked pages.new) damage }
    ensures empty { tree.now.root ≡ 0 → P.asked pages.new ≡ P.asked pages.old }
    ensures fails { FailsReading P.Pages pages.old pages.new result }
    ensures frame { Reads P.Pages pages.old pages.new }
{
    let at = Origin::at(*at, scale);
    // The point is on the map and the scale at most 1000, by the contract of `point`.
    let _point = at.point();
    let query = Query {
        region: Region::Within { at, radius },
        ids,
        filter,
    };
    walk(alloc, pages, tree, &query)
}

/// Returns the places of a tree that are in a rectangle or on its border and pass the filter, by key; they cost nothing.
///
/// Returns an error as [`range`] does, and reads what `range` would read for the rectangle.
pub fn inside<P: Pages>(
    alloc: Global,
    pages: &mut P,
    tree: &Tree,
    ids: &Ids,
    rect: &Rect,
    filter: Option<&Expr>,
) -> Result<Vec<Hit>, PageFault>
    ensures found { (free : List ℕ) → IsWhole node_of (view (P.pages pages.old) tree.now.rows (P.count pages.old) (P.first pages.old) free) tree.now.root → IfOk result (λ found.
        found.items ≡ ranked comes_before (flat_map (box_item ids.now rect.now (filter_in filter.entry)) (tree_places (nodes_in node_of (P.pages pages.old) tree.now.rows) tree.now.root))) }
    ensures opened { AreReadable (P.pages pages.old) (P.count pages.old) → IfOk result (λ found. Walked (Inside rect.now) (P.pages pages.old) (map_uses rows_form (P.pages pages.old) tree.now.rows)
        (Fits (P.pages pages.old) tree.now.rows (P.count pages.old) (P.first pages.old) tree.now.root)
        (opens_in (Inside rect.now) ids.now (filter_in filter.entry) (nodes_in node_of (P.pages pages.old) tree.now.rows)) (starts_at (nodes_in node_of (P.pages pages.old) tree.now.rows) tree.now.root)
        tree.now.root (P.asked pages.old) (P.asked pages.new) found.items) }
    ensures no_false_damage { (free : List ℕ) → IsWhole node_of (view (P.pages pages.old) tree.now.rows (P.count pages.old) (P.first pages.old) free) tree.now.root → AreReadable (P.pages pages.old) (P.count pages.old)
        → (damage : Damage) → result ≢ Err (PageFault.Damaged damage) }
    ensures damaged { AreReadable (P.pages pages.old) (P.count pages.old) → (damage : Damage) → IsErrOf result (PageFault.Damaged damage)
        → IsQueryHarm (P.pages pages.old) (P.count pages.old) tree.now.rows tree.now.root (P.asked pages.old) (P.asked pages.new) damage }
    ensures empty { tree.now.root ≡ 0 → P.asked pages.new ≡ P.asked pages.old }
    ensures fails { FailsReading P.Pages pages.old pages.new result }
    ensures frame { Reads P.Pages pages.old pages.new }
{
    // The rectangle lies on the map, by the contract of `west`.
    let _west = rect.west();
    let query = Query {
        region: Region::Inside { rect: *rect },
        ids,
        filter,
    };
    walk(alloc, pages, tree, &query)
}
