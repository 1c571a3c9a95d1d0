//! The places nearest to a point.
ghost use Rattle.std.specs.Prelude.{◌≡◌, ◌≢◌, ◌≤◌, Err, IfOk, IsErrOf};
ghost use Rattle.spatial_base.specs.Point.{seen_from};
ghost use Rattle.std.specs.List.{flat_map};
ghost use Rattle.page_face.specs.Calls.{Reads, FailsReading};
ghost use Rattle.btree_nodes.specs.Damages.{AreReadable};
ghost use Rattle.place_values.specs.First.{first};
ghost use Rattle.place_values.specs.Hit.{comes_before};
ghost use Rattle.node_rows.specs.Rows.{bytes_in};
ghost use Rattle.best_first.specs.Cuts.{affordable};
ghost use Rattle.best_first.specs.Openings.{Opened};
ghost use Rattle.node_filter.specs.Entries.{tree_places};
ghost use Rattle.node_filter.specs.Hits.{near_item};
ghost use Rattle.best_first.specs.declared.ask.Ask.TheVariants.{Nearest};
ghost use Rattle.best_first.specs.Fits.{FitsTree, nodes_at};
ghost use Rattle.best_first.specs.Harms.{IsHarm, IsNodePage};
ghost use Rattle.best_first.specs.NodeOpenings.{StandsIn, opened_in, started_in};
ghost use Rattle.boolean_queries.specs.Opens.{filter_in};

use best_first::{Ranking, first_k, first_k_within};
use node_filter::Ids;
use node_rows::Tree;
use page_face::{Damage, PageFault, Pages};
use place_values::{Expr, Hit};
use spatial_base::Point;
use std::alloc::Global;

/// Returns the k places of a tree that are nearest to a point and pass the filter, by distance and then by key. Returns all of them if
/// there are fewer. A distance is in degrees times 10^7, with this scale of longitudes. Without a filter every place passes. `ids` are the
/// numbers of the filter's words that the store knows.
///
/// Returns `Damaged` with a rule that a page read in this call breaks, and never over a well-formed tree. Returns also `Disk`, `Stopped`,
/// and `Memory` if it runs out of memory. The tree is as before in any case.
///
/// Looks at the root's rows first, and at the rows and the page of each node that it opens: one row a word of the filter that the store
/// knows. A node is opened only if a place below it may pass the filter, and only while fewer than k places were found that are nearer than
/// its rectangle.
pub fn nearest<P: Pages>(
    alloc: Global,
    pages: &mut P,
    tree: &Tree,
    ids: &Ids,
    at: &Point,
    scale: u16,
    k: u16,
    filter: Option<&Expr>,
) -> Result<Vec<Hit>, PageFault>
    requires scale { scale ≤ 1000 }
    ensures found { FitsTree (P.pages pages.old) (P.count pages.old) (P.first pages.old) tree.now → IfOk result (λ found. found.items
        ≡ first comes_before k (flat_map (near_item ids.now (seen_from at.now scale) (filter_in filter.entry)) (tree_places (nodes_at (P.pages pages.old) tree.now) tree.now.root))) }
    ensures opened { AreReadable (P.pages pages.old) (P.count pages.old) → IfOk result (λ found.
        Opened StandsIn (P.pages pages.old) (IsNodePage (P.pages pages.old) tree.now.rows) (FitsTree (P.pages pages.old) (P.count pages.old) (P.first pages.old) tree.now)
        (opened_in ids.now (seen_from at.now scale) (Nearest filter.entry) (nodes_at (P.pages pages.old) tree.now))
        (started_in ids.now (Nearest filter.entry) (nodes_at (P.pages pages.old) tree.now) (bytes_in (P.pages pages.old) tree.now.rows) tree.now.root)
        tree.now.root (P.asked pages.old) (P.asked pages.new) k found.items) }
    ensures damaged { AreReadable (P.pages pages.old) (P.count pages.old) → (damage : Damage) → IsErrOf result (PageFault.Damaged damage)
        → IsHarm (P.pages pages.old) (P.count pages.old) tree.now.rows (P.asked pages.old) (P.asked pages.new) damage }
    ensures no_false_damage { FitsTree (P.pages pages.old) (P.count pages.old) (P.first pages.old) tree.now → (damage : Damage) → result ≢ Err (PageFault.Damaged damage) }
    ensures fails { FailsReading P.Pages pages.old pages.new result }
    ensures frame { Reads P.Pages pages.old pages.new }
{
    let mut ranking = Ranking::nearest(tree, ids, at, scale, filter);
    first_k(alloc, pages, &mut ranking, k)
}

/// What a nearest query asks for: the places nearest to a point.
#[derive(Drop)]
pub struct Vicinity {
    /// The point that distances are measured from.
    pub at: Point,
    /// How many thousandths of its size a step of longitude counts in a distance: 0 to 1000.
    pub scale: u16,
    /// How many places are asked for at most.
    pub k: u16,
    /// The greatest distance that counts, in degrees times 10^7. Without one, any does.
    pub limit: Option<u64>,
}

/// Returns the k places of a tree that are nearest to a point, no farther than a limit and pass the filter, by distance and then by key.
/// Returns all of them if there are fewer.
///
/// Refuses as [`nearest`], and looks at the same pages but those that are only needed for places beyond the limit: no node is opened
/// whose rectangle is farther.
pub fn nearest_within<P: Pages>(
    alloc: Global,
    pages: &mut P,
    tree: &Tree,
    ids: &Ids,
    near: &Vicinity,
    filter: Option<&Expr>,
) -> Result<Vec<Hit>, PageFault>
    requires scale { near.now.scale ≤ 1000 }
    ensures found { FitsTree (P.pages pages.old) (P.count pages.old) (P.first pages.old) tree.now → IfOk result (λ found. found.items
        ≡ first comes_before near.now.k (affordable near.now.limit (flat_map (near_item ids.now (seen_from near.now.at near.now.scale) (filter_in filter.entry)) (tree_places (nodes_at (P.pages pages.old) tree.now) tree.now.root)))) }
    ensures opened { AreReadable (P.pages pages.old) (P.count pages.old) → IfOk result (λ found.
        Opened StandsIn (P.pages pages.old) (IsNodePage (P.pages pages.old) tree.now.rows) (FitsTree (P.pages pages.old) (P.count pages.old) (P.first pages.old) tree.now)
        (opened_in ids.now (seen_from near.now.at near.now.scale) (Nearest filter.entry) (nodes_at (P.pages pages.old) tree.now))
        (started_in ids.now (Nearest filter.entry) (nodes_at (P.pages pages.old) tree.now) (bytes_in (P.pages pages.old) tree.now.rows) tree.now.root)
        tree.now.root (P.asked pages.old) (P.asked pages.new) near.now.k found.items) }
    ensures damaged { AreReadable (P.pages pages.old) (P.count pages.old) → (damage : Damage) → IsErrOf result (PageFault.Damaged damage)
        → IsHarm (P.pages pages.old) (P.count pages.old) tree.now.rows (P.asked pages.old) (P.asked pages.new) damage }
    ensures no_false_damage { FitsTree (P.pages pages.old) (P.count pages.old) (P.first pages.old) tree.now → (damage : Damage) → result ≢ Err (PageFault.Damaged damage) }
    ensures fails { FailsReading P.Pages pages.old pages.new result }
    ensures frame { Reads P.Pages pages.old pages.new }
{
    let mut ranking = Ranking::nearest(tree, ids, &near.at, near.scale, filter);
    first_k_within(alloc, pages, &mut ranking, near.k, near.limit)
}
