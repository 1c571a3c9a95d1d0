//! The hits of a query.
ghost use Rattle.std.specs.Prelude.{◌≡◌, ◌≢◌, ℕ, List, length, IfOk, IsErrOf};
ghost use Rattle.std.specs.List.{flat_map};
ghost use Rattle.page_face.specs.Calls.{Reads, FailsReading};
ghost use Rattle.btree_nodes.specs.Damages.{AreReadable};
ghost use Rattle.place_values.specs.Answer.{answer_of};
ghost use Rattle.place_values.specs.Query.{IsWithinLimits};
ghost use Rattle.place_values.specs.State.{Contents};
ghost use Rattle.rtree_nodes.specs.Stock.{view};
ghost use Rattle.rtree_nodes.specs.Pages.{node_of};
ghost use Rattle.irtree_shape.specs.Made.{nodes_in};
ghost use Rattle.irtree_shape.specs.Whole.{IsWhole};
ghost use Rattle.node_filter.specs.Entries.{tree_places};
ghost use Rattle.collective_query.specs.Searches.{IsSearchHarm};
ghost use Rattle.query_execution.specs.Answers.{cut_by, hits_by, IsAnswer};
ghost use Rattle.query_execution.specs.Damages.{IsHitsHarm};
ghost use Rattle.query_execution.specs.Opened.{AreFewOpened, FewOpened, IsRowsPage};
ghost use Rattle.query_execution.specs.Standing.{RootsStand};

use crate::known::ids_of;
use crate::weighing::{asked_as, weighed};
use boolean_queries::{inside, nearest, range};
use node_filter::Ids;
use node_rows::Tree;
use page_face::{Damage, PageFault, Pages};
use place_values::{Hit, Query};
use std::alloc::Global;
use store_tables::Tables;
use topk_query::top;

// The hits that a tree's entries give to a query as it is asked of the places, if the words have these numbers.
fn tree_hits<P: Pages>(
    alloc: Global,
    pages: &mut P,
    tree: &Tree,
    ids: &Ids,
    query: &Query,
) -> Result<Vec<Hit>, PageFault>
    requires { IsWithinLimits query.now }
    ensures found { (free : List ℕ) → IsWhole node_of (view (P.pages pages.old) tree.now.rows (P.count pages.old) (P.first pages.old) free) tree.now.root → AreReadable (P.pages pages.old) (P.count pages.old)
        → IfOk result (λ found. found.items ≡ cut_by query.now (flat_map (hits_by ids.now query.now) (tree_places (nodes_in node_of (P.pages pages.old) tree.now.rows) tree.now.root))) }
    ensures opened { (free : List ℕ) → IsWhole node_of (view (P.pages pages.old) tree.now.rows (P.count pages.old) (P.first pages.old) free) tree.now.root → AreReadable (P.pages pages.old) (P.count pages.old)
        → IfOk result (λ found. FewOpened (IsRowsPage (P.pages pages.old) tree.now) (P.pages pages.old) tree.now ids.now query.now (P.asked pages.old) (P.asked pages.new) found.items) }
    ensures damaged { AreReadable (P.pages pages.old) (P.count pages.old) → (damage : Damage) → IsErrOf result (PageFault.Damaged damage)
        → IsSearchHarm (P.pages pages.old) (P.count pages.old) tree.now (P.asked pages.old) (P.asked pages.new) damage }
    ensures no_false_damage { (free : List ℕ) → IsWhole node_of (view (P.pages pages.old) tree.now.rows (P.count pages.old) (P.first pages.old) free) tree.now.root → AreReadable (P.pages pages.old) (P.count pages.old)
        → (damage : Damage) → result ≢ Err (PageFault.Damaged damage) }
    ensures fails { FailsReading P.Pages pages.old pages.new result }
    ensures frame { Reads P.Pages pages.old pages.new }
{
    match query {
        Query::Range {
            at,
            scale,
            radius,
            filter,
        } => range(
            alloc,
            pages,
            tree,
            ids,
            at,
            *scale,
            *radius,
            filter.as_ref(),
        ),
        Query::Inside { rect, filter } => inside(alloc, pages, tree, ids, rect, filter.as_ref()),
        Query::Nearest {
            at,
            scale,
            k,
            filter,
        } => {
            // The point is on the map.
            let (_x, _y) = (at.x(), at.y());
            nearest(alloc, pages, tree, ids, at, *scale, *k, filter.as_ref())
        }
        Query::Top {
            at,
            scale,
            k,
            alpha,
            reach,
            words,
        } => {
            // The point is on the map.
            let (_x, _y) = (at.x(), at.y());
            top(
                alloc,
                pages,
                tree,
                ids,
                at,
                *scale,
                *k,
                *alpha,
                *reach,
                words.as_slice(),
            )
        }
        Query::Rare { .. } | Query::Group { .. } | Query::Gather { .. } => Ok(Vec::new(alloc)),
    }
}

/// Returns the hits of a range, box, nearest or top query, or of one by rarity, over a store's tables and tree, in order. A group or gather
/// query has no hits. `live` is the number of live places, and only a query by rarity needs it.
///
/// If the tables and the tree hold the same places, and so many, these are the hits that a scan of all places gives.
///
/// Refuses `Damaged` by a rule that a page of the words by text, of the tree or of its rows breaks, and for a query by rarity by one that
/// a page of the words by number breaks, or with `Words` at page 0 if more places hold a word than live; `Disk`, `Stopped` and `Memory` as
/// the pages do. No page is damaged if the tables and the tree hold a state.
///
/// Looks at one page a level of the words by text for each word of the query, and for a query by rarity then at one page a level of the
/// words by number for each word that the store knows. Then it opens only nodes of the tree that the query needs.
/// These are the root, and children below which an answer may be, by the least rectangle and the greatest impacts of their places. Range
/// and box leave out those that are too far away or off the rectangle, nearest and top those whose bound is above the last hit's cost. Each
/// opened node costs a look at its page and, for each word of the query that the store knows, at one page a level of the rows. The root of
/// a range or box costs two looks.
pub fn hits<P: Pages>(
    alloc: Global,
    pages: &mut P,
    tables: &Tables,
    tree: &Tree,
    live: u32,
    query: &Query,
) -> Result<Vec<Hit>, PageFault>
    requires { IsWithinLimits query.now }
    ensures answered { (state : Contents) → RootsStand (P.pages pages.old) (P.count pages.old) (P.first pages.old) tables.now tree.now state
        → live ≡ length state.places → AreReadable (P.pages pages.old) (P.count pages.old)
        → IfOk result (λ hits. IsAnswer query.now (answer_of state query.now) hits.items) }
    ensures opened { (state : Contents) → RootsStand (P.pages pages.old) (P.count pages.old) (P.first pages.old) tables.now tree.now state
        → live ≡ length state.places → AreReadable (P.pages pages.old) (P.count pages.old)
        → IfOk result (λ hits. AreFewOpened (P.pages pages.old) tables.now tree.now state query.now (P.asked pages.old) (P.asked pages.new) hits.items) }
    ensures no_false_damage { (state : Contents) → RootsStand (P.pages pages.old) (P.count pages.old) (P.first pages.old) tables.now tree.now state
        → live ≡ length state.places → AreReadable (P.pages pages.old) (P.count pages.old) → (damage : Damage) → result ≢ Err (PageFault.Damaged damage) }
    ensures damaged { AreReadable (P.pages pages.old) (P.count pages.old) → (damage : Damage) → IsErrOf result (PageFault.Damaged damage)
        → IsHitsHarm (P.pages pages.old) (P.count pages.old) live tables.now tree.now query.now (P.asked pages.old) (P.asked pages.new) damage }
    ensures fails { FailsReading P.Pages pages.old pages.new result }
    ensures frame { Reads P.Pages pages.old pages.new }
{
    let ids = match ids_of(alloc, pages, tables, query) {
        Ok(ids) => ids,
        Err(fault) => return Err(fault),
    };
    let top = match weighed(alloc, pages, tables, live, &ids, query) {
        Ok(top) => top,
        Err(fault) => return Err(fault),
    };
    tree_hits(alloc, pages, tree, &ids, asked_as(&top, query))
}
