//! The choice of a group or gather query.
ghost use Rattle.std.specs.Prelude.{◌≡◌, ◌≢◌, ℕ, List, IfOk, IsErrOf, Err};
ghost use Rattle.page_face.specs.Calls.{Reads, FailsReading};
ghost use Rattle.btree_nodes.specs.Damages.{AreReadable};
ghost use Rattle.place_values.specs.Answer.{answer_of};
ghost use Rattle.place_values.specs.Query.{IsWithinLimits};
ghost use Rattle.place_values.specs.State.{Contents};
ghost use Rattle.best_first.specs.Fits.{FitsTree, nodes_at};
ghost use Rattle.collective_query.specs.Searches.{IsSearchHarm};
ghost use Rattle.group_sum.specs.Named.{AreNamedOnce};
ghost use Rattle.query_execution.specs.Answers.{choice_by, IsChoice};
ghost use Rattle.query_execution.specs.Damages.{IsAnswerHarm};
ghost use Rattle.query_execution.specs.Opened.{IsChosenByFew, ChoosesByFew};
ghost use Rattle.query_execution.specs.Standing.{RootsStand};

use crate::known::ids_of;
use collective_query::group;
use group_sum::group_sum;
use node_filter::Ids;
use node_rows::Tree;
use page_face::{Damage, PageFault, Pages};
use place_values::{Chosen, Query};
use std::alloc::Global;
use store_tables::Tables;

// The choice of a tree's entries for a query, if the words have these numbers.
fn tree_choice<P: Pages>(
    alloc: Global,
    pages: &mut P,
    tree: &Tree,
    ids: &Ids,
    query: &Query,
) -> Result<Option<Chosen>, PageFault>
    requires { IsWithinLimits query.now }
    ensures chosen { FitsTree (P.pages pages.old) (P.count pages.old) (P.first pages.old) tree.now → AreNamedOnce (nodes_at (P.pages pages.old) tree.now) tree.now.root
        → IfOk result (λ chosen. chosen ≡ choice_by ids.now query.now (nodes_at (P.pages pages.old) tree.now) tree.now.root) }
    ensures opened { FitsTree (P.pages pages.old) (P.count pages.old) (P.first pages.old) tree.now
        → IfOk result (λ chosen. ChoosesByFew (P.pages pages.old) tree.now ids.now query.now (P.asked pages.old) (P.asked pages.new) chosen) }
    ensures damaged { AreReadable (P.pages pages.old) (P.count pages.old) → (damage : Damage) → IsErrOf result (PageFault.Damaged damage)
        → IsSearchHarm (P.pages pages.old) (P.count pages.old) tree.now (P.asked pages.old) (P.asked pages.new) damage }
    ensures no_false_damage { FitsTree (P.pages pages.old) (P.count pages.old) (P.first pages.old) tree.now → (damage : Damage) → result ≢ Err (PageFault.Damaged damage) }
    ensures fails { FailsReading P.Pages pages.old pages.new result }
    ensures frame { Reads P.Pages pages.old pages.new }
{
    match query {
        Query::Group { at, scale, words } => {
            group(alloc, pages, tree, ids, at, *scale, words.as_slice())
        }
        Query::Gather { at, scale, words } => {
            group_sum(alloc, pages, tree, ids, at, *scale, words.as_slice())
        }
        Query::Range { .. }
        | Query::Inside { .. }
        | Query::Nearest { .. }
        | Query::Top { .. }
        | Query::Rare { .. } => Ok(None),
    }
}

/// Returns the choice of a group or gather query over a store's tables and tree, or `None` if a word has no place. It has a place for each
/// word. For a group query the places are near a point and near each other, for a gather query their distances from it are least in sum.
/// A query for hits has no choice.
///
/// If the tables and the tree hold the same places, this is the choice that costs least of all choices of these places.
///
/// Refuses `Damaged` by a rule that a page of the words by text, of the tree or of its rows breaks; `Disk`, `Stopped` and `Memory` as the
/// pages do. No page is damaged if the tables and the tree hold a state.
///
/// Looks at one page a level of the words by text for each word. Then it searches the tree as [`collective_query::group`] does, or as
/// [`group_sum::group_sum`]. It opens the root and nodes below which a place holds one of the words. Each opened node costs a look at its
/// page and at one page a level of the rows; the root of a search in a circle costs two looks.
pub fn chosen<P: Pages>(
    alloc: Global,
    pages: &mut P,
    tables: &Tables,
    tree: &Tree,
    query: &Query,
) -> Result<Option<Chosen>, PageFault>
    requires { IsWithinLimits query.now }
    ensures answered { (state : Contents) → RootsStand (P.pages pages.old) (P.count pages.old) (P.first pages.old) tables.now tree.now state
        → AreReadable (P.pages pages.old) (P.count pages.old)
        → IfOk result (λ chosen. IsChoice query.now (answer_of state query.now) chosen) }
    ensures opened { (state : Contents) → RootsStand (P.pages pages.old) (P.count pages.old) (P.first pages.old) tables.now tree.now state
        → AreReadable (P.pages pages.old) (P.count pages.old)
        → IfOk result (λ chosen. IsChosenByFew (P.pages pages.old) tables.now tree.now query.now (P.asked pages.old) (P.asked pages.new) chosen) }
    ensures no_false_damage { (state : Contents) → RootsStand (P.pages pages.old) (P.count pages.old) (P.first pages.old) tables.now tree.now state
        → AreReadable (P.pages pages.old) (P.count pages.old) → (damage : Damage) → result ≢ Err (PageFault.Damaged damage) }
    ensures damaged { AreReadable (P.pages pages.old) (P.count pages.old) → (damage : Damage) → IsErrOf result (PageFault.Damaged damage)
        → IsAnswerHarm (P.pages pages.old) (P.count pages.old) tables.now tree.now (P.asked pages.old) (P.asked pages.new) damage }
    ensures fails { FailsReading P.Pages pages.old pages.new result }
    ensures frame { Reads P.Pages pages.old pages.new }
{
    let ids = match ids_of(alloc, pages, tables, query) {
        Ok(ids) => ids,
        Err(fault) => return Err(fault),
    };
    tree_choice(alloc, pages, tree, &ids, query)
}
