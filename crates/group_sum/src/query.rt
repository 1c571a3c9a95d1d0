//! The choice of a place for each word that costs least in all.
ghost use Rattle.std.specs.Prelude.{◌≡◌, ◌≢◌, ◌≤◌, ℕ, List, [], Err, IfOk, IsErrOf, length};
ghost use Rattle.page_face.specs.Calls.{Reads, FailsReading};
ghost use Rattle.btree_nodes.specs.Damages.{AreReadable};
ghost use Rattle.spatial_base.specs.Point.{seen_from};
ghost use Rattle.place_values.specs.Group.{least_by};
ghost use Rattle.place_values.specs.Sum.{sum_cost};
ghost use Rattle.best_first.specs.Fits.{FitsTree, nodes_at};
ghost use Rattle.collective_query.specs.Opened.{FindsPicks, picks_in};
ghost use Rattle.collective_query.specs.Searches.{IsSearchHarm, Searches};
ghost use Rattle.collective_query.specs.TreePicks.{tree_choices};
ghost use Rattle.group_sum.specs.Named.{AreNamedOnce};

use crate::filling::{has_each, keep_next, sets_of};
use crate::table::Table;
use node_filter::Ids;
use node_rows::Tree;
use page_face::{Damage, PageFault, Pages};
use place_values::Chosen;
use spatial_base::{Origin, Point};
use std::alloc::Global;
use term_impacts::Word;

// The least choice by the table, set by set, if each set has one.
fn fill<P: Pages>(
    alloc: Global,
    pages: &mut P,
    tree: &Tree,
    ids: &Ids,
    at: &Origin,
    words: &[Word],
) -> Result<Option<Chosen>, PageFault>
    requires few { length words.now ≤ 8 }
    ensures chosen { FitsTree (P.pages pages.old) (P.count pages.old) (P.first pages.old) tree.now → AreNamedOnce (nodes_at (P.pages pages.old) tree.now) tree.now.root → IfOk result (λ chosen. chosen
        ≡ least_by sum_cost (tree_choices ids.now at.now (nodes_at (P.pages pages.old) tree.now) tree.now.root words.now)) }
    ensures opened { FitsTree (P.pages pages.old) (P.count pages.old) (P.first pages.old) tree.now → (before : List ℕ)
        → FindsPicks (P.pages pages.old) tree.now ids.now at.now words.now before (P.asked pages.old) []
        → IfOk result (λ chosen. FindsPicks (P.pages pages.old) tree.now ids.now at.now words.now before (P.asked pages.new) (picks_in chosen)) }
    ensures search { Searches P.Pages tree.now pages.old pages.new result }
{
    let mut table = match Table::new(alloc, words.len()) {
        Ok(table) => table,
        Err(_) => return Err(PageFault::Memory),
    };
    for _set in 1..sets_of(words.len()) {
        match keep_next(alloc, pages, tree, ids, at, words, &mut table) {
            Ok(true) => {}
            Ok(false) => return Ok(None),
            Err(fault) => return Err(fault),
        }
    }
    Ok(table.into_last())
}

// The least choice, if each word has a place.
fn least_sum<P: Pages>(
    alloc: Global,
    pages: &mut P,
    tree: &Tree,
    ids: &Ids,
    at: &Origin,
    words: &[Word],
) -> Result<Option<Chosen>, PageFault>
    requires few { length words.now ≤ 8 }
    ensures chosen { FitsTree (P.pages pages.old) (P.count pages.old) (P.first pages.old) tree.now → AreNamedOnce (nodes_at (P.pages pages.old) tree.now) tree.now.root → IfOk result (λ chosen. chosen
        ≡ least_by sum_cost (tree_choices ids.now at.now (nodes_at (P.pages pages.old) tree.now) tree.now.root words.now)) }
    ensures opened { FitsTree (P.pages pages.old) (P.count pages.old) (P.first pages.old) tree.now
        → IfOk result (λ chosen. FindsPicks (P.pages pages.old) tree.now ids.now at.now words.now (P.asked pages.old) (P.asked pages.new) (picks_in chosen)) }
    ensures search { Searches P.Pages tree.now pages.old pages.new result }
{
    match has_each(alloc, pages, tree, ids, at, words) {
        Ok(true) => fill(alloc, pages, tree, ids, at, words),
        Ok(false) => Ok(None),
        Err(fault) => Err(fault),
    }
}

/// Returns the choice of a place for each word whose places have the least sum of distances from the point, or `None` if a word has no
/// place. A place that serves several words counts once. Of choices of equal sum it is the one whose keys are least in the words' order. A
/// distance is in degrees times 10^7, with `scale` thousandths of longitudes. The tree's keys are taken to be distinct. `ids` has the
/// numbers of the words that the store knows.
///
/// Refuses `Damaged` with a rule that a page read in this call breaks, never over a whole tree; `Disk`, `Stopped`, and `Memory` if it runs
/// out of memory. The tree is as before in any case.
pub fn group_sum<P: Pages>(
    alloc: Global,
    pages: &mut P,
    tree: &Tree,
    ids: &Ids,
    at: &Point,
    scale: u16,
    words: &[Word],
) -> Result<Option<Chosen>, PageFault>
    requires scale { scale ≤ 1000 }
    requires few { length words.now ≤ 8 }
    ensures chosen { FitsTree (P.pages pages.old) (P.count pages.old) (P.first pages.old) tree.now → AreNamedOnce (nodes_at (P.pages pages.old) tree.now) tree.now.root → IfOk result (λ chosen. chosen
        ≡ least_by sum_cost (tree_choices ids.now (seen_from at.now scale) (nodes_at (P.pages pages.old) tree.now) tree.now.root words.now)) }
    ensures opened { FitsTree (P.pages pages.old) (P.count pages.old) (P.first pages.old) tree.now
        → IfOk result (λ chosen. FindsPicks (P.pages pages.old) tree.now ids.now (seen_from at.now scale) words.now (P.asked pages.old) (P.asked pages.new) (picks_in chosen)) }
    ensures damaged { AreReadable (P.pages pages.old) (P.count pages.old) → (damage : Damage) → IsErrOf result (PageFault.Damaged damage)
        → IsSearchHarm (P.pages pages.old) (P.count pages.old) tree.now (P.asked pages.old) (P.asked pages.new) damage }
    ensures no_false_damage { FitsTree (P.pages pages.old) (P.count pages.old) (P.first pages.old) tree.now → (damage : Damage) → result ≢ Err (PageFault.Damaged damage) }
    ensures fails { FailsReading P.Pages pages.old pages.new result }
    ensures frame { Reads P.Pages pages.old pages.new }
{
    least_sum(alloc, pages, tree, ids, &Origin::at(*at, scale), words)
}
