// The table is filled set by set.
ghost use Rattle.std.specs.Prelude.{◌≡◌, ◌≤◌, ◌<◌, ◌+◌, ◌^◌, false, ℕ, List, [], None, Some, length, slice_index_or, IfOk, OnOk};
ghost use Rattle.place_values.specs.declared.query.Pick.{Pick};
ghost use Rattle.place_values.specs.Group.{least_by};
ghost use Rattle.place_values.specs.Sum.{sum_cost};
ghost use Rattle.best_first.specs.Fits.{FitsTree, nodes_at};
ghost use Rattle.collective_query.specs.Opened.{FindsPicks};
ghost use Rattle.collective_query.specs.Searches.{Searches};
ghost use Rattle.collective_query.specs.TreePicks.{tree_lists, tree_choices};
ghost use Rattle.group_sum.specs.Named.{AreNamedOnce};
ghost use Rattle.group_sum.specs.Shared.{limit_of};
ghost use Rattle.group_sum.specs.Tables.{AreLeast, picks_kept};

use crate::serving::nearest_with_all;
use crate::sets::words_of;
use crate::table::Table;
use node_filter::Ids;
use node_rows::Tree;
use page_face::{PageFault, Pages};
use place_values::Chosen;
use spatial_base::Origin;
use std::alloc::Global;
use term_impacts::Word;

/// Returns how many sets so many words have.
pub(crate) fn sets_of(count: usize) -> usize
    requires { count ≤ 8 }
    ensures { result ≡ 2 ^ count }
{
    1 << count
}

// What the choice costs that a place has to beat.
fn limit_from(split: &Option<Chosen>) -> Option<u64>
    ensures { result ≡ limit_of split.now }
{
    match split {
        Some(best) => Some(best.cost),
        None => None,
    }
}

/// Returns whether each of the words has a place. Looks for the nearest place of one word after another, until one has none.
pub(crate) fn has_each<P: Pages>(
    alloc: Global,
    pages: &mut P,
    tree: &Tree,
    ids: &Ids,
    at: &Origin,
    words: &[Word],
) -> Result<bool, PageFault>
    ensures lacking { FitsTree (P.pages pages.old) (P.count pages.old) (P.first pages.old) tree.now → AreNamedOnce (nodes_at (P.pages pages.old) tree.now) tree.now.root
        → IfOk result (λ has. has ≡ false → least_by sum_cost (tree_choices ids.now at.now (nodes_at (P.pages pages.old) tree.now) tree.now.root words.now) ≡ None) }
    ensures opened { FitsTree (P.pages pages.old) (P.count pages.old) (P.first pages.old) tree.now
        → IfOk result (λ has. FindsPicks (P.pages pages.old) tree.now ids.now at.now words.now (P.asked pages.old) (P.asked pages.new) []) }
    ensures search { Searches P.Pages tree.now pages.old pages.new result }
{
    for word in words {
        match nearest_with_all(alloc, pages, tree, ids, at, &[*word], None) {
            Ok(Some(_)) => {}
            Ok(None) => return Ok(false),
            Err(fault) => return Err(fault),
        }
    }
    Ok(true)
}

/// Keeps the least choice of the next set in the table, and returns whether there is one.
///
/// Looks for the nearest place that holds all words of the set, no farther than the least choice of two parts costs, if there is one.
pub(crate) fn keep_next<P: Pages>(
    alloc: Global,
    pages: &mut P,
    tree: &Tree,
    ids: &Ids,
    at: &Origin,
    words: &[Word],
    table: &mut Table,
) -> Result<bool, PageFault>
    requires few { length words.now ≤ 8 }
    requires count { table.old.count ≡ length words.now }
    requires room { length table.old.kept.items < 2 ^ length words.now }
    ensures count { table.new.count ≡ table.old.count }
    ensures longer { OnOk result (length table.new.kept.items ≡ length table.old.kept.items + 1) }
    ensures least { FitsTree (P.pages pages.old) (P.count pages.old) (P.first pages.old) tree.now → AreNamedOnce (nodes_at (P.pages pages.old) tree.now) tree.now.root
        → AreLeast (tree_lists ids.now at.now (nodes_at (P.pages pages.old) tree.now) tree.now.root words.now) table.old.kept.items
        → OnOk result (AreLeast (tree_lists ids.now at.now (nodes_at (P.pages pages.old) tree.now) tree.now.root words.now) table.new.kept.items) }
    ensures none { IfOk result (λ has. has ≡ false → slice_index_or table.new.kept.items (length table.old.kept.items) None ≡ None) }
    ensures opened { FitsTree (P.pages pages.old) (P.count pages.old) (P.first pages.old) tree.now → (before : List ℕ)
        → FindsPicks (P.pages pages.old) tree.now ids.now at.now words.now before (P.asked pages.old) (picks_kept table.old.kept.items)
        → OnOk result (FindsPicks (P.pages pages.old) tree.now ids.now at.now words.now before (P.asked pages.new) (picks_kept table.new.kept.items)) }
    ensures search { Searches P.Pages tree.now pages.old pages.new result }
{
    let own = match words_of(alloc, words, table.kept.len()) {
        Ok(own) => own,
        Err(_) => return Err(PageFault::Memory),
    };
    let split = match table.least_split(alloc) {
        Ok(split) => split,
        Err(_) => return Err(PageFault::Memory),
    };
    let limit = limit_from(&split);
    let hit = match nearest_with_all(alloc, pages, tree, ids, at, &own, limit) {
        Ok(hit) => hit,
        Err(fault) => return Err(fault),
    };
    match table.keep(alloc, at, &own, split, hit) {
        Ok(has) => Ok(has),
        Err(_) => Err(PageFault::Memory),
    }
}
