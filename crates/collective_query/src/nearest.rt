//! The picks for each word that are nearest to the point.
ghost use Rattle.std.specs.Prelude.{◌≡◌, ℕ, List, Vec, IfOk};
ghost use Rattle.std.specs.List.{AllByRecursion, Contains};
ghost use Rattle.std.specs.declared.alloc.Global.{Global};
ghost use Rattle.place_values.specs.declared.query.Pick.{Pick};
ghost use Rattle.place_values.specs.Search.{lists_in};
ghost use Rattle.best_first.specs.Fits.{FitsTree, nodes_at};
ghost use Rattle.collective_query.specs.Opened.{FindsPicks};
ghost use Rattle.group_search.specs.Picks.{AreNear, AreMeasured, picks_of};
ghost use Rattle.collective_query.specs.Searches.{Searches};
ghost use Rattle.collective_query.specs.TreePicks.{first_picks, first_lists};

use crate::picks::picks_from;
use boolean_queries::nearest;
use node_filter::Ids;
use node_rows::Tree;
use page_face::{PageFault, Pages};
use place_values::{Expr, Pick};
use spatial_base::Origin;
use std::alloc::Global;
use term_impacts::Word;

/// How many picks are looked for first for each word. Mostly they have the least choice among them, and all that are as near as it costs.
pub(crate) const NEAREST: u16 = 5;

/// Returns the picks for a word that are nearest to a centre, the nearest first: [`NEAREST`] of them, or all if there are fewer. Their
/// distances are those from the query's point.
///
/// Returns an error, and looks at pages, as a nearest query does.
pub(crate) fn nearest_picks<P: Pages>(
    alloc: Global,
    pages: &mut P,
    tree: &Tree,
    ids: &Ids,
    at: &Origin,
    centre: &Origin,
    word: &Word,
) -> Result<Vec<Pick>, PageFault>
    ensures picks { FitsTree (P.pages pages.old) (P.count pages.old) (P.first pages.old) tree.now → IfOk result (λ picks. picks.items
        ≡ first_picks ids.now at.now centre.now (nodes_at (P.pages pages.old) tree.now) tree.now.root word.now) }
    ensures near { IfOk result (λ picks. AreNear picks.items) }
    ensures measured { IfOk result (λ picks. AreMeasured at.now picks.items) }
    ensures opened { FitsTree (P.pages pages.old) (P.count pages.old) (P.first pages.old) tree.now → (words : List (List ℕ)) → Contains words word.now
        → IfOk result (λ picks. FindsPicks (P.pages pages.old) tree.now ids.now at.now words (P.asked pages.old) (P.asked pages.new) picks.items) }
    ensures search { Searches P.Pages tree.now pages.old pages.new result }
{
    let filter = Expr::Has(*word);
    let (point, scale) = (centre.point(), centre.scale());
    let hits = match nearest(
        alloc,
        pages,
        tree,
        ids,
        &point,
        scale,
        NEAREST,
        Some(&filter),
    ) {
        Ok(hits) => hits,
        Err(fault) => return Err(fault),
    };
    match picks_from(alloc, at, word, &hits) {
        Ok(picks) => Ok(picks),
        Err(_) => Err(PageFault::Memory),
    }
}

/// Returns for each word the picks of the places that hold it and are nearest to a point, by distance and then by key. There are
/// [`NEAREST`] of them, or all if there are fewer.
///
/// Returns an error, and looks at pages, as a nearest query does for each word.
pub(crate) fn nearest_each<P: Pages>(
    alloc: Global,
    pages: &mut P,
    tree: &Tree,
    ids: &Ids,
    at: &Origin,
    words: &[Word],
) -> Result<Vec<Vec<Pick>>, PageFault>
    ensures lists { FitsTree (P.pages pages.old) (P.count pages.old) (P.first pages.old) tree.now → IfOk result (λ lists. lists_in lists.items
        ≡ first_lists ids.now at.now (nodes_at (P.pages pages.old) tree.now) tree.now.root words.now) }
    ensures near { IfOk result (λ lists. AllByRecursion (λ (list : Vec Pick Global). AreNear list.items) lists.items) }
    ensures measured { IfOk result (λ lists. AllByRecursion (λ (list : Vec Pick Global). AreMeasured at.now list.items) lists.items) }
    ensures opened { FitsTree (P.pages pages.old) (P.count pages.old) (P.first pages.old) tree.now
        → IfOk result (λ lists. FindsPicks (P.pages pages.old) tree.now ids.now at.now words.now (P.asked pages.old) (P.asked pages.new) (picks_of lists.items)) }
    ensures search { Searches P.Pages tree.now pages.old pages.new result }
{
    let mut lists = Vec::new(alloc);
    for word in words {
        let picks = match nearest_picks(alloc, pages, tree, ids, at, at, word) {
            Ok(picks) => picks,
            Err(fault) => return Err(fault),
        };
        match lists.push(picks) {
            Ok(()) => {}
            Err(_) => return Err(PageFault::Memory),
        }
    }
    Ok(lists)
}
