//! The candidates for a word.
ghost use Rattle.std.specs.Prelude.{◌≡◌, ◌<◌, ◌++◌, ℕ, List, true, Vec, IfOk};
ghost use Rattle.std.specs.List.{Contains};
ghost use Rattle.std.specs.declared.alloc.Global.{Global};
ghost use Rattle.place_values.specs.declared.query.Pick.{Pick};
ghost use Rattle.best_first.specs.Fits.{FitsTree, nodes_at};
ghost use Rattle.group_search.specs.Choices.{IsInBoth, IsCut};
ghost use Rattle.collective_query.specs.Opened.{FindsPicks};
ghost use Rattle.group_search.specs.Picks.{AreNear, AreMeasured, GoesBeyond};
ghost use Rattle.collective_query.specs.Searches.{Searches};
ghost use Rattle.collective_query.specs.TreePicks.{tree_picks, first_picks, near_picks};

use crate::nearest::NEAREST;
use crate::picks::picks_from;
use boolean_queries::range;
use node_filter::Ids;
use node_rows::Tree;
use page_face::{PageFault, Pages};
use place_values::{Expr, Pick};
use spatial_base::Origin;
use std::alloc::Global;
use term_impacts::Word;

/// Returns the picks for a word that are at most `radius` (in degrees times 10^7) from a centre, the nearest to it first. Their distances
/// are those from the query's point.
///
/// Returns an error, and looks at pages, as a range query does.
pub(crate) fn near_with<P: Pages>(
    alloc: Global,
    pages: &mut P,
    tree: &Tree,
    ids: &Ids,
    at: &Origin,
    centre: &Origin,
    radius: u64,
    word: &Word,
) -> Result<Vec<Pick>, PageFault>
    ensures picks { FitsTree (P.pages pages.old) (P.count pages.old) (P.first pages.old) tree.now → IfOk result (λ picks. picks.items
        ≡ near_picks ids.now at.now centre.now radius (nodes_at (P.pages pages.old) tree.now) tree.now.root word.now) }
    ensures near { IfOk result (λ picks. AreNear picks.items) }
    ensures measured { IfOk result (λ picks. AreMeasured at.now picks.items) }
    ensures opened { FitsTree (P.pages pages.old) (P.count pages.old) (P.first pages.old) tree.now → (words : List (List ℕ)) → Contains words word.now
        → IfOk result (λ picks. FindsPicks (P.pages pages.old) tree.now ids.now at.now words (P.asked pages.old) (P.asked pages.new) picks.items) }
    ensures search { Searches P.Pages tree.now pages.old pages.new result }
{
    let filter = Expr::Has(*word);
    let (point, scale) = (centre.point(), centre.scale());
    let hits = match range(
        alloc,
        pages,
        tree,
        ids,
        &point,
        scale,
        radius,
        Some(&filter),
    ) {
        Ok(hits) => hits,
        Err(fault) => return Err(fault),
    };
    match picks_from(alloc, at, word, &hits) {
        Ok(picks) => Ok(picks),
        Err(_) => Err(PageFault::Memory),
    }
}

/// Returns whether the nearest picks for a word have all that are at most `radius` from the point: they are all that there are, or one of
/// them is farther.
pub(crate) fn reaches(picks: &[Pick], radius: u64) -> bool
    ensures { result ≡ true → GoesBeyond 5 radius picks.now }
{
    picks.len() < NEAREST as usize || picks.iter().any(|pick| pick.dist > radius)
}

/// Returns candidates for a word: picks of places that hold it. Among them are all that are at most `most` (in degrees times 10^7) from the
/// query's point and at most `radius` from a centre. They are its nearest picks, if these have all that are so near to the point, or those
/// that a range query round the centre finds.
///
/// Returns an error, and looks at pages, as this range query does.
pub(crate) fn candidates<P: Pages>(
    alloc: Global,
    pages: &mut P,
    tree: &Tree,
    ids: &Ids,
    at: &Origin,
    most: u64,
    centre: &Origin,
    radius: u64,
    word: &Word,
    nearest: &[Pick],
) -> Result<Vec<Pick>, PageFault>
    requires near { AreNear nearest.now }
    requires measured { AreMeasured at.now nearest.now }
    ensures cut { FitsTree (P.pages pages.old) (P.count pages.old) (P.first pages.old) tree.now
        → nearest.now ≡ first_picks ids.now at.now at.now (nodes_at (P.pages pages.old) tree.now) tree.now.root word.now
        → IfOk result (λ picks. IsCut (IsInBoth at.now most centre.now radius) (tree_picks ids.now at.now (nodes_at (P.pages pages.old) tree.now) tree.now.root word.now) picks.items) }
    ensures near { IfOk result (λ picks. AreNear picks.items) }
    ensures measured { IfOk result (λ picks. AreMeasured at.now picks.items) }
    ensures opened { FitsTree (P.pages pages.old) (P.count pages.old) (P.first pages.old) tree.now → (words : List (List ℕ)) → Contains words word.now
        → (before : List ℕ) → (found : List Pick) → ((pick : Pick) → Contains nearest.now pick → Contains found pick)
        → FindsPicks (P.pages pages.old) tree.now ids.now at.now words before (P.asked pages.old) found
        → IfOk result (λ picks. FindsPicks (P.pages pages.old) tree.now ids.now at.now words before (P.asked pages.new) (found ++ picks.items)) }
    ensures search { Searches P.Pages tree.now pages.old pages.new result }
{
    if reaches(nearest, most) {
        return match Vec::from_slice(alloc, nearest) {
            Ok(picks) => Ok(picks),
            Err(_) => Err(PageFault::Memory),
        };
    }
    near_with(alloc, pages, tree, ids, at, centre, radius, word)
}
