//! The picks for the other words round a lead pick.
ghost use Rattle.std.specs.Prelude.{◌≡◌, ◌≤◌, ◌++◌, ◌∷◌, [], if◌then◌else◌, ℕ, List, Vec, IfOk};
ghost use Rattle.std.specs.List.{AllByRecursion, Contains};
ghost use Rattle.std.specs.declared.alloc.Global.{Global};
ghost use Rattle.spatial_base.specs.Point.{distance};
ghost use Rattle.place_values.specs.declared.query.Pick.{Pick};
ghost use Rattle.place_values.specs.Search.{lists_in};
ghost use Rattle.best_first.specs.Fits.{FitsTree, nodes_at};
ghost use Rattle.group_search.specs.Choices.{IsCut};
ghost use Rattle.group_search.specs.Leads.{led_by, IsWanted, AreGathered, OfEach, gathered_picks};
ghost use Rattle.collective_query.specs.Opened.{FindsPicks};
ghost use Rattle.group_search.specs.Picks.{AreNear, AreMeasured, picks_of};
ghost use Rattle.collective_query.specs.Searches.{Searches};
ghost use Rattle.collective_query.specs.TreePicks.{tree_picks, tree_lists, first_picks, first_lists};

use crate::candidates::candidates;
use crate::nearest::nearest_picks;
use group_search::{alone, list_at};
use node_filter::Ids;
use node_rows::Tree;
use page_face::{PageFault, Pages};
use place_values::Pick;
use spatial_base::Origin;
use std::alloc::Global;
use term_impacts::Word;

/// Returns the picks for a word round a lead pick. For the lead's own word this is the lead pick alone. Else it is all that may be in a
/// choice with it that costs at most so much, or those nearest to it if no cost is given.
pub(crate) fn companions<P: Pages>(
    alloc: Global,
    pages: &mut P,
    tree: &Tree,
    ids: &Ids,
    at: &Origin,
    word: &Word,
    nearest: &[Pick],
    anchor: &Pick,
    is_own: bool,
    most: Option<u64>,
) -> Result<Vec<Pick>, PageFault>
    requires near { AreNear nearest.now }
    requires measured { AreMeasured at.now nearest.now }
    requires anchor { anchor.now.dist ≤ 2545584412 }
    requires anchor_measured { anchor.now.dist ≡ distance at.now anchor.now.point }
    ensures cut { FitsTree (P.pages pages.old) (P.count pages.old) (P.first pages.old) tree.now
        → nearest.now ≡ first_picks ids.now at.now at.now (nodes_at (P.pages pages.old) tree.now) tree.now.root word.now
        → IfOk result (λ picks. IsCut (IsWanted at.now anchor.now most) (if is_own then anchor.now ∷ [] else tree_picks ids.now at.now (nodes_at (P.pages pages.old) tree.now) tree.now.root word.now) picks.items) }
    ensures near { IfOk result (λ picks. AreNear picks.items) }
    ensures measured { IfOk result (λ picks. AreMeasured at.now picks.items) }
    ensures opened { FitsTree (P.pages pages.old) (P.count pages.old) (P.first pages.old) tree.now → (words : List (List ℕ)) → Contains words word.now
        → (before : List ℕ) → (found : List Pick) → ((pick : Pick) → Contains nearest.now pick → Contains found pick) → Contains found anchor.now
        → FindsPicks (P.pages pages.old) tree.now ids.now at.now words before (P.asked pages.old) found
        → IfOk result (λ picks. FindsPicks (P.pages pages.old) tree.now ids.now at.now words before (P.asked pages.new) (found ++ picks.items)) }
    ensures search { Searches P.Pages tree.now pages.old pages.new result }
{
    if is_own {
        return match alone(alloc, anchor) {
            Ok(picks) => Ok(picks),
            Err(_) => Err(PageFault::Memory),
        };
    }
    let scale = at.scale();
    let centre = Origin::at(anchor.point, scale);
    match most {
        Some(most) => {
            let radius = most.saturating_sub(anchor.dist);
            candidates(
                alloc, pages, tree, ids, at, most, &centre, radius, word, nearest,
            )
        }
        None => nearest_picks(alloc, pages, tree, ids, at, &centre, word),
    }
}

/// Returns for each word picks round a lead pick, that of the word at `own`: this alone for its own word. For each other word they are all
/// that may be in a choice with it that costs at most `most`, or those nearest to it if no cost is given. Returns `None` if a word has
/// none.
///
/// Returns an error, and looks at pages, as one query for each other word does. It is a range query for a word whose nearest picks end
/// before the cost, or a nearest query for each. After a word that has no pick it looks at no page.
pub(crate) fn gather<P: Pages>(
    alloc: Global,
    pages: &mut P,
    tree: &Tree,
    ids: &Ids,
    at: &Origin,
    words: &[Word],
    nearest: &[Vec<Pick>],
    anchor: &Pick,
    own: usize,
    most: Option<u64>,
) -> Result<Option<Vec<Vec<Pick>>>, PageFault>
    requires near { AllByRecursion (λ (list : Vec Pick Global). AreNear list.items) nearest.now }
    requires measured { AllByRecursion (λ (list : Vec Pick Global). AreMeasured at.now list.items) nearest.now }
    requires anchor { anchor.now.dist ≤ 2545584412 }
    requires anchor_measured { anchor.now.dist ≡ distance at.now anchor.now.point }
    ensures gathered { FitsTree (P.pages pages.old) (P.count pages.old) (P.first pages.old) tree.now
        → lists_in nearest.now ≡ first_lists ids.now at.now (nodes_at (P.pages pages.old) tree.now) tree.now.root words.now
        → IfOk result (AreGathered (IsWanted at.now anchor.now most) (led_by own anchor.now (tree_lists ids.now at.now (nodes_at (P.pages pages.old) tree.now) tree.now.root words.now))) }
    ensures near { IfOk result (OfEach AreNear) }
    ensures measured { IfOk result (OfEach (AreMeasured at.now)) }
    ensures opened { FitsTree (P.pages pages.old) (P.count pages.old) (P.first pages.old) tree.now
        → (before : List ℕ) → (found : List Pick) → ((pick : Pick) → Contains (picks_of nearest.now) pick → Contains found pick) → Contains found anchor.now
        → FindsPicks (P.pages pages.old) tree.now ids.now at.now words.now before (P.asked pages.old) found
        → IfOk result (λ lists. FindsPicks (P.pages pages.old) tree.now ids.now at.now words.now before (P.asked pages.new) (found ++ gathered_picks lists)) }
    ensures search { Searches P.Pages tree.now pages.old pages.new result }
{
    let mut lists = Vec::new(alloc);
    for (index, word) in words.iter().enumerate() {
        let known = list_at(nearest, index);
        let is_own = index == own;
        let picks = match companions(
            alloc, pages, tree, ids, at, word, known, anchor, is_own, most,
        ) {
            Ok(picks) => picks,
            Err(fault) => return Err(fault),
        };
        if picks.is_empty() {
            return Ok(None);
        }
        match lists.push(picks) {
            Ok(()) => {}
            Err(_) => return Err(PageFault::Memory),
        }
    }
    Ok(Some(lists))
}
