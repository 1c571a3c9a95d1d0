//! Collective queries.
ghost use Rattle.std.specs.Prelude.{◌≡◌, ◌≢◌, ◌≤◌, Err, Vec, IfOk, IfSome, IsErrOf};
ghost use Rattle.std.specs.List.{AllByRecursion};
ghost use Rattle.std.specs.declared.alloc.Global.{Global};
ghost use Rattle.page_face.specs.Calls.{Reads, FailsReading};
ghost use Rattle.btree_nodes.specs.Damages.{AreReadable};
ghost use Rattle.spatial_base.specs.Point.{seen_from};
ghost use Rattle.place_values.specs.declared.query.Pick.{Pick};
ghost use Rattle.place_values.specs.Group.{least_of};
ghost use Rattle.place_values.specs.Search.{lists_in};
ghost use Rattle.best_first.specs.Fits.{FitsTree, nodes_at};
ghost use Rattle.collective_query.specs.Opened.{FindsPicks, picks_in};
ghost use Rattle.group_search.specs.Picks.{AreNear, AreMeasured};
ghost use Rattle.collective_query.specs.Searches.{IsSearchHarm};
ghost use Rattle.collective_query.specs.TreePicks.{tree_choices};
ghost use Rattle.group_search.specs.Tried.{IsTaken, IsLeast};

use crate::anchoring::{lead_among, search_by_anchor};
use crate::nearest::nearest_each;
use group_search::least_choice;
use node_filter::Ids;
use node_rows::Tree;
use page_face::{Damage, PageFault, Pages};
use place_values::{Chosen, Pick, Picks, cost_of_choice};
use spatial_base::{Origin, Point};
use std::alloc::{AllocError, Global};
use term_impacts::Word;

// The first pick of each list, if each has one.
fn firsts(alloc: Global, lists: &[Vec<Pick>]) -> Result<Option<Vec<Pick>>, AllocError>
    ensures { IfOk result (λ firsts. IsTaken (lists_in lists.now) firsts) }
{
    let mut picks = Vec::new(alloc);
    for list in lists {
        match list.first() {
            Some(pick) => picks.push(*pick)?,
            None => return Ok(None),
        }
    }
    Ok(Some(picks))
}

// The least choice of a pick of each list, if each has one.
fn least_among(
    alloc: Global,
    at: &Origin,
    lists: &[Vec<Pick>],
) -> Result<Option<Chosen>, AllocError>
    requires { AllByRecursion (λ (list : Vec Pick Global). AreNear list.items) lists.now }
    ensures least { IfOk result (λ best. AllByRecursion (λ (list : Vec Pick Global). AreMeasured at.now list.items) lists.now → IsLeast at.now (lists_in lists.now) best) }
    ensures cost { IfOk result (λ best. IfSome best (λ best. best.cost ≤ 5091168824)) }
{
    let picks = match firsts(alloc, lists)? {
        Some(picks) => picks,
        None => return Ok(None),
    };
    let mut best = Chosen {
        cost: cost_of_choice(at, &picks),
        picks: Picks::from_vec(picks),
    };
    least_choice(alloc, at, lists, &mut best)?;
    Ok(Some(best))
}

// The least choice of a place for each word, if each has one.
fn least_group<P: Pages>(
    alloc: Global,
    pages: &mut P,
    tree: &Tree,
    ids: &Ids,
    at: &Origin,
    words: &[Word],
) -> Result<Option<Chosen>, PageFault>
    ensures chosen { FitsTree (P.pages pages.old) (P.count pages.old) (P.first pages.old) tree.now → IfOk result (λ chosen. chosen
        ≡ least_of at.now (tree_choices ids.now at.now (nodes_at (P.pages pages.old) tree.now) tree.now.root words.now)) }
    ensures opened { FitsTree (P.pages pages.old) (P.count pages.old) (P.first pages.old) tree.now
        → IfOk result (λ chosen. FindsPicks (P.pages pages.old) tree.now ids.now at.now words.now (P.asked pages.old) (P.asked pages.new) (picks_in chosen)) }
    ensures damaged { AreReadable (P.pages pages.old) (P.count pages.old) → (damage : Damage) → IsErrOf result (PageFault.Damaged damage)
        → IsSearchHarm (P.pages pages.old) (P.count pages.old) tree.now (P.asked pages.old) (P.asked pages.new) damage }
    ensures no_false_damage { FitsTree (P.pages pages.old) (P.count pages.old) (P.first pages.old) tree.now → (damage : Damage) → result ≢ Err (PageFault.Damaged damage) }
    ensures fails { FailsReading P.Pages pages.old pages.new result }
    ensures frame { Reads P.Pages pages.old pages.new }
{
    let nearest = match nearest_each(alloc, pages, tree, ids, at, words) {
        Ok(nearest) => nearest,
        Err(fault) => return Err(fault),
    };
    let mut best = match least_among(alloc, at, &nearest) {
        Ok(Some(best)) => best,
        Ok(None) => return Ok(None),
        Err(_) => return Err(PageFault::Memory),
    };
    let Some(own) = lead_among(&nearest, best.cost) else {
        return Ok(Some(best));
    };
    match search_by_anchor(alloc, pages, tree, ids, at, words, &nearest, own, &mut best) {
        Ok(()) => Ok(Some(best)),
        Err(fault) => Err(fault),
    }
}

/// Returns the choice of a place for each word that costs least, or `None` if a word has no place. Of those of equal cost it is the one
/// whose keys are least in the words' order. A choice costs the greatest distance from the point to one of its places plus the greatest
/// distance between two of them, in degrees times 10^7, with `scale` thousandths of longitudes. `ids` has the numbers of the words that the
/// store knows.
///
/// Refuses `Damaged` with a rule that a page read in this call breaks, never over a whole tree; `Disk`, `Stopped`, and `Memory` if it runs
/// out of memory. The tree is as before in any case.
///
/// Searches the tree for the five nearest places of each word, and then in memory the choices between these. A word leads only if the five
/// places of some word all lie at most as far from the point as the least of these choices costs. Then the word whose nearest place is
/// farthest leads. One search for each other word finds its places nearest to that place. At most one more finds the lead's places that are
/// no farther than the least choice costs by then.
///
/// If they are at twelve points or fewer, the other words whose five places all lie as near as that are searched for round each of these
/// points, in a circle of the rest of the cost. If a word is frequent there, those that aren't come first. Then, if these let a choice cost
/// so little, each of them is searched for once, as long as the words before it have a place there. If they are at more points, each word's
/// places that are no farther than the least choice costs by then are searched for once. A node is opened only if one of the words is held
/// below it, or if it is the root.
///
/// It keeps the places found round one lead at a time, or twice all places of the words that are no farther than the least choice costs by
/// then. If there is no room for them it returns `Memory`. In the worst case the search among them goes through all choices. This happens
/// if places of any two words lie near enough to each other and those of three or more don't.
pub fn group<P: Pages>(
    alloc: Global,
    pages: &mut P,
    tree: &Tree,
    ids: &Ids,
    at: &Point,
    scale: u16,
    words: &[Word],
) -> Result<Option<Chosen>, PageFault>
    requires scale { scale ≤ 1000 }
    ensures chosen { FitsTree (P.pages pages.old) (P.count pages.old) (P.first pages.old) tree.now → IfOk result (λ chosen. chosen
        ≡ least_of (seen_from at.now scale) (tree_choices ids.now (seen_from at.now scale) (nodes_at (P.pages pages.old) tree.now) tree.now.root words.now)) }
    ensures opened { FitsTree (P.pages pages.old) (P.count pages.old) (P.first pages.old) tree.now
        → IfOk result (λ chosen. FindsPicks (P.pages pages.old) tree.now ids.now (seen_from at.now scale) words.now (P.asked pages.old) (P.asked pages.new) (picks_in chosen)) }
    ensures damaged { AreReadable (P.pages pages.old) (P.count pages.old) → (damage : Damage) → IsErrOf result (PageFault.Damaged damage)
        → IsSearchHarm (P.pages pages.old) (P.count pages.old) tree.now (P.asked pages.old) (P.asked pages.new) damage }
    ensures no_false_damage { FitsTree (P.pages pages.old) (P.count pages.old) (P.first pages.old) tree.now → (damage : Damage) → result ≢ Err (PageFault.Damaged damage) }
    ensures fails { FailsReading P.Pages pages.old pages.new result }
    ensures frame { Reads P.Pages pages.old pages.new }
{
    least_group(alloc, pages, tree, ids, &Origin::at(*at, scale), words)
}
