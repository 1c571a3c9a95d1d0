//! The search that is led by the picks of one word.
ghost use Rattle.std.specs.Prelude.{◌≡◌, ◌<◌, ◌≤◌, ◌++◌, [], ℕ, List, Vec, Option, Some, IfOk, OnOk, IfSome, IfNone, length};
ghost use Rattle.std.specs.List.{AllByRecursion, Contains};
ghost use Rattle.std.specs.declared.alloc.Global.{Global};
ghost use Rattle.place_values.specs.declared.query.Pick.{Pick};
ghost use Rattle.place_values.specs.Search.{lists_in};
ghost use Rattle.best_first.specs.Fits.{FitsTree, nodes_at};
ghost use Rattle.group_search.specs.Choices.{IsInBoth, AreCut};
ghost use Rattle.group_search.specs.Leads.{AreLeads, Follows};
ghost use Rattle.collective_query.specs.Opened.{FindsPicks};
ghost use Rattle.group_search.specs.Picks.{AreNear, AreMeasured, GoesBeyond, picks_of};
ghost use Rattle.collective_query.specs.Searches.{Searches};
ghost use Rattle.collective_query.specs.TreePicks.{tree_lists, first_lists};
ghost use Rattle.group_search.specs.Tried.{IsChosen, IsFirst, IsBest};

use crate::candidates::{candidates, reaches};
use crate::following::{follow_each, try_beside};
use group_search::{is_behind, list_at, search_lists};
use node_filter::Ids;
use node_rows::Tree;
use page_face::{PageFault, Pages};
use place_values::{Chosen, Pick};
use spatial_base::Origin;
use std::alloc::Global;
use term_impacts::Word;

// How far the first pick of a list is.
fn first_dist(list: &[Pick]) -> u64 {
    match list.first() {
        Some(pick) => pick.dist,
        None => 0,
    }
}

// The first of the lists whose first pick is farthest.
fn farthest_list(lists: &[Vec<Pick>]) -> Option<usize>
    ensures some { IfSome result (λ at. at < length lists.now) }
    ensures none { IfNone result (lists.now ≡ []) }
{
    let mut anchor = None;
    let mut most = 0;
    for (index, list) in lists.iter().enumerate() {
        let dist = first_dist(list);
        if anchor.is_none() || dist > most {
            anchor = Some(index);
            most = dist;
        }
    }
    anchor
}

/// Returns which of the words leads the search: the first of those whose nearest pick is farthest. `None` if the nearest picks of each word
/// have all that are at most `most` from the point, so that no search is needed.
pub(crate) fn lead_among(nearest: &[Vec<Pick>], most: u64) -> Option<usize>
    ensures some { IfSome result (λ own. own < length nearest.now) }
    ensures none { IfNone result (AllByRecursion (λ (list : Vec Pick Global). GoesBeyond 5 most list.items) nearest.now) }
{
    for list in nearest {
        if !reaches(list, most) {
            return farthest_list(nearest);
        }
    }
    None
}

// Leaves the best of the best choice so far and the choices of the picks nearest to the first of some lead picks.
fn begin<P: Pages>(
    alloc: Global,
    pages: &mut P,
    tree: &Tree,
    ids: &Ids,
    at: &Origin,
    words: &[Word],
    nearest: &[Vec<Pick>],
    leads: &[Pick],
    own: usize,
    best: &mut Chosen,
) -> Result<(), PageFault>
    requires near { AllByRecursion (λ (list : Vec Pick Global). AreNear list.items) nearest.now }
    requires measured { AllByRecursion (λ (list : Vec Pick Global). AreMeasured at.now list.items) nearest.now }
    requires leads { AreNear leads.now }
    requires leads_measured { AreMeasured at.now leads.now }
    requires cost { best.old.cost ≤ 5091168824 }
    ensures chosen { FitsTree (P.pages pages.old) (P.count pages.old) (P.first pages.old) tree.now
        → lists_in nearest.now ≡ first_lists ids.now at.now (nodes_at (P.pages pages.old) tree.now) tree.now.root words.now
        → AreLeads (tree_lists ids.now at.now (nodes_at (P.pages pages.old) tree.now) tree.now.root words.now) own leads.now → IsChosen at.now (tree_lists ids.now at.now (nodes_at (P.pages pages.old) tree.now) tree.now.root words.now) best.old
        → (before : List ℕ) → (known : List Pick) → ((pick : Pick) → Contains (picks_of nearest.now) pick → Contains known pick) → ((pick : Pick) → Contains leads.now pick → Contains known pick)
        → FindsPicks (P.pages pages.old) tree.now ids.now at.now words.now before (P.asked pages.old) (known ++ best.old.picks)
        → OnOk result (IsChosen at.now (tree_lists ids.now at.now (nodes_at (P.pages pages.old) tree.now) tree.now.root words.now) best.new
        × FindsPicks (P.pages pages.old) tree.now ids.now at.now words.now before (P.asked pages.new) (known ++ best.new.picks)) }
    ensures cost { OnOk result (best.new.cost ≤ best.old.cost) }
    ensures search { Searches P.Pages tree.now pages.old pages.new result }
{
    match leads.first() {
        Some(anchor) => try_beside(
            alloc, pages, tree, ids, at, words, nearest, anchor, own, None, best,
        ),
        None => Ok(()),
    }
}

// For each word its picks that are at most so far from the point.
fn within_each<P: Pages>(
    alloc: Global,
    pages: &mut P,
    tree: &Tree,
    ids: &Ids,
    at: &Origin,
    words: &[Word],
    nearest: &[Vec<Pick>],
    most: u64,
) -> Result<Vec<Vec<Pick>>, PageFault>
    requires near { AllByRecursion (λ (list : Vec Pick Global). AreNear list.items) nearest.now }
    requires measured { AllByRecursion (λ (list : Vec Pick Global). AreMeasured at.now list.items) nearest.now }
    ensures cut { FitsTree (P.pages pages.old) (P.count pages.old) (P.first pages.old) tree.now
        → lists_in nearest.now ≡ first_lists ids.now at.now (nodes_at (P.pages pages.old) tree.now) tree.now.root words.now
        → IfOk result (λ lists. AreCut (IsInBoth at.now most at.now most) (tree_lists ids.now at.now (nodes_at (P.pages pages.old) tree.now) tree.now.root words.now) (lists_in lists.items)) }
    ensures near { IfOk result (λ lists. AllByRecursion (λ (list : Vec Pick Global). AreNear list.items) lists.items) }
    ensures measured { IfOk result (λ lists. AllByRecursion (λ (list : Vec Pick Global). AreMeasured at.now list.items) lists.items) }
    ensures opened { FitsTree (P.pages pages.old) (P.count pages.old) (P.first pages.old) tree.now
        → (before : List ℕ) → (found : List Pick) → ((pick : Pick) → Contains (picks_of nearest.now) pick → Contains found pick)
        → FindsPicks (P.pages pages.old) tree.now ids.now at.now words.now before (P.asked pages.old) found
        → IfOk result (λ lists. FindsPicks (P.pages pages.old) tree.now ids.now at.now words.now before (P.asked pages.new) (found ++ picks_of lists.items)) }
    ensures search { Searches P.Pages tree.now pages.old pages.new result }
{
    let mut lists = Vec::new(alloc);
    for (index, word) in words.iter().enumerate() {
        let known = list_at(nearest, index);
        let picks = match candidates(alloc, pages, tree, ids, at, most, at, most, word, known) {
            Ok(picks) => picks,
            Err(fault) => return Err(fault),
        };
        match lists.push(picks) {
            Ok(()) => {}
            Err(_) => return Err(PageFault::Memory),
        }
    }
    Ok(lists)
}

// Leaves the least of all choices, if the best one so far is one of them. Each word's places are read once, and the rest is in memory.
fn search_within<P: Pages>(
    alloc: Global,
    pages: &mut P,
    tree: &Tree,
    ids: &Ids,
    at: &Origin,
    words: &[Word],
    nearest: &[Vec<Pick>],
    own: usize,
    best: &mut Chosen,
) -> Result<(), PageFault>
    requires near { AllByRecursion (λ (list : Vec Pick Global). AreNear list.items) nearest.now }
    requires measured { AllByRecursion (λ (list : Vec Pick Global). AreMeasured at.now list.items) nearest.now }
    requires cost { best.old.cost ≤ 5091168824 }
    ensures least { FitsTree (P.pages pages.old) (P.count pages.old) (P.first pages.old) tree.now
        → lists_in nearest.now ≡ first_lists ids.now at.now (nodes_at (P.pages pages.old) tree.now) tree.now.root words.now
        → own < length words.now → IsChosen at.now (tree_lists ids.now at.now (nodes_at (P.pages pages.old) tree.now) tree.now.root words.now) best.old
        → (before : List ℕ) → (known : List Pick) → ((pick : Pick) → Contains (picks_of nearest.now) pick → Contains known pick)
        → FindsPicks (P.pages pages.old) tree.now ids.now at.now words.now before (P.asked pages.old) (known ++ best.old.picks)
        → OnOk result (IsBest at.now (tree_lists ids.now at.now (nodes_at (P.pages pages.old) tree.now) tree.now.root words.now) best.old best.new
        × FindsPicks (P.pages pages.old) tree.now ids.now at.now words.now before (P.asked pages.new) (known ++ best.new.picks)) }
    ensures cost { OnOk result (best.new.cost ≤ best.old.cost) }
    ensures search { Searches P.Pages tree.now pages.old pages.new result }
{
    let most = best.cost;
    let lists = match within_each(alloc, pages, tree, ids, at, words, nearest, most) {
        Ok(lists) => lists,
        Err(fault) => return Err(fault),
    };
    match search_lists(alloc, at, &lists, own, best) {
        Ok(()) => Ok(()),
        Err(_) => Err(PageFault::Memory),
    }
}

/// If the lead picks are followed at more points than this, all picks that are near enough are read once and searched in memory. Round
/// fewer points the tree is searched for each.
const MANY: usize = 12;

// Round how many points a search that follows each of the leads looks.
fn points_of(leads: &[Pick]) -> usize {
    let mut points: usize = 0;
    let mut last = None;
    for pick in leads {
        if !is_behind(pick, &last) {
            points = points.saturating_add(1);
            last = Some(*pick);
        }
    }
    points
}

// Leaves the best of the best choice so far and all choices that take one of the lead picks.
fn follow_leads<P: Pages>(
    alloc: Global,
    pages: &mut P,
    tree: &Tree,
    ids: &Ids,
    at: &Origin,
    words: &[Word],
    nearest: &[Vec<Pick>],
    leads: &[Pick],
    own: usize,
    best: &mut Chosen,
) -> Result<(), PageFault>
    requires near { AllByRecursion (λ (list : Vec Pick Global). AreNear list.items) nearest.now }
    requires measured { AllByRecursion (λ (list : Vec Pick Global). AreMeasured at.now list.items) nearest.now }
    requires leads { AreNear leads.now }
    requires leads_measured { AreMeasured at.now leads.now }
    requires cost { best.old.cost ≤ 5091168824 }
    ensures followed { FitsTree (P.pages pages.old) (P.count pages.old) (P.first pages.old) tree.now
        → lists_in nearest.now ≡ first_lists ids.now at.now (nodes_at (P.pages pages.old) tree.now) tree.now.root words.now
        → AreLeads (tree_lists ids.now at.now (nodes_at (P.pages pages.old) tree.now) tree.now.root words.now) own leads.now → IsChosen at.now (tree_lists ids.now at.now (nodes_at (P.pages pages.old) tree.now) tree.now.root words.now) best.old
        → (before : List ℕ) → (known : List Pick) → ((pick : Pick) → Contains (picks_of nearest.now) pick → Contains known pick) → ((pick : Pick) → Contains leads.now pick → Contains known pick)
        → FindsPicks (P.pages pages.old) tree.now ids.now at.now words.now before (P.asked pages.old) (known ++ best.old.picks)
        → OnOk result (Follows at.now (tree_lists ids.now at.now (nodes_at (P.pages pages.old) tree.now) tree.now.root words.now) own leads.now best.old best.new
        × FindsPicks (P.pages pages.old) tree.now ids.now at.now words.now before (P.asked pages.new) (known ++ best.new.picks)) }
    ensures cost { OnOk result (best.new.cost ≤ best.old.cost) }
    ensures search { Searches P.Pages tree.now pages.old pages.new result }
{
    let points = points_of(leads);
    if points > MANY {
        return search_within(alloc, pages, tree, ids, at, words, nearest, own, best);
    }
    follow_each(
        alloc, pages, tree, ids, at, words, nearest, leads, own, best,
    )
}

/// Leaves the least of all choices, if the best one so far is one of them. `own` is the word that leads the search.
///
/// The choices of the picks nearest to the word's first one are tried, so that the best choice costs little. Then each of its picks that
/// are no farther from the point than this one costs is followed. All choices with it that cost no more are searched, if the words that
/// aren't frequent round it let one cost so little. Of the picks at one point only the first is followed: no choice with another one of
/// them is better.
///
/// Returns an error, and looks at pages, as these queries do. First comes a nearest query for each other word. Then comes a range query for
/// the word, if its nearest picks end before the cost. Last come at most two range queries for each other word round each point of its
/// picks, however many are at it. (Picks of several points that are equally far from the query's may alternate by their keys. Then these
/// points are searched round more than once.)
pub(crate) fn search_by_anchor<P: Pages>(
    alloc: Global,
    pages: &mut P,
    tree: &Tree,
    ids: &Ids,
    at: &Origin,
    words: &[Word],
    nearest: &[Vec<Pick>],
    own: usize,
    best: &mut Chosen,
) -> Result<(), PageFault>
    requires near { AllByRecursion (λ (list : Vec Pick Global). AreNear list.items) nearest.now }
    requires measured { AllByRecursion (λ (list : Vec Pick Global). AreMeasured at.now list.items) nearest.now }
    requires cost { best.old.cost ≤ 5091168824 }
    ensures least { FitsTree (P.pages pages.old) (P.count pages.old) (P.first pages.old) tree.now
        → lists_in nearest.now ≡ first_lists ids.now at.now (nodes_at (P.pages pages.old) tree.now) tree.now.root words.now
        → own < length words.now → IsChosen at.now (tree_lists ids.now at.now (nodes_at (P.pages pages.old) tree.now) tree.now.root words.now) best.old
        → (before : List ℕ) → FindsPicks (P.pages pages.old) tree.now ids.now at.now words.now before (P.asked pages.old) (picks_of nearest.now ++ best.old.picks)
        → OnOk result ((IsChosen at.now (tree_lists ids.now at.now (nodes_at (P.pages pages.old) tree.now) tree.now.root words.now) best.new × IsFirst at.now (tree_lists ids.now at.now (nodes_at (P.pages pages.old) tree.now) tree.now.root words.now) best.new)
        × FindsPicks (P.pages pages.old) tree.now ids.now at.now words.now before (P.asked pages.new) best.new.picks) }
    ensures cost { OnOk result (best.new.cost ≤ best.old.cost) }
    ensures search { Searches P.Pages tree.now pages.old pages.new result }
{
    let known = list_at(nearest, own);
    match begin(
        alloc, pages, tree, ids, at, words, nearest, known, own, &mut *best,
    ) {
        Ok(()) => {}
        Err(fault) => return Err(fault),
    }
    let Some(word) = words.get(own) else {
        return Ok(());
    };
    let most = best.cost;
    let leads = match candidates(alloc, pages, tree, ids, at, most, at, most, word, known) {
        Ok(leads) => leads,
        Err(fault) => return Err(fault),
    };
    follow_leads(
        alloc, pages, tree, ids, at, words, nearest, &leads, own, best,
    )
}
