//! The search round lead picks, of each point in turn.
ghost use Rattle.std.specs.Prelude.{◌≡◌, ◌<◌, ◌≤◌, ◌++◌, ◌∷◌, [], ℕ, List, Vec, Option, Some, OnOk};
ghost use Rattle.std.specs.List.{AllByRecursion, Contains};
ghost use Rattle.std.specs.declared.alloc.Global.{Global};
ghost use Rattle.spatial_base.specs.Point.{distance};
ghost use Rattle.place_values.specs.declared.query.Pick.{Pick};
ghost use Rattle.place_values.specs.Search.{lists_in};
ghost use Rattle.best_first.specs.Fits.{FitsTree, nodes_at};
ghost use Rattle.group_search.specs.Leads.{led_by, AreLeads, IsWanted, Betters, Follows};
ghost use Rattle.collective_query.specs.Opened.{FindsPicks};
ghost use Rattle.group_search.specs.Picks.{AreNear, AreMeasured, picks_of};
ghost use Rattle.collective_query.specs.Searches.{Searches};
ghost use Rattle.collective_query.specs.TreePicks.{tree_lists, first_lists};
ghost use Rattle.group_search.specs.Tried.{IsChosen};

use crate::filtering::may_anchor;
use crate::gathering::gather;
use group_search::{is_behind, least_choice};
use node_filter::Ids;
use node_rows::Tree;
use page_face::{PageFault, Pages};
use place_values::{Chosen, Pick};
use spatial_base::Origin;
use std::alloc::Global;
use term_impacts::Word;

/// Leaves the best of the best choice so far and the choices of picks round a lead pick, as they are gathered.
pub(crate) fn try_beside<P: Pages>(
    alloc: Global,
    pages: &mut P,
    tree: &Tree,
    ids: &Ids,
    at: &Origin,
    words: &[Word],
    nearest: &[Vec<Pick>],
    anchor: &Pick,
    own: usize,
    most: Option<u64>,
    best: &mut Chosen,
) -> Result<(), PageFault>
    requires near { AllByRecursion (λ (list : Vec Pick Global). AreNear list.items) nearest.now }
    requires measured { AllByRecursion (λ (list : Vec Pick Global). AreMeasured at.now list.items) nearest.now }
    requires anchor { anchor.now.dist ≤ 2545584412 }
    requires anchor_measured { anchor.now.dist ≡ distance at.now anchor.now.point }
    requires cost { best.old.cost ≤ 5091168824 }
    ensures tried { FitsTree (P.pages pages.old) (P.count pages.old) (P.first pages.old) tree.now
        → lists_in nearest.now ≡ first_lists ids.now at.now (nodes_at (P.pages pages.old) tree.now) tree.now.root words.now
        → AreLeads (tree_lists ids.now at.now (nodes_at (P.pages pages.old) tree.now) tree.now.root words.now) own (anchor.now ∷ []) → IsChosen at.now (tree_lists ids.now at.now (nodes_at (P.pages pages.old) tree.now) tree.now.root words.now) best.old
        → (before : List ℕ) → (known : List Pick) → ((pick : Pick) → Contains (picks_of nearest.now) pick → Contains known pick) → Contains known anchor.now
        → FindsPicks (P.pages pages.old) tree.now ids.now at.now words.now before (P.asked pages.old) (known ++ best.old.picks)
        → OnOk result (Betters at.now (tree_lists ids.now at.now (nodes_at (P.pages pages.old) tree.now) tree.now.root words.now) (IsWanted at.now anchor.now most) (led_by own anchor.now (tree_lists ids.now at.now (nodes_at (P.pages pages.old) tree.now) tree.now.root words.now)) best.old best.new
        × FindsPicks (P.pages pages.old) tree.now ids.now at.now words.now before (P.asked pages.new) (known ++ best.new.picks)) }
    ensures cost { OnOk result (best.new.cost ≤ best.old.cost) }
    ensures search { Searches P.Pages tree.now pages.old pages.new result }
{
    let lists = match gather(
        alloc, pages, tree, ids, at, words, nearest, anchor, own, most,
    ) {
        Ok(Some(lists)) => lists,
        Ok(None) => return Ok(()),
        Err(fault) => return Err(fault),
    };
    match least_choice(alloc, at, &lists, best) {
        Ok(()) => Ok(()),
        Err(_) => Err(PageFault::Memory),
    }
}

// Leaves the best of the best choice so far and all choices that take a lead pick.
fn follow<P: Pages>(
    alloc: Global,
    pages: &mut P,
    tree: &Tree,
    ids: &Ids,
    at: &Origin,
    words: &[Word],
    nearest: &[Vec<Pick>],
    anchor: &Pick,
    own: usize,
    best: &mut Chosen,
) -> Result<(), PageFault>
    requires near { AllByRecursion (λ (list : Vec Pick Global). AreNear list.items) nearest.now }
    requires measured { AllByRecursion (λ (list : Vec Pick Global). AreMeasured at.now list.items) nearest.now }
    requires anchor { anchor.now.dist ≤ 2545584412 }
    requires anchor_measured { anchor.now.dist ≡ distance at.now anchor.now.point }
    requires cost { best.old.cost ≤ 5091168824 }
    ensures followed { FitsTree (P.pages pages.old) (P.count pages.old) (P.first pages.old) tree.now
        → lists_in nearest.now ≡ first_lists ids.now at.now (nodes_at (P.pages pages.old) tree.now) tree.now.root words.now
        → AreLeads (tree_lists ids.now at.now (nodes_at (P.pages pages.old) tree.now) tree.now.root words.now) own (anchor.now ∷ []) → IsChosen at.now (tree_lists ids.now at.now (nodes_at (P.pages pages.old) tree.now) tree.now.root words.now) best.old
        → (before : List ℕ) → (known : List Pick) → ((pick : Pick) → Contains (picks_of nearest.now) pick → Contains known pick) → Contains known anchor.now
        → FindsPicks (P.pages pages.old) tree.now ids.now at.now words.now before (P.asked pages.old) (known ++ best.old.picks)
        → OnOk result (Follows at.now (tree_lists ids.now at.now (nodes_at (P.pages pages.old) tree.now) tree.now.root words.now) own (anchor.now ∷ []) best.old best.new
        × FindsPicks (P.pages pages.old) tree.now ids.now at.now words.now before (P.asked pages.new) (known ++ best.new.picks)) }
    ensures cost { OnOk result (best.new.cost ≤ best.old.cost) }
    ensures search { Searches P.Pages tree.now pages.old pages.new result }
{
    if anchor.dist > best.cost {
        return Ok(());
    }
    let may = match may_anchor(
        alloc, pages, tree, ids, at, words, nearest, anchor, own, best.cost,
    ) {
        Ok(may) => may,
        Err(fault) => return Err(fault),
    };
    if !may {
        return Ok(());
    }
    let most = Some(best.cost);
    try_beside(
        alloc, pages, tree, ids, at, words, nearest, anchor, own, most, best,
    )
}

/// Leaves the best of the best choice so far and all choices that take one of the lead picks. Leads at one point come one after the other.
/// Only the first of them is followed: with another one in its place a choice costs as much, and has greater keys.
pub(crate) fn follow_each<P: Pages>(
    alloc: Global,
    pages: &mut P,
    tree: &Tree,
    ids: &Ids,
    at: &Origin,
    words: &[Word],
    nearest: &[Vec<Pick>],
    leads: &[Pick],
    own: usize,
    best: &mut Chosen,
) -> Result<(), PageFault>
    requires near { AllByRecursion (λ (list : Vec Pick Global). AreNear list.items) nearest.now }
    requires measured { AllByRecursion (λ (list : Vec Pick Global). AreMeasured at.now list.items) nearest.now }
    requires leads { AreNear leads.now }
    requires leads_measured { AreMeasured at.now leads.now }
    requires cost { best.old.cost ≤ 5091168824 }
    ensures followed { FitsTree (P.pages pages.old) (P.count pages.old) (P.first pages.old) tree.now
        → lists_in nearest.now ≡ first_lists ids.now at.now (nodes_at (P.pages pages.old) tree.now) tree.now.root words.now
        → AreLeads (tree_lists ids.now at.now (nodes_at (P.pages pages.old) tree.now) tree.now.root words.now) own leads.now → IsChosen at.now (tree_lists ids.now at.now (nodes_at (P.pages pages.old) tree.now) tree.now.root words.now) best.old
        → (before : List ℕ) → (known : List Pick) → ((pick : Pick) → Contains (picks_of nearest.now) pick → Contains known pick) → ((pick : Pick) → Contains leads.now pick → Contains known pick)
        → FindsPicks (P.pages pages.old) tree.now ids.now at.now words.now before (P.asked pages.old) (known ++ best.old.picks)
        → OnOk result (Follows at.now (tree_lists ids.now at.now (nodes_at (P.pages pages.old) tree.now) tree.now.root words.now) own leads.now best.old best.new
        × FindsPicks (P.pages pages.old) tree.now ids.now at.now words.now before (P.asked pages.new) (known ++ best.new.picks)) }
    ensures cost { OnOk result (best.new.cost ≤ best.old.cost) }
    ensures search { Searches P.Pages tree.now pages.old pages.new result }
{
    let mut last = None;
    for anchor in leads {
        if is_behind(anchor, &last) {
            continue;
        }
        match follow(
            alloc, pages, tree, ids, at, words, nearest, anchor, own, best,
        ) {
            Ok(()) => {}
            Err(fault) => return Err(fault),
        }
        last = Some(*anchor);
    }
    Ok(())
}
