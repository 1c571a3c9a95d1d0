//! Whether a lead pick may be in a choice that costs little, by the words that few places hold round it.
ghost use Rattle.std.specs.Prelude.{◌≡◌, ◌≢◌, ◌≤◌, ◌<◌, ◌++◌, false, ℕ, List, Vec, length, IfOk};
ghost use Rattle.std.specs.List.{AllByRecursion, Contains};
ghost use Rattle.std.specs.declared.alloc.Global.{Global};
ghost use Rattle.spatial_base.specs.Point.{distance};
ghost use Rattle.place_values.specs.declared.query.Pick.{Pick};
ghost use Rattle.place_values.specs.Group.{choice_cost};
ghost use Rattle.place_values.specs.Search.{lists_in};
ghost use Rattle.best_first.specs.Fits.{FitsTree, nodes_at};
ghost use Rattle.group_search.specs.Choices.{IsChoice};
ghost use Rattle.group_search.specs.Leads.{led_by};
ghost use Rattle.collective_query.specs.Opened.{FindsPicks};
ghost use Rattle.group_search.specs.Picks.{AreNear, AreMeasured, picks_of};
ghost use Rattle.collective_query.specs.Searches.{Searches};
ghost use Rattle.collective_query.specs.TreePicks.{tree_lists, first_lists};

use crate::gathering::companions;
use crate::nearest::NEAREST;
use group_search::{list_at, may_cost};
use node_filter::Ids;
use node_rows::Tree;
use page_face::{PageFault, Pages};
use place_values::Pick;
use spatial_base::Origin;
use std::alloc::Global;
use term_impacts::Word;

/// A word is frequent in a circle that is more than so many times as wide as the one that has its nearest picks. If its places lay evenly,
/// more than 20 would be there. Of the widths that were tried over places like a user's, 2 and 6, this one was the faster.
const WIDE: u64 = 2;

// Whether many picks for a word may lie in a circle, as its nearest ones are.
fn is_frequent(nearest: &[Pick], radius: u64) -> bool {
    match nearest.last() {
        Some(pick) => {
            nearest.len() >= NEAREST as usize && pick.dist.saturating_mul(WIDE) < radius
        }
        None => false,
    }
}

// Whether one of the words is frequent in a circle.
fn has_frequent(nearest: &[Vec<Pick>], radius: u64) -> bool {
    for list in nearest {
        if is_frequent(list, radius) {
            return true;
        }
    }
    false
}

// Whether the lead pick alone is taken for a word: its own, or one that is frequent.
fn is_alone(index: usize, own: usize, nearest: &[Pick], radius: u64) -> bool
    ensures { result ≡ false → index ≢ own }
{
    index == own || is_frequent(nearest, radius)
}

// The picks round a lead pick for each word that isn't frequent there, and the lead pick alone for its own word and the others.
fn rare_companions<P: Pages>(
    alloc: Global,
    pages: &mut P,
    tree: &Tree,
    ids: &Ids,
    at: &Origin,
    words: &[Word],
    nearest: &[Vec<Pick>],
    anchor: &Pick,
    own: usize,
    most: u64,
) -> Result<Vec<Vec<Pick>>, PageFault>
    requires near { AllByRecursion (λ (list : Vec Pick Global). AreNear list.items) nearest.now }
    requires measured { AllByRecursion (λ (list : Vec Pick Global). AreMeasured at.now list.items) nearest.now }
    requires anchor { anchor.now.dist ≤ 2545584412 }
    requires anchor_measured { anchor.now.dist ≡ distance at.now anchor.now.point }
    ensures met { FitsTree (P.pages pages.old) (P.count pages.old) (P.first pages.old) tree.now
        → lists_in nearest.now ≡ first_lists ids.now at.now (nodes_at (P.pages pages.old) tree.now) tree.now.root words.now → own < length words.now
        → IfOk result (λ lists. (choice : List Pick) → IsChoice (led_by own anchor.now (tree_lists ids.now at.now (nodes_at (P.pages pages.old) tree.now) tree.now.root words.now)) choice
        → choice_cost at.now choice ≤ most → (list : List Pick) → Contains (lists_in lists.items) list → (pick : Pick) × Contains choice pick × Contains list pick) }
    ensures near { IfOk result (λ lists. AllByRecursion (λ (list : Vec Pick Global). AreNear list.items) lists.items) }
    ensures measured { IfOk result (λ lists. AllByRecursion (λ (list : Vec Pick Global). AreMeasured at.now list.items) lists.items) }
    ensures opened { FitsTree (P.pages pages.old) (P.count pages.old) (P.first pages.old) tree.now
        → (before : List ℕ) → (found : List Pick) → ((pick : Pick) → Contains (picks_of nearest.now) pick → Contains found pick) → Contains found anchor.now
        → FindsPicks (P.pages pages.old) tree.now ids.now at.now words.now before (P.asked pages.old) found
        → IfOk result (λ lists. FindsPicks (P.pages pages.old) tree.now ids.now at.now words.now before (P.asked pages.new) (found ++ picks_of lists.items)) }
    ensures search { Searches P.Pages tree.now pages.old pages.new result }
{
    let radius = most.saturating_sub(anchor.dist);
    let mut lists = Vec::new(alloc);
    for (index, word) in words.iter().enumerate() {
        let known = list_at(nearest, index);
        let alone = is_alone(index, own, known, radius);
        let cost = Some(most);
        let picks = match companions(
            alloc, pages, tree, ids, at, word, known, anchor, alone, cost,
        ) {
            Ok(picks) => picks,
            Err(fault) => return Err(fault),
        };
        match lists.push(picks) {
            Ok(()) => {}
            Err(_) => return Err(PageFault::Memory),
        }
    }
    Ok(lists)
}

/// Returns whether a lead pick may be in a choice that costs at most `most`, by the words that aren't frequent round it. If not, no choice
/// with it costs so little.
///
/// Returns an error, and looks at pages, as a range query does for each word that isn't frequent; looks at none if no word is frequent.
pub(crate) fn may_anchor<P: Pages>(
    alloc: Global,
    pages: &mut P,
    tree: &Tree,
    ids: &Ids,
    at: &Origin,
    words: &[Word],
    nearest: &[Vec<Pick>],
    anchor: &Pick,
    own: usize,
    most: u64,
) -> Result<bool, PageFault>
    requires near { AllByRecursion (λ (list : Vec Pick Global). AreNear list.items) nearest.now }
    requires measured { AllByRecursion (λ (list : Vec Pick Global). AreMeasured at.now list.items) nearest.now }
    requires anchor { anchor.now.dist ≤ 2545584412 }
    requires anchor_measured { anchor.now.dist ≡ distance at.now anchor.now.point }
    requires most { most ≤ 5091168824 }
    ensures refused { FitsTree (P.pages pages.old) (P.count pages.old) (P.first pages.old) tree.now
        → lists_in nearest.now ≡ first_lists ids.now at.now (nodes_at (P.pages pages.old) tree.now) tree.now.root words.now → own < length words.now
        → IfOk result (λ may. may ≡ false → (choice : List Pick) → IsChoice (led_by own anchor.now (tree_lists ids.now at.now (nodes_at (P.pages pages.old) tree.now) tree.now.root words.now)) choice
        → most < choice_cost at.now choice) }
    ensures opened { FitsTree (P.pages pages.old) (P.count pages.old) (P.first pages.old) tree.now
        → (before : List ℕ) → (found : List Pick) → ((pick : Pick) → Contains (picks_of nearest.now) pick → Contains found pick) → Contains found anchor.now
        → FindsPicks (P.pages pages.old) tree.now ids.now at.now words.now before (P.asked pages.old) found
        → IfOk result (λ _. FindsPicks (P.pages pages.old) tree.now ids.now at.now words.now before (P.asked pages.new) found) }
    ensures search { Searches P.Pages tree.now pages.old pages.new result }
{
    if !has_frequent(nearest, most.saturating_sub(anchor.dist)) {
        return Ok(true);
    }
    let lists = match rare_companions(
        alloc, pages, tree, ids, at, words, nearest, anchor, own, most,
    ) {
        Ok(lists) => lists,
        Err(fault) => return Err(fault),
    };
    match may_cost(alloc, at, &lists, most) {
        Ok(may) => Ok(may),
        Err(_) => Err(PageFault::Memory),
    }
}
