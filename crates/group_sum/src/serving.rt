// The nearest place that holds all of some words.
ghost use Rattle.std.specs.Prelude.{◌≡◌, ◌&&◌, ◌<◌, ℕ, List, [], None, nat_lt, length, IfOk, IfSome};
ghost use Rattle.std.specs.List.{Contains};
ghost use Rattle.node_filter.specs.Filters.{admits, admits_by};
ghost use Rattle.best_first.specs.Fits.{FitsTree, nodes_at};
ghost use Rattle.collective_query.specs.Opened.{FindsPicks};
ghost use Rattle.collective_query.specs.Searches.{Searches};
ghost use Rattle.collective_query.specs.TreePicks.{tree_lists};
ghost use Rattle.group_sum.specs.Held.{holds_all, head_hit};
ghost use Rattle.group_sum.specs.Named.{AreNamedOnce};
ghost use Rattle.group_sum.specs.Shared.{IsNearestShared, shared_in};

use boolean_queries::{Vicinity, nearest_within};
use node_filter::Ids;
use node_rows::Tree;
use page_face::{PageFault, Pages};
use place_values::{Expr, Hit};
use spatial_base::Origin;
use std::alloc::{AllocError, Global};
use term_impacts::Word;

// The condition that a place meets the filter, if there is one, and has the word.
fn with_word(alloc: Global, filter: Option<Expr>, word: &Word) -> Result<Expr, AllocError>
    ensures { IfOk result (λ both. (f : List ℕ → ℕ) → (level : ℕ) → admits level f both ≡ (admits_by level f filter && nat_lt 0 (f word.now))) }
{
    let has = Expr::Has(*word);
    match filter {
        Some(filter) => {
            let left = Box::new(alloc, filter)?;
            let right = Box::new(alloc, has)?;
            Ok(Expr::And(left, right))
        }
        None => Ok(has),
    }
}

// The condition that a place has all of the words, or `None` if there are no words.
fn all_of(alloc: Global, words: &[Word]) -> Result<Option<Expr>, AllocError>
    ensures all { IfOk result (λ filter. (f : List ℕ → ℕ) → (level : ℕ) → admits_by level f filter ≡ holds_all f words.now) }
    ensures none { IfOk result (λ filter. filter ≡ None → words.now ≡ []) }
    ensures some { IfOk result (λ filter. IfSome filter (λ condition. 0 < length words.now)) }
{
    let mut filter = None;
    for word in words {
        filter = Some(with_word(alloc, filter, word)?);
    }
    Ok(filter)
}

// The first of some hits, if there is one.
fn first_of(hits: &[Hit]) -> Option<Hit>
    ensures { result ≡ head_hit hits.now }
{
    match hits.first() {
        Some(hit) => Some(*hit),
        None => None,
    }
}

/// Returns the nearest place that holds all of the words, by distance and then by key, if one is no farther than the limit. Without words
/// there is none.
///
/// Returns an error, and looks at pages, as a nearest query within that limit does.
pub(crate) fn nearest_with_all<P: Pages>(
    alloc: Global,
    pages: &mut P,
    tree: &Tree,
    ids: &Ids,
    at: &Origin,
    words: &[Word],
    limit: Option<u64>,
) -> Result<Option<Hit>, PageFault>
    ensures nearest { FitsTree (P.pages pages.old) (P.count pages.old) (P.first pages.old) tree.now → AreNamedOnce (nodes_at (P.pages pages.old) tree.now) tree.now.root
        → IfOk result (λ hit. IsNearestShared at.now words.now (tree_lists ids.now at.now (nodes_at (P.pages pages.old) tree.now) tree.now.root words.now) limit hit) }
    ensures opened { FitsTree (P.pages pages.old) (P.count pages.old) (P.first pages.old) tree.now → (all : List (List ℕ)) → ((word : List ℕ) → Contains words.now word → Contains all word)
        → IfOk result (λ hit. FindsPicks (P.pages pages.old) tree.now ids.now at.now all (P.asked pages.old) (P.asked pages.new) (shared_in at.now words.now hit)) }
    ensures search { Searches P.Pages tree.now pages.old pages.new result }
{
    let filter = match all_of(alloc, words) {
        Ok(Some(filter)) => filter,
        Ok(None) => return Ok(None),
        Err(_) => return Err(PageFault::Memory),
    };
    let near = Vicinity {
        at: at.point(),
        scale: at.scale(),
        k: 1,
        limit,
    };
    match nearest_within(alloc, pages, tree, ids, &near, Some(&filter)) {
        Ok(found) => Ok(first_of(&found)),
        Err(fault) => Err(fault),
    }
}
