//! Making ranked searches.
ghost use Rattle.std.specs.Prelude.{◌≡◌, ◌≤◌, None};
ghost use Rattle.spatial_base.specs.Point.{seen_from};
ghost use Rattle.place_values.specs.Query.{IsBlend, IsWeights};
ghost use Rattle.best_first.specs.Asks.{IsTopFor};

use crate::{Ask, Ranking, Terms};
use node_filter::Ids;
use node_rows::Tree;
use place_values::Expr;
use spatial_base::{Origin, Point};
use term_impacts::Word;

impl<'q> Ranking<'q> {
    /// Makes a search for the places nearest to a point, by distances with this scale of longitudes, of those that meet the filter if there
    /// is one. `ids` has the numbers of the filter's words that the store knows.
    pub fn nearest(
        tree: &Tree,
        ids: &'q Ids,
        at: &Point,
        scale: u16,
        filter: Option<&'q Expr>,
    ) -> Ranking<'q>
        requires scale { scale ≤ 1000 }
        ensures tree { result.tree ≡ tree.now }
        ensures ids { result.ids.now ≡ ids.now }
        ensures at { result.at ≡ seen_from at.now scale }
        ensures ask { result.ask ≡ Ask.Nearest filter.entry }
        ensures held { result.held ≡ None }
    {
        Ranking::over(tree, ids, Origin::at(*at, scale), Ask::Nearest(filter))
    }

    /// Makes a search for the places of least cost among those that hold one of the words. `ids` has the numbers of the words that the
    /// store knows.
    pub fn top(
        tree: &Tree,
        ids: &'q Ids,
        at: &Point,
        scale: u16,
        alpha: u16,
        reach: u64,
        words: &'q [(Word, u8)],
    ) -> Ranking<'q>
        requires scale { scale ≤ 1000 }
        requires blend { IsBlend alpha reach }
        requires words { IsWeights words.now }
        ensures tree { result.tree ≡ tree.now }
        ensures ids { result.ids.now ≡ ids.now }
        ensures at { result.at ≡ seen_from at.now scale }
        ensures ask { IsTopFor alpha reach words.now result.ask }
        ensures held { result.held ≡ None }
    {
        Ranking::over(
            tree,
            ids,
            Origin::at(*at, scale),
            Ask::Top(Terms::new(alpha, reach, words)),
        )
    }

    // A search that has met no fault.
    fn over(tree: &Tree, ids: &'q Ids, at: Origin, ask: Ask<'q>) -> Ranking<'q>
        ensures tree { result.tree ≡ tree.now }
        ensures ids { result.ids.now ≡ ids.now }
        ensures at { result.at ≡ at }
        ensures ask { result.ask ≡ ask.entry }
        ensures held { result.held ≡ None }
    {
        // The point is on the map, and the scale at most 1000.
        let _point = at.point();
        Ranking {
            tree: *tree,
            ids,
            at,
            ask,
            held: None,
        }
    }
}
