//! Top queries.
ghost use Rattle.std.specs.Prelude.{◌≡◌, ◌≢◌, ◌≤◌, Err, IfOk, IsErrOf};
ghost use Rattle.spatial_base.specs.Point.{seen_from};
ghost use Rattle.std.specs.List.{flat_map};
ghost use Rattle.page_face.specs.Calls.{Reads, FailsReading};
ghost use Rattle.btree_nodes.specs.Damages.{AreReadable};
ghost use Rattle.place_values.specs.First.{first};
ghost use Rattle.place_values.specs.Hit.{comes_before};
ghost use Rattle.place_values.specs.Query.{IsBlend, IsWeights};
ghost use Rattle.node_rows.specs.Rows.{bytes_in};
ghost use Rattle.best_first.specs.Openings.{Opened};
ghost use Rattle.node_filter.specs.Entries.{tree_places};
ghost use Rattle.node_filter.specs.Hits.{top_item};
ghost use Rattle.best_first.specs.declared.ask.Ask.{Ask};
ghost use Rattle.best_first.specs.Asks.{IsTopFor};
ghost use Rattle.best_first.specs.Fits.{FitsTree, nodes_at};
ghost use Rattle.best_first.specs.Harms.{IsHarm, IsNodePage};
ghost use Rattle.best_first.specs.NodeOpenings.{StandsIn, opened_in, started_in};

use best_first::{Ranking, first_k};
use node_filter::Ids;
use node_rows::Tree;
use page_face::{Damage, PageFault, Pages};
use place_values::Hit;
use spatial_base::Point;
use std::alloc::Global;
use term_impacts::Word;

/// Returns the first k places by cost and then by key, of the tree's entries that hold one of the words. `alpha` thousandths of a place's
/// cost are its distance and the rest its missing relevance, such that the distance `reach` weighs as much as all the relevance. `ids` has
/// the numbers of the words that the store knows.
///
/// Refuses `Damaged` with a rule that a page looked at breaks, never over a whole tree; `Disk`, `Stopped`, and `Memory` if it runs out of
/// memory.
///
/// Looks at the root's rows first, and at the rows and the page of each node that it opens: one row a word that the store knows. A node is
/// opened only while fewer than k places were found that cost less than its bound.
pub fn top<P: Pages>(
    alloc: Global,
    pages: &mut P,
    tree: &Tree,
    ids: &Ids,
    at: &Point,
    scale: u16,
    k: u16,
    alpha: u16,
    reach: u64,
    words: &[(Word, u8)],
) -> Result<Vec<Hit>, PageFault>
    requires scale { scale ≤ 1000 }
    requires blend { IsBlend alpha reach }
    requires words { IsWeights words.now }
    ensures found { FitsTree (P.pages pages.old) (P.count pages.old) (P.first pages.old) tree.now → IfOk result (λ found. found.items
        ≡ first comes_before k (flat_map (top_item ids.now (seen_from at.now scale) alpha reach words.now) (tree_places (nodes_at (P.pages pages.old) tree.now) tree.now.root))) }
    ensures opened { AreReadable (P.pages pages.old) (P.count pages.old) → IfOk result (λ found. (ask : Ask) × IsTopFor alpha reach words.now ask
        × Opened StandsIn (P.pages pages.old) (IsNodePage (P.pages pages.old) tree.now.rows) (FitsTree (P.pages pages.old) (P.count pages.old) (P.first pages.old) tree.now)
        (opened_in ids.now (seen_from at.now scale) ask (nodes_at (P.pages pages.old) tree.now))
        (started_in ids.now ask (nodes_at (P.pages pages.old) tree.now) (bytes_in (P.pages pages.old) tree.now.rows) tree.now.root)
        tree.now.root (P.asked pages.old) (P.asked pages.new) k found.items) }
    ensures damaged { AreReadable (P.pages pages.old) (P.count pages.old) → (damage : Damage) → IsErrOf result (PageFault.Damaged damage)
        → IsHarm (P.pages pages.old) (P.count pages.old) tree.now.rows (P.asked pages.old) (P.asked pages.new) damage }
    ensures no_false_damage { FitsTree (P.pages pages.old) (P.count pages.old) (P.first pages.old) tree.now → (damage : Damage) → result ≢ Err (PageFault.Damaged damage) }
    ensures fails { FailsReading P.Pages pages.old pages.new result }
    ensures frame { Reads P.Pages pages.old pages.new }
{
    let mut ranking = Ranking::top(tree, ids, at, scale, alpha, reach, words);
    first_k(alloc, pages, &mut ranking, k)
}
