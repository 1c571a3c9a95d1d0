//! Best-first search of an IR-tree: the first k places by cost and then by key, opening few nodes.
//!
//! Hjaltason and Samet, "Distance Browsing in Spatial Databases" (ACM Transactions on Database Systems 24, 1999). Nodes wait in a queue,
//! each with a bound that no place below it costs less than. The node of the least bound is opened next, until the k best places found cost
//! less than every bound that waits.
//!
//! [`Ranking`] opens the nodes of the tree for such a search: for the nearest places that meet a filter, and for the places that words and
//! distance rank first (Cong, Jensen and Wu, VLDB 2009). Which children may hold an answer, and the bound of each, come from their parent:
//! its rectangles, by MINDIST (Roussopoulos, Kelley and Vincent 1995), and its rows of words. So an opened node costs one look at its page
//! and one row a word of the query, and a child that isn't opened costs nothing. Slots are measured in the page: a place's key is read only
//! if the place costs no more than the kth one found so far, and a child that costs more isn't queued.
//!
//! Tests: `search_tests/src/best_first_tests.rt` and `search_tests/src/topk_query_tests.rt`.
#![tactic(auto)]

mod ask;
mod best;
mod costs;
mod gathering;
mod item;
mod making;
mod marking;
mod opener;
mod opening;
mod queue;
mod ranked;
mod search;
mod searching;
mod terms;

pub use ask::Ask;
pub use item::Item;
pub use opener::Ranking;
pub use ranked::Ranked;
pub use search::{first_k, first_k_within};
pub use terms::Terms;
