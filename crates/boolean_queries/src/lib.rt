//! The places of an IR-tree that pass a filter on their words. There are those at most so far from a point, those in a rectangle, and the k
//! nearest to a point.
//!
//! A walk goes down from the root to the places of a region (Guttman 1984, section 3.1). Below a node it looks only at the children whose
//! rectangle meets the region and below which a place may pass the filter. The node's own rectangles and rows of words show which these
//! are. So a child that can't hold an answer costs no page. The nearest places are found by a best-first search, which opens nodes in the
//! order of their distance and stops once no nearer place can be found.
//!
//! `specs/` also defines which nodes any query of a tree may open, in terms of the log of the pages that were requested. What is below a
//! node is bounded by its bounding item: the least rectangle, and each word's greatest impact. By these a node has a bound, which no place
//! below it costs less than, and may have an answer below it or not.
//!
//! Tests: `search_tests/src/boolean_queries_tests.rt` and `search_tests/src/opened_nodes_tests.rt`.
#![tactic(auto)]

mod entering;
mod near;
mod nearest_query;
mod node;
mod query;
mod region;
mod region_queries;
mod sorting;
mod walk;

pub use nearest_query::{Vicinity, nearest, nearest_within};
pub use region_queries::{inside, range};
