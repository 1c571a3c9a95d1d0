//! The values and definitions of the map of live places: places, updates, queries with their limits, hits and answers.
//!
//! `specs/` defines what an update does to a map and what each query's answer is, as functions of the whole map. An answer is a function of
//! what is ranked: `ranked before xs` has the members of `xs` in order, and `first before k xs` the first k of them. The scan in
//! `place_map` and the searches that open only part of a tree are proved against these definitions.
//!
//! Tests: `text_tests/src/place_map_tests.rt`, through `place_map`.
#![tactic(auto)]

mod best;
mod choice;
mod hit;
mod limits;
mod listed;
mod place;
mod query;
mod rare;
mod top;
mod update;

pub use best::keep;
pub use choice::{choice_order, cost_of_choice, farthest_of, sum_of_choice};
pub use hit::{Hit, Hits, is_before};
pub use limits::{
    ALPHA_MAX, COUNT_MAX, EXPR_LEVELS_MAX, EXPR_WORDS_MAX, NUMBER_MAX, PLACES_MAX, RADIUS_MAX,
    REACH_MAX, TERMS_MAX, WEIGHT_MAX,
};
pub use listed::Listed;
pub use place::Place;
pub use query::{Answer, Chosen, Expr, Pick, Picks, Query, Terms, Weights};
pub use rare::rarity;
pub use top::{cost_of, has_some, relevance_of, sum_of_weights};
pub use update::{Applied, Update, UpdateFault};
