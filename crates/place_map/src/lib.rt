//! The map of live places in memory: states, their updates, and the answers that a scan of the whole map gives.
//!
//! A state is a finite map from keys to places, with a next serial and an update number. `State::apply` makes an update.
//! `State::answer` filters, orders and cuts the places exactly as the definitions of `place_values` say. The program's queries go through
//! the tree; the scan serves the tests. The names of `place_values` are passed on.
//!
//! Tests: `text_tests/src/place_map_tests.rt`.
#![tactic(auto)]

mod group;
mod rare;
mod restored;
mod scan;
mod state;

pub use place_values::{
    ALPHA_MAX, Answer, Applied, COUNT_MAX, Chosen, EXPR_LEVELS_MAX, EXPR_WORDS_MAX, Expr, Hit,
    Hits, Listed, NUMBER_MAX, PLACES_MAX, Pick, Picks, Place, Query, RADIUS_MAX, REACH_MAX,
    TERMS_MAX, Terms, Update, UpdateFault, WEIGHT_MAX, Weights, cost_of, has_some, rarity,
    relevance_of, sum_of_weights,
};
pub use state::State;
