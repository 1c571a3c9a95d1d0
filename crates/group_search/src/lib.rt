//! The search in memory for the least choice of a place for each word. Places come as picks, a list for each word.
//!
//! A choice takes a pick of each list. It costs the greatest distance from the point to one of its picks plus the greatest distance between
//! two of them, both with the scale of longitudes at the point. Of choices that cost the same, the one with the least keys comes first.
//!
//! [`least_choice`] goes through whole lists. First it drops the picks that can't be in so cheap a choice with any pick of the shortest
//! list. Then the least cost is looked for, with the shortest lists first, and in each list with those picks first that cost least with
//! the shortest list's first. Picks that begin a choice are left once a list has none that can go on for less. Last come the keys: for
//! each word in turn the least one with which the others can still be chosen within that cost.
//!
//! [`search_lists`] is for long lists. The picks of one list lead, and those of each list are kept in blocks of neighbours. For each lead
//! the pick of each other list is found with which a choice may cost least. The greatest of these costs bounds each choice with the lead
//! from below, and these picks are a choice, too. Leads are then followed in the order of their bounds. One is passed over only if its
//! bound is greater than the best choice costs, or if it is at the point of another one that comes before it.
//!
//! Tests: `search_tests/src/collective_query_tests.rt` and `random_tests/src/group_tests.rt`.
#![tactic(auto)]

mod bounding;
mod costing;
mod joining;
mod keys;
mod leading;
mod lists;
mod packing;
mod search;

pub use leading::search_lists;
pub use lists::{alone, is_behind, list_at};
pub use search::{least_choice, may_cost};
