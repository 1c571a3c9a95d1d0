//! The places of an IR-tree that together hold the words of a query, lie near a point and lie near each other. These are collective spatial
//! keyword queries (Cao, Cong, Jensen and Ooi, SIGMOD 2011, their type 2).
//!
//! A choice has a place for each word. It costs the greatest distance to the point plus the greatest distance between two of its places,
//! both with the scale of longitudes at the point.
//! The least choice among some nearest places of each word is found first. No place that is farther from the point than it costs can be in
//! a choice that costs less. Mostly all places that are as near are among these nearest ones, and nothing else is searched.
//!
//! If they may not be, one word leads: that whose nearest place is farthest, since few places hold it as near as that. Each choice takes
//! one of the lead's places. A choice that costs no more than the best one so far has its other places in a circle round it. Their distance
//! from it and its own from the point are at most that cost together. So a frequent word is looked for in a small circle round each place
//! of a rare one, and not in the large one round the point. No triangle inequality is used, since distances are rounded down. Of rare
//! places at one point that come one after the other only the first is looked round: with another in its place a choice costs as much.
//!
//! If a word is frequent in such a circle, the words that aren't are looked for first. A lead with which their places cost too much is
//! left, and the many places of the frequent word aren't looked for.
//!
//! If the leads are at many points, no circle is looked at in the tree. All places of each word that are no farther from the point than the
//! best choice costs are read once, and kept in memory. [`group_search`] finds the least choice of them.
//!
//! Tests: `search_tests/src/collective_query_tests.rt`.
#![tactic(auto)]

mod anchoring;
mod candidates;
mod filtering;
mod following;
mod gathering;
mod nearest;
mod picks;
mod query;

pub use query::group;
