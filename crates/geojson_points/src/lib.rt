//! Places from a GeoJSON text ([RFC 7946](https://www.rfc-editor.org/rfc/rfc7946)).
//!
//! [`take`] reads a Feature or a FeatureCollection and returns what each item gives: a place, or why it gives none. `specs/Takes.antt`
//! defines the outcome of a text. [`outcome_is_some`] promises that each text has one, and [`outcome_is_one`] that it has no other.
//! Numbers are read from their spelling, so no coordinate passes through floating point.
//!
//! Tests: `text_tests/src/geojson_points_tests.rt`.
#![tactic(auto)]

mod fault;
mod feature;
mod object;
mod outcome;
mod taken;
mod text;

pub use fault::LoadFault;
pub use outcome::{outcome_is_one, outcome_is_some, take};
pub use taken::{Draft, SkipReason, Taken};
