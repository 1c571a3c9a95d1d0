//! Makes places from a seed, for trials and measurements: the same seed always makes the same places.
//!
//! The numbers come from SplitMix64 (Steele, Lea and Flood, 2014), started with the seed. Each place takes five of them.
//!
//! Tests: `text_tests/src/place_generator_tests.rt`.
#![tactic(auto)]

mod made;

pub use made::{Made, Maker};
