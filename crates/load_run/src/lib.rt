//! Loads and makes: places are stored batch by batch, and each batch is reported once it is safe.
//!
//! [`run_load`] reads the whole GeoJSON text from its source before anything is stored. A batch is one commit. What comes before its line
//! is printed before the commit, and the line after it. What a load prints and does is defined by what its text gives
//! (`run_outcome/specs/Load.antt`), and what a crash leaves of one by `run_outcome/specs/Left.antt`.
//!
//! [`run_make`] stores the places of a seed, and then queries look for some of them. It makes each place as it stores it, so a make keeps
//! one batch of places and the answer to one query. A make prints and does what a load of its places does, except for the last line
//! (`specs/Making.antt`). The queries are defined in `specs/Asking.antt`.
//!
//! Tests: `irtree_tests/src/load_tests.rt` and `irtree_tests/src/make_tests.rt`.
#![tactic(auto)]

mod asking;
mod found;
mod line;
mod lines;
mod load;
mod making;
mod query;
mod run;
mod storing;

pub use load::Load;
pub use making::run_make;
pub use run::{LOAD_MAX, run_load};
