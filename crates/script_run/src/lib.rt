//! Scripts: each line is acted on, and its reply is printed whole before the next line is acted on.
//!
//! [`run_script`] reads a script from its source piece by piece and acts on an engine. What a script prints and does is defined by its
//! lines (`run_outcome/specs/Script.antt`), whatever the pieces are. Between two lines the image holds the state after those that were
//! acted on. A crash at any moment leaves one of the states around a line (`run_outcome/specs/Left.antt`).
//!
//! Tests: `irtree_tests/src/script_tests.rt`, `language_tests.rt` and `order_tests.rt` there.
#![tactic(auto)]

mod line;
mod run;
mod script;

pub use run::{INPUT_MAX, run_script};
