//! The replies to the lines of a script, and how each is written.
//!
//! [`reply_text`] appends exactly the text that the definition `text_of_reply` of `specs/Reply.antt` gives, or, if memory runs out,
//! nothing.
//!
//! Tests: the crate has none of its own; `irtree_tests/src/language_tests.rt` and `random_tests/src/group_tests.rt` reach it.
#![tactic(auto)]

mod fault;
mod found;
mod lines;
mod parts;
mod reply;

pub use fault::LineFault;
pub use parts::{write_bytes, write_number, write_wide};
pub use reply::{Reply, UpdateDone, reply_text};
