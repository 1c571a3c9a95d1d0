//! The language of scripts: which line the bytes of a line mean.
//!
//! [`read_line`] returns exactly the line that the definition `line_of` of `specs/Line.antt` gives, or the reason of its first offence
//! from the left. The replies to lines are in the crate `query_replies`, whose names this crate exports too.
//!
//! Tests: `text_tests/src/query_lang_tests.rt`; `irtree_tests/src/language_tests.rt` and those of `random_tests` reach it, too.
#![tactic(auto)]

mod clause;
mod command;
mod degrees;
mod expression;
mod key;
mod kind;
mod line;
mod number;
mod part;
mod query;
mod word;

pub use line::{LINE_MAX, Line, read_line};
pub use query_replies::{LineFault, Reply, UpdateDone, reply_text};
