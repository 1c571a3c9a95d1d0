//! Reads JSON whose numbers keep their spelling ([RFC 8259](https://www.rfc-editor.org/rfc/rfc8259)).
//!
//! [`read_tree`] reads one JSON text into a [`Tree`]. The grammar is in `specs/Grammar.antt`, as rules over bytes that do not depend on
//! the reader. Each text that is read follows the grammar, and each text that follows it is read unless memory runs out. A refusal
//! names the first offence, at the offset that the grammar gives it (`specs/Refusals.antt`).
//!
//! A [`Feed`] reads a text that comes in pieces. However the text is cut, it gives what `read_tree` gives for the whole, which is a feed
//! that took the text as one piece.
//!
//! The reader is a machine: `step` takes one byte at a time, and `take_run` a run of bytes within a string. What the reader waits for is in
//! its state and on a stack, so nothing recurses over the levels of a text.
//!
//! Tests: `text_tests/src/json_spelled_tests.rt`, `text_tests/src/json_feed_tests.rt`.
#![tactic(auto)]

mod fault;
mod feed;
mod kind;
mod lexeme;
mod number;
mod read;
mod reader;
mod run;
mod step;
mod structure;
mod text;
mod tree;

pub use feed::Feed;
pub use read::read_tree;
pub use tree::{JsonFault, Tree};
