//! Splits a line of the query language into tokens.
//!
//! Spaces and tabs separate tokens. A parenthesis is a token, and a `"` begins a JSON string literal ([RFC
//! 8259](https://www.rfc-editor.org/rfc/rfc8259#section-7), section 7). Every other token is a longest run of bytes that are none of
//! these. [`next_token`] returns the first token of a text, exactly as `token_of` of `specs/Token.antt` defines it, and the text after
//! it.
//!
//! Tests: `text_tests/src/line_tokens_tests.rt`.
#![tactic(auto)]

mod literal;
mod scan;
mod token;

pub use literal::literals_are_json;
pub use scan::{after_blanks, next_token};
pub use token::{Quoted, Token};
