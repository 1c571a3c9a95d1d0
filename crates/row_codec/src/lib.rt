//! The rows of a store's place table and of its two word tables: their values, and the bytes that a page holds of them.
//!
//! | Table | Key | Value |
//! |---|---|---|
//! | places | the key's form, 66 bytes | [`Stored`], 649 bytes |
//! | words by text | the word's form, 33 bytes | the word's number, 8 bytes |
//! | words by number | the word's number, 8 bytes | [`Counted`], 37 bytes |
//!
//! All numbers are big-endian. Each value is written by `encode` and read by `decode`, which is its inverse and refuses exactly
//! the bytes of no value. No call takes memory.
//!
//! Tests: `text_tests/src/row_codec_tests.rt`.
#![tactic(auto)]

mod bytes;
mod counted;
mod pairs;
mod stored;

pub use bytes::{number_bytes, number_of_bytes};
pub use counted::{COUNTED_BYTES, Counted};
pub use stored::{PAIRS_MAX, STORED_BYTES, Stored};
