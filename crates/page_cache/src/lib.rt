//! Pages held in memory: a cache of the pages used last, tables of pages by their numbers, and seals of pages that were checked.
//!
//! [`Cache`] holds a bounded number of pages and their bytes, the one used last first, and lends them in place. When it is full, a new page
//! replaces the one used least recently.
//!
//! A table finds a page by one look-up and lends it by its index, without another. Pages are ordered by their numbers only for a commit
//! ([`put_in_order`], [`put_back`]) and a checkpoint ([`fill`], [`retire`]); they move in their boxes and are never copied.
//!
//! No call reads or writes the disk.
//!
//! Tests: `page_tests/src/page_cache_tests.rt` for cache and seals; `page_tests/src/page_store_tests.rt` reaches the rest, through
//! `page_store`.
#![tactic(auto)]

mod cache;
mod hints;
mod order;
mod place;
mod rooms;
mod seals;
mod shelf;
mod table;
mod written;

pub use cache::{Cache, Memory};
pub use hints::Hints;
pub use order::{put_back, put_in_order};
pub use place::{Place, find, keep, lend};
pub use rooms::{fill, make_room, retire};
pub use seals::Seals;
pub use table::{PageTable, move_all};
pub use written::{clear, write, write_sealed};
