//! The journal of records that makes the writing of many pages one step.
//!
//! A record in the journal area is its gate (1 byte), the number n of its pages (u32, big-endian, at least 1), and n pages. Each page is
//! its number (u32) and its 4,096 bytes. Page numbers ascend. The gate of the next record follows. A gate is closed if it is 0, and open
//! for every other value. An image holds its pages with all records before the first closed gate written, in order.
//!
//! [`append`] writes a record after a closed gate, with the next gate closed at its end, and then opens its gate, with a sync after each
//! step. [`checkpoint`] writes the last images of all pages of the journal in their places, neighbouring pages at once, and closes the
//! journal's first gate. [`recover`] does the same page by page after a crash, from the journal itself.
//!
//! At every moment an image that a crash may leave holds the pages as they were, or those with all pages of the current record written.
//!
//! Tests: `page_tests/src/page_journal_tests.rt`.
#![tactic(auto)]

mod appending;
mod checkpointing;
mod fault;
mod gate;
mod records;
mod recovery;
mod runs;

pub use appending::append;
pub use checkpointing::checkpoint;
pub use fault::JournalFault;
pub use records::Record;
pub use recovery::recover;
