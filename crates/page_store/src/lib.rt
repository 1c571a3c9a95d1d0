//! The store: pages on a disk that may crash, committed whole or dropped.
//!
//! [`Store::open`] recovers the journal and reads page 0. The store then has the trait of pages. What is written is held in an overlay in
//! memory until [`Store::commit_all`] makes overlay and head safe in one record of the journal, or [`Store::abandon`] drops them. A crash
//! at any moment leaves the contents of the last commit or those of the one under way. A commit or a checkpoint that fails stops the store.
//!
//! The last image of each page of the journal is kept in memory, and [`Store::settle`] writes them in their places. A commit does so
//! first if the journal has grown long. A page is lent in place: from the overlay, the journal's pages, or a cache of the pages used
//! last. A page that is in none of them is read into the cache.
//!
//! The store borrows its disk. [`Store::into_disk`] gives the loan back. A caller that has to know what a refused opening left calls
//! [`recover_superblock`] and then [`Store::over`], which together are `open`.
//!
//! Tests: `page_tests/src/page_store_tests.rt`.
#![tactic(auto)]

mod committing;
mod fetching;
mod gathering;
mod opening;
mod page;
mod pages;
mod store;
mod superblock;

pub use committing::JOURNAL_MAX;
pub use opening::{OpenFault, recover_superblock, recover_version1};
pub use store::Store;
pub use superblock::Superblock;
