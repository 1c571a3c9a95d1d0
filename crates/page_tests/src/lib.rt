//! Tests of the crates of pages: cache, journal, store, maps of pages, and the tables of places and words.
//!
//! Each module tests the crate of its name. `paged_map_tests` also reaches the B+-tree's crates, and `map_check_tests` tests `page_walks`.
#![tactic(auto)]

#[cfg(test)]
mod map_check_tests;
#[cfg(test)]
mod page_cache_tests;
#[cfg(test)]
mod page_face_tests;
#[cfg(test)]
mod page_journal_tests;
#[cfg(test)]
mod page_store_tests;
#[cfg(test)]
mod paged_map_tests;
#[cfg(test)]
mod store_tables_tests;
