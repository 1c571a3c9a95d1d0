//! Maps of fixed rows over [`Pages`](page_face::Pages): a B+-tree of byte keys and byte values, all of one length.
//!
//! Over a well-formed map [`PagedMap`] is a finite map: `get`, `first_from`, `put` and `remove` are the list functions `lookup`,
//! `first_from`, `put` and `without` on its rows. All other pages stay. `find` and then `replace` are `get` and `put` of a key that is
//! there, with one way down.
//!
//! Over any other bytes each call is safe and ends, and names a rule that a page breaks in its place. Pages that lead in a
//! circle end a call too, since levels fall. A map and the free list lose no page: each page that was the map's, free or
//! newly counted is then in exactly one of them.
//!
//! Tests: `page_tests/src/paged_map_tests.rt`.
#![tactic(auto)]

mod draft;
mod drafting;
mod editing;
mod finding;
mod layout;
mod map;
mod putting;
mod removing;
mod replacing;

pub use draft::LeafDraft;
pub use layout::Layout;
pub use map::PagedMap;
pub use replacing::RowSpot;
