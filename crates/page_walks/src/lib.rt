//! What every walk over the structures of a store shares, and the walk over a map: the set of the pages met, maps, the free list, and the
//! pages that no structure has.
//!
//! A walk names each page of a structure through [`enter`], which notes that it was met and looks at it. A page that is named twice, by one
//! structure or by two, is broken there by the rule `Shared`. So several walks over one set show that no page is used twice, and
//! [`first_lost`] then finds a page that none of them met. Each page is read at most once. All of this ends soon on any bytes, since each
//! step meets a page that is new. No number that a page holds limits a loop.
//!
//! [`Check`] gives [`PagedMap`](paged_map::PagedMap) the calls `check` and `check_into`, which decide whether a map is whole. A map is
//! whole if it breaks none of the rules `Link` to `Level`, and no page of it is used twice or was met before. `None` is returned exactly
//! then, and a damage names a page of the map and a rule that it breaks. `check_into` also hands the rows of each leaf to a [`Sink`], in
//! the order of their keys, so that no row is kept in memory.
//!
//! `specs/Met.antt` defines the pages met, `specs/Misuse.antt` a page that is used where it may not be, `specs/Chains.antt` what is broken
//! about a chain of free pages, `specs/Maps.antt` whole and broken maps, and `specs/Leaves.antt` what a sink finds in a leaf. `proofs/` has
//! the laws for walks: what is misused in a part is misused in the whole (`misused-up`), and what is misused isn't used once
//! (`misused-apart`).
//!
//! `sizes` has laws about the size of a map, as contracts of calls that do nothing: it has at most as many pages as rows, since each page
//! except its root is half full, and its level is at most the binary logarithm of its number of rows (`specs/Sizes.antt`). No call of the
//! program uses them yet. They are for a bound on the room that a store needs.
//!
//! Tests: `page_tests/src/map_check_tests.rt`.
#![tactic(auto)]

mod checking;
mod entering;
mod free;
mod lost;
mod met;
mod sink;
mod sizes;
mod walking;

pub use checking::Check;
pub use entering::enter;
pub use free::walk_free;
pub use lost::first_lost;
pub use sink::{Refusal, Sink};
pub use sizes::{levels_are_few, pages_are_few, uses_are_pages};
