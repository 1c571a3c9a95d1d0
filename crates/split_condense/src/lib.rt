//! An R-tree of places over pages: one entry put in or taken out (Guttman 1984, with M = 32 and m = 12), under whatever policy is handed
//! in. The rows of words are those of Cong, Jensen and Wu, VLDB 2009.
//!
//! Over a well-formed tree [`insert`] and [`delete`] change the entries by just the one, keep the tree well formed and lose no page; all
//! other pages in use stay. Over any other pages both are safe and end, and name a rule that a page breaks. [`put_entry`] and
//! [`take_entry`] make of the tree what an update of a place asks for.
//!
//! An entry is taken out along a path, the numbers of the slots that lead to it, and its words are cleared at its slot. If fewer than 12
//! slots of a node are left, its items become orphans, each with its words, its rows are dropped, and its page is given back. Else its
//! rectangle is made the least one again, and each word of its slot in the node above the greatest below it. In the end each orphan is put
//! back into a node of its own level, and a root with one child gives way to it.
//!
//! Tests: `tree_tests/src/split_condense_tests.rt`, `irtree_delete_tests.rt` and `tree_updates_tests.rt` there.
#![tactic(auto)]

mod clearing;
mod condensing;
mod deleting;
mod entry;
mod entry_put;
mod entry_taken;
mod inserting;
mod lowering;
mod orphan;
mod putting;
mod removing;
mod taking;

pub use deleting::delete;
pub use entry::Entry;
pub use entry_put::put_entry;
pub use entry_taken::take_entry;
pub use inserting::insert;
use orphan::Orphan;
pub use removing::remove_at;
