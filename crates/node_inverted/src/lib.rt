//! Changes of the rows of words of an R-tree's nodes, which make it an IR-tree. Rows are raised by an entry, moved with slots, refreshed
//! from a child, taken out and dropped with a node. `node_rows` defines what the rows are, and has the calls that read them and the one
//! that sets a single row; this crate re-exports them.
//!
//! Each call states which bytes it makes (`node_rows`, `specs/Rows.antt`); every other byte is as it was.
//!
//! A call that goes through the rows of a node reads them out of a copy of a leaf of the map (`node_rows::LeafCopy`). The
//! copy stays right for the words still to come while the call changes the rows already read. Rows that change are gathered, up
//! to 64 at once, and set leaf by leaf (`src/drafting.rt`).
//!
//! Tests: `tree_tests/src/node_inverted_tests.rt`.
#![tactic(auto)]

mod ahead;
mod drafting;
mod dropping;
mod edits;
mod moving;
mod raising;
mod refreshing;
mod row_draft;
mod taking;

pub use dropping::drop_node;
pub use moving::move_slots;
pub use node_rows::{
    Tree, column, like, next_row, rising, row, rows_at, set_row, shared_by, words_of,
};
pub use raising::{raise, set_impact};
pub use refreshing::{refresh, renew};
pub use taking::{NodeRow, take_rows};
