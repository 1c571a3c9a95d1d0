//! How a run ends, what it printed by then, and what the store's image holds.
//!
//! [`Ended`] names each end, with its exit status and its line on standard error. A run makes turns (`specs/Turn.antt`): each changes the
//! map in one commit, or leaves it, and then prints its text, by [`say_all`].
//!
//! Tests: `irtree_tests/src/load_tests.rt`, for the lines and statuses of the ends.
#![tactic(auto)]

mod ended;
mod refused;
mod say;

pub use ended::{Ended, InputFault, LimitFault, StoreFault, write_broken};
pub use refused::ended_by;
pub use say::say_all;

/// How many bytes one read of an input takes at most.
pub const PIECE_LEN: usize = 65_536;
