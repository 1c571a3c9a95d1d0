//! The top call: it takes the words of a command line and the bytes of its input, and does what they call for.
//!
//! [`run`] keeps the live places on a station and prints what it does. For a script it prints, line by line, what scanning their map
//! defines. For a GeoJSON text it prints which places it stores and which items it skips. It decides whether a store is whole
//! (`specs/Verify.antt`), and carries stores of version 1 over to version 2.
//!
//! Its clauses are the main promises of the project. They hold for every source and station whose bytes the contracts know, in whatever
//! pieces these come and go. The text printed is a prefix of the transcript of the input (`specs/Transcript.antt`). If the run ends well,
//! it is all of the transcript, and the image holds the transcript's last state. A crash at any moment leaves an image of the state after a
//! prefix of the updates that holds every acknowledged one. Of an upgrade it leaves the state, by version 1 or 2 (`specs/Upgrade.antt`).
//!
//! Tests: `irtree_tests/src`, all files.
#![tactic(auto)]

mod serve;
mod top;
mod upgrading;
mod verifying;

pub use command_words::{Action, Job, PolicyName, WordsFault, explain_words, read_words};
pub use load_run::LOAD_MAX;
pub use run_outcome::{Ended, InputFault, LimitFault, StoreFault};
pub use script_run::INPUT_MAX;
pub use top::{run, transcript_is_one, transcript_is_some};
