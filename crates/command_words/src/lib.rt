//! Reads the words of the command line, `irtree STORE ACTION [options]`, as a job.
//!
//! The line is one simple command of the crate `clap`. `specs/Command.antt` has its rules, and `specs/Job.antt` the job that they give.
//! [`read_words`] promises exactly that job: the values on the line, and the documented defaults for absent options. Its contract also
//! says exactly when words are refused. [`explain_words`] gives a person a text that names the wrong word and what is wrong with it.
//!
//! Tests: `text_tests/src/command_words_tests.rt`.
#![tactic(auto)]

mod command;
mod job;
mod line;
mod task;
mod values;

pub use job::{Action, Job, PolicyName, WordsFault};
pub use line::{explain_words, read_words};
