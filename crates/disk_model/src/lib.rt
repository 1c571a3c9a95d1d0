//! The outside of the program: a source of input, a disk of two areas that may crash, and a station, which is a disk with a sink for
//! output.
//!
//! Contracts see a disk as a [`World`](../specs/World.antt): what a read gives, the bytes written to the sink, the reads made and the
//! counts of faults. It also has the images that a crash may leave now, and those that it may have left since an earlier moment.
//! [`MemoryStation`] implements a station over memory, with faults and crashes on demand. [`Source`] is input that a program reads
//! once, in pieces, and [`MemorySource`] implements it over memory.
//!
//! Tests: `device_tests/src/disk_model_tests.rt`.
#![tactic(auto)]

mod areas;
mod call;
mod crash;
mod disk;
mod memory_source;
mod memory_station;
mod plan;
mod source;
mod station;

pub use call::{CallKind, Fail};
pub use crash::Tear;
pub use disk::{Area, Disk, Failed};
pub use memory_source::MemorySource;
pub use memory_station::MemoryStation;
pub use source::Source;
pub use station::Station;
