//! The devices of the program: standard input as a source, and two stations with standard output as their sink. One station keeps its
//! areas in files, the other in memory until the run ends. A third one is over any station, and says how many pages were read.
//!
//! Contracts do not know the content of these devices: the program assumes that the system's streams and files behave as the traits
//! say. The counts of faults are proved of each device, and what the areas hold also of the station in memory. The bytes themselves are
//! tested.
//!
//! Tests: `device_tests/src/std_devices_tests.rt`, `device_tests/src/file_station_tests.rt` and `device_tests/src/progress_tests.rt`.
#![tactic(auto)]

mod file_station;
mod opening;
mod output;
mod progress;
mod reported_station;
mod scratch_station;
mod std_source;
mod store_file;
mod store_files;
mod trouble;

pub use file_station::FileStation;
pub use progress::Progress;
pub use reported_station::ReportedStation;
pub use scratch_station::ScratchStation;
pub use std_source::StdSource;
pub use store_file::StoreFile;
pub use trouble::{Cause, FileTrouble, journal_of};
