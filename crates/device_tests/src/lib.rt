//! Tests of the devices: the model of a disk and its crashes in memory, standard input and output, and the files of a store.
#![tactic(auto)]

#[cfg(test)]
mod calls;
#[cfg(test)]
mod disk_model_tests;
#[cfg(test)]
mod file_station_tests;
#[cfg(test)]
mod progress_tests;
#[cfg(test)]
mod std_devices_tests;
#[cfg(test)]
mod watched;
