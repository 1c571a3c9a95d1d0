//! Tests of the whole library: what scripts, loads and makes print from bytes to bytes, and what a store keeps over runs, faults and
//! crashes.
#![tactic(auto)]

#[cfg(test)]
mod call_tests;
#[cfg(test)]
mod crash_tests;
#[cfg(test)]
mod damage_tests;
#[cfg(test)]
mod failing;
#[cfg(test)]
mod language_tests;
#[cfg(test)]
mod load_tests;
#[cfg(test)]
mod make_tests;
#[cfg(test)]
mod order_tests;
#[cfg(test)]
mod policy_tests;
#[cfg(test)]
mod runs;
#[cfg(test)]
mod script_tests;
#[cfg(test)]
mod store_tests;
#[cfg(test)]
mod upgrade_tests;
#[cfg(test)]
mod verify_tests;
