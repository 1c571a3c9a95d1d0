//! Decimal degrees as whole numbers: the exact decimal value times 10^7, rounded to the nearest whole number, halves away from zero.
//!
//! [`read_fixed`] reads any JSON number ([RFC 8259](https://www.rfc-editor.org/rfc/rfc8259#section-6), section 6) of at most 64 bytes,
//! whatever its exponent is, or returns why the text has no value. [`longitude`] and [`latitude`] also check the value's range, and
//! [`write_fixed`] writes a value as degrees again. No call allocates memory, and the work does not grow with the exponent.
//!
//! Tests: `text_tests/src/fixed_coords_tests.rt`.
#![tactic(auto)]

mod fault;
mod number;
mod read;
mod size;
mod write;

pub use fault::NumberFault;
pub use read::{latitude, longitude, read_fixed, reading_is_one};
pub use write::write_fixed;
