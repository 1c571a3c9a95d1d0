//! Reads a spelling as units of 10^-7.

ghost use Rattle.std.specs.Prelude.{◌≡◌, ℕ, ◌^◌, ◌<◌, ◌≤◌, ℤ, pos, neg_ℤ, List, Result, if◌then◌else◌};
ghost use Rattle.fixed_coords.specs.Fixed.{IsReading, IsReadingWithin};

use crate::fault::NumberFault;
use crate::number::number_of;
use crate::size::size_of;
use spatial_base::{LATITUDE_MAX, LONGITUDE_MAX};

/// The most bytes that a spelling may have.
const SPELLING_MAX: usize = 64;

/// Reads a JSON number times 10^7, rounded to the nearest whole number, halves away from zero.
///
/// The value is exact before it is rounded. The grammar is that of [RFC 8259](https://www.rfc-editor.org/rfc/rfc8259#section-6),
/// section 6.
///
/// Refuses with:
///
/// - `TooLong` exactly if the text has more than 64 bytes; this is checked first.
/// - `NotANumber` exactly if the text, of at most 64 bytes, is not a number of RFC 8259.
/// - `TooBig` exactly if the rounded value is more than 10^12 from 0.
///
/// The work is one pass over the spelling, whatever the exponent is.
pub fn read_fixed(spelling: &str) -> Result<i64, NumberFault>
    ensures { IsReading spelling.now result }
{
    if spelling.len() > SPELLING_MAX {
        return Err(NumberFault::TooLong);
    }
    let Some(number) = number_of(spelling.as_bytes()) else {
        return Err(NumberFault::NotANumber);
    };
    let Some(size) = size_of(&number) else {
        return Err(NumberFault::TooBig);
    };
    Ok(signed(number.negative, size))
}

/// A spelling has only one reading, so the clauses of [`read_fixed`], [`longitude`] and [`latitude`] fix their results. The call does
/// nothing: its contract is the law.
pub fn reading_is_one()
    ensures number { (bytes : List ℕ) (one other : Result ℤ NumberFault) →
        IsReading bytes one → IsReading bytes other → one ≡ other }
    ensures coordinate { (most : ℕ) (bytes : List ℕ) (one other : Result ℤ NumberFault) →
        IsReadingWithin most bytes one → IsReadingWithin most bytes other → one ≡ other }
{}

/// Reads a longitude in units of 10^-7 degrees, from -1,800,000,000 to 1,800,000,000.
///
/// Refuses as [`read_fixed`] does, and with `OutOfRange` exactly if the value was read but is out of this range.
pub fn longitude(spelling: &str) -> Result<i32, NumberFault>
    ensures { IsReadingWithin 1_800_000_000 spelling.now result }
{
    within(spelling, u64::from(LONGITUDE_MAX))
}

/// Reads a latitude in units of 10^-7 degrees, from -900,000,000 to 900,000,000.
///
/// Refuses as [`read_fixed`] does, and with `OutOfRange` exactly if the value was read but is out of this range.
pub fn latitude(spelling: &str) -> Result<i32, NumberFault>
    ensures { IsReadingWithin 900_000_000 spelling.now result }
{
    within(spelling, u64::from(LATITUDE_MAX))
}

/// Reads a value of at most `most` units on either side of 0.
fn within(spelling: &str, most: u64) -> Result<i32, NumberFault>
    requires { most < 2 ^ 31 }
    ensures { IsReadingWithin most spelling.now result }
{
    let value = read_fixed(spelling)?;
    if value.unsigned_abs() > most {
        return Err(NumberFault::OutOfRange);
    }
    Ok(value as i32)
}

/// Returns the size with its sign.
fn signed(negative: bool, size: u64) -> i64
    requires { size ≤ 10 ^ 12 }
    ensures { result ≡ (if negative then neg_ℤ (pos size) else pos size) }
{
    if negative {
        -(size as i64)
    } else {
        size as i64
    }
}
