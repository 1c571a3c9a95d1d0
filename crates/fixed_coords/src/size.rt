//! The size of a number in units of 10^-7, computed from its digits. No power of ten above 10^12 is formed.

ghost use Rattle.std.specs.Prelude.{◌≡◌, ◌+◌, ◌*◌, ◌^◌, ◌≤◌, ◌<◌, ◌++◌, min, length};
ghost use Rattle.std.specs.Option.{SomeIff};
ghost use Rattle.std.specs.Str.Parse.{digits_value_after};
ghost use Rattle.number_grammar.specs.Number.{AreDigits};
ghost use Rattle.fixed_coords.specs.Placed.{round_up as rounding, placed, moved_point, size_at};

use crate::number::{Exponent, Number};

/// The greatest size that is accepted, in units of 10^-7.
pub const SIZE_MAX: u64 = 1_000_000_000_000;

/// How many decimal places a unit is: 10^-7.
const PLACES: usize = 7;

/// Returns the number's size times 10^7, rounded to the nearest whole number, halves up, or `None` if that is above [`SIZE_MAX`].
pub fn size_of(number: &Number) -> Option<u64>
    requires whole { AreDigits number.now.whole.now }
    requires fraction { AreDigits number.now.fraction.now }
    requires short { length number.now.whole.now + length number.now.fraction.now ≤ 64 }
    requires exponent { number.now.exponent.size ≤ 1000 }
    ensures { let size = size_at (number.now.whole.now ++ number.now.fraction.now)
        (moved_point (length number.now.whole.now) number.now.exponent.negative number.now.exponent.size) in
        SomeIff result (size ≤ 10 ^ 12) size }
{
    match point_of(number.whole.len(), number.exponent) {
        Some(point) => rounded(number.whole, number.fraction, point),
        None => Some(0),
    }
}

/// Returns how many of the digits are before the point once the number is multiplied by 10^7.
///
/// Returns `None` if the point moves before the first of them.
fn point_of(whole: usize, exponent: Exponent) -> Option<usize>
    requires short { whole ≤ 64 }
    requires exponent { exponent.size ≤ 1000 }
    ensures { result ≡ moved_point whole exponent.negative exponent.size }
{
    if exponent.negative {
        (whole + PLACES).checked_sub(exponent.size)
    } else {
        Some(whole + PLACES + exponent.size)
    }
}

/// Returns the digits of both parts with the point after the first `point` of them, rounded.
fn rounded(whole: &[u8], fraction: &[u8], point: usize) -> Option<u64>
    requires whole { AreDigits whole.now }
    requires fraction { AreDigits fraction.now }
    ensures { let size = placed (whole.now ++ fraction.now) point in SomeIff result (size ≤ 10 ^ 12) size }
{
    let (front, back) = whole.split_at(point.min(whole.len()));
    let point = point.saturating_sub(whole.len());
    let (more, rest) = fraction.split_at(point.min(fraction.len()));
    let size = append(append(0, front), more);
    if point > fraction.len() {
        return shifted(size, point - fraction.len());
    }
    within(size + round_up(if back.is_empty() { rest } else { back }))
}

/// Returns the number that `front` and these digits after it write, or [`SIZE_MAX`] plus 1 if it is greater than [`SIZE_MAX`].
fn append(front: u64, digits: &[u8]) -> u64
    requires digits { AreDigits digits.now }
    requires front { front ≤ 10 ^ 12 + 1 }
    ensures { result ≡ min (digits_value_after 10 front digits.now) (10 ^ 12 + 1) }
{
    let mut size = front;
    for digit in digits {
        size = (size * 10 + (*digit - b'0') as u64).min(SIZE_MAX + 1);
    }
    size
}

/// Returns 1 if the digits cut off are half of the last kept place or more, and 0 otherwise.
fn round_up(cut: &[u8]) -> u64
    ensures { result ≡ rounding cut.now }
{
    match cut {
        [] => 0,
        [digit, ..] => (*digit >= b'5') as u64,
    }
}

/// Returns the size, or `None` if it is above [`SIZE_MAX`].
fn within(size: u64) -> Option<u64>
    ensures { SomeIff result (size ≤ 10 ^ 12) size }
{
    if size <= SIZE_MAX { Some(size) } else { None }
}

/// Returns the size with `zeros` zeros after it, or `None` if that is above [`SIZE_MAX`].
fn shifted(size: u64, zeros: usize) -> Option<u64>
    requires { size ≤ 10 ^ 12 + 1 }
    ensures { SomeIff result (size * 10 ^ zeros ≤ 10 ^ 12) (size * 10 ^ zeros) }
{
    if size == 0 {
        return Some(0);
    }
    if zeros > 12 {
        return None;
    }
    let power = 10u64.pow(zeros as u32);
    if size <= SIZE_MAX / power {
        Some(size * power)
    } else {
        None
    }
}
