//! Writes units of 10^-7 as degrees.

ghost use Rattle.std.specs.Prelude.{◌≡◌, ◌+◌, ◌%◌, ◌^◌, ◌≤◌, ◌++◌, length, take, drop, unsigned_abs};
ghost use Rattle.fixed_coords.specs.Degrees.{last_digits, fixed_text};
ghost use Rattle.fixed_coords.specs.Fixed.{IsReading};
ghost use Rattle.fixed_coords.specs.Spelled.{minus_of};

use itoa::Buffer;

/// How many units a degree has.
const UNITS: u64 = 10_000_000;

/// Writes a value in units of 10^-7 as degrees to the beginning of `out`, and returns how many bytes it wrote.
///
/// They are a `-` for a negative value, the whole degrees without leading zeros, a point and seven digits. The later bytes of `out` do
/// not change. If the value is within 10^12 of 0, reading the text gives the value back.
pub fn write_fixed(value: i64, out: &mut [u8; 24]) -> usize
    ensures length { result ≤ 24 }
    ensures text { take result out.new ≡ fixed_text value }
    ensures rest { drop result out.new ≡ drop result out.old }
    ensures read_again { unsigned_abs value ≤ 10 ^ 12 → IsReading (take result out.new) (Ok value) }
{
    let size = value.unsigned_abs();
    let start = put_sign(out, value < 0);
    let mut buffer = Buffer::new();
    let point = put(out, start, buffer.format(size / UNITS).as_bytes());
    let fraction = put(out, point, b".");
    put(out, fraction, &seven_digits(size))
}

/// Writes `-` to the beginning of `out` for a negative value, and returns the offset after the sign.
fn put_sign(out: &mut [u8; 24], negative: bool) -> usize
    ensures end { result ≤ 1 }
    ensures text { take result out.new ≡ minus_of negative }
    ensures rest { drop result out.new ≡ drop result out.old }
{
    if negative { put(out, 0, b"-") } else { 0 }
}

/// Writes the bytes at offset `at`, and returns the offset after them.
fn put(out: &mut [u8; 24], at: usize, bytes: &[u8]) -> usize
    requires { at + length bytes.now ≤ 24 }
    ensures end { result ≡ at + length bytes.now }
    ensures text { take result out.new ≡ take at out.old ++ bytes.now }
    ensures rest { drop result out.new ≡ drop result out.old }
{
    let end = at + bytes.len();
    out[at..end].copy_from_slice(bytes);
    end
}

/// Returns the last seven decimal digits.
#[tactic(auto, unfolding(crate::specs::Degrees::last_digits))]
fn seven_digits(n: u64) -> [u8; 7]
    ensures { result ≡ last_digits 7 n }
{
    [
        last_digit(n / 1_000_000),
        last_digit(n / 100_000),
        last_digit(n / 10_000),
        last_digit(n / 1_000),
        last_digit(n / 100),
        last_digit(n / 10),
        last_digit(n),
    ]
}

/// Returns the last decimal digit.
fn last_digit(n: u64) -> u8
    ensures { result ≡ 48 + n % 10 }
{
    b'0' + (n % 10) as u8
}
