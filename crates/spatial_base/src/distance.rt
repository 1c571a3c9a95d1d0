// Whole square roots and distances.
ghost use Rattle.std.specs.Prelude.{◌≡◌, ◌≤◌, ◌*◌, ◌/◌, unsigned_abs};
ghost use Rattle.spatial_base.specs.Root.{IsRoot, root};
ghost use Rattle.spatial_base.specs.Point.{distance, gap, line_of, longitude_gap, seen_from};

use crate::{Point, SCALE_MAX};
use std::num::{nearest_u64_to_f64, saturating_f64_to_u32};

// The way round the earth: 360 degrees times 10^7.
const CIRCLE: u64 = 3_600_000_000;

// The greatest number at or below `guess` whose square is at most `n`.
fn lowered(n: u64, guess: u32) -> u32
    ensures square { result * result ≤ n }
{
    let mut root = guess;
    while u64::from(root) * u64::from(root) > n {
        root -= 1;
    }
    root
}

// Raises `low`, whose square is at most `n`, to the root of `n`.
fn raised(n: u64, low: u32) -> u32
    requires { low * low ≤ n }
    ensures root { IsRoot n result }
{
    let mut root = low;
    while root < u32::MAX && u64::from(root + 1) * u64::from(root + 1) <= n {
        root += 1;
    }
    root
}

// The root of a `u64`. The floating-point root is only a guess: the two steps after it correct it, whatever it is.
fn root_of_u64(n: u64) -> u32
    ensures root { IsRoot n result }
{
    let guess = saturating_f64_to_u32(nearest_u64_to_f64(n).sqrt());
    raised(n, lowered(n, guess))
}

/// Returns the whole square root: the greatest number whose square is at most `n`.
pub fn isqrt(n: u128) -> u64
    ensures root { IsRoot n result }
    ensures value { result ≡ root n }
{
    match u64::try_from(n) {
        Ok(small) => root_of_u64(small).into(),
        Err(_) => n.isqrt() as u64,
    }
}

// The distance between two longitudes by the shorter way round, in degrees times 10^7.
pub(crate) fn east_gap(a: i32, b: i32) -> u64
    requires a { unsigned_abs a ≤ 1800000000 }
    requires b { unsigned_abs b ≤ 1800000000 }
    ensures value { result ≡ longitude_gap a b }
    ensures within { result ≤ 1800000000 }
{
    let gap = u64::from(a.abs_diff(b));
    gap.min(CIRCLE - gap)
}

// The distance between two latitudes, in degrees times 10^7.
fn north_gap(p: &Point, q: &Point) -> u64
    ensures value { result ≡ gap p.now.y q.now.y }
    ensures within { result ≤ 1800000000 }
{
    p.y().abs_diff(q.y()).into()
}

// The square of a step east, with longitudes scaled, rounded down. The square of the scaled thousandths would pass 64 bits: whole
// units and the rest are squared apart.
fn scaled_square(east: u64, scale: u16) -> u64
    requires east { east ≤ 1800000000 }
    requires scale { scale ≤ 1000 }
    ensures value { result ≡ scale * east * (scale * east) / 1000000 }
    ensures far { result ≤ 3240000000000000000 }
{
    if scale == SCALE_MAX {
        return east * east;
    }
    let scaled = u64::from(scale) * east;
    let whole = scaled / 1000;
    let rest = scaled % 1000;
    whole * whole + (2000 * whole * rest + rest * rest) / 1_000_000
}

// The length of a line that goes `east` and `north` by these many units, with longitudes scaled, rounded down.
pub(crate) fn line(east: u64, north: u64, scale: u16) -> u64
    requires east { east ≤ 1800000000 }
    requires north { north ≤ 1800000000 }
    requires scale { scale ≤ 1000 }
    ensures value { result ≡ line_of scale east north }
    ensures far { result ≤ 2545584412 }
{
    root_of_u64(scaled_square(east, scale) + north * north).into()
}

/// Returns the distance between two points in degrees times 10^7, rounded down: the straight line on the map of degrees.
///
/// Longitudes go the shorter way round, so points on both sides of the 180th meridian are neighbours, and they count `scale`
/// thousandths of their size. With a scale of 1000 they count in full, with 0 not at all. The distance is at most 2,545,584,412.
pub fn dist(p: &Point, q: &Point, scale: u16) -> u64
    requires { scale ≤ 1000 }
    ensures value { result ≡ distance (seen_from p.now scale) q.now }
    ensures far { result ≤ 2545584412 }
{
    line(east_gap(p.x(), q.x()), north_gap(p, q), scale)
}
