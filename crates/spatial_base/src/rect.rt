// Rectangles on the map.
ghost use Rattle.std.specs.Prelude.{◌≡◌, ◌≤◌, ◌≤ℤ◌, ◌↔◌, IsTrue, IsSome, IfSome, unsigned_abs};
ghost use Rattle.spatial_base.specs.Point.{Position, distance, gap, seen_from};
ghost use Rattle.spatial_base.specs.Rect.{Bounds, IsRect, Holds, holds_point, Covers, rect_of, joined, area_of, mindist_of, clamped, is_in_range, longitude_gap_to};

use crate::Point;
use crate::distance::{east_gap, line};
use crate::point::is_on_map;
use std::marker::Model;

/// A rectangle on the map, including its border.
///
/// It has the points from `west` to `east` and from `south` to `north`, in degrees times 10^7, and so at least one.
#[derive(Clone, Copy, Debug, PartialEq, Eq)]
pub struct Rect {
    west: i32,
    south: i32,
    east: i32,
    north: i32,
}

impl Model for Rect {
    ghost use Rattle.spatial_base.specs.Rect.{Bounds, IsRect};

    ghost Value = { Bounds };

    ghost view = { λ r. record { west = r.west; south = r.south; east = r.east; north = r.north } };

    ghost invariant = { λ r. IsRect r.west r.south r.east r.north };

    ghost inverse = { λ r. record { west = r.west; south = r.south; east = r.east; north = r.north } };
}

impl Rect {
    /// Returns the rectangle between these longitudes and latitudes.
    ///
    /// Returns `None` exactly if `west` is greater than `east`, `south` is greater than `north`, or one of them is out of range.
    pub fn new(west: i32, south: i32, east: i32, north: i32) -> Option<Rect>
        ensures some { IsSome result ↔ IsRect west south east north }
        ensures value { IfSome result (λ r. r ≡ record { west = west; south = south; east = east; north = north }) }
    {
        if is_on_map(west, south) && is_on_map(east, north) && west <= east && south <= north {
            Some(Rect {
                west,
                south,
                east,
                north,
            })
        } else {
            None
        }
    }

    /// Returns the rectangle that has only one point.
    pub fn of(p: &Point) -> Rect
        ensures { result ≡ rect_of p.now }
    {
        Rect {
            west: p.x(),
            south: p.y(),
            east: p.x(),
            north: p.y(),
        }
    }

    /// Returns the least longitude, in degrees times 10^7.
    pub fn west(&self) -> i32
        ensures value { result ≡ self.now.west }
        ensures valid { IsRect self.now.west self.now.south self.now.east self.now.north }
    {
        self.west
    }

    /// Returns the least latitude, in degrees times 10^7.
    pub fn south(&self) -> i32
        ensures value { result ≡ self.now.south }
        ensures valid { IsRect self.now.west self.now.south self.now.east self.now.north }
    {
        self.south
    }

    /// Returns the greatest longitude, in degrees times 10^7.
    pub fn east(&self) -> i32
        ensures value { result ≡ self.now.east }
        ensures valid { IsRect self.now.west self.now.south self.now.east self.now.north }
    {
        self.east
    }

    /// Returns the greatest latitude, in degrees times 10^7.
    pub fn north(&self) -> i32
        ensures value { result ≡ self.now.north }
        ensures valid { IsRect self.now.west self.now.south self.now.east self.now.north }
    {
        self.north
    }

    /// Returns the least rectangle that covers both. Every other rectangle that covers both covers it.
    pub fn join(&self, other: &Rect) -> Rect
        ensures value { result ≡ joined self.now other.now }
        ensures first { Covers result self.now }
        ensures second { Covers result other.now }
        ensures least { (r : Bounds) → Covers r self.now → Covers r other.now → Covers r result }
    {
        Rect {
            west: self.west.min(other.west),
            south: self.south.min(other.south),
            east: self.east.max(other.east),
            north: self.north.max(other.north),
        }
    }

    /// Returns whether the point is in the rectangle or on its border.
    pub fn holds(&self, p: &Point) -> bool
        ensures value { result ≡ holds_point self.now p.now }
        ensures exact { IsTrue result ↔ Holds self.now p.now }
    {
        is_between(self.west, self.east, p.x()) && is_between(self.south, self.north, p.y())
    }

    /// Returns width times height, in square units of 10^-7 degrees: at most 6.48 * 10^18.
    pub fn area(&self) -> u64
        ensures { result ≡ area_of self.now }
    {
        let width = u64::from(self.west.abs_diff(self.east));
        let height = u64::from(self.south.abs_diff(self.north));
        width * height
    }

    /// Returns the distance from a point to the nearest point of the rectangle, in degrees times 10^7, rounded down.
    ///
    /// Longitudes go the shorter way round and count `scale` thousandths of their size. It is 0 inside the rectangle and on its border.
    /// No point of the rectangle is nearer than this, and one is as near.
    pub fn mindist(&self, p: &Point, scale: u16) -> u64
        requires { scale ≤ 1000 }
        ensures value { result ≡ mindist_of self.now (seen_from p.now scale) }
        ensures inside { Holds self.now p.now → result ≡ 0 }
        ensures below { (q : Position) → Holds self.now q → result ≤ distance (seen_from p.now scale) q }
        ensures reached { (q : Position) × Holds self.now q × (result ≡ distance (seen_from p.now scale) q) }
        ensures far { result ≤ 2545584412 }
    {
        line(
            east_gap_to(self.west, self.east, p.x()),
            outside(self.south, self.north, p.y()),
            scale,
        )
    }
}

// The distance from a longitude to a range of longitudes by the shorter way round, 0 if it is in the range.
fn east_gap_to(west: i32, east: i32, a: i32) -> u64
    requires order { west ≤ℤ east }
    requires west { unsigned_abs west ≤ 1800000000 }
    requires east { unsigned_abs east ≤ 1800000000 }
    requires a { unsigned_abs a ≤ 1800000000 }
    ensures value { result ≡ longitude_gap_to west east a }
    ensures within { result ≤ 1800000000 }
{
    if west <= a && a <= east {
        0
    } else {
        east_gap(a, west).min(east_gap(a, east))
    }
}

// Whether a number is in the range from `low` to `high`.
fn is_between(low: i32, high: i32, a: i32) -> bool
    ensures value { result ≡ is_in_range low high a }
    ensures exact { IsTrue result ↔ ((low ≤ℤ a) × (a ≤ℤ high)) }
{
    low <= a && a <= high
}

// The distance from a number to the range from `low` to `high`, 0 if it is in the range.
fn outside(low: i32, high: i32, a: i32) -> u64
    requires { low ≤ℤ high }
    ensures { result ≡ gap a (clamped low high a) }
{
    a.abs_diff(a.min(high).max(low)).into()
}
