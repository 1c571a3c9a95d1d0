// Points in whole units of 10^-7 degrees.
ghost use Rattle.std.specs.Prelude.{◌≡◌, ◌≤◌, ◌↔◌, IsTrue, IsSome, IfSome, unsigned_abs};
ghost use Rattle.spatial_base.specs.Point.{IsOnMap};

use std::marker::Model;

/// The greatest longitude east or west: 180 degrees times 10^7.
pub const LONGITUDE_MAX: u32 = 1_800_000_000;

/// The greatest latitude north or south: 90 degrees times 10^7.
pub const LATITUDE_MAX: u32 = 900_000_000;

/// A point on the map: longitude within 180 and latitude within 90 degrees of 0, in degrees times 10^7.
#[derive(Clone, Copy, Debug, PartialEq, Eq, PartialOrd, Ord)]
pub struct Point {
    x: i32,
    y: i32,
}

impl Model for Point {
    ghost use Rattle.spatial_base.specs.Point.{Position, IsOnMap};

    ghost Value = { Position };

    ghost view = { λ p. record { x = p.x; y = p.y } };

    ghost invariant = { λ p. IsOnMap p.x p.y };

    ghost inverse = { λ p. record { x = p.x; y = p.y } };
}

impl Point {
    /// Returns the point at longitude `x` and latitude `y`, or `None` if one is out of range.
    pub fn new(x: i32, y: i32) -> Option<Point>
        ensures some { IsSome result ↔ IsOnMap x y }
        ensures value { IfSome result (λ p. p ≡ record { x = x; y = y }) }
    {
        if is_on_map(x, y) {
            Some(Point { x, y })
        } else {
            None
        }
    }

    /// Returns the longitude in degrees times 10^7.
    pub fn x(&self) -> i32
        ensures value { result ≡ self.now.x }
        ensures within { unsigned_abs result ≤ LONGITUDE_MAX }
    {
        self.x
    }

    /// Returns the latitude in degrees times 10^7.
    pub fn y(&self) -> i32
        ensures value { result ≡ self.now.y }
        ensures within { unsigned_abs result ≤ LATITUDE_MAX }
    {
        self.y
    }
}

// Whether a longitude and a latitude are both in range.
pub(crate) fn is_on_map(x: i32, y: i32) -> bool
    ensures { IsTrue result ↔ IsOnMap x y }
{
    x.unsigned_abs() <= LONGITUDE_MAX && y.unsigned_abs() <= LATITUDE_MAX
}
