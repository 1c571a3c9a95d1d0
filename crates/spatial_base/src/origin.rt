// Where distances are measured from.
ghost use Rattle.std.specs.Prelude.{◌≡◌, ◌≤◌, ◌↔◌, IsSome, IfSome};
ghost use Rattle.spatial_base.specs.Point.{IsViewpoint, distance, seen_from};
ghost use Rattle.spatial_base.specs.Rect.{mindist_of};

use crate::{Point, Rect, dist};
use std::marker::Model;

/// The greatest scale of longitudes, in thousandths: with it they count in full.
pub const SCALE_MAX: u16 = 1_000;

/// A point that distances are measured from, with the scale of longitudes there.
///
/// The scale says how many thousandths of its size a step of longitude counts: 0 to 1000. Where a degree of longitude is half as long
/// as one of latitude, as at latitude 60, it is 500.
#[derive(Clone, Copy, Debug, PartialEq, Eq)]
pub struct Origin {
    point: Point,
    scale: u16,
}

impl Model for Origin {
    ghost use Rattle.spatial_base.specs.Point.{Viewpoint, IsViewpoint};

    ghost Value = { Viewpoint };

    ghost view = { λ o. record { point = o.point; scale = o.scale } };

    ghost invariant = { λ o. IsViewpoint (record { point = o.point; scale = o.scale }) };

    ghost inverse = { λ o. record { point = o.point; scale = o.scale } };
}

impl Origin {
    /// Returns the origin at this point, or `None` if the scale is above 1000.
    pub fn new(point: Point, scale: u16) -> Option<Origin>
        ensures some { IsSome result ↔ (scale ≤ 1000) }
        ensures value { IfSome result (λ origin. origin ≡ seen_from point scale) }
    {
        if scale > SCALE_MAX {
            return None;
        }
        Some(Origin::at(point, scale))
    }

    /// Returns the origin at this point, whose scale is known to be at most 1000.
    pub fn at(point: Point, scale: u16) -> Origin
        requires { scale ≤ 1000 }
        ensures { result ≡ seen_from point scale }
    {
        // The point is on the map.
        let _x = point.x();
        let _y = point.y();
        Origin { point, scale }
    }

    /// Returns the point.
    pub fn point(&self) -> Point
        ensures value { result ≡ self.now.point }
        ensures valid { IsViewpoint self.now }
    {
        self.point
    }

    /// Returns the scale, in thousandths.
    pub fn scale(&self) -> u16
        ensures value { result ≡ self.now.scale }
        ensures valid { IsViewpoint self.now }
    {
        self.scale
    }

    /// Returns the distance to a point, in degrees times 10^7, rounded down: at most 2,545,584,412.
    pub fn dist(&self, p: &Point) -> u64
        ensures value { result ≡ distance self.now p.now }
        ensures far { result ≤ 2545584412 }
    {
        dist(&self.point, p, self.scale)
    }

    /// Returns the distance to the nearest point of a rectangle, in degrees times 10^7, rounded down: at most 2,545,584,412.
    pub fn mindist(&self, rect: &Rect) -> u64
        ensures value { result ≡ mindist_of rect.now self.now }
        ensures far { result ≤ 2545584412 }
    {
        rect.mindist(&self.point, self.scale)
    }
}
