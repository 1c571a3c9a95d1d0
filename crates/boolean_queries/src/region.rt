//! A region of the map in which a query looks for places.
ghost use Rattle.std.specs.Prelude.{◌≡◌};
ghost use Rattle.spatial_base.specs.Key.{IsName};
ghost use Rattle.spatial_base.specs.Point.{IsOnMap};
ghost use Rattle.boolean_queries.specs.Regions.{have_common, overlaps, meets, has_point, hit_in};

use place_values::Hit;
use spatial_base::{Key, Origin, Point, Rect};

/// A region of the map in which a query looks for places, its border included.
#[derive(Clone, Copy, Debug)]
pub(crate) enum Region {
    /// The points at most so far from a point.
    Within {
        /// The point from which distances are taken, with the scale of longitudes.
        at: Origin,
        /// The greatest distance, in degrees times 10^7.
        radius: u64,
    },
    /// A rectangle.
    Inside {
        /// The rectangle.
        rect: Rect,
    },
}

// Whether two ranges of numbers have one in common.
fn are_common(low: i32, high: i32, other_low: i32, other_high: i32) -> bool
    ensures { result ≡ have_common low high other_low other_high }
{
    low <= other_high && other_low <= high
}

// Whether two rectangles have a point in common.
fn overlap(a: &Rect, b: &Rect) -> bool
    ensures { result ≡ overlaps a.now b.now }
{
    are_common(a.west(), a.east(), b.west(), b.east())
        && are_common(a.south(), a.north(), b.south(), b.north())
}

impl Region {
    /// Whether the region has a point that a rectangle has.
    pub(crate) fn meets(&self, rect: &Rect) -> bool
        ensures { result ≡ meets self.now rect.now }
    {
        match self {
            Region::Within { at, radius } => at.mindist(rect) <= *radius,
            Region::Inside { rect: asked } => overlap(asked, rect),
        }
    }

    /// Whether the region has a point.
    pub(crate) fn has(&self, point: &Point) -> bool
        ensures has { result ≡ has_point self.now point.now }
        ensures on { IsOnMap point.now.x point.now.y }
    {
        // Its point is on the map, by the contracts of `x` and `y`.
        let (_x, _y) = (point.x(), point.y());
        match self {
            Region::Within { at, radius } => at.dist(point) <= *radius,
            Region::Inside { rect } => rect.holds(point),
        }
    }

    /// Returns the hit of a place: a place in a rectangle costs nothing, any other its distance.
    pub(crate) fn hit(&self, point: &Point, key: &Key) -> Hit
        ensures hit { result ≡ hit_in self.now point.now key.now }
        ensures name { IsName key.now }
    {
        // A key's text is well formed, by the contract of `bytes`.
        let _bytes = key.bytes();
        let dist = match self {
            Region::Within { at, .. } => at.dist(point),
            Region::Inside { .. } => 0,
        };
        Hit {
            cost: dist,
            key: *key,
            dist,
            text: 0,
            point: *point,
        }
    }
}
