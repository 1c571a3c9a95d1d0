//! The axis on which rectangles are spread most widely.
ghost use Rattle.std.specs.Prelude.{◌≡◌, ◌≤◌, unsigned_abs};
ghost use Rattle.split_policy.specs.Halving.{sum_on, spread_on, axis_of};

use spatial_base::Rect;

/// An axis of the map.
#[derive(Clone, Copy)]
pub(crate) enum Axis {
    Longitude,
    Latitude,
}

impl Axis {
    /// Returns the rectangle's two sides on this axis added up, which is twice its middle, in degrees times 10^7: within 360 degrees of
    /// 0.
    pub(crate) fn sum(self, rect: &Rect) -> i64
        ensures value { result ≡ sum_on self rect.now }
        ensures within { unsigned_abs result ≤ 3600000000 }
    {
        match self {
            Axis::Longitude => i64::from(rect.west()) + i64::from(rect.east()),
            Axis::Latitude => i64::from(rect.south()) + i64::from(rect.north()),
        }
    }

    /// Returns the greatest sum minus the least.
    fn spread(self, rects: &[Rect; 33]) -> i64
        ensures { result ≡ spread_on rects.now self }
    {
        let mut greatest = self.sum(&rects[0]);
        let mut least = greatest;
        for i in 0..33 {
            let sum = self.sum(&rects[i]);
            greatest = greatest.max(sum);
            least = least.min(sum);
        }
        greatest - least
    }

    /// Returns the axis with the greater spread, or longitude if both have the same.
    pub(crate) fn of(rects: &[Rect; 33]) -> Axis
        ensures { result ≡ axis_of rects.now }
    {
        if Axis::Latitude.spread(rects) <= Axis::Longitude.spread(rects) {
            Axis::Longitude
        } else {
            Axis::Latitude
        }
    }
}
