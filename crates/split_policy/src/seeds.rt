//! The two entries that a quadratic split begins with.
ghost use Rattle.std.specs.Prelude.{◌≡◌, ◌<◌};
ghost use Rattle.split_policy.specs.Areas.{rect_at, waste_of};
ghost use Rattle.split_policy.specs.Quadratic.{IsPartner, IsSeeds};

use crate::cost::area;
use spatial_base::Rect;

/// Two entries, the one with the lesser number first, and the area that they would waste in one group.
#[derive(Clone, Copy)]
pub(crate) struct Seeds {
    pub(crate) first: usize,
    pub(crate) second: usize,
    pub(crate) waste: i128,
}

/// Returns the area of the join of two rectangles minus their own areas, in square units of 10^-7 degrees.
fn waste(a: &Rect, b: &Rect) -> i128
    ensures { result ≡ waste_of a.now b.now }
{
    i128::from(area(&a.join(b))) - i128::from(area(a)) - i128::from(area(b))
}

/// Returns an entry, with the entry after it with which it would waste the most area, among equals the first.
fn partner(rects: &[Rect; 33], first: usize) -> Seeds
    requires { first < 32 }
    ensures first { result.first ≡ first }
    ensures waste { result.waste ≡ waste_of (rect_at rects.now first) (rect_at rects.now result.second) }
    ensures second { IsPartner rects.now first result.second }
{
    let mut best = Seeds {
        first,
        second: first + 1,
        waste: waste(&rects[first], &rects[first + 1]),
    };
    for second in first + 2..33 {
        let waste = waste(&rects[first], &rects[second]);
        if best.waste < waste {
            best = Seeds {
                first,
                second,
                waste,
            };
        }
    }
    best
}

/// Returns the pair of entries that would waste the most area in one group.
///
/// Among equals it is the pair with the least first entry, and then with the least second.
pub(crate) fn pick_seeds(rects: &[Rect; 33]) -> Seeds
    ensures { IsSeeds rects.now result.first result.second }
{
    let mut best = partner(rects, 0);
    for first in 1..32 {
        let pair = partner(rects, first);
        if best.waste < pair.waste {
            best = pair;
        }
    }
    best
}
