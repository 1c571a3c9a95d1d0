//! Finds the slot that grows least.
ghost use Rattle.std.specs.Prelude.{◌≢◌};
ghost use Rattle.split_policy.specs.Quadratic.{IsLeastGrowth};

use crate::cost::Cost;
use crate::mask::is_set;
use spatial_base::Rect;

/// Returns the used slot that grows least by joining `add`. Among equals it is the smallest, and among equals again the first.
pub fn least_growth(used: u32, rects: &[Rect; 32], add: &Rect) -> u8
    requires { used ≢ 0 }
    ensures { IsLeastGrowth used rects.now add.now result }
{
    let first = used.trailing_zeros() as usize;
    let mut best = first;
    let mut least = Cost::of(&rects[first], add);
    for slot in first + 1..32 {
        if is_set(used.into(), slot) {
            let cost = Cost::of(&rects[slot], add);
            if cost.is_less(&least) {
                best = slot;
                least = cost;
            }
        }
    }
    best as u8
}
