//! A split in the middle of an axis.
ghost use Rattle.std.specs.Prelude.{◌≡◌, ◌<◌};
ghost use Rattle.split_policy.specs.Halving.{is_before, rank_among, sum_at, IsHalvingSplit};
ghost use Rattle.split_policy.specs.Masks.{IsMask};
ghost use Rattle.split_policy.specs.Quadratic.{IsLeastGrowth};

use crate::SplitPolicy;
use crate::axis::Axis;
use crate::choice::least_growth;
use crate::mask::bit;
use spatial_base::Rect;
use std::marker::Model;

/// How many of the 33 entries stay, the middle one included.
const STAYING: u32 = 17;

/// A split in the middle of an axis.
///
/// An entry goes into the slot that [`Quadratic`](crate::Quadratic) chooses.
///
/// A split orders the entries by their middles on longitude or latitude, whichever they are spread on more. The first 17 stay and the
/// last 16 move. That takes about 1,100 comparisons.
///
/// The policy keeps only the number of its splits.
#[derive(Debug, Drop)]
pub struct Halving {
    splits: u64,
}

impl Model for Halving {
    ghost use Rattle.std.specs.Prelude.{ℕ};

    ghost Value = { ℕ };

    ghost view = { λ p. p.splits };
}

impl Halving {
    /// Returns the policy before its first split.
    pub fn new() -> Self
        ensures { result ≡ 0 }
    {
        Halving { splits: 0 }
    }
}

impl SplitPolicy for Halving {
    ghost count = { λ splits. splits };

    ghost chooses = { λ _ used rects add _ at. IsLeastGrowth used rects add at };

    ghost splits_by = { λ _ rects _ mask. IsHalvingSplit rects mask };

    fn choose(&mut self, used: u32, rects: &[Rect; 32], add: &Rect, _shared: &[u32; 32]) -> u8 {
        least_growth(used, rects, add)
    }

    fn split(&mut self, rects: &[Rect; 33], _like: &[[u32; 33]; 33]) -> u64 {
        self.splits = self.splits.saturating_add(1);
        halving_split(rects)
    }

    fn splits(&self) -> u64 {
        self.splits
    }
}

/// Returns whether an entry comes before another: its sum is less, or the sums are equal and its number is less.
fn is_before(rects: &[Rect; 33], axis: Axis, entry: usize, other: usize) -> bool
    requires entry { entry < 33 }
    requires other { other < 33 }
    ensures { result ≡ is_before (sum_at rects.now axis) entry other }
{
    let sum = axis.sum(&rects[entry]);
    let its_sum = axis.sum(&rects[other]);
    sum < its_sum || sum == its_sum && entry < other
}

/// Returns how many entries come before this one.
fn rank(rects: &[Rect; 33], axis: Axis, entry: usize) -> u32
    requires { entry < 33 }
    ensures { result ≡ rank_among 33 (sum_at rects.now axis) entry }
{
    let mut rank = 0;
    for other in 0..33 {
        if is_before(rects, axis, other, entry) {
            rank += 1;
        }
    }
    rank
}

/// Returns the mask of the 16 entries that come last on the axis with the greater spread.
fn halving_split(rects: &[Rect; 33]) -> u64
    ensures mask { IsMask result }
    ensures split { IsHalvingSplit rects.now result }
{
    let axis = Axis::of(rects);
    let mut mask = 0;
    for entry in 0..33 {
        if STAYING <= rank(rects, axis, entry) {
            mask |= bit(entry);
        }
    }
    mask
}
