//! Guttman's quadratic split (1984, section 3.5.2).
ghost use Rattle.std.specs.Prelude.{◌≡◌, ℕ};
ghost use Rattle.split_policy.specs.Masks.{IsMask};
ghost use Rattle.split_policy.specs.Quadratic.{IsLeastGrowth, IsQuadraticSplit};

use crate::SplitPolicy;
use crate::choice::least_growth;
use crate::division::Division;
use crate::seeds::pick_seeds;
use spatial_base::Rect;
use std::marker::Model;

/// Guttman's quadratic split.
///
/// An entry goes into the used slot that grows least, among equals the smallest, and among equals again the first. That takes one join
/// of two rectangles for each used slot.
///
/// A split begins with the two entries that would waste the most area in one group. Then it places, one after another, the entry for
/// which the growth of the two groups differs most. It stops once a group needs all that are left to have 12. That takes at most about
/// 1,600 joins.
///
/// The policy keeps only the number of its splits.
#[derive(Debug, Drop)]
pub struct Quadratic {
    splits: u64,
}

impl Model for Quadratic {
    ghost use Rattle.std.specs.Prelude.{ℕ};

    ghost Value = { ℕ };

    ghost view = { λ p. p.splits };
}

impl Quadratic {
    /// Returns the policy before its first split.
    pub fn new() -> Self
        ensures { result ≡ 0 }
    {
        Quadratic { splits: 0 }
    }
}

impl SplitPolicy for Quadratic {
    ghost count = { λ splits. splits };

    ghost chooses = { λ _ used rects add _ at. IsLeastGrowth used rects add at };

    ghost splits_by = { λ _ rects _ mask. IsQuadraticSplit rects mask };

    fn choose(&mut self, used: u32, rects: &[Rect; 32], add: &Rect, _shared: &[u32; 32]) -> u8 {
        least_growth(used, rects, add)
    }

    fn split(&mut self, rects: &[Rect; 33], _like: &[[u32; 33]; 33]) -> u64 {
        self.splits = self.splits.saturating_add(1);
        quadratic_split(rects)
    }

    fn splits(&self) -> u64 {
        self.splits
    }
}

/// Returns the mask of the entries that Guttman's quadratic split moves. It is the only mask that his split has.
fn quadratic_split(rects: &[Rect; 33]) -> u64
    ensures mask { IsMask result }
    ensures split { IsQuadraticSplit rects.now result }
    ensures only { (mask : ℕ) → IsQuadraticSplit rects.now mask → result ≡ mask }
{
    let seeds = pick_seeds(rects);
    let mut division = Division::begin(rects, seeds.first, seeds.second);
    while division.is_open() {
        let next = division.pick_next(rects);
        division = division.place(rects, next);
    }
    division.end(rects)
}
