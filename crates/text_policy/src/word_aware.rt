//! A split by words.
ghost use Rattle.std.specs.Prelude.{◌≡◌, ℕ};
ghost use Rattle.split_policy.specs.Masks.{IsMask};
ghost use Rattle.text_policy.specs.Choices.{IsWordChoice};
ghost use Rattle.text_policy.specs.Splits.{IsWordSplit};

use crate::beginners::beginners;
use crate::joining::divide;
use crate::sharing::word_choice;
use spatial_base::Rect;
use split_policy::SplitPolicy;
use std::marker::Model;

/// A policy that keeps entries with the same words together.
///
/// An entry goes into the used slot that shares the most words with it, and among equals into the one that
/// [`Quadratic`](split_policy::Quadratic) chooses.
///
/// A split begins with the two entries that share the fewest words: the first of them stays and the second moves. The others follow in
/// the order of their numbers. Each joins the group with whose first entry it shares more words, among equals the one that grows less,
/// among equals again the one with fewer entries, and otherwise it stays. It stops once a group needs all that are left to have 12.
///
/// The policy keeps only the number of its splits.
#[derive(Debug, Drop)]
pub struct WordAware {
    splits: u64,
}

impl Model for WordAware {
    ghost use Rattle.std.specs.Prelude.{ℕ};

    ghost Value = { ℕ };

    ghost view = { λ p. p.splits };
}

impl WordAware {
    /// Returns the policy before its first split.
    pub fn new() -> Self
        ensures { result ≡ 0 }
    {
        WordAware { splits: 0 }
    }
}

impl SplitPolicy for WordAware {
    ghost count = { λ splits. splits };

    ghost chooses = { λ _ used rects add shared at. IsWordChoice used rects add shared at };

    ghost splits_by = { λ _ rects like mask. IsWordSplit rects like mask };

    fn choose(&mut self, used: u32, rects: &[Rect; 32], add: &Rect, shared: &[u32; 32]) -> u8 {
        word_choice(used, rects, add, shared)
    }

    fn split(&mut self, rects: &[Rect; 33], like: &[[u32; 33]; 33]) -> u64 {
        self.splits = self.splits.saturating_add(1);
        word_split(rects, like)
    }

    fn splits(&self) -> u64 {
        self.splits
    }
}

/// Returns the mask of the entries that a split by words moves. It is the only mask that the split has.
fn word_split(rects: &[Rect; 33], like: &[[u32; 33]; 33]) -> u64
    ensures mask { IsMask result }
    ensures split { IsWordSplit rects.now like.now result }
    ensures only { (mask : ℕ) → IsWordSplit rects.now like.now mask → result ≡ mask }
{
    let pair = beginners(like);
    divide(rects, like, pair.first, pair.second)
}
