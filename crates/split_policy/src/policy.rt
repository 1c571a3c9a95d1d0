//! Decides which slot an entry goes into, and which entries move when a node is split.
ghost use Rattle.std.specs.Prelude.{◌≡◌, ◌≢◌, ℕ, ◌+◌, ◌-◌, ◌^◌, min, List};
ghost use Rattle.spatial_base.specs.Rect.{Bounds};
ghost use Rattle.split_policy.specs.Masks.{IsMask, IsUsed};

use spatial_base::Rect;

/// Decides which way an entry goes down an R-tree and how a full node is split (Guttman 1984: ChooseLeaf and SplitNode).
///
/// It decides the tree's shape, and never the result of a query. No call allocates memory or fails.
pub trait SplitPolicy: Drop {
    /// How many splits were made, up to 2^64 - 1.
    ghost count: { Self → ℕ };

    /// Which slot may be chosen, given the mask of the used slots, their rectangles, the new rectangle and how many words each slot
    /// shares with the entry. A policy that promises only that the slot is used has `Unit {0}`.
    ghost chooses: { Self → ℕ → List Bounds → Bounds → List ℕ → ℕ → Type 0 };

    /// Which entries may move, given the rectangles of 33 entries and how many words each two of them share.
    ghost splits_by: { Self → List Bounds → List (List ℕ) → ℕ → Type 0 };

    /// Returns the number of the used slot that an entry with the rectangle `add` goes into.
    ///
    /// Slot `i` is used if bit `i` of `used` is set, and then `rects[i]` is its rectangle. `shared[i]` is the number of words that slot
    /// `i` and the entry both have below them.
    fn choose(&mut self, used: u32, rects: &[Rect; 32], add: &Rect, shared: &[u32; 32]) -> u8
        requires { used ≢ 0 }
        ensures used { IsUsed used result }
        ensures choice { chooses self.old used rects.now add.now shared.now result }
        ensures count { count self.new ≡ count self.old };

    /// Returns the mask of the entries that move to a new node, 12 to 21 of 33: entry `i` moves if bit `i` is set.
    ///
    /// Entries 0 to 31 are the slots of the full node, and entry 32 is the new one. `like[i][j]` is the number of words that entries
    /// `i` and `j` share.
    fn split(&mut self, rects: &[Rect; 33], like: &[[u32; 33]; 33]) -> u64
        ensures mask { IsMask result }
        ensures division { splits_by self.old rects.now like.now result }
        ensures count { count self.new ≡ min (count self.old + 1) (2 ^ 64 - 1) };

    /// Returns how many splits were made, up to 2^64 - 1.
    fn splits(&self) -> u64
        ensures { result ≡ count self.now };
}
