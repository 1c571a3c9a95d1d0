//! The entries of a tree's leaves and the places.
ghost use Rattle.std.specs.Prelude.{◌≡◌, ◌↔◌, ℕ, All, IsTrue, false};
ghost use Rattle.std.specs.List.Sorted.{IsStrictlySortedBy};
ghost use Rattle.std.specs.Map.{keys_of};
ghost use Rattle.spatial_base.specs.Key.{key_cmp};
ghost use Rattle.rtree_nodes.specs.Slots.{Item};
ghost use Rattle.store_verify.specs.Sites.{AreApart, IsSite, site_sum};

use spatial_base::{Key, Point};

// Whether both have the same keys at the same points.
fn are_same(sites: &[(Key, Point)], others: &[(Key, Point)]) -> bool
    ensures { IsTrue result ↔ (sites.now ≡ others.now) }
{
    sites == others
}

/// Whether the entries of a tree's leaves, in any order, are those of the places, each once with its point. If not, some key at some point
/// isn't equally often in both.
///
/// It says so if the places are in the order of their keys. `found` has a key and a point for each entry, 76 bytes, and is left in their
/// order. The call takes no memory.
pub fn leaves_agree(found: &mut [(Key, Point)], places: &[(Key, Point)]) -> bool
    ensures agree { All IsSite found.old → All IsSite places.now → IsStrictlySortedBy key_cmp (keys_of places.now)
        → (IsTrue result ↔ ((f : Item → ℕ) → site_sum f found.old ≡ site_sum f places.now)) }
    ensures apart { All IsSite found.old → All IsSite places.now → IsStrictlySortedBy key_cmp (keys_of places.now)
        → result ≡ false → AreApart found.old places.now }
{
    found.sort_unstable();
    are_same(found, places)
}
