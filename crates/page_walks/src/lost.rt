//! A page that no structure has.
ghost use Rattle.std.specs.Prelude.{◌≡◌, ℕ, ◌<◌, MatchOption};
ghost use Rattle.page_walks.specs.Met.{held, IsFirstUnmet};

use crate::met::has_met;
use std::collections::BTreeSet;

/// Returns the first of the pages 1 up to `counted` that wasn't met, or `None` if all were.
///
/// After walks over all structures of a store it is lost: neither used nor free. Looks into the set once for each page before it, all of
/// which were met, and once for it. So it ends as soon as the pages met end, whatever `counted` is.
pub fn first_lost(met: &BTreeSet<u32>, counted: u32) -> Option<u32>
    ensures { MatchOption result ((n : ℕ) → 0 < n → n < counted → held met.now n ≡ 1) (IsFirstUnmet counted (held met.now)) }
{
    for page in 1..counted {
        if !has_met(met, page) {
            return Some(page);
        }
    }
    None
}
