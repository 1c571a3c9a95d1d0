// The first k hits so far.
ghost use Rattle.std.specs.Prelude.{◌≡◌, ◌≤◌, length, take, OnOk};
ghost use Rattle.std.specs.List.{insert};
ghost use Rattle.place_values.specs.First.{placed, IsRanked};
ghost use Rattle.place_values.specs.Hit.{comes_before};

use crate::{Hit, is_before};
use std::alloc::AllocError;

// The rank that a hit has among hits in order. It looks from the end, since most places of a scan come last.
#[inline(always)]
fn rank_of(best: &[Hit], hit: &Hit) -> usize
    requires { IsRanked comes_before best.now }
    ensures within { result ≤ length best.now }
    ensures place { placed comes_before hit.now best.now ≡ insert best.now result hit.now }
{
    let mut at = best.len();
    while at > 0 && !is_before(&best[at - 1], hit) {
        at -= 1;
    }
    at
}

/// Puts a hit among the best `k` so far, which are in order, and keeps only the first `k`.
///
/// Costs a comparison for each hit that it comes before, and one more.
#[inline(always)]
pub fn keep(best: &mut Vec<Hit>, hit: &Hit, k: usize) -> Result<(), AllocError>
    requires ranked { IsRanked comes_before best.old.items }
    requires short { length best.old.items ≤ k }
    ensures { OnOk result (best.new.items ≡ take k (placed comes_before hit.now best.old.items)) }
{
    let at = rank_of(&*best, hit);
    if at == k {
        return Ok(());
    }
    best.insert(at, *hit)?;
    best.truncate(k);
    Ok(())
}
