//! The pages met.
ghost use Rattle.std.specs.Prelude.{◌≡◌, ℕ, ◌+◌, IfOk, OnErr};
ghost use Rattle.std.specs.Bool.{OnTrue, OnFalse};
ghost use Rattle.btree_nodes.specs.Supply.{one_at};
ghost use Rattle.page_walks.specs.Met.{held};

use std::alloc::AllocError;
use std::collections::BTreeSet;

/// Whether a page was met.
#[tactic(auto, unfolding(crate::specs::Met::held))]
pub fn has_met(met: &BTreeSet<u32>, page: u32) -> bool
    ensures met { OnTrue result (held met.now page ≡ 1) }
    ensures unmet { OnFalse result (held met.now page ≡ 0) }
{
    met.contains(&page)
}

/// Meets a page. Returns whether it is new.
#[tactic(auto, unfolding(crate::specs::Met::held, btree_nodes::specs::Supply::one_at))]
pub fn meet(met: &mut BTreeSet<u32>, page: u32) -> Result<bool, AllocError>
    ensures new { IfOk result (λ new. OnTrue new ((n : ℕ) → held met.new n ≡ held met.old n + one_at page n)) }
    ensures again { IfOk result (λ new. OnFalse new (held met.old page ≡ 1)) }
    ensures same { IfOk result (λ new. OnFalse new ((n : ℕ) → held met.new n ≡ held met.old n)) }
    ensures kept { OnErr result ((n : ℕ) → held met.new n ≡ held met.old n) }
{
    match met.insert(page) {
        Ok(new) => Ok(new),
        Err(_) => Err(AllocError),
    }
}
