//! Masks of slots by the bytes of a row.
ghost use Rattle.std.specs.Prelude.{◌≡◌, ◌≢◌, ◌<◌, ◌||◌, ℕ, nat_lt, slice_index};
ghost use Rattle.node_filter.specs.Masks.{has_slot, Marks};

// The mask, with a slot added if it is wanted.
fn with_slot(mask: u32, at: usize, is_wanted: bool) -> u32
    requires { at < 32 }
    ensures here { has_slot result at ≡ (has_slot mask at || is_wanted) }
    ensures others { (i : ℕ) → i ≢ at → has_slot result i ≡ has_slot mask i }
{
    if is_wanted { mask | 1 << at } else { mask }
}

/// The slots whose byte isn't 0.
pub(crate) fn above_zero(row: &[u8; 32]) -> u32
    ensures { Marks result (λ i. nat_lt 0 (slice_index row.now i)) }
{
    let mut mask = 0;
    for at in 0..32 {
        mask = with_slot(mask, at, row[at] > 0);
    }
    mask
}
