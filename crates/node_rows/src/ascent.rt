//! The step from a word's number to the next, for going through a node's rows in the order of their words.
ghost use Rattle.std.specs.Prelude.{◌≡◌, ◌<◌, ◌+◌, IfSome};
ghost use Rattle.node_rows.specs.Ascents.{reached};

/// Returns the next number, or `None` after the greatest one.
pub fn after(number: u64) -> Option<u64>
    ensures reached { reached result ≡ number + 1 }
    ensures onto { IfSome result (λ next. number < next) }
{
    if number == u64::MAX {
        None
    } else {
        Some(number + 1)
    }
}
