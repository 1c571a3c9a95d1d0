//! The bits of a mask.
ghost use Rattle.std.specs.Prelude.{◌≡◌, ◌<◌, ◌^◌, ◌==◌};
ghost use Rattle.std.specs.Int.{bit_at};

/// Returns whether bit `at` is set.
pub fn is_set(mask: u64, at: usize) -> bool
    requires { at < 64 }
    ensures { result ≡ (bit_at mask at == 1) }
{
    (mask >> at) & 1 == 1
}

/// Returns the mask in which bit `at` alone is set.
pub fn bit(at: usize) -> u64
    requires { at < 64 }
    ensures { result ≡ 2 ^ at }
{
    1 << at
}
