//! Whether bytes are zero.
ghost use Rattle.std.specs.Prelude.{◌≡◌, ◌==◌, ◌&&◌};
ghost use Rattle.page_face.specs.FreeList.{are_zero as is_clear};

// The greater of two bytes, which is zero if both are.
fn greater(one: u8, other: u8) -> u8
    ensures { (result == 0) ≡ ((one == 0) && (other == 0)) }
{
    if other > one { other } else { one }
}

/// Returns whether all bytes are zero.
///
/// Takes the greatest of all of them, with no early end, so that many are compared at once: most pages have hundreds of spare bytes, which
/// are zero.
pub fn are_zero(bytes: &[u8]) -> bool
    ensures { result ≡ is_clear bytes.now }
{
    let mut greatest = 0;
    for byte in bytes {
        greatest = greater(greatest, *byte);
    }
    greatest == 0
}
