//! Numbers in the bytes of a page.
ghost use Rattle.std.specs.Prelude.{◌≡◌, ◌≤◌, ◌+◌, length, take, drop, FitsSigned};
ghost use Rattle.std.specs.Int.{w32};
ghost use Rattle.rtree_nodes.specs.Numbers.{number_at, int_at, overwritten};

use page_face::Page;

/// The u32 at a place.
#[tactic(auto, unfolding(crate::specs::Numbers::number_at))]
pub(crate) fn u32_at(page: &Page, at: usize) -> u32
    requires { at + 4 ≤ 4096 }
    ensures { result ≡ number_at at page.now }
{
    u32::from_be_bytes([page[at], page[at + 1], page[at + 2], page[at + 3]])
}

/// Returns the i32 in the four bytes of a page from offset `at` on, most significant byte first.
pub fn i32_at(page: &Page, at: usize) -> i32
    requires { at + 4 ≤ 4096 }
    ensures value { result ≡ int_at at page.now }
    ensures fits { FitsSigned w32 result }
{
    u32_at(page, at).cast_signed()
}

/// The 66 bytes at a place.
pub(crate) fn key_bytes(page: &Page, at: usize) -> [u8; 66]
    requires { at + 66 ≤ 4096 }
    ensures { result ≡ take 66 (drop at page.now) }
{
    let mut bytes = [0; 66];
    bytes.copy_from_slice(&page[at..at + 66]);
    bytes
}

/// Writes bytes over those at a place.
#[tactic(auto, unfolding(crate::specs::Numbers::overwritten))]
pub(crate) fn overwrite(page: &mut Page, at: usize, bytes: &[u8])
    requires { at + length bytes.now ≤ 4096 }
    ensures { page.new ≡ overwritten at bytes.now page.old }
{
    page[at..at + bytes.len()].copy_from_slice(bytes);
}
