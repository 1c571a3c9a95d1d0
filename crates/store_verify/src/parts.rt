//! Parts of a page.
ghost use Rattle.std.specs.Prelude.{◌≡◌, ◌≤◌, ◌+◌, take, drop, length};

use page_face::Page;

/// So many bytes of a page.
pub(crate) fn part(page: &Page, from: usize, len: usize) -> &[u8]
    requires { from + len ≤ 4096 }
    ensures is { result.now ≡ take len (drop from page.now) }
    ensures length { length result.now ≡ len }
{
    &page[from..from + len]
}
