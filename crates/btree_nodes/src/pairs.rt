//! Keys of eight to sixteen bytes as two numbers of eight bytes, which overlap: their order, and whether a page's keys ascend.
ghost use Rattle.std.specs.Prelude.{◌≡◌, ◌↔◌, ◌⊎◌, ◌<◌, ◌≤◌, ◌+◌, ◌-◌, ◌*◌, take, drop, IsTrue};
ghost use Rattle.page_face.specs.Number.{number};
ghost use Rattle.page_face.specs.Cells.{IsAscending};
ghost use Rattle.btree_nodes.specs.Pairs.{pair_at};

use page_face::Page;

/// The number of eight bytes of a page.
#[inline(always)]
fn eight_at(page: &Page, at: usize) -> u64
    requires { at + 8 ≤ 4096 }
    ensures { result ≡ number (take 8 (drop at page.now)) }
{
    u64::from_be_bytes([
        page[at],
        page[at + 1],
        page[at + 2],
        page[at + 3],
        page[at + 4],
        page[at + 5],
        page[at + 6],
        page[at + 7],
    ])
}

/// A key as two numbers: its first eight bytes and its last eight.
#[derive(Clone, Copy, Debug, PartialEq, Eq)]
pub struct Pair {
    /// The number of the first eight bytes.
    pub front: u64,
    /// The number of the last eight bytes.
    pub back: u64,
}

#[inline(always)]
fn pair_of(page: &Page, key: usize, width: usize, at: usize) -> Pair
    requires long { 8 ≤ key }
    requires wide { key ≤ width }
    requires fits { 16 + width * at + width ≤ 4096 }
    ensures { result ≡ pair_at key width page.now at }
{
    let from = 16 + width * at;
    Pair {
        front: eight_at(page, from),
        back: eight_at(page, from + (key - 8)),
    }
}

#[inline(always)]
fn is_less(one: Pair, other: Pair) -> bool
    ensures { IsTrue result ↔ ((one.front < other.front) ⊎ ((one.front ≡ other.front) × (one.back < other.back))) }
{
    one.front < other.front || (one.front == other.front && one.back < other.back)
}

/// Whether the keys of the cells from `from` up to `count` ascend strictly. Costs two loads a key.
pub(crate) fn ascends_by_pairs(
    page: &Page,
    key: usize,
    width: usize,
    from: usize,
    count: usize,
) -> bool
    requires long { 8 ≤ key }
    requires short { key ≤ 16 }
    requires wide { key ≤ width }
    requires fits { 16 + width * count ≤ 4096 }
    requires some { from < count }
    ensures { IsTrue result ↔ IsAscending key width page.now from count }
{
    let mut last = pair_of(page, key, width, from);
    for at in from..count - 1 {
        let next = pair_of(page, key, width, at + 1);
        if !is_less(last, next) {
            return false;
        }
        last = next;
    }
    true
}
