//! Pages that are built of cells, and a cell that is put among others.
ghost use Rattle.std.specs.Prelude.{◌≡◌, ℕ, ◌≤◌, ◌+◌, ◌-◌, ◌*◌, ◌++◌, length, take, drop, replicate};
ghost use Rattle.page_face.specs.Nodes.{IsNode, count_of};
ghost use Rattle.btree_nodes.specs.Build.{image};

use page_face::Page;

// Copies the bytes over those at this place.
fn write_over(out: &mut [u8], at: usize, bytes: &[u8])
    requires { at + length bytes.now ≤ length out.old }
    ensures { out.new ≡ take at out.old ++ (bytes.now ++ drop (at + length bytes.now) out.old) }
{
    out[at..at + bytes.len()].copy_from_slice(bytes);
}

/// Writes the bytes over those at this place.
pub fn write_at(out: &mut [u8], at: usize, bytes: &[u8])
    requires { at + length bytes.now ≤ length out.old }
    ensures all { out.new ≡ take at out.old ++ (bytes.now ++ drop (at + length bytes.now) out.old) }
    ensures front { take (at + length bytes.now) out.new ≡ take at out.old ++ bytes.now }
{
    write_over(out, at, bytes);
}

/// Copies the key at this place out.
pub fn copy_key(cells: &[u8], at: usize, out: &mut [u8])
    requires { at + length out.old ≤ length cells.now }
    ensures { out.new ≡ take (length out.old) (drop at cells.now) }
{
    out.copy_from_slice(&cells[at..at + out.len()]);
}

/// Makes the key at this place, of `key` bytes, the least one: all of them zero.
pub fn clear_key(cells: &mut [u8], at: usize, key: usize)
    requires short { key ≤ 255 }
    requires fits { at + key ≤ length cells.old }
    ensures front { take at cells.new ≡ take at cells.old }
    ensures back { drop at cells.new ≡ replicate key 0 ++ drop key (drop at cells.old) }
{
    let zeros = [0; 255];
    write_at(cells, at, &zeros[..key]);
}

/// A page of these cells, with spare bytes after them. Byte 0 is the kind, byte 1 the map's number, bytes 2 and 3 the count, byte 4 the
/// level.
pub fn build(number: u8, kind: u8, level: u8, count: u16, cells: &[u8]) -> Page
    requires fits { 16 + length cells.now ≤ 4096 }
    ensures { result ≡ image number kind level count cells.now }
{
    let [high, low] = count.to_be_bytes();
    let head = [kind, number, high, low, level];
    let mut page = [0; 4096];
    write_at(&mut page, 0, &head);
    write_at(&mut page, 16, cells);
    page
}

/// Writes the cells into `out`, with a new cell, in two pieces, replacing those from `at` up to `until`.
pub fn splice(cells: &[u8], at: usize, until: usize, first: &[u8], second: &[u8], out: &mut [u8])
    requires at { at ≤ until }
    requires until { until ≤ length cells.now }
    requires out { length out.old + (until - at) ≡ length cells.now + (length first.now + length second.now) }
    ensures { out.new ≡ take at cells.now ++ ((first.now ++ second.now) ++ drop until cells.now) }
{
    write_at(out, 0, &cells[..at]);
    write_at(out, at, first);
    write_at(out, at + first.len(), second);
    write_at(out, at + first.len() + second.len(), &cells[until..]);
}

// Moves the bytes from `from` up to `size` to another place. Zeros after them stay zeros.
fn move_tail(out: &mut [u8], size: usize, from: usize, to: usize)
    requires from { from ≤ size }
    requires size { size ≤ length out.old }
    requires fits { to + (size - from) ≤ length out.old }
    ensures front { (at : ℕ) → at ≤ from → at ≤ to → take at out.new ≡ take at out.old }
    ensures back { drop size out.old ≡ replicate (length out.old - size) 0
        → drop to out.new ≡ drop from (take size out.old) ++ replicate (length out.old - (to + (size - from))) 0 }
{
    if to == from {
        return;
    }
    out.copy_within(from..size, to);
    let end = to + (size - from);
    if end < size {
        out[end..size].fill(0);
    }
}

// Writes a new cell, in two pieces, over those from `at` up to `until` of the first `size` bytes, which are cells, and moves the cells
// behind them unless they stay. Zeros after the cells stay zeros.
fn splice_in(out: &mut [u8], size: usize, at: usize, until: usize, first: &[u8], second: &[u8])
    requires at { at ≤ until }
    requires until { until ≤ size }
    requires size { size ≤ length out.old }
    requires fits { size + (length first.now + length second.now) ≤ length out.old + (until - at) }
    ensures { drop size out.old ≡ replicate (length out.old - size) 0
        → out.new ≡ (take at (take size out.old) ++ ((first.now ++ second.now) ++ drop until (take size out.old)))
        ++ replicate (length out.old + (until - at) - (size + (length first.now + length second.now))) 0 }
{
    move_tail(out, size, until, at + first.len() + second.len());
    write_at(out, at, first);
    write_at(out, at + first.len(), second);
}

/// Replaces the cells from `at` up to `until` of a page by a new cell, in two pieces, and writes the count of its cells into its header.
/// The page's cells have `size` bytes, and zeros after them.
///
/// Edits the page in its place: moves the cells from `until` on, unless the new cell is as long as those that it replaces.
pub fn edit_cells(
    page: &mut Page,
    count: u16,
    size: usize,
    at: usize,
    until: usize,
    first: &[u8],
    second: &[u8],
)
    requires at { at ≤ until }
    requires until { until ≤ size }
    requires size { 16 + size ≤ 4096 }
    requires fits { 16 + size + (length first.now + length second.now) ≤ 4096 + (until - at) }
    ensures { (number kind level width least : ℕ) → IsNode number kind level width least page.old → size ≡ width * count_of page.old
        → page.new ≡ image number kind level count (take at (take size (drop 16 page.old)) ++ ((first.now ++ second.now) ++ drop until (take size (drop 16 page.old)))) }
{
    write_at(page, 2, &count.to_be_bytes());
    splice_in(&mut page[16..], size, at, until, first, second);
}
