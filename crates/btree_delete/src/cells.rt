//! The cells of a page, gathered with a neighbour's, without one of them, or with another key.
ghost use Rattle.std.specs.Prelude.{◌≡◌, ◌+◌, ◌-◌, ◌*◌, ◌<◌, ◌≤◌, ◌++◌, length, drop};
ghost use Rattle.btree_nodes.specs.Build.{image};
ghost use Rattle.btree_delete.specs.Body.{headed, cells_in, without_cell, with_key};

use btree_nodes::{Form, Shape, body, build, splice};
use page_face::Page;

// The key of the first of a page's cells when they follow those of another page: in an inner page it is the key that parted the two.
fn first_key<'a>(form: Form, level: u8, cells: &'a [u8], parting: &'a [u8]) -> &'a [u8]
    requires cells { form.key ≤ length cells.now }
    requires parting { length parting.now ≡ form.key }
    ensures is { result.now ++ drop form.key cells.now ≡ headed level form.key parting.now cells.now }
    ensures length { length result.now ≡ form.key }
{
    if level == 0 {
        return &cells[..form.key];
    }
    parting
}

/// Writes the cells of two neighbours into `out`, one after the other.
pub fn gather(form: Form, level: u8, front: &[u8], parting: &[u8], back: &[u8], out: &mut [u8])
    requires back { form.key ≤ length back.now }
    requires parting { length parting.now ≡ form.key }
    requires out { length out.old ≡ length front.now + length back.now }
    ensures { out.new ≡ front.now ++ headed level form.key parting.now back.now }
{
    splice(
        front,
        front.len(),
        front.len(),
        first_key(form, level, back, parting),
        &back[form.key..],
        out,
    );
}

// Builds a page of the cells without the one at this place.
fn build_without(cells: &[u8], shape: Shape, count: usize, at: usize, out: &mut [u8]) -> Page
    requires at { at < count }
    requires cells { length cells.now ≡ shape.width * count }
    requires out { length out.old + shape.width ≡ shape.width * count }
    requires fits { 16 + shape.width * count ≤ 4096 }
    requires few { count < 65536 }
    ensures { result ≡ image shape.number shape.kind shape.level (count - 1) (without_cell shape.width at cells.now) }
{
    let from = shape.width * at;
    let none = &cells[..0];
    splice(cells, from, from + shape.width, none, none, out);
    build(
        shape.number,
        shape.kind,
        shape.level,
        (count - 1) as u16,
        out,
    )
}

/// The page without the cell at this place.
pub fn without(bytes: &Page, shape: Shape, count: usize, at: usize) -> Page
    requires at { at < count }
    requires fits { 16 + shape.width * count ≤ 4096 }
    requires some { 1 ≤ shape.width }
    ensures { result ≡ image shape.number shape.kind shape.level (count - 1) (without_cell shape.width at (cells_in shape.width count bytes.now)) }
{
    let mut buffer = [0; 4080];
    let room = shape.width * count - shape.width;
    build_without(
        body(bytes, shape.width, count),
        shape,
        count,
        at,
        &mut buffer[..room],
    )
}

// Builds a page of the cells with another key at this place.
fn build_with(
    cells: &[u8],
    shape: Shape,
    count: usize,
    at: usize,
    key: &[u8],
    out: &mut [u8],
) -> Page
    requires at { at < count }
    requires key { length key.now ≤ shape.width }
    requires cells { length cells.now ≡ shape.width * count }
    requires out { length out.old ≡ shape.width * count }
    requires fits { 16 + shape.width * count ≤ 4096 }
    requires few { count < 65536 }
    ensures { result ≡ image shape.number shape.kind shape.level count (with_key shape.width at key.now cells.now) }
{
    let from = shape.width * at;
    let none = &cells[..0];
    splice(cells, from, from + key.len(), key, none, out);
    build(shape.number, shape.kind, shape.level, count as u16, out)
}

/// The page with another key at this place.
pub fn rekeyed(bytes: &Page, shape: Shape, count: usize, at: usize, key: &[u8]) -> Page
    requires at { at < count }
    requires key { length key.now ≤ shape.width }
    requires fits { 16 + shape.width * count ≤ 4096 }
    requires some { 1 ≤ shape.width }
    ensures { result ≡ image shape.number shape.kind shape.level count (with_key shape.width at key.now (cells_in shape.width count bytes.now)) }
{
    let mut buffer = [0; 4080];
    let room = shape.width * count;
    build_with(
        body(bytes, shape.width, count),
        shape,
        count,
        at,
        key,
        &mut buffer[..room],
    )
}
