//! A leaf that is written in its place with a row added, removed or replaced.
ghost use Rattle.std.specs.Prelude.{◌≡◌, ◌≢◌, ◌↔◌, ◌+◌, ◌-◌, ◌*◌, ◌<◌, ◌≤◌, length, replicate, IsTrue, OnOk, OnErr};
ghost use Rattle.page_face.specs.Calls.{Changes, FailsReading};
ghost use Rattle.page_face.specs.Causes.{IsUncounted};
ghost use Rattle.page_face.specs.Cells.{IsPlace, key_at};
ghost use Rattle.page_face.specs.FreeList.{with_page};
ghost use Rattle.page_face.specs.Number.{number};
ghost use Rattle.page_face.specs.Sound.{IsSound};
ghost use Rattle.btree_nodes.specs.Build.{image};
ghost use Rattle.btree_nodes.specs.Damages.{AreReadable};
ghost use Rattle.paged_map.specs.Edits.{edited};

use btree_insert::gone_at;
use btree_nodes::{Form, place, seal_of, splice, write_at};
use page_face::{Damage, Page, PageFault, Pages};

/// The place of a key in a leaf.
#[derive(Clone, Copy, Debug, PartialEq, Eq)]
pub struct Spot {
    /// The place of the first row whose key isn't less.
    pub at: usize,
    /// 1 if that row has the key, and 0 otherwise.
    pub gone: usize,
}

/// The bytes of a leaf's cells, and which of them a row replaces.
#[derive(Clone, Copy, Debug, PartialEq, Eq)]
pub struct Cut {
    /// Bytes of all cells.
    pub size: usize,
    /// The offset at which the row's cell begins.
    pub from: usize,
    /// The offset at which the cells after it begin.
    pub until: usize,
}

/// The place of a key in a leaf of `count` rows.
pub fn spot_of(page: &Page, form: Form, count: usize, key: &[u8]) -> Spot
    requires fits { 16 + (form.key + form.value) * count ≤ 4096 }
    requires key { length key.now ≡ form.key }
    ensures place { IsPlace form.key (form.key + form.value) count page.now (number key.now) result.at }
    ensures some { result.gone ≡ 1 → (result.at < count) × (key_at form.key (form.key + form.value) page.now result.at ≡ number key.now) }
    ensures none { (result.gone ≡ 1 → ⊥) → result.at < count → key_at form.key (form.key + form.value) page.now result.at ≡ number key.now → ⊥ }
    ensures small { result.gone ≤ 1 }
    ensures within { result.at + result.gone ≤ count }
{
    let at = place(page, key, false, form.key + form.value, count);
    let gone = gone_at(page, form, count, at, key);
    Spot { at, gone }
}

/// Returns whether a leaf of `count` rows has room for one more row that replaces `gone` rows.
pub fn has_room(form: Form, count: usize, gone: usize) -> bool
    requires fits { 16 + (form.key + form.value) * count ≤ 4096 }
    requires gone { gone ≤ 1 }
    ensures { IsTrue result ↔ 16 + (form.key + form.value) * (count + 1 - gone) ≤ 4096 }
{
    16 + (form.key + form.value) * (count + 1 - gone) <= 4096
}

/// The bytes of a leaf of `count` rows at a place.
pub fn cut_of(form: Form, count: usize, spot: Spot) -> Cut
    requires fits { 16 + (form.key + form.value) * count ≤ 4096 }
    requires within { spot.at + spot.gone ≤ count }
    ensures is { result ≡ record { size = (form.key + form.value) * count; from = (form.key + form.value) * spot.at; until = (form.key + form.value) * (spot.at + spot.gone) } }
    ensures order { result.from ≤ result.until }
    ensures end { result.until ≤ result.size }
{
    let width = form.key + form.value;
    Cut {
        size: width * count,
        from: width * spot.at,
        until: width * (spot.at + spot.gone),
    }
}

/// Fills a page of zeros with a leaf of `count` rows: the cells of `old`, with two pieces replacing those that are cut.
pub fn fill_leaf(
    out: &mut Page,
    old: &Page,
    form: Form,
    count: u16,
    cut: Cut,
    first: &[u8],
    second: &[u8],
)
    requires zeros { out.old ≡ replicate 4096 0 }
    requires order { cut.from ≤ cut.until }
    requires end { cut.until ≤ cut.size }
    requires size { 16 + cut.size ≤ 4096 }
    requires fits { 16 + cut.size + (length first.now + length second.now) ≤ 4096 + (cut.until - cut.from) }
    ensures { out.new ≡ image form.map 1 0 count (edited cut.size cut.from cut.until first.now second.now old.now) }
{
    let room = cut.size + (first.len() + second.len()) - (cut.until - cut.from);
    let [high, low] = count.to_be_bytes();
    write_at(out, 0, &[1, form.map, high, low, 0]);
    splice(
        &old[16..16 + cut.size],
        cut.from,
        cut.until,
        first,
        second,
        &mut out[16..16 + room],
    );
}

/// Writes a leaf of `count` rows to a counted page: the cells of the page looked at, with two pieces replacing those that
/// are cut.
///
/// The leaf is sound then, and sealed, so that the next look at it doesn't check it. Makes one page, into which each piece is copied
/// once. Returns `Stopped` or `Memory` if it fails.
pub fn write_leaf<P: Pages>(
    pages: &mut P,
    form: Form,
    page: u32,
    count: u16,
    cut: Cut,
    first: &[u8],
    second: &[u8],
) -> Result<(), PageFault>
    requires counted { ¬ IsUncounted (P.count pages.old) page }
    requires order { cut.from ≤ cut.until }
    requires end { cut.until ≤ cut.size }
    requires size { 16 + cut.size ≤ 4096 }
    requires fits { 16 + cut.size + (length first.now + length second.now) ≤ 4096 + (cut.until - cut.from) }
    requires sound { IsSound (record { map = form.map; key = form.key; value = form.value; level = 0 })
        (image form.map 1 0 count (edited cut.size cut.from cut.until first.now second.now (P.looked pages.old))) }
    ensures written { OnOk result (P.pages pages.new
        ≡ with_page page (image form.map 1 0 count (edited cut.size cut.from cut.until first.now second.now (P.looked pages.old))) (P.pages pages.old)) }
    ensures kept { OnErr result (P.pages pages.new ≡ P.pages pages.old) }
    ensures told { AreReadable (P.pages pages.old) (P.count pages.old) → OnOk result (AreReadable (P.pages pages.new) (P.count pages.new)) }

    ensures damaged { (damage : Damage) → result ≢ Err (PageFault.Damaged damage) }
    ensures fails { FailsReading P.Pages pages.old pages.new result }
    ensures asked { P.asked pages.new ≡ P.asked pages.old }
    ensures count { P.count pages.new ≡ P.count pages.old }
    ensures first { P.first pages.new ≡ P.first pages.old }
    ensures refused { P.refused pages.new ≡ P.refused pages.old }
    ensures frame { Changes P.Pages pages.old pages.new }
{
    let mut bytes = [0; 4096];
    fill_leaf(&mut bytes, pages.looked(), form, count, cut, first, second);
    pages.write_sealed(page, &bytes, seal_of(form, 0))
}
