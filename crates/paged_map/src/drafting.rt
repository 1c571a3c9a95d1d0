//! A leaf whose rows are changed in memory, and which is then written once.
ghost use Rattle.std.specs.Prelude.{◌≡◌, ◌≢◌, ◌↔◌, ℕ, ◌+◌, ◌-◌, ◌*◌, ◌<◌, ◌≤◌, List, length, IsTrue, IsErrOf, OnOk, OnErr, Some, None, false, if◌then◌else◌};
ghost use Rattle.page_face.specs.Calls.{Changes, Reads, FailsReading};
ghost use Rattle.page_face.specs.FreeList.{PageMap};
ghost use Rattle.page_face.specs.Nodes.{count_of};
ghost use Rattle.page_face.specs.Number.{number};
ghost use Rattle.btree_nodes.specs.Bounds.{upper_of};
ghost use Rattle.btree_nodes.specs.Build.{image};
ghost use Rattle.btree_nodes.specs.Damages.{AreReadable, AskedSince, AsksOnly};
ghost use Rattle.btree_nodes.specs.Nodes.{IsLeaf};
ghost use Rattle.btree_nodes.specs.Rows.{Row, lookup, put, without};
ghost use Rattle.btree_nodes.specs.Supply.{view};
ghost use Rattle.btree_nodes.specs.Tree.{IsMap, map_rows, map_uses};
ghost use Rattle.paged_map.specs.Drafts.{Drafts, IsDraftedAt, IsKeyOf, IsLeafDraft};
ghost use Rattle.paged_map.specs.Edits.{edited};
ghost use Rattle.paged_map.specs.Maps.{HasBecome, IsKept, IsMapDamaged};

use crate::draft::LeafDraft;
use crate::editing::{Cut, cut_of, has_room, spot_of};
use btree_nodes::{Bounds, compare, copy_value, edit_cells, locate, seal_of};
use page_face::{Damage, PageFault, Pages};
use std::cmp::Ordering;

// Whether a key isn't below a lower bound.
fn is_from(low: &[u8], key: &[u8]) -> bool
    requires { length low.now ≡ length key.now }
    ensures { IsTrue result ↔ (number low.now ≤ number key.now) }
{
    match compare(low, key) {
        Ordering::Less | Ordering::Equal => true,
        Ordering::Greater => false,
    }
}

// Whether a key is below an upper bound. Each key is below an empty one.
fn is_below(key: &[u8], high: &[u8]) -> bool
    requires { 0 < length high.now → length high.now ≡ length key.now }
    ensures { IsTrue result ↔ (number key.now < upper_of (length key.now) high.now) }
{
    if high.is_empty() {
        return true;
    }
    match compare(key, high) {
        Ordering::Less => true,
        Ordering::Equal | Ordering::Greater => false,
    }
}

impl LeafDraft {
    /// Copies the leaf that a key belongs to in a map that has a root.
    ///
    /// Looks at a page a level, and copies the leaf. Returns `Damaged` with a rule that a page breaks in its place, `Disk`, `Stopped`
    /// or `Memory`.
    pub(crate) fn open<P: Pages>(
        &mut self,
        pages: &mut P,
        root: u32,
        key: &[u8],
    ) -> Result<(), PageFault>
        requires root { 0 < root }
        requires key { length key.now ≡ self.old.form.key }
        ensures form { self.new.form ≡ self.old.form }
        ensures sound { OnOk result (IsLeafDraft (P.count pages.new) self.new) }
        ensures holds { OnOk result (IsKeyOf self.new (number key.now)) }
        ensures drafts { IsMap self.old.form (P.pages pages.old) root
            → OnOk result (Drafts (P.pages pages.old) root (map_rows self.old.form (P.pages pages.old) root) self.new) }
        ensures kept { AreReadable (P.pages pages.old) (P.count pages.old)
            → OnOk result (IsDraftedAt (P.pages pages.old) (P.count pages.old) root (number key.now) self.new) }
        ensures damaged { AreReadable (P.pages pages.old) (P.count pages.old)
            → (damage : Damage) → IsErrOf result (PageFault.Damaged damage) → IsMapDamaged self.old.form (P.pages pages.old) (P.count pages.old) root damage }
        ensures named { AreReadable (P.pages pages.old) (P.count pages.old)
            → (damage : Damage) → IsErrOf result (PageFault.Damaged damage) → AskedSince (P.asked pages.old) (P.asked pages.new) damage.page }
        ensures own { AreReadable (P.pages pages.old) (P.count pages.old)
            → AsksOnly (map_uses self.old.form (P.pages pages.old) root) (P.asked pages.old) (P.asked pages.new) }
        ensures fails { FailsReading P.Pages pages.old pages.new result }
        ensures frame { Reads P.Pages pages.old pages.new }
    {
        let mut bounds = Bounds::all();
        match locate(pages, self.form, root, key, &mut bounds) {
            Ok(leaf) => {
                self.page = leaf.page;
                self.count = leaf.count;
                self.least = leaf.least;
                self.bounds = bounds;
                self.bytes = *pages.looked();
                Ok(())
            }
            Err(fault) => Err(fault),
        }
    }

    /// Returns whether a key belongs to the leaf, so that its row, if there is one, is in this leaf and no other.
    pub fn holds(&self, key: &[u8]) -> bool
        requires { length key.now ≡ self.now.form.key }
        ensures { IsTrue result ↔ IsKeyOf self.now (number key.now) }
    {
        is_from(self.bounds.low(self.form), key) && is_below(key, self.bounds.high(self.form))
    }

    /// Returns whether the draft has a row at a key that belongs to the leaf, and leaves the row's value in `value`.
    ///
    /// Searches the rows by halves, and copies only the value.
    pub fn get(&self, key: &[u8], value: &mut [u8]) -> bool
        requires key { length key.now ≡ self.now.form.key }
        requires value { length value.old ≡ self.now.form.value }
        ensures found { (count : ℕ) (pages : PageMap) (root : ℕ) (rows : List Row) → IsLeafDraft count self.now → IsKeyOf self.now (number key.now) → Drafts pages root rows self.now
            → lookup (number key.now) rows ≡ (if result then Some value.new else None) }
    {
        let spot = spot_of(&self.bytes, self.form, self.count, key);
        if spot.gone == 0 {
            return false;
        }
        copy_value(&self.bytes, self.form, spot.at, value);
        true
    }

    // Edits the cells of the leaf in their place: two pieces replace those that are cut. Moves the cells behind them, unless the pieces are
    // as long.
    fn edit(&mut self, count: u16, cut: Cut, first: &[u8], second: &[u8])
        requires order { cut.from ≤ cut.until }
        requires end { cut.until ≤ cut.size }
        requires size { 16 + cut.size ≤ 4096 }
        requires fits { 16 + cut.size + (length first.now + length second.now) ≤ 4096 + (cut.until - cut.from) }
        requires count { 16 + (self.old.form.key + self.old.form.value) * count ≤ 4096 }
        ensures form { self.new.form ≡ self.old.form }
        ensures page { self.new.page ≡ self.old.page }
        ensures least { self.new.least ≡ self.old.least }
        ensures bounds { self.new.bounds ≡ self.old.bounds }
        ensures count { self.new.count ≡ count }
        ensures bytes { IsLeaf self.old.form self.old.least self.old.bytes → cut.size ≡ (self.old.form.key + self.old.form.value) * count_of self.old.bytes
            → self.new.bytes ≡ image self.old.form.map 1 0 count (edited cut.size cut.from cut.until first.now second.now self.old.bytes) }
    {
        edit_cells(
            &mut self.bytes,
            count,
            cut.size,
            cut.from,
            cut.until,
            first,
            second,
        );
        self.count = usize::from(count);
    }

    /// Puts a row whose key belongs to the leaf: the value at the key is this one from now on. Returns `false` if the leaf has no room for
    /// it; then nothing has changed.
    ///
    /// Moves the rows after it, unless it replaces a row.
    pub fn put(&mut self, key: &[u8], value: &[u8]) -> bool
        requires key { length key.now ≡ self.old.form.key }
        requires value { length value.now ≡ self.old.form.value }
        ensures form { self.new.form ≡ self.old.form }
        ensures sound { (count : ℕ) → IsLeafDraft count self.old → IsKeyOf self.old (number key.now) → IsLeafDraft count self.new }
        ensures put { (count : ℕ) (pages : PageMap) (root : ℕ) (rows : List Row) → IsLeafDraft count self.old → IsKeyOf self.old (number key.now) → Drafts pages root rows self.old
            → IsTrue result → Drafts pages root (put (number key.now) value.now rows) self.new }
        ensures refused { result ≡ false → self.new ≡ self.old }

        // It returns false only if the leaf is full and has no row at the key.
        ensures full { result ≡ false → 4096 < 16 + (self.old.form.key + self.old.form.value) * (self.old.count + 1) }
        ensures absent { (count : ℕ) (pages : PageMap) (root : ℕ) (rows : List Row) → IsLeafDraft count self.old → IsKeyOf self.old (number key.now) → Drafts pages root rows self.old
            → result ≡ false → lookup (number key.now) rows ≡ None }
    {
        let spot = spot_of(&self.bytes, self.form, self.count, key);
        if !has_room(self.form, self.count, spot.gone) {
            return false;
        }
        let cut = cut_of(self.form, self.count, spot);
        let count = (self.count + 1 - spot.gone) as u16;
        self.edit(count, cut, key, value);
        true
    }

    /// Takes out the row at a key that belongs to the leaf, if there is one. Returns `false` if the leaf would have fewer rows then than it
    /// must have; then nothing has changed.
    ///
    /// Moves the rows after it.
    pub fn remove(&mut self, key: &[u8]) -> bool
        requires key { length key.now ≡ self.old.form.key }
        ensures form { self.new.form ≡ self.old.form }
        ensures sound { (count : ℕ) → IsLeafDraft count self.old → IsKeyOf self.old (number key.now) → IsLeafDraft count self.new }
        ensures removed { (count : ℕ) (pages : PageMap) (root : ℕ) (rows : List Row) → IsLeafDraft count self.old → IsKeyOf self.old (number key.now) → Drafts pages root rows self.old
            → IsTrue result → Drafts pages root (without (number key.now) rows) self.new }
        ensures refused { result ≡ false → self.new ≡ self.old }

        // It returns false only if the leaf has no more rows than it must have.
        ensures fewest { result ≡ false → self.old.count ≤ self.old.least }
    {
        let spot = spot_of(&self.bytes, self.form, self.count, key);
        if spot.gone == 0 {
            return true;
        }
        if self.count <= self.least {
            return false;
        }
        let cut = cut_of(self.form, self.count, spot);
        let count = (self.count - 1) as u16;
        self.edit(count, cut, &[], &[]);
        true
    }

    /// Writes the draft over its leaf. The map's root stays, and its rows are those that were drafted.
    ///
    /// Returns `Stopped`, or `Memory` if it runs out of memory; then no page has changed. Writes one page, which is sealed: the next look
    /// doesn't check it.
    pub fn write<P: Pages>(&self, pages: &mut P) -> Result<(), PageFault>
        requires { IsLeafDraft (P.count pages.old) self.now }
        ensures becomes { (root : ℕ) (rows : List Row) (free : List ℕ) → IsKept self.now.form (view (P.pages pages.old) (P.count pages.old) (P.first pages.old) free) root
            → Drafts (P.pages pages.old) root rows self.now
            → OnOk result (HasBecome self.now.form (view (P.pages pages.old) (P.count pages.old) (P.first pages.old) free) (P.pages pages.new) (P.count pages.new) (P.first pages.new) root root rows) }
        ensures kept { OnErr result (P.pages pages.new ≡ P.pages pages.old) }
        ensures told { AreReadable (P.pages pages.old) (P.count pages.old) → OnOk result (AreReadable (P.pages pages.new) (P.count pages.new)) }
        ensures damaged { (damage : Damage) → result ≢ Err (PageFault.Damaged damage) }
        ensures asked { P.asked pages.new ≡ P.asked pages.old }
        ensures fails { FailsReading P.Pages pages.old pages.new result }
        ensures count { P.count pages.new ≡ P.count pages.old }
        ensures refused { P.refused pages.new ≡ P.refused pages.old }
        ensures frame { Changes P.Pages pages.old pages.new }
    {
        pages.write_sealed(self.page, &self.bytes, seal_of(self.form, 0))
    }
}
