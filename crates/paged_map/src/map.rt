//! A map by its root.
ghost use Rattle.std.specs.Prelude.{◌≡◌, ◌≢◌, ◌⊎◌, ◌↔◌, ℕ, ◌+◌, ◌<◌, ◌≤◌, List, length, IfOk, IfSome, IsTrue, IsErrOf, OnOk, OnErr, is_some, if◌then◌else◌, Some, None, false};
ghost use Rattle.page_face.specs.Calls.{Reads, Changes, FailsReading, FailsChanging, TakesAtMost};
ghost use Rattle.page_face.specs.Number.{number};
ghost use Rattle.btree_nodes.specs.Supply.{view};
ghost use Rattle.btree_nodes.specs.Rows.{lookup, first_from, put, without};
ghost use Rattle.btree_nodes.specs.Tree.{IsMap, map_rows, map_uses};
ghost use Rattle.btree_nodes.specs.Damages.{AreReadable, AskedSince, AsksOnly, IsRefusedTake};
ghost use Rattle.paged_map.specs.Heights.{height_of};
ghost use Rattle.paged_map.specs.Answers.{HasRead, HoldsRow, Locates};
ghost use Rattle.paged_map.specs.Drafts.{Drafts, IsDraftedAt, IsKeyOf, IsLeafDraft};
ghost use Rattle.paged_map.specs.Lookups.{IsFirstFound, IsLookedUp};
ghost use Rattle.paged_map.specs.Maps.{AreCounted, IsMapDamaged, IsKept, HasBecome};
ghost use Rattle.paged_map.specs.Spots.{IsSpot, leaf_of};

use crate::draft::LeafDraft;
use crate::finding::{find_below, first_below};
use crate::layout::{Layout, form_of};
use crate::putting::put_row;
use crate::removing::remove_row;
use crate::replacing::{RowSpot, replace_at};
use btree_insert::first_leaf;
use page_face::{Damage, PageFault, Pages};
use std::marker::PhantomData;

/// A map of rows of one layout, by its root's page. A root of 0 is the empty map, which has no page.
///
/// Keys and values have the layout's lengths, as a condition of each call. Keys are ordered as their bytes are. What is
/// promised of rows holds for a well-formed map; safety, the end of each call and the causes of its refusals hold for any
/// pages. A call asks only for pages of its own map.
#[derive(Drop)]
pub struct PagedMap<L: Layout> {
    root: u32,
    layout: PhantomData<L>,
}

impl<L: Layout> PagedMap<L> {
    /// The map below a root.
    pub fn at(root: u32) -> PagedMap<L>
        ensures { result.root ≡ root }
    {
        PagedMap {
            root,
            layout: PhantomData,
        }
    }

    /// The root's page, or 0.
    pub fn root(&self) -> u32
        ensures { result ≡ self.now.root }
    {
        self.root
    }

    /// Returns the page of the leaf that holds the row at a key, and leaves the row's value in `value`. Returns `None` exactly
    /// if the key isn't there; `value` may then hold anything.
    ///
    /// Returns `Damaged` with a rule that a page asked for in this call breaks in its place, `Disk`, `Stopped`, or `Memory` if
    /// it runs out of memory.
    ///
    /// Looks at one page a level in place, writes none, and copies only the value.
    pub fn get<P: Pages>(
        &self,
        pages: &mut P,
        key: &[u8],
        value: &mut [u8],
    ) -> Result<Option<u32>, PageFault>
        requires key { length key.now ≡ L.KEY }
        requires value { length value.old ≡ L.VALUE }
        ensures found { IsMap L.form (P.pages pages.old) self.now.root
            → IfOk result (Locates (lookup (number key.now) (map_rows L.form (P.pages pages.old) self.now.root)) value.new
            (HoldsRow L.form (P.pages pages.old) (map_uses L.form (P.pages pages.old) self.now.root) (number key.now, value.new))) }

        // On any pages whose bytes are readable, the leaf was asked for and has the row.
        ensures read { AreReadable (P.pages pages.old) (P.count pages.old)
            → IfOk result (λ leaf. IfSome leaf (HasRead L.form (P.pages pages.old) (P.asked pages.old) (P.asked pages.new) (number key.now, value.new))) }

        // Each page on the way kept the rules in its place, and its leaf has the row or, if none is found, no row at the key.
        ensures kept { AreReadable (P.pages pages.old) (P.count pages.old)
            → IfOk result (λ leaf. IsLookedUp L.form (P.pages pages.old) (P.count pages.old) self.now.root (number key.now) (if is_some leaf then Some value.new else None)) }

        // On a well-formed map whose pages are counted no page is damaged.
        ensures no_false_damage { IsMap L.form (P.pages pages.old) self.now.root → AreCounted (map_uses L.form (P.pages pages.old) self.now.root) (P.count pages.old)
            → AreReadable (P.pages pages.old) (P.count pages.old) → (damage : Damage) → result ≢ Err (PageFault.Damaged damage) }
        ensures damaged { AreReadable (P.pages pages.old) (P.count pages.old)
            → (damage : Damage) → IsErrOf result (PageFault.Damaged damage) → IsMapDamaged L.form (P.pages pages.old) (P.count pages.old) self.now.root damage }
        ensures named { AreReadable (P.pages pages.old) (P.count pages.old)
            → (damage : Damage) → IsErrOf result (PageFault.Damaged damage) → AskedSince (P.asked pages.old) (P.asked pages.new) damage.page }
        ensures own { AreReadable (P.pages pages.old) (P.count pages.old)
            → AsksOnly (map_uses L.form (P.pages pages.old) self.now.root) (P.asked pages.old) (P.asked pages.new) }
        ensures fails { FailsReading P.Pages pages.old pages.new result }
        ensures frame { Reads P.Pages pages.old pages.new }
    {
        match self.find(pages, key, value) {
            Ok(Some(spot)) => Ok(Some(spot.page)),
            Ok(None) => Ok(None),
            Err(fault) => Err(fault),
        }
    }

    /// Returns the spot of the row at a key, and leaves the row's value in `value`. Returns `None` exactly if the key isn't there;
    /// `value` may then hold anything.
    ///
    /// The row's leaf is then the page looked at: as long as it is, and the pages don't change, [`PagedMap::replace`] puts another
    /// value there. Refuses as [`PagedMap::get`], and costs as much.
    pub fn find<P: Pages>(
        &self,
        pages: &mut P,
        key: &[u8],
        value: &mut [u8],
    ) -> Result<Option<RowSpot>, PageFault>
        requires key { length key.now ≡ L.KEY }
        requires value { length value.old ≡ L.VALUE }
        ensures found { IsMap L.form (P.pages pages.old) self.now.root
            → IfOk result (λ found. Locates (lookup (number key.now) (map_rows L.form (P.pages pages.old) self.now.root)) value.new
            (HoldsRow L.form (P.pages pages.old) (map_uses L.form (P.pages pages.old) self.now.root) (number key.now, value.new)) (leaf_of found)) }
        ensures spot { IfOk result (λ found. IfSome found (IsSpot L.form (P.pages pages.new) (P.count pages.new) self.now.root (P.looked pages.new) (number key.now))) }

        // On any pages whose bytes are readable, the leaf was asked for and has the row.
        ensures read { AreReadable (P.pages pages.old) (P.count pages.old)
            → IfOk result (λ found. IfSome (leaf_of found) (HasRead L.form (P.pages pages.old) (P.asked pages.old) (P.asked pages.new) (number key.now, value.new))) }

        // Each page on the way kept the rules in its place, and its leaf has the row or, if none is found, no row at the key.
        ensures kept { AreReadable (P.pages pages.old) (P.count pages.old)
            → IfOk result (λ found. IsLookedUp L.form (P.pages pages.old) (P.count pages.old) self.now.root (number key.now) (if is_some found then Some value.new else None)) }

        // On a well-formed map whose pages are counted no page is damaged.
        ensures no_false_damage { IsMap L.form (P.pages pages.old) self.now.root → AreCounted (map_uses L.form (P.pages pages.old) self.now.root) (P.count pages.old)
            → AreReadable (P.pages pages.old) (P.count pages.old) → (damage : Damage) → result ≢ Err (PageFault.Damaged damage) }
        ensures damaged { AreReadable (P.pages pages.old) (P.count pages.old)
            → (damage : Damage) → IsErrOf result (PageFault.Damaged damage) → IsMapDamaged L.form (P.pages pages.old) (P.count pages.old) self.now.root damage }
        ensures named { AreReadable (P.pages pages.old) (P.count pages.old)
            → (damage : Damage) → IsErrOf result (PageFault.Damaged damage) → AskedSince (P.asked pages.old) (P.asked pages.new) damage.page }
        ensures own { AreReadable (P.pages pages.old) (P.count pages.old)
            → AsksOnly (map_uses L.form (P.pages pages.old) self.now.root) (P.asked pages.old) (P.asked pages.new) }
        ensures fails { FailsReading P.Pages pages.old pages.new result }
        ensures frame { Reads P.Pages pages.old pages.new }
    {
        if self.root == 0 {
            return Ok(None);
        }
        find_below(pages, form_of::<L>(), self.root, key, value)
    }

    /// Returns the page of the leaf that holds the first row whose key isn't less, and leaves the row's key in `found` and its
    /// value in `value`. Returns `None` exactly if there is no such row; both may then hold anything.
    ///
    /// Fails as [`PagedMap::get`] does.
    ///
    /// Looks at one page a level. Looks at one more a level if the key is past the last row of the leaf that it belongs to and another
    /// leaf follows. Writes none, and copies only the row.
    pub fn first_from<P: Pages>(
        &self,
        pages: &mut P,
        key: &[u8],
        found: &mut [u8],
        value: &mut [u8],
    ) -> Result<Option<u32>, PageFault>
        requires key { length key.now ≡ L.KEY }
        requires found { length found.old ≡ L.KEY }
        requires value { length value.old ≡ L.VALUE }
        ensures found { IsMap L.form (P.pages pages.old) self.now.root
            → IfOk result (Locates (first_from (number key.now) (map_rows L.form (P.pages pages.old) self.now.root)) (number found.new, value.new)
            (HoldsRow L.form (P.pages pages.old) (map_uses L.form (P.pages pages.old) self.now.root) (number found.new, value.new))) }

        // On any pages the row's key isn't less. If their bytes are readable, the leaf was asked for and has the row.
        ensures on { IfOk result (λ leaf. IfSome leaf (λ page. number key.now ≤ number found.new)) }
        ensures read { AreReadable (P.pages pages.old) (P.count pages.old)
            → IfOk result (λ leaf. IfSome leaf (HasRead L.form (P.pages pages.old) (P.asked pages.old) (P.asked pages.new) (number found.new, value.new))) }

        // Each page on the ways kept the rules in its place, and the leaves that have no such row follow one another.
        ensures kept { AreReadable (P.pages pages.old) (P.count pages.old)
            → IfOk result (λ leaf. IsFirstFound L.form (P.pages pages.old) (P.count pages.old) self.now.root (number key.now) (if is_some leaf then Some (number found.new, value.new) else None)) }

        // On a well-formed map whose pages are counted no page is damaged.
        ensures no_false_damage { IsMap L.form (P.pages pages.old) self.now.root → AreCounted (map_uses L.form (P.pages pages.old) self.now.root) (P.count pages.old)
            → AreReadable (P.pages pages.old) (P.count pages.old) → (damage : Damage) → result ≢ Err (PageFault.Damaged damage) }
        ensures damaged { AreReadable (P.pages pages.old) (P.count pages.old)
            → (damage : Damage) → IsErrOf result (PageFault.Damaged damage) → IsMapDamaged L.form (P.pages pages.old) (P.count pages.old) self.now.root damage }
        ensures named { AreReadable (P.pages pages.old) (P.count pages.old)
            → (damage : Damage) → IsErrOf result (PageFault.Damaged damage) → AskedSince (P.asked pages.old) (P.asked pages.new) damage.page }
        ensures own { AreReadable (P.pages pages.old) (P.count pages.old)
            → AsksOnly (map_uses L.form (P.pages pages.old) self.now.root) (P.asked pages.old) (P.asked pages.new) }
        ensures fails { FailsReading P.Pages pages.old pages.new result }
        ensures frame { Reads P.Pages pages.old pages.new }
    {
        if self.root == 0 {
            return Ok(None);
        }
        first_below(pages, form_of::<L>(), self.root, key, found, value)
    }

    /// Copies the leaf that a key belongs to into a draft of the map's form, in which rows are then changed in memory.
    ///
    /// Returns whether there is such a leaf: the empty map has none.
    ///
    /// Refuses as [`PagedMap::get`]. Looks at one page a level, writes none, and copies the leaf.
    pub fn draft<P: Pages>(
        &self,
        pages: &mut P,
        key: &[u8],
        draft: &mut LeafDraft,
    ) -> Result<bool, PageFault>
        requires key { length key.now ≡ L.KEY }
        requires form { draft.old.form ≡ L.form }
        ensures form { draft.new.form ≡ L.form }
        ensures empty { IfOk result (λ some. IsTrue some ↔ 0 < self.now.root) }
        ensures sound { IfOk result (λ some. IsTrue some → IsLeafDraft (P.count pages.new) draft.new) }
        ensures holds { IfOk result (λ some. IsTrue some → IsKeyOf draft.new (number key.now)) }
        ensures drafts { IsMap L.form (P.pages pages.old) self.now.root
            → IfOk result (λ some. IsTrue some → Drafts (P.pages pages.old) self.now.root (map_rows L.form (P.pages pages.old) self.now.root) draft.new) }

        // Each page on the way kept the rules in its place.
        ensures kept { AreReadable (P.pages pages.old) (P.count pages.old)
            → IfOk result (λ some. IsTrue some → IsDraftedAt (P.pages pages.old) (P.count pages.old) self.now.root (number key.now) draft.new) }

        // On a well-formed map whose pages are counted no page is damaged.
        ensures no_false_damage { IsMap L.form (P.pages pages.old) self.now.root → AreCounted (map_uses L.form (P.pages pages.old) self.now.root) (P.count pages.old)
            → AreReadable (P.pages pages.old) (P.count pages.old) → (damage : Damage) → result ≢ Err (PageFault.Damaged damage) }
        ensures damaged { AreReadable (P.pages pages.old) (P.count pages.old)
            → (damage : Damage) → IsErrOf result (PageFault.Damaged damage) → IsMapDamaged L.form (P.pages pages.old) (P.count pages.old) self.now.root damage }
        ensures named { AreReadable (P.pages pages.old) (P.count pages.old)
            → (damage : Damage) → IsErrOf result (PageFault.Damaged damage) → AskedSince (P.asked pages.old) (P.asked pages.new) damage.page }
        ensures own { AreReadable (P.pages pages.old) (P.count pages.old)
            → AsksOnly (map_uses L.form (P.pages pages.old) self.now.root) (P.asked pages.old) (P.asked pages.new) }
        ensures fails { FailsReading P.Pages pages.old pages.new result }
        ensures frame { Reads P.Pages pages.old pages.new }
    {
        if self.root == 0 {
            return Ok(false);
        }
        draft.open(pages, self.root, key)?;
        Ok(true)
    }

    /// Puts a row: the value at the key is this one from now on. Returns whether the key was there.
    ///
    /// Returns `Damaged` with a rule that a page asked for in this call breaks in its place, or as a `take` returned it. Returns `Disk`,
    /// `NoRoom`, `Stopped`, or `Memory` if it runs out of memory. After a failure the root is as before. If a page breaks a rule in its
    /// place, no page has changed. After any other failure pages may have changed: the caller must abandon them.
    ///
    /// Looks at one page a level. If the leaf that the key belongs to has the key, or room for one more row, writes only that leaf, and
    /// copies its bytes once, into the new page. Otherwise reads each of these pages by value once more, and writes two pages for each
    /// one that is split and one above them. It takes one page for each split and for a new root.
    pub fn put<P: Pages>(
        &mut self,
        pages: &mut P,
        key: &[u8],
        value: &[u8],
    ) -> Result<bool, PageFault>
        requires key { length key.now ≡ L.KEY }
        requires value { length value.now ≡ L.VALUE }
        ensures becomes { (free : List ℕ) → IsKept L.form (view (P.pages pages.old) (P.count pages.old) (P.first pages.old) free) self.old.root
            → IfOk result (λ had. HasBecome L.form (view (P.pages pages.old) (P.count pages.old) (P.first pages.old) free) (P.pages pages.new) (P.count pages.new) (P.first pages.new) self.old.root self.new.root
            (put (number key.now) value.now (map_rows L.form (P.pages pages.old) self.old.root))) }
        ensures had { IsMap L.form (P.pages pages.old) self.old.root → IfOk result (λ had. had ≡ is_some (lookup (number key.now) (map_rows L.form (P.pages pages.old) self.old.root))) }
        ensures root_stays { OnErr result (self.new.root ≡ self.old.root) }
        ensures told { AreReadable (P.pages pages.old) (P.count pages.old) → OnOk result (AreReadable (P.pages pages.new) (P.count pages.new)) }

        // On a well-formed map and a free list that ends at 0 no page is damaged.
        ensures no_false_damage { (free : List ℕ) → IsKept L.form (view (P.pages pages.old) (P.count pages.old) (P.first pages.old) free) self.old.root
            → (damage : Damage) → result ≢ Err (PageFault.Damaged damage) }
        ensures damaged { AreReadable (P.pages pages.old) (P.count pages.old) → (damage : Damage) → IsErrOf result (PageFault.Damaged damage)
            → (IsMapDamaged L.form (P.pages pages.old) (P.count pages.old) self.old.root damage × AskedSince (P.asked pages.old) (P.asked pages.new) damage.page)
            ⊎ IsRefusedTake (P.pages pages.new) (P.count pages.new) (P.first pages.new) damage }

        // A rule that a page breaks is found before a page is written.
        ensures stays { AreReadable (P.pages pages.old) (P.count pages.old) → (damage : Damage) → IsErrOf result (PageFault.Damaged damage)
            → ((P.pages pages.new ≡ P.pages pages.old) × (P.count pages.new ≡ P.count pages.old))
            ⊎ IsRefusedTake (P.pages pages.new) (P.count pages.new) (P.first pages.new) damage }
        ensures own { AreReadable (P.pages pages.old) (P.count pages.old)
            → AsksOnly (map_uses L.form (P.pages pages.old) self.old.root) (P.asked pages.old) (P.asked pages.new) }

        // It takes one page for each level at most, and one for a new root. A page holds its level in one byte.
        ensures takes { AreReadable (P.pages pages.old) (P.count pages.old) → TakesAtMost P.Pages (height_of (P.pages pages.old) self.old.root + 1) pages.old pages.new result }
        ensures at_most { TakesAtMost P.Pages 257 pages.old pages.new result }
        ensures fails { FailsChanging P.Pages pages.old pages.new result }
        ensures frame { Changes P.Pages pages.old pages.new }
    {
        let form = form_of::<L>();
        let empty = self.root == 0;
        if empty {
            let leaf = first_leaf(pages, form, key, value)?;
            self.root = leaf;
            return Ok(false);
        }
        let mut middle = [0; 255];
        let rooted = put_row(pages, form, self.root, key, value, &mut middle[..form.key])?;
        self.root = rooted.root;
        Ok(rooted.had)
    }

    /// Puts another value at the key of the row that [`PagedMap::find`] found at a spot. The root stays.
    ///
    /// The spot is that of the key, and its leaf is still the page looked at: no call has changed the pages since, or looked at
    /// another one.
    ///
    /// Returns `Stopped`, or `Memory` if it runs out of memory; then no page has changed. Looks at no page except the leaf, with no way
    /// down. Writes only the leaf, and copies its bytes once, into the new page.
    pub fn replace<P: Pages>(
        &self,
        pages: &mut P,
        spot: &RowSpot,
        key: &[u8],
        value: &[u8],
    ) -> Result<(), PageFault>
        requires spot { IsSpot L.form (P.pages pages.old) (P.count pages.old) self.now.root (P.looked pages.old) (number key.now) spot.now }
        requires key { length key.now ≡ L.KEY }
        requires value { length value.now ≡ L.VALUE }
        ensures becomes { (free : List ℕ) → IsKept L.form (view (P.pages pages.old) (P.count pages.old) (P.first pages.old) free) self.now.root
            → OnOk result (HasBecome L.form (view (P.pages pages.old) (P.count pages.old) (P.first pages.old) free) (P.pages pages.new) (P.count pages.new) (P.first pages.new) self.now.root self.now.root
            (put (number key.now) value.now (map_rows L.form (P.pages pages.old) self.now.root))) }
        // Only the leaf's page changes, and none after a refusal.
        ensures alone { (n : ℕ) → n ≢ spot.now.page → P.pages pages.new n ≡ P.pages pages.old n }
        ensures kept { OnErr result (P.pages pages.new ≡ P.pages pages.old) }
        ensures told { AreReadable (P.pages pages.old) (P.count pages.old) → OnOk result (AreReadable (P.pages pages.new) (P.count pages.new)) }

        // No page is damaged: the leaf was found sound.
        ensures no_false_damage { (damage : Damage) → result ≢ Err (PageFault.Damaged damage) }
        ensures asked { P.asked pages.new ≡ P.asked pages.old }
        ensures fails { FailsReading P.Pages pages.old pages.new result }
        ensures count { P.count pages.new ≡ P.count pages.old }
        ensures refused { P.refused pages.new ≡ P.refused pages.old }
        ensures frame { Changes P.Pages pages.old pages.new }
    {
        replace_at(pages, form_of::<L>(), spot, key, value)
    }

    /// Takes the row at a key out. Returns whether the key was there.
    ///
    /// Returns `Damaged` with a rule that a page asked for in this call breaks in its place, `Disk`, `Stopped`, or `Memory` if
    /// it runs out of memory. After a failure the root is as before. After `Damaged` no page has changed. After any other failure
    /// pages may have changed: the caller must abandon them. If the key isn't there, all pages are as before.
    ///
    /// Looks at one page a level. If the key isn't there, writes none. If the leaf that it belongs to has more rows than it
    /// must have, writes only that leaf, and copies its bytes once, into the new page. Otherwise reads at most two pages a level by
    /// value, writes at most three a level, and gives back each page that it empties.
    pub fn remove<P: Pages>(&mut self, pages: &mut P, key: &[u8]) -> Result<bool, PageFault>
        requires key { length key.now ≡ L.KEY }
        ensures removed { (free : List ℕ) → IsKept L.form (view (P.pages pages.old) (P.count pages.old) (P.first pages.old) free) self.old.root
            → IfOk result (λ was. (was ≡ is_some (lookup (number key.now) (map_rows L.form (P.pages pages.old) self.old.root)))
            × HasBecome L.form (view (P.pages pages.old) (P.count pages.old) (P.first pages.old) free) (P.pages pages.new) (P.count pages.new) (P.first pages.new) self.old.root self.new.root
            (without (number key.now) (map_rows L.form (P.pages pages.old) self.old.root))) }
        ensures absent { IfOk result (λ was. was ≡ false → (self.new.root ≡ self.old.root) × (P.pages pages.new ≡ P.pages pages.old) × (P.first pages.new ≡ P.first pages.old)) }
        ensures kept { OnErr result (self.new ≡ self.old) }
        ensures told { AreReadable (P.pages pages.old) (P.count pages.old) → OnOk result (AreReadable (P.pages pages.new) (P.count pages.new)) }

        // On a well-formed map and a free list that ends at 0 no page is damaged.
        ensures no_false_damage { (free : List ℕ) → IsKept L.form (view (P.pages pages.old) (P.count pages.old) (P.first pages.old) free) self.old.root
            → (damage : Damage) → result ≢ Err (PageFault.Damaged damage) }
        ensures damaged { AreReadable (P.pages pages.old) (P.count pages.old) → (damage : Damage) → IsErrOf result (PageFault.Damaged damage)
            → IsMapDamaged L.form (P.pages pages.old) (P.count pages.old) self.old.root damage × AskedSince (P.asked pages.old) (P.asked pages.new) damage.page }

        // All pages are read before one is written.
        ensures stays { (damage : Damage) → IsErrOf result (PageFault.Damaged damage) → P.pages pages.new ≡ P.pages pages.old }
        ensures own { AreReadable (P.pages pages.old) (P.count pages.old)
            → AsksOnly (map_uses L.form (P.pages pages.old) self.old.root) (P.asked pages.old) (P.asked pages.new) }
        ensures fails { FailsReading P.Pages pages.old pages.new result }
        ensures count { P.count pages.new ≡ P.count pages.old }
        ensures refused { P.refused pages.new ≡ P.refused pages.old }
        ensures frame { Changes P.Pages pages.old pages.new }
    {
        if self.root == 0 {
            return Ok(false);
        }
        let after = remove_row(pages, form_of::<L>(), self.root, key)?;
        self.root = after.root;
        Ok(after.had)
    }
}
