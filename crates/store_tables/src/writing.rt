//! Rows that are put into one of the tables.
ghost use Rattle.std.specs.Prelude.{◌≡◌, ◌⊎◌, ℕ, ◌+◌, List, IfOk, OnOk, OnErr, IsErrOf, is_some};
ghost use Rattle.std.specs.BTreeMap.{insert_entry};
ghost use Rattle.std.specs.Ordering.{nat_cmp};
ghost use Rattle.page_face.specs.Calls.{FailsReading, FailsChanging, TakesNone, Changes, TakesAtMost};
ghost use Rattle.btree_nodes.specs.Supply.{view};
ghost use Rattle.btree_nodes.specs.Tree.{map_uses};
ghost use Rattle.btree_nodes.specs.Damages.{AreReadable, AskedSince, AsksOnly, IsRefusedTake};
ghost use Rattle.paged_map.specs.Heights.{height_of};
ghost use Rattle.paged_map.specs.Maps.{IsMapDamaged};
ghost use Rattle.row_codec.specs.Stored.{IsStored};
ghost use Rattle.store_tables.specs.Entries.{Entries, number_of_word, place_of_key, with_place, word_cmp, word_of_number};

use crate::Tables;
use crate::layouts::{Numbers, Places, Texts};
use crate::maps::{put_row, replace_row};
use page_face::{Damage, PageFault, Pages};
use paged_map::RowSpot;
use row_codec::{Counted, Stored, number_bytes};
use spatial_base::Key;
use term_impacts::Word;

impl Tables {
    ghost use Rattle.store_tables.specs.Holding.{Holds, IsApart, IsChanged, IsSameMap, numbers_form, places_form, texts_form};
    ghost use Rattle.store_tables.specs.Rows.{IsNumberSpot};

    /// Puts a place at its key, and returns whether the key was there.
    ///
    /// Refuses as the pages do, and `Damaged` by a rule that a page of the place table breaks, or as a take of a page refuses.
    /// After a refusal the tables are as before, and pages may have changed.
    pub fn put_place<P: Pages>(
        &mut self,
        pages: &mut P,
        key: &Key,
        stored: &Stored,
    ) -> Result<bool, PageFault>
        requires { IsStored stored.now }
        ensures put { (entries : Entries) (free : List ℕ) → Holds (P.pages pages.old) self.old entries → IsApart (view (P.pages pages.old) (P.count pages.old) (P.first pages.old) free) self.old
            → IfOk result (λ was. (was ≡ is_some (place_of_key key.now entries.places))
            × IsChanged (view (P.pages pages.old) (P.count pages.old) (P.first pages.old) free) self.old
            (P.pages pages.new) (P.count pages.new) (P.first pages.new) self.new (record entries { places = with_place key.now stored.now entries.places })) }
        ensures no_false_damage { (entries : Entries) (free : List ℕ) → Holds (P.pages pages.old) self.old entries → IsApart (view (P.pages pages.old) (P.count pages.old) (P.first pages.old) free) self.old
            → (damage : Damage) → ¬ IsErrOf result (PageFault.Damaged damage) }
        ensures damaged { AreReadable (P.pages pages.old) (P.count pages.old)
            → (damage : Damage) → IsErrOf result (PageFault.Damaged damage)
            → (IsMapDamaged places_form (P.pages pages.old) (P.count pages.old) self.old.places damage × AskedSince (P.asked pages.old) (P.asked pages.new) damage.page)
            ⊎ IsRefusedTake (P.pages pages.new) (P.count pages.new) (P.first pages.new) damage }
        ensures own { AreReadable (P.pages pages.old) (P.count pages.old)
            → AsksOnly (map_uses places_form (P.pages pages.old) self.old.places) (P.asked pages.old) (P.asked pages.new) }
        ensures others { self.new ≡ record self.old { places = self.new.places } }
        ensures kept { OnErr result (self.new ≡ self.old) }
        ensures takes { AreReadable (P.pages pages.old) (P.count pages.old) → TakesAtMost P.Pages (height_of (P.pages pages.old) self.old.places + 1) pages.old pages.new result }
        ensures at_most { TakesAtMost P.Pages 257 pages.old pages.new result }
        ensures fails { FailsChanging P.Pages pages.old pages.new result }
        ensures frame { Changes P.Pages pages.old pages.new }
    {
        let put = put_row::<Places, P>(pages, self.places, &key.bytes(), &stored.encode())?;
        self.places = put.root;
        Ok(put.was)
    }

    /// Puts a word's number at its text, and returns whether the word was there.
    pub(crate) fn put_text<P: Pages>(
        &mut self,
        pages: &mut P,
        word: &Word,
        number: u64,
    ) -> Result<bool, PageFault>
        ensures put { (entries : Entries) (free : List ℕ) → Holds (P.pages pages.old) self.old entries → IsApart (view (P.pages pages.old) (P.count pages.old) (P.first pages.old) free) self.old
            → IfOk result (λ was. (was ≡ is_some (number_of_word word.now entries.texts))
            × IsChanged (view (P.pages pages.old) (P.count pages.old) (P.first pages.old) free) self.old
            (P.pages pages.new) (P.count pages.new) (P.first pages.new) self.new (record entries { texts = insert_entry word_cmp entries.texts word.now number })) }
        ensures no_false_damage { (entries : Entries) (free : List ℕ) → Holds (P.pages pages.old) self.old entries → IsApart (view (P.pages pages.old) (P.count pages.old) (P.first pages.old) free) self.old
            → (damage : Damage) → ¬ IsErrOf result (PageFault.Damaged damage) }
        ensures damaged { AreReadable (P.pages pages.old) (P.count pages.old)
            → (damage : Damage) → IsErrOf result (PageFault.Damaged damage)
            → (IsMapDamaged texts_form (P.pages pages.old) (P.count pages.old) self.old.texts damage × AskedSince (P.asked pages.old) (P.asked pages.new) damage.page)
            ⊎ IsRefusedTake (P.pages pages.new) (P.count pages.new) (P.first pages.new) damage }
        ensures own { AreReadable (P.pages pages.old) (P.count pages.old)
            → AsksOnly (map_uses texts_form (P.pages pages.old) self.old.texts) (P.asked pages.old) (P.asked pages.new) }
        ensures others { self.new ≡ record self.old { texts = self.new.texts } }
        ensures kept { OnErr result (self.new ≡ self.old) }
        ensures takes { AreReadable (P.pages pages.old) (P.count pages.old) → TakesAtMost P.Pages (height_of (P.pages pages.old) self.old.texts + 1) pages.old pages.new result }
        ensures at_most { TakesAtMost P.Pages 257 pages.old pages.new result }
        ensures fails { FailsChanging P.Pages pages.old pages.new result }
        ensures frame { Changes P.Pages pages.old pages.new }
    {
        let put = put_row::<Texts, P>(pages, self.texts, &word.bytes(), &number_bytes(number))?;
        self.texts = put.root;
        Ok(put.was)
    }

    /// Puts a word and its count at the word's number, and returns whether the number was there. The words by text stay.
    pub(crate) fn put_number<P: Pages>(
        &mut self,
        pages: &mut P,
        number: u64,
        counted: &Counted,
    ) -> Result<bool, PageFault>
        ensures put { (entries : Entries) (free : List ℕ) → Holds (P.pages pages.old) self.old entries → IsApart (view (P.pages pages.old) (P.count pages.old) (P.first pages.old) free) self.old
            → IfOk result (λ was. (was ≡ is_some (word_of_number number entries.numbers))
            × IsChanged (view (P.pages pages.old) (P.count pages.old) (P.first pages.old) free) self.old
            (P.pages pages.new) (P.count pages.new) (P.first pages.new) self.new (record entries { numbers = insert_entry nat_cmp entries.numbers number counted.now })) }
        ensures texts { (entries : Entries) (free : List ℕ) → Holds (P.pages pages.old) self.old entries → IsApart (view (P.pages pages.old) (P.count pages.old) (P.first pages.old) free) self.old
            → OnOk result (IsSameMap texts_form (P.pages pages.old) (P.pages pages.new) self.old.texts) }
        ensures no_false_damage { (entries : Entries) (free : List ℕ) → Holds (P.pages pages.old) self.old entries → IsApart (view (P.pages pages.old) (P.count pages.old) (P.first pages.old) free) self.old
            → (damage : Damage) → ¬ IsErrOf result (PageFault.Damaged damage) }
        ensures damaged { AreReadable (P.pages pages.old) (P.count pages.old)
            → (damage : Damage) → IsErrOf result (PageFault.Damaged damage)
            → (IsMapDamaged numbers_form (P.pages pages.old) (P.count pages.old) self.old.numbers damage × AskedSince (P.asked pages.old) (P.asked pages.new) damage.page)
            ⊎ IsRefusedTake (P.pages pages.new) (P.count pages.new) (P.first pages.new) damage }
        ensures own { AreReadable (P.pages pages.old) (P.count pages.old)
            → AsksOnly (map_uses numbers_form (P.pages pages.old) self.old.numbers) (P.asked pages.old) (P.asked pages.new) }
        ensures others { self.new ≡ record self.old { numbers = self.new.numbers } }
        ensures kept { OnErr result (self.new ≡ self.old) }
        ensures takes { AreReadable (P.pages pages.old) (P.count pages.old) → TakesAtMost P.Pages (height_of (P.pages pages.old) self.old.numbers + 1) pages.old pages.new result }
        ensures at_most { TakesAtMost P.Pages 257 pages.old pages.new result }
        ensures fails { FailsChanging P.Pages pages.old pages.new result }
        ensures frame { Changes P.Pages pages.old pages.new }
    {
        let key = number_bytes(number);
        let put = put_row::<Numbers, P>(pages, self.numbers, &key, &counted.encode())?;
        self.numbers = put.root;
        Ok(put.was)
    }

    /// Puts a word and its count at the word's number, whose row was found at a spot. The tables stay.
    ///
    /// Looks at no page except the row's leaf, which is the page looked at. Writes only that page, and copies its bytes once.
    pub(crate) fn replace_number<P: Pages>(
        &self,
        pages: &mut P,
        number: u64,
        spot: &RowSpot,
        counted: &Counted,
    ) -> Result<(), PageFault>
        requires spot { IsNumberSpot (P.pages pages.old) (P.count pages.old) self.now.numbers (P.looked pages.old) number spot.now }
        ensures put { (entries : Entries) (free : List ℕ) → Holds (P.pages pages.old) self.now entries → IsApart (view (P.pages pages.old) (P.count pages.old) (P.first pages.old) free) self.now
            → OnOk result (IsChanged (view (P.pages pages.old) (P.count pages.old) (P.first pages.old) free) self.now
            (P.pages pages.new) (P.count pages.new) (P.first pages.new) self.now (record entries { numbers = insert_entry nat_cmp entries.numbers number counted.now })) }
        ensures no_false_damage { (damage : Damage) → ¬ IsErrOf result (PageFault.Damaged damage) }
        ensures asked { P.asked pages.new ≡ P.asked pages.old }
        ensures fails { FailsReading P.Pages pages.old pages.new result }
        ensures frame { TakesNone P.Pages pages.old pages.new }
    {
        let key = number_bytes(number);
        replace_row::<Numbers, P>(pages, self.numbers, spot, &key, &counted.encode())
    }
}
