//! Rows that are taken out of one of the tables.
ghost use Rattle.std.specs.Prelude.{◌≡◌, ℕ, List, IfOk, OnOk, OnErr, IsErrOf, is_some};
ghost use Rattle.std.specs.BTreeMap.{is_at};
ghost use Rattle.std.specs.Map.{remove_entry};
ghost use Rattle.std.specs.Ordering.{nat_cmp};
ghost use Rattle.page_face.specs.Calls.{FailsReading, TakesNone};
ghost use Rattle.btree_nodes.specs.Supply.{view};
ghost use Rattle.btree_nodes.specs.Tree.{map_uses};
ghost use Rattle.btree_nodes.specs.Damages.{AreReadable, AskedSince, AsksOnly};
ghost use Rattle.paged_map.specs.Maps.{IsMapDamaged};
ghost use Rattle.store_tables.specs.Entries.{Entries, number_of_word, place_of_key, without_place, word_cmp, word_of_number};

use crate::Tables;
use crate::layouts::{Numbers, Places, Texts};
use crate::maps::remove_row;
use page_face::{Damage, PageFault, Pages};
use row_codec::number_bytes;
use spatial_base::Key;
use term_impacts::Word;

impl Tables {
    ghost use Rattle.store_tables.specs.Holding.{Holds, IsApart, IsChanged, IsSameMap, numbers_form, places_form, texts_form};

    /// Takes the place at a key out, and returns whether there was one. The words that it holds are not released.
    ///
    /// Refuses as the pages do, and `Damaged` by a rule that a page of the place table breaks. After a refusal the tables are as
    /// before, and pages may have changed.
    pub fn remove_place<P: Pages>(&mut self, pages: &mut P, key: &Key) -> Result<bool, PageFault>
        ensures removed { (entries : Entries) (free : List ℕ) → Holds (P.pages pages.old) self.old entries → IsApart (view (P.pages pages.old) (P.count pages.old) (P.first pages.old) free) self.old
            → IfOk result (λ was. (was ≡ is_some (place_of_key key.now entries.places))
            × IsChanged (view (P.pages pages.old) (P.count pages.old) (P.first pages.old) free) self.old
            (P.pages pages.new) (P.count pages.new) (P.first pages.new) self.new (record entries { places = without_place key.now entries.places })) }
        ensures no_false_damage { (entries : Entries) (free : List ℕ) → Holds (P.pages pages.old) self.old entries → IsApart (view (P.pages pages.old) (P.count pages.old) (P.first pages.old) free) self.old
            → (damage : Damage) → ¬ IsErrOf result (PageFault.Damaged damage) }
        ensures damaged { AreReadable (P.pages pages.old) (P.count pages.old)
            → (damage : Damage) → IsErrOf result (PageFault.Damaged damage)
            → IsMapDamaged places_form (P.pages pages.old) (P.count pages.old) self.old.places damage × AskedSince (P.asked pages.old) (P.asked pages.new) damage.page }
        ensures own { AreReadable (P.pages pages.old) (P.count pages.old)
            → AsksOnly (map_uses places_form (P.pages pages.old) self.old.places) (P.asked pages.old) (P.asked pages.new) }
        ensures others { self.new ≡ record self.old { places = self.new.places } }
        ensures kept { OnErr result (self.new ≡ self.old) }
        ensures fails { FailsReading P.Pages pages.old pages.new result }
        ensures frame { TakesNone P.Pages pages.old pages.new }
    {
        let removed = remove_row::<Places, P>(pages, self.places, &key.bytes())?;
        self.places = removed.root;
        Ok(removed.was)
    }

    /// Takes a word's number out of the words by text, and returns whether the word was there. The words by number stay.
    pub(crate) fn remove_text<P: Pages>(
        &mut self,
        pages: &mut P,
        word: &Word,
    ) -> Result<bool, PageFault>
        ensures removed { (entries : Entries) (free : List ℕ) → Holds (P.pages pages.old) self.old entries → IsApart (view (P.pages pages.old) (P.count pages.old) (P.first pages.old) free) self.old
            → IfOk result (λ was. (was ≡ is_some (number_of_word word.now entries.texts))
            × IsChanged (view (P.pages pages.old) (P.count pages.old) (P.first pages.old) free) self.old
            (P.pages pages.new) (P.count pages.new) (P.first pages.new) self.new (record entries { texts = remove_entry (is_at (word_cmp word.now)) entries.texts })) }
        ensures no_false_damage { (entries : Entries) (free : List ℕ) → Holds (P.pages pages.old) self.old entries → IsApart (view (P.pages pages.old) (P.count pages.old) (P.first pages.old) free) self.old
            → (damage : Damage) → ¬ IsErrOf result (PageFault.Damaged damage) }
        ensures damaged { AreReadable (P.pages pages.old) (P.count pages.old)
            → (damage : Damage) → IsErrOf result (PageFault.Damaged damage)
            → IsMapDamaged texts_form (P.pages pages.old) (P.count pages.old) self.old.texts damage × AskedSince (P.asked pages.old) (P.asked pages.new) damage.page }
        ensures own { AreReadable (P.pages pages.old) (P.count pages.old)
            → AsksOnly (map_uses texts_form (P.pages pages.old) self.old.texts) (P.asked pages.old) (P.asked pages.new) }
        ensures others { self.new ≡ record self.old { texts = self.new.texts } }
        ensures kept { OnErr result (self.new ≡ self.old) }
        ensures fails { FailsReading P.Pages pages.old pages.new result }
        ensures frame { TakesNone P.Pages pages.old pages.new }
    {
        let removed = remove_row::<Texts, P>(pages, self.texts, &word.bytes())?;
        self.texts = removed.root;
        Ok(removed.was)
    }

    /// Takes a word out of the words by number, and returns whether the number was there. The words by text stay.
    pub(crate) fn remove_number<P: Pages>(
        &mut self,
        pages: &mut P,
        number: u64,
    ) -> Result<bool, PageFault>
        ensures removed { (entries : Entries) (free : List ℕ) → Holds (P.pages pages.old) self.old entries → IsApart (view (P.pages pages.old) (P.count pages.old) (P.first pages.old) free) self.old
            → IfOk result (λ was. (was ≡ is_some (word_of_number number entries.numbers))
            × IsChanged (view (P.pages pages.old) (P.count pages.old) (P.first pages.old) free) self.old
            (P.pages pages.new) (P.count pages.new) (P.first pages.new) self.new (record entries { numbers = remove_entry (is_at (nat_cmp number)) entries.numbers })) }
        ensures texts { (entries : Entries) (free : List ℕ) → Holds (P.pages pages.old) self.old entries → IsApart (view (P.pages pages.old) (P.count pages.old) (P.first pages.old) free) self.old
            → OnOk result (IsSameMap texts_form (P.pages pages.old) (P.pages pages.new) self.old.texts) }
        ensures no_false_damage { (entries : Entries) (free : List ℕ) → Holds (P.pages pages.old) self.old entries → IsApart (view (P.pages pages.old) (P.count pages.old) (P.first pages.old) free) self.old
            → (damage : Damage) → ¬ IsErrOf result (PageFault.Damaged damage) }
        ensures damaged { AreReadable (P.pages pages.old) (P.count pages.old)
            → (damage : Damage) → IsErrOf result (PageFault.Damaged damage)
            → IsMapDamaged numbers_form (P.pages pages.old) (P.count pages.old) self.old.numbers damage × AskedSince (P.asked pages.old) (P.asked pages.new) damage.page }
        ensures own { AreReadable (P.pages pages.old) (P.count pages.old)
            → AsksOnly (map_uses numbers_form (P.pages pages.old) self.old.numbers) (P.asked pages.old) (P.asked pages.new) }
        ensures others { self.new ≡ record self.old { numbers = self.new.numbers } }
        ensures kept { OnErr result (self.new ≡ self.old) }
        ensures fails { FailsReading P.Pages pages.old pages.new result }
        ensures frame { TakesNone P.Pages pages.old pages.new }
    {
        let removed = remove_row::<Numbers, P>(pages, self.numbers, &number_bytes(number))?;
        self.numbers = removed.root;
        Ok(removed.was)
    }
}
