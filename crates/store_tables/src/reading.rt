//! Look-ups in the tables.
ghost use Rattle.std.specs.Prelude.{◌≡◌, ◌<◌, Option, option_map, Some, IfOk, IfSome, IsErrOf};
ghost use Rattle.std.specs.Option.{option_copied};
ghost use Rattle.page_face.specs.Calls.{FailsReading, Reads};
ghost use Rattle.page_face.specs.Number.{number as number_of_bytes};
ghost use Rattle.btree_nodes.specs.Rows.{lookup, first_from};
ghost use Rattle.btree_nodes.specs.Tree.{IsMap, map_rows, map_uses};
ghost use Rattle.btree_nodes.specs.Damages.{AreReadable, AskedSince, AsksOnly};
ghost use Rattle.paged_map.specs.Lookups.{IsFirstFound, IsLookedUp};
ghost use Rattle.paged_map.specs.Maps.{AreCounted, IsMapDamaged};
ghost use Rattle.row_codec.specs.Counted.{IsCounted, counted_value, number_bytes as bytes_of_number};
ghost use Rattle.row_codec.specs.Stored.{place_value};
ghost use Rattle.store_tables.specs.Entries.{Entries, place_of_key, place_after, number_of_word, word_of_number};
ghost use Rattle.store_tables.specs.Rows.{counted_in, spot_in};

use crate::Tables;
use crate::entry::{entry_of_bytes, first_behind};
use crate::layouts::{Numbers, Places, Texts};
use crate::maps::{find_row, first_row, get_row};
use page_face::{Damage, PageFault, Pages, Rule};
use paged_map::RowSpot;
use row_codec::{Counted, Stored, number_bytes, number_of_bytes};
use spatial_base::Key;
use term_impacts::Word;

/// The fault of a row that isn't of its form, at its leaf.
pub(crate) fn broken(leaf: u32) -> PageFault
    ensures { result ≡ PageFault.Damaged (record { page = leaf; rule = Rule.Value }) }
{
    PageFault::Damaged(Damage {
        page: leaf,
        rule: Rule::Value,
    })
}

/// The row of a number, and its spot.
#[derive(Clone, Copy)]
pub(crate) struct CountedRow {
    /// The word, and how many places hold it.
    pub counted: Counted,
    /// The spot at which the row was found.
    pub spot: RowSpot,
}

impl Tables {
    ghost use Rattle.store_tables.specs.Coded.{IsPlaceEntry, IsPlaceValue, key_code, next_code, place_row, word_code};
    ghost use Rattle.store_tables.specs.Holding.{Holds, table_uses, numbers_form, places_form, texts_form};
    ghost use Rattle.store_tables.specs.Broken.{IsPlaceDamage, IsPlaceRead, IsNumberDamage, IsNextDamage};
    ghost use Rattle.store_tables.specs.Rows.{IsNumberSpot};
    ghost use Rattle.store_tables.specs.Words.{word_in, places_in, places_of_number};

    /// Returns the place at a key, or `None` if there is none.
    ///
    /// Refuses as the pages do. Refuses `Damaged` by a rule that a page of the place table breaks, or with `Value` at the leaf whose row
    /// at the key is no place's.
    pub fn place<P: Pages>(&self, pages: &mut P, key: &Key) -> Result<Option<Stored>, PageFault>
        ensures found { (entries : Entries) → Holds (P.pages pages.old) self.now entries
            → IfOk result (λ found. found ≡ place_of_key key.now entries.places) }
        ensures formed { IsMap places_form (P.pages pages.old) self.now.places
            → IfOk result (λ found. (lookup (key_code key.now) (map_rows places_form (P.pages pages.old) self.now.places) ≡ option_map place_value found)
            × IfSome found IsPlaceValue) }
        ensures of_form { IfOk result (λ found. IfSome found IsPlaceValue) }

        // On any pages whose bytes are readable, the place's row was read at the key.
        ensures read { AreReadable (P.pages pages.old) (P.count pages.old)
            → IfOk result (λ found. IfSome found (IsPlaceRead (P.pages pages.old) key.now (P.asked pages.old) (P.asked pages.new))) }
        // Each page on the way kept the rules in its place. On any pages whose bytes are readable, the result is what the leaf has there.
        ensures kept { AreReadable (P.pages pages.old) (P.count pages.old)
            → IfOk result (λ found. IsLookedUp places_form (P.pages pages.old) (P.count pages.old) self.now.places (key_code key.now) (option_map place_value found)) }
        ensures no_false_damage { (entries : Entries) → Holds (P.pages pages.old) self.now entries
            → AreReadable (P.pages pages.old) (P.count pages.old) → AreCounted (table_uses (P.pages pages.old) self.now) (P.count pages.old)
            → (damage : Damage) → ¬ IsErrOf result (PageFault.Damaged damage) }
        ensures damaged { AreReadable (P.pages pages.old) (P.count pages.old)
            → (damage : Damage) → IsErrOf result (PageFault.Damaged damage)
            → IsPlaceDamage (P.pages pages.old) (P.count pages.old) self.now.places key.now (P.asked pages.old) (P.asked pages.new) damage }
        ensures own { AreReadable (P.pages pages.old) (P.count pages.old)
            → AsksOnly (map_uses places_form (P.pages pages.old) self.now.places) (P.asked pages.old) (P.asked pages.new) }
        ensures fails { FailsReading P.Pages pages.old pages.new result }
        ensures frame { Reads P.Pages pages.old pages.new }
    {
        let mut value = [0; 649];
        let Some(leaf) = get_row::<Places, P>(pages, self.places, &key.bytes(), &mut value)? else {
            return Ok(None);
        };
        match Stored::decode(&value) {
            Some(stored) => Ok(Some(stored)),
            None => Err(broken(leaf)),
        }
    }

    /// Returns the number of a word, or `None` if the word isn't in the tables.
    ///
    /// Refuses as the pages do, and `Damaged` by a rule that a page of the words by text breaks.
    pub fn number_of<P: Pages>(&self, pages: &mut P, word: &Word) -> Result<Option<u64>, PageFault>
        ensures found { (entries : Entries) → Holds (P.pages pages.old) self.now entries
            → IfOk result (λ found. found ≡ number_of_word word.now entries.texts) }
        ensures formed { IsMap texts_form (P.pages pages.old) self.now.texts
            → IfOk result (λ found. lookup (word_code word.now) (map_rows texts_form (P.pages pages.old) self.now.texts) ≡ option_map bytes_of_number found) }
        // Each page on the way kept the rules in its place. On any pages whose bytes are readable, the result is what the leaf has there.
        ensures kept { AreReadable (P.pages pages.old) (P.count pages.old)
            → IfOk result (λ found. IsLookedUp texts_form (P.pages pages.old) (P.count pages.old) self.now.texts (word_code word.now) (option_map bytes_of_number found)) }
        ensures no_false_damage { (entries : Entries) → Holds (P.pages pages.old) self.now entries
            → AreReadable (P.pages pages.old) (P.count pages.old) → AreCounted (table_uses (P.pages pages.old) self.now) (P.count pages.old)
            → (damage : Damage) → ¬ IsErrOf result (PageFault.Damaged damage) }
        ensures damaged { AreReadable (P.pages pages.old) (P.count pages.old)
            → (damage : Damage) → IsErrOf result (PageFault.Damaged damage)
            → IsMapDamaged texts_form (P.pages pages.old) (P.count pages.old) self.now.texts damage }
        ensures named { AreReadable (P.pages pages.old) (P.count pages.old)
            → (damage : Damage) → IsErrOf result (PageFault.Damaged damage) → AskedSince (P.asked pages.old) (P.asked pages.new) damage.page }
        ensures own { AreReadable (P.pages pages.old) (P.count pages.old)
            → AsksOnly (map_uses texts_form (P.pages pages.old) self.now.texts) (P.asked pages.old) (P.asked pages.new) }
        ensures fails { FailsReading P.Pages pages.old pages.new result }
        ensures frame { Reads P.Pages pages.old pages.new }
    {
        let mut value = [0; 8];
        match get_row::<Texts, P>(pages, self.texts, &word.bytes(), &mut value)? {
            Some(_) => Ok(Some(number_of_bytes(&value))),
            None => Ok(None),
        }
    }

    /// Returns the row of a number, and its spot, or `None` if there is no such row. Its leaf is then the page looked at.
    ///
    /// Looks at one page a level of the words by number, and copies only the row's value.
    pub(crate) fn counted_row<P: Pages>(
        &self,
        pages: &mut P,
        number: u64,
    ) -> Result<Option<CountedRow>, PageFault>
        ensures found { (entries : Entries) → Holds (P.pages pages.old) self.now entries
            → IfOk result (λ found. counted_in found ≡ word_of_number number entries.numbers) }
        ensures formed { IsMap numbers_form (P.pages pages.old) self.now.numbers
            → IfOk result (λ found. (lookup number (map_rows numbers_form (P.pages pages.old) self.now.numbers) ≡ option_map counted_value (counted_in found))
            × IfSome (counted_in found) IsCounted) }
        ensures spot { IfOk result (λ found. IfSome (spot_in found) (IsNumberSpot (P.pages pages.new) (P.count pages.new) self.now.numbers (P.looked pages.new) number)) }
        // Each page on the way kept the rules in its place. On any pages whose bytes are readable, the result is what the leaf has there.
        ensures kept { AreReadable (P.pages pages.old) (P.count pages.old)
            → IfOk result (λ found. IsLookedUp numbers_form (P.pages pages.old) (P.count pages.old) self.now.numbers number (option_map counted_value (counted_in found))) }
        ensures no_false_damage { (entries : Entries) → Holds (P.pages pages.old) self.now entries
            → AreReadable (P.pages pages.old) (P.count pages.old) → AreCounted (table_uses (P.pages pages.old) self.now) (P.count pages.old)
            → (damage : Damage) → ¬ IsErrOf result (PageFault.Damaged damage) }
        ensures damaged { AreReadable (P.pages pages.old) (P.count pages.old)
            → (damage : Damage) → IsErrOf result (PageFault.Damaged damage)
            → IsNumberDamage (P.pages pages.old) (P.count pages.old) self.now.numbers number (P.asked pages.old) (P.asked pages.new) damage }
        ensures own { AreReadable (P.pages pages.old) (P.count pages.old)
            → AsksOnly (map_uses numbers_form (P.pages pages.old) self.now.numbers) (P.asked pages.old) (P.asked pages.new) }
        ensures fails { FailsReading P.Pages pages.old pages.new result }
        ensures frame { Reads P.Pages pages.old pages.new }
    {
        let mut value = [0; 37];
        let key = number_bytes(number);
        let Some(spot) = find_row::<Numbers, P>(pages, self.numbers, &key, &mut value)? else {
            return Ok(None);
        };
        match Counted::decode(&value) {
            Some(counted) => Ok(Some(CountedRow { counted, spot })),
            None => Err(broken(spot.page)),
        }
    }

    /// Returns the word of a number, and how many places hold it, or `None` if there is no such word.
    pub(crate) fn counted<P: Pages>(
        &self,
        pages: &mut P,
        number: u64,
    ) -> Result<Option<Counted>, PageFault>
        ensures found { (entries : Entries) → Holds (P.pages pages.old) self.now entries
            → IfOk result (λ found. found ≡ word_of_number number entries.numbers) }
        ensures formed { IsMap numbers_form (P.pages pages.old) self.now.numbers
            → IfOk result (λ found. (lookup number (map_rows numbers_form (P.pages pages.old) self.now.numbers) ≡ option_map counted_value found)
            × IfSome found IsCounted) }
        // Each page on the way kept the rules in its place. On any pages whose bytes are readable, the result is what the leaf has there.
        ensures kept { AreReadable (P.pages pages.old) (P.count pages.old)
            → IfOk result (λ found. IsLookedUp numbers_form (P.pages pages.old) (P.count pages.old) self.now.numbers number (option_map counted_value found)) }
        ensures no_false_damage { (entries : Entries) → Holds (P.pages pages.old) self.now entries
            → AreReadable (P.pages pages.old) (P.count pages.old) → AreCounted (table_uses (P.pages pages.old) self.now) (P.count pages.old)
            → (damage : Damage) → ¬ IsErrOf result (PageFault.Damaged damage) }
        ensures damaged { AreReadable (P.pages pages.old) (P.count pages.old)
            → (damage : Damage) → IsErrOf result (PageFault.Damaged damage)
            → IsNumberDamage (P.pages pages.old) (P.count pages.old) self.now.numbers number (P.asked pages.old) (P.asked pages.new) damage }
        ensures own { AreReadable (P.pages pages.old) (P.count pages.old)
            → AsksOnly (map_uses numbers_form (P.pages pages.old) self.now.numbers) (P.asked pages.old) (P.asked pages.new) }
        ensures fails { FailsReading P.Pages pages.old pages.new result }
        ensures frame { Reads P.Pages pages.old pages.new }
    {
        match self.counted_row(pages, number)? {
            Some(row) => Ok(Some(row.counted)),
            None => Ok(None),
        }
    }

    /// Returns the word of a number, or `None` if there is no such word.
    ///
    /// Refuses as the pages do. Refuses `Damaged` by a rule that a page of the words by number breaks, or with `Value` at the leaf whose
    /// row at the number is no word's.
    pub fn word_of<P: Pages>(&self, pages: &mut P, number: u64) -> Result<Option<Word>, PageFault>
        ensures found { (entries : Entries) → Holds (P.pages pages.old) self.now entries
            → IfOk result (λ found. found ≡ option_map (λ c. c.word) (word_of_number number entries.numbers)) }
        ensures formed { IsMap numbers_form (P.pages pages.old) self.now.numbers
            → IfOk result (λ found. (row : Option Counted) × (lookup number (map_rows numbers_form (P.pages pages.old) self.now.numbers) ≡ option_map counted_value row)
            × IfSome row IsCounted × (found ≡ word_in row)) }
        // Each page on the way kept the rules in its place. On any pages whose bytes are readable, the result is what the leaf has there.
        ensures kept { AreReadable (P.pages pages.old) (P.count pages.old)
            → IfOk result (λ found. (row : Option Counted) × IsLookedUp numbers_form (P.pages pages.old) (P.count pages.old) self.now.numbers number (option_map counted_value row) × (found ≡ word_in row)) }
        ensures no_false_damage { (entries : Entries) → Holds (P.pages pages.old) self.now entries
            → AreReadable (P.pages pages.old) (P.count pages.old) → AreCounted (table_uses (P.pages pages.old) self.now) (P.count pages.old)
            → (damage : Damage) → ¬ IsErrOf result (PageFault.Damaged damage) }
        ensures damaged { AreReadable (P.pages pages.old) (P.count pages.old)
            → (damage : Damage) → IsErrOf result (PageFault.Damaged damage)
            → IsNumberDamage (P.pages pages.old) (P.count pages.old) self.now.numbers number (P.asked pages.old) (P.asked pages.new) damage }
        ensures own { AreReadable (P.pages pages.old) (P.count pages.old)
            → AsksOnly (map_uses numbers_form (P.pages pages.old) self.now.numbers) (P.asked pages.old) (P.asked pages.new) }
        ensures fails { FailsReading P.Pages pages.old pages.new result }
        ensures frame { Reads P.Pages pages.old pages.new }
    {
        match self.counted(pages, number)? {
            Some(counted) => Ok(Some(counted.word)),
            None => Ok(None),
        }
    }

    /// Returns how many places hold the word of a number, 0 if there is no such word.
    ///
    /// Refuses as [`Tables::word_of`] does. Looks at one page a level of the words by number, and at no other page.
    pub fn places_of<P: Pages>(&self, pages: &mut P, number: u64) -> Result<u32, PageFault>
        ensures found { (entries : Entries) → Holds (P.pages pages.old) self.now entries
            → IfOk result (λ places. places ≡ places_of_number number entries.numbers) }
        ensures formed { IsMap numbers_form (P.pages pages.old) self.now.numbers
            → IfOk result (λ places. (row : Option Counted) × (lookup number (map_rows numbers_form (P.pages pages.old) self.now.numbers) ≡ option_map counted_value row)
            × IfSome row IsCounted × (places ≡ places_in row)) }
        // Each page on the way kept the rules in its place. On any pages whose bytes are readable, the result is what the leaf has there.
        ensures kept { AreReadable (P.pages pages.old) (P.count pages.old)
            → IfOk result (λ places. (row : Option Counted) × IsLookedUp numbers_form (P.pages pages.old) (P.count pages.old) self.now.numbers number (option_map counted_value row) × (places ≡ places_in row)) }
        ensures no_false_damage { (entries : Entries) → Holds (P.pages pages.old) self.now entries
            → AreReadable (P.pages pages.old) (P.count pages.old) → AreCounted (table_uses (P.pages pages.old) self.now) (P.count pages.old)
            → (damage : Damage) → ¬ IsErrOf result (PageFault.Damaged damage) }
        ensures damaged { AreReadable (P.pages pages.old) (P.count pages.old)
            → (damage : Damage) → IsErrOf result (PageFault.Damaged damage)
            → IsNumberDamage (P.pages pages.old) (P.count pages.old) self.now.numbers number (P.asked pages.old) (P.asked pages.new) damage }
        ensures own { AreReadable (P.pages pages.old) (P.count pages.old)
            → AsksOnly (map_uses numbers_form (P.pages pages.old) self.now.numbers) (P.asked pages.old) (P.asked pages.new) }
        ensures fails { FailsReading P.Pages pages.old pages.new result }
        ensures frame { Reads P.Pages pages.old pages.new }
    {
        match self.counted(pages, number)? {
            Some(counted) => Ok(counted.places),
            None => Ok(0),
        }
    }

    /// Returns the first place whose key is greater than `after`, or the first of all if that is `None`. Returns `None` if there is none.
    ///
    /// Refuses as the pages do, and `Damaged` by a rule that a page of the place table breaks, or with `Value` at the leaf whose
    /// row is no place's.
    pub fn next_place<P: Pages>(
        &self,
        pages: &mut P,
        after: Option<&Key>,
    ) -> Result<Option<(Key, Stored)>, PageFault>
        ensures found { (entries : Entries) → Holds (P.pages pages.old) self.now entries
            → IfOk result (λ found. found ≡ place_after (option_copied after.entry) entries.places) }
        ensures formed { IsMap places_form (P.pages pages.old) self.now.places
            → IfOk result (λ found. (first_from (next_code (option_copied after.entry)) (map_rows places_form (P.pages pages.old) self.now.places) ≡ option_map place_row found)
            × IfSome found IsPlaceEntry) }
        ensures of_form { IfOk result (λ found. IfSome found IsPlaceEntry) }
        // Each page on the ways kept the rules in its place. On any pages whose bytes are readable, it is the first row past `after`.
        ensures kept { AreReadable (P.pages pages.old) (P.count pages.old)
            → IfOk result (λ found. IsFirstFound places_form (P.pages pages.old) (P.count pages.old) self.now.places (next_code (option_copied after.entry)) (option_map place_row found)) }
        ensures no_false_damage { (entries : Entries) → Holds (P.pages pages.old) self.now entries
            → AreReadable (P.pages pages.old) (P.count pages.old) → AreCounted (table_uses (P.pages pages.old) self.now) (P.count pages.old)
            → (damage : Damage) → ¬ IsErrOf result (PageFault.Damaged damage) }
        ensures damaged { AreReadable (P.pages pages.old) (P.count pages.old)
            → (damage : Damage) → IsErrOf result (PageFault.Damaged damage)
            → IsNextDamage (P.pages pages.old) (P.count pages.old) self.now.places (next_code (option_copied after.entry)) (P.asked pages.old) (P.asked pages.new) damage }
        ensures own { AreReadable (P.pages pages.old) (P.count pages.old)
            → AsksOnly (map_uses places_form (P.pages pages.old) self.now.places) (P.asked pages.old) (P.asked pages.new) }
        ensures fails { FailsReading P.Pages pages.old pages.new result }
        ensures frame { Reads P.Pages pages.old pages.new }
    {
        let mut found = [0; 66];
        let mut value = [0; 649];
        let from = first_behind(after);
        let Some(leaf) = first_row::<Places, P>(pages, self.places, &from, &mut found, &mut value)?
        else {
            return Ok(None);
        };
        match entry_of_bytes(&found, &value) {
            Some(entry) => Ok(Some(entry)),
            None => Err(broken(leaf)),
        }
    }
}
