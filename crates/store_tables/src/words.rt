//! The hold on words: more places hold each.
ghost use Rattle.std.specs.Prelude.{◌≡◌, ◌⊎◌, ℕ, ◌≤◌, ◌<◌, ◌+◌, ◌^◌, List, None, IfOk, IfSome, IfNone, OnOk, OnErr, IsErrOf, is_some, unwrap_or};
ghost use Rattle.std.specs.BTreeMap.{insert_entry};
ghost use Rattle.std.specs.Ordering.{nat_cmp};
ghost use Rattle.page_face.specs.Calls.{FailsReading, FailsChanging, Reads, Changes, TakesAtMost};
ghost use Rattle.btree_nodes.specs.Supply.{view};
ghost use Rattle.btree_nodes.specs.Damages.{AreReadable, AskedSince, AsksOnly, IsRefusedTake};
ghost use Rattle.paged_map.specs.Heights.{height_of};
ghost use Rattle.paged_map.specs.Maps.{AreCounted, IsMapDamaged};
ghost use Rattle.store_tables.specs.Entries.{Entries, number_of_word, word_cmp};
ghost use Rattle.store_tables.specs.Broken.{words_disagree};
ghost use Rattle.store_tables.specs.Rows.{counted_in, spot_in};
ghost use Rattle.store_tables.specs.Words.{IsHoldableRow, places_in};

use crate::Tables;
use crate::reading::CountedRow;
use page_face::{Damage, PageFault, Pages, Rule};
use paged_map::RowSpot;
use row_codec::Counted;
use term_impacts::Word;

/// Returns the fault of words whose tables disagree: `Damaged` by `Words` at page 0.
pub fn disagreement() -> PageFault
    ensures { result ≡ PageFault.Damaged words_disagree }
{
    PageFault::Damaged(Damage {
        page: 0,
        rule: Rule::Words,
    })
}

/// A word that `places` places hold, and the spot of its row.
#[derive(Clone, Copy)]
struct Hold {
    // How many places hold it, with those that are added.
    places: u32,
    // The spot of its number's row, if it has one.
    spot: Option<RowSpot>,
}

// A word that `places` more places hold, by its number, if it has one, and the row of that number or of the next one.
// `None` exactly if the two disagree or the count would overflow.
fn hold_of(word: &Word, found: Option<u64>, row: Option<CountedRow>, places: u32) -> Option<Hold>
    ensures some { IfSome result (λ hold. IsHoldableRow places word.now found (counted_in row) × (hold.places ≡ places_in (counted_in row) + places)) }
    ensures spot { IfSome result (λ hold. hold.spot ≡ spot_in row) }
    ensures none { IfNone result (¬ IsHoldableRow places word.now found (counted_in row)) }
{
    match (found, row) {
        (None, None) => Some(Hold { places, spot: None }),
        (Some(_), Some(row)) if row.counted.word == *word => {
            let places = row.counted.places.checked_add(places)?;
            Some(Hold {
                places,
                spot: Some(row.spot),
            })
        }
        _ => None,
    }
}

impl Tables {
    ghost use Rattle.store_tables.specs.Holding.{Holds, IsApart, IsChanged, numbers_form, table_uses, word_uses};
    ghost use Rattle.store_tables.specs.Broken.{SparesHead, IsCountDamage, IsTextSought};
    ghost use Rattle.store_tables.specs.Rows.{IsNumberSpot};
    ghost use Rattle.store_tables.specs.Words.{CanHoldBy, next_after, number_for, places_of_number, with_holds};

    // The word's count with `places` more places, by the number that the words by text have of it, if any. If it has one, the leaf of
    // that number's row is then the page looked at.
    fn count_with<P: Pages>(
        &self,
        pages: &mut P,
        word: &Word,
        found: Option<u64>,
        places: u32,
    ) -> Result<Hold, PageFault>
        ensures held { (entries : Entries) → Holds (P.pages pages.old) self.now entries → found ≡ number_of_word word.now entries.texts
            → IfOk result (λ hold. CanHoldBy places word.now self.now.next_word entries
            × (hold.places ≡ places_of_number (number_for word.now self.now.next_word entries.texts) entries.numbers + places)) }
        ensures known { IfOk result (λ hold. is_some hold.spot ≡ is_some found) }
        ensures spot { IfOk result (λ hold. IfSome hold.spot (IsNumberSpot (P.pages pages.new) (P.count pages.new) self.now.numbers (P.looked pages.new) (unwrap_or found self.now.next_word))) }
        ensures no_false_damage { (entries : Entries) → Holds (P.pages pages.old) self.now entries → found ≡ number_of_word word.now entries.texts
            → AreReadable (P.pages pages.old) (P.count pages.old) → AreCounted (table_uses (P.pages pages.old) self.now) (P.count pages.old)
            → (damage : Damage) → IsErrOf result (PageFault.Damaged damage) → (damage ≡ words_disagree) × (¬ CanHoldBy places word.now self.now.next_word entries) }
        ensures damaged { AreReadable (P.pages pages.old) (P.count pages.old) → IsTextSought (P.pages pages.old) self.now word.now found
            → (damage : Damage) → IsErrOf result (PageFault.Damaged damage)
            → IsCountDamage places (P.pages pages.old) (P.count pages.old) self.now word.now (P.asked pages.old) (P.asked pages.new) damage }
        ensures no_head { AreReadable (P.pages pages.old) (P.count pages.old) → SparesHead result }
        ensures own { AreReadable (P.pages pages.old) (P.count pages.old)
            → AsksOnly (word_uses (P.pages pages.old) self.now) (P.asked pages.old) (P.asked pages.new) }
        ensures fails { FailsReading P.Pages pages.old pages.new result }
        ensures frame { Reads P.Pages pages.old pages.new }
    {
        let row = self.counted_row(pages, found.unwrap_or(self.next_word))?;
        match hold_of(word, found, row, places) {
            Some(hold) => Ok(hold),
            None => Err(disagreement()),
        }
    }

    // Puts a word that is new into both tables, at the next number. Takes at most one page a level of the two, and two for new roots.
    fn put_new<P: Pages>(&mut self, pages: &mut P, counted: &Counted) -> Result<u64, PageFault>
        requires next { self.old.next_word < 2 ^ 63 }
        ensures put { (entries : Entries) (free : List ℕ) → Holds (P.pages pages.old) self.old entries → IsApart (view (P.pages pages.old) (P.count pages.old) (P.first pages.old) free) self.old
            → IfOk result (λ number. IsChanged (view (P.pages pages.old) (P.count pages.old) (P.first pages.old) free) self.old
            (P.pages pages.new) (P.count pages.new) (P.first pages.new) self.new
            (record entries { texts = insert_entry word_cmp entries.texts counted.now.word self.old.next_word; numbers = insert_entry nat_cmp entries.numbers self.old.next_word counted.now })) }
        ensures number { IfOk result (λ number. number ≡ self.old.next_word) }
        ensures next { OnOk result (self.new.next_word ≡ self.old.next_word + 1) }
        ensures no_false_damage { (entries : Entries) (free : List ℕ) → Holds (P.pages pages.old) self.old entries → IsApart (view (P.pages pages.old) (P.count pages.old) (P.first pages.old) free) self.old
            → (damage : Damage) → ¬ IsErrOf result (PageFault.Damaged damage) }
        ensures damaged { AreReadable (P.pages pages.old) (P.count pages.old)
            → (damage : Damage) → IsErrOf result (PageFault.Damaged damage)
            → (IsMapDamaged numbers_form (P.pages pages.old) (P.count pages.old) self.old.numbers damage × AskedSince (P.asked pages.old) (P.asked pages.new) damage.page)
            ⊎ IsRefusedTake (P.pages pages.new) (P.count pages.new) (P.first pages.new) damage
            ⊎ ((entries : Entries) (free : List ℕ) → Holds (P.pages pages.old) self.old entries → ¬ IsApart (view (P.pages pages.old) (P.count pages.old) (P.first pages.old) free) self.old) }
        ensures no_head { ((p : P) → AreReadable (P.pages p) (P.count p)) → SparesHead result }
        ensures no_words { ((p : P) → AreReadable (P.pages p) (P.count p)) → ¬ IsErrOf result (PageFault.Damaged words_disagree) }
        ensures own { (entries : Entries) (free : List ℕ) → Holds (P.pages pages.old) self.old entries → IsApart (view (P.pages pages.old) (P.count pages.old) (P.first pages.old) free) self.old
            → AreReadable (P.pages pages.old) (P.count pages.old)
            → AsksOnly (word_uses (P.pages pages.old) self.old) (P.asked pages.old) (P.asked pages.new) }
        ensures others { self.new.places ≡ self.old.places }
        ensures kept { OnErr result (self.new ≡ self.old) }
        ensures takes { (entries : Entries) (free : List ℕ) → Holds (P.pages pages.old) self.old entries → IsApart (view (P.pages pages.old) (P.count pages.old) (P.first pages.old) free) self.old
            → AreReadable (P.pages pages.old) (P.count pages.old)
            → TakesAtMost P.Pages (height_of (P.pages pages.old) self.old.numbers + 1 + height_of (P.pages pages.old) self.old.texts + 1) pages.old pages.new result }
        ensures at_most { TakesAtMost P.Pages 514 pages.old pages.new result }
        ensures fails { FailsChanging P.Pages pages.old pages.new result }
        ensures frame { Changes P.Pages pages.old pages.new }
    {
        let number = self.next_word;
        let mut next = *self;
        next.put_number(pages, number, counted)?;
        next.put_text(pages, &counted.word, number)?;
        next.next_word = number + 1;
        *self = next;
        Ok(number)
    }

    /// Counts `places` more places that hold a word, whose number in the words by text, if any, [`Tables::number_of`] found.
    /// Returns the word's number: the next one if it had none.
    ///
    /// Refuses as [`Tables::hold`]. After a refusal the tables are as before, and pages may have changed.
    ///
    /// However many places there are, looks at one page a level of the words by number. If the word has a number, writes only the leaf of
    /// its row. Otherwise puts a row into each of the two tables, with one more way down in each. It then takes at most one page a level
    /// of the two, and two for new roots.
    pub fn hold_numbered<P: Pages>(
        &mut self,
        pages: &mut P,
        word: &Word,
        found: Option<u64>,
        places: u32,
    ) -> Result<u64, PageFault>
        requires next { self.old.next_word < 2 ^ 63 }
        ensures held { (entries : Entries) (free : List ℕ) → Holds (P.pages pages.old) self.old entries → IsApart (view (P.pages pages.old) (P.count pages.old) (P.first pages.old) free) self.old
            → found ≡ number_of_word word.now entries.texts
            → IfOk result (λ number. CanHoldBy places word.now self.old.next_word entries
            × (number ≡ number_for word.now self.old.next_word entries.texts)
            × (self.new.next_word ≡ next_after (number_of_word word.now entries.texts) self.old.next_word)
            × IsChanged (view (P.pages pages.old) (P.count pages.old) (P.first pages.old) free) self.old
            (P.pages pages.new) (P.count pages.new) (P.first pages.new) self.new (with_holds places word.now self.old.next_word entries)) }
        ensures no_false_damage { (entries : Entries) (free : List ℕ) → Holds (P.pages pages.old) self.old entries → IsApart (view (P.pages pages.old) (P.count pages.old) (P.first pages.old) free) self.old
            → found ≡ number_of_word word.now entries.texts → AreReadable (P.pages pages.old) (P.count pages.old)
            → (damage : Damage) → IsErrOf result (PageFault.Damaged damage) → (damage ≡ words_disagree) × (¬ CanHoldBy places word.now self.old.next_word entries) }

        // Damage of a new word's second row comes only of pages that held no entries, or were not apart.
        ensures damaged { AreReadable (P.pages pages.old) (P.count pages.old) → IsTextSought (P.pages pages.old) self.old word.now found
            → (damage : Damage) → IsErrOf result (PageFault.Damaged damage)
            → IsCountDamage places (P.pages pages.old) (P.count pages.old) self.old word.now (P.asked pages.old) (P.asked pages.new) damage
            ⊎ IsRefusedTake (P.pages pages.new) (P.count pages.new) (P.first pages.new) damage
            ⊎ (IsTextSought (P.pages pages.old) self.old word.now None
            × ((entries : Entries) (free : List ℕ) → Holds (P.pages pages.old) self.old entries → ¬ IsApart (view (P.pages pages.old) (P.count pages.old) (P.first pages.old) free) self.old)) }
        ensures no_head { ((p : P) → AreReadable (P.pages p) (P.count p)) → SparesHead result }

        // The rule Words is found broken before anything is written.
        ensures unwritten { ((p : P) → AreReadable (P.pages p) (P.count p)) → IsErrOf result (PageFault.Damaged words_disagree) → P.pages pages.new ≡ P.pages pages.old }
        ensures own { (entries : Entries) (free : List ℕ) → Holds (P.pages pages.old) self.old entries → IsApart (view (P.pages pages.old) (P.count pages.old) (P.first pages.old) free) self.old
            → AreReadable (P.pages pages.old) (P.count pages.old)
            → AsksOnly (word_uses (P.pages pages.old) self.old) (P.asked pages.old) (P.asked pages.new) }
        ensures rises { OnOk result (self.new.next_word ≤ self.old.next_word + 1) }
        ensures others { self.new.places ≡ self.old.places }
        ensures kept { OnErr result (self.new ≡ self.old) }
        ensures takes { (entries : Entries) (free : List ℕ) → Holds (P.pages pages.old) self.old entries → IsApart (view (P.pages pages.old) (P.count pages.old) (P.first pages.old) free) self.old
            → AreReadable (P.pages pages.old) (P.count pages.old)
            → TakesAtMost P.Pages (height_of (P.pages pages.old) self.old.numbers + 1 + height_of (P.pages pages.old) self.old.texts + 1) pages.old pages.new result }
        ensures at_most { TakesAtMost P.Pages 514 pages.old pages.new result }
        ensures fails { FailsChanging P.Pages pages.old pages.new result }
        ensures frame { Changes P.Pages pages.old pages.new }
    {
        let hold = self.count_with(pages, word, found, places)?;
        let counted = Counted {
            word: *word,
            places: hold.places,
        };
        match hold.spot {
            Some(spot) => {
                let number = found.unwrap_or(self.next_word);
                self.replace_number(pages, number, &spot, &counted)?;
                Ok(number)
            }
            None => self.put_new(pages, &counted),
        }
    }

    /// Counts `places` more places that hold the word, and returns the word's number: the next one if it had none.
    ///
    /// Refuses as the pages do. Refuses `Damaged` as a take of a page does, by a rule that a word table's page breaks, or with `Value` at
    /// the leaf whose row is no word's. Refuses `Damaged` with `Words` at page 0 if the two tables disagree on the word, or on the next
    /// number, or more places would hold it than can be counted. That is found before anything is written. After a refusal the tables are
    /// as before, and pages may have changed.
    ///
    /// Looks at one page a level of the words by text, and then goes on as [`Tables::hold_numbered`].
    pub fn hold<P: Pages>(
        &mut self,
        pages: &mut P,
        word: &Word,
        places: u32,
    ) -> Result<u64, PageFault>
        requires next { self.old.next_word < 2 ^ 63 }
        ensures held { (entries : Entries) (free : List ℕ) → Holds (P.pages pages.old) self.old entries → IsApart (view (P.pages pages.old) (P.count pages.old) (P.first pages.old) free) self.old
            → IfOk result (λ number. CanHoldBy places word.now self.old.next_word entries
            × (number ≡ number_for word.now self.old.next_word entries.texts)
            × (self.new.next_word ≡ next_after (number_of_word word.now entries.texts) self.old.next_word)
            × IsChanged (view (P.pages pages.old) (P.count pages.old) (P.first pages.old) free) self.old
            (P.pages pages.new) (P.count pages.new) (P.first pages.new) self.new (with_holds places word.now self.old.next_word entries)) }
        ensures no_false_damage { (entries : Entries) (free : List ℕ) → Holds (P.pages pages.old) self.old entries → IsApart (view (P.pages pages.old) (P.count pages.old) (P.first pages.old) free) self.old
            → AreReadable (P.pages pages.old) (P.count pages.old)
            → (damage : Damage) → IsErrOf result (PageFault.Damaged damage) → (damage ≡ words_disagree) × (¬ CanHoldBy places word.now self.old.next_word entries) }

        // Damage of a new word's second row comes only of pages that held no entries, or were not apart.
        ensures damaged { AreReadable (P.pages pages.old) (P.count pages.old)
            → (damage : Damage) → IsErrOf result (PageFault.Damaged damage)
            → IsCountDamage places (P.pages pages.old) (P.count pages.old) self.old word.now (P.asked pages.old) (P.asked pages.new) damage
            ⊎ IsRefusedTake (P.pages pages.new) (P.count pages.new) (P.first pages.new) damage
            ⊎ (IsTextSought (P.pages pages.old) self.old word.now None
            × ((entries : Entries) (free : List ℕ) → Holds (P.pages pages.old) self.old entries → ¬ IsApart (view (P.pages pages.old) (P.count pages.old) (P.first pages.old) free) self.old)) }
        ensures no_head { ((p : P) → AreReadable (P.pages p) (P.count p)) → SparesHead result }

        // The rule Words is found broken before anything is written.
        ensures unwritten { ((p : P) → AreReadable (P.pages p) (P.count p)) → IsErrOf result (PageFault.Damaged words_disagree) → P.pages pages.new ≡ P.pages pages.old }
        ensures own { (entries : Entries) (free : List ℕ) → Holds (P.pages pages.old) self.old entries → IsApart (view (P.pages pages.old) (P.count pages.old) (P.first pages.old) free) self.old
            → AreReadable (P.pages pages.old) (P.count pages.old)
            → AsksOnly (word_uses (P.pages pages.old) self.old) (P.asked pages.old) (P.asked pages.new) }
        ensures rises { OnOk result (self.new.next_word ≤ self.old.next_word + 1) }
        ensures others { self.new.places ≡ self.old.places }
        ensures kept { OnErr result (self.new ≡ self.old) }
        ensures takes { (entries : Entries) (free : List ℕ) → Holds (P.pages pages.old) self.old entries → IsApart (view (P.pages pages.old) (P.count pages.old) (P.first pages.old) free) self.old
            → AreReadable (P.pages pages.old) (P.count pages.old)
            → TakesAtMost P.Pages (height_of (P.pages pages.old) self.old.numbers + 1 + height_of (P.pages pages.old) self.old.texts + 1) pages.old pages.new result }
        ensures at_most { TakesAtMost P.Pages 514 pages.old pages.new result }
        ensures fails { FailsChanging P.Pages pages.old pages.new result }
        ensures frame { Changes P.Pages pages.old pages.new }
    {
        let found = self.number_of(pages, word)?;
        self.hold_numbered(pages, word, found, places)
    }
}
