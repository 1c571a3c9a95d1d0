//! The release of words: one place fewer holds each.
ghost use Rattle.std.specs.Prelude.{◌≡◌, ◌⊎◌, ◌<◌, ℕ, List, Some, IfOk, OnOk, OnErr, IsErrOf};
ghost use Rattle.std.specs.BTreeMap.{is_at};
ghost use Rattle.std.specs.Map.{remove_entry};
ghost use Rattle.std.specs.Ordering.{nat_cmp};
ghost use Rattle.page_face.specs.Calls.{FailsReading, Reads, TakesNone};
ghost use Rattle.btree_nodes.specs.Supply.{view};
ghost use Rattle.btree_nodes.specs.Damages.{AreReadable, AskedSince, AsksOnly};
ghost use Rattle.paged_map.specs.Maps.{AreCounted, IsMapDamaged};
ghost use Rattle.store_tables.specs.Entries.{Entries, word_cmp, word_of_number};
ghost use Rattle.store_tables.specs.Broken.{words_disagree};

use crate::Tables;
use crate::reading::CountedRow;
use crate::words::disagreement;
use page_face::{Damage, PageFault, Pages};
use row_codec::Counted;
use term_impacts::Word;

impl Tables {
    ghost use Rattle.store_tables.specs.Holding.{Holds, IsApart, IsChanged, numbers_form, table_uses, word_uses};
    ghost use Rattle.store_tables.specs.Broken.{SparesHead, IsReleaseDamage};
    ghost use Rattle.store_tables.specs.Rows.{IsNumberSpot};
    ghost use Rattle.store_tables.specs.Words.{CanRelease, without_hold};

    // The row of a number whose word can be released. If more than one place holds it, the row's leaf is then the page looked at.
    fn releasable<P: Pages>(&self, pages: &mut P, number: u64) -> Result<CountedRow, PageFault>
        ensures found { (entries : Entries) → Holds (P.pages pages.old) self.now entries
            → IfOk result (λ row. CanRelease number entries × (word_of_number number entries.numbers ≡ Some row.counted)) }
        ensures spot { IfOk result (λ row. 1 < row.counted.places → IsNumberSpot (P.pages pages.new) (P.count pages.new) self.now.numbers (P.looked pages.new) number row.spot) }
        ensures no_false_damage { (entries : Entries) → Holds (P.pages pages.old) self.now entries
            → AreReadable (P.pages pages.old) (P.count pages.old) → AreCounted (table_uses (P.pages pages.old) self.now) (P.count pages.old)
            → (damage : Damage) → IsErrOf result (PageFault.Damaged damage) → (damage ≡ words_disagree) × (¬ CanRelease number entries) }
        ensures damaged { AreReadable (P.pages pages.old) (P.count pages.old)
            → (damage : Damage) → IsErrOf result (PageFault.Damaged damage)
            → IsReleaseDamage (P.pages pages.old) (P.count pages.old) self.now number (P.asked pages.old) (P.asked pages.new) damage }
        ensures own { AreReadable (P.pages pages.old) (P.count pages.old)
            → AsksOnly (word_uses (P.pages pages.old) self.now) (P.asked pages.old) (P.asked pages.new) }
        ensures fails { FailsReading P.Pages pages.old pages.new result }
        ensures frame { Reads P.Pages pages.old pages.new }
    {
        let Some(row) = self.counted_row(pages, number)? else {
            return Err(disagreement());
        };
        if row.counted.places > 1 {
            return Ok(row);
        }
        match self.number_of(pages, &row.counted.word)? {
            Some(found) if found == number => Ok(row),
            _ => Err(disagreement()),
        }
    }

    // Takes a word out of both tables.
    fn remove_word<P: Pages>(
        &mut self,
        pages: &mut P,
        number: u64,
        word: &Word,
    ) -> Result<(), PageFault>
        ensures removed { (entries : Entries) (free : List ℕ) → Holds (P.pages pages.old) self.old entries → IsApart (view (P.pages pages.old) (P.count pages.old) (P.first pages.old) free) self.old
            → OnOk result (IsChanged (view (P.pages pages.old) (P.count pages.old) (P.first pages.old) free) self.old
            (P.pages pages.new) (P.count pages.new) (P.first pages.new) self.new
            (record entries { texts = remove_entry (is_at (word_cmp word.now)) entries.texts; numbers = remove_entry (is_at (nat_cmp number)) entries.numbers })) }
        ensures no_false_damage { (entries : Entries) (free : List ℕ) → Holds (P.pages pages.old) self.old entries → IsApart (view (P.pages pages.old) (P.count pages.old) (P.first pages.old) free) self.old
            → (damage : Damage) → ¬ IsErrOf result (PageFault.Damaged damage) }
        ensures damaged { AreReadable (P.pages pages.old) (P.count pages.old)
            → (damage : Damage) → IsErrOf result (PageFault.Damaged damage)
            → (IsMapDamaged numbers_form (P.pages pages.old) (P.count pages.old) self.old.numbers damage × AskedSince (P.asked pages.old) (P.asked pages.new) damage.page)
            ⊎ ((entries : Entries) (free : List ℕ) → Holds (P.pages pages.old) self.old entries → ¬ IsApart (view (P.pages pages.old) (P.count pages.old) (P.first pages.old) free) self.old) }
        ensures no_head { ((p : P) → AreReadable (P.pages p) (P.count p)) → SparesHead result }
        ensures no_words { ((p : P) → AreReadable (P.pages p) (P.count p)) → ¬ IsErrOf result (PageFault.Damaged words_disagree) }
        ensures own { (entries : Entries) (free : List ℕ) → Holds (P.pages pages.old) self.old entries → IsApart (view (P.pages pages.old) (P.count pages.old) (P.first pages.old) free) self.old
            → AreReadable (P.pages pages.old) (P.count pages.old)
            → AsksOnly (word_uses (P.pages pages.old) self.old) (P.asked pages.old) (P.asked pages.new) }
        ensures others { (self.new.places ≡ self.old.places) × (self.new.next_word ≡ self.old.next_word) }
        ensures kept { OnErr result (self.new ≡ self.old) }
        ensures fails { FailsReading P.Pages pages.old pages.new result }
        ensures frame { TakesNone P.Pages pages.old pages.new }
    {
        let mut next = *self;
        next.remove_number(pages, number)?;
        next.remove_text(pages, word)?;
        *self = next;
        Ok(())
    }

    /// Counts one place fewer that holds the word of a number. With its last place the word goes from both tables, and its number
    /// is never given again.
    ///
    /// Refuses as the pages do, and `Damaged` by a rule that a page of the tables of words breaks, or with `Value` at the leaf whose row is
    /// no word's. Refuses `Damaged` with `Words` at page 0 if the number has no word, or if its word goes and the words by text have
    /// another number of it, or none. That is found before anything is written. After a refusal the tables are as before, and pages may
    /// have changed.
    ///
    /// Looks at one page a level of the words by number. If more places hold the word, writes only the leaf of its row. Otherwise
    /// looks the word up by text, and takes a row out of each of the two tables, with one more way down in each. Takes no page.
    pub fn release<P: Pages>(&mut self, pages: &mut P, number: u64) -> Result<(), PageFault>
        ensures released { (entries : Entries) (free : List ℕ) → Holds (P.pages pages.old) self.old entries → IsApart (view (P.pages pages.old) (P.count pages.old) (P.first pages.old) free) self.old
            → OnOk result (CanRelease number entries
            × IsChanged (view (P.pages pages.old) (P.count pages.old) (P.first pages.old) free) self.old
            (P.pages pages.new) (P.count pages.new) (P.first pages.new) self.new (without_hold number entries)) }
        ensures no_false_damage { (entries : Entries) (free : List ℕ) → Holds (P.pages pages.old) self.old entries → IsApart (view (P.pages pages.old) (P.count pages.old) (P.first pages.old) free) self.old
            → AreReadable (P.pages pages.old) (P.count pages.old)
            → (damage : Damage) → IsErrOf result (PageFault.Damaged damage) → (damage ≡ words_disagree) × (¬ CanRelease number entries) }

        // Damage of a last word's second row comes only of pages that held no entries, or were not apart.
        ensures damaged { AreReadable (P.pages pages.old) (P.count pages.old)
            → (damage : Damage) → IsErrOf result (PageFault.Damaged damage)
            → IsReleaseDamage (P.pages pages.old) (P.count pages.old) self.old number (P.asked pages.old) (P.asked pages.new) damage
            ⊎ ((entries : Entries) (free : List ℕ) → Holds (P.pages pages.old) self.old entries → ¬ IsApart (view (P.pages pages.old) (P.count pages.old) (P.first pages.old) free) self.old) }
        ensures no_head { ((p : P) → AreReadable (P.pages p) (P.count p)) → SparesHead result }

        // The rule Words is found broken before anything is written.
        ensures unwritten { ((p : P) → AreReadable (P.pages p) (P.count p)) → IsErrOf result (PageFault.Damaged words_disagree) → P.pages pages.new ≡ P.pages pages.old }
        ensures own { (entries : Entries) (free : List ℕ) → Holds (P.pages pages.old) self.old entries → IsApart (view (P.pages pages.old) (P.count pages.old) (P.first pages.old) free) self.old
            → AreReadable (P.pages pages.old) (P.count pages.old)
            → AsksOnly (word_uses (P.pages pages.old) self.old) (P.asked pages.old) (P.asked pages.new) }
        ensures others { (self.new.places ≡ self.old.places) × (self.new.next_word ≡ self.old.next_word) }
        ensures kept { OnErr result (self.new ≡ self.old) }
        ensures fails { FailsReading P.Pages pages.old pages.new result }
        ensures frame { TakesNone P.Pages pages.old pages.new }
    {
        let row = self.releasable(pages, number)?;
        let counted = row.counted;
        if counted.places <= 1 {
            return self.remove_word(pages, number, &counted.word);
        }
        let fewer = Counted {
            places: counted.places - 1,
            ..counted
        };
        self.replace_number(pages, number, &row.spot, &fewer)?;
        Ok(())
    }
}
