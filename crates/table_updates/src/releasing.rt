//! The release of the words that a place held before.
ghost use Rattle.std.specs.Prelude.{◌≡◌, ℕ, List, OnOk, IsErrOf};
ghost use Rattle.page_face.specs.Calls.{FailsReading, TakesNone};
ghost use Rattle.btree_nodes.specs.Supply.{view};
ghost use Rattle.btree_nodes.specs.Damages.{AreReadable};
ghost use Rattle.store_tables.specs.Entries.{Entries};
ghost use Rattle.store_tables.specs.Holding.{Holds, IsApart, IsChanged};
ghost use Rattle.store_model.specs.Updates.{CanReleaseAll, released_all};
ghost use Rattle.store_tables.specs.Broken.{SparesHead};

use crate::pairs::has_pair;
use page_face::{Damage, PageFault, Pages};
use store_tables::Tables;

/// Releases the words of the old pairs whose numbers aren't among the new ones, in the order of the old pairs.
///
/// Refuses as [`Tables::release`] does. After a refusal pages and the tables may have changed.
pub(crate) fn release_words<P: Pages>(
    pages: &mut P,
    tables: &mut Tables,
    new: &[(u64, u8)],
    old: &[(u64, u8)],
) -> Result<(), PageFault>
    ensures released { (entries : Entries) (free : List ℕ) → Holds (P.pages pages.old) tables.old entries → IsApart (view (P.pages pages.old) (P.count pages.old) (P.first pages.old) free) tables.old
        → OnOk result (IsChanged (view (P.pages pages.old) (P.count pages.old) (P.first pages.old) free) tables.old
        (P.pages pages.new) (P.count pages.new) (P.first pages.new) tables.new (released_all new.now old.now entries)) }
    ensures no_false_damage { (entries : Entries) (free : List ℕ) → Holds (P.pages pages.old) tables.old entries → IsApart (view (P.pages pages.old) (P.count pages.old) (P.first pages.old) free) tables.old
        → CanReleaseAll new.now old.now entries
        → AreReadable (P.pages pages.old) (P.count pages.old) → (damage : Damage) → ¬ IsErrOf result (PageFault.Damaged damage) }
    ensures no_head { ((p : P) → AreReadable (P.pages p) (P.count p)) → SparesHead result }
    ensures next { OnOk result (tables.new.next_word ≡ tables.old.next_word) }
    ensures fails { FailsReading P.Pages pages.old pages.new result }
    ensures frame { TakesNone P.Pages pages.old pages.new }
{
    let Some(((number, _), rest)) = old.split_first() else {
        return Ok(());
    };
    if has_pair(*number, new) {
        return release_words(pages, tables, new, rest);
    }
    tables.release(pages, *number)?;
    release_words(pages, tables, new, rest)
}
