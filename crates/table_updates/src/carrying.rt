//! All places of version 1, carried over.
ghost use Rattle.std.specs.Prelude.{◌≡◌, ℕ, ◌+◌, ◌*◌, List, ◌∷◌, IfOk, OnOk, OnErr, IsErrOf};
ghost use Rattle.page_face.specs.Calls.{Changes, FailsChanging, TakesAtMost};
ghost use Rattle.btree_nodes.specs.Damages.{AreReadable, AsksOnly};
ghost use Rattle.place_values.specs.State.{Contents};
ghost use Rattle.spatial_base.specs.Key.{Name};
ghost use Rattle.row_codec.specs.Stored.{IsStored};
ghost use Rattle.row_codec.specs.declared.stored.Stored.{Stored};
ghost use Rattle.store_tables.specs.Broken.{SparesHead};
ghost use Rattle.store_tables.specs.Entries.{Entries};
ghost use Rattle.store_model.specs.Stands.{PagesStand};
ghost use Rattle.table_updates.specs.Carrying.{IsCarryingDamage, StandBetween, any_page, block_of, counts_disagree};
ghost use Rattle.table_updates.specs.Version1.{PagesStandVersion1};

use crate::reading::first_place;
use crate::rows::remove_row;
use page_face::{Damage, Head, PageFault, Pages, Rule, Version};
use spatial_base::Key;
use store_tables::{Stored, Tables};

/// Carries all places of a store of version 1 over: each row of its place map is moved into a new place map, with the empty label. The
/// head is one of version 2 then, and its other fields stay.
///
/// Refuses as the pages do. Refuses `Damaged` by a rule that a page breaks, with `Value` at the leaf whose row is no place's, or with
/// `Counts` at page 0 if it counts other places than the map has. After a refusal the fields are as before, and pages may have changed.
///
/// Each page that the old map gives back is free for the new one. Costs for each place a look-up in the old map, a put into the new one
/// and a removal from the old one.
pub fn carry_over<P: Pages>(pages: &mut P, head: &mut Head) -> Result<(), PageFault>
    ensures carried { (state : Contents) → PagesStandVersion1 (block_of (P.count pages.old) (P.first pages.old) head.old) (P.pages pages.old) state
        → OnOk result (PagesStand (block_of (P.count pages.new) (P.first pages.new) head.new) (P.pages pages.new) state) }
    ensures no_false_damage { (state : Contents) → PagesStandVersion1 (block_of (P.count pages.old) (P.first pages.old) head.old) (P.pages pages.old) state
        → AreReadable (P.pages pages.old) (P.count pages.old) → (damage : Damage) → ¬ IsErrOf result (PageFault.Damaged damage) }
    ensures damaged { ((p : P) → AreReadable (P.pages p) (P.count p)) → (damage : Damage) → IsErrOf result (PageFault.Damaged damage)
        → IsCarryingDamage (P.pages pages.new) (P.count pages.new) (P.first pages.new) (P.asked pages.old) (P.asked pages.new) damage }
    ensures no_head { ((p : P) → AreReadable (P.pages p) (P.count p)) → SparesHead result }
    ensures head { OnOk result (head.new ≡ record head.old { version = Version.Two; places = head.new.places }) }
    ensures kept { OnErr result (head.new ≡ head.old) }

    // A put takes at most a page for each level, and one for a new root: 257, since a page holds its level in one byte.
    ensures at_most { TakesAtMost P.Pages (257 * head.old.live) pages.old pages.new result }
    ensures fails { FailsChanging P.Pages pages.old pages.new result }
    ensures frame { Changes P.Pages pages.old pages.new }
{
    let mut next = *head;
    next.version = Version::Two;
    next.places = 0;
    let mut root = head.places;
    let mut left = head.live;
    while left > 0 {
        root = carry_first(pages, &mut next, root)?;
        left -= 1;
    }
    if root != 0 {
        return Err(counts_disagree());
    }
    *head = next;
    Ok(())
}

// The fault of page 0 that counts other places than the place map has.
fn counts_disagree() -> PageFault
    ensures { result ≡ PageFault.Damaged counts_disagree }
{
    PageFault::Damaged(Damage {
        page: 0,
        rule: Rule::Counts,
    })
}

// Moves the first place of the map of version 1 at a root into the place map. Returns the root of what is left.
fn carry_first<P: Pages>(pages: &mut P, head: &mut Head, root: u32) -> Result<u32, PageFault>
    ensures carried { (others : ℕ → ℕ) (entries : Entries) (left : ℕ) → StandBetween (block_of (P.count pages.old) (P.first pages.old) head.old) (P.pages pages.old) others entries root (left + 1)
        → IfOk result (λ after. StandBetween (block_of (P.count pages.new) (P.first pages.new) head.new) (P.pages pages.new) others entries after left) }
    ensures told { (others : ℕ → ℕ) (entries : Entries) (left : ℕ) → StandBetween (block_of (P.count pages.old) (P.first pages.old) head.old) (P.pages pages.old) others entries root (left + 1)
        → AreReadable (P.pages pages.old) (P.count pages.old) → OnOk result (AreReadable (P.pages pages.new) (P.count pages.new)) }
    ensures no_false_damage { (others : ℕ → ℕ) (entries : Entries) (left : ℕ) → StandBetween (block_of (P.count pages.old) (P.first pages.old) head.old) (P.pages pages.old) others entries root (left + 1)
        → AreReadable (P.pages pages.old) (P.count pages.old) → (damage : Damage) → ¬ IsErrOf result (PageFault.Damaged damage) }
    ensures damaged { ((p : P) → AreReadable (P.pages p) (P.count p)) → (damage : Damage) → IsErrOf result (PageFault.Damaged damage)
        → IsCarryingDamage (P.pages pages.new) (P.count pages.new) (P.first pages.new) (P.asked pages.old) (P.asked pages.new) damage }
    ensures asks { ((p : P) → AreReadable (P.pages p) (P.count p)) → AsksOnly any_page (P.asked pages.old) (P.asked pages.new) }
    ensures no_head { ((p : P) → AreReadable (P.pages p) (P.count p)) → SparesHead result }
    ensures head { head.new ≡ record head.old { places = head.new.places } }
    ensures at_most { TakesAtMost P.Pages 257 pages.old pages.new result }
    ensures fails { FailsChanging P.Pages pages.old pages.new result }
    ensures frame { Changes P.Pages pages.old pages.new }
{
    match first_place(pages, root)? {
        Some(first) => move_place(pages, head, root, &first),
        None => Err(counts_disagree()),
    }
}

// Puts a place into the place map, and takes it out of the map of version 1 at a root. Returns the root of what is left.
fn move_place<P: Pages>(
    pages: &mut P,
    head: &mut Head,
    root: u32,
    place: &(Key, Stored),
) -> Result<u32, PageFault>
    requires form { IsStored place.now.1 }
    ensures moved { (others : ℕ → ℕ) (entries : Entries) (left : ℕ) (between : StandBetween (block_of (P.count pages.old) (P.first pages.old) head.old) (P.pages pages.old) others entries root (left + 1))
        → (behind : List (Name × Stored)) → between.rest ≡ place.now ∷ behind
        → IfOk result (λ after. StandBetween (block_of (P.count pages.new) (P.first pages.new) head.new) (P.pages pages.new) others entries after left) }
    ensures told { (others : ℕ → ℕ) (entries : Entries) (left : ℕ) (between : StandBetween (block_of (P.count pages.old) (P.first pages.old) head.old) (P.pages pages.old) others entries root (left + 1))
        → (behind : List (Name × Stored)) → between.rest ≡ place.now ∷ behind
        → AreReadable (P.pages pages.old) (P.count pages.old) → OnOk result (AreReadable (P.pages pages.new) (P.count pages.new)) }
    ensures no_false_damage { (others : ℕ → ℕ) (entries : Entries) (left : ℕ) (between : StandBetween (block_of (P.count pages.old) (P.first pages.old) head.old) (P.pages pages.old) others entries root (left + 1))
        → (behind : List (Name × Stored)) → between.rest ≡ place.now ∷ behind
        → (damage : Damage) → ¬ IsErrOf result (PageFault.Damaged damage) }
    ensures damaged { ((p : P) → AreReadable (P.pages p) (P.count p)) → (damage : Damage) → IsErrOf result (PageFault.Damaged damage)
        → IsCarryingDamage (P.pages pages.new) (P.count pages.new) (P.first pages.new) (P.asked pages.old) (P.asked pages.new) damage }
    ensures asks { ((p : P) → AreReadable (P.pages p) (P.count p)) → AsksOnly any_page (P.asked pages.old) (P.asked pages.new) }
    ensures no_head { ((p : P) → AreReadable (P.pages p) (P.count p)) → SparesHead result }
    ensures head { head.new ≡ record head.old { places = head.new.places } }
    ensures at_most { TakesAtMost P.Pages 257 pages.old pages.new result }
    ensures fails { FailsChanging P.Pages pages.old pages.new result }
    ensures frame { Changes P.Pages pages.old pages.new }
{
    let mut tables = Tables {
        places: head.places,
        texts: head.texts,
        numbers: head.numbers,
        next_word: head.next_word,
    };
    tables.put_place(pages, &place.0, &place.1)?;
    let after = remove_row(pages, root, &place.0.bytes())?;
    head.places = tables.places;
    Ok(after)
}
