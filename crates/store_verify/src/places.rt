//! The places.
ghost use Rattle.std.specs.Prelude.{◌≡◌, ◌≢◌, ◌<◌, ◌≤◌, ◌+◌, ◌*◌, ◌++◌, ◌∷◌, ℕ, List, [], Some, IfSome, IfOk, OnOk, OnErr, IsErrOf, Err, slice_index_or};
ghost use Rattle.std.specs.Map.{keys_of};
ghost use Rattle.page_face.specs.Calls.{FailsReading, Reads};
ghost use Rattle.page_face.specs.declared.fault.Damage.{Damage};
ghost use Rattle.page_face.specs.declared.fault.Rule.{Rule};
ghost use Rattle.page_face.specs.Nodes.{count_of};
ghost use Rattle.page_face.specs.Number.{number};
ghost use Rattle.page_walks.specs.Met.{held, Meets};
ghost use Rattle.page_walks.specs.Misuse.{AreUsedOnce};
ghost use Rattle.btree_nodes.specs.Damages.{AreReadable};
ghost use Rattle.btree_nodes.specs.Nodes.{IsLeaf, rows_in};
ghost use Rattle.btree_nodes.specs.Tree.{map_uses};
ghost use Rattle.page_walks.specs.Maps.{IsBadMap};
ghost use Rattle.spatial_base.specs.Key.{Name};
ghost use Rattle.row_codec.specs.declared.stored.Stored.{Stored};
ghost use Rattle.row_codec.specs.Stored.{held_pairs, IsStored, place_value};
ghost use Rattle.store_tables.specs.Coded.{IsPlaceEntry, key_code, place_row};
ghost use Rattle.store_tables.specs.Holding.{HoldsPlaces, places_form};
ghost use Rattle.store_verify.specs.Breaks.{BreaksPlaceRow};
ghost use Rattle.store_verify.specs.Places.{HoldsSites};

use crate::layouts::Places;
use crate::parts::part;
use page_face::{Damage, Page, PageFault, Pages, Rule};
use page_walks::{Check, Refusal, Sink};
use paged_map::PagedMap;
use row_codec::{STORED_BYTES, Stored};
use spatial_base::{Key, Point};
use std::alloc::Global;
use std::collections::BTreeSet;

// Decodes the key and the place of a row. Returns `None` exactly if its bytes are no key's and place's.
fn place_of_bytes(key: &[u8; 66], value: &[u8; 649]) -> Option<(Key, Stored)>
    ensures form { IfSome result (λ entry. IsPlaceEntry entry × (number key.now ≡ key_code entry.0) × (value.now ≡ place_value entry.1)) }
    ensures every { (entry : Name × Stored) → IsPlaceEntry entry → number key.now ≡ key_code entry.0 → value.now ≡ place_value entry.1 → result ≡ Some entry }
{
    Some((Key::of_bytes(key)?, Stored::decode(value)?))
}

// Decodes a row of a leaf of the place table. Returns `None` exactly if it is no place's.
fn place_at(page: &Page, at: usize) -> Option<(Key, Stored)>
    requires sound { IsLeaf places_form 1 page.now }
    requires within { at < count_of page.now }
    ensures form { IfSome result (λ entry. IsPlaceEntry entry × (slice_index_or (rows_in places_form page.now) at (0, []) ≡ place_row entry)) }
    ensures every { (entry : Name × Stored) → IsPlaceEntry entry → slice_index_or (rows_in places_form page.now) at (0, []) ≡ place_row entry → result ≡ Some entry }
{
    let from = 16 + 715 * at;
    let mut key = [0; 66];
    key.copy_from_slice(part(page, from, 66));
    let mut value = [0; STORED_BYTES];
    value.copy_from_slice(part(page, from + 66, STORED_BYTES));
    place_of_bytes(&key, &value)
}

// The pairs of a place's words.
fn pairs_of(stored: &Stored) -> &[(u64, u8)]
    requires { IsStored stored.now }
    ensures { result.now ≡ held_pairs stored.now }
{
    &stored.pairs[..stored.count as usize]
}

// Adds the numbers of pairs to numbers. Refuses `Memory` alone; some may then have been added.
fn add_numbers(numbers: &mut Vec<u64>, pairs: &[(u64, u8)]) -> Result<(), Refusal>
    ensures added { OnOk result (numbers.new.items ≡ numbers.old.items ++ keys_of pairs.now) }
    ensures memory { (rule : Rule) → ¬ IsErrOf result (Refusal.Breaks rule) }
{
    for pair in pairs {
        if numbers.push(pair.0).is_err() {
            return Err(Refusal::Memory);
        }
    }
    Ok(())
}

/// What a check compares of the places of a store: their points, and the numbers of their words.
#[derive(Drop)]
pub struct Gathered {
    /// The key of each place with its point, in the order of the keys.
    pub sites: Vec<(Key, Point)>,
    /// The numbers of each place's words, one place's after another's.
    pub numbers: Vec<u64>,
}

impl Gathered {
    ghost use Rattle.row_codec.specs.Stored.{held_pairs, IsStored};

    // Adds a place. Refuses `Memory` alone; a part may then have been added.
    fn add(&mut self, key: Key, stored: &Stored) -> Result<(), Refusal>
        requires { IsStored stored.now }
        ensures sites { OnOk result (self.new.sites.items ≡ self.old.sites.items ++ (key, stored.now.point) ∷ []) }
        ensures numbers { OnOk result (self.new.numbers.items ≡ self.old.numbers.items ++ keys_of (held_pairs stored.now)) }
        ensures memory { (rule : Rule) → ¬ IsErrOf result (Refusal.Breaks rule) }
    {
        if self.sites.push((key, stored.point)).is_err() {
            return Err(Refusal::Memory);
        }
        add_numbers(&mut self.numbers, pairs_of(stored))
    }
}

impl Sink for Gathered {
    ghost use Rattle.btree_nodes.specs.Nodes.{rows_in};
    ghost use Rattle.spatial_base.specs.Key.{IsName};
    ghost use Rattle.row_codec.specs.Stored.{place_value};
    ghost use Rattle.store_tables.specs.Coded.{IsPlaceValue, key_code};
    ghost use Rattle.store_tables.specs.Holding.{places_form};
    ghost use Rattle.store_verify.specs.Breaks.{BreaksPlaceRow};
    ghost use Rattle.store_verify.specs.Gains.{AreRowsOf};
    ghost use Rattle.store_verify.specs.Laws.{rows-apart};
    ghost use Rattle.store_verify.specs.Places.{GainsPlaces};
    ghost use Rattle.store_verify.specs.PlaceLaws.{gains-none, gains-more};

    ghost form = { places_form };

    ghost takes = { λ before rows after. GainsPlaces rows before.sites.items before.numbers.items after.sites.items after.numbers.items };

    ghost good = { λ page. AreRowsOf key_code place_value IsName IsPlaceValue (rows_in places_form page) };

    ghost breaks = { BreaksPlaceRow };

    ghost apart = { λ rule page breaks good. rows-apart key_code place_value IsName IsPlaceValue places_form rule page breaks good };

    ghost takes_none = { λ s. gains-none s.sites.items s.numbers.items };

    ghost takes_more = { λ a b c rows more first then. gains-more rows more a.sites.items a.numbers.items b.sites.items b.numbers.items c.sites.items c.numbers.items first then };

    fn leaf(&mut self, page: &Page, count: usize) -> Result<(), Refusal> {
        for at in 0..count {
            match place_at(page, at) {
                Some(place) => self.add(place.0, &place.1)?,
                None => return Err(Refusal::Breaks(Rule::Value)),
            }
        }
        Ok(())
    }
}

/// Walks the places below a root. Returns their keys with their points and the numbers of their words, in the order of the keys, or why the
/// table is damaged.
///
/// A damage is a page of the table and a rule that it breaks: one of `Link` to `Level`, or `Shared` for a page that the table uses twice
/// or that was in `seen`, or `Value` for a leaf with a row that is no place's. It is returned exactly if there is one. Otherwise `seen` has
/// gained exactly the table's pages. After any other end it may have gained some of them. Returns `Disk`, `Stopped` or `Memory` as a look
/// at a page does, and `Memory` too if there is none for what is gathered.
///
/// Looks once at each page of the table, and at no other. Takes memory for a number a page. Each place takes 76 bytes too, and 8 for each
/// of its words.
pub fn places_of<P: Pages>(
    alloc: Global,
    pages: &mut P,
    root: u32,
    seen: &mut BTreeSet<u32>,
) -> Result<Result<Gathered, Damage>, PageFault>
    ensures holds { AreReadable (P.pages pages.old) (P.count pages.old)
        → IfOk result (λ found. IfOk found (λ gathered. HoldsSites (P.pages pages.old) root gathered.sites.items gathered.numbers.items)) }
    ensures once { AreReadable (P.pages pages.old) (P.count pages.old)
        → IfOk result (λ found. OnOk found (AreUsedOnce (P.count pages.old) (held seen.old) (map_uses places_form (P.pages pages.old) root))) }
    ensures gains { AreReadable (P.pages pages.old) (P.count pages.old)
        → IfOk result (λ found. OnOk found ((n : ℕ) → held seen.new n ≡ held seen.old n + map_uses places_form (P.pages pages.old) root n)) }
    ensures damaged { AreReadable (P.pages pages.old) (P.count pages.old)
        → IfOk result (λ found. (damage : Damage) → IsErrOf found damage
        → IsBadMap BreaksPlaceRow places_form (P.pages pages.old) (P.count pages.old) (held seen.old) root damage) }
    ensures exact { AreReadable (P.pages pages.old) (P.count pages.old)
        → IfOk result (λ found. OnErr found ((entries : List (Name × Stored)) → HoldsPlaces (P.pages pages.old) root entries
        → ¬ AreUsedOnce (P.count pages.old) (held seen.old) (map_uses places_form (P.pages pages.old) root))) }
    ensures meets { AreReadable (P.pages pages.old) (P.count pages.old)
        → Meets (map_uses places_form (P.pages pages.old) root) (P.asked pages.old) (P.asked pages.new) (held seen.old) (held seen.new) }
    ensures undamaged { (damage : Damage) → result ≢ Err (PageFault.Damaged damage) }
    ensures fails { FailsReading P.Pages pages.old pages.new result }
    ensures frame { Reads P.Pages pages.old pages.new }
{
    let map = PagedMap::<Places>::at(root);
    let mut gathered = Gathered {
        sites: Vec::new(alloc),
        numbers: Vec::new(alloc),
    };
    match map.check_into(pages, seen, &mut gathered)? {
        Some(damage) => Ok(Err(damage)),
        None => Ok(Ok(gathered)),
    }
}
