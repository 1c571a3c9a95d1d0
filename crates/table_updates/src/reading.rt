//! The first place of version 1.
ghost use Rattle.std.specs.Prelude.{◌≡◌, List, ◌++◌, replicate, None, Some, IfOk, IfSome, IsErrOf};
ghost use Rattle.page_face.specs.Calls.{FailsReading, Reads};
ghost use Rattle.page_face.specs.Number.{number};
ghost use Rattle.btree_nodes.specs.Damages.{AreReadable, AskedSince, AsksOnly};
ghost use Rattle.paged_map.specs.Maps.{AreCounted};
ghost use Rattle.spatial_base.specs.Key.{Name, IsName};
ghost use Rattle.row_codec.specs.declared.stored.Stored.{Stored};
ghost use Rattle.store_tables.specs.Broken.{SparesHead};
ghost use Rattle.store_tables.specs.Coded.{key_code};
ghost use Rattle.store_tables.specs.Entries.{place_after};
ghost use Rattle.table_updates.specs.Version1.{HoldsPlacesVersion1, IsPlaceVersion1, value_of_version1, version1_uses};

use crate::rows::first_row;
use page_face::{Damage, PageFault, Pages, Rule};
use row_codec::Stored;
use spatial_base::Key;

// The value in version 2 of a place that has this value in version 1: the same bytes, and the form of the empty label.
fn value_of_version2(value: &[u8; 585]) -> [u8; 649]
    ensures { result ≡ value.now ++ replicate 64 0 }
{
    let mut longer = [0; 649];
    longer[..585].copy_from_slice(value);
    longer
}

/// Decodes the key and the place of a row of version 1. Returns `None` exactly if its bytes are no key's and place's.
fn entry_of_version1(key: &[u8; 66], value: &[u8; 585]) -> Option<(Key, Stored)>
    ensures form { IfSome result (λ entry. IsName entry.0 × IsPlaceVersion1 entry.1 × (number key.now ≡ key_code entry.0) × (value.now ≡ value_of_version1 entry.1)) }
    ensures every { (entry : Name × Stored) → IsName entry.0 → IsPlaceVersion1 entry.1 → number key.now ≡ key_code entry.0 → value.now ≡ value_of_version1 entry.1 → result ≡ Some entry }
{
    let longer = value_of_version2(value);
    Some((Key::of_bytes(key)?, Stored::decode(&longer)?))
}

/// Returns the first place of the map of version 1 at a root, or `None` if the map is empty. Each place has the empty label.
///
/// Refuses as the pages do, and `Damaged` by a rule that a page of the map breaks, or with `Value` at the leaf whose row is no place's.
pub(crate) fn first_place<P: Pages>(
    pages: &mut P,
    root: u32,
) -> Result<Option<(Key, Stored)>, PageFault>
    ensures first { (places : List (Name × Stored)) → HoldsPlacesVersion1 (P.pages pages.old) root places → IfOk result (λ found. found ≡ place_after None places) }
    ensures of_form { IfOk result (λ found. IfSome found (λ entry. IsPlaceVersion1 entry.1)) }
    ensures no_false_damage { (places : List (Name × Stored)) → HoldsPlacesVersion1 (P.pages pages.old) root places
        → AreReadable (P.pages pages.old) (P.count pages.old) → AreCounted (version1_uses (P.pages pages.old) root) (P.count pages.old)
        → (damage : Damage) → ¬ IsErrOf result (PageFault.Damaged damage) }
    ensures damaged { AreReadable (P.pages pages.old) (P.count pages.old)
        → (damage : Damage) → IsErrOf result (PageFault.Damaged damage) → AskedSince (P.asked pages.old) (P.asked pages.new) damage.page }
    ensures no_head { AreReadable (P.pages pages.old) (P.count pages.old) → SparesHead result }
    ensures own { AreReadable (P.pages pages.old) (P.count pages.old)
        → AsksOnly (version1_uses (P.pages pages.old) root) (P.asked pages.old) (P.asked pages.new) }
    ensures fails { FailsReading P.Pages pages.old pages.new result }
    ensures frame { Reads P.Pages pages.old pages.new }
{
    let mut key = [0; 66];
    let mut value = [0; 585];
    let Some(leaf) = first_row(pages, root, &mut key, &mut value)? else {
        return Ok(None);
    };
    match entry_of_version1(&key, &value) {
        Some(entry) => Ok(Some(entry)),
        None => Err(PageFault::Damaged(Damage {
            page: leaf,
            rule: Rule::Value,
        })),
    }
}
