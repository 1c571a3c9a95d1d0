//! The pairs of a place: word numbers with their impacts.
ghost use Rattle.std.specs.Prelude.{◌≡◌, ◌+◌, ◌≤◌, ◌<◌, length, IfSome, OnOk, OnErr};
ghost use Rattle.std.specs.BTreeMap.{insert_entry};
ghost use Rattle.std.specs.Option.{option_copied};
ghost use Rattle.std.specs.Ordering.{nat_cmp};
ghost use Rattle.row_codec.specs.Stored.{IsStored};
ghost use Rattle.store_model.specs.Updates.{has_pair as is_among, pairs_of, stored_with};
ghost use Rattle.table_updates.specs.Numbers.{IsNumberMap};

use page_face::PageFault;
use spatial_base::Point;
use std::collections::BTreeMap;
use store_tables::Stored;
use term_impacts::Label;

/// Whether a number is among the pairs.
pub(crate) fn has_pair(number: u64, pairs: &[(u64, u8)]) -> bool
    ensures { result ≡ is_among number pairs.now }
{
    pairs.iter().any(|pair| pair.0 == number)
}

/// The pairs of a place, or none if there is no place.
pub(crate) fn held_pairs(stored: Option<&Stored>) -> &[(u64, u8)]
    requires form { IfSome (option_copied stored) IsStored }
    ensures pairs { result.now ≡ pairs_of (option_copied stored.entry) }
{
    match stored {
        Some(stored) => &stored.pairs[..stored.count as usize],
        None => &[],
    }
}

/// Maps a number to its impact.
pub(crate) fn put_pair(
    pairs: &mut BTreeMap<u64, u8>,
    number: u64,
    impact: u8,
) -> Result<(), PageFault>
    requires impact { 1 ≤ impact }
    requires map { IsNumberMap pairs.old.entries }
    requires room { length pairs.old.entries < 64 }
    ensures put { OnOk result (pairs.new.entries ≡ insert_entry nat_cmp pairs.old.entries number impact) }
    ensures map { OnOk result (IsNumberMap pairs.new.entries) }
    ensures few { OnOk result (length pairs.new.entries ≤ length pairs.old.entries + 1) }
    ensures memory { OnErr result (result ≡ Err PageFault.Memory) }
{
    match pairs.insert(number, impact) {
        Ok(_) => Ok(()),
        Err(_) => Err(PageFault::Memory),
    }
}

/// A place with these pairs and this label.
pub(crate) fn place_with(point: Point, numbers: &BTreeMap<u64, u8>, label: Label) -> Stored
    requires map { IsNumberMap numbers.now.entries }
    ensures pairs { result ≡ stored_with point numbers.now.entries label }
    ensures form { IsStored result }
{
    let mut pairs = [(0, 0); 64];
    let mut count = 0;
    for (number, impact) in numbers {
        pairs[count] = (*number, *impact);
        count += 1;
    }
    Stored {
        point,
        count: count as u8,
        pairs,
        label,
    }
}
