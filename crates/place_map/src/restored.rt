// Builds the map of a state from a list of places.
ghost use Rattle.std.specs.Prelude.{◌≡◌, ◌↔◌, All, IsTrue, IfOk, OnOk};
ghost use Rattle.std.specs.List.Sorted.{IsStrictlySortedBy};
ghost use Rattle.spatial_base.specs.Key.{key_cmp};
ghost use Rattle.place_values.specs.State.{AreNumbers, IsSerialAbove, with_place};
ghost use Rattle.place_values.specs.Restored.{AreStatePlaces, keys_in, places_in};

use place_values::{NUMBER_MAX, Place};
use spatial_base::{Key, Memory, Point};
use std::alloc::Global;
use std::collections::BTreeMap;
use term_impacts::{Label, Words};

// Whether a state may have this next serial and this update number.
fn are_numbers(serial: u64, number: u64) -> bool
    ensures { IsTrue result ↔ AreNumbers serial number }
{
    number <= NUMBER_MAX && 1 <= serial && serial <= number + 1
}

// Whether a key is a text, or automatic and below the next serial.
fn is_given(serial: u64, key: &Key) -> bool
    ensures { IsTrue result ↔ IsSerialAbove serial key.now }
{
    match key.serial() {
        Some(given) => given < serial,
        None => true,
    }
}

// Whether each key is before the next.
fn are_ascending(places: &[(Key, Point, Words, Label)]) -> bool
    ensures { IsTrue result ↔ IsStrictlySortedBy key_cmp (keys_in places.now) }
{
    places.is_sorted_by(|place, next| place.0.cmp(&next.0).is_lt())
}

// Whether the serial is above each automatic key.
fn are_given(serial: u64, places: &[(Key, Point, Words, Label)]) -> bool
    ensures { IsTrue result ↔ All (λ row. IsSerialAbove serial row.0) places.now }
{
    places.iter().all(|place| is_given(serial, &place.0))
}

/// Whether a state may have these places, this next serial and this update number.
pub(crate) fn are_state_places(
    serial: u64,
    number: u64,
    places: &[(Key, Point, Words, Label)],
) -> bool
    ensures { IsTrue result ↔ AreStatePlaces places.now serial number }
{
    are_numbers(serial, number) && are_ascending(places) && are_given(serial, places)
}

// Maps a key to a place.
fn put(map: &mut BTreeMap<Key, Place>, key: Key, place: Place) -> Result<(), Memory>
    ensures { OnOk result (map.new.entries ≡ with_place key place map.old.entries) }
{
    map.insert(key, place).map_err(|_| Memory)?;
    Ok(())
}

/// Returns the map of places whose keys ascend.
pub(crate) fn map_of(
    alloc: Global,
    places: Vec<(Key, Point, Words, Label)>,
) -> Result<BTreeMap<Key, Place>, Memory>
    requires { IsStrictlySortedBy key_cmp (keys_in places.items) }
    ensures { IfOk result (λ map. map.entries ≡ places_in places.items) }
{
    let mut map = BTreeMap::new(alloc);
    for (key, point, words, label) in places {
        put(
            &mut map,
            key,
            Place {
                point,
                words,
                label,
            },
        )?;
    }
    Ok(map)
}
