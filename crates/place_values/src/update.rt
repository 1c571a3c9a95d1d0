// Updates and their results.
use spatial_base::{Key, Point};
use std::alloc::AllocFailed;
use term_impacts::{Label, Words};

/// A change to the map.
#[derive(Drop)]
pub enum Update {
    /// Maps a key to a place. Without a key it uses the automatic key of the next serial. A key that is given is a text key.
    Put {
        /// The key, or `None` for the next automatic one.
        key: Option<Key>,
        /// The position of the place.
        point: Point,
        /// The impact of each of its words.
        words: Words,
        /// Its label.
        label: Label,
    },
    /// Removes a key and its place from the map.
    Remove {
        /// The key.
        key: Key,
    },
}

/// What an accepted update did.
#[derive(Clone, Copy, Debug, PartialEq, Eq)]
pub enum Applied {
    /// A place was put at a new key.
    New,
    /// A place was put at a key that had one.
    Replaced,
    /// A key and its place were removed.
    Gone,
    /// There was no such key, and nothing changed.
    Absent,
}

/// Why an update was refused.
#[derive(Clone, Copy, Debug, PartialEq, Eq)]
pub enum UpdateFault {
    /// 1,000,000 or more places are live, and the key is new.
    Full = 1,
    /// The update number is 2^40, and the update would change the map.
    Worn = 2,
    /// Memory ran out.
    Memory,
}

impl<T: Drop> From<AllocFailed<T>> for UpdateFault {
    ghost use Rattle.std.specs.Prelude.{◌≡◌};
    ghost use Rattle.place_values.specs.declared.update.UpdateFault.TheVariants.{Memory};

    ghost from_gives = { λ _ fault. fault ≡ Memory };

    fn from(_failed: AllocFailed<T>) -> UpdateFault {
        UpdateFault::Memory
    }
}
