//! The numbers of page 0 and the places.
ghost use Rattle.std.specs.Prelude.{◌≡◌, ◌↔◌, ◌<◌, length, IsTrue};
ghost use Rattle.place_values.specs.State.{IsSerialAbove};
ghost use Rattle.store_verify.specs.Sites.{AreGiven};

use spatial_base::{Key, Point};

// Whether a key is none that an automatic key is yet to get: each text is, and a number below the next serial.
fn is_given(key: &Key, serial: u64) -> bool
    ensures { IsTrue result ↔ IsSerialAbove serial key.now }
{
    match key.serial() {
        Some(given) => given < serial,
        None => true,
    }
}

/// Whether page 0's number of live places is that of these places, and each automatic key is below the next serial.
pub fn counts_agree(sites: &[(Key, Point)], live: u32, serial: u64) -> bool
    ensures { IsTrue result ↔ ((live ≡ length sites.now) × AreGiven serial sites.now) }
{
    for site in sites {
        if !is_given(&site.0, serial) {
            return false;
        }
    }
    sites.len() == live as usize
}
