//! What lives at a key.
ghost use Rattle.std.specs.Prelude.{◌≡◌, ◌⊎◌, option_map, IfOk, IsErrOf};
ghost use Rattle.page_face.specs.Calls.{FailsReading, Reads};
ghost use Rattle.btree_nodes.specs.Damages.{AreReadable};
ghost use Rattle.paged_map.specs.Maps.{AreCounted};
ghost use Rattle.store_tables.specs.Entries.{Entries, place_of_key};
ghost use Rattle.store_tables.specs.Holding.{Holds, table_uses};
ghost use Rattle.store_tables.specs.Broken.{IsPlaceDamage};
ghost use Rattle.store_model.specs.Stands.{place_in};
ghost use Rattle.table_updates.specs.Known.{AreAllKnown, IsHeldDamage};
ghost use Rattle.table_updates.specs.Shown.{IsPlaceFound};

use crate::words::words_of;
use page_face::{Damage, PageFault, Pages};
use place_values::Place;
use spatial_base::Key;
use std::alloc::Global;
use store_tables::Tables;

/// Returns the place that lives at a key, with its words, or `None` if none does.
///
/// Refuses as [`Tables::place`] and as [`words_of`] do. Costs a look-up, and one for each word of the place.
pub fn place_at<P: Pages>(
    alloc: Global,
    pages: &mut P,
    tables: &Tables,
    key: &Key,
) -> Result<Option<Place>, PageFault>
    ensures found { (entries : Entries) → Holds (P.pages pages.old) tables.now entries
        → IfOk result (λ found. found ≡ option_map (place_in entries.numbers) (place_of_key key.now entries.places)) }

    // Each page on the ways kept the rules in its place. On any pages whose bytes are readable, the place is what the tables' rows hold.
    ensures kept { AreReadable (P.pages pages.old) (P.count pages.old)
        → IfOk result (IsPlaceFound (P.pages pages.old) (P.count pages.old) tables.now key.now) }
    ensures no_false_damage { (entries : Entries) → Holds (P.pages pages.old) tables.now entries → AreAllKnown entries.numbers entries.places
        → AreReadable (P.pages pages.old) (P.count pages.old) → AreCounted (table_uses (P.pages pages.old) tables.now) (P.count pages.old)
        → (damage : Damage) → ¬ IsErrOf result (PageFault.Damaged damage) }
    ensures damaged { AreReadable (P.pages pages.old) (P.count pages.old)
        → (damage : Damage) → IsErrOf result (PageFault.Damaged damage)
        → IsPlaceDamage (P.pages pages.old) (P.count pages.old) tables.now.places key.now (P.asked pages.old) (P.asked pages.new) damage
        ⊎ IsHeldDamage (P.pages pages.old) (P.count pages.old) tables.now key.now (P.asked pages.old) (P.asked pages.new) damage }
    ensures fails { FailsReading P.Pages pages.old pages.new result }
    ensures frame { Reads P.Pages pages.old pages.new }
{
    let Some(stored) = tables.place(pages, key)? else {
        return Ok(None);
    };
    let words = words_of(alloc, pages, tables, &stored)?;
    Ok(Some(Place {
        point: stored.point,
        words,
        label: stored.label,
    }))
}
