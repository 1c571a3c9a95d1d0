//! What a node gives is sorted: children wait, hits are found.
ghost use Rattle.std.specs.Prelude.{◌≡◌, ◌&&◌, ◌==◌, ◌<◌, ◌++◌, nat_lt, IfErr, OnOk};
ghost use Rattle.std.specs.Int.{bit_at};
ghost use Rattle.best_first.specs.Items.{nodes_of, places_of};
ghost use Rattle.boolean_queries.specs.Near.{kept_one, kept};
ghost use Rattle.boolean_queries.specs.Waiting.{waits};

use crate::near::Near;
use best_first::Item;
use page_face::PageFault;
use place_values::Hit;
use std::alloc::AllocError;

/// A node that is to be opened.
#[derive(Clone, Copy, Debug)]
pub(crate) struct Waiting {
    /// Its page.
    pub page: u32,
    /// Its level, 0 for a leaf.
    pub level: u8,
    /// The bound that no place below it costs less than.
    pub bound: u64,
}

// Whether a mask has a slot.
fn is_set(mask: u32, slot: usize) -> bool
    ensures { result ≡ (nat_lt slot 32 && (bit_at mask slot == 1)) }
{
    slot < 32 && (mask >> slot) & 1 == 1
}

// Adds a slot's child to the nodes that wait, and its hit to those that were found, if the mask has the slot.
fn sort_one(
    near: &Near,
    mask: u32,
    waiting: &mut Vec<Waiting>,
    found: &mut Vec<Hit>,
) -> Result<(), AllocError>
    ensures waiting { OnOk result (waits waiting.new.items ≡ waits waiting.old.items ++ nodes_of (kept_one mask near.now)) }
    ensures found { OnOk result (found.new.items ≡ found.old.items ++ places_of (kept_one mask near.now)) }
{
    if !is_set(mask, near.slot) {
        return Ok(());
    }
    match near.item {
        Item::Node { page, level, bound } => waiting.push(Waiting { page, level, bound })?,
        Item::Place(hit) => found.push(hit)?,
    }
    Ok(())
}

// Sorts each slot as `sort_one` does.
fn sort_each(
    near: &[Near],
    mask: u32,
    waiting: &mut Vec<Waiting>,
    found: &mut Vec<Hit>,
) -> Result<(), AllocError>
    ensures waiting { OnOk result (waits waiting.new.items ≡ waits waiting.old.items ++ nodes_of (kept mask near.now)) }
    ensures found { OnOk result (found.new.items ≡ found.old.items ++ places_of (kept mask near.now)) }
{
    for one in near {
        sort_one(one, mask, waiting, found)?;
    }
    Ok(())
}

/// Adds the children in the slots of a mask to the nodes that wait, and the hits in them to those that were found.
///
/// Refuses `Memory`.
pub(crate) fn sort_near(
    near: &[Near],
    mask: u32,
    waiting: &mut Vec<Waiting>,
    found: &mut Vec<Hit>,
) -> Result<(), PageFault>
    ensures waiting { OnOk result (waits waiting.new.items ≡ waits waiting.old.items ++ nodes_of (kept mask near.now)) }
    ensures found { OnOk result (found.new.items ≡ found.old.items ++ places_of (kept mask near.now)) }
    ensures memory { IfErr result (λ fault. fault ≡ PageFault.Memory) }
{
    match sort_each(near, mask, waiting, found) {
        Ok(()) => Ok(()),
        Err(_) => Err(PageFault::Memory),
    }
}
