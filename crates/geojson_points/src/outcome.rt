ghost use Rattle.std.specs.Prelude.{◌≡◌, ◌≢◌, ℕ, ◌^◌, ◌<◌, ◌≤◌, List, All, map, length, Option, Result, Ok, Err, MatchResult, IfOk, option_copied, option_map};
ghost use Rattle.json_spelled.specs.View.{json_of, jsons_of};
ghost use Rattle.geojson_points.specs.Takes.{Item, Takes, Says, SaysEach, HasTextKey, items_of, item_of};
ghost use Rattle.geojson_points.specs.declared.fault.LoadFault.{LoadFault};

use crate::fault::LoadFault;
use crate::feature::{ItemFault, draft};
use crate::object::{array, has_type, member};
use crate::taken::Taken;
use json_spelled::{JsonFault, Tree, read_tree};
use std::alloc::{AllocError, Global};
use std::slice;

/// A text has only one outcome, so the clauses of [`take`] fix its result. The call does nothing: its contract is the law.
pub fn outcome_is_one()
    ensures { (bytes : List ℕ) (only : Option (List ℕ)) (one other : Result (List Item) LoadFault) →
        Takes bytes only one → Takes bytes only other → one ≡ other }
{}

/// Each text has an outcome. The call does nothing: its contract is the law.
pub fn outcome_is_some()
    ensures { (bytes : List ℕ) (only : Option (List ℕ)) → (outcome : Result (List Item) LoadFault) × Takes bytes only outcome }
{}

/// Returns what a GeoJSON text gives, item by item in their order: a place, or the first reason why there is none.
///
/// The text is a Feature, which is the one item, or a FeatureCollection, whose items are the elements of `features` ([RFC
/// 7946](https://www.rfc-editor.org/rfc/rfc7946), sections 3, 3.2 and 3.3). If an object repeats a name, its last member with that name
/// counts, and the others are as if absent. The text of a place is the strings among the members of `properties`, in their order,
/// joined by LF. With `only`, it is the string of that member alone.
///
/// Refuses with [`LoadFault::Json`] exactly if the bytes are not a JSON text as [`json_spelled::read_tree`] reads it, with the first
/// offence. Refuses with [`LoadFault::NotFeatures`] exactly if they are a JSON text, but neither a Feature nor a FeatureCollection
/// whose `features` is an array. Only [`LoadFault::Memory`] is tied to no cause.
///
/// The work is near the number of bytes: each coordinate is read once, no name is compared with all others, and the only texts that are
/// copied are those of the result.
pub fn take(alloc: Global, bytes: &[u8], only: Option<&str>) -> Result<Vec<Taken>, LoadFault>
    requires { length bytes.now < 2 ^ 32 }

    // The result is the outcome of the text, unless memory runs out.
    ensures outcome { MatchResult result (λ taken. Takes bytes.now (option_copied only.entry) (Ok (map item_of taken.items)))
        (λ fault. fault ≢ LoadFault.Memory → Takes bytes.now (option_copied only.entry) (Err fault)) }

    // Each place has a text key or none, and there are no more items than bytes.
    ensures keys { IfOk result (λ taken. All (λ taken. HasTextKey (item_of taken)) taken.items) }
    ensures few { IfOk result (λ taken. length taken.items ≤ length bytes.now) }
{
    let tree = match read_tree(alloc, bytes) {
        Ok(tree) => tree,
        Err(JsonFault::Memory) => return Err(LoadFault::Memory),
        Err(fault) => return Err(LoadFault::Json(fault)),
    };
    let Some(items) = items(&tree) else {
        return Err(LoadFault::NotFeatures);
    };
    match each(alloc, items, only) {
        Ok(taken) => Ok(taken),
        Err(AllocError) => Err(LoadFault::Memory),
    }
}

/// The items of a text, or `None` if it is neither a Feature nor a FeatureCollection whose `features` is an array.
fn items(tree: &Tree) -> Option<&[Tree]>
    ensures { option_map jsons_of (option_copied result) ≡ items_of (json_of tree.now) }
{
    if has_type(tree, "Feature") {
        return Some(slice::from_ref(tree));
    }
    if !has_type(tree, "FeatureCollection") {
        return None;
    }
    array(member(tree, "features")?)
}

/// What each item gives, in their order.
fn each(alloc: Global, items: &[Tree], only: Option<&str>) -> Result<Vec<Taken>, AllocError>
    requires { length items.now < 2 ^ 32 }
    ensures said { IfOk result (λ taken. SaysEach (option_copied only.entry) 0 (jsons_of items.now) (map item_of taken.items)) }
    ensures len { IfOk result (λ taken. length taken.items ≡ length items.now) }
{
    let mut taken = Vec::with_capacity(alloc, items.len())?;
    for (index, item) in items.iter().enumerate() {
        taken.push(said(alloc, index as u32, item, only)?)?;
    }
    Ok(taken)
}

/// What the item with this index gives.
fn said(alloc: Global, index: u32, item: &Tree, only: Option<&str>) -> Result<Taken, AllocError>
    ensures { IfOk result (λ taken. Says (option_copied only.entry) index (json_of item.now) (item_of taken)) }
{
    match draft(alloc, item, only) {
        Ok(draft) => Ok(Taken::Place(draft)),
        Err(ItemFault::Skip(reason)) => Ok(Taken::Skipped(index, reason)),
        Err(ItemFault::Memory) => Err(AllocError),
    }
}
