//! Reads one item.
ghost use Rattle.std.specs.Prelude.{◌≡◌, Ok, Err, MatchOption, MatchResult, option_copied};
ghost use Rattle.json_spelled.specs.View.{json_of, jsons_of};
ghost use Rattle.geojson_points.specs.Feature.{geometry_of, pair_of, pair_in, pair_within, is_unread, IsPositionOf, key_of, id_of};
ghost use Rattle.geojson_points.specs.Draft.{GivesSo};

use crate::object::{array, has_type, member, spelling};
use crate::taken::{Draft, SkipReason};
use crate::text::text;
use fixed_coords::{NumberFault, latitude, longitude};
use json_spelled::Tree;
use spatial_base::{Key, Point};
use std::alloc::{AllocError, Global};

/// Why an item gives no draft.
#[derive(Drop)]
pub(crate) enum ItemFault {
    Skip(SkipReason),
    Memory,
}

impl From<SkipReason> for ItemFault {
    ghost use Rattle.std.specs.Prelude.{◌≡◌};
    ghost use Rattle.geojson_points.specs.declared.feature.ItemFault.TheVariants.{Skip};

    ghost from_gives = { λ reason fault. fault ≡ Skip reason };

    fn from(reason: SkipReason) -> ItemFault {
        ItemFault::Skip(reason)
    }
}

impl From<AllocError> for ItemFault {
    ghost use Rattle.std.specs.Prelude.{◌≡◌};
    ghost use Rattle.geojson_points.specs.declared.feature.ItemFault.TheVariants.{Memory};

    ghost from_gives = { λ _ fault. fault ≡ Memory };

    fn from(_error: AllocError) -> ItemFault {
        ItemFault::Memory
    }
}

/// Returns the place of an item, or the first reason why it gives none. The text is copied last, and only if the item gives a place.
pub(crate) fn draft(alloc: Global, item: &Tree, only: Option<&str>) -> Result<Draft, ItemFault>
    ensures { GivesSo (option_copied only.entry) (json_of item.now) result }
{
    let point = point(item)?;
    let id = id(item)?;
    let text = text(alloc, item, only)?;
    Ok(Draft { id, point, text })
}

/// The position of an item, if it is a Feature with a Point on the map.
fn point(item: &Tree) -> Result<Point, SkipReason>
    ensures { IsPositionOf (pair_within (geometry_of (json_of item.now))) result }
{
    let (longitude, latitude) = coordinates(geometry(item)?)?;
    position(longitude, latitude)
}

/// The geometry of an item, if it is a Feature that has one.
fn geometry(item: &Tree) -> Result<&Tree, SkipReason>
    ensures { MatchResult result (λ geometry. geometry_of (json_of item.now) ≡ Ok (json_of geometry.now))
        (λ reason. geometry_of (json_of item.now) ≡ Err reason) }
{
    if !has_type(item, "Feature") {
        return Err(SkipReason::NotFeature);
    }
    match member(item, "geometry") {
        None | Some(Tree::Null) => Err(SkipReason::NoGeometry),
        Some(geometry) => Ok(geometry),
    }
}

/// The longitude and the latitude of a geometry, as they are spelled, if it is a Point that has them.
fn coordinates(geometry: &Tree) -> Result<(&str, &str), SkipReason>
    ensures { MatchResult result (λ pair. pair_in (json_of geometry.now) ≡ Ok (pair.0.now, pair.1.now))
        (λ reason. pair_in (json_of geometry.now) ≡ Err reason) }
{
    if !has_type(geometry, "Point") {
        return Err(SkipReason::NotPoint);
    }
    let Some(coordinates) = member(geometry, "coordinates") else {
        return Err(SkipReason::BadPosition);
    };
    let Some(numbers) = array(coordinates) else {
        return Err(SkipReason::BadPosition);
    };
    pair(numbers).ok_or(SkipReason::BadPosition)
}

/// The two numbers that an array begins with. What follows them is not looked at.
fn pair(numbers: &[Tree]) -> Option<(&str, &str)>
    ensures { MatchOption result (pair_of (jsons_of numbers.now) ≡ None) (λ pair. pair_of (jsons_of numbers.now) ≡ Some (pair.0.now, pair.1.now)) }
{
    match numbers {
        [longitude, latitude, ..] => Some((spelling(longitude)?, spelling(latitude)?)),
        _ => None,
    }
}

/// The position with these two coordinates.
///
/// Both are read before either is refused, since a coordinate that cannot be read is reported before one that is off the map.
fn position(east: &str, north: &str) -> Result<Point, SkipReason>
    ensures { IsPositionOf (Ok (east.now, north.now)) result }
{
    let (x, y) = (longitude(east), latitude(north));
    if is_unread(x) || is_unread(y) {
        return Err(SkipReason::BadPosition);
    }
    match (x, y) {
        (Ok(x), Ok(y)) => Point::new(x, y).ok_or(SkipReason::OutOfRange),
        _ => Err(SkipReason::OutOfRange),
    }
}

/// Whether a coordinate is not a number, or has too many bytes.
fn is_unread(coordinate: Result<i32, NumberFault>) -> bool
    ensures { result ≡ is_unread coordinate }
{
    matches!(
        coordinate,
        Err(NumberFault::NotANumber | NumberFault::TooLong)
    )
}

/// The key of an item, if it has an identifier.
fn id(item: &Tree) -> Result<Option<Key>, SkipReason>
    ensures { result ≡ id_of (json_of item.now) }
{
    match member(item, "id") {
        None | Some(Tree::Null) => Ok(None),
        Some(Tree::Spelled(id)) => key(id.as_str()),
        Some(Tree::Text(id)) => key(id.as_str()),
        Some(_) => Err(SkipReason::BadId),
    }
}

/// The key with this text.
fn key(text: &str) -> Result<Option<Key>, SkipReason>
    ensures { result ≡ key_of text.now }
{
    match Key::of_text(text) {
        Ok(key) => Ok(Some(key)),
        Err(_) => Err(SkipReason::BadId),
    }
}
