use spatial_base::{Key, Point};

/// A place that an item gives.
#[derive(Debug, Drop)]
pub struct Draft {
    /// The text key that the item's identifier names; `None` asks for the next automatic key.
    pub id: Option<Key>,
    /// Longitude and latitude, in degrees times 10^7.
    pub point: Point,
    /// The strings among the item's properties, joined by LF, or only the string of the property that the call names.
    pub text: String,
}

/// Why an item gives no place. If several reasons apply, the first of them is returned.
#[derive(Clone, Copy, Debug, PartialEq, Eq, Drop)]
pub enum SkipReason {
    /// The item is not an object whose `type` is `Feature`.
    NotFeature,
    /// `geometry` is absent or null.
    NoGeometry,
    /// `geometry` is not an object whose `type` is `Point`.
    NotPoint,
    /// `coordinates` is not an array that begins with two numbers of at most 64 bytes each.
    BadPosition,
    /// The longitude is not within 180 degrees of 0, or the latitude not within 90.
    OutOfRange,
    /// `id` is neither absent, nor null, nor a number or a string of 1 to 64 bytes.
    BadId,
}

/// What an item gives.
#[derive(Debug, Drop)]
pub enum Taken {
    /// The item gives this place.
    Place(Draft),
    /// The item with this index, counted from 0, gives no place for this reason.
    Skipped(u32, SkipReason),
}
