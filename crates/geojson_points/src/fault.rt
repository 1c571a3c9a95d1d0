use json_spelled::JsonFault;

/// Why a text gives no list of places and skips.
#[derive(Clone, Copy, Debug, PartialEq, Eq, Drop)]
pub enum LoadFault {
    /// The text is not JSON. This is the first offence, and never [`JsonFault::Memory`].
    Json(JsonFault),
    /// The text is JSON, but neither a Feature nor a FeatureCollection whose `features` is an array.
    NotFeatures,
    /// Memory ran out.
    Memory,
}
