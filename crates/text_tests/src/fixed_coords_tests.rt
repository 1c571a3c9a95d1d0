use fixed_coords::{NumberFault, latitude, longitude, read_fixed, reading_is_one, write_fixed};

/// Spellings, and their values as Python's integers give them.
static NUMBERS: [(&str, Result<i64, NumberFault>); 24] = [
    ("0", Ok(0)),
    ("-0", Ok(0)),
    ("-12.34567891", Ok(-123_456_789)),
    ("1E+2", Ok(1_000_000_000)),
    ("25e-8", Ok(3)),
    ("-25e-8", Ok(-3)),
    ("24e-8", Ok(2)),
    ("5e-9", Ok(0)),
    (
        "0.000000049999999999999999999999999999999999999999999999999999",
        Ok(0),
    ),
    (
        "0.0000000500000000000000000000000000000000000000000000000000000",
        Ok(1),
    ),
    (
        "10000000000000000000000000000000000000000000000000000000000e-58",
        Ok(10_000_000),
    ),
    ("1e-999999999999999999", Ok(0)),
    ("0e999999999999", Ok(0)),
    ("1e5", Ok(1_000_000_000_000)),
    ("-100000.00000004", Ok(-1_000_000_000_000)),
    ("100000.00000005", Err(NumberFault::TooBig)),
    ("-1e6", Err(NumberFault::TooBig)),
    (
        "1e999999999999999999999999999999999999999999999999999999999999",
        Err(NumberFault::TooBig),
    ),
    (
        "1000000000000000000000000000000000000000000000000000000000000000",
        Err(NumberFault::TooBig),
    ),
    (
        "0000000000000000000000000000000000000000000000000000000000000000",
        Err(NumberFault::NotANumber),
    ),
    ("01", Err(NumberFault::NotANumber)),
    ("+1", Err(NumberFault::NotANumber)),
    ("1.", Err(NumberFault::NotANumber)),
    ("1e", Err(NumberFault::NotANumber)),
];

/// Spellings of coordinates, whether each is a latitude, and their values.
static COORDINATES: [(&str, bool, Result<i32, NumberFault>); 12] = [
    ("0.00000005", false, Ok(1)),
    ("-0.00000005", false, Ok(-1)),
    ("1e1", false, Ok(100_000_000)),
    ("180.00000004", false, Ok(1_800_000_000)),
    ("180.00000005", false, Err(NumberFault::OutOfRange)),
    ("-180.00000005", false, Err(NumberFault::OutOfRange)),
    (".5", false, Err(NumberFault::NotANumber)),
    ("1e99", false, Err(NumberFault::TooBig)),
    (
        "00000000000000000000000000000000000000000000000000000000000000000",
        false,
        Err(NumberFault::TooLong),
    ),
    ("-90", true, Ok(-900_000_000)),
    ("90.00000004", true, Ok(900_000_000)),
    ("90.00000005", true, Err(NumberFault::OutOfRange)),
];

static DEGREES: [(i64, &str); 7] = [
    (0, "0.0000000"),
    (-1, "-0.0000001"),
    (100_000_000, "10.0000000"),
    (-123_456_789, "-12.3456789"),
    (1_000_000_000_000, "100000.0000000"),
    (i64::MIN, "-922337203685.4775808"),
    (i64::MAX, "922337203685.4775807"),
];

#[test]
fn a_number_is_its_value_times_ten_million_to_the_nearest(rt: HostRuntime) {
    for (spelling, value) in &NUMBERS {
        assert!(rt; read_fixed(spelling) == *value, "{spelling}");
    }
    reading_is_one();
}

/// The value of a latitude or a longitude, or why it is refused.
fn coordinate(spelling: &str, is_latitude: bool) -> Result<i32, NumberFault> {
    if is_latitude {
        latitude(spelling)
    } else {
        longitude(spelling)
    }
}

#[test]
fn a_coordinate_is_held_to_its_range(rt: HostRuntime) {
    for (spelling, is_latitude, value) in &COORDINATES {
        assert!(rt; coordinate(spelling, *is_latitude) == *value, "{spelling}");
    }
}

/// Whether a value is written as this text.
fn is_written(value: i64, text: &str) -> bool {
    let mut out = [b'?'; 24];
    let end = write_fixed(value, &mut out);
    &out[..end] == text.as_bytes()
}

#[test]
fn a_value_is_written_in_degrees(rt: HostRuntime) {
    for (value, text) in &DEGREES {
        assert!(rt; is_written(*value, text), "{value}");
    }
}
