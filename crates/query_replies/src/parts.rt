//! Writes the parts of replies, appended to bytes.
ghost use Rattle.std.specs.Prelude.{◌≡◌, decimal, IfOk};
ghost use Rattle.json.specs.Print.{quoted};
ghost use Rattle.fixed_coords.specs.Degrees.{fixed_text};
ghost use Rattle.query_replies.specs.Parts.{key_text, units_text, point_text, at_text};
ghost use Rattle.query_replies.specs.Written.{Adds};

use fixed_coords::write_fixed;
use itoa::Buffer;
use spatial_base::{Key, Memory, Point};
use std::alloc::Global;

/// Appends bytes. If memory runs out, a part of them may have been appended.
pub fn write_bytes(bytes: &[u8], out: &mut Vec<u8>) -> Result<(), Memory>
    ensures { Adds result out.old.items bytes.now out.new.items }
{
    out.extend_from_slice(bytes).map_err(|_| Memory)
}

/// Appends a number in decimal digits. If memory runs out, a part of them may have been appended.
pub fn write_number(n: u64, out: &mut Vec<u8>) -> Result<(), Memory>
    ensures { Adds result out.old.items (decimal n) out.new.items }
{
    let mut buffer = Buffer::new();
    write_bytes(buffer.format(n).as_bytes(), out)
}

/// Appends a number of up to 128 bits in decimal digits. If memory runs out, a part of them may have been appended.
pub fn write_wide(n: u128, out: &mut Vec<u8>) -> Result<(), Memory>
    ensures { Adds result out.old.items (decimal n) out.new.items }
{
    let mut buffer = Buffer::new();
    write_bytes(buffer.format(n).as_bytes(), out)
}

// Appends units of 10^-7 degrees, written as degrees.
fn write_degrees(units: i64, out: &mut Vec<u8>) -> Result<(), Memory>
    ensures { Adds result out.old.items (fixed_text units) out.new.items }
{
    let mut text = [0; 24];
    let len = write_fixed(units, &mut text);
    write_bytes(&text[..len], out)
}

/// Appends units of 10^-7 degrees, written as degrees. There are at most 2^63 - 1 of them.
pub(crate) fn write_units(units: u64, out: &mut Vec<u8>) -> Result<(), Memory>
    ensures { Adds result out.old.items (units_text units) out.new.items }
{
    write_degrees(units.min(i64::MAX as u64) as i64, out)
}

// The JSON literal of a text.
fn literal(alloc: Global, text: &str) -> Result<Vec<u8>, Memory>
    ensures { IfOk result (λ literal. literal.items ≡ quoted text.now) }
{
    serde_json::to_vec(alloc, &text).map_err(|_| Memory)
}

/// Appends the JSON literal of a text.
pub(crate) fn write_literal(alloc: Global, text: &str, out: &mut Vec<u8>) -> Result<(), Memory>
    ensures { Adds result out.old.items (quoted text.now) out.new.items }
{
    write_bytes(&literal(alloc, text)?, out)
}

/// Appends a key.
pub(crate) fn write_key(alloc: Global, key: &Key, out: &mut Vec<u8>) -> Result<(), Memory>
    ensures { Adds result out.old.items (key_text key.now) out.new.items }
{
    match key.serial() {
        Some(serial) => {
            write_bytes(b"#", &mut *out)?;
            write_number(serial, out)
        }
        None => write_literal(alloc, key.text().unwrap_or(""), out),
    }
}

/// Appends a point.
pub(crate) fn write_point(point: &Point, out: &mut Vec<u8>) -> Result<(), Memory>
    ensures { Adds result out.old.items (point_text point.now) out.new.items }
{
    write_degrees(i64::from(point.x()), &mut *out)?;
    write_bytes(b" ", &mut *out)?;
    write_degrees(i64::from(point.y()), out)
}

/// Appends the position of a place, if `explain` is set.
pub(crate) fn write_at(explain: bool, point: &Point, out: &mut Vec<u8>) -> Result<(), Memory>
    ensures { Adds result out.old.items (at_text explain point.now) out.new.items }
{
    if !explain {
        return Ok(());
    }
    write_bytes(b" at ", &mut *out)?;
    write_point(point, out)
}
