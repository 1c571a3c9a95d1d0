// The lines that a load prints.
ghost use Rattle.std.specs.Prelude.{◌≡◌};
ghost use Rattle.run_outcome.specs.Load.{reason_text, skip_line, stored_line, loaded_line};
ghost use Rattle.query_replies.specs.Written.{Adds};

use geojson_points::SkipReason;
use query_replies::{write_bytes, write_number};
use spatial_base::Memory;

// The word for a reason.
fn reason_word(reason: SkipReason) -> &'static [u8]
    ensures { result.now ≡ reason_text reason }
{
    match reason {
        SkipReason::NotFeature => b"not-feature",
        SkipReason::NoGeometry => b"no-geometry",
        SkipReason::NotPoint => b"not-point",
        SkipReason::BadPosition => b"bad-position",
        SkipReason::OutOfRange => b"out-of-range",
        SkipReason::BadId => b"bad-id",
    }
}

/// Appends the line of an item that is skipped.
#[tactic(auto, unfolding(run_outcome::specs::Load::skip_line))]
pub(crate) fn write_skip(index: u32, reason: SkipReason, out: &mut Vec<u8>) -> Result<(), Memory>
    ensures { Adds result out.old.items (skip_line index reason) out.new.items }
{
    write_bytes(b"skip ", &mut *out)?;
    write_number(u64::from(index), &mut *out)?;
    write_bytes(b" ", &mut *out)?;
    write_bytes(reason_word(reason), &mut *out)?;
    write_bytes(b"\n", out)
}

/// Appends the line of a batch, with how many places were stored by then.
#[tactic(auto, unfolding(run_outcome::specs::Load::stored_line))]
pub(crate) fn write_stored(stored: u64, out: &mut Vec<u8>) -> Result<(), Memory>
    ensures { Adds result out.old.items (stored_line stored) out.new.items }
{
    write_bytes(b"stored ", &mut *out)?;
    write_number(stored, &mut *out)?;
    write_bytes(b"\n", out)
}

/// Appends the last line.
#[tactic(auto, unfolding(run_outcome::specs::Load::loaded_line))]
pub(crate) fn write_loaded(stored: u64, skipped: u64, out: &mut Vec<u8>) -> Result<(), Memory>
    ensures { Adds result out.old.items (loaded_line stored skipped) out.new.items }
{
    write_bytes(b"loaded ", &mut *out)?;
    write_number(stored, &mut *out)?;
    write_bytes(b" skipped ", &mut *out)?;
    write_number(skipped, &mut *out)?;
    write_bytes(b"\n", out)
}
