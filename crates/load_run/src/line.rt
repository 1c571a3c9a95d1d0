// The last line of a make.
ghost use Rattle.std.specs.Prelude.{◌++◌, decimal};
ghost use Rattle.query_replies.specs.Written.{Adds};
ghost use Rattle.load_run.specs.Making.{made_line};

use crate::found::Found;
use query_replies::{write_bytes, write_number, write_wide};
use spatial_base::Memory;

// Appends a name and a number.
fn write_named(name: &[u8], n: u32, out: &mut Vec<u8>) -> Result<(), Memory>
    ensures { Adds result out.old.items (name.now ++ decimal n) out.new.items }
{
    write_bytes(name, &mut *out)?;
    write_number(u64::from(n), out)
}

/// Appends the line.
#[tactic(auto, unfolding(crate::specs::Making::made_line))]
pub(crate) fn write_made(
    count: u32,
    queries: u32,
    found: &Found,
    out: &mut Vec<u8>,
) -> Result<(), Memory>
    ensures { Adds result out.old.items (made_line count queries found.now.hits found.now.cost) out.new.items }
{
    write_named(b"made ", count, &mut *out)?;
    write_named(b" places ", queries, &mut *out)?;
    write_named(b" queries ", found.hits, &mut *out)?;
    write_bytes(b" hits sum ", &mut *out)?;
    write_wide(found.cost, &mut *out)?;
    write_bytes(b"\n", out)
}
