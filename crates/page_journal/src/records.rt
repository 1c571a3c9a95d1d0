//! The bytes of a record.
ghost use Rattle.std.specs.Prelude.{◌≡◌, ◌<◌, ◌+◌, ◌*◌, ◌-◌, ◌^◌, IfOk, length};
ghost use Rattle.page_journal.specs.Record.{given, IsRecordOf};

use page_face::Page;
use std::alloc::{AllocError, Global};
use std::collections::BTreeMap;

/// The bytes of a record after its gate, gathered so that one write writes them all.
#[derive(Drop)]
pub struct Record {
    pub(crate) bytes: Vec<u8>,
}

// The bytes of a page. Only through this is a page in a map known to have 4,096 bytes.
pub(crate) fn bytes_of(page: &Page) -> &[u8]
    ensures same { result.now ≡ page.now }
    ensures size { length result.now ≡ 4096 }
{
    page
}

impl Record {
    /// Gathers the record of these pages: 4,100 bytes for each, and 5 more.
    ///
    /// Returns `AllocError` if it runs out of memory. There are fewer than 2^32 pages.
    pub fn gather(alloc: Global, pages: &BTreeMap<u32, Box<Page>>) -> Result<Record, AllocError>
        requires { length pages.now.entries < 2 ^ 32 }
        ensures gathered { 0 < length pages.now.entries → IfOk result (λ gathered. IsRecordOf (given pages.now.entries) gathered.bytes.items) }
        ensures size { IfOk result (λ gathered. length gathered.bytes.items ≡ 5 + 4100 * length pages.now.entries) }
    {
        let mut bytes = Vec::with_capacity(alloc, 5 + 4100 * pages.len())?;
        bytes.extend_from_slice(&(pages.len() as u32).to_be_bytes())?;
        for (number, page) in pages {
            bytes.extend_from_slice(&number.to_be_bytes())?;
            bytes.extend_from_slice(bytes_of(page))?;
        }
        bytes.push(0)?;
        Ok(Record { bytes })
    }
}
