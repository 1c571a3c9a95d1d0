//! The bytes of the two areas of a station in memory.
ghost use Rattle.std.specs.Prelude.{◌≡◌, ◌≤◌, ◌<◌, ◌+◌, ◌-◌, [], ◌∷◌, ℕ, length, OnOk, IfOk, slice_index, replicate};
ghost use Rattle.disk_model.specs.Crash.{filled};
ghost use Rattle.disk_model.specs.Replay.{overwritten, range_of, with_area};
ghost use Rattle.disk_model.specs.Stored.{image_of, bytes_of, stored, Put};

use crate::Area;
use std::alloc::{AllocError, Global};

// Each area is the stored bytes, followed by zeros without end.
#[derive(Drop)]
pub(crate) struct Areas {
    pub(crate) pages: Vec<u8>,
    pub(crate) journal: Vec<u8>,
}

// Extends the bytes with zeros up to a length, which changes no byte that is read.
fn grow(bytes: &mut Vec<u8>, len: usize) -> Result<(), AllocError>
    ensures len { OnOk result (len ≤ length bytes.new.items) }
    ensures same { (i : ℕ) → slice_index bytes.new.items i ≡ slice_index bytes.old.items i }
{
    if bytes.len() < len {
        bytes.resize(len, 0)?;
    }
    Ok(())
}

fn put(to: &mut Vec<u8>, at: usize, bytes: &[u8])
    requires { at + length bytes.now ≤ length to.old.items }
    ensures { Put at bytes.now to.old.items to.new.items }
{
    to[at..at + bytes.len()].copy_from_slice(bytes);
}

fn fill(to: &mut Vec<u8>, at: usize, len: usize, byte: u8)
    requires { at + len ≤ length to.old.items }
    ensures { Put at (replicate len byte) to.old.items to.new.items }
{
    to[at..at + len].fill(byte);
}

// Copies the bytes from offset `at` on, with zeros past the end.
fn copy_out(from: &[u8], at: usize, buf: &mut [u8])
    ensures { (i : ℕ) → i < length buf.new → slice_index buf.new i ≡ slice_index from.now (at + i) }
{
    for i in 0..buf.len() {
        buf[i] = if at < from.len() && i < from.len() - at {
            from[at + i]
        } else {
            0
        };
    }
}

impl Areas {
    // Returns areas of zeros only.
    pub(crate) fn empty(alloc: Global) -> Areas
        ensures { image_of result ≡ stored [] [] }
    {
        Areas {
            pages: Vec::new(alloc),
            journal: Vec::new(alloc),
        }
    }

    // Returns areas that begin with these bytes.
    pub(crate) fn of(alloc: Global, pages: &[u8], journal: &[u8]) -> Result<Areas, AllocError>
        ensures { IfOk result (λ areas. image_of areas ≡ stored pages.now journal.now) }
    {
        Ok(Areas {
            pages: pages.to_vec(alloc)?,
            journal: journal.to_vec(alloc)?,
        })
    }

    pub(crate) fn copy(&self, alloc: Global) -> Result<Areas, AllocError>
        ensures { IfOk result (λ areas. image_of areas ≡ image_of self.now) }
    {
        Areas::of(alloc, &self.pages, &self.journal)
    }

    // Returns the stored bytes of an area.
    pub(crate) fn bytes(&self, area: Area) -> &[u8]
        ensures { result.now ≡ bytes_of self.now area }
    {
        match area {
            Area::Pages => &self.pages,
            Area::Journal => &self.journal,
        }
    }

    // Fills a buffer with the bytes from offset `at` on.
    pub(crate) fn read(&self, area: Area, at: usize, buf: &mut [u8])
        ensures { (i : ℕ) → i < length buf.new → slice_index buf.new i ≡ image_of self.now area (at + i) }
    {
        match area {
            Area::Pages => copy_out(&self.pages, at, buf),
            Area::Journal => copy_out(&self.journal, at, buf),
        }
    }

    // Stores at least `len` bytes of an area.
    pub(crate) fn reserve(&mut self, area: Area, len: usize) -> Result<(), AllocError>
        ensures len { OnOk result (len ≤ length (bytes_of self.new area)) }
        ensures same { image_of self.new ≡ image_of self.old }
    {
        match area {
            Area::Pages => grow(&mut self.pages, len),
            Area::Journal => grow(&mut self.journal, len),
        }
    }

    // Writes within the stored bytes.
    pub(crate) fn write(&mut self, area: Area, at: usize, bytes: &[u8])
        requires { at + length bytes.now ≤ length (bytes_of self.old area) }
        ensures { image_of self.new ≡ overwritten (range_of area at (length bytes.now)) bytes.now (image_of self.old) }
    {
        match area {
            Area::Pages => put(&mut self.pages, at, bytes),
            Area::Journal => put(&mut self.journal, at, bytes),
        }
    }

    // Fills a range within the stored bytes with one byte.
    pub(crate) fn fill(&mut self, area: Area, at: usize, len: usize, byte: u8)
        requires { at + len ≤ length (bytes_of self.old area) }
        ensures { image_of self.new ≡ filled (range_of area at len ∷ []) byte (image_of self.old) }
    {
        match area {
            Area::Pages => fill(&mut self.pages, at, len, byte),
            Area::Journal => fill(&mut self.journal, at, len, byte),
        }
    }

    // Copies an area from other areas.
    pub(crate) fn take_over(
        &mut self,
        alloc: Global,
        area: Area,
        from: &Areas,
    ) -> Result<(), AllocError>
        ensures { OnOk result (image_of self.new ≡ with_area area (image_of from.now) (image_of self.old)) }
    {
        let bytes = from.bytes(area).to_vec(alloc)?;
        match area {
            Area::Pages => self.pages = bytes,
            Area::Journal => self.journal = bytes,
        }
        Ok(())
    }
}
