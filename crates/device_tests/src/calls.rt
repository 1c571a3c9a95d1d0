//! Calls that a test makes on a source and on a disk.
ghost use Rattle.std.specs.Prelude.{◌+◌, ◌<◌, ◌^◌};

use disk_model::{Area, Disk, Failed, Source};

// Whether a read gave this many bytes, or failed, and the bytes are these.
pub(crate) fn gives<S: Source>(source: &mut S, read: Result<usize, Failed>, piece: &[u8]) -> bool {
    let mut buf = [0; 8];
    source.read(&mut buf) == read && buf.starts_with(piece)
}

// Whether six bytes of an area at this offset are these.
pub(crate) fn holds<D: Disk>(disk: &mut D, area: Area, at: u64, bytes: &[u8; 6]) -> bool
    requires { at + 6 < 2 ^ 48 }
{
    let mut found = [9; 6];
    disk.read(area, at, &mut found).is_ok() && found == *bytes
}

// Whether a few bytes can be written to each area and made safe, and some be read again.
pub(crate) fn fills<D: Disk>(disk: &mut D) -> bool {
    disk.write(Area::Pages, 3, b"abcde").is_ok()
        && disk.sync(Area::Pages).is_ok()
        && disk.write(Area::Journal, 0, b"jk").is_ok()
        && disk.sync(Area::Journal).is_ok()
        && holds(disk, Area::Pages, 4, b"bcde\0\0")
}
