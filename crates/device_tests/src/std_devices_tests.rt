//! Tests the devices with readers and writers that give and take little at a time.
use crate::calls::{fills, gives, holds};
use disk_model::{Area, Failed, Station};
use std::io::{self, ErrorKind, Read, Write};
use std::test::Fail;
use std_devices::{ScratchStation, StdSource};

// A reader and a writer of at most two bytes a call. A signal interrupts the second call, the fourth call fails, and the sixth write
// takes nothing.
#[derive(Drop)]
struct Halting {
    bytes: Vec<u8>,
    at: usize,
    calls: usize,
}

impl Halting {
    fn fault(&mut self) -> Option<ErrorKind> {
        self.calls = self.calls.saturating_add(1);
        match self.calls {
            2 => Some(ErrorKind::Interrupted),
            4 => Some(ErrorKind::BrokenPipe),
            _ => None,
        }
    }
}

impl Read for Halting {
    fn read(&mut self, buf: &mut [u8]) -> io::Result<usize> {
        if let Some(kind) = self.fault() {
            return Err(kind.into());
        }
        let at = self.at.min(self.bytes.len());
        let n = buf.len().min(2).min(self.bytes.len() - at);
        buf[..n].copy_from_slice(&self.bytes[at..at + n]);
        self.at = at + n;
        Ok(n)
    }
}

impl Write for Halting {
    fn write(&mut self, buf: &[u8]) -> io::Result<usize> {
        if let Some(kind) = self.fault() {
            return Err(kind.into());
        }
        let n = if self.calls == 6 { 0 } else { buf.len().min(2) };
        self.bytes.extend_from_slice(&buf[..n])?;
        Ok(n)
    }

    fn flush(&mut self) -> io::Result<()> {
        Ok(())
    }
}

// What each read gives: how many bytes, or a failure, and the bytes.
static READ: [(Result<usize, Failed>, &[u8]); 5] = [
    (Ok(2), b"ab"),
    (Ok(2), b"cd"),
    (Err(Failed), b""),
    (Ok(1), b"e"),
    (Ok(0), b""),
];

#[test]
fn a_source_gives_what_its_reader_gives(rt: HostRuntime) -> Result<(), Fail> {
    let mut source = StdSource::new(Halting {
        bytes: b"abcde".to_vec(rt.alloc())?,
        at: 0,
        calls: 0,
    });
    for &(read, piece) in &READ {
        assert!(rt; gives(&mut source, read, piece));
    }
    Ok(())
}

// Pieces, and how many bytes of each are written.
static SAID: [(&[u8], Result<usize, Failed>); 5] = [
    (b"one", Ok(2)),
    (b"e", Ok(1)),
    (b"two", Err(Failed)),
    (b"two", Ok(2)),
    (b"o", Err(Failed)),
];

#[test]
fn a_scratch_station_keeps_its_areas_and_says_pieces(rt: HostRuntime) {
    let mut station = ScratchStation::new(
        rt.alloc(),
        Halting {
            bytes: Vec::new(rt.alloc()),
            at: 0,
            calls: 0,
        },
    );
    assert!(rt; holds(&mut station, Area::Pages, 4096, &[0; 6]));
    assert!(rt; fills(&mut station));
    assert!(rt; holds(&mut station, Area::Journal, 0, b"jk\0\0\0\0"));
    for (piece, said) in &SAID {
        assert!(rt; station.say(piece) == *said);
    }
}
