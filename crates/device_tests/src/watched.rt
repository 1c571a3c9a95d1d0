//! The system's files, with a record of each call and one call that a test makes fail.
ghost use Rattle.std.specs.Prelude.{None};

use std::alloc::Allocator;
use std::cell::{Cell, RefCell};
use std::fs::{File, Metadata, OpenFile, OpenOptions, Permissions};
use std::io::{self, ErrorKind, PipeReader, PipeWriter, Read, Seek, SeekFrom, Write};
use std::os::fd::BorrowedFd;
use std::os::unix::fs::FileExt;
use std::os::unix::net::SocketAddr;
use std::path::PathBuf;
use std::rt::Files;
use std_devices::StoreFile;

// The call that fails: its two letters, its number among such calls, and the system's error, or 0 for a write that takes nothing.
//
// The first letter is the call: open, lock, metadata, read, write or sync. The second is the file: pages, journal, or the directory of both.
#[derive(Clone, Copy)]
pub(crate) struct Plan {
    pub(crate) call: &'static str,
    pub(crate) nth: u32,
    pub(crate) code: i32,
}

// The calls made, two letters each, and the call that fails.
#[derive(Drop)]
pub(crate) struct Notes {
    calls: RefCell<Vec<u8>>,
    plan: Plan,
    met: Cell<u32>,
}

impl Notes {
    pub(crate) fn new(calls: Vec<u8>, plan: Plan) -> Notes {
        Notes {
            calls: RefCell::new(calls),
            plan,
            met: Cell::new(0),
        }
    }

    // Notes a call, and returns the system's error if it is the call that fails.
    fn note(&self, kind: u8, of: u8) -> io::Result<Option<i32>> {
        if let Ok(mut calls) = self.calls.try_borrow_mut() {
            calls.extend_from_slice(&[kind, of, b' '])?;
        }
        if self.plan.call.as_bytes() != [kind, of].as_slice() {
            return Ok(None);
        }
        let met = self.met.get().saturating_add(1);
        self.met.set(met);
        Ok((met == self.plan.nth).then_some(self.plan.code))
    }

    // Notes a call, and fails if it is the call that fails.
    fn call(&self, kind: u8, of: u8) -> io::Result<()> {
        match self.note(kind, of)? {
            Some(code) => Err(io::Error::from_raw_os_error(code)),
            None => Ok(()),
        }
    }

    // Whether exactly these calls were made.
    pub(crate) fn are(&self, calls: &str) -> bool {
        match self.calls.try_borrow() {
            Ok(made) => made.as_slice() == calls.as_bytes(),
            Err(_) => false,
        }
    }

    // Whether the last call was this one.
    pub(crate) fn end_in(&self, call: &str) -> bool {
        match self.calls.try_borrow() {
            Ok(made) => made.trim_ascii_end().ends_with(call.as_bytes()),
            Err(_) => false,
        }
    }
}

// The files of a runtime, watched.
#[derive(Drop)]
pub(crate) struct Watched<'a, R: Files<File = File>> {
    pub(crate) rt: &'a R,
    pub(crate) notes: &'a Notes,
}

// An open file. It reads and writes at most three bytes a call.
#[derive(Drop)]
pub(crate) struct WatchedFile<'a> {
    file: File,
    of: u8,
    notes: &'a Notes,
}

fn unsupported<T>() -> io::Result<T> {
    Err(io::Error::from(ErrorKind::Unsupported))
}

impl<'a, R: Files<File = File>> Files for Watched<'a, R> {
    type File = WatchedFile<'a>;

    type Dir = R::Dir;

    fn open_file(&self, how: &OpenOptions, path: &str) -> io::Result<WatchedFile<'a>> {
        let of = if path.ends_with(".journal") {
            b'j'
        } else if how.asks_write() {
            b'p'
        } else {
            b'd'
        };
        self.notes.call(b'o', of)?;
        Ok(WatchedFile {
            file: self.rt.open_file(how, path)?,
            of,
            notes: self.notes,
        })
    }

    fn open_dir(&self, path: &str) -> io::Result<R::Dir> {
        self.rt.open_dir(path)
    }

    fn metadata(&self, path: &str) -> io::Result<Metadata> {
        self.rt.metadata(path)
    }

    fn symlink_metadata(&self, path: &str) -> io::Result<Metadata> {
        self.rt.symlink_metadata(path)
    }

    fn copy(&self, _from: &str, _to: &str) -> io::Result<u64> {
        unsupported()
    }

    fn rename(&self, _from: &str, _to: &str) -> io::Result<()> {
        unsupported()
    }

    fn remove_file(&self, _path: &str) -> io::Result<()> {
        unsupported()
    }

    fn create_dir(&self, _path: &str) -> io::Result<()> {
        unsupported()
    }

    fn remove_dir(&self, _path: &str) -> io::Result<()> {
        unsupported()
    }

    fn remove_dir_all<B: Allocator>(&self, _alloc: B, _path: &str) -> io::Result<()> {
        unsupported()
    }

    fn canonicalize<B: Allocator>(&self, alloc: B, path: &str) -> io::Result<PathBuf<B>> {
        self.rt.canonicalize(alloc, path)
    }

    fn read_link<B: Allocator>(&self, _alloc: B, _path: &str) -> io::Result<PathBuf<B>> {
        unsupported()
    }

    fn hard_link(&self, _original: &str, _link: &str) -> io::Result<()> {
        unsupported()
    }

    fn set_permissions(&self, _path: &str, _perm: Permissions) -> io::Result<()> {
        unsupported()
    }

    fn symlink(&self, _original: &str, _link: &str) -> io::Result<()> {
        unsupported()
    }

    fn pipe(&self) -> io::Result<(PipeReader, PipeWriter)> {
        unsupported()
    }

    fn chown(&self, _path: &str, _uid: Option<u32>, _gid: Option<u32>) -> io::Result<()> {
        unsupported()
    }

    fn lchown(&self, _path: &str, _uid: Option<u32>, _gid: Option<u32>) -> io::Result<()> {
        unsupported()
    }

    fn create_dir_with_mode(&self, _path: &str, _mode: u32) -> io::Result<()> {
        unsupported()
    }

    fn bind_unix(&self, _socket: BorrowedFd<'_>, _addr: &SocketAddr) -> io::Result<()> {
        unsupported()
    }
}

impl<'a> Read for WatchedFile<'a> {
    fn read(&mut self, buf: &mut [u8]) -> io::Result<usize> {
        self.file.read(buf)
    }
}

impl<'a> Write for WatchedFile<'a> {
    fn write(&mut self, buf: &[u8]) -> io::Result<usize> {
        self.file.write(buf)
    }

    fn flush(&mut self) -> io::Result<()> {
        Ok(())
    }
}

impl<'a> Seek for WatchedFile<'a> {
    fn seek(&mut self, to: SeekFrom) -> io::Result<u64> {
        self.file.seek(to)
    }
}

impl<'a> OpenFile for WatchedFile<'a> {
    fn metadata(&self) -> io::Result<Metadata> {
        self.file.metadata()
    }

    fn set_len(&self, size: u64) -> io::Result<()> {
        self.file.set_len(size)
    }

    fn sync_all(&self) -> io::Result<()> {
        self.file.sync_all()
    }

    fn sync_data(&self) -> io::Result<()> {
        self.file.sync_data()
    }
}

impl<'a> StoreFile for WatchedFile<'a> {
    ghost made = { λ _. None };

    fn take_lock(&mut self) -> io::Result<()> {
        self.notes.call(b'l', self.of)?;
        self.file.take_lock()
    }

    fn is_stream(&self) -> bool {
        self.file.is_stream()
    }

    fn other_handle(&self) -> io::Result<WatchedFile<'a>> {
        Ok(WatchedFile {
            file: self.file.other_handle()?,
            of: self.of,
            notes: self.notes,
        })
    }

    fn look(&mut self) -> io::Result<Metadata> {
        self.notes.call(b'm', self.of)?;
        self.file.look()
    }

    fn read_some(&mut self, at: u64, buf: &mut [u8]) -> io::Result<usize> {
        self.notes.call(b'r', self.of)?;
        let n = buf.len().min(3);
        self.file.read_some(at, &mut buf[..n])
    }

    fn write_whole(&mut self, at: u64, bytes: &[u8]) -> io::Result<()> {
        self.write_all_at(bytes, at)
    }

    fn sync_bytes(&mut self) -> io::Result<()> {
        self.notes.call(b's', self.of)?;
        self.file.sync_bytes()
    }

    fn sync_entries(&mut self) -> io::Result<()> {
        self.notes.call(b's', self.of)?;
        self.file.sync_entries()
    }
}

impl<'a> FileExt for WatchedFile<'a> {
    fn read_at(&self, buf: &mut [u8], offset: u64) -> io::Result<usize> {
        self.file.read_at(buf, offset)
    }

    fn write_at(&self, buf: &[u8], offset: u64) -> io::Result<usize> {
        match self.notes.note(b'w', self.of)? {
            Some(0) => Ok(0),
            Some(code) => Err(io::Error::from_raw_os_error(code)),
            None => self.file.write_at(&buf[..buf.len().min(3)], offset),
        }
    }
}
