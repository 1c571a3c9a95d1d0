//! One open file of a store.
ghost use Rattle.std.specs.Prelude.{◌≡◌, ◌≤◌, ◌<◌, ◌^◌, ◌+◌, true, false, length, is_ok, IfOk, OnOk, OnErr, None};
ghost use Rattle.std_devices.specs.FileCalls.{FileCall, Calls, noted, checked, FailsToWrite, FailsToSync, OnlyReads};

use crate::trouble::Cause;
use std::fs::{File, Metadata};
use std::io::{self, ErrorKind};
use std::os::fd::AsRawFd;
use std::os::unix::fs::{FileExt, MetadataExt};

/// An open file, of the system or of a test.
///
/// Each call is added to the calls made so far, with whether it succeeded. The system's files keep no list of them.
pub trait StoreFile: Drop {
    /// The calls made of this file so far, the newest first, or `None` if they are not known.
    ghost made: { Self → Calls };

    /// Locks the whole file against other processes, without waiting.
    ///
    /// The error's kind is `WouldBlock` if another process has the lock, and `Unsupported` if the file system has no locks.
    fn take_lock(&mut self) -> io::Result<()>
        ensures made { made self.new ≡ noted (FileCall.locked (is_ok result)) (made self.old) };

    /// Returns whether the file has the descriptor of a standard stream, one that was closed when the program began.
    fn is_stream(&self) -> bool;

    /// Returns another handle of the same open file.
    fn other_handle(&self) -> io::Result<Self>
    where
        Self: Sized,
        ensures made { IfOk result (λ file. made file ≡ made self.now) };

    /// Returns the file's kind, length and count of names.
    fn look(&mut self) -> io::Result<Metadata>
        ensures made { made self.new ≡ noted FileCall.looked (made self.old) };

    /// Reads some bytes from offset `at` on, and returns how many. It is 0 at the end of the file.
    fn read_some(&mut self, at: u64, buf: &mut [u8]) -> io::Result<usize>
        ensures made { made self.new ≡ noted (FileCall.read at (length buf.old) (is_ok result)) (made self.old) }
        ensures count { IfOk result (λ n. n ≤ length buf.old) };

    /// Writes all of the bytes at offset `at`.
    fn write_whole(&mut self, at: u64, bytes: &[u8]) -> io::Result<()>
        ensures made { made self.new ≡ noted (FileCall.wrote at bytes.now (is_ok result)) (made self.old) };

    /// Makes the file's bytes and its length safe.
    fn sync_bytes(&mut self) -> io::Result<()>
        ensures made { made self.new ≡ noted (FileCall.synced (is_ok result)) (made self.old) };

    /// Makes an open folder's entries safe.
    fn sync_entries(&mut self) -> io::Result<()>
        ensures made { made self.new ≡ noted (FileCall.synced (is_ok result)) (made self.old) };
}

impl StoreFile for File {
    ghost made = { λ _. None };

    fn take_lock(&mut self) -> io::Result<()> {
        self.try_lock().map_err(|error| io::Error::from(error))
    }

    fn is_stream(&self) -> bool {
        self.as_raw_fd() <= 2
    }

    fn other_handle(&self) -> io::Result<File> {
        self.try_clone()
    }

    fn look(&mut self) -> io::Result<Metadata> {
        self.metadata()
    }

    fn read_some(&mut self, at: u64, buf: &mut [u8]) -> io::Result<usize> {
        self.read_at(buf, at)
    }

    fn write_whole(&mut self, at: u64, bytes: &[u8]) -> io::Result<()> {
        self.write_all_at(bytes, at)
    }

    fn sync_bytes(&mut self) -> io::Result<()> {
        self.sync_data()
    }

    fn sync_entries(&mut self) -> io::Result<()> {
        self.sync_all()
    }
}

// A file that is open and locked.
#[derive(Drop)]
pub(crate) struct KeptFile<F: StoreFile> {
    file: F,
    // The least length of the file: its length when it was opened, or the end of a later write.
    len: u64,
    // Whether the file was found whole since the last sync, and before the first write after it.
    is_whole: bool,
}

impl<F: StoreFile> KeptFile<F> {
    pub(crate) fn new(file: F, len: u64) -> KeptFile<F>
        ensures file { result.file ≡ file }
        ensures len { result.len ≡ len }
    {
        KeptFile {
            file,
            len,
            is_whole: false,
        }
    }

    pub(crate) fn is_empty(&self) -> bool {
        self.len == 0
    }

    // Reads from offset `at` on, with zeros past the end. Fails if the file ends before the length that it had.
    pub(crate) fn read(&mut self, at: u64, buf: &mut [u8]) -> Result<(), Cause>
        requires { at + length buf.old < 2 ^ 48 }
        ensures read { OnlyReads at (length buf.old) (F.made self.old.file) (F.made self.new.file) }
        ensures whole { self.new.is_whole ≡ self.old.is_whole }
    {
        let mut done = 0;
        for _ in 0..u64::MAX {
            if done >= buf.len() {
                return Ok(());
            }
            match self.file.read_some(at + done as u64, &mut buf[done..]) {
                Ok(0) if at + (done as u64) < self.len => return Err(Cause::Cut),
                Ok(0) => {
                    buf[done..].fill(0);
                    return Ok(());
                }
                Ok(n) => done += n,
                Err(error) if error.kind() == ErrorKind::Interrupted => {}
                Err(error) => return Err(Cause::System(error)),
            }
        }
        Err(Cause::System(io::Error::from(ErrorKind::TimedOut)))
    }

    // Checks that the file has its whole length and a name. It is a call of the system.
    fn check_whole(&mut self) -> Result<(), Cause>
        ensures looked { F.made self.new.file ≡ noted FileCall.looked (F.made self.old.file) }
        ensures len { self.new.len ≡ self.old.len }
        ensures whole { self.new.is_whole ≡ self.old.is_whole }
    {
        let found = self.file.look().map_err(|error| Cause::System(error))?;
        if found.len() < self.len {
            return Err(Cause::Cut);
        }
        if found.nlink() == 0 {
            return Err(Cause::Moved);
        }
        Ok(())
    }

    // Writes all of the bytes at offset `at`. Before the first write after a sync the file is checked: a write past the end of a file that
    // was cut would give it its length again, with zeros for what it lost.
    pub(crate) fn write(&mut self, at: u64, bytes: &[u8]) -> Result<(), Cause>
        ensures wrote { OnOk result (F.made self.new.file ≡ noted (FileCall.wrote at bytes.now true) (checked self.old.is_whole (F.made self.old.file))) }
        ensures failed { OnErr result (FailsToWrite at bytes.now self.old.is_whole (F.made self.old.file) (F.made self.new.file)) }
        ensures whole { OnOk result (self.new.is_whole ≡ true) }
    {
        if !self.is_whole {
            self.check_whole()?;
            self.is_whole = true;
        }
        match self.file.write_whole(at, bytes) {
            Ok(()) => {
                self.len = self.len.max(at.saturating_add(bytes.len() as u64));
                Ok(())
            }
            Err(error) => Err(Cause::System(error)),
        }
    }

    // Makes the whole file safe: its bytes and its length, but not the times that the system keeps of it.
    // Then checks it.
    pub(crate) fn sync(&mut self) -> Result<(), Cause>
        ensures synced { OnOk result (F.made self.new.file ≡ noted FileCall.looked (noted (FileCall.synced true) (F.made self.old.file))) }
        ensures failed { OnErr result (FailsToSync (F.made self.old.file) (F.made self.new.file)) }
        ensures whole { self.new.is_whole ≡ false }
    {
        self.is_whole = false;
        self.file
            .sync_bytes()
            .map_err(|error| Cause::System(error))?;
        self.check_whole()
    }
}
