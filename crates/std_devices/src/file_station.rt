//! A disk over the files of a store, with standard output as its sink.
ghost use Rattle.std.specs.Prelude.{◌≡◌, ◌≤◌, ◌<◌, ◌^◌, ◌+◌, true, false, ◌↔◌, length, string_bytes, IfOk, IfErr, OnOk, OnErr, Some, None, IsErr, IsSome, IsTrue};
ghost use Rattle.disk_model.specs.World.{HasRead, HasWritten, HasSynced, HasSaid, HasDiskCause, HasSinkCause};
ghost use Rattle.std.specs.Io.KnownBytes.{WriteAppends};
ghost use Rattle.std.proofs.Common.{rules};
ghost use Rattle.std_devices.specs.Untold.{untold};
ghost use Rattle.std_devices.specs.FileCalls.{FileCall, noted, checked, FailsToWrite, FailsToSync, OnlyReads};
ghost use Rattle.std_devices.specs.Opened.{made_of, whole_of, other};

use crate::output::write_some;
use crate::store_file::StoreFile;
use crate::store_files::StoreFiles;
use crate::trouble::FileTrouble;
use disk_model::{Area, Disk, Failed, Station};
use spatial_base::Memory;
use std::alloc::Global;
use std::fs::File;
use std::io::Write;
use std::rt::{Files, Stdout};

/// How many pages the area `Pages` may have.
const ROOM: u32 = 4_194_304;

/// A station with its areas in the files STORE and STORE.journal, and standard output as its sink.
///
/// The first call of the disk opens the files, creates those that do not exist, and locks both until the station is dropped. If the file
/// system has locks, a second process that opens one of them gets a fault. A link to STORE is followed, and the journal is beside the file
/// itself. A file with more than one hard link is refused. The folder is made safe before the first byte is read. A read gives zeros past
/// a file's end, and fails if the file had bytes there before. A sync makes the file's bytes safe. Before the first write after a sync,
/// and after each sync, a call fails if the file was cut short or removed.
///
/// Contracts do not know the content. Each call that fails raises the count of its kind, and [`FileStation::trouble`] gives the reason.
/// After a call of the disk has failed, each later one fails too and reaches no file, because after a failed sync the system may have
/// dropped what was written.
#[derive(Drop)]
pub struct FileStation<'a, R: Files<File = F>, W: Write + Drop = Stdout, F: StoreFile = File> {
    files: StoreFiles<'a, R, F>,
    output: W,
    trouble: Option<FileTrouble>,
    faults: u64,
    sink_faults: u64,
}

impl<'a, R: Files<File = F>, W: Write + Drop, F: StoreFile> FileStation<'a, R, W, F> {
    /// Returns a station over the store at a path. No file is opened yet.
    ///
    /// Refuses only with `Memory`.
    pub fn new(
        alloc: Global,
        rt: &'a R,
        store: &str,
        output: W,
    ) -> Result<FileStation<'a, R, W, F>, Memory>
        ensures store { IfOk result (λ station. string_bytes station.files.store ≡ store.now) }
        ensures output { IfOk result (λ station. station.output ≡ output) }
        ensures faults { IfOk result (λ station. station.faults ≡ 0) }
        ensures sink_faults { IfOk result (λ station. station.sink_faults ≡ 0) }
        ensures trouble { IfOk result (λ station. station.trouble ≡ None) }
        ensures unopened { IfOk result (λ station. station.files.opened ≡ None) }
    {
        Ok(FileStation {
            files: StoreFiles::new(alloc, rt, store)?,
            output,
            trouble: None,
            faults: 0,
            sink_faults: 0,
        })
    }

    /// Returns why the first failed call of the disk failed, or `None` if none has failed.
    pub fn trouble(&self) -> Option<FileTrouble>
        ensures { result ≡ self.now.trouble }
    {
        self.trouble
    }

    /// Returns the line `PATH: WHAT; ADVICE`, without an LF, on why the first failed call of the disk failed, or `None` if none has
    /// failed.
    ///
    /// It has the file, the system's message or what the file is, and what to do. Refuses only with `Memory`.
    pub fn trouble_line(&self, alloc: Global) -> Result<Option<String>, Memory>
        ensures { IfOk result (λ line. IsSome line ↔ IsSome self.now.trouble) }
    {
        match self.trouble {
            Some(trouble) => Ok(Some(trouble.line(alloc, self.files.store())?)),
            None => Ok(None),
        }
    }

    // Refuses with the same cause if a call of the disk has failed before.
    fn goes_on(&self) -> Result<(), FileTrouble>
        ensures fails { IsSome self.now.trouble → IsErr result }
        ensures named { IfErr result (λ trouble. self.now.trouble ≡ Some trouble) }
    {
        match self.trouble {
            Some(trouble) => Err(trouble),
            None => Ok(()),
        }
    }

    // Counts a failure, and keeps its cause.
    fn counted(&mut self, outcome: Result<(), FileTrouble>) -> Result<(), Failed>
        ensures cause { HasDiskCause (untold self.old.faults self.old.sink_faults) (untold self.new.faults self.new.sink_faults) result }
        ensures failed { IsErr outcome ↔ IsErr result }
        ensures named { IfErr outcome (λ trouble. self.new.trouble ≡ Some trouble) }
        ensures trouble { IsErr result → IsSome self.new.trouble }
        ensures kept { OnOk result (self.new.trouble ≡ self.old.trouble) }
        ensures files { self.new.files ≡ self.old.files }
        ensures output { self.new.output ≡ self.old.output }
    {
        match outcome {
            Ok(()) => Ok(()),
            Err(trouble) => {
                self.trouble = Some(trouble);
                self.faults = self.faults.saturating_add(1);
                Err(Failed)
            }
        }
    }
}

impl<'a, R: Files<File = F>, W: Write + Drop, F: StoreFile> Disk for FileStation<'a, R, W, F> {
    ghost readable = { false };

    ghost world = { λ station. untold station.faults station.sink_faults };

    ghost room_of = { λ station. 4194304 };

    ghost leaves_seen = { λ station told. Prim.search rules };

    ghost counts_now = { λ station t image told. Prim.search rules };

    ghost only_now = { λ station image said told. Prim.search rules };

    fn room(&self) -> u32 {
        ROOM
    }

    fn read(&mut self, area: Area, at: u64, buf: &mut [u8]) -> Result<(), Failed>
        requires { at + length buf.old < 2 ^ 48 }
        ensures told { IsTrue false → HasRead area at buf.new (untold self.old.faults self.old.sink_faults) (untold self.new.faults self.new.sink_faults) result }
        ensures cause { HasDiskCause (untold self.old.faults self.old.sink_faults) (untold self.new.faults self.new.sink_faults) result }
        ensures trouble { IsErr result → IsSome self.new.trouble }
        ensures kept { OnOk result (self.new.trouble ≡ self.old.trouble) }
        ensures stopped { IsSome self.old.trouble → IsErr result }
        ensures first { IsSome self.old.trouble → (self.new.trouble ≡ self.old.trouble) × (self.new.files ≡ self.old.files) }
        ensures read { self.old.trouble ≡ None → IsSome self.old.files.opened → OnlyReads at (length buf.old) (made_of F.made area self.old.files.opened) (made_of F.made area self.new.files.opened) }
        ensures other { IsSome self.old.files.opened → made_of F.made (other area) self.new.files.opened ≡ made_of F.made (other area) self.old.files.opened }
        ensures output { self.new.output ≡ self.old.output }
    {
        let outcome = match self.goes_on() {
            Ok(()) => self.files.read(area, at, buf),
            Err(trouble) => Err(trouble),
        };
        self.counted(outcome)
    }

    fn write(&mut self, area: Area, at: u64, bytes: &[u8]) -> Result<(), Failed>
        requires { at + length bytes.now < 2 ^ 48 }
        ensures told { IsTrue false → HasWritten area at bytes.now (untold self.old.faults self.old.sink_faults) (untold self.new.faults self.new.sink_faults) result }
        ensures cause { HasDiskCause (untold self.old.faults self.old.sink_faults) (untold self.new.faults self.new.sink_faults) result }
        ensures trouble { IsErr result → IsSome self.new.trouble }
        ensures kept { OnOk result (self.new.trouble ≡ self.old.trouble) }
        ensures stopped { IsSome self.old.trouble → IsErr result }
        ensures first { IsSome self.old.trouble → (self.new.trouble ≡ self.old.trouble) × (self.new.files ≡ self.old.files) }
        ensures wrote { IsSome self.old.files.opened → OnOk result (made_of F.made area self.new.files.opened ≡ noted (FileCall.wrote at bytes.now true) (checked (whole_of area self.old.files.opened) (made_of F.made area self.old.files.opened))) }
        ensures failed { self.old.trouble ≡ None → IsSome self.old.files.opened → OnErr result (FailsToWrite at bytes.now (whole_of area self.old.files.opened) (made_of F.made area self.old.files.opened) (made_of F.made area self.new.files.opened)) }
        ensures other { IsSome self.old.files.opened → made_of F.made (other area) self.new.files.opened ≡ made_of F.made (other area) self.old.files.opened }
        ensures output { self.new.output ≡ self.old.output }
    {
        let outcome = match self.goes_on() {
            Ok(()) => self.files.write(area, at, bytes),
            Err(trouble) => Err(trouble),
        };
        self.counted(outcome)
    }

    fn sync(&mut self, area: Area) -> Result<(), Failed>
        ensures told { IsTrue false → HasSynced area (untold self.old.faults self.old.sink_faults) (untold self.new.faults self.new.sink_faults) result }
        ensures cause { HasDiskCause (untold self.old.faults self.old.sink_faults) (untold self.new.faults self.new.sink_faults) result }
        ensures trouble { IsErr result → IsSome self.new.trouble }
        ensures kept { OnOk result (self.new.trouble ≡ self.old.trouble) }
        ensures stopped { IsSome self.old.trouble → IsErr result }
        ensures first { IsSome self.old.trouble → (self.new.trouble ≡ self.old.trouble) × (self.new.files ≡ self.old.files) }
        ensures synced { IsSome self.old.files.opened → OnOk result (made_of F.made area self.new.files.opened ≡ noted FileCall.looked (noted (FileCall.synced true) (made_of F.made area self.old.files.opened))) }
        ensures failed { self.old.trouble ≡ None → IsSome self.old.files.opened → OnErr result (FailsToSync (made_of F.made area self.old.files.opened) (made_of F.made area self.new.files.opened)) }
        ensures other { IsSome self.old.files.opened → made_of F.made (other area) self.new.files.opened ≡ made_of F.made (other area) self.old.files.opened }
        ensures output { self.new.output ≡ self.old.output }
    {
        let outcome = match self.goes_on() {
            Ok(()) => self.files.sync(area),
            Err(trouble) => Err(trouble),
        };
        self.counted(outcome)
    }
}

impl<'a, R: Files<File = F>, W: Write + Drop, F: StoreFile> Station for FileStation<'a, R, W, F> {
    fn say(&mut self, bytes: &[u8]) -> Result<usize, Failed>
        requires { 0 < length bytes.now }
        ensures count { IfOk result (λ n. (0 < n) × (n ≤ length bytes.now)) }
        ensures told { IsTrue false → HasSaid bytes.now (untold self.old.faults self.old.sink_faults) (untold self.new.faults self.new.sink_faults) result }
        ensures cause { HasSinkCause (untold self.old.faults self.old.sink_faults) (untold self.new.faults self.new.sink_faults) result }
        ensures bytes { WriteAppends (W.contents self.old.output) (W.contents self.new.output) result bytes.now }
        ensures trouble { self.new.trouble ≡ self.old.trouble }
        ensures files { self.new.files ≡ self.old.files }
    {
        match write_some(&mut self.output, bytes) {
            Some(n) => Ok(n),
            None => {
                self.sink_faults = self.sink_faults.saturating_add(1);
                Err(Failed)
            }
        }
    }
}
