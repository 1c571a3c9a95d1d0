//! The two files of a store, opened at the first call.
ghost use Rattle.std.specs.Prelude.{◌≡◌, ◌<◌, ◌^◌, ◌+◌, true, false, length, string_bytes, IfOk, OnOk, OnErr, IsSome, IsOk, ◌↔◌, None};
ghost use Rattle.std_devices.specs.FileCalls.{FileCall, noted, checked, FailsToWrite, FailsToSync, OnlyReads};
ghost use Rattle.std_devices.specs.Opened.{made_in, made_of, whole_in, whole_of, other};

use crate::opening::{named_once, open_journal, open_pages, settle_folder};
use crate::store_file::{KeptFile, StoreFile};
use crate::trouble::{Cause, FileTrouble, journal_of};
use disk_model::Area;
use spatial_base::Memory;
use std::alloc::Global;
use std::fs::File;
use std::io::{self, ErrorKind};
use std::rt::Files;

// Both files. They are locked until they are dropped.
#[derive(Drop)]
struct OpenFiles<F: StoreFile> {
    pages: KeptFile<F>,
    journal: KeptFile<F>,
}

impl<F: StoreFile> OpenFiles<F> {
    fn read(&mut self, area: Area, at: u64, buf: &mut [u8]) -> Result<(), Cause>
        requires { at + length buf.old < 2 ^ 48 }
        ensures read { OnlyReads at (length buf.old) (made_in F.made area self.old) (made_in F.made area self.new) }
        ensures other { made_in F.made (other area) self.new ≡ made_in F.made (other area) self.old }
    {
        match area {
            Area::Pages => self.pages.read(at, buf),
            Area::Journal => self.journal.read(at, buf),
        }
    }

    fn write(&mut self, area: Area, at: u64, bytes: &[u8]) -> Result<(), Cause>
        ensures wrote { OnOk result (made_in F.made area self.new ≡ noted (FileCall.wrote at bytes.now true) (checked (whole_in area self.old) (made_in F.made area self.old))) }
        ensures failed { OnErr result (FailsToWrite at bytes.now (whole_in area self.old) (made_in F.made area self.old) (made_in F.made area self.new)) }
        ensures other { made_in F.made (other area) self.new ≡ made_in F.made (other area) self.old }
    {
        match area {
            Area::Pages => self.pages.write(at, bytes),
            Area::Journal => self.journal.write(at, bytes),
        }
    }

    fn sync(&mut self, area: Area) -> Result<(), Cause>
        ensures synced { OnOk result (made_in F.made area self.new ≡ noted FileCall.looked (noted (FileCall.synced true) (made_in F.made area self.old))) }
        ensures failed { OnErr result (FailsToSync (made_in F.made area self.old) (made_in F.made area self.new)) }
        ensures other { made_in F.made (other area) self.new ≡ made_in F.made (other area) self.old }
    {
        match area {
            Area::Pages => self.pages.sync(),
            Area::Journal => self.journal.sync(),
        }
    }
}

// Adds the area whose file it is to a cause.
fn of_area<T: Drop>(area: Area, outcome: Result<T, Cause>) -> Result<T, FileTrouble>
    ensures ok { IsOk result ↔ IsOk outcome }
{
    match outcome {
        Ok(value) => Ok(value),
        Err(cause) => Err(FileTrouble { area, cause }),
    }
}

fn no_memory() -> Cause {
    Cause::System(io::Error::from(ErrorKind::OutOfMemory))
}

// The files of a store: STORE, and its journal beside the file that STORE is once links are followed.
#[derive(Drop)]
pub(crate) struct StoreFiles<'a, R: Files<File = F>, F: StoreFile = File> {
    alloc: Global,
    rt: &'a R,
    // The path as it was given. Once the file is open, its own path.
    store: String,
    opened: Option<OpenFiles<F>>,
}

impl<'a, R: Files<File = F>, F: StoreFile> StoreFiles<'a, R, F> {
    // Returns the files before any call has opened them.
    pub(crate) fn new(alloc: Global, rt: &'a R, store: &str) -> Result<StoreFiles<'a, R, F>, Memory>
        ensures store { IfOk result (λ files. string_bytes files.store ≡ store.now) }
        ensures unopened { IfOk result (λ files. files.opened ≡ None) }
    {
        Ok(StoreFiles {
            alloc,
            rt,
            store: String::from_str(alloc, store).map_err(|_| Memory)?,
            opened: None,
        })
    }

    // Returns the path of the file of pages.
    pub(crate) fn store(&self) -> &str
        ensures { result.now ≡ string_bytes self.now.store }
    {
        &self.store
    }

    // Opens and locks the file of pages, and stores its path without links.
    fn open_pages(&mut self) -> Result<KeptFile<F>, Cause> {
        let file = open_pages(self.rt, &self.store)?;
        let path = self
            .rt
            .canonicalize(self.alloc, &self.store)
            .map_err(|error| Cause::Path(error))?;
        self.store = path.into_string();
        named_once(self.rt, &self.store, file)
    }

    fn open_journal(&self) -> Result<KeptFile<F>, Cause> {
        let path = journal_of(self.alloc, &self.store).map_err(|_| no_memory())?;
        let file = open_journal(self.rt, &path)?;
        named_once(self.rt, &path, file)
    }

    // Opens and locks both files, and makes their entries in the folder safe.
    fn open_both(&mut self) -> Result<OpenFiles<F>, FileTrouble> {
        let pages = of_area(Area::Pages, self.open_pages())?;
        let journal = of_area(Area::Journal, self.open_journal())?;
        let is_new = pages.is_empty() || journal.is_empty();
        of_area(Area::Pages, settle_folder(self.rt, &self.store, is_new))?;
        Ok(OpenFiles { pages, journal })
    }

    // Opens both files unless an earlier call has opened them.
    fn open(&mut self) -> Result<(), FileTrouble>
        ensures kept { IsSome self.old.opened → self.new.opened ≡ self.old.opened }
        ensures opened { IsSome self.old.opened → IsOk result }
    {
        if self.opened.is_none() {
            self.opened = Some(self.open_both()?);
        }
        Ok(())
    }

    pub(crate) fn read(&mut self, area: Area, at: u64, buf: &mut [u8]) -> Result<(), FileTrouble>
        requires { at + length buf.old < 2 ^ 48 }
        ensures read { IsSome self.old.opened → OnlyReads at (length buf.old) (made_of F.made area self.old.opened) (made_of F.made area self.new.opened) }
        ensures other { IsSome self.old.opened → made_of F.made (other area) self.new.opened ≡ made_of F.made (other area) self.old.opened }
    {
        self.open()?;
        let outcome = match &mut self.opened {
            Some(files) => files.read(area, at, buf),
            None => Err(no_memory()),
        };
        of_area(area, outcome)
    }

    pub(crate) fn write(&mut self, area: Area, at: u64, bytes: &[u8]) -> Result<(), FileTrouble>
        ensures wrote { IsSome self.old.opened → OnOk result (made_of F.made area self.new.opened ≡ noted (FileCall.wrote at bytes.now true) (checked (whole_of area self.old.opened) (made_of F.made area self.old.opened))) }
        ensures failed { IsSome self.old.opened → OnErr result (FailsToWrite at bytes.now (whole_of area self.old.opened) (made_of F.made area self.old.opened) (made_of F.made area self.new.opened)) }
        ensures other { IsSome self.old.opened → made_of F.made (other area) self.new.opened ≡ made_of F.made (other area) self.old.opened }
    {
        self.open()?;
        let outcome = match &mut self.opened {
            Some(files) => files.write(area, at, bytes),
            None => Err(no_memory()),
        };
        of_area(area, outcome)
    }

    pub(crate) fn sync(&mut self, area: Area) -> Result<(), FileTrouble>
        ensures synced { IsSome self.old.opened → OnOk result (made_of F.made area self.new.opened ≡ noted FileCall.looked (noted (FileCall.synced true) (made_of F.made area self.old.opened))) }
        ensures failed { IsSome self.old.opened → OnErr result (FailsToSync (made_of F.made area self.old.opened) (made_of F.made area self.new.opened)) }
        ensures other { IsSome self.old.opened → made_of F.made (other area) self.new.opened ≡ made_of F.made (other area) self.old.opened }
    {
        self.open()?;
        let outcome = match &mut self.opened {
            Some(files) => files.sync(area),
            None => Err(no_memory()),
        };
        of_area(area, outcome)
    }
}
