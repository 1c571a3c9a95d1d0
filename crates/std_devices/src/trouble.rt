//! Why a call on the files of a store failed, in words.
ghost use Rattle.std.specs.Prelude.{◌≡◌, ◌++◌, codes, string_bytes, IfOk};

use disk_model::Area;
use spatial_base::Memory;
use std::alloc::Global;
use std::io::{self, ErrorKind};

/// What was wrong with a file of a store.
#[derive(Clone, Copy)]
pub enum Cause {
    /// The system refused to open, to read, to write or to sync it.
    System(io::Error),
    /// The system refused to lock it, and its file system has locks.
    Lock(io::Error),
    /// The system could not give its path without links, or the path is not UTF-8.
    Path(io::Error),
    /// The system could not make its entry in the folder safe.
    Folder(io::Error),
    /// Another process has it locked.
    InUse,
    /// It is a device, a pipe, a socket or a folder.
    NotAFile,
    /// There is a symbolic link at the name of the journal.
    Link,
    /// It has more than one hard link.
    Names,
    /// It was removed, or another file took its name.
    Moved,
    /// It is shorter than what was read of it or written to it.
    Cut,
}

/// Why a call on the files of a store failed: the file and the cause.
#[derive(Clone, Copy)]
pub struct FileTrouble {
    /// STORE for the pages, STORE.journal for the journal.
    pub area: Area,
    /// What was wrong with it.
    pub cause: Cause,
}

/// Returns the path of a store's journal, beside its file of pages.
///
/// Refuses only with `Memory`.
pub fn journal_of(alloc: Global, pages: &str) -> Result<String, Memory>
    ensures { IfOk result (λ journal. string_bytes journal ≡ pages.now ++ codes ".journal") }
{
    let mut journal = String::from_str(alloc, pages).map_err(|_| Memory)?;
    journal.push_str(".journal").map_err(|_| Memory)?;
    Ok(journal)
}

// A path as one line, with a question mark for each control character.
fn one_line(alloc: Global, path: &str) -> Result<String, Memory> {
    let mut line = String::new(alloc);
    for c in path.chars() {
        line.push(if c.is_control() { '?' } else { c })
            .map_err(|_| Memory)?;
    }
    Ok(line)
}

// What to do if the system refuses a call on a file.
fn advice_for(kind: ErrorKind) -> &'static str {
    match kind {
        ErrorKind::PermissionDenied => {
            "make the file and its folder writable and each folder above it searchable, or name another store"
        }
        ErrorKind::ReadOnlyFilesystem => "name a store on a file system that can be written",
        ErrorKind::StorageFull | ErrorKind::QuotaExceeded => "make room on its disk, and run again",
        ErrorKind::FileTooLarge => "raise the limit on the size of a file, and run again",
        ErrorKind::NotFound => "make its folder, or name another store",
        ErrorKind::NotADirectory | ErrorKind::IsADirectory => "name a file in a folder",
        ErrorKind::FilesystemLoop => "name the file that the link is for",
        ErrorKind::InvalidFilename => "name a store with a shorter path",
        ErrorKind::ExecutableFileBusy => "it is a program that runs: name another store",
        ErrorKind::OutOfMemory => "give the program more memory",
        _ => "look at its disk, and run again: the next run reads what the disk kept",
    }
}

// What to do if the system cannot make a folder safe.
fn folder_advice_for(kind: ErrorKind) -> &'static str {
    match kind {
        ErrorKind::PermissionDenied => "make the folder readable, or name another store",
        ErrorKind::Unsupported | ErrorKind::InvalidInput => {
            "name a store on a file system that can sync a folder"
        }
        kind => advice_for(kind),
    }
}

// What to do if the system cannot give a path without links.
fn path_advice_for(kind: ErrorKind) -> &'static str {
    match kind {
        ErrorKind::PermissionDenied => "open each folder above it to search, or name another store",
        ErrorKind::OutOfMemory => advice_for(kind),
        _ => "name a store whose whole path is UTF-8",
    }
}

impl Cause {
    // What is wrong with the file.
    fn what(&self, alloc: Global) -> Result<String, Memory> {
        let text = match self {
            Cause::System(error) => format!(in alloc; "{}", error),
            Cause::Lock(error) => format!(in alloc; "it can't be locked: {}", error),
            Cause::Path(error) => {
                format!(in alloc; "the path without links can't be told: {}", error)
            }
            Cause::Folder(error) => format!(in alloc; "its folder can't be made safe: {}", error),
            Cause::InUse => format!(in alloc; "another process has the store open"),
            Cause::NotAFile => format!(in alloc; "it is a device, a pipe or a folder"),
            Cause::Link => format!(in alloc; "it is a symbolic link"),
            Cause::Names => format!(in alloc; "it has more than one hard link"),
            Cause::Moved => format!(in alloc; "it was removed, or another file took its name"),
            Cause::Cut => format!(in alloc; "it was cut short while it was open"),
        };
        text.map_err(|_| Memory)
    }

    // What to do about it.
    fn advice(&self) -> &'static str {
        match self {
            Cause::System(error) => advice_for(error.kind()),
            Cause::Lock(_) => "look at the file system's locks, or name a store elsewhere",
            Cause::Path(error) => path_advice_for(error.kind()),
            Cause::Folder(error) => folder_advice_for(error.kind()),
            Cause::InUse => "wait for it to end",
            Cause::NotAFile => "name a file",
            Cause::Link => "put the journal itself beside its store",
            Cause::Names => "leave it one name, or copy it",
            Cause::Moved => "put the store and its journal back, and run again",
            Cause::Cut => "take the store and its journal from a copy",
        }
    }
}

impl FileTrouble {
    /// Returns the line `PATH: WHAT; ADVICE`, without an LF: the file, the system's message or what the file is, and what to do.
    ///
    /// `store` is the path of the file of pages. Refuses only with `Memory`.
    pub fn line(&self, alloc: Global, store: &str) -> Result<String, Memory> {
        let path = match self.area {
            Area::Pages => one_line(alloc, store)?,
            Area::Journal => journal_of(alloc, &one_line(alloc, store)?)?,
        };
        let what = self.cause.what(alloc)?;
        format!(in alloc;
            "{}: {}; {}",
            path.as_str(),
            what.as_str(),
            self.cause.advice()
        )
        .map_err(|_| Memory)
    }
}
