//! Opens the files of a store.
use crate::store_file::{KeptFile, StoreFile};
use crate::trouble::Cause;
use std::fs::{File, Metadata};
use std::io::{self, ErrorKind};
use std::os::unix::fs::MetadataExt;
use std::path::Path;
use std::rt::Files;

// Accepts a name only if there is a regular file at it, or nothing. A folder, and what cannot be looked at, are left for the open call
// to refuse, which gives the system's own message.
fn refuse_others(found: io::Result<Metadata>) -> Result<(), Cause> {
    match found {
        Ok(found) if found.is_symlink() => Err(Cause::Link),
        Ok(found) if !found.is_file() && !found.is_dir() => Err(Cause::NotAFile),
        _ => Ok(()),
    }
}

// Opens a file, creates it if it does not exist, and locks it.
fn open_locked<F: StoreFile, R: Files<File = F>>(rt: &R, path: &str) -> Result<F, Cause> {
    let mut file = File::options()
        .read(true)
        .write(true)
        .create(true)
        .open(rt, path)
        .map_err(|error| Cause::System(error))?;
    // Output for a standard stream that was closed must not reach the store.
    if file.is_stream() {
        file = file.other_handle().map_err(|error| Cause::System(error))?;
    }
    match file.take_lock() {
        Ok(()) => Ok(file),
        Err(error) if error.kind() == ErrorKind::WouldBlock => Err(Cause::InUse),
        // The file system has no locks.
        Err(error) if error.kind() == ErrorKind::Unsupported => Ok(file),
        Err(error) => Err(Cause::Lock(error)),
    }
}

// Opens and locks the file of pages. A link is followed, and a dangling one creates its target.
pub(crate) fn open_pages<F: StoreFile, R: Files<File = F>>(rt: &R, path: &str) -> Result<F, Cause> {
    refuse_others(rt.metadata(path))?;
    open_locked(rt, path)
}

// Opens and locks the journal. A link is not followed.
pub(crate) fn open_journal<F: StoreFile, R: Files<File = F>>(
    rt: &R,
    path: &str,
) -> Result<F, Cause> {
    refuse_others(rt.symlink_metadata(path))?;
    open_locked(rt, path)
}

// Accepts an open file if it is a regular file that is at the path itself and has no other name.
pub(crate) fn named_once<F: StoreFile, R: Files<File = F>>(
    rt: &R,
    path: &str,
    mut file: F,
) -> Result<KeptFile<F>, Cause> {
    let found = file.look().map_err(|error| Cause::System(error))?;
    let named = rt
        .symlink_metadata(path)
        .map_err(|error| Cause::System(error))?;
    if !found.is_file() {
        return Err(Cause::NotAFile);
    }
    if found.nlink() > 1 {
        return Err(Cause::Names);
    }
    if found.dev() != named.dev() || found.ino() != named.ino() {
        return Err(Cause::Moved);
    }
    Ok(KeptFile::new(file, found.len()))
}

fn sync_folder<F: StoreFile, R: Files<File = F>>(rt: &R, path: &str) -> io::Result<()> {
    let folder = match Path::new(path).parent() {
        Some(folder) => folder.as_str(),
        None => "/",
    };
    let mut folder = File::open(rt, folder)?;
    folder.sync_entries()
}

// Whether the system reports that the folder cannot be synced at all, and not that a sync failed. Its file system has no such call, or
// the folder may not be read.
fn cannot_sync(error: &io::Error) -> bool {
    matches!(
        error.kind(),
        ErrorKind::Unsupported | ErrorKind::InvalidInput | ErrorKind::PermissionDenied
    )
}

// Makes the folder's entries of both files safe. Without this, a file that was created may be gone after a crash. It is done at each
// opening, since a process that crashed may have created the file and not come this far.
//
// A file without bytes may be new, so it is refused if this fails. If both files have bytes, an earlier process came past this point,
// or the user put the files there. Then the store is accepted if the system reports that the folder cannot be synced.
pub(crate) fn settle_folder<F: StoreFile, R: Files<File = F>>(
    rt: &R,
    path: &str,
    is_new: bool,
) -> Result<(), Cause> {
    match sync_folder(rt, path) {
        Ok(()) => Ok(()),
        Err(error) if !is_new && cannot_sync(&error) => Ok(()),
        Err(error) => Err(Cause::Folder(error)),
    }
}
