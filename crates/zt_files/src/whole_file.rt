//! Writes a file as a whole: replaces it at once where the system allows that, and overwrites it otherwise.

use crate::read_file::unopened;
use std::alloc::{AllocError, Global};
use std::fs::{File, Permissions};
use std::io::Write;
use std::{fs, io, process};
use zt_rows::Refusal;
use zt_words::Fault;

/// The part's name is the file's name, this, the process id, and the part's number.
const PART: &str = ".zxtt-part";

/// How many names of parts are tried before the file itself is overwritten.
const MOST_PARTS: u32 = 1000;

/// Writes the text to a file.
///
/// If the path is a regular file or does not exist, the text is first written to a part: a new file beside it. Nobody else has
/// this file. The part gets the old file's permissions, is synced, and is renamed to the path. Until then the old file is
/// unchanged. If no part can be made, as in a read-only folder, the file itself is truncated and overwritten. It is also
/// overwritten if the part cannot be renamed, as over a mount point. Anything that is not a regular file, such as a pipe or a
/// device, is written to directly.
///
/// # Errors
///
/// `Unopened` if the file cannot be opened for writing. `Refused` with `WriteFault` or `OutOfMemory` if a write or an allocation
/// fails. After both, the old file is unchanged unless it had to be overwritten. `Unwritten` if overwriting failed after a part
/// could not be renamed. The part has the whole text, and stays.
pub fn write_whole(rt: &HostRuntime, path: &str, text: &[u8]) -> Result<(), Fault> {
    match place_of(rt, path)? {
        Some(place) => replace(rt, path, place.as_str(), text),
        None => write_through(rt, path, text),
    }
}

/// Returns the path of a regular file behind all links, or this path if nothing is there. Returns `None` for anything else and
/// for an empty path.
fn place_of(rt: &HostRuntime, path: &str) -> Result<Option<String>, Fault> {
    match fs::canonicalize(rt, path) {
        Ok(place) => {
            if is_file(rt, place.as_str()) {
                owned(rt.alloc(), place.as_str())
            } else {
                Ok(None)
            }
        }
        Err(error) if error.kind() == io::ErrorKind::OutOfMemory => Err(Fault::of_memory()),
        Err(_) => {
            if path.is_empty() || fs::symlink_metadata(rt, path).is_ok() {
                Ok(None)
            } else {
                owned(rt.alloc(), path)
            }
        }
    }
}

fn is_file(rt: &HostRuntime, place: &str) -> bool {
    match fs::metadata(rt, place) {
        Ok(metadata) => metadata.is_file(),
        Err(_) => false,
    }
}

fn owned(alloc: Global, path: &str) -> Result<Option<String>, Fault> {
    match String::from_str(alloc, path) {
        Ok(path) => Ok(Some(path)),
        Err(_) => Err(Fault::of_memory()),
    }
}

/// Writes the text to a part beside the file, and renames the part to the file.
fn replace(rt: &HostRuntime, path: &str, place: &str, text: &[u8]) -> Result<(), Fault> {
    let old = match old_permissions(rt, place) {
        Ok(old) => old,
        Err(error) => return Err(unopened(rt.alloc(), path, error)),
    };
    let Some((part, file)) = new_part(rt, place)? else {
        return write_through(rt, path, text);
    };
    if fill(file, old, text).is_err() {
        let _ = fs::remove_file(rt, part.as_str());
        return Err(Fault::Refused(Refusal::WriteFault));
    }
    if fs::rename(rt, part.as_str(), place).is_err() {
        return write_behind(rt, path, part, text);
    }
    sync_folder(rt, place);
    Ok(())
}

/// Returns the permissions of the old file, or `None` if there is none. Fails if the old file cannot be opened for writing.
fn old_permissions(rt: &HostRuntime, place: &str) -> io::Result<Option<Permissions>> {
    match File::options().write(true).open(rt, place) {
        Ok(file) => Ok(Some(file.metadata()?.permissions())),
        Err(error) if error.kind() == io::ErrorKind::NotFound => Ok(None),
        Err(error) => Err(error),
    }
}

/// Makes a new file beside this one, and returns its path. It takes this process's first free name. Returns `None` if no part can
/// be made.
fn new_part(rt: &HostRuntime, place: &str) -> Result<Option<(String, File)>, Fault> {
    let process = process::id(rt.process());
    for number in 0..MOST_PARTS {
        let Ok(part) = part_of(rt.alloc(), place, process, number) else {
            return Err(Fault::of_memory());
        };
        match File::create_new(rt, part.as_str()) {
            Ok(file) => return Ok(Some((part, file))),
            Err(error) if error.kind() == io::ErrorKind::AlreadyExists => {}
            Err(_) => return Ok(None),
        }
    }
    Ok(None)
}

/// Returns the path of a part.
fn part_of(alloc: Global, place: &str, process: u32, number: u32) -> Result<String, AllocError> {
    format!(in alloc; "{place}{PART}-{process}-{number}")
}

/// Writes the text to a new file, and syncs it.
fn fill(file: File, permissions: Option<Permissions>, text: &[u8]) -> io::Result<()> {
    let mut file = file;
    if let Some(permissions) = permissions {
        file.set_permissions(permissions)?;
    }
    file.write_all(text)?;
    file.sync_all()
}

/// Overwrites the file after its part could not be renamed. If that succeeds, the part is removed.
fn write_behind(rt: &HostRuntime, path: &str, part: String, text: &[u8]) -> Result<(), Fault> {
    if write_through(rt, path, text).is_err() {
        return Err(Fault::Unwritten { part });
    }
    let _ = fs::remove_file(rt, part.as_str());
    Ok(())
}

/// Syncs the folder of a file, so that the new name lasts. A folder that cannot be read or synced is ignored: the file is in
/// place.
fn sync_folder(rt: &HostRuntime, place: &str) {
    if let Ok(folder) = File::open(rt, folder_of(place)) {
        let _ = folder.sync_all();
    }
}

/// Returns the folder of the file at this path.
pub(crate) fn folder_of(path: &str) -> &str {
    match path.rsplit_once('/') {
        Some(("", _)) => "/",
        Some((folder, _)) => folder,
        None => ".",
    }
}

/// Overwrites the file, and syncs it if it is a regular file.
fn write_through(rt: &HostRuntime, path: &str, text: &[u8]) -> Result<(), Fault> {
    let file = match fs::create(rt, path) {
        Ok(file) => file,
        Err(error) => return Err(unopened(rt.alloc(), path, error)),
    };
    match flow(file, text) {
        Ok(()) => Ok(()),
        Err(_) => Err(Fault::Refused(Refusal::WriteFault)),
    }
}

/// Writes the text to an open file, and syncs it if it is a regular file.
fn flow(file: File, text: &[u8]) -> io::Result<()> {
    let mut file = file;
    file.write_all(text)?;
    if file.metadata()?.is_file() {
        file.sync_all()
    } else {
        Ok(())
    }
}
