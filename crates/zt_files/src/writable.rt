//! Checks whether a file could be written, before there is anything to write.

use crate::whole_file::folder_of;
use std::fs::{File, Metadata};
use std::os::unix::fs::MetadataExt;
use std::{fs, io};

/// The system's error `EACCES`: permission denied.
const DENIED: i32 = 13;

/// Warns on standard error, behind the name of the program, that `write_whole` could not open this file, if one is named and that
/// shows without trying.
///
/// It makes and truncates nothing, and never waits. A file that exists is opened for writing, and closed. If the file does not
/// exist, its folder is checked: whether it exists, and whether this user may make a file there. Anything that is not a file or
/// directory, such as a pipe or a device, is not tried. Neither is a dangling link.
pub fn warn_ahead(rt: &HostRuntime, program: &str, to: Option<&str>) {
    if let Some(path) = to {
        if let Some(error) = obstacle(rt, path) {
            let _ = eprintln!(rt; "{program}: warning: cannot write {path}: {error}");
        }
    }
}

/// Returns why the file cannot be opened for writing, if that shows.
fn obstacle(rt: &HostRuntime, path: &str) -> Option<io::Error> {
    match fs::metadata(rt, path) {
        Ok(there) if there.is_file() || there.is_dir() => {
            File::options().write(true).open(rt, path).err()
        }
        Ok(_) => None,
        Err(error) if error.kind() == io::ErrorKind::NotFound => missing(rt, path, error),
        Err(error) => Some(error),
    }
}

/// Returns why a missing file cannot be made, if that shows.
fn missing(rt: &HostRuntime, path: &str, error: io::Error) -> Option<io::Error> {
    if path.is_empty() {
        return Some(error);
    }
    if fs::symlink_metadata(rt, path).is_ok() {
        return None;
    }
    match fs::metadata(rt, folder_of(path)) {
        Ok(folder) if is_closed(rt, &folder) => Some(io::Error::from_raw_os_error(DENIED)),
        Ok(_) => None,
        Err(error) => Some(error),
    }
}

/// Whether this user cannot make a file in a folder, by the folder's owner and permissions alone. If the folder's group can write
/// there, the answer is no: it does not check who is in the group.
fn is_closed(rt: &HostRuntime, folder: &Metadata) -> bool {
    match fs::metadata(rt, "/proc/self") {
        Ok(process) if process.uid() == 0 => false,
        Ok(process) if process.uid() == folder.uid() => folder.mode() & 0o200 == 0,
        Ok(_) => folder.mode() & 0o022 == 0,
        Err(_) => false,
    }
}
