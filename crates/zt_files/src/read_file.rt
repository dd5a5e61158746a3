//! Reads files.

ghost use Rattle.std.specs.Prelude.{IfErr};
ghost use Rattle.zt_words.specs.Statuses.{TellsOfNoLine};

use std::alloc::Global;
use std::fs::File;
use std::io::{Read, Seek};
use std::{fs, io};
use zt_rows::Refusal;
use zt_words::Fault;

/// The most bytes of one read.
const READ_BYTES: usize = 65_536;

/// Opens a file for reading. Fails with `Unopened`, or with `Refused` and `OutOfMemory`.
pub fn open(rt: &HostRuntime, path: &str) -> Result<File, Fault>
    ensures { IfErr result TellsOfNoLine }
{
    match fs::open(rt, path) {
        Ok(file) => Ok(file),
        Err(error) => Err(unopened(rt.alloc(), path, error)),
    }
}

/// Whether this is a regular file, which can be read again from its beginning, and not a pipe, device or directory.
pub fn is_regular(file: &File) -> bool {
    match file.metadata() {
        Ok(metadata) => metadata.is_file(),
        Err(_) => false,
    }
}

/// Goes back to the beginning of a file. Fails with `Refused` and `ReadFault`.
pub fn rewind(file: &mut File) -> Result<(), Fault>
    ensures { IfErr result TellsOfNoLine }
{
    match file.rewind() {
        Ok(()) => Ok(()),
        Err(_) => Err(Fault::Refused(Refusal::ReadFault)),
    }
}

/// Reads all bytes of a file. Errors are those of `open` and `read_rest`.
pub fn read_whole(rt: &HostRuntime, path: &str) -> Result<Vec<u8>, Fault> {
    let mut file = open(rt, path)?;
    read_rest(rt.alloc(), &mut file)
}

/// Reads all bytes that are left of a file or of standard input. Fails with `Refused` and `ReadFault` or `OutOfMemory`.
pub fn read_rest<R: Read>(alloc: Global, reader: &mut R) -> Result<Vec<u8>, Fault>
    ensures { IfErr result TellsOfNoLine }
{
    let mut bytes = Vec::new(alloc);
    match append_rest(reader, &mut bytes) {
        Ok(()) => Ok(bytes),
        Err(error) if error.kind() == io::ErrorKind::OutOfMemory => Err(Fault::of_memory()),
        Err(_) => Err(Fault::Refused(Refusal::ReadFault)),
    }
}

/// Appends all bytes that are left. Each read goes into the same memory first, since `read_to_end` fills new memory byte by
/// byte ahead of each read.
fn append_rest<R: Read>(reader: &mut R, bytes: &mut Vec<u8>) -> io::Result<()> {
    let mut room = vec![in *bytes.allocator(); 0u8; READ_BYTES]?;
    for _ in 0..u64::MAX {
        match reader.read(room.as_mut_slice()) {
            Ok(0) => return Ok(()),
            Ok(count) => bytes.extend_from_slice(&room.as_slice()[..count])?,
            Err(error) if error.kind() == io::ErrorKind::Interrupted => {}
            Err(error) => return Err(error),
        }
    }
    Ok(())
}

/// Makes the fault of a file that could not be opened. If an allocation fails, it is `Refused` with `OutOfMemory`.
pub(crate) fn unopened(alloc: Global, path: &str, error: io::Error) -> Fault
    ensures { TellsOfNoLine result }
{
    match String::from_str(alloc, path) {
        Ok(path) => Fault::Unopened { path, error },
        Err(_) => Fault::of_memory(),
    }
}
