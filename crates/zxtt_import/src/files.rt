//! Reads the log and writes the trace.

use crate::faults::Fault;
use std::io::Write;
use zt_files::{open, read_rest, warn_ahead, write_whole};

/// Reads all bytes of a file, or of standard input for `-`. Before it reads, it prints a warning if it is already clear
/// that `to` cannot be written. The error is `Common`, `Read` or `OutOfMemory`.
pub fn read(rt: &HostRuntime, path: &str, to: Option<&str>) -> Result<Vec<u8>, Fault> {
    if path == "-" {
        warn_ahead(rt, "zxtt-import", to);
        return Ok(read_rest(rt.alloc(), &mut rt.stdin())?);
    }
    let mut file = open(rt, path)?;
    warn_ahead(rt, "zxtt-import", to);
    Ok(read_rest(rt.alloc(), &mut file)?)
}

/// Writes the text to a file as `write_whole` does, or to standard output if none is named. If writing a file fails, the
/// old file is unchanged, unless it had to be overwritten. The error is `Common`, `Write`, `Unwritten` or `OutOfMemory`.
pub fn write(rt: &HostRuntime, to: Option<&str>, text: &[u8]) -> Result<(), Fault> {
    match to {
        Some(path) => Ok(write_whole(rt, path, text)?),
        None => write_all(rt.stdout(), text),
    }
}

/// Writes the text and flushes the writer.
fn write_all<W: Write + Drop>(writer: W, text: &[u8]) -> Result<(), Fault> {
    let mut writer = writer;
    match writer.write_all(text) {
        Ok(()) => flush(&mut writer),
        Err(_) => Err(Fault::Write),
    }
}

fn flush<W: Write>(writer: &mut W) -> Result<(), Fault> {
    match writer.flush() {
        Ok(()) => Ok(()),
        Err(_) => Err(Fault::Write),
    }
}
