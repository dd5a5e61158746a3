//! The wrong line of a session text, with an explanation.

use crate::advice::{session_remark, tree_remark};
use crate::explanation::{explanation, shown_line};
use std::alloc::{AllocError, Global};
use zt_rows::Refusal;

/// A line of a session text, with the path of its file.
#[derive(Debug, Drop)]
pub struct TraceLine {
    path: String,
    bytes: Vec<u8>,
    /// Whether the text is of version 2.
    is_of_tree: bool,
}

impl TraceLine {
    /// Returns the line of this number, counted from 1, of the text in a file. Returns `None` if there is no such line or an
    /// allocation fails.
    pub fn of(alloc: Global, path: &str, text: &[u8], number: u64) -> Option<TraceLine> {
        let bytes = line_of(text, number)?;
        Some(TraceLine {
            path: String::from_str(alloc, path).ok()?,
            bytes: Vec::from_slice(alloc, bytes).ok()?,
            is_of_tree: line_of(text, 1) == Some(b"zxtt 2".as_slice()),
        })
    }

    /// Explains the line: its path and number, the line itself, and why it was refused.
    pub fn explained(
        &self,
        alloc: Global,
        number: u64,
        refusal: Refusal,
    ) -> Result<String, AllocError> {
        let path = self.path.as_str();
        let mut text = format!(in alloc; "{path}, line {number}:\n")?;
        let shown = self.shown(alloc, number, refusal)?;
        text.push_str(shown.as_str())?;
        Ok(text)
    }

    /// Prints the line, and why it was refused.
    fn shown(&self, alloc: Global, number: u64, refusal: Refusal) -> Result<String, AllocError> {
        let line = self.bytes.as_slice();
        let remark = if self.is_of_tree {
            tree_remark(line, refusal)
        } else {
            session_remark(number, line, refusal)
        };
        match remark {
            Some(remark) => explanation(alloc, line, remark),
            None => shown_line(alloc, line),
        }
    }
}

/// Returns the line of this number, counted from 1.
fn line_of(text: &[u8], number: u64) -> Option<&[u8]> {
    let before = number.checked_sub(1)? as usize;
    text.split(|byte| *byte == b'\n').nth(before)
}
