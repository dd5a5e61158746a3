//! Listeners to answered lines.

/// Hears each line that is answered, with the text of its answer. A listener cannot change an answer.
pub trait Listener {
    /// The line was answered with this text; the text is empty if the line is skipped. Of a line that is too long, only the bytes
    /// that decide this are passed. The answer is not written yet.
    fn heard(&self, line: &[u8], text: &[u8]);
}
