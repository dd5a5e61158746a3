//! The hooks around a client's commands.

/// Functions that are called outside the lock: before and after each command of a client, for each answered line, and when the
/// client's session ends. `n` is one more than the number of rows that the client had before the command. A gate cannot change an
/// answer.
pub trait Gate {
    fn before(&self, client: u8, n: u32);

    fn after(&self, client: u8, n: u32);

    /// A line of the client was answered with this text; the text is empty if the line is skipped. Of a line that is too long,
    /// only the bytes that decide how it reads are passed. The answer is not written yet.
    fn heard(&self, client: u8, line: &[u8], text: &[u8]) {
        let _ = client;
        let _ = line;
        let _ = text;
    }

    /// The client asks no more commands.
    fn ended(&self, client: u8) {
        let _ = client;
    }
}
