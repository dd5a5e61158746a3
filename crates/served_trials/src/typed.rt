//! The lines of two clients, and the answers to each. Only the first makes calls and branches, and the second looks only at
//! the opening. So each gets the same answers, whatever the other does meanwhile.

use std::alloc::{AllocError, Global};

// No clause tells the texts that these functions return. So a proof of their callers does not go over the bytes.

/// The lines of the first client: two calls, a move back, the rows there, and a branch from there.
pub fn lines() -> &'static [u8] {
    b"1025 event_create\n1025 object_signal 7 0x00000000 0x00000008\nback 1\nshow\nbranch fix\n"
}

/// The answers to the first client, one for each command.
pub const ANSWERS: [&str; 5] = [
    "1 ok 7\n",
    "2 ok\n",
    "at 1\n",
    "rows 1 6\ncounters 1027 0\nobject 1024 job 0x00000010 0 live 0\nobject 1025 process 0x00000000 1024 live 2\nobject 1026 event 0x00000000 0 live 0\nentry 1025 3 1024 0x0003d203\nentry 1025 7 1026 0x0000d003\n",
    "branch fix 1\n",
];

/// The lines of the second client.
pub fn other_lines() -> &'static [u8] {
    b"goto 0\nshow\nholders 1024\n"
}

/// The answers to the second client.
pub fn other_told() -> &'static [u8] {
    b"at 0\nrows 0 4\ncounters 1026 0\nobject 1024 job 0x00000010 0 live 0\nobject 1025 process 0x00000000 1024 live 1\nentry 1025 3 1024 0x0003d203\nholders 1024 3\nentry 1025 3\nchild 1025\nself\n"
}

/// How many commands the second client gives.
pub const OTHER_ROWS: usize = 3;

/// The answers to the first `commands` commands of the first client.
pub fn told(alloc: Global, commands: usize) -> Result<String, AllocError> {
    let mut text = String::new(alloc);
    for answer in ANSWERS.iter().take(commands) {
        text.push_str(answer)?;
    }
    Ok(text)
}

/// How many answers to the first client are whole in this many bytes.
pub fn whole_answers(bytes: usize) -> usize {
    let mut whole = 0usize;
    let mut end = 0usize;
    for answer in ANSWERS.iter() {
        end = end.saturating_add(answer.len());
        if end <= bytes {
            whole = whole.saturating_add(1);
        }
    }
    whole
}

/// How many lines of the text have a line feed.
pub fn line_ends(text: &[u8]) -> usize {
    text.iter().filter(|byte| **byte == b'\n').count()
}
