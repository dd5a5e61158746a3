//! Describes what each field of a line must be.

/// What a field must be.
#[derive(Clone, Copy)]
pub enum Wanted {
    /// The first line of a session text.
    SessionLine,
    /// The word with which a line of a session text of version 2 begins.
    TreeLine,
    /// The first field of a line.
    Beginning,
    /// The process that makes a call.
    Process,
    /// The name of a call.
    CallName,
    Handle,
    Channel,
    Port,
    Job,
    Task,
    ProcessHandle,
    /// The handle whose waits are cancelled.
    Source,
    /// The handle that a new process receives.
    Argument,
    Rights,
    /// The signals to clear.
    Cleared,
    /// The signals to set.
    Set,
    /// The signals to wait for.
    Signals,
    Key,
    Bytes,
    Handles,
    /// The room for bytes, as their number.
    ByteRoom,
    /// The room for handles, as their number.
    HandleRoom,
    Discard,
    Edge,
    Packet,
    Code,
    Moment,
    Count,
    Name,
    Koid,
    /// The client whose cursor comes next.
    Client,
    /// How a client stands: it follows a branch, or is at a moment.
    Cursor,
    Happening,
    /// The word after `pinned`.
    PinnedQuestion,
}

impl Wanted {
    /// Returns it in words.
    pub fn text(self) -> &'static str {
        match self {
            Wanted::SessionLine => "`zxtt 1` or `zxtt 2`, the first line of a session file",
            Wanted::TreeLine =>
                "call, branch or cursor; all calls come first, then all branches, then all cursors",
            Wanted::Beginning => "a process or a command",
            Wanted::Process => "a process: a decimal number up to 18446744073709551615",
            Wanted::CallName => "the name of a call",
            Wanted::Handle => "a handle: a decimal number up to 4294967295",
            Wanted::Channel => "a handle to a channel: a decimal number up to 4294967295",
            Wanted::Port => "a handle to a port: a decimal number up to 4294967295",
            Wanted::Job => "a handle to a job: a decimal number up to 4294967295",
            Wanted::Task => "a handle to a job or a process: a decimal number up to 4294967295",
            Wanted::ProcessHandle => "a handle to a process: a decimal number up to 4294967295",
            Wanted::Source => "the handle whose waits to cancel: a decimal number up to 4294967295",
            Wanted::Argument =>
                "a handle to give to the new process, or 0: a decimal number up to 4294967295",
            Wanted::Rights => "rights: 0x and eight lowercase hexadecimal digits",
            Wanted::Cleared => "the signals to clear: 0x and eight lowercase hexadecimal digits",
            Wanted::Set => "the signals to set: 0x and eight lowercase hexadecimal digits",
            Wanted::Signals => "signals: 0x and eight lowercase hexadecimal digits",
            Wanted::Key => "a key: a decimal number up to 18446744073709551615",
            Wanted::Bytes => "up to 65536 bytes, each as two lowercase hexadecimal digits, or -",
            Wanted::Handles => "1 to 64 handles separated by commas, or -",
            Wanted::ByteRoom =>
                "the size of the buffer for bytes: a decimal number up to 4294967295",
            Wanted::HandleRoom =>
                "the size of the buffer for handles: a decimal number up to 4294967295",
            Wanted::Discard => "discard or the end of the line",
            Wanted::Edge => "edge or the end of the line",
            Wanted::Packet => "a packet: 64 lowercase hexadecimal digits",
            Wanted::Code =>
                "an exit code: a decimal number from -9223372036854775808 to 9223372036854775807",
            Wanted::Moment => "a moment: a decimal number up to 4294967295",
            Wanted::Count => "a count: a decimal number from 1 to 1048576",
            Wanted::Name => "a name: one or more printable ASCII characters other than spaces",
            Wanted::Koid => "a koid: a decimal number up to 18446744073709551615",
            Wanted::Client => "the next client: clients 1 to 4 have one cursor each, in this order",
            Wanted::Cursor => "follow or at",
            Wanted::Happening => "made, ended, peer_closed or leaked",
            Wanted::PinnedQuestion => "show, holders or leaks",
        }
    }
}

/// Returns the fields after the name of a call, in order; `None` if no call has this name.
pub fn fields_of_call(name: &[u8]) -> Option<&'static [Wanted]> {
    match name {
        b"event_create" | b"eventpair_create" | b"channel_create" | b"port_create" => Some(&[]),
        b"handle_close" => Some(&[Wanted::Handle]),
        b"handle_duplicate" | b"handle_replace" => Some(&[Wanted::Handle, Wanted::Rights]),
        b"object_signal" | b"object_signal_peer" => {
            Some(&[Wanted::Handle, Wanted::Cleared, Wanted::Set])
        }
        b"object_wait_async" => Some(&[
            Wanted::Handle,
            Wanted::Port,
            Wanted::Key,
            Wanted::Signals,
            Wanted::Edge,
        ]),
        b"channel_write" => Some(&[Wanted::Channel, Wanted::Bytes, Wanted::Handles]),
        b"channel_read" => Some(&[
            Wanted::Channel,
            Wanted::ByteRoom,
            Wanted::HandleRoom,
            Wanted::Discard,
        ]),
        _ => fields_of_other_call(name),
    }
}

/// Returns the fields after the name of a call on a port, job or process, in order; `None` if no such call has this name.
fn fields_of_other_call(name: &[u8]) -> Option<&'static [Wanted]> {
    match name {
        b"port_queue" => Some(&[Wanted::Port, Wanted::Key, Wanted::Packet]),
        b"port_wait" => Some(&[Wanted::Port]),
        b"port_cancel" => Some(&[Wanted::Port, Wanted::Source, Wanted::Key]),
        b"job_create" => Some(&[Wanted::Job]),
        b"spawn" => Some(&[Wanted::Job, Wanted::Argument]),
        b"job_set_critical" => Some(&[Wanted::Job, Wanted::ProcessHandle]),
        b"task_kill" => Some(&[Wanted::Task]),
        b"process_exit" => Some(&[Wanted::Code]),
        _ => None,
    }
}

/// Returns the fields after the name of a command, in order; `None` if no command has this name.
pub fn fields_of_command(name: &[u8]) -> Option<&'static [Wanted]> {
    match name {
        b"goto" => Some(&[Wanted::Moment]),
        b"back" => Some(&[Wanted::Count]),
        b"branch" | b"follow" => Some(&[Wanted::Name]),
        b"show" | b"leaks" | b"pin" => Some(&[]),
        b"holders" => Some(&[Wanted::Koid]),
        b"when" => Some(&[Wanted::Happening, Wanted::Koid]),
        b"pinned" => Some(&[Wanted::PinnedQuestion]),
        _ => None,
    }
}

/// Returns the fields after the first word of a line of a session text of version 2, in order; `None` for another word. `third`
/// is the third field of the line. For `call` only the fields before the process are returned.
pub fn fields_of_tree_line(word: &[u8], third: &[u8]) -> Option<&'static [Wanted]> {
    match word {
        b"call" => Some(&[Wanted::Moment]),
        b"branch" => Some(&[Wanted::Name, Wanted::Moment]),
        b"cursor" if third == b"follow".as_slice() => {
            Some(&[Wanted::Client, Wanted::Cursor, Wanted::Name])
        }
        b"cursor" => Some(&[Wanted::Client, Wanted::Cursor, Wanted::Moment]),
        _ => None,
    }
}
