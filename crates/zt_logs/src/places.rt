//! The members of lines: their names, and their places.

ghost use Rattle.std.specs.Prelude.{◌≡◌};
ghost use Rattle.std.specs.Option.{option_map};
ghost use Rattle.zt_logs.specs.Members.{first_name, second_name};

use std::fmt;

/// The place of a member in a line.
#[derive(Clone, Copy, Debug)]
pub struct Place {
    pub object: LineObject,
    pub member: Member,
    /// Whether the line has the member by its second name.
    pub is_second: bool,
    /// The item of the list, from 0, if the place is one.
    pub item: Option<usize>,
}

/// An object of a line.
#[derive(Clone, Copy, Debug, PartialEq, Eq)]
pub enum LineObject {
    /// The line itself.
    Line,
    Args,
    /// The packet in the arguments of a `port_queue`.
    QueuedPacket,
    Out,
    /// The packet that a `port_wait` got.
    Packet,
    /// The signals of the packet that a `port_wait` got.
    PacketSignals,
    /// A handle that a message sends, by its place in `handles`, from 0.
    SentHandle(usize),
    /// A handle that the message of a `channel_call_etc` sends, by its place in `wr_handles`, from 0.
    CalledHandle(usize),
}

/// The members that lines have.
#[derive(Clone, Copy, Debug, PartialEq, Eq)]
pub enum Member {
    Process,
    Call,
    Args,
    Status,
    Out,
    Handle,
    /// The handle of the job or process that is killed.
    Task,
    /// The handle of the process that is made critical.
    CriticalProcess,
    Handles,
    /// How many handles there is room for.
    HandleRoom,
    /// The handle of a call that gives one handle.
    OnlyHandle,
    FirstHandle,
    SecondHandle,
    Bytes,
    /// How many bytes there is room for.
    ByteRoom,
    /// The bytes of a user packet.
    PacketBytes,
    Rights,
    /// Whether a handle is moved or duplicated.
    Operation,
    Clear,
    Set,
    Signals,
    Edge,
    Discard,
    Options,
    Port,
    /// The port of a call whose first argument is the port.
    CalledPort,
    Source,
    Key,
    Packet,
    Job,
    /// The job under which a job is made.
    ParentJob,
    Argument,
    Code,
    Type,
    /// The object that has the signals which a wait saw.
    Signal,
    Trigger,
    Observed,
    /// When the call returned.
    Time,
    TimeStamp,
    /// When the call began.
    Began,
    Koids,
    /// The koids of the peers of the handles' objects.
    RelatedKoids,
    /// The handle of the process that was made.
    ProcessHandle,
    /// The handle of the address space of the process that was made.
    VmarHandle,
    /// The handle of the process that is started.
    StartedProcess,
    /// The handle that the started process is given.
    FirstArgument,
    /// The bytes that a `channel_call` writes.
    WrittenBytes,
    /// The handles that a `channel_call` writes.
    WrittenHandles,
    /// How many bytes of the answer there is room for.
    ReadByteRoom,
    /// How many handles of the answer there is room for.
    ReadHandleRoom,
    /// The bytes of the answer.
    ReadBytes,
    /// The handles of the answer.
    ReadHandles,
}

impl Member {
    /// The name of the member in a line.
    pub fn name(self) -> &'static str
        ensures { result.now ≡ first_name self }
    {
        match self {
            Member::Process => "process",
            Member::Call => "call",
            Member::Args => "args",
            Member::Status => "status",
            Member::Out | Member::OnlyHandle => "out",
            Member::Operation => "operation",
            Member::Handle | Member::Task | Member::CriticalProcess => "handle",
            Member::Handles | Member::HandleRoom => "handles",
            Member::FirstHandle => "out0",
            Member::SecondHandle => "out1",
            Member::Bytes | Member::ByteRoom | Member::PacketBytes => "bytes",
            Member::Rights => "rights",
            Member::Clear => "clear",
            Member::Set => "set",
            Member::Signals => "signals",
            Member::Edge => "edge",
            Member::Discard => "discard",
            Member::Options => "options",
            Member::Port | Member::CalledPort => "port",
            Member::Source => "source",
            Member::Key => "key",
            Member::Packet => "packet",
            Member::Job | Member::ParentJob => "job",
            Member::Argument => "argument",
            Member::Code => "code",
            Member::Type => "type",
            Member::Signal => "signal",
            Member::Trigger => "trigger",
            Member::Observed => "observed",
            Member::Time => "time",
            Member::TimeStamp => "ts",
            Member::Began => "began",
            Member::Koids => "koids",
            Member::RelatedKoids => "related_koids",
            Member::ProcessHandle => "proc_handle",
            Member::VmarHandle => "vmar_handle",
            Member::StartedProcess => "handle",
            Member::FirstArgument => "arg1",
            Member::WrittenBytes => "wr_bytes",
            Member::WrittenHandles => "wr_handles",
            Member::ReadByteRoom => "rd_num_bytes",
            Member::ReadHandleRoom => "rd_num_handles",
            Member::ReadBytes => "rd_bytes",
            Member::ReadHandles => "rd_handles",
        }
    }

    /// The second name of the member, which is that of the system's reference.
    pub fn second_name(self) -> Option<&'static str>
        ensures { option_map (λ name. name.now) result ≡ second_name self }
    {
        Some(match self {
            Member::Task => "task",
            Member::CriticalProcess => "process",
            Member::HandleRoom => "num_handles",
            Member::ByteRoom => "num_bytes",
            Member::PacketBytes => "user",
            Member::Clear => "clear_mask",
            Member::Set => "set_mask",
            Member::CalledPort => "handle",
            Member::ParentJob => "parent_job",
            Member::Code => "retcode",
            Member::Time => "timestamp",
            Member::StartedProcess => "process",
            Member::ReadBytes => "bytes",
            Member::ReadHandles => "handles",
            _ => return None,
        })
    }
}

impl LineObject {
    /// The text that is printed ahead of the name of a member of this object.
    pub fn prefix(self) -> &'static str {
        match self {
            LineObject::Line => "",
            LineObject::Args => "args.",
            LineObject::QueuedPacket => "args.packet.",
            LineObject::Out => "out.",
            LineObject::Packet => "out.packet.",
            LineObject::PacketSignals => "out.packet.signal.",
            LineObject::SentHandle(_) => "args.handles",
            LineObject::CalledHandle(_) => "args.wr_handles",
        }
    }
}

impl Place {
    /// The name that the line has for the member.
    fn name(&self) -> &'static str {
        if !self.is_second {
            return self.member.name();
        }
        match self.member.second_name() {
            Some(second) => second,
            None => self.member.name(),
        }
    }
}

impl fmt::Display for Place {
    fn fmt<W: fmt::Write>(&self, f: &mut fmt::Formatter<W>) -> fmt::Result {
        write!(f, "{}", self.object.prefix())?;
        if let LineObject::SentHandle(item) | LineObject::CalledHandle(item) = self.object {
            write!(f, "[{item}].")?;
        }
        write!(f, "{}", self.name())?;
        match self.item {
            Some(item) => write!(f, "[{item}]"),
            None => Ok(()),
        }
    }
}
