//! The tables of fields: which fields follow one another in a line, and which members they become.

use crate::words::Word;

/// What is made from the next field of a line.
#[derive(Clone, Copy, Drop)]
pub enum Step {
    /// Nothing: the field is this word.
    Exactly(Word),
    /// A number.
    Number(Word),
    /// The moment of the call that the line shows.
    Moment(Word),
    /// A koid, and then the name of its object, if it has one.
    Koid(Word, Word),
    /// The koid of a process, and then its name. The handles behind it are those of this process.
    Process(Word, Word),
    /// A handle, and then its name, if it has one.
    Handle(Word, Word),
    /// The field as a text.
    Text(Word),
    /// The digits of bytes as a text.
    Bytes(Word),
    /// A mask as a text, and then an array of the names of its bits.
    Mask(Word, Word),
    /// An array of handles, and then an array of their names, if one has a name.
    Handles(Word, Word),
    /// An array of objects, one for each held handle.
    Held(Word),
    /// `true`, if the next field is the word itself. If it is not, there is no member, and the field stays.
    Flag(Word),
    /// The koid behind the word and a colon, and the name of its object, if a field is left.
    Marked(Word, Word),
    /// `null`, without a field.
    Null(Word),
}

/// `event_create` and the others without arguments.
pub const NOTHING: [Step; 0] = [];

/// `handle_close`, `task_kill`; and the reply of a call that made a handle.
pub const ONE_HANDLE: [Step; 1] = [Step::Handle(Word::Handle, Word::HandleName)];

/// `handle_duplicate`, `handle_replace`.
pub const HANDLE_RIGHTS: [Step; 2] = [
    Step::Handle(Word::Handle, Word::HandleName),
    Step::Mask(Word::Rights, Word::RightsNames),
];

/// `object_signal`, `object_signal_peer`.
pub const SIGNAL: [Step; 3] = [
    Step::Handle(Word::Handle, Word::HandleName),
    Step::Mask(Word::Clear, Word::ClearNames),
    Step::Mask(Word::Set, Word::SetNames),
];

/// `object_wait_async`.
pub const WAIT_ASYNC: [Step; 5] = [
    Step::Handle(Word::Handle, Word::HandleName),
    Step::Handle(Word::Port, Word::PortName),
    Step::Number(Word::Key),
    Step::Mask(Word::Signals, Word::SignalsNames),
    Step::Flag(Word::Edge),
];

/// `channel_write`.
pub const CHANNEL_WRITE: [Step; 3] = [
    Step::Handle(Word::Handle, Word::HandleName),
    Step::Bytes(Word::Bytes),
    Step::Handles(Word::Handles, Word::HandlesNames),
];

/// `channel_read`.
pub const CHANNEL_READ: [Step; 4] = [
    Step::Handle(Word::Handle, Word::HandleName),
    Step::Number(Word::BytesRoom),
    Step::Number(Word::HandlesRoom),
    Step::Flag(Word::Discard),
];

/// `port_queue`.
pub const PORT_QUEUE: [Step; 3] = [
    Step::Handle(Word::Port, Word::PortName),
    Step::Number(Word::Key),
    Step::Bytes(Word::Packet),
];

/// `port_wait`.
pub const ONE_PORT: [Step; 1] = [Step::Handle(Word::Port, Word::PortName)];

/// `port_cancel`.
pub const PORT_CANCEL: [Step; 3] = [
    Step::Handle(Word::Port, Word::PortName),
    Step::Handle(Word::Source, Word::SourceName),
    Step::Number(Word::Key),
];

/// `job_create`.
pub const ONE_JOB: [Step; 1] = [Step::Handle(Word::Job, Word::JobName)];

/// `spawn`.
pub const SPAWN: [Step; 2] = [
    Step::Handle(Word::Job, Word::JobName),
    Step::Handle(Word::Argument, Word::ArgumentName),
];

/// `job_set_critical`.
pub const SET_CRITICAL: [Step; 2] = [
    Step::Handle(Word::Job, Word::JobName),
    Step::Handle(Word::Handle, Word::HandleName),
];

/// `process_exit`.
pub const ONE_CODE: [Step; 1] = [Step::Number(Word::Code)];

/// The reply of a call that made two ends.
pub const TWO_ENDS: [Step; 2] = [
    Step::Handle(Word::Handle, Word::HandleName),
    Step::Handle(Word::Peer, Word::PeerName),
];

/// The reply of `spawn`.
pub const SPAWNED: [Step; 2] = [
    Step::Handle(Word::Handle, Word::HandleName),
    Step::Koid(Word::Process, Word::ProcessName),
];

/// The reply of `channel_read`.
pub const MESSAGE_READ: [Step; 2] = [
    Step::Bytes(Word::Bytes),
    Step::Handles(Word::Handles, Word::HandlesNames),
];

/// Behind `buffer_too_small`.
pub const NEEDED: [Step; 2] = [
    Step::Number(Word::BytesNeeded),
    Step::Number(Word::HandlesNeeded),
];

/// A packet of a user, behind `user`.
pub const USER_PACKET: [Step; 2] = [Step::Number(Word::Key), Step::Bytes(Word::Bytes)];

/// A packet of a wait, behind `signal`.
pub const SIGNAL_PACKET: [Step; 3] = [
    Step::Number(Word::Key),
    Step::Mask(Word::Trigger, Word::TriggerNames),
    Step::Mask(Word::Observed, Word::ObservedNames),
];

/// The handle of a wait, at the end of the row of its packet.
pub const WAITING_HANDLE: [Step; 2] = [
    Step::Process(Word::Process, Word::ProcessName),
    Step::Handle(Word::Handle, Word::HandleName),
];

/// The row of the counters.
pub const COUNTERS_ROW: [Step; 2] = [Step::Number(Word::NextKoid), Step::Number(Word::NextWait)];

/// The row of an object behind its koid.
pub const OBJECT_REST: [Step; 6] = [
    Step::Text(Word::Kind),
    Step::Mask(Word::Signals, Word::SignalsNames),
    Step::Koid(Word::Link, Word::LinkName),
    Step::Text(Word::Life),
    Step::Number(Word::Next),
    Step::Marked(Word::Critical, Word::CriticalName),
];

/// The row of an entry.
pub const ENTRY_ROW: [Step; 4] = [
    Step::Process(Word::Process, Word::ProcessName),
    Step::Handle(Word::Handle, Word::HandleName),
    Step::Koid(Word::Koid, Word::KoidName),
    Step::Mask(Word::Rights, Word::RightsNames),
];

/// The row of a message.
pub const MESSAGE_ROW: [Step; 4] = [
    Step::Koid(Word::Endpoint, Word::EndpointName),
    Step::Number(Word::Number),
    Step::Bytes(Word::Bytes),
    Step::Held(Word::Handles),
];

/// The row of a packet, up to its kind.
pub const PACKET_ROW: [Step; 2] = [
    Step::Koid(Word::Port, Word::PortName),
    Step::Number(Word::Number),
];

/// The row of a wait.
pub const WAIT_ROW: [Step; 7] = [
    Step::Number(Word::Number),
    Step::Process(Word::Process, Word::ProcessName),
    Step::Handle(Word::Handle, Word::HandleName),
    Step::Koid(Word::Port, Word::PortName),
    Step::Number(Word::Key),
    Step::Mask(Word::Signals, Word::SignalsNames),
    Step::Flag(Word::Edge),
];

/// The line of an event, up to its call.
pub const EVENT: [Step; 4] = [
    Step::Moment(Word::Moment),
    Step::Text(Word::Event),
    Step::Koid(Word::Koid, Word::KoidName),
    Step::Text(Word::Kind),
];

/// The line that counts the supports of an object.
pub const HOLDERS: [Step; 3] = [
    Step::Exactly(Word::Holders),
    Step::Koid(Word::Holders, Word::HoldersName),
    Step::Number(Word::Count),
];

/// A place in a handle table.
pub const AT_ENTRY: [Step; 2] = [
    Step::Process(Word::Process, Word::ProcessName),
    Step::Handle(Word::Handle, Word::HandleName),
];

/// A place in a message.
pub const AT_MESSAGE: [Step; 3] = [
    Step::Koid(Word::Endpoint, Word::EndpointName),
    Step::Number(Word::Number),
    Step::Number(Word::Index),
];

/// A live child that keeps a job.
pub const ONE_KOID: [Step; 1] = [Step::Koid(Word::Koid, Word::KoidName)];

/// What never happened.
pub const NEVER: [Step; 2] = [Step::Exactly(Word::Never), Step::Null(Word::Moment)];

/// The line of a handle of a process.
pub const HANDLE_LINE: [Step; 4] = [
    Step::Handle(Word::Handle, Word::HandleName),
    Step::Koid(Word::Koid, Word::KoidName),
    Step::Text(Word::Kind),
    Step::Mask(Word::Rights, Word::RightsNames),
];

/// A message in a queue.
pub const QUEUED: [Step; 2] = [Step::Bytes(Word::Bytes), Step::Held(Word::Handles)];

/// A branch with its head.
pub const BRANCH: [Step; 3] = [
    Step::Exactly(Word::Branch),
    Step::Text(Word::Branch),
    Step::Number(Word::Head),
];

/// Where a branch leaves another.
pub const LEAVES: [Step; 3] = [
    Step::Exactly(Word::Leaves),
    Step::Text(Word::Leaves),
    Step::Number(Word::Moment),
];

/// How often calls of a process had a status.
pub const CALL_COUNT: [Step; 3] = [
    Step::Process(Word::Process, Word::ProcessName),
    Step::Text(Word::Status),
    Step::Number(Word::Count),
];

/// What became of an object.
pub const FATE: [Step; 3] = [
    Step::Koid(Word::Koid, Word::KoidName),
    Step::Text(Word::Kind),
    Step::Number(Word::Moment),
];

/// The line of an object that is alive, up to its call.
pub const ALIVE: [Step; 4] = [
    Step::Koid(Word::Koid, Word::KoidName),
    Step::Text(Word::Kind),
    Step::Number(Word::Holders),
    Step::Moment(Word::Moment),
];

/// When a handle came to a place, and how.
pub const CAME: [Step; 2] = [Step::Number(Word::Moment), Step::Text(Word::Step)];

/// The rights of a handle at a place.
pub const RIGHTS: [Step; 1] = [Step::Mask(Word::Rights, Word::RightsNames)];

/// The rights that it had at the place that it came from.
pub const RIGHTS_FROM: [Step; 1] = [Step::Mask(Word::FromRights, Word::FromRightsNames)];

/// The moment at which a handle went on or ended.
pub const END_MOMENT: [Step; 1] = [Step::Number(Word::EndMoment)];

/// The moment of the call that the line shows.
pub const MOMENT: [Step; 1] = [Step::Moment(Word::Moment)];

/// The process that makes a call.
pub const CALLER: [Step; 1] = [Step::Process(Word::Process, Word::ProcessName)];
