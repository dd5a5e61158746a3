//! The names of the system calls in a line.

ghost use Rattle.std.specs.Prelude.{◌≡◌, codes, false};
ghost use Rattle.std.specs.Str.{bytes_eq};
ghost use Rattle.zt_text.specs.ProofsOnly.CallNames.{name_of, name_of_object, name_of_handle, name_of_port, name_of_task};

/// The name of a call.
#[derive(Drop)]
pub enum CallName {
    ChannelWrite,
    EventCreate,
    EventPairCreate,
    ObjectSignal,
    ObjectSignalPeer,
    HandleClose,
    HandleDuplicate,
    HandleReplace,
    ChannelCreate,
    ChannelRead,
    PortCreate,
    ObjectWaitAsync,
    PortQueue,
    PortWait,
    PortCancel,
    JobCreate,
    Spawn,
    JobSetCritical,
    TaskKill,
    ProcessExit,
}

impl CallName {
    /// Reads the name of a call; `None` for any other field. The name that some traces have most of is told here by one
    /// comparison of words, without a call.
    #[inline(always)]
    #[tactic(auto, unfolding(crate::specs::ProofsOnly::CallNames::name_of, crate::specs::ProofsOnly::CallNames::name_of_object))]
    pub fn of(field: &[u8]) -> Option<CallName>
        ensures { result ≡ name_of field.now }
    {
        if is_object_signal(field) {
            Some(CallName::ObjectSignal)
        } else {
            CallName::of_others(field)
        }
    }

    /// Reads the name of a call other than `object_signal`.
    #[inline(never)]
    #[tactic(auto, unfolding(crate::specs::ProofsOnly::CallNames::name_of))]
    fn of_others(field: &[u8]) -> Option<CallName>
        requires { bytes_eq field.now (codes "object_signal") ≡ false }
        ensures { result ≡ name_of field.now }
    {
        CallName::of_object(field)
            .or_else(|| CallName::of_handle(field))
            .or_else(|| CallName::of_port(field))
            .or_else(|| CallName::of_task(field))
    }

    /// Reads `channel_write` and the names of the calls on events, except `object_signal`.
    #[tactic(auto, unfolding(crate::specs::ProofsOnly::CallNames::name_of_object))]
    fn of_object(field: &[u8]) -> Option<CallName>
        requires { bytes_eq field.now (codes "object_signal") ≡ false }
        ensures { result ≡ name_of_object field.now }
    {
        if field == b"channel_write".as_slice() {
            Some(CallName::ChannelWrite)
        } else if field == b"event_create".as_slice() {
            Some(CallName::EventCreate)
        } else if field == b"eventpair_create".as_slice() {
            Some(CallName::EventPairCreate)
        } else if field == b"object_signal_peer".as_slice() {
            Some(CallName::ObjectSignalPeer)
        } else {
            None
        }
    }

    /// Reads the names of the calls on handles, and of those on channels except `channel_write`.
    #[tactic(auto, unfolding(crate::specs::ProofsOnly::CallNames::name_of_handle))]
    fn of_handle(field: &[u8]) -> Option<CallName>
        ensures { result ≡ name_of_handle field.now }
    {
        if field == b"handle_close".as_slice() {
            Some(CallName::HandleClose)
        } else if field == b"handle_duplicate".as_slice() {
            Some(CallName::HandleDuplicate)
        } else if field == b"handle_replace".as_slice() {
            Some(CallName::HandleReplace)
        } else if field == b"channel_create".as_slice() {
            Some(CallName::ChannelCreate)
        } else if field == b"channel_read".as_slice() {
            Some(CallName::ChannelRead)
        } else {
            None
        }
    }

    /// Reads the names of the calls on ports.
    #[tactic(auto, unfolding(crate::specs::ProofsOnly::CallNames::name_of_port))]
    fn of_port(field: &[u8]) -> Option<CallName>
        ensures { result ≡ name_of_port field.now }
    {
        if field == b"port_create".as_slice() {
            Some(CallName::PortCreate)
        } else if field == b"object_wait_async".as_slice() {
            Some(CallName::ObjectWaitAsync)
        } else if field == b"port_queue".as_slice() {
            Some(CallName::PortQueue)
        } else if field == b"port_wait".as_slice() {
            Some(CallName::PortWait)
        } else if field == b"port_cancel".as_slice() {
            Some(CallName::PortCancel)
        } else {
            None
        }
    }

    /// Reads the names of the calls on jobs and processes.
    #[tactic(auto, unfolding(crate::specs::ProofsOnly::CallNames::name_of_task))]
    fn of_task(field: &[u8]) -> Option<CallName>
        ensures { result ≡ name_of_task field.now }
    {
        if field == b"job_create".as_slice() {
            Some(CallName::JobCreate)
        } else if field == b"spawn".as_slice() {
            Some(CallName::Spawn)
        } else if field == b"job_set_critical".as_slice() {
            Some(CallName::JobSetCritical)
        } else if field == b"task_kill".as_slice() {
            Some(CallName::TaskKill)
        } else if field == b"process_exit".as_slice() {
            Some(CallName::ProcessExit)
        } else {
            None
        }
    }
}

/// Whether a field is `object_signal`.
#[inline(always)]
#[tactic(auto, using(crate::proofs::CallWords::is_object_signal, crate::proofs::CallWords::is_no_object_signal))]
fn is_object_signal(field: &[u8]) -> bool
    ensures { result ≡ bytes_eq field.now (codes "object_signal") }
{
    matches!(field, b"object_signal")
}
