//! The calls that are read from a log, by their names.

ghost use Rattle.std.specs.Prelude.{◌≡◌};
ghost use Rattle.std.specs.Str.{bytes_eq};
ghost use Rattle.zt_logs.specs.CallNames.{bare, name_of, name_of_handle, name_of_channel, name_of_port, name_of_task, name_of_form, name_of_made, call_named};

use crate::other_kinds::OtherKind;

/// The calls that are read from a log: those of the semantics, and those that become one or more calls of it.
#[derive(Clone, Copy, Debug, PartialEq, Eq)]
pub enum CallName {
    EventCreate,
    EventPairCreate,
    HandleClose,
    HandleDuplicate,
    HandleReplace,
    ObjectSignal,
    ObjectSignalPeer,
    ChannelCreate,
    ChannelWrite,
    ChannelRead,
    PortCreate,
    ObjectWaitAsync,
    PortQueue,
    PortWait,
    PortCancel,
    JobCreate,
    Spawn,
    JobSetCritical,
    TaskKill,
    ProcessExit,
    HandleCloseMany,
    ChannelWriteEtc,
    ChannelReadEtc,
    ChannelCall,
    ChannelCallEtc,
    ProcessCreate,
    ProcessStart,
    /// A call that makes, or gives a handle to, an object of a kind that the semantics does not have.
    Made(OtherKind),
}

/// Whether `name` is `word`.
pub(crate) fn is(name: &[u8], word: &[u8]) -> bool
    ensures { result ≡ bytes_eq name.now word.now }
{
    name == word
}

/// A name without `zx_` ahead.
fn bare_name(name: &[u8]) -> &[u8]
    ensures { result.now ≡ bare name.now }
{
    match name.strip_prefix(b"zx_") {
        Some(bare) => bare,
        None => name,
    }
}

impl CallName {
    /// The call of this name, which may have `zx_` ahead. None for all other names.
    pub(crate) fn of(name: &str) -> Option<CallName>
        ensures { result ≡ call_named name.now }
    {
        CallName::of_bare(bare_name(name.as_bytes()))
    }

    #[tactic(auto, unfolding(crate::specs::CallNames::name_of))]
    fn of_bare(name: &[u8]) -> Option<CallName>
        ensures { result ≡ name_of name.now }
    {
        CallName::of_handle(name)
            .or_else(|| CallName::of_channel(name))
            .or_else(|| CallName::of_port(name))
            .or_else(|| CallName::of_task(name))
            .or_else(|| CallName::of_form(name))
            .or_else(|| CallName::of_made(name))
    }

    /// The calls on events, pairs of events and handles.
    #[tactic(auto, unfolding(crate::specs::CallNames::name_of_handle))]
    fn of_handle(name: &[u8]) -> Option<CallName>
        ensures { result ≡ name_of_handle name.now }
    {
        if is(name, b"event_create") {
            Some(CallName::EventCreate)
        } else if is(name, b"eventpair_create") {
            Some(CallName::EventPairCreate)
        } else if is(name, b"handle_close") {
            Some(CallName::HandleClose)
        } else if is(name, b"handle_duplicate") {
            Some(CallName::HandleDuplicate)
        } else if is(name, b"handle_replace") {
            Some(CallName::HandleReplace)
        } else {
            None
        }
    }

    /// The calls on signals and channels.
    #[tactic(auto, unfolding(crate::specs::CallNames::name_of_channel))]
    fn of_channel(name: &[u8]) -> Option<CallName>
        ensures { result ≡ name_of_channel name.now }
    {
        if is(name, b"object_signal") {
            Some(CallName::ObjectSignal)
        } else if is(name, b"object_signal_peer") {
            Some(CallName::ObjectSignalPeer)
        } else if is(name, b"channel_create") {
            Some(CallName::ChannelCreate)
        } else if is(name, b"channel_write") {
            Some(CallName::ChannelWrite)
        } else if is(name, b"channel_read") {
            Some(CallName::ChannelRead)
        } else {
            None
        }
    }

    /// The calls that make, or give a handle to, objects of kinds that the semantics does not have.
    fn of_made(name: &[u8]) -> Option<CallName>
        ensures { result ≡ name_of_made name.now }
    {
        match OtherKind::made_by(name) {
            Some(kind) => Some(CallName::Made(kind)),
            None => None,
        }
    }

    /// The calls that become one or more calls of the semantics.
    #[tactic(auto, unfolding(crate::specs::CallNames::name_of_form))]
    fn of_form(name: &[u8]) -> Option<CallName>
        ensures { result ≡ name_of_form name.now }
    {
        if is(name, b"handle_close_many") {
            Some(CallName::HandleCloseMany)
        } else if is(name, b"channel_write_etc") {
            Some(CallName::ChannelWriteEtc)
        } else if is(name, b"channel_read_etc") {
            Some(CallName::ChannelReadEtc)
        } else if is(name, b"channel_call") {
            Some(CallName::ChannelCall)
        } else if is(name, b"channel_call_etc") {
            Some(CallName::ChannelCallEtc)
        } else if is(name, b"process_create") {
            Some(CallName::ProcessCreate)
        } else if is(name, b"process_start") {
            Some(CallName::ProcessStart)
        } else {
            None
        }
    }

    /// The calls on ports.
    #[tactic(auto, unfolding(crate::specs::CallNames::name_of_port))]
    fn of_port(name: &[u8]) -> Option<CallName>
        ensures { result ≡ name_of_port name.now }
    {
        if is(name, b"port_create") {
            Some(CallName::PortCreate)
        } else if is(name, b"object_wait_async") {
            Some(CallName::ObjectWaitAsync)
        } else if is(name, b"port_queue") {
            Some(CallName::PortQueue)
        } else if is(name, b"port_wait") {
            Some(CallName::PortWait)
        } else if is(name, b"port_cancel") {
            Some(CallName::PortCancel)
        } else {
            None
        }
    }

    /// The calls on jobs and processes.
    #[tactic(auto, unfolding(crate::specs::CallNames::name_of_task))]
    fn of_task(name: &[u8]) -> Option<CallName>
        ensures { result ≡ name_of_task name.now }
    {
        if is(name, b"job_create") {
            Some(CallName::JobCreate)
        } else if is(name, b"spawn") {
            Some(CallName::Spawn)
        } else if is(name, b"job_set_critical") {
            Some(CallName::JobSetCritical)
        } else if is(name, b"task_kill") {
            Some(CallName::TaskKill)
        } else if is(name, b"process_exit") {
            Some(CallName::ProcessExit)
        } else {
            None
        }
    }
}

/// Whether a call of this name, which the semantics does not have, changes nothing that a trace has. The name may have
/// `zx_` ahead.
pub(crate) fn changes_nothing(name: &str) -> bool {
    let bare = match name.strip_prefix("zx_") {
        Some(bare) => bare,
        None => name,
    };
    matches!(
        bare,
        "object_wait_one"
            | "object_wait_many"
            | "object_get_info"
            | "object_get_property"
            | "object_set_property"
            | "handle_check_valid"
            | "nanosleep"
            | "clock_get_monotonic"
            | "clock_get_boot"
            | "ticks_get"
            | "futex_wait"
            | "futex_wake"
    )
}
