//! The kinds of objects that the semantics does not have. An event or an event pair stands in for such an object.

ghost use Rattle.std.specs.Prelude.{◌≡◌};
ghost use Rattle.zt_logs.specs.OtherKinds.{kind_made, memory_made, device_made, other_made, has_ends};

use crate::call_names::is;

/// A kind of object that the semantics does not have.
#[derive(Clone, Copy, Debug, PartialEq, Eq)]
pub enum OtherKind {
    Vmo,
    Vmar,
    Stream,
    Pager,
    Socket,
    Fifo,
    Timer,
    Clock,
    Counter,
    Thread,
    /// An object that was there before, to which `object_get_child` gives a handle.
    Child,
    Resource,
    Iommu,
    Bti,
    Interrupt,
    Debuglog,
    Profile,
}

impl OtherKind {
    /// The kind with its article, as comments of a trace have it.
    pub fn words(self) -> &'static str {
        match self {
            OtherKind::Vmo => "a vmo",
            OtherKind::Vmar => "a vmar",
            OtherKind::Stream => "a stream",
            OtherKind::Pager => "a pager",
            OtherKind::Socket => "a socket",
            OtherKind::Fifo => "a fifo",
            OtherKind::Timer => "a timer",
            OtherKind::Clock => "a clock",
            OtherKind::Counter => "a counter",
            OtherKind::Thread => "a thread",
            OtherKind::Child => "a child",
            OtherKind::Resource => "a resource",
            OtherKind::Iommu => "an iommu",
            OtherKind::Bti => "a bti",
            OtherKind::Interrupt => "an interrupt",
            OtherKind::Debuglog => "a debuglog",
            OtherKind::Profile => "a profile",
        }
    }

    /// Whether an object of this kind has two ends, each with a handle.
    pub fn has_ends(self) -> bool
        ensures { result ≡ has_ends self }
    {
        matches!(self, OtherKind::Socket | OtherKind::Fifo)
    }

    /// The kind of object that a call of this name makes or gives. The name has no `zx_` ahead.
    #[tactic(auto, unfolding(crate::specs::OtherKinds::kind_made))]
    pub(crate) fn made_by(name: &[u8]) -> Option<OtherKind>
        ensures { result ≡ kind_made name.now }
    {
        memory_made(name)
            .or_else(|| device_made(name))
            .or_else(|| other_made(name))
    }
}

/// The calls that have to do with memory.
#[tactic(auto, unfolding(crate::specs::OtherKinds::memory_made))]
fn memory_made(name: &[u8]) -> Option<OtherKind>
    ensures { result ≡ memory_made name.now }
{
    if is(name, b"vmo_create") {
        Some(OtherKind::Vmo)
    } else if is(name, b"vmo_create_child") {
        Some(OtherKind::Vmo)
    } else if is(name, b"vmo_create_contiguous") {
        Some(OtherKind::Vmo)
    } else if is(name, b"vmo_create_physical") {
        Some(OtherKind::Vmo)
    } else if is(name, b"pager_create_vmo") {
        Some(OtherKind::Vmo)
    } else if is(name, b"pager_create") {
        Some(OtherKind::Pager)
    } else if is(name, b"stream_create") {
        Some(OtherKind::Stream)
    } else {
        None
    }
}

/// The calls that drivers make.
#[tactic(auto, unfolding(crate::specs::OtherKinds::device_made))]
fn device_made(name: &[u8]) -> Option<OtherKind>
    ensures { result ≡ device_made name.now }
{
    if is(name, b"resource_create") {
        Some(OtherKind::Resource)
    } else if is(name, b"iommu_create") {
        Some(OtherKind::Iommu)
    } else if is(name, b"bti_create") {
        Some(OtherKind::Bti)
    } else if is(name, b"interrupt_create") {
        Some(OtherKind::Interrupt)
    } else if is(name, b"debuglog_create") {
        Some(OtherKind::Debuglog)
    } else if is(name, b"profile_create") {
        Some(OtherKind::Profile)
    } else {
        None
    }
}

/// All other calls.
#[tactic(auto, unfolding(crate::specs::OtherKinds::other_made))]
fn other_made(name: &[u8]) -> Option<OtherKind>
    ensures { result ≡ other_made name.now }
{
    if is(name, b"socket_create") {
        Some(OtherKind::Socket)
    } else if is(name, b"fifo_create") {
        Some(OtherKind::Fifo)
    } else if is(name, b"timer_create") {
        Some(OtherKind::Timer)
    } else if is(name, b"clock_create") {
        Some(OtherKind::Clock)
    } else if is(name, b"counter_create") {
        Some(OtherKind::Counter)
    } else if is(name, b"thread_create") {
        Some(OtherKind::Thread)
    } else if is(name, b"object_get_child") {
        Some(OtherKind::Child)
    } else {
        None
    }
}
