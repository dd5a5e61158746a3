//! Signals: their bits, and which of them a call may set on each kind of object.

ghost use Rattle.std.specs.Prelude.{⊤, ◌≡◌, [], ◌∷◌, codes};
ghost use Rattle.zt_bits.specs.Tables.{settable_signals};

use crate::kinds::Kind;
use bitflags::{Flag, Flags, bitflag_items};

/// The signals of an object: what it shows to those who wait on it. Bit 3 depends on the kind: `SIGNALED` on an event
/// or an event pair, `TERMINATED` on a process or a job.
#[derive(Clone, Copy, Debug, PartialEq, Eq)]
pub struct Signals(pub u32);

bitflag_items! {
    impl Signals: u32 {
        const READABLE = 0x1;
        const WRITABLE = 0x2;
        const PEER_CLOSED = 0x4;
        const SIGNALED = 0x8;
        const TERMINATED = 0x8;
        const NO_JOBS = 0x10;
        const NO_PROCESSES = 0x20;
        const USER_ALL = 0xff000000;
    }
}

impl Flags for Signals {
    type Bits = u32;

    ghost exact = { ⊤ };

    ghost table = { (codes "READABLE", 0x1) ∷ (codes "WRITABLE", 0x2) ∷ (codes "PEER_CLOSED", 0x4) ∷ (codes "SIGNALED", 0x8)
        ∷ (codes "TERMINATED", 0x8) ∷ (codes "NO_JOBS", 0x10) ∷ (codes "NO_PROCESSES", 0x20)
        ∷ (codes "USER_ALL", 0xff000000) ∷ [] };

    ghost set_of = { λ s. s.0 };

    fn flags<'a>() -> &'a [Flag<Signals>] {
        Signals::FLAGS
    }

    fn bits(&self) -> u32 {
        self.0
    }

    fn from_bits_retain(bits: u32) -> Signals {
        Signals(bits)
    }
}

/// The signals that a call may set or clear on an object of this kind.
pub fn settable(kind: Kind) -> Signals
    ensures { result.0 ≡ settable_signals kind }
{
    match kind {
        Kind::Job | Kind::Process | Kind::Channel => Signals::USER_ALL,
        Kind::Event | Kind::EventPair => Signals::USER_ALL.union(Signals::SIGNALED),
        Kind::Port => Signals::empty(),
    }
}
