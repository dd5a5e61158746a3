//! Rights: their bits, what a request for rights gets, and the default rights of each kind.

ghost use Rattle.std.specs.Prelude.{⊤, ◌≡◌, ◌↔◌, IsTrue, [], ◌∷◌, codes};
ghost use Rattle.std.specs.Option.{option_map};
ghost use Rattle.zt_bits.specs.Tables.{IsSubset, default_rights, asked_rights};

use crate::kinds::Kind;
use bitflags::{Flag, Flags, bitflag_items};

/// The rights of a handle: what its holder may do with the object, one bit for each right.
#[derive(Clone, Copy, Debug, PartialEq, Eq)]
pub struct Rights(pub u32);

bitflag_items! {
    impl Rights: u32 {
        const DUPLICATE = 0x1;
        const TRANSFER = 0x2;
        const READ = 0x4;
        const WRITE = 0x8;
        const DESTROY = 0x200;
        const SIGNAL = 0x1000;
        const SIGNAL_PEER = 0x2000;
        const WAIT = 0x4000;
        const INSPECT = 0x8000;
        const MANAGE_JOB = 0x10000;
        const MANAGE_PROCESS = 0x20000;
        const SAME_RIGHTS = 0x80000000;
    }
}

impl Flags for Rights {
    type Bits = u32;

    ghost exact = { ⊤ };

    ghost table = { (codes "DUPLICATE", 0x1) ∷ (codes "TRANSFER", 0x2) ∷ (codes "READ", 0x4) ∷ (codes "WRITE", 0x8)
        ∷ (codes "DESTROY", 0x200) ∷ (codes "SIGNAL", 0x1000) ∷ (codes "SIGNAL_PEER", 0x2000)
        ∷ (codes "WAIT", 0x4000) ∷ (codes "INSPECT", 0x8000) ∷ (codes "MANAGE_JOB", 0x10000)
        ∷ (codes "MANAGE_PROCESS", 0x20000) ∷ (codes "SAME_RIGHTS", 0x80000000) ∷ [] };

    ghost set_of = { λ r. r.0 };

    fn flags<'a>() -> &'a [Flag<Rights>] {
        Rights::FLAGS
    }

    fn bits(&self) -> u32 {
        self.0
    }

    fn from_bits_retain(bits: u32) -> Rights {
        Rights(bits)
    }
}

impl Rights {
    /// The basic rights, which most kinds have by default: to transfer and duplicate the handle, and to wait on its
    /// object and inspect it.
    pub const BASIC: Rights = Rights(
        Rights::TRANSFER.0 | Rights::DUPLICATE.0 | Rights::WAIT.0 | Rights::INSPECT.0,
    );

    /// Whether each wanted right is among these rights.
    pub fn allows(self, wanted: Rights) -> bool
        ensures { IsTrue result ↔ IsSubset wanted.0 self.0 }
    {
        self.contains(wanted)
    }
}

/// The rights that a request for `mask` gets from a handle with the rights `old`. `Rights::SAME_RIGHTS` alone gives
/// `old`. Any other mask gives itself if all its bits are in `old`, and else nothing.
pub fn asked(mask: u32, old: Rights) -> Option<Rights>
    ensures { option_map (λ r. r.0) result ≡ asked_rights mask old.0 }
{
    if mask == Rights::SAME_RIGHTS.0 {
        Some(old)
    } else if old.allows(Rights(mask)) {
        Some(Rights(mask))
    } else {
        None
    }
}

/// The default rights of the kind: those of the handle that a call makes for a new object.
pub fn defaults(kind: Kind) -> Rights
    ensures { result.0 ≡ default_rights kind }
{
    match kind {
        Kind::Job => Rights::BASIC
            .union(Rights::DESTROY)
            .union(Rights::SIGNAL)
            .union(Rights::MANAGE_JOB)
            .union(Rights::MANAGE_PROCESS),
        Kind::Process => Rights::BASIC.union(Rights::DESTROY).union(Rights::SIGNAL),
        Kind::Channel => Rights::BASIC
            .difference(Rights::DUPLICATE)
            .union(Rights::READ)
            .union(Rights::WRITE)
            .union(Rights::SIGNAL)
            .union(Rights::SIGNAL_PEER),
        Kind::Event => Rights::BASIC.union(Rights::SIGNAL),
        Kind::EventPair => Rights::BASIC
            .union(Rights::SIGNAL)
            .union(Rights::SIGNAL_PEER),
        Kind::Port => Rights::BASIC
            .difference(Rights::WAIT)
            .union(Rights::READ)
            .union(Rights::WRITE),
    }
}
