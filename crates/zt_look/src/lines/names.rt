//! Shows rights and signals by their names, if names are asked for, or as masks.

ghost use Rattle.std.specs.Prelude.{◌≡◌, ◌++◌, ◌<◌, map, OnOk, string_bytes};
ghost use Rattle.zt_look.specs.Names.{shown_bits, shown_rights, shown_signals, signal_names, right_names};

use std::alloc::AllocError;
use zt_bits::{Kind, Signals};
use zt_text::put_mask;

/// The mask of a bit, and the bit's name.
type BitName = (u32, &'static str);

/// The names of rights, as a handle has them and as they are asked for.
static RIGHTS: [BitName; 12] = [
    (0x1, "DUPLICATE"),
    (0x2, "TRANSFER"),
    (0x4, "READ"),
    (0x8, "WRITE"),
    (0x200, "DESTROY"),
    (0x1000, "SIGNAL"),
    (0x2000, "SIGNAL_PEER"),
    (0x4000, "WAIT"),
    (0x8000, "INSPECT"),
    (0x10000, "MANAGE_JOB"),
    (0x20000, "MANAGE_PROCESS"),
    (0x80000000, "SAME_RIGHTS"),
];

/// How rights and signals are shown: by their names or as masks. `kind` is the kind of the object of the signals, if it
/// is known.
#[derive(Clone, Copy)]
pub struct Naming {
    pub names: bool,
    pub kind: Option<Kind>,
}

impl Naming {
    ghost use Rattle.zt_look.specs.Lines.{of_any};
    ghost use Rattle.zt_look.specs.Names.{masks};

    /// Masks.
    pub fn masks() -> Naming
        ensures { result ≡ masks }
    {
        Naming::of_any(false)
    }

    /// Names if they are asked for, for signals of an object whose kind is not known.
    pub fn of_any(names: bool) -> Naming
        ensures { result ≡ of_any names }
    {
        Naming { names, kind: None }
    }
}

/// The signals of an object whose kind is not known. The name of bit 0x8 depends on the kind, so it is left out.
static SIGNALS_OF_ANY: [BitName; 13] = [
    (0x1, "READABLE"),
    (0x2, "WRITABLE"),
    (0x4, "PEER_CLOSED"),
    (0x10, "NO_JOBS"),
    (0x20, "NO_PROCESSES"),
    (0x1000000, "USER_0"),
    (0x2000000, "USER_1"),
    (0x4000000, "USER_2"),
    (0x8000000, "USER_3"),
    (0x10000000, "USER_4"),
    (0x20000000, "USER_5"),
    (0x40000000, "USER_6"),
    (0x80000000, "USER_7"),
];

/// The signals of an object that is neither a job nor a process.
static SIGNALS: [BitName; 14] = [
    (0x1, "READABLE"),
    (0x2, "WRITABLE"),
    (0x4, "PEER_CLOSED"),
    (0x8, "SIGNALED"),
    (0x10, "NO_JOBS"),
    (0x20, "NO_PROCESSES"),
    (0x1000000, "USER_0"),
    (0x2000000, "USER_1"),
    (0x4000000, "USER_2"),
    (0x8000000, "USER_3"),
    (0x10000000, "USER_4"),
    (0x20000000, "USER_5"),
    (0x40000000, "USER_6"),
    (0x80000000, "USER_7"),
];

/// The signals of a job or a process.
static TASK_SIGNALS: [BitName; 14] = [
    (0x1, "READABLE"),
    (0x2, "WRITABLE"),
    (0x4, "PEER_CLOSED"),
    (0x8, "TERMINATED"),
    (0x10, "NO_JOBS"),
    (0x20, "NO_PROCESSES"),
    (0x1000000, "USER_0"),
    (0x2000000, "USER_1"),
    (0x4000000, "USER_2"),
    (0x8000000, "USER_3"),
    (0x10000000, "USER_4"),
    (0x20000000, "USER_5"),
    (0x40000000, "USER_6"),
    (0x80000000, "USER_7"),
];

/// Appends rights by their names, if names are asked for, or as a mask.
#[tactic(auto, unfolding(crate::specs::Names::shown_rights))]
pub(crate) fn put_rights(text: &mut String, rights: u32, names: bool) -> Result<(), AllocError>
    ensures { OnOk result (string_bytes text.new ≡ string_bytes text.old ++ shown_rights names rights) }
{
    if names {
        put_bits(text, right_names(), rights)
    } else {
        put_mask(text, rights)
    }
}

/// Appends signals by their names, if names are asked for, or as a mask.
#[tactic(auto, unfolding(crate::specs::Names::shown_signals))]
pub(crate) fn put_signals(
    text: &mut String,
    signals: Signals,
    naming: Naming,
) -> Result<(), AllocError>
    ensures { OnOk result (string_bytes text.new ≡ string_bytes text.old ++ shown_signals naming signals.0) }
{
    if naming.names {
        put_bits(text, signal_names(naming.kind), signals.0)
    } else {
        put_mask(text, signals.0)
    }
}

/// The names of the rights.
fn right_names() -> &'static [BitName]
    ensures { map (λ e. (e.0, e.1.now)) result.now ≡ right_names }
{
    &RIGHTS
}

/// The names of the signals of an object of this kind, if the kind is known.
fn signal_names(kind: Option<Kind>) -> &'static [BitName]
    ensures { map (λ e. (e.0, e.1.now)) result.now ≡ signal_names kind }
{
    match kind {
        Some(Kind::Job | Kind::Process) => &TASK_SIGNALS,
        Some(_) => &SIGNALS,
        None => &SIGNALS_OF_ANY,
    }
}

/// Appends the bits of a mask by their names with a bar between them, and behind these the bits without a name as a
/// mask. Appends `NONE` if there are no bits.
fn put_bits(text: &mut String, names: &[BitName], bits: u32) -> Result<(), AllocError>
    ensures { OnOk result (string_bytes text.new ≡ string_bytes text.old ++ shown_bits (map (λ e. (e.0, e.1.now)) names.now) bits) }
{
    if bits == 0 {
        return text.push_str("NONE");
    }
    let mut left = bits;
    for (bit, name) in names {
        if left & *bit == 0 {
            continue;
        }
        text.push_str(name)?;
        left = left.saturating_sub(*bit);
        if left == 0 {
            return Ok(());
        }
        text.push_str("|")?;
    }
    put_mask(text, left)
}
