//! Reads masks of rights and signals, also by the names that the system's reference has for the bits.

ghost use Rattle.std.specs.Prelude.{IfSome};
ghost use Rattle.zt_logs.specs.ProofsOnly.Tokens.{value_at};
ghost use Rattle.zt_logs.specs.Numbers.{IsMask};

use crate::json_values::JsonValue;
use crate::numbers::{narrow, narrow_in};

/// The set of names in which a bit is looked up.
#[derive(Clone, Copy)]
pub(crate) enum BitNames {
    Rights,
    Signals,
}

/// The mask that a value is: a number of 32 bits, or a text of names with `|` between them. None if a name is not known.
pub(crate) fn bits_in(names: BitNames, value: &JsonValue<'_, '_>) -> Option<u32>
    ensures { IfSome result (IsMask (value_at value.now)) }
{
    match narrow_in(value) {
        Some(bits) => Some(bits),
        None => named_bits(names, value.as_str()?),
    }
}

/// The mask of names with `|` between them. None if a name is not known.
fn named_bits(names: BitNames, text: &str) -> Option<u32> {
    let mut bits = 0;
    for part in text.split('|') {
        bits |= bits_of(names, part.trim())?;
    }
    Some(bits)
}

/// The bits of a name, or of a text that is a number of 32 bits.
fn bits_of(names: BitNames, name: &str) -> Option<u32> {
    let found = match names {
        BitNames::Rights => right_named(name),
        BitNames::Signals => signal_named(name),
    };
    match found {
        Some(bits) => Some(bits),
        None => narrow(crate::numbers::number_of(name)?),
    }
}

/// The bits of a right, or of several that have one name, with `ZX_RIGHT_` or `ZX_RIGHTS_` ahead. `ZX_RIGHT_` may be left
/// out.
fn right_named(name: &str) -> Option<u32> {
    if let Some(set) = name.strip_prefix("ZX_RIGHTS_") {
        return rights_set(set);
    }
    let word = match name.strip_prefix("ZX_RIGHT_") {
        Some(word) => word,
        None => name,
    };
    match basic_right(word) {
        Some(bits) => Some(bits),
        None => other_right(word),
    }
}

/// The rights that share this name behind `ZX_RIGHTS_`.
fn rights_set(name: &str) -> Option<u32> {
    Some(match name {
        "BASIC" => 0xc003,
        "IO" => 0xc,
        "PROPERTY" => 0xc0,
        "POLICY" => 0xc00,
        _ => return None,
    })
}

/// The right of this name, if it is one that the semantics has.
fn basic_right(word: &str) -> Option<u32> {
    Some(match word {
        "NONE" => 0,
        "DUPLICATE" => 1,
        "TRANSFER" => 1 << 1,
        "READ" => 1 << 2,
        "WRITE" => 1 << 3,
        "DESTROY" => 1 << 9,
        "SIGNAL" => 1 << 12,
        "SIGNAL_PEER" => 1 << 13,
        "WAIT" => 1 << 14,
        "INSPECT" => 1 << 15,
        "MANAGE_JOB" => 1 << 16,
        "MANAGE_PROCESS" => 1 << 17,
        "SAME_RIGHTS" => 1 << 31,
        _ => return None,
    })
}

/// The right of this name, if it is one that the semantics does not have.
fn other_right(word: &str) -> Option<u32> {
    Some(match word {
        "EXECUTE" => 1 << 4,
        "MAP" => 1 << 5,
        "GET_PROPERTY" => 1 << 6,
        "SET_PROPERTY" => 1 << 7,
        "ENUMERATE" => 1 << 8,
        "SET_POLICY" => 1 << 10,
        "GET_POLICY" => 1 << 11,
        "MANAGE_THREAD" => 1 << 18,
        "APPLY_PROFILE" => 1 << 19,
        "MANAGE_SOCKET" => 1 << 20,
        "OP_CHILDREN" => 1 << 21,
        "RESIZE" => 1 << 22,
        "ATTACH_VMO" => 1 << 23,
        "MANAGE_VMO" => 1 << 24,
        _ => return None,
    })
}

/// The signals of a name. It may have `ZX_` ahead, and the kind of the object before the signal.
fn signal_named(name: &str) -> Option<u32> {
    let bare = match name.strip_prefix("ZX_") {
        Some(bare) => bare,
        None => name,
    };
    match bare.strip_prefix("USER_SIGNAL_") {
        Some(number) => user_signal(number),
        None => signal_word(without_kind(bare)),
    }
}

/// A signal that programs give their own meaning, by its number, or all eight of them.
fn user_signal(number: &str) -> Option<u32> {
    Some(match number {
        "0" => 1 << 24,
        "1" => 1 << 25,
        "2" => 1 << 26,
        "3" => 1 << 27,
        "4" => 1 << 28,
        "5" => 1 << 29,
        "6" => 1 << 30,
        "7" => 1 << 31,
        "ALL" => 0xff00_0000,
        _ => return None,
    })
}

/// The name of a signal without the kind of its object, if it has one.
fn without_kind(name: &str) -> &str {
    match name.split_once('_') {
        Some(
            (
                "CHANNEL"
                | "EVENT"
                | "EVENTPAIR"
                | "JOB"
                | "PROCESS"
                | "TASK"
                | "OBJECT"
                | "SIGNAL",
                word,
            ),
        ) => word,
        _ => name,
    }
}

/// The signal of a name that has neither `ZX_` nor a kind ahead.
fn signal_word(word: &str) -> Option<u32> {
    Some(match word {
        "NONE" => 0,
        "READABLE" => 1,
        "WRITABLE" => 1 << 1,
        "PEER_CLOSED" => 1 << 2,
        "SIGNALED" | "TERMINATED" => 1 << 3,
        "NO_JOBS" => 1 << 4,
        "NO_PROCESSES" => 1 << 5,
        "NO_CHILDREN" => 1 << 6,
        "HANDLE_CLOSED" => 1 << 23,
        _ => return None,
    })
}
