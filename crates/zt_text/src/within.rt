//! Shows that numbers, masks and bytes are in the ranges of their types.

ghost use Rattle.std.specs.List.{All};
ghost use Rattle.zt_text.specs.Calls.{IsByte, IsHandle, IsMask, IsKey, IsCode};
ghost use Rattle.zt_text.specs.Rows.{IsHeldWithin, IsLifeWithin, IsPacketWithin};

use zt_rows::{HandleValue, Held, Life, Packet};

/// A handle value has 32 bits.
pub fn handle_is_within(handle: HandleValue)
    ensures { IsHandle handle }
{
    let _number = handle.0;
}

/// A mask has 32 bits.
pub fn mask_is_within(bits: u32)
    ensures { IsMask bits }
{
    let _bits = bits;
}

/// A key has 64 bits.
pub fn key_is_within(key: u64)
    ensures { IsKey key }
{
    let _key = key;
}

/// A code has 64 bits and a sign.
pub fn code_is_within(code: i64)
    ensures { IsCode code }
{
    let _code = code;
}

/// Each byte has eight bits.
pub fn bytes_are_within(bytes: &[u8])
    ensures { All IsByte bytes.now }
{
    for byte in bytes {
        let _byte = *byte;
    }
}

/// Each handle value has 32 bits.
pub fn handles_are_within(handles: &[HandleValue])
    ensures { All IsHandle handles.now }
{
    for handle in handles {
        handle_is_within(*handle);
    }
}

/// A held handle has a koid of 64 bits and rights of 32 bits.
pub fn held_is_within(held: Held)
    ensures { IsHeldWithin held }
{
    key_is_within(held.koid.0);
    mask_is_within(held.rights.0);
}

/// Each held handle has a koid of 64 bits and rights of 32 bits.
pub fn handles_held_are_within(handles: &[Held])
    ensures { All IsHeldWithin handles.now }
{
    for held in handles {
        held_is_within(*held);
    }
}

/// The exit code of a process has 64 bits and a sign.
pub fn life_is_within(life: Life)
    ensures { IsLifeWithin life }
{
    if let Life::Exited(code) = life {
        code_is_within(code);
    }
}

/// The numbers, masks and bytes of a packet are in the ranges of their types.
pub fn packet_is_within(packet: &Packet)
    ensures { IsPacketWithin packet.now }
{
    match *packet {
        Packet::User { key, ref bytes } => {
            key_is_within(key);
            bytes_are_within(bytes);
        }
        Packet::Signal {
            key,
            trigger,
            observed,
            process,
            handle,
        } => {
            key_is_within(key);
            mask_is_within(trigger.0);
            mask_is_within(observed.0);
            key_is_within(process.0);
            handle_is_within(handle);
        }
    }
}
