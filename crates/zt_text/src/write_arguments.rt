//! The arguments of a `channel_write`, before its parcel is allocated.

ghost use Rattle.std.specs.Prelude.{◌≡◌, IfOk, IfErr};
ghost use Rattle.zt_rows.specs.declared.calls.Call.TheVariants.{ChannelWrite};
ghost use Rattle.zt_rows.specs.declared.refusals.Refusal.TheVariants.{OutOfMemory};

use crate::bytes::Digits;
use crate::lists::HandleList;
use std::alloc::Global;
use std::marker::Model;
use zt_rows::{Call, HandleValue, Parcel, Refusal};

/// A `channel_write` as its line has it, without memory of its own.
#[derive(Drop)]
pub struct Write<'a> {
    handle: HandleValue,
    bytes: Digits<'a>,
    handles: HandleList<'a>,
}

impl<'a> Model for Write<'a> {
    ghost use Rattle.zt_rows.specs.declared.calls.Call.{Call};
    ghost use Rattle.zt_rows.specs.declared.calls.Call.TheVariants.{ChannelWrite};

    ghost Value = { Call };

    ghost view = { λ w. ChannelWrite w.handle (record { bytes = w.bytes; handles = w.handles }) };
}

impl<'a> Write<'a> {
    /// A write of these bytes and handles to a handle.
    pub fn new(handle: HandleValue, bytes: Digits<'a>, handles: HandleList<'a>) -> Write<'a>
        ensures { result ≡ ChannelWrite handle (record { bytes = bytes.entry; handles = handles.entry }) }
    {
        Write {
            handle,
            bytes,
            handles,
        }
    }

    /// Makes the call, and allocates its parcel. Its only error is `OutOfMemory`.
    pub fn to_call(&self, alloc: Global) -> Result<Call, Refusal>
        ensures ok { IfOk result (λ call. call ≡ self.now) }
        ensures refused { IfErr result (λ refusal. refusal ≡ OutOfMemory) }
    {
        let handle = self.handle;
        let bytes = self.bytes.to_vec(alloc)?;
        let handles = self.handles.to_vec(alloc)?;
        match Parcel::new(bytes, handles) {
            Some(parcel) => Ok(Call::ChannelWrite { handle, parcel }),
            None => unreachable!(),
        }
    }
}
