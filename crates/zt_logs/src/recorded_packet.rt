//! The packet of a reply in a log.

ghost use Rattle.std.specs.Prelude.{◌≡◌, Some, None, IfOk};

use crate::logged::LoggedPacket;
use std::alloc::{AllocError, Global};
use std::marker::Model;

/// The packet that a caller got, if the log tells it. Few replies have one, so it lies in memory of its own.
#[derive(Debug, Drop)]
pub struct RecordedPacket {
    packet: Option<Box<LoggedPacket>>,
}

impl Model for RecordedPacket {
    ghost use Rattle.std.specs.Prelude.{Option};
    ghost use Rattle.std.specs.Option.{option_map};
    ghost use Rattle.zt_logs.specs.declared.logged.LoggedPacket.{LoggedPacket};

    ghost Value = { Option LoggedPacket };

    ghost view = { λ recorded. option_map (λ packet. packet.value) recorded.packet };
}

impl RecordedPacket {
    /// No packet.
    pub(crate) fn none() -> RecordedPacket
        ensures { result ≡ None }
    {
        RecordedPacket { packet: None }
    }

    /// This packet.
    pub(crate) fn new(alloc: Global, packet: LoggedPacket) -> Result<RecordedPacket, AllocError>
        ensures { IfOk result (λ recorded. recorded ≡ Some packet) }
    {
        let packet = Box::new(alloc, packet)?;
        Ok(RecordedPacket {
            packet: Some(packet),
        })
    }

    /// The packet, if the log tells it.
    pub fn get(&self) -> Option<LoggedPacket>
        ensures { result ≡ self.now }
    {
        match &self.packet {
            Some(packet) => Some(**packet),
            None => None,
        }
    }
}
