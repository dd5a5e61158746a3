//! Counts the user packets of each port.

ghost use Rattle.std.specs.Prelude.{◌≡◌, ◌≤◌, ◌<◌, ◌+◌, ◌^◌, ℕ, length, IfOk, OnOk, slice_index_or};
ghost use Rattle.std.specs.Option.{option_copied};
ghost use Rattle.zt_rows.specs.Opening.{hollow};
ghost use Rattle.zt_cells.specs.CellsView.{CellsView};
ghost use Rattle.zt_cells.specs.TableSizes.{no_sizes};
ghost use Rattle.zt_index.specs.PacketCounts.{ArePending, HasNumber, counted_for, is_user_packet};

use std::alloc::{AllocError, Global};
use std::marker::Model;
use zt_cells::MOST_PLACES;
use zt_rows::{Koid, Packet, Row, RowKey};

/// How many user packets are in each port, by koid from 0 on, as far as ports have places for packets.
#[derive(Drop)]
pub struct PacketCounts {
    numbers: Vec<u64>,
}

impl Model for PacketCounts {
    ghost use Rattle.std.specs.Prelude.{ℕ, List};

    ghost Value = { List ℕ };

    ghost view = { λ t. t.numbers.items };
}

impl PacketCounts {
    /// No counts. Never allocates.
    pub fn new(alloc: Global) -> PacketCounts
        ensures { ArePending (record { state = hollow; sizes = no_sizes }) result }
    {
        PacketCounts {
            numbers: Vec::new(alloc),
        }
    }

    /// How many user packets are in the port. Never allocates.
    pub fn at(&self, port: Koid) -> u64
        ensures { result ≡ slice_index_or self.now port 0 }
    {
        match self.numbers.get(port.0 as usize) {
            Some(number) => *number,
            None => 0,
        }
    }

    /// Makes a count for the port, if the key is that of a packet. Fails if an allocation fails, and for koids from 2^48 on.
    #[inline(always)]
    pub fn grow_for(&mut self, key: RowKey) -> Result<(), AllocError>
        ensures same { (s : CellsView) → ArePending s self.old → ArePending s self.new }
        ensures made { OnOk result (HasNumber key self.new) }
    {
        match key {
            RowKey::Packet(port, _) => self.grow_to(port),
            _ => Ok(()),
        }
    }

    /// Makes a count for the port. Fails if an allocation fails, and for koids from 2^48 on.
    fn grow_to(&mut self, port: Koid) -> Result<(), AllocError>
        ensures same { (x : ℕ) → slice_index_or self.new x 0 ≡ slice_index_or self.old x 0 }
        ensures kept { length self.old ≤ length self.new }
        ensures made { OnOk result (port < length self.new) }
    {
        if port.0 < self.numbers.len() as u64 {
            return Ok(());
        }
        if port.0 >= MOST_PLACES {
            return Err(AllocError);
        }
        self.numbers.resize(port.0 as usize + 1, 0)
    }

    /// Updates the count for an exchange of the row under the key. `came` and `went` tell whether the row that came and
    /// the one that went are user packets. Never allocates.
    #[inline(always)]
    pub fn follow(&mut self, key: RowKey, came: bool, went: bool)
        requires within { HasNumber key self.old }
        requires few { (x : ℕ) → slice_index_or self.old x 0 < 2 ^ 63 }
        requires there { (x : ℕ) → counted_for x key went ≤ slice_index_or self.old x 0 }
        ensures moved { (x : ℕ) → slice_index_or self.new x 0 + counted_for x key went ≡ slice_index_or self.old x 0 + counted_for x key came }
        ensures len { length self.new ≡ length self.old }
    {
        if let RowKey::Packet(port, _) = key {
            let pending = &mut self.numbers[port.0 as usize];
            *pending = *pending + u64::from(came) - u64::from(went);
        }
    }

    /// Copies the counts into memory of their own.
    pub fn copy(&self) -> Result<PacketCounts, AllocError>
        ensures { IfOk result (λ copied. copied ≡ self.now) }
    {
        let numbers = Vec::from_slice(*self.numbers.allocator(), self.numbers.as_slice())?;
        Ok(PacketCounts { numbers })
    }
}

/// Whether there is a row and it is a user packet.
#[inline(always)]
pub fn is_user_packet(row: Option<&Row>) -> bool
    ensures { result ≡ is_user_packet (option_copied row.entry) }
{
    match row {
        Some(Row::Packet(Packet::User { .. })) => true,
        _ => false,
    }
}
