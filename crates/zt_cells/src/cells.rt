//! The rows of a state in tables, each in the place of its key.

ghost use Rattle.std.specs.Prelude.{◌≡◌, ◌≤◌, ◌+◌, ◌-◌, ◌*◌, ◌^◌, ℕ, true, false, length, slice_index_or, IfOk, IsTrue, OnOk, None};
ghost use Rattle.std.specs.Option.{option_copied};
ghost use Rattle.zt_rows.specs.declared.keys.RowKey.{RowKey};
ghost use Rattle.zt_rows.specs.declared.keys.RowKey.TheVariants as key_variant;
ghost use Rattle.zt_rows.specs.Opening.{hollow};
ghost use Rattle.zt_rows.specs.Reads.{counters, entry, message, object, packet, wait};
ghost use Rattle.zt_rows.specs.Room.{SuitsKey};
ghost use Rattle.zt_rows.specs.State.{row, put};
ghost use Rattle.zt_cells.specs.AlikeObjects.{AlikeExchanged};
ghost use Rattle.zt_cells.specs.RowSlots.{decode_slot};
ghost use Rattle.zt_cells.specs.TableSizes.{most_places, objects_after, owners_in, packets_after, waits_after, has_place, no_sizes};
ghost use Rattle.zt_cells.specs.CellsView.{CellsView};
ghost use Rattle.zt_cells.specs.FirstNumber.{IsFirst, IsNextFrom};

mod alike_objects;
mod handle_tables;
mod mark_levels;
mod mark_words;
mod marked_table;
mod marks;
mod place;
mod row_tables;
mod table;
mod tables_by_owner;

use crate::cells::row_tables::{RowTables, place_of};
use crate::limits::MOST_PLACES;
use std::alloc::{AllocError, Global};
use std::marker::Model;
use zt_rows::{Counters, HandleValue, Held, Koid, Message, ObjectRow, Packet, Row, RowKey, Wait};

/// The rows, each in the place of its key.
#[derive(Drop)]
pub struct Cells {
    tables: RowTables,
    /// The number of places in all tables, without that of the counters.
    places: usize,
}

impl Model for Cells {
    ghost use Rattle.zt_cells.specs.ProofsOnly.RowTables.{sizes_of, state_in, IsCells};
    ghost use Rattle.zt_cells.specs.CellsView.{CellsView};

    ghost Value = { CellsView };

    ghost view = { λ c. record {
      state = state_in c.tables;
      sizes = sizes_of c.tables;
    } };

    ghost invariant = { λ c. IsCells c.tables c.places };
}

impl Cells {
    /// Cells with the counters at 0 and no other row. Never allocates.
    #[tactic(auto, unfolding(crate::specs::ProofsOnly::RowTables::state_in, crate::specs::ProofsOnly::RowTables::sizes_of, zt_rows::specs::Opening::hollow))]
    pub fn hollow(alloc: Global) -> Cells
        ensures { result ≡ record { state = hollow; sizes = no_sizes } }
    {
        Cells {
            tables: RowTables::new(
                alloc,
                Row::Counters(Counters {
                    next_koid: Koid(0),
                    next_wait: 0,
                }),
            ),
            places: 0,
        }
    }

    /// The row under the key. Never allocates.
    pub fn row(&self, key: RowKey) -> Option<&Row>
        ensures { option_copied result ≡ row self.now.state key }
    {
        self.look(key)
    }

    /// The row under the key. It is inlined, so a caller that knows the key's variant looks at one table. Never allocates.
    #[inline(always)]
    pub fn look(&self, key: RowKey) -> Option<&Row>
        ensures { option_copied result ≡ row self.now.state key }
    {
        self.tables.row(key)
    }

    /// The next numbers that the system gives out. Never allocates.
    pub fn counters(&self) -> Counters
        ensures { result ≡ counters self.now.state }
    {
        match self.look(RowKey::Counters) {
            Some(Row::Counters(counters)) => *counters,
            _ => Counters {
                next_koid: Koid(0),
                next_wait: 0,
            },
        }
    }

    /// The object of this koid. Never allocates.
    pub fn object(&self, koid: Koid) -> Option<ObjectRow>
        ensures { result ≡ object self.now.state koid }
    {
        Row::as_object(self.look(RowKey::Object(koid))).copied()
    }

    /// What the process holds by this handle value. Never allocates.
    pub fn entry(&self, process: Koid, handle: HandleValue) -> Option<Held>
        ensures { result ≡ entry self.now.state process handle }
    {
        Row::as_entry(self.look(RowKey::Entry(process, handle)))
    }

    /// The message of this number in the endpoint's queue. Never allocates.
    pub fn message(&self, endpoint: Koid, number: u64) -> Option<&Message>
        ensures { option_copied result ≡ message self.now.state endpoint number }
    {
        Row::as_message(self.look(RowKey::Msg(endpoint, number)))
    }

    /// The packet of this number in the port. Never allocates.
    pub fn packet(&self, port: Koid, number: u64) -> Option<Packet>
        ensures { result ≡ packet self.now.state port number }
    {
        Row::as_packet(self.look(RowKey::Packet(port, number)))
    }

    /// The wait of this number. Never allocates.
    pub fn wait(&self, number: u64) -> Option<Wait>
        ensures { result ≡ wait self.now.state number }
    {
        Row::as_wait(self.look(RowKey::Wait(number)))
    }

    /// States what holds of the rows: each suits its key, and there are at most 2^48 + 1 of them. No entry stands under
    /// a number that is no handle value, and no object under a koid from 2^32 - 2 on.
    pub fn limits(&self)
        ensures suited { (key : RowKey) → SuitsKey key (row self.now.state key) }
        ensures few { length self.now.state.rows ≤ 2 ^ 48 + 1 }
        ensures bounded { (x h : ℕ) → 2 ^ 32 ≤ h → row self.now.state (key_variant.Entry x h) ≡ None }
        ensures low { (x : ℕ) → 2 ^ 32 - 2 ≤ x → row self.now.state (key_variant.Object x) ≡ None }
    {
        self.tables.entries.limits();
        self.tables.objects.limits();
    }

    /// Whether the key has its place. Never allocates.
    #[inline(always)]
    pub fn has_place(&self, key: RowKey) -> bool
        ensures { result ≡ has_place self.now.sizes key }
    {
        self.tables.has_place(key)
    }

    /// Makes the place of the key, and those below it in its table. A table that grows requests all its new places at
    /// once. Fails if an allocation fails, and for owners from 2^48 on. Fails also beyond 2^48 places in all, or
    /// 2^32 - 2 in one table. Rows and places that are there stay, even if it fails.
    #[inline(always)]
    pub fn make_place(&mut self, key: RowKey) -> Result<(), AllocError>
        ensures state { self.new.state ≡ self.old.state }
        ensures kept { (k : RowKey) → has_place self.old.sizes k ≡ true → has_place self.new.sizes k ≡ true }
        ensures made { OnOk result (has_place self.new.sizes key ≡ true) }
        ensures waits { self.new.sizes.waits ≤ waits_after key self.old.sizes.waits }
        ensures objects { self.new.sizes.objects ≤ objects_after key self.old.sizes.objects }
        ensures packets { (x : ℕ) → slice_index_or self.new.sizes.packets x 0 ≤ packets_after key x (slice_index_or self.old.sizes.packets x 0) }
    {
        // Each call that takes the key gets a copy: the prover does not cover a second use of an enum that was passed by value.
        let (asked, counted) = (key, key);
        let place = place_of(asked);
        let len = self.tables.len_at(counted);
        if place < len {
            return Ok(());
        }
        if place - len >= MOST_PLACES as usize - self.places {
            return Err(AllocError);
        }
        self.tables.grow(key)?;
        self.places += place - len + 1;
        Ok(())
    }

    /// Exchanges the slot with the one in the place of the key. Either may stand for none. Never allocates.
    #[inline(always)]
    pub fn exchange(&mut self, key: RowKey, kept: &mut Row)
        requires placed { has_place self.old.sizes key ≡ true }
        requires suited { SuitsKey key (decode_slot key kept.old) }
        ensures put { self.new ≡ record { state = put self.old.state key (decode_slot key kept.old); sizes = self.old.sizes } }
        ensures was { decode_slot key kept.new ≡ row self.old.state key }
    {
        self.tables.exchange(key, kept);
    }

    /// If the object of this koid has the same kind, life and link, exchanges the two and returns `true`. Else nothing
    /// changes. Never allocates.
    #[inline(always)]
    pub fn exchange_alike(&mut self, koid: Koid, object: &mut ObjectRow) -> bool
        requires { has_place self.old.sizes (key_variant.Object koid) ≡ true }
        ensures done { IsTrue result → AlikeExchanged self.old self.new koid object.old object.new }
        ensures same { result ≡ false → (self.new ≡ self.old) × (object.new ≡ object.old) }
    {
        self.tables.exchange_alike(koid, object)
    }

    /// Copies the cells, with the same places, into memory of their own.
    pub fn copy(&self) -> Result<Cells, AllocError>
        ensures { IfOk result (λ copied. copied ≡ self.now) }
    {
        Ok(Cells {
            tables: self.tables.copy()?,
            places: self.places,
        })
    }

    /// The least number of a message in the endpoint's queue. Never allocates, and walks over no message that went.
    pub fn first_message(&self, endpoint: Koid) -> Option<u64>
        ensures { IsFirst self.now.state (λ n. key_variant.Msg endpoint n) result }
    {
        self.tables.messages.next_from(endpoint.0 as usize, 0)
    }

    /// The least number of a packet in the port. Never allocates, and walks over no packet that went.
    pub fn first_packet(&self, port: Koid) -> Option<u64>
        ensures { IsFirst self.now.state (λ n. key_variant.Packet port n) result }
    {
        self.tables.packets.next_from(port.0 as usize, 0)
    }

    /// The least number, from this one on, of a packet in the port. Never allocates, and walks over no packet that went.
    pub fn next_packet(&self, port: Koid, from: u64) -> Option<u64>
        ensures { IsNextFrom self.now.state (λ n. key_variant.Packet port n) from result }
    {
        self.tables.packets.next_from(port.0 as usize, from)
    }

    /// The least handle value, from this one on, under which the process has an entry. Never allocates, and walks over
    /// no handle that was closed.
    pub fn next_entry(&self, process: Koid, from: u64) -> Option<HandleValue>
        ensures { IsNextFrom self.now.state (λ h. key_variant.Entry process h) from result }
    {
        self.tables.entries.next_from(process, from)
    }

    // ---- where walks over all rows end

    /// From this koid on there is no object.
    pub fn objects_end(&self) -> u64
        ensures end { (x : ℕ) → result ≤ x → row self.now.state (key_variant.Object x) ≡ None }
        ensures places { result ≡ self.now.sizes.objects }
    {
        self.tables.objects.len() as u64
    }

    /// From this koid on no owner has entries, messages or packets.
    pub fn owners_end(&self) -> u64
        ensures entries { (x h : ℕ) → result ≤ x → row self.now.state (key_variant.Entry x h) ≡ None }
        ensures messages { (x n : ℕ) → result ≤ x → row self.now.state (key_variant.Msg x n) ≡ None }
        ensures packets { (x n : ℕ) → result ≤ x → row self.now.state (key_variant.Packet x n) ≡ None }
        ensures places { result ≡ owners_in self.now.sizes }
    {
        let owners = self
            .tables
            .messages
            .owners()
            .max(self.tables.packets.owners());
        self.tables.entries.owners().max(owners) as u64
    }

    /// From this value on the process has no entry.
    pub fn entries_end(&self, process: Koid) -> u64
        ensures end { (h : ℕ) → result ≤ h → row self.now.state (key_variant.Entry process h) ≡ None }
        ensures few { result ≤ 2 ^ 51 }
        ensures places { result ≡ 4 * most_places self.now.sizes.entries process }
    {
        self.tables.entries.end_of(process) as u64
    }

    /// From this number on the endpoint has no message.
    pub fn messages_end(&self, endpoint: Koid) -> u64
        ensures end { (n : ℕ) → result ≤ n → row self.now.state (key_variant.Msg endpoint n) ≡ None }
        ensures places { result ≡ slice_index_or self.now.sizes.messages endpoint 0 }
    {
        self.tables.messages.len_of(endpoint.0 as usize) as u64
    }

    /// From this number on the port has no packet.
    pub fn packets_end(&self, port: Koid) -> u64
        ensures end { (n : ℕ) → result ≤ n → row self.now.state (key_variant.Packet port n) ≡ None }
        ensures places { result ≡ slice_index_or self.now.sizes.packets port 0 }
    {
        self.tables.packets.len_of(port.0 as usize) as u64
    }

    /// From this number on there is no wait.
    pub fn waits_end(&self) -> u64
        ensures end { (n : ℕ) → result ≤ n → row self.now.state (key_variant.Wait n) ≡ None }
        ensures places { result ≡ self.now.sizes.waits }
    {
        self.tables.waits.len() as u64
    }
}
