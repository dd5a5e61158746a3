//! The store: the rows of one state, with the counts and the index that follow them.

ghost use Rattle.std.specs.Prelude.{◌≡◌, ◌<◌, ◌+◌, ◌^◌, ◌↔◌, ℕ, true, false, IsTrue, IfOk, OnOk, Option, None, if◌then◌else◌};
ghost use Rattle.std.specs.Option.{option_copied};
ghost use Rattle.zt_rows.specs.declared.keys.RowKey.{RowKey};
ghost use Rattle.zt_rows.specs.declared.keys.RowKey.TheVariants as key_variant;
ghost use Rattle.zt_rows.specs.Opening.{opening, hollow};
ghost use Rattle.zt_rows.specs.PortCalls.{pending};
ghost use Rattle.zt_rows.specs.Reads.{counters, entry, message, object, packet, wait};
ghost use Rattle.zt_rows.specs.Room.{SuitsKey, HasRoom, next_key};
ghost use Rattle.zt_rows.specs.Settle.{is_child_job_of, is_child_process_of};
ghost use Rattle.zt_rows.specs.State.{row, put};
ghost use Rattle.zt_rows.specs.Support.{support_count};
ghost use Rattle.zt_rows.specs.Tests.{count_row};
ghost use Rattle.zt_cells.specs.RowSlots.{decode_slot};
ghost use Rattle.zt_cells.specs.FirstNumber.{IsFirst};
ghost use Rattle.zt_cells.specs.TableSizes.{has_place};
ghost use Rattle.zt_index.specs.Chains.{IsNext};
ghost use Rattle.zt_index.specs.Criteria.{has_entry, has_packet, is_at, is_below, is_by, is_for, is_on, objects_where, waits_where};
ghost use Rattle.zt_index.specs.ProofsOnly.KoidCounts.{keeps_itself, keeps_tasks};
ghost use Rattle.zt_store.specs.Places.{Keeps, fits, fits_row, no_places};
ghost use Rattle.zt_store.specs.StoreView.{Stored};
ghost use Rattle.zt_store.specs.ProofsOnly.RowExchange.{Exchanges, IsExchangeable};

use crate::key_columns::{handle_of, has_room, key_after, packet_of};
use crate::record::Record;
use std::alloc::{AllocError, Global};
use std::marker::Model;
use zt_bits::{Kind, Rights, Signals};
use zt_cells::{Cells, decode_slot, encode_slot};
use zt_index::{Index, KoidCounts, PacketCounts, SupportCounts, is_user_packet};
use zt_rows::{
    Counters, FIRST_HANDLE, HandleValue, Held, Koid, Life, Message, ObjectRow, Packet, ROOT_JOB,
    ROOT_PROCESS, Row, RowKey, Wait,
};

/// The first koid that is given out, one above that of the root process.
const FIRST_KOID: Koid = Koid(1026);

/// The default rights to a job, as `defaults` of `zt_bits` gives them.
const JOB_RIGHTS: Rights = Rights(0x3d203);

const FIRST_COUNTERS: Counters = Counters {
    next_koid: FIRST_KOID,
    next_wait: 0,
};

const FIRST_JOB: ObjectRow = ObjectRow {
    kind: Kind::Job,
    signals: Signals::NO_JOBS,
    link: Koid(0),
    life: Life::Live,
    next: 0,
    critical: Koid(0),
};

const FIRST_PROCESS: ObjectRow = ObjectRow {
    kind: Kind::Process,
    signals: Signals(0),
    link: ROOT_JOB,
    life: Life::Live,
    next: 1,
    critical: Koid(0),
};

const TO_ROOT_JOB: Held = Held {
    koid: ROOT_JOB,
    rights: JOB_RIGHTS,
};

/// The rows of one state, each under its key. Beside them stand how often they name each koid, how many user packets
/// each port has, and the index of waits and live tasks.
pub struct Store {
    cells: Cells,
    support_counts: SupportCounts,
    packet_counts: PacketCounts,
    index: Index,
    alloc: Global,
}

/// Drops all parts in one call. So the proof of a function that owns a store does not go through them at each exit.
impl Drop for Store {
    fn drop(self) {
        let Store {
            cells: _cells,
            support_counts: _support_counts,
            packet_counts: _packet_counts,
            index: _index,
            alloc: _,
        } = self;
    }
}

impl Model for Store {
    ghost use Rattle.std.specs.Prelude.{length};
    ghost use Rattle.zt_store.specs.ProofsOnly.StoreInvariant.{IsStore};
    ghost use Rattle.zt_store.specs.StoreView.{Stored};

    ghost Value = { Stored };

    ghost view = { λ s. record {
      state = s.cells.state;
      places = record { sizes = s.cells.sizes; koids = length s.support_counts };
    } };

    ghost invariant = { λ s. IsStore s.cells s.support_counts s.packet_counts s.index };
}

impl Store {
    /// A store with the counters at 0 and no other row. Never allocates.
    pub fn hollow(alloc: Global) -> Store
        ensures { result ≡ record { state = hollow; places = no_places } }
    {
        Store {
            cells: Cells::hollow(alloc),
            support_counts: SupportCounts::new(alloc),
            packet_counts: PacketCounts::new(alloc),
            index: Index::new(alloc),
            alloc,
        }
    }

    /// The store that a history begins with: the root job, the root process, and its handle to the root job.
    pub fn opening(alloc: Global) -> Result<Store, AllocError>
        ensures { IfOk result (λ store. store.state ≡ opening) }
    {
        let mut store = Store::hollow(alloc);
        store.keep_opening()?;
        Ok(store)
    }

    /// Puts the rows that a history begins with into a hollow store.
    fn keep_opening(&mut self) -> Result<(), AllocError>
        requires { self.old.state ≡ hollow }
        ensures { OnOk result (self.new.state ≡ opening) }
    {
        self.keep(RowKey::Counters, Row::Counters(FIRST_COUNTERS))?;
        self.keep(RowKey::Object(ROOT_JOB), Row::Object(FIRST_JOB))?;
        self.keep(RowKey::Object(ROOT_PROCESS), Row::Object(FIRST_PROCESS))?;
        self.keep(
            RowKey::Entry(ROOT_PROCESS, FIRST_HANDLE),
            Row::Entry(TO_ROOT_JOB),
        )
    }

    /// The row under the key. Never allocates.
    pub fn row(&self, key: RowKey) -> Option<&Row>
        ensures { option_copied result ≡ row self.now.state key }
    {
        self.cells.row(key)
    }

    /// The row under the key. It is inlined, so a caller that knows the key's variant looks at one table. Never allocates.
    #[inline(always)]
    pub fn look(&self, key: RowKey) -> Option<&Row>
        ensures { option_copied result ≡ row self.now.state key }
    {
        self.cells.look(key)
    }

    /// The next numbers that the system gives out. Never allocates.
    pub fn counters(&self) -> Counters
        ensures { result ≡ counters self.now.state }
    {
        self.cells.counters()
    }

    /// The object of this koid. Never allocates.
    pub fn object(&self, koid: Koid) -> Option<ObjectRow>
        ensures { result ≡ object self.now.state koid }
    {
        self.cells.object(koid)
    }

    /// What the process holds by this handle value. Never allocates.
    pub fn entry(&self, process: Koid, handle: HandleValue) -> Option<Held>
        ensures { result ≡ entry self.now.state process handle }
    {
        self.cells.entry(process, handle)
    }

    /// The message of this number in the endpoint's queue. Never allocates.
    pub fn message(&self, endpoint: Koid, number: u64) -> Option<&Message>
        ensures { option_copied result ≡ message self.now.state endpoint number }
    {
        self.cells.message(endpoint, number)
    }

    /// The packet of this number in the port. Never allocates.
    pub fn packet(&self, port: Koid, number: u64) -> Option<Packet>
        ensures { result ≡ packet self.now.state port number }
    {
        self.cells.packet(port, number)
    }

    /// The wait of this number. Never allocates.
    pub fn wait(&self, number: u64) -> Option<Wait>
        ensures { result ≡ wait self.now.state number }
    {
        self.cells.wait(number)
    }

    /// The least key above `low`, or the least of all if `low` is `None`. Never allocates.
    pub fn after(&self, low: Option<RowKey>) -> Option<RowKey>
        ensures { result ≡ next_key self.now.state low }
    {
        key_after(&self.cells, low)
    }

    /// How many supports the object has. Never allocates.
    pub fn count(&self, koid: Koid) -> u64
        ensures { result ≡ support_count self.now.state koid }
    {
        self.cells.limits();
        let object = self.object(koid);
        let numbers = self.support_counts.at(koid);
        let itself = u64::from(keeps_itself(koid, &object));
        numbers.named + tasks_kept(&object, numbers) + itself
    }

    /// How many live jobs have the koid as their parent. Never allocates.
    pub fn child_jobs(&self, koid: Koid) -> u64
        ensures { result ≡ count_row (is_child_job_of koid) self.now.state }
    {
        u64::from(self.support_counts.at(koid).jobs)
    }

    /// How many live processes have the koid as their parent. Never allocates.
    pub fn child_processes(&self, koid: Koid) -> u64
        ensures { result ≡ count_row (is_child_process_of koid) self.now.state }
    {
        u64::from(self.support_counts.at(koid).processes)
    }

    /// How many user packets are in the port. Never allocates.
    pub fn user_packets(&self, port: Koid) -> u64
        ensures { result ≡ pending self.now.state port }
    {
        self.packet_counts.at(port)
    }

    /// The least number of a message in the endpoint's queue. Never allocates.
    pub fn first_message(&self, endpoint: Koid) -> Option<u64>
        ensures first { IsFirst self.now.state (λ n. key_variant.Msg endpoint n) result }
        ensures suited { (key : RowKey) → SuitsKey key (row self.now.state key) }
    {
        self.cells.limits();
        self.cells.first_message(endpoint)
    }

    /// The least number of a packet in the port. Never allocates.
    pub fn first_packet(&self, port: Koid) -> Option<u64>
        ensures first { IsFirst self.now.state (λ n. key_variant.Packet port n) result }
        ensures suited { (key : RowKey) → SuitsKey key (row self.now.state key) }
    {
        self.cells.limits();
        self.cells.first_packet(port)
    }

    /// Whether a place for a wait was ever made here. Places are never given up, so `false` means that there never was
    /// a wait. Never allocates.
    pub fn ever_had_waits(&self) -> bool
        ensures places { IsTrue result ↔ (0 < self.now.places.sizes.waits) }
        ensures none { result ≡ false → (n : ℕ) → wait self.now.state n ≡ None }
    {
        self.cells.waits_end() > 0
    }

    /// The least number above `low` of a wait that the process made on the handle; the least of all if `low` is `None`.
    /// Never allocates, and looks only at waits in the hash bucket of the handle.
    pub fn wait_on(&self, process: Koid, handle: HandleValue, low: Option<u64>) -> Option<u64>
        ensures { IsNext (waits_where self.now.state (is_on process handle)) low result }
    {
        self.index.wait_on(&self.cells, process, handle, low)
    }

    /// The least number above `low` of a wait for the port; the least of all if `low` is `None`. Never allocates, and
    /// looks only at waits in the hash bucket of the port.
    pub fn wait_for(&self, port: Koid, low: Option<u64>) -> Option<u64>
        ensures { IsNext (waits_where self.now.state (is_for port)) low result }
    {
        self.index.wait_for(&self.cells, port, low)
    }

    /// The least number above `low` of a wait on a handle that names the object; the least of all if `low` is `None`.
    /// Never allocates, and looks only at waits in the hash bucket of the object.
    pub fn wait_at(&self, koid: Koid, low: Option<u64>) -> Option<u64>
        ensures { IsNext (waits_where self.now.state (is_at self.now.state koid)) low result }
    {
        self.index.wait_at(&self.cells, koid, low)
    }

    /// The least number above `low` of a wait that the process made; the least of all if `low` is `None`. Never
    /// allocates, and looks only at waits in the hash bucket of the process.
    pub fn wait_by(&self, process: Koid, low: Option<u64>) -> Option<u64>
        ensures { IsNext (waits_where self.now.state (is_by process)) low result }
    {
        self.index.wait_by(&self.cells, process, low)
    }

    /// The least koid above `low` of a live job or process with this parent; the least of all if `low` is `None`. Never
    /// allocates, and looks only at live jobs and processes in the hash bucket of the parent.
    pub fn task_below(&self, parent: Koid, low: Option<Koid>) -> Option<Koid>
        ensures { IsNext (objects_where self.now.state (is_below parent)) low result }
    {
        self.index.task_below(&self.cells, parent, low)
    }

    /// The least handle value above `low` under which the process has an entry; the least of all if `low` is `None`.
    /// Never allocates, and looks only at the places of this process.
    pub fn handle_of(&self, process: Koid, low: Option<HandleValue>) -> Option<HandleValue>
        ensures { IsNext (has_entry self.now.state process) low result }
    {
        handle_of(&self.cells, process, low)
    }

    /// The least number above `low` of a packet in the port; the least of all if `low` is `None`. Never allocates, and
    /// looks only at the places of this port.
    pub fn packet_of(&self, port: Koid, low: Option<u64>) -> Option<u64>
        ensures { IsNext (has_packet self.now.state port) low result }
    {
        packet_of(&self.cells, port, low)
    }

    /// Whether every number that a call may raise leaves room for one more call. Never allocates.
    pub fn room(&self) -> bool
        ensures { IsTrue result ↔ HasRoom self.now.state }
    {
        has_room(&self.cells)
    }

    /// Whether the record fits the store: each of its keys, and each koid that its rows count for, has a place in the
    /// store. They can then exchange their rows. Never allocates.
    pub fn fits(&self, kept: &Record) -> bool
        ensures { result ≡ fits self.now.places kept.now }
    {
        let keys = kept.rows.keys();
        let rows = kept.rows.rows();
        for i in 0..keys.len() {
            if !self.fits_row(&keys[i], &rows[i]) {
                return false;
            }
        }
        true
    }

    /// Whether the key, and each koid that the row counts for, has a place in the store. Never allocates.
    fn fits_row(&self, key: &RowKey, row: &Row) -> bool
        ensures { result ≡ fits_row self.now.places key.now (decode_slot key.now row.now) }
    {
        let held = decode_slot(*key, row);
        self.cells.has_place(*key) && self.support_counts.covers_if(*key, held)
    }

    /// Copies the store, with the same places, into memory of its own.
    pub fn copy(&self) -> Result<Store, AllocError>
        ensures { IfOk result (λ copied. copied ≡ self.now) }
    {
        Ok(Store {
            cells: self.cells.copy()?,
            support_counts: self.support_counts.copy()?,
            packet_counts: self.packet_counts.copy()?,
            index: self.index.copy()?,
            alloc: self.alloc,
        })
    }

    /// The allocator of the store.
    pub(crate) fn alloc(&self) -> Global {
        self.alloc
    }

    /// Makes what the row needs under the key: the place of the key, and counts for the koids that the row counts for.
    /// Fails if an allocation fails, for koids from 2^48 on, and beyond the limits of `Cells::make_place`. The rows
    /// stay as they are, even if it fails.
    #[inline(always)]
    pub(crate) fn make_room(&mut self, key: &RowKey, row: Option<&Row>) -> Result<(), AllocError>
        ensures state { self.new.state ≡ self.old.state }
        ensures kept { Keeps self.old.places self.new.places }
        ensures made { OnOk result (fits_row self.new.places key.now (option_copied row.entry) ≡ true) }
    {
        self.make_place(key)?;
        self.support_counts.grow_if(*key, row)
    }

    /// Makes the place of the key, if there is none yet.
    #[inline(always)]
    fn make_place(&mut self, key: &RowKey) -> Result<(), AllocError>
        ensures state { self.new.state ≡ self.old.state }
        ensures kept { Keeps self.old.places self.new.places }
        ensures made { OnOk result (has_place self.new.places.sizes key.now ≡ true) }
    {
        if self.cells.has_place(*key) {
            return Ok(());
        }
        match *key {
            RowKey::Object(koid) => self.add_object_place(koid),
            RowKey::Entry(process, value) => self.add_entry_place(process, value),
            _ => self.add_other_place(*key),
        }
    }

    /// Makes the place of an object.
    #[inline(never)]
    fn add_object_place(&mut self, koid: Koid) -> Result<(), AllocError>
        ensures state { self.new.state ≡ self.old.state }
        ensures kept { Keeps self.old.places self.new.places }
        ensures made { OnOk result (has_place self.new.places.sizes (key_variant.Object koid) ≡ true) }
    {
        self.add_place(&RowKey::Object(koid))
    }

    /// Makes the place of an entry.
    #[inline(never)]
    fn add_entry_place(&mut self, process: Koid, value: HandleValue) -> Result<(), AllocError>
        ensures state { self.new.state ≡ self.old.state }
        ensures kept { Keeps self.old.places self.new.places }
        ensures made { OnOk result (has_place self.new.places.sizes (key_variant.Entry process value) ≡ true) }
    {
        self.add_place(&RowKey::Entry(process, value))
    }

    /// Makes the place of any key.
    #[inline(never)]
    fn add_other_place(&mut self, key: RowKey) -> Result<(), AllocError>
        ensures state { self.new.state ≡ self.old.state }
        ensures kept { Keeps self.old.places self.new.places }
        ensures made { OnOk result (has_place self.new.places.sizes key ≡ true) }
    {
        self.add_place(&key)
    }

    /// Makes the place of the key, and with that of a packet the count of its port. It is inlined, so a caller that
    /// knows the key's variant has the key taken apart once.
    #[inline(always)]
    fn add_place(&mut self, key: &RowKey) -> Result<(), AllocError>
        ensures state { self.new.state ≡ self.old.state }
        ensures kept { Keeps self.old.places self.new.places }
        ensures made { OnOk result (has_place self.new.places.sizes key.now ≡ true) }
    {
        self.index.grow_for(*key)?;
        self.packet_counts.grow_for(*key)?;
        self.cells.make_place(*key)
    }

    /// Exchanges the slot with the one under the key. Either may stand for none. Never allocates.
    #[inline(always)]
    pub(crate) fn exchange(&mut self, key: &RowKey, kept: &mut Row)
        requires { IsExchangeable self.old key.now kept.old }
        ensures { Exchanges self.old self.new key.now kept.old kept.new }
    {
        match *key {
            RowKey::Counters => self.exchange_counters(kept),
            RowKey::Object(koid) => self.exchange_object(koid, kept),
            RowKey::Entry(process, value) => self.exchange_entry(process, value, kept),
            RowKey::Msg(owner, number) => self.exchange_message(owner, number, kept),
            RowKey::Packet(owner, number) => self.exchange_packet(owner, number, kept),
            RowKey::Wait(number) => self.exchange_wait(number, kept),
        }
    }

    /// Exchanges the counters.
    #[inline(never)]
    fn exchange_counters(&mut self, kept: &mut Row)
        requires { IsExchangeable self.old key_variant.Counters kept.old }
        ensures { Exchanges self.old self.new key_variant.Counters kept.old kept.new }
    {
        self.exchange_under(&RowKey::Counters, kept);
    }

    /// Exchanges the entry, or none, with what the process holds by this value.
    #[inline(never)]
    fn exchange_entry(&mut self, process: Koid, value: HandleValue, kept: &mut Row)
        requires { IsExchangeable self.old (key_variant.Entry process value) kept.old }
        ensures { Exchanges self.old self.new (key_variant.Entry process value) kept.old kept.new }
    {
        self.exchange_under(&RowKey::Entry(process, value), kept);
    }

    /// Exchanges the message, or none, with the one of this number in the queue.
    #[inline(never)]
    fn exchange_message(&mut self, owner: Koid, number: u64, kept: &mut Row)
        requires { IsExchangeable self.old (key_variant.Msg owner number) kept.old }
        ensures { Exchanges self.old self.new (key_variant.Msg owner number) kept.old kept.new }
    {
        self.exchange_under(&RowKey::Msg(owner, number), kept);
    }

    /// Exchanges the packet, or none, with the one of this number in the port.
    #[inline(never)]
    fn exchange_packet(&mut self, owner: Koid, number: u64, kept: &mut Row)
        requires { IsExchangeable self.old (key_variant.Packet owner number) kept.old }
        ensures { Exchanges self.old self.new (key_variant.Packet owner number) kept.old kept.new }
    {
        self.exchange_under(&RowKey::Packet(owner, number), kept);
    }

    /// Exchanges the wait, or none, with the one of this number.
    #[inline(never)]
    fn exchange_wait(&mut self, number: u64, kept: &mut Row)
        requires { IsExchangeable self.old (key_variant.Wait number) kept.old }
        ensures { Exchanges self.old self.new (key_variant.Wait number) kept.old kept.new }
    {
        self.exchange_under(&RowKey::Wait(number), kept);
    }

    /// Exchanges the slot with the one under the key. It is inlined, so a caller that knows the key's variant has
    /// the key taken apart once.
    #[inline(always)]
    fn exchange_under(&mut self, key: &RowKey, kept: &mut Row)
        requires { IsExchangeable self.old key.now kept.old }
        ensures { Exchanges self.old self.new key.now kept.old kept.new }
    {
        self.cells.limits();
        let inward = decode_slot(*key, kept);
        self.index.follow(&self.cells, *key, inward);
        self.support_counts.raise_if(*key, inward);
        let user_came = is_user_packet(inward);
        self.cells.exchange(*key, kept);
        let outward = decode_slot(*key, kept);
        self.support_counts.lower_if(*key, outward);
        self.packet_counts
            .follow(*key, user_came, is_user_packet(outward));
    }

    /// Exchanges the object, or none, with the one of this koid.
    #[inline(never)]
    fn exchange_object(&mut self, koid: Koid, kept: &mut Row)
        requires { IsExchangeable self.old (key_variant.Object koid) kept.old }
        ensures { Exchanges self.old self.new (key_variant.Object koid) kept.old kept.new }
    {
        if !self.exchange_alike(koid, kept) {
            self.exchange_under(&RowKey::Object(koid), kept);
        }
    }

    /// If both objects are there and have the same kind, life and link, exchanges them and returns `true`. Else nothing changes.
    /// Most objects that are put are such: they count for the same supports and stand in the same bucket, so only the rows change.
    #[inline(always)]
    fn exchange_alike(&mut self, koid: Koid, kept: &mut Row) -> bool
        requires { IsExchangeable self.old (key_variant.Object koid) kept.old }
        ensures done { IsTrue result → Exchanges self.old self.new (key_variant.Object koid) kept.old kept.new }
        ensures same { result ≡ false → (self.new ≡ self.old) × (kept.new ≡ kept.old) }
    {
        match kept {
            Row::Object(object) => self.cells.exchange_alike(koid, object),
            _ => false,
        }
    }

    /// Puts the row under the key.
    fn keep(&mut self, key: RowKey, row: Row) -> Result<(), AllocError>
        requires { SuitsKey key (Option.Some row) }
        ensures { OnOk result (self.new.state ≡ put self.old.state key (Option.Some row)) }
    {
        self.make_room(&key, Some(&row))?;
        let mut kept = encode_slot(Some(row));
        self.exchange(&key, &mut kept);
        drop(kept);
        Ok(())
    }
}

/// Whether the live tasks below the object support it.
fn keeps_tasks(object: &Option<ObjectRow>) -> bool
    ensures { result ≡ keeps_tasks object.now }
{
    match object {
        Some(object) => object.is_live_job(),
        None => false,
    }
}

/// How many tasks support the object, by the counts of its koid.
fn tasks_kept(object: &Option<ObjectRow>, numbers: KoidCounts) -> u64
    requires jobs { numbers.jobs < 2 ^ 62 }
    requires processes { numbers.processes < 2 ^ 62 }
    ensures count { result ≡ (if keeps_tasks object.now then numbers.jobs + numbers.processes else 0) }
    ensures few { result < 2 ^ 63 }
{
    if keeps_tasks(object) {
        u64::from(numbers.jobs) + u64::from(numbers.processes)
    } else {
        0
    }
}

/// Whether the object supports itself.
fn keeps_itself(koid: Koid, object: &Option<ObjectRow>) -> bool
    ensures { result ≡ keeps_itself koid object.now }
{
    match object {
        Some(object) => object.keeps_itself(koid),
        None => false,
    }
}
