//! The index: hash buckets by which waits and live jobs and processes are found.

ghost use Rattle.std.specs.Prelude.{◌≡◌, ◌≤◌, ◌<◌, ◌^◌, ◌+◌, ℕ, true, false, length, IfOk, OnOk, IfSome, if◌then◌else◌};
ghost use Rattle.std.specs.Option.{option_and_then, option_copied, option_map, option_map_or};
ghost use Rattle.zt_rows.specs.Opening.{hollow};
ghost use Rattle.zt_rows.specs.Reads.{entry, object, wait};
ghost use Rattle.zt_rows.specs.State.{put};
ghost use Rattle.zt_cells.specs.CellsView.{CellsView};
ghost use Rattle.zt_cells.specs.TableSizes.{has_place, no_sizes};
ghost use Rattle.zt_index.specs.Chains.{IsNext, bucket_at};
ghost use Rattle.zt_index.specs.ProofsOnly.Chains.{is_in};
ghost use Rattle.zt_index.specs.Criteria.{is_at, is_below, is_by, is_for, is_on, names, objects_where, waits_where};
ghost use Rattle.zt_index.specs.IndexInvariant.{HasBuckets, IsIndexed, IsRoomy, bucket_below, bucket_by, bucket_for, bucket_of, bucket_on, handle_bucket, held_bucket, koid_bucket};
ghost use Rattle.zt_index.specs.ProofsOnly.IndexInvariant.{index_below, index_with, meets_criterion};

use crate::chains::{BUCKETS, Chains, MOST_ITEMS};
use std::alloc::{AllocError, Global};
use std::marker::Model;
use zt_bits::Kind;
use zt_cells::Cells;
use zt_rows::{HandleValue, Held, Koid, ObjectRow, Row, RowKey, Wait};

/// The criterion by which waits, or live jobs and processes, are looked up.
#[derive(Clone, Copy, Debug)]
enum Criterion {
    /// The process that made them, and its handle.
    On(Koid, HandleValue),
    /// Their port.
    For(Koid),
    /// The object that their handle names.
    At(Koid),
    /// The process that made them.
    By(Koid),
    /// The parent of the live jobs and processes.
    Below(Koid),
}

impl Criterion {
    /// Whether the wait of this number, or the object of this koid, meets the criterion.
    fn takes(&self, cells: &Cells, number: u64) -> bool
        ensures { result ≡ meets_criterion cells.now.state self.now number }
    {
        match *self {
            Criterion::On(process, handle) => is_on(&cells.wait(number), process, handle),
            Criterion::For(port) => is_for(&cells.wait(number), port),
            Criterion::At(koid) => is_at(cells, &cells.wait(number), koid),
            Criterion::By(process) => is_by(&cells.wait(number), process),
            Criterion::Below(parent) => is_below(&cells.object(Koid(number)), parent),
        }
    }
}

/// The buckets of the waits by handle, by port, by the object that the handle names, and by process. Also those of the
/// live jobs and processes by parent.
struct RowChains {
    pub handles: Chains,
    pub ports: Chains,
    pub objects: Chains,
    pub processes: Chains,
    pub parents: Chains,
}

/// Drops all chains in one call. So the proof of a function that owns an index does not go through them at each exit.
impl Drop for RowChains {
    fn drop(self) {
        let RowChains {
            handles: _handles,
            ports: _ports,
            objects: _objects,
            processes: _processes,
            parents: _parents,
        } = self;
    }
}

impl RowChains {
    /// The buckets without waits and objects. Never allocates.
    pub fn new(alloc: Global) -> RowChains
        ensures handles { length result.handles ≡ 0 }
        ensures ports { length result.ports ≡ 0 }
        ensures objects { length result.objects ≡ 0 }
        ensures processes { length result.processes ≡ 0 }
        ensures parents { length result.parents ≡ 0 }
    {
        RowChains {
            handles: Chains::new(alloc),
            ports: Chains::new(alloc),
            objects: Chains::new(alloc),
            processes: Chains::new(alloc),
            parents: Chains::new(alloc),
        }
    }

    /// Makes room for the wait or the object under the key; other keys need none. Fails if an allocation fails, and for
    /// numbers and koids from 2^32 - 1 on.
    #[inline(always)]
    pub fn grow_for(&mut self, key: RowKey) -> Result<(), AllocError>
        ensures same { (s : CellsView) → IsIndexed s self.old → IsIndexed s self.new }
        ensures made { OnOk result (HasBuckets key self.new) }
    {
        match key {
            RowKey::Wait(number) => self.grow_to(number),
            RowKey::Object(koid) => self.grow_below(koid),
            _ => Ok(()),
        }
    }

    /// Makes room for the wait of this number. Fails if an allocation fails, and for numbers from 2^32 - 1 on.
    fn grow_to(&mut self, number: u64) -> Result<(), AllocError>
        ensures same { (s : CellsView) → IsIndexed s self.old → IsIndexed s self.new }
        ensures made { OnOk result (IsRoomy (number + 1) self.new) }
    {
        if number >= MOST_ITEMS {
            return Err(AllocError);
        }
        let len = number as usize + 1;
        self.handles.grow(len)?;
        self.ports.grow(len)?;
        self.objects.grow(len)?;
        self.processes.grow(len)
    }

    /// Makes room for the object of this koid. Fails if an allocation fails, and for koids from 2^32 - 1 on.
    #[inline(always)]
    fn grow_below(&mut self, koid: Koid) -> Result<(), AllocError>
        ensures same { (s : CellsView) → IsIndexed s self.old → IsIndexed s self.new }
        ensures made { OnOk result (koid + 1 ≤ length self.new.parents) }
    {
        if koid.0 >= MOST_ITEMS {
            return Err(AllocError);
        }
        self.parents.grow(koid.0 as usize + 1)
    }

    /// Updates the buckets ahead of an exchange of the row under the key. `row` is the row that comes, or none. Never
    /// allocates. If an entry changes, it looks at the waits on its handle.
    #[inline(always)]
    pub fn follow(&mut self, cells: &Cells, key: RowKey, row: Option<&Row>)
        requires placed { has_place cells.now.sizes key ≡ true }
        requires indexed { IsIndexed cells.now self.old }
        ensures { IsIndexed (record { state = put cells.now.state key (option_copied row.entry); sizes = cells.now.sizes }) self.new }
    {
        match key {
            RowKey::Wait(number) => self.set(cells, number, Row::as_wait(row)),
            RowKey::Entry(process, handle) => {
                self.rename(cells, process, handle, Row::as_entry(row));
            }
            RowKey::Object(koid) => self.set_below(koid, Row::as_object(row).copied()),
            _ => {}
        }
    }

    /// Puts the wait of this number into the buckets of its handle, its port, its object and its process, or into none.
    fn set(&mut self, cells: &Cells, number: u64, wait: Option<Wait>)
        requires { IsRoomy (number + 1) self.old }
        ensures { self.new ≡ index_with cells.now.state self.old number wait }
    {
        self.handles.set(number, bucket_on(&wait));
        self.ports.set(number, bucket_for(&wait));
        self.objects.set(number, bucket_of(cells, &wait));
        self.processes.set(number, bucket_by(&wait));
    }

    /// Puts the object of this koid into the bucket of its parent, if it is a live job or process, or into none.
    #[inline(always)]
    fn set_below(&mut self, koid: Koid, object: Option<ObjectRow>)
        requires { koid < length self.old.parents }
        ensures { self.new ≡ index_below self.old koid object }
    {
        self.parents.set(koid.0, bucket_below(&object));
    }

    /// Moves the waits on the handle to the bucket of the object that it will name, or to none.
    #[inline(always)]
    fn rename(&mut self, cells: &Cells, process: Koid, handle: HandleValue, held: Option<Held>)
        requires { IsIndexed cells.now self.old }
        ensures handles { self.new.handles ≡ self.old.handles }
        ensures ports { self.new.ports ≡ self.old.ports }
        ensures processes { self.new.processes ≡ self.old.processes }
        ensures parents { self.new.parents ≡ self.old.parents }
        ensures moved { (n : ℕ) → bucket_at self.new.objects n
            ≡ (if waits_where cells.now.state (is_on process handle) n then option_map held_bucket held else bucket_at self.old.objects n) }
        ensures objects { length self.new.objects ≡ length self.old.objects }
    {
        // From `_end` on there is no wait, so each wait has its place in `objects`.
        let _end = cells.waits_end();
        move_all(
            cells,
            &self.handles,
            &mut self.objects,
            process,
            handle,
            bucket_held(&held),
        );
    }

    /// Copies the buckets into memory of their own.
    pub fn copy(&self) -> Result<RowChains, AllocError>
        ensures { IfOk result (λ copied. copied ≡ self.now) }
    {
        Ok(RowChains {
            handles: self.handles.copy()?,
            ports: self.ports.copy()?,
            objects: self.objects.copy()?,
            processes: self.processes.copy()?,
            parents: self.parents.copy()?,
        })
    }
}

/// The hash buckets of the waits, and of the live jobs and processes. A search in them never allocates.
#[derive(Drop)]
pub struct Index {
    chains: RowChains,
}

impl Model for Index {
    ghost use Rattle.zt_index.specs.declared.index.RowChains.{RowChains};

    ghost Value = { RowChains };

    ghost view = { λ i. i.chains };
}

impl Index {
    /// An index without waits and objects. Never allocates.
    pub fn new(alloc: Global) -> Index
        ensures { IsIndexed (record { state = hollow; sizes = no_sizes }) result }
    {
        Index {
            chains: RowChains::new(alloc),
        }
    }

    /// Makes room for the wait or the object under the key; other keys need none. Fails if an allocation fails, and for
    /// numbers and koids from 2^32 - 1 on.
    #[inline(always)]
    pub fn grow_for(&mut self, key: RowKey) -> Result<(), AllocError>
        ensures same { (s : CellsView) → IsIndexed s self.old → IsIndexed s self.new }
        ensures made { OnOk result (HasBuckets key self.new) }
    {
        self.chains.grow_for(key)
    }

    /// Updates the buckets ahead of an exchange of the row under the key. `row` is the row that comes, or none. Never allocates.
    #[inline(always)]
    pub fn follow(&mut self, cells: &Cells, key: RowKey, row: Option<&Row>)
        requires placed { has_place cells.now.sizes key ≡ true }
        requires indexed { IsIndexed cells.now self.old }
        ensures { IsIndexed (record { state = put cells.now.state key (option_copied row.entry); sizes = cells.now.sizes }) self.new }
    {
        self.chains.follow(cells, key, row);
    }

    /// The least number above `low` of a wait that the process made on the handle; the least of all if `low` is `None`.
    /// Never allocates, and looks only at waits in the bucket of the handle.
    pub fn wait_on(
        &self,
        cells: &Cells,
        process: Koid,
        handle: HandleValue,
        low: Option<u64>,
    ) -> Option<u64>
        requires { IsIndexed cells.now self.now }
        ensures { IsNext (waits_where cells.now.state (is_on process handle)) low result }
    {
        next_on(cells, &self.chains.handles, process, handle, low)
    }

    /// The least number above `low` of a wait for the port; the least of all if `low` is `None`. Never allocates, and
    /// looks only at waits in the bucket of the port.
    pub fn wait_for(&self, cells: &Cells, port: Koid, low: Option<u64>) -> Option<u64>
        requires { IsIndexed cells.now self.now }
        ensures { IsNext (waits_where cells.now.state (is_for port)) low result }
    {
        let bucket = koid_bucket(port);
        next_by_criterion(cells, &self.chains.ports, bucket, Criterion::For(port), low)
    }

    /// The least number above `low` of a wait on a handle that names the object; the least of all if `low` is `None`.
    /// Never allocates, and looks only at waits in the bucket of the object.
    pub fn wait_at(&self, cells: &Cells, koid: Koid, low: Option<u64>) -> Option<u64>
        requires { IsIndexed cells.now self.now }
        ensures { IsNext (waits_where cells.now.state (is_at cells.now.state koid)) low result }
    {
        let bucket = koid_bucket(koid);
        next_by_criterion(
            cells,
            &self.chains.objects,
            bucket,
            Criterion::At(koid),
            low,
        )
    }

    /// The least number above `low` of a wait that the process made; the least of all if `low` is `None`. Never
    /// allocates, and looks only at waits in the bucket of the process.
    pub fn wait_by(&self, cells: &Cells, process: Koid, low: Option<u64>) -> Option<u64>
        requires { IsIndexed cells.now self.now }
        ensures { IsNext (waits_where cells.now.state (is_by process)) low result }
    {
        let bucket = koid_bucket(process);
        next_by_criterion(
            cells,
            &self.chains.processes,
            bucket,
            Criterion::By(process),
            low,
        )
    }

    /// The least koid above `low` of a live job or process with this parent; the least of all if `low` is `None`. Never
    /// allocates, and looks only at live jobs and processes in the bucket of the parent.
    pub fn task_below(&self, cells: &Cells, parent: Koid, low: Option<Koid>) -> Option<Koid>
        requires { IsIndexed cells.now self.now }
        ensures { IsNext (objects_where cells.now.state (is_below parent)) low result }
    {
        let bucket = koid_bucket(parent);
        let chain = &self.chains.parents;
        let low = low.map(|koid| koid.0);
        let found = next_by_criterion(cells, chain, bucket, Criterion::Below(parent), low)?;
        Some(Koid(found))
    }

    /// Copies the index into memory of its own.
    pub fn copy(&self) -> Result<Index, AllocError>
        ensures { IfOk result (λ copied. copied ≡ self.now) }
    {
        Ok(Index {
            chains: self.chains.copy()?,
        })
    }
}

/// Moves the waits on the handle to the bucket, or to none.
#[inline(always)]
fn move_all(
    cells: &Cells,
    handles: &Chains,
    objects: &mut Chains,
    process: Koid,
    handle: HandleValue,
    bucket: Option<u64>,
)
    requires all { (n : ℕ) → waits_where cells.now.state (is_on process handle) n ≡ true → is_in handles.now (handle_bucket process handle) n ≡ true }
    requires room { (n : ℕ) → waits_where cells.now.state (is_on process handle) n ≡ true → n < length objects.old }
    requires bucket { IfSome bucket (λ b. b < 2 ^ 13) }
    ensures moved { (n : ℕ) → bucket_at objects.new n
        ≡ (if waits_where cells.now.state (is_on process handle) n then bucket else bucket_at objects.old n) }
    ensures length { length objects.new ≡ length objects.old }
{
    let mut low = None;
    'waits: while let Some(number) = next_on(cells, handles, process, handle, low) {
        objects.set(number, bucket);
        low = Some(number);
    }
}

/// The least number above `low` of a wait on the handle; the least of all if `low` is `None`.
fn next_on(
    cells: &Cells,
    handles: &Chains,
    process: Koid,
    handle: HandleValue,
    low: Option<u64>,
) -> Option<u64>
    requires { (n : ℕ) → waits_where cells.now.state (is_on process handle) n ≡ true → is_in handles.now (handle_bucket process handle) n ≡ true }
    ensures { IsNext (waits_where cells.now.state (is_on process handle)) low result }
{
    let waits = handle_bucket(process, handle);
    next_by_criterion(cells, handles, waits, Criterion::On(process, handle), low)
}

/// The distance between the buckets of one process's handles and those of the next process. It is odd, and near the
/// golden section of the number of buckets. So few handles of processes with consecutive koids share a bucket.
const PROCESS_STEP: u64 = 5063;

/// The bucket of waits on the handle.
fn handle_bucket(process: Koid, handle: HandleValue) -> u64
    ensures bucket { result ≡ handle_bucket process handle }
    ensures few { result < 8192 }
{
    let buckets = BUCKETS as u64;
    (process.0 % buckets * PROCESS_STEP + u64::from(handle.0 / 4)) % buckets
}

/// The bucket of the waits for a port, at an object or of a process, and of the live jobs and processes below a job.
fn koid_bucket(koid: Koid) -> u64
    ensures bucket { result ≡ koid_bucket koid }
    ensures few { result < 8192 }
{
    koid.0 % BUCKETS as u64
}

/// The bucket of the wait's handle.
fn bucket_on(wait: &Option<Wait>) -> Option<u64>
    ensures bucket { result ≡ option_map bucket_on wait.now }
    ensures few { IfSome result (λ b. b < 2 ^ 13) }
{
    match wait {
        Some(wait) => Some(handle_bucket(wait.process, wait.handle)),
        None => None,
    }
}

/// The bucket of the wait's port.
fn bucket_for(wait: &Option<Wait>) -> Option<u64>
    ensures bucket { result ≡ option_map bucket_for wait.now }
    ensures few { IfSome result (λ b. b < 2 ^ 13) }
{
    match wait {
        Some(wait) => Some(koid_bucket(wait.port)),
        None => None,
    }
}

/// The bucket of the wait's process.
fn bucket_by(wait: &Option<Wait>) -> Option<u64>
    ensures bucket { result ≡ option_map bucket_by wait.now }
    ensures few { IfSome result (λ b. b < 2 ^ 13) }
{
    match wait {
        Some(wait) => Some(koid_bucket(wait.process)),
        None => None,
    }
}

/// The bucket of the object's parent, if it is a live job or process.
fn bucket_below(object: &Option<ObjectRow>) -> Option<u64>
    ensures bucket { result ≡ option_and_then bucket_below object.now }
    ensures few { IfSome result (λ b. b < 2 ^ 13) }
{
    match object {
        Some(object) if object.is_live_task() => Some(koid_bucket(object.link)),
        _ => None,
    }
}

/// The bucket of the object that the wait's handle names.
fn bucket_of(cells: &Cells, wait: &Option<Wait>) -> Option<u64>
    ensures bucket { result ≡ option_and_then (bucket_of cells.now.state) wait.now }
    ensures few { IfSome result (λ b. b < 2 ^ 13) }
{
    match wait {
        Some(wait) => bucket_held(&cells.entry(wait.process, wait.handle)),
        None => None,
    }
}

/// The bucket of the object that the entry names.
fn bucket_held(held: &Option<Held>) -> Option<u64>
    ensures bucket { result ≡ option_map held_bucket held.now }
    ensures few { IfSome result (λ b. b < 2 ^ 13) }
{
    match held {
        Some(held) => Some(koid_bucket(held.koid)),
        None => None,
    }
}

/// Whether the handle of the process names the object.
fn is_name(cells: &Cells, process: Koid, handle: HandleValue, koid: Koid) -> bool
    ensures { result ≡ names koid (entry cells.now.state process handle) }
{
    match cells.entry(process, handle) {
        Some(held) => held.koid == koid,
        None => false,
    }
}

/// Whether there is a wait, and the process made it on the handle.
fn is_on(wait: &Option<Wait>, process: Koid, handle: HandleValue) -> bool
    ensures { result ≡ option_map_or (is_on process handle) wait.now false }
{
    match wait {
        Some(wait) => wait.process == process && wait.handle == handle,
        None => false,
    }
}

/// Whether there is a wait, and it is for the port.
fn is_for(wait: &Option<Wait>, port: Koid) -> bool
    ensures { result ≡ option_map_or (is_for port) wait.now false }
{
    match wait {
        Some(wait) => wait.port == port,
        None => false,
    }
}

/// Whether there is a wait, and its handle names the object.
fn is_at(cells: &Cells, wait: &Option<Wait>, koid: Koid) -> bool
    ensures { result ≡ option_map_or (is_at cells.now.state koid) wait.now false }
{
    match wait {
        Some(wait) => is_name(cells, wait.process, wait.handle, koid),
        None => false,
    }
}

/// Whether there is a wait, and the process made it.
fn is_by(wait: &Option<Wait>, process: Koid) -> bool
    ensures { result ≡ option_map_or (is_by process) wait.now false }
{
    match wait {
        Some(wait) => wait.process == process,
        None => false,
    }
}

/// Whether there is an object, and it is a live job or process with this parent.
fn is_below(object: &Option<ObjectRow>, parent: Koid) -> bool
    ensures { result ≡ option_map_or (is_below parent) object.now false }
{
    match object {
        Some(object) => object.is_live_task() && object.link == parent,
        None => false,
    }
}

/// The least number above `low` that meets the criterion; the least of all if `low` is `None`. All such numbers are in
/// the bucket. Most buckets are empty, and cost one look.
#[inline(always)]
fn next_by_criterion(
    cells: &Cells,
    chain: &Chains,
    bucket: u64,
    criterion: Criterion,
    low: Option<u64>,
) -> Option<u64>
    requires { (n : ℕ) → meets_criterion cells.now.state criterion n ≡ true → is_in chain.now bucket n ≡ true }
    ensures { IsNext (meets_criterion cells.now.state criterion) low result }
{
    if chain.is_empty_bucket(bucket) {
        None
    } else {
        next_in_bucket(cells, chain, bucket, criterion, low)
    }
}

/// The least number above `low` that meets the criterion; the least of all if `low` is `None`. It walks along the bucket.
#[inline(never)]
fn next_in_bucket(
    cells: &Cells,
    chain: &Chains,
    bucket: u64,
    criterion: Criterion,
    low: Option<u64>,
) -> Option<u64>
    requires { (n : ℕ) → meets_criterion cells.now.state criterion n ≡ true → is_in chain.now bucket n ≡ true }
    ensures { IsNext (meets_criterion cells.now.state criterion) low result }
{
    let mut at = low;
    'numbers: while let Some(number) = chain.after(bucket, at) {
        if criterion.takes(cells, number) {
            return Some(number);
        }
        at = Some(number);
    }
    None
}
