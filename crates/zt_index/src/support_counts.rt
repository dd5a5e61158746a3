//! Counts how often rows name each koid.

ghost use Rattle.std.specs.Prelude.{◌≡◌, ◌≤◌, ◌<◌, ◌+◌, ◌-◌, ◌^◌, ◌==◌, ℕ, true, nat_lt, length, vec_len, IfOk, OnOk, if◌then◌else◌};
ghost use Rattle.std.specs.List.{list_all};
ghost use Rattle.std.specs.Option.{option_copied};
ghost use Rattle.zt_index.specs.ProofsOnly.CountedRows.{IsSmall, counted_for, counted_within, names_given, task_given};
ghost use Rattle.zt_index.specs.KoidCounts.{numbers_at, given, given_if, none_given, plus, named_by, counts_within, counts_within_if};
ghost use Rattle.zt_index.specs.declared.support_counts.KoidCounts.{KoidCounts};

use std::alloc::{AllocError, Global};
use std::marker::Model;
use zt_bits::Kind;
use zt_cells::MOST_PLACES;
use zt_rows::{Held, Koid, Life, ObjectRow, Row, RowKey};

/// The counts of a koid that no row counts for.
const NO_NUMBERS: KoidCounts = KoidCounts {
    named: 0,
    jobs: 0,
    processes: 0,
};

/// The counts that an entry or a handle in a message gives the object that it names.
const ONE_NAME: KoidCounts = KoidCounts {
    named: 1,
    jobs: 0,
    processes: 0,
};

/// The counts that a live job gives its parent.
const ONE_JOB: KoidCounts = KoidCounts {
    named: 0,
    jobs: 1,
    processes: 0,
};

/// The counts that a live process gives its parent.
const ONE_PROCESS: KoidCounts = KoidCounts {
    named: 0,
    jobs: 0,
    processes: 1,
};

/// How often rows name one koid: entries and message handles that name it, and live jobs and live processes that have
/// it as their parent.
#[derive(Clone, Copy, Debug)]
pub struct KoidCounts {
    pub named: u64,
    pub jobs: u32,
    pub processes: u32,
}

impl KoidCounts {
    /// The sum of both.
    fn plus(self, more: KoidCounts) -> KoidCounts
        requires named { self.named + more.named < 2 ^ 64 }
        requires jobs { self.jobs + more.jobs < 2 ^ 32 }
        requires processes { self.processes + more.processes < 2 ^ 32 }
        ensures { result ≡ plus self more }
    {
        KoidCounts {
            named: self.named + more.named,
            jobs: self.jobs + more.jobs,
            processes: self.processes + more.processes,
        }
    }

    /// These counts without those of `less`.
    fn minus(self, less: KoidCounts) -> KoidCounts
        requires named { less.named ≤ self.named }
        requires jobs { less.jobs ≤ self.jobs }
        requires processes { less.processes ≤ self.processes }
        ensures { plus result less ≡ self }
    {
        KoidCounts {
            named: self.named - less.named,
            jobs: self.jobs - less.jobs,
            processes: self.processes - less.processes,
        }
    }
}

/// The koids that a row counts for.
enum CountedRow<'a> {
    Nothing,
    /// One koid, which gets these counts.
    One(Koid, KoidCounts),
    /// The koid of each of a message's handles, which gets one name.
    Handles(&'a [Held]),
}

/// The counts of all koids from 0 on, as far as rows name them.
#[derive(Drop)]
pub struct SupportCounts {
    numbers: Vec<KoidCounts>,
}

impl Model for SupportCounts {
    ghost use Rattle.std.specs.Prelude.{List};
    ghost use Rattle.zt_index.specs.declared.support_counts.KoidCounts.{KoidCounts};

    ghost Value = { List KoidCounts };

    ghost view = { λ t. t.numbers.items };
}

impl SupportCounts {
    /// No counts. Never allocates.
    pub fn new(alloc: Global) -> SupportCounts
        ensures { length result ≡ 0 }
    {
        SupportCounts {
            numbers: Vec::new(alloc),
        }
    }

    /// The counts of the koid, 0 if it has none. Never allocates.
    pub fn at(&self, koid: Koid) -> KoidCounts
        ensures { result ≡ numbers_at self.now koid }
    {
        match self.numbers.get(koid.0 as usize) {
            Some(numbers) => *numbers,
            None => NO_NUMBERS,
        }
    }

    /// Whether there are counts for each koid that the row counts for. Never allocates.
    fn covers(&self, key: RowKey, row: &Row) -> bool
        ensures { result ≡ counts_within (length self.now) key row.now }
    {
        match counted_by(key, row) {
            CountedRow::Nothing => true,
            CountedRow::One(koid, _) => self.has(koid),
            CountedRow::Handles(handles) => self.has_all(handles),
        }
    }

    /// Whether there are counts for each koid that the row, if there is one, counts for. Never allocates.
    pub fn covers_if(&self, key: RowKey, row: Option<&Row>) -> bool
        ensures { result ≡ counts_within_if (length self.now) key (option_copied row.entry) }
    {
        match row {
            Some(row) => self.covers(key, row),
            None => true,
        }
    }

    /// Whether the koid has counts.
    fn has(&self, koid: Koid) -> bool
        ensures { result ≡ nat_lt koid (length self.now) }
    {
        koid.0 < self.numbers.len() as u64
    }

    /// Whether the koid of each handle has counts.
    fn has_all(&self, handles: &[Held]) -> bool
        ensures { result ≡ list_all (λ held. nat_lt held.koid (length self.now)) handles.now }
    {
        handles.iter().all(|held| self.has(held.koid))
    }

    /// Makes counts for each koid that the row counts for. Fails if an allocation fails, and for koids from 2^48 on.
    #[inline(always)]
    fn grow_for(&mut self, key: RowKey, row: &Row) -> Result<(), AllocError>
        ensures same { (x : ℕ) → numbers_at self.new x ≡ numbers_at self.old x }
        ensures kept { length self.old ≤ length self.new }
        ensures made { OnOk result (counts_within (length self.new) key row.now ≡ true) }
    {
        match counted_by(key, row) {
            CountedRow::Nothing => Ok(()),
            CountedRow::One(koid, _) => self.grow_to(koid),
            CountedRow::Handles(handles) => self.grow_to_all(handles),
        }
    }

    /// Makes counts for each koid that the row, if there is one, counts for. Fails if an allocation fails, and for
    /// koids from 2^48 on.
    #[inline(always)]
    pub fn grow_if(&mut self, key: RowKey, row: Option<&Row>) -> Result<(), AllocError>
        ensures same { (x : ℕ) → numbers_at self.new x ≡ numbers_at self.old x }
        ensures kept { length self.old ≤ length self.new }
        ensures made { OnOk result (counts_within_if (length self.new) key (option_copied row.entry) ≡ true) }
    {
        match row {
            Some(row) => self.grow_for(key, row),
            None => Ok(()),
        }
    }

    /// Makes counts for the koid of each handle. Fails if an allocation fails, and for koids from 2^48 on.
    fn grow_to_all(&mut self, handles: &[Held]) -> Result<(), AllocError>
        ensures same { (x : ℕ) → numbers_at self.new x ≡ numbers_at self.old x }
        ensures kept { length self.old ≤ length self.new }
        ensures made { OnOk result (list_all (λ held. nat_lt held.koid (length self.new)) handles.now ≡ true) }
    {
        for held in handles {
            self.grow_to(held.koid)?;
        }
        Ok(())
    }

    /// Makes counts for the koid. Fails if an allocation fails, and for koids from 2^48 on.
    #[inline(always)]
    fn grow_to(&mut self, koid: Koid) -> Result<(), AllocError>
        ensures same { (x : ℕ) → numbers_at self.new x ≡ numbers_at self.old x }
        ensures kept { length self.old ≤ length self.new }
        ensures made { OnOk result (nat_lt koid (length self.new) ≡ true) }
    {
        if self.has(koid) {
            Ok(())
        } else {
            self.add_to(koid)
        }
    }

    /// Makes counts for the koid, which has none. Fails if an allocation fails, and for koids from 2^48 on.
    #[inline(always)]
    fn add_to(&mut self, koid: Koid) -> Result<(), AllocError>
        requires { length self.old ≤ koid }
        ensures same { (x : ℕ) → numbers_at self.new x ≡ numbers_at self.old x }
        ensures kept { length self.old ≤ length self.new }
        ensures made { OnOk result (nat_lt koid (length self.new) ≡ true) }
    {
        if koid.0 >= MOST_PLACES {
            return Err(AllocError);
        }
        make_numbers(&mut self.numbers, koid.0 as usize + 1)
    }

    /// Adds the counts that the row gives.
    #[inline(always)]
    fn raise(&mut self, key: RowKey, row: &Row)
        requires within { counts_within (length self.old) key row.now ≡ true }
        requires small { (x : ℕ) → (numbers_at self.old x).named < 2 ^ 63 }
        requires few_jobs { (x : ℕ) → (numbers_at self.old x).jobs < 2 ^ 32 - 1 }
        requires few_processes { (x : ℕ) → (numbers_at self.old x).processes < 2 ^ 32 - 1 }
        ensures added { (x : ℕ) → numbers_at self.new x ≡ plus (numbers_at self.old x) (given x key row.now) }
        ensures len { length self.new ≡ length self.old }
        ensures few { (x : ℕ) → named_by x key row.now ≤ 64 }
    {
        match counted_by(key, row) {
            CountedRow::Nothing => {}
            CountedRow::One(koid, more) => add(&mut self.numbers, koid, more),
            CountedRow::Handles(handles) => add_names(&mut self.numbers, handles),
        }
    }

    /// Takes off the counts that the row gives.
    #[inline(always)]
    fn lower(&mut self, key: RowKey, row: &Row)
        requires within { counts_within (length self.old) key row.now ≡ true }
        requires there { (x : ℕ) → (given x key row.now).named ≤ (numbers_at self.old x).named }
        requires jobs { (x : ℕ) → (given x key row.now).jobs ≤ (numbers_at self.old x).jobs }
        requires processes { (x : ℕ) → (given x key row.now).processes ≤ (numbers_at self.old x).processes }
        ensures taken { (x : ℕ) → plus (numbers_at self.new x) (given x key row.now) ≡ numbers_at self.old x }
        ensures len { length self.new ≡ length self.old }
    {
        match counted_by(key, row) {
            CountedRow::Nothing => {}
            CountedRow::One(koid, less) => take(&mut self.numbers, koid, less),
            CountedRow::Handles(handles) => take_names(&mut self.numbers, handles),
        }
    }

    /// Adds the counts that the row, if there is one, gives.
    #[inline(always)]
    pub fn raise_if(&mut self, key: RowKey, row: Option<&Row>)
        requires within { counts_within_if (length self.old) key (option_copied row) ≡ true }
        requires small { (x : ℕ) → (numbers_at self.old x).named < 2 ^ 63 }
        requires few_tasks { (x : ℕ) → ((numbers_at self.old x).jobs < 2 ^ 32 - 1) × ((numbers_at self.old x).processes < 2 ^ 32 - 1) }
        requires few_processes { (x : ℕ) → (numbers_at self.old x).processes < 2 ^ 63 }
        ensures added { (x : ℕ) → numbers_at self.new x ≡ plus (numbers_at self.old x) (given_if x key (option_copied row.entry)) }
        ensures len { length self.new ≡ length self.old }
        ensures few { (x : ℕ) → (given_if x key (option_copied row.entry)).named ≤ 64 }
    {
        if let Some(row) = row {
            self.raise(key, row);
        }
    }

    /// Takes off the counts that the row, if there is one, gives.
    #[inline(always)]
    pub fn lower_if(&mut self, key: RowKey, row: Option<&Row>)
        requires within { counts_within_if (length self.old) key (option_copied row) ≡ true }
        requires there { (x : ℕ) → (given_if x key (option_copied row)).named ≤ (numbers_at self.old x).named }
        requires jobs { (x : ℕ) → (given_if x key (option_copied row)).jobs ≤ (numbers_at self.old x).jobs }
        requires processes { (x : ℕ) → (given_if x key (option_copied row)).processes ≤ (numbers_at self.old x).processes }
        ensures taken { (x : ℕ) → plus (numbers_at self.new x) (given_if x key (option_copied row.entry)) ≡ numbers_at self.old x }
        ensures len { length self.new ≡ length self.old }
    {
        if let Some(row) = row {
            self.lower(key, row);
        }
    }

    /// Copies the counts into memory of their own.
    pub fn copy(&self) -> Result<SupportCounts, AllocError>
        ensures { IfOk result (λ copied. copied ≡ self.now) }
    {
        let numbers = Vec::from_slice(*self.numbers.allocator(), self.numbers.as_slice())?;
        Ok(SupportCounts { numbers })
    }
}

/// Adds counts of 0 until there are so many.
#[inline(always)]
fn make_numbers(numbers: &mut Vec<KoidCounts>, len: usize) -> Result<(), AllocError>
    requires { vec_len numbers.old ≤ len }
    ensures same { (x : ℕ) → numbers_at numbers.new.items x ≡ numbers_at numbers.old.items x }
    ensures kept { vec_len numbers.old ≤ vec_len numbers.new }
    ensures made { OnOk result (vec_len numbers.new ≡ len) }
{
    if len > numbers.capacity() {
        numbers.reserve(len - numbers.len())?;
    }
    while numbers.len() < len {
        numbers.push_reserved(NO_NUMBERS);
    }
    Ok(())
}

/// The koids that the row under the key counts for.
#[inline(always)]
fn counted_by(key: RowKey, row: &Row) -> CountedRow<'_>
    ensures given { (x : ℕ) → given x key row.now ≡ counted_for x result }
    ensures within { (n : ℕ) → counts_within n key row.now ≡ counted_within n result }
    ensures small { IsSmall result }
{
    match (key, row) {
        (RowKey::Entry(_, _), Row::Entry(held)) => CountedRow::One(held.koid, ONE_NAME),
        (RowKey::Msg(_, _), Row::Msg(message)) => CountedRow::Handles(message.handles().as_slice()),
        (RowKey::Object(_), Row::Object(object)) => match task_of(object) {
            Some(one) => CountedRow::One(object.link, one),
            None => CountedRow::Nothing,
        },
        _ => CountedRow::Nothing,
    }
}

/// The counts that a live job or process gives its parent; `None` for any other object.
fn task_of(object: &ObjectRow) -> Option<KoidCounts>
    ensures { result ≡ task_given object.now }
{
    match (object.kind, object.life) {
        (Kind::Job, Life::Live) => Some(ONE_JOB),
        (Kind::Process, Life::Live) => Some(ONE_PROCESS),
        _ => None,
    }
}

/// Adds to the counts of the koid.
fn add(numbers: &mut [KoidCounts], koid: Koid, more: KoidCounts)
    requires within { koid < length numbers.old }
    requires named { (numbers_at numbers.old koid).named + more.named < 2 ^ 64 }
    requires jobs { (numbers_at numbers.old koid).jobs + more.jobs < 2 ^ 32 }
    requires processes { (numbers_at numbers.old koid).processes + more.processes < 2 ^ 32 }
    ensures { (x : ℕ)
        → numbers_at numbers.new x
        ≡ plus (numbers_at numbers.old x) (if koid == x then more else none_given) }
{
    let i = koid.0 as usize;
    numbers[i] = numbers[i].plus(more);
}

/// Takes off the counts of the koid.
fn take(numbers: &mut [KoidCounts], koid: Koid, less: KoidCounts)
    requires within { koid < length numbers.old }
    requires named { less.named ≤ (numbers_at numbers.old koid).named }
    requires jobs { less.jobs ≤ (numbers_at numbers.old koid).jobs }
    requires processes { less.processes ≤ (numbers_at numbers.old koid).processes }
    ensures { (x : ℕ)
        → plus (numbers_at numbers.new x) (if koid == x then less else none_given)
        ≡ numbers_at numbers.old x }
{
    let i = koid.0 as usize;
    numbers[i] = numbers[i].minus(less);
}

/// Adds one name for each of the handles.
fn add_names(numbers: &mut [KoidCounts], handles: &[Held])
    requires within { list_all (λ held. nat_lt held.koid (length numbers.old)) handles.now ≡ true }
    requires few { length handles.now ≤ 64 }
    requires small { (x : ℕ) → (numbers_at numbers.old x).named < 2 ^ 63 }
    requires few_jobs { (x : ℕ) → (numbers_at numbers.old x).jobs < 2 ^ 32 }
    requires few_processes { (x : ℕ) → (numbers_at numbers.old x).processes < 2 ^ 32 }
    ensures { (x : ℕ) → numbers_at numbers.new x ≡ plus (numbers_at numbers.old x) (names_given x handles.now) }
{
    for held in handles {
        add(numbers, held.koid, ONE_NAME);
    }
}

/// Takes off one name for each of the handles.
fn take_names(numbers: &mut [KoidCounts], handles: &[Held])
    requires within { list_all (λ held. nat_lt held.koid (length numbers.old)) handles.now ≡ true }
    requires there { (x : ℕ) → (names_given x handles.now).named ≤ (numbers_at numbers.old x).named }
    ensures { (x : ℕ) → plus (numbers_at numbers.new x) (names_given x handles.now) ≡ numbers_at numbers.old x }
{
    for held in handles {
        take(numbers, held.koid, ONE_NAME);
    }
}
