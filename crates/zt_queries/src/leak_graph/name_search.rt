//! Finds when an object was leaked, from the names that it lost.
//!
//! The call that leaked an object took away the last name that a process could use: a name of the object, or of an
//! endpoint above it. A process that ended later was leaked by the call that ended it.
//!
//! The names that are left stand in messages. They wait at endpoints of which no process can use a name either. Each
//! such message came at a moment at which the object that it names lost an entry. So the notes of names that were let
//! go lead to the messages, and the count of the names tells when all are found.
//!
//! A live job is also kept by its live children, which are jobs of which the same holds. So it was leaked by the last
//! call that took away a name or ended a child: its own, or that of such an endpoint or job. A job that has ended is
//! left to the graph, unless an entry names it.

ghost use Rattle.std.specs.Prelude.{◌≡◌, ◌≤◌, ◌==◌, ◌∷◌, [], false, true, IfOk, OnOk, length, count_by};
ghost use Rattle.std.specs.Option.{option_copied};
ghost use Rattle.zt_rows.specs.declared.keys.RowKey.TheVariants as key_variant;
ghost use Rattle.zt_rows.specs.Reads.{is_live_job, object, on_object};
ghost use Rattle.zt_rows.specs.State.{row};
ghost use Rattle.zt_rows.specs.Support.{root_job};
ghost use Rattle.zt_rows.specs.Tests.{exists};
ghost use Rattle.zt_history.specs.Tree.{state_at};
ghost use Rattle.zt_queries.specs.Leaks.{is_leaked};
ghost use Rattle.zt_index.specs.KoidCounts.{named_by};
ghost use Rattle.zt_index.specs.ProofsOnly.KoidCounts.{total};
ghost use Rattle.zt_queries.specs.ProofsOnly.NameSearch.{AreFound, AreChildrenIn, IsHeldBy, is_passive, stands_passive, IsGuarded, later, Widens, with_end, IsNameCount, times_named, IsToldBy};

use crate::leak_graph::unleaked_signs::is_entered;
use bitflags::Flags;
use indexmap::IndexSet;
use std::alloc::{AllocError, Global};
use zt_bits::Kind;
use zt_history::{History, RowHappening};
use zt_rows::{Held, Koid, Moment, ObjectRow, ROOT_JOB, Row, RowKey};
use zt_store::{Record, Store};

/// The most endpoints and jobs that a search goes through. There can never be so many objects.
const MOST_ENDS: usize = 4_194_304;

/// The most moments at which messages that name one object are searched. Each look passes again over the notes of the
/// looks before it.
const MOST_LOOKS: u64 = 512;

/// The moment at which an object was leaked, as far as it was found.
#[derive(Clone, Copy)]
pub(crate) enum LeakTime {
    /// It was leaked at this moment, or at none.
    Known(Option<Moment>),
    Unknown,
}

/// A search for what keeps an object: the endpoints above it by messages that name it, and the live jobs below it.
struct NameSearch {
    /// The koids of the object, and of the endpoints and jobs that were found to keep it or others of these. They are
    /// in the order in which they were found.
    ends: IndexSet<u64>,
    /// The messages that were found to name the object that is looked at now.
    messages: Vec<RowKey>,
    /// How many names of that object are left to be found, at most.
    left: u64,
}

/// Drops both lists in one call. So the proof of a function that owns them does not go through them at each exit.
impl Drop for NameSearch {
    fn drop(self) {
        let NameSearch {
            ends: _ends,
            messages: _messages,
            left: _,
        } = self;
    }
}

/// The result of a search for what keeps an object.
#[derive(Clone, Copy)]
enum FoundNames {
    /// All names stand in messages, and all live children are jobs of which the same holds. `names` is the last moment
    /// at which one of the names was released. `children` is that at which one of the jobs lost a child.
    All {
        names: Option<Moment>,
        children: Option<Moment>,
    },
    /// The search did not find all of these. This is told without them.
    Told(LeakTime),
}

/// The moment on the path to `at` at which the object was leaked, if its names at the position tell. Tells only if `at`
/// is the position.
pub(crate) fn told_by_names(
    alloc: Global,
    history: &History,
    at: Moment,
    koid: Koid,
) -> Result<LeakTime, AllocError>
    requires { at ≤ length history.now.tree.made }
    ensures { IfOk result (IsToldBy history.now.tree.made at koid) }
{
    if at != history.position() {
        return Ok(LeakTime::Unknown);
    }
    match history.store().object(koid) {
        Some(found) => {
            if is_passive(&found) {
                told_of_passive(alloc, history, koid)
            } else if found.is_live_job() && koid != ROOT_JOB {
                told_of_job(alloc, history, koid)
            } else {
                Ok(told_by_entries(history, koid, koid))
            }
        }
        None => Ok(LeakTime::Unknown),
    }
}

/// Whether the object is neither a job nor a running process, so that only its names keep it.
fn is_passive(object: &ObjectRow) -> bool
    ensures { result ≡ is_passive object.now }
{
    object.kind != Kind::Job && !object.is_live_process()
}

/// The moment at which an object that is neither a job nor a running process was leaked. This is the last of these
/// moments:
///
/// - those at which the object or an endpoint above it was released;
/// - that at which the object ended, if it is a process.
fn told_of_passive(alloc: Global, history: &History, koid: Koid) -> Result<LeakTime, AllocError>
    requires { stands_passive (state_at history.now.tree.made history.now.position) koid ≡ true }
    ensures { IfOk result (IsToldBy history.now.tree.made history.now.position koid) }
{
    let ended = history.last_shown(RowHappening::Ended, koid, history.position());
    match search_names(alloc, history, koid)? {
        FoundNames::All { names, .. } => Ok(LeakTime::Known(later(ended, names))),
        FoundNames::Told(told) => Ok(told),
    }
}

/// The moment at which a live job other than the root job was leaked. This is the last of these moments:
///
/// - those at which it, a job below it or an endpoint above these was released;
/// - those at which it or a job below it lost a child.
fn told_of_job(alloc: Global, history: &History, koid: Koid) -> Result<LeakTime, AllocError>
    requires live { on_object is_live_job (object (state_at history.now.tree.made history.now.position) koid) ≡ true }
    requires no_root { (koid == root_job) ≡ false }
    ensures { IfOk result (IsToldBy history.now.tree.made history.now.position koid) }
{
    history.position();
    match search_names(alloc, history, koid)? {
        FoundNames::All { names, children } => Ok(LeakTime::Known(later(children, names))),
        FoundNames::Told(told) => Ok(told),
    }
}

/// Tells that the object was not leaked on the path to the position, if an entry there names `named` or a process runs
/// below `named`. If the object is leaked, `named` has to be leaked with it.
fn told_by_entries(history: &History, koid: Koid, named: Koid) -> LeakTime
    requires there { exists (state_at history.now.tree.made history.now.position) koid ≡ true }
    requires with { is_leaked (state_at history.now.tree.made history.now.position) koid ≡ true
        → is_leaked (state_at history.now.tree.made history.now.position) named ≡ true }
    ensures { IsToldBy history.now.tree.made history.now.position koid result }
{
    history.position();
    let store = history.store();
    if store.child_processes(named) > 0 || is_entered(store, named) {
        LeakTime::Known(None)
    } else {
        LeakTime::Unknown
    }
}

/// Searches for everything that keeps an object: from the messages that name it upwards, and from its live children
/// downwards.
fn search_names(alloc: Global, history: &History, koid: Koid) -> Result<FoundNames, AllocError>
    requires { exists (state_at history.now.tree.made history.now.position) koid ≡ true }
    ensures { IfOk result (AreFound history.now.tree.made history.now.position koid) }
{
    let position = history.position();
    let mut search = NameSearch::new(alloc, koid)?;
    let (mut names, mut children) = (None, None);
    for place in 0..MOST_ENDS {
        let Some(end) = search.ends.get_index(place) else {
            return Ok(FoundNames::All { names, children });
        };
        let named = Koid(*end);
        let whole = search.find_all(history, named)?;
        if !whole {
            return Ok(FoundNames::Told(told_by_entries(history, koid, named)));
        }
        names = later(names, history.last_released(named, position));
        children = later(children, history.last_lost_child(named, position));
    }
    Ok(FoundNames::Told(LeakTime::Unknown))
}

/// The later of two moments, either of which may be missing.
fn later(first: Option<Moment>, second: Option<Moment>) -> Option<Moment>
    ensures { result ≡ later first second }
{
    match (first, second) {
        (Some(a), Some(b)) => Some(if a < b { b } else { a }),
        (Some(a), None) => Some(a),
        (None, other) => other,
    }
}

impl NameSearch {
    /// A search that has the object alone.
    fn new(alloc: Global, koid: Koid) -> Result<NameSearch, AllocError>
        ensures { IfOk result (λ search. search.ends.keys ≡ koid ∷ []) }
    {
        let mut ends = IndexSet::new(alloc);
        ends.insert(koid.0)?;
        Ok(NameSearch {
            ends,
            messages: Vec::new(alloc),
            left: 0,
        })
    }

    /// Adds the endpoints at which messages wait that name this object, and its live children. Returns whether this
    /// shows that nothing else at the position keeps it, and that no process runs as its child.
    fn find_all(&mut self, history: &History, koid: Koid) -> Result<bool, AllocError>
        ensures wider { OnOk result (Widens (state_at history.now.tree.made history.now.position) koid self.old.ends.keys self.new.ends.keys) }
        ensures held { IfOk result (λ whole. whole ≡ true
            → IsHeldBy (state_at history.now.tree.made history.now.position) self.new.ends.keys koid) }
    {
        history.position();
        let store = history.store();
        if store.child_processes(koid) > 0 {
            return Ok(false);
        }
        self.add_children(store, koid)?;
        self.find_names(history, koid)
    }

    /// Adds the live children of this object.
    fn add_children(&mut self, store: &Store, koid: Koid) -> Result<(), AllocError>
        ensures wider { OnOk result (Widens store.now.state koid self.old.ends.keys self.new.ends.keys) }
        ensures children { OnOk result (AreChildrenIn store.now.state self.new.ends.keys koid) }
    {
        let mut low = None;
        while let Some(task) = store.task_below(koid, low) {
            self.add_end(task)?;
            low = Some(task);
        }
        Ok(())
    }

    /// Adds the endpoints at which messages wait that name this object. Returns whether this shows that nothing else at
    /// the position names it.
    ///
    /// Looks at the moments at which it was released, from the last one on, until all its names are found.
    fn find_names(&mut self, history: &History, koid: Koid) -> Result<bool, AllocError>
        ensures wider { OnOk result (Widens (state_at history.now.tree.made history.now.position) koid self.old.ends.keys self.new.ends.keys) }
        ensures guarded { IfOk result (λ whole. whole ≡ true
            → IsGuarded (state_at history.now.tree.made history.now.position) self.new.ends.keys koid) }
    {
        let store = history.store();
        self.messages.clear();
        self.left = names_of(store, koid);
        let mut next = history.last_released(koid, history.position());
        for _ in 0..MOST_LOOKS {
            if self.left == 0 {
                return Ok(true);
            }
            let Some(moment) = next else {
                return Ok(false);
            };
            self.look_into(history.record_of(moment), store, koid)?;
            next = history.last_released(koid, history.parent_of(moment));
        }
        Ok(false)
    }

    /// Takes in the messages of the store that name the object and have a key of the record, if there is a record.
    fn look_into(
        &mut self,
        record: Option<&Record>,
        store: &Store,
        koid: Koid,
    ) -> Result<(), AllocError>
        ensures wider { OnOk result (Widens store.now.state koid self.old.ends.keys self.new.ends.keys) }
        ensures counted { OnOk result (IsNameCount store.now.state koid self.old.ends.keys self.old.messages.items self.old.left
            → IsNameCount store.now.state koid self.new.ends.keys self.new.messages.items self.new.left) }
    {
        match record {
            Some(record) => self.look_under(record.keys(), store, koid),
            None => Ok(()),
        }
    }

    /// Takes in the messages of the store that name the object and have one of these keys.
    fn look_under(&mut self, keys: &[RowKey], store: &Store, koid: Koid) -> Result<(), AllocError>
        ensures wider { OnOk result (Widens store.now.state koid self.old.ends.keys self.new.ends.keys) }
        ensures counted { OnOk result (IsNameCount store.now.state koid self.old.ends.keys self.old.messages.items self.old.left
            → IsNameCount store.now.state koid self.new.ends.keys self.new.messages.items self.new.left) }
    {
        for key in keys {
            self.look_at(*key, store, koid)?;
        }
        Ok(())
    }

    /// Takes in the message of the store under this key, if it names the object and was not taken in before.
    fn look_at(&mut self, key: RowKey, store: &Store, koid: Koid) -> Result<(), AllocError>
        ensures wider { OnOk result (Widens store.now.state koid self.old.ends.keys self.new.ends.keys) }
        ensures counted { OnOk result (IsNameCount store.now.state koid self.old.ends.keys self.old.messages.items self.old.left
            → IsNameCount store.now.state koid self.new.ends.keys self.new.messages.items self.new.left) }
    {
        let RowKey::Msg(endpoint, _) = key else {
            return Ok(());
        };
        let times = times_named(store.row(key), koid);
        if times == 0 || self.messages.contains(&key) {
            return Ok(());
        }
        self.messages.push(key)?;
        self.left = self.left.saturating_sub(times);
        self.add_end(endpoint)
    }

    /// Appends the koid, unless it is there already.
    fn add_end(&mut self, koid: Koid) -> Result<(), AllocError>
        ensures ends { OnOk result (self.new.ends.keys ≡ with_end self.old.ends.keys koid) }
        ensures messages { self.new.messages ≡ self.old.messages }
        ensures left { self.new.left ≡ self.old.left }
    {
        self.ends.insert(koid.0)?;
        Ok(())
    }
}

/// The most names that the object can have in rows: its supports, without the live children if it is a live job.
fn names_of(store: &Store, koid: Koid) -> u64
    ensures { total (named_by koid) store.now.state ≤ result }
{
    let count = store.count(koid);
    match store.object(koid) {
        Some(found) => {
            if found.is_live_job() {
                count
                    .saturating_sub(store.child_jobs(koid))
                    .saturating_sub(store.child_processes(koid))
            } else {
                count
            }
        }
        None => count,
    }
}

/// How often the row names the object, if it is that of a message.
pub(crate) fn times_named(row: Option<&Row>, koid: Koid) -> u64
    ensures { result ≡ times_named koid (option_copied row.entry) }
{
    match row {
        Some(Row::Msg(message)) => times_among(message.handles().as_slice(), koid),
        _ => 0,
    }
}

/// How many of the handles name the object.
fn times_among(handles: &[Held], koid: Koid) -> u64
    ensures { result ≡ count_by (λ held. held.koid == koid) handles.now }
{
    handles.iter().filter(|held| held.koid == koid).count() as u64
}
