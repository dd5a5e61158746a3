//! The notes of all objects in one list, in which each note is linked to the earlier one of its object.

ghost use Rattle.std.specs.Prelude.{◌≡◌, ◌<◌, ◌≤◌, ◌++◌, ◌∷◌, [], IfOk, OnOk, OnErr, length, take};
ghost use Rattle.std.specs.Option.{option_copied};
ghost use Rattle.zt_rows.specs.State.{row};
ghost use Rattle.zt_history.specs.ProofsOnly.Branches.{without_last};
ghost use Rattle.zt_history.specs.ProofsOnly.FourBytes.{four_byte_numbers};
ghost use Rattle.zt_history.specs.ProofsOnly.ObjectNotes.{AreChained, AreRising, IsCut, IsLonger, IsSameEnd, TellsLast, end_at, ends_at, gone_name, gone_names, has_shown, loss_of, note_as, note_before, note_if, note_object, note_of, note_with, notes_in, notes_of, tells};

use crate::moments::Moments;
use crate::object_notes::row_losses::{is_lost, is_released, parent_in};
use crate::object_notes::{Noted, Sought};
use crate::row_happenings::{RowHappening, ShownChanges, shown_changes};
use std::alloc::{AllocError, Global};
use std::marker::Model;
use zt_rows::{Held, Koid, Moment, Row, RowKey};
use zt_store::{Record, Store};

/// A note: a change of an object by a moment's call. `earlier` is the place behind that of the object's earlier note,
/// or 0 if this is the first.
#[derive(Clone, Copy)]
pub(super) struct ObjectNote {
    koid: u32,
    earlier: u32,
    moment: Moment,
    what: Noted,
}

// There are many notes: each takes 16 bytes.
const _: () = prove_eq!(size_of::<ObjectNote>(), 16);

/// The notes in the order of their moments. `last` has for each koid the place behind that of its last note, or 0 if it
/// has none.
#[derive(Drop)]
pub(super) struct NoteChains {
    list: Vec<ObjectNote>,
    last: Vec<u32>,
}

impl Model for NoteChains {
    ghost use Rattle.std.specs.Prelude.{List};
    ghost use Rattle.zt_history.specs.ProofsOnly.ObjectNotes.{AreChained, ChangeNote, notes_in};

    ghost Value = { List ChangeNote };

    ghost view = { λ c. notes_in c.list.items };

    ghost invariant = { λ c. AreChained c.list.items c.last.items };
}

impl NoteChains {
    /// No notes.
    pub(super) fn new(alloc: Global) -> NoteChains
        ensures { result ≡ [] }
    {
        NoteChains {
            list: Vec::new(alloc),
            last: Vec::new(alloc),
        }
    }

    /// How many notes there are.
    pub(super) fn len(&self) -> usize
        ensures { result ≡ length self.now }
    {
        self.list.len()
    }

    /// Notes what a moment's call did to each object of its record, and which names and live children were lost by it.
    /// On an allocation failure some of these notes may be there.
    pub(super) fn note_record(
        &mut self,
        moment: Moment,
        change: &Record,
        store: &Store,
    ) -> Result<(), AllocError>
        ensures ok { OnOk result (self.new ≡ self.old ++ notes_of moment change.now store.now.state) }
        ensures kept { IsLonger self.old self.new }
    {
        let rows = change.rows();
        for place in 0..rows.len() {
            self.note_under(moment, rows.key(place), rows.row(place), store)?;
        }
        Ok(())
    }

    /// Notes what a moment's call did under one key. For an object's key, notes the changes of the object, and that its
    /// parent lost it. For any other key, notes that the call released what the row before it named. On an allocation
    /// failure some of these notes may be there.
    fn note_under(
        &mut self,
        moment: Moment,
        key: RowKey,
        before: Option<&Row>,
        store: &Store,
    ) -> Result<(), AllocError>
        ensures ok { OnOk result (self.new ≡ self.old ++ note_before moment (option_copied before.entry) store.now.state key) }
        ensures kept { IsLonger self.old self.new }
    {
        if let RowKey::Object(koid) = key {
            return self.note_object(moment, koid, before, store);
        }
        match before {
            Some(Row::Entry(held)) => self.note_name(moment, held.koid, &key, store),
            Some(Row::Msg(message)) => {
                let handles = message.handles().as_slice();
                self.note_names(moment, handles, &key, store)
            }
            _ => Ok(()),
        }
    }

    /// Notes what a moment's call did to an object, and whether the object's parent lost it as a live child. On an
    /// allocation failure one of the two notes may be there.
    fn note_object(
        &mut self,
        moment: Moment,
        koid: Koid,
        before: Option<&Row>,
        store: &Store,
    ) -> Result<(), AllocError>
        ensures ok { OnOk result (self.new ≡ self.old ++ note_object moment koid (option_copied before.entry) store.now.state) }
        ensures kept { IsLonger self.old self.new }
    {
        let after = store.look(RowKey::Object(koid));
        self.note_shown(moment, koid, before, after)?;
        self.note_loss(moment, before, after, store)
    }

    /// Notes what an object's rows before and after a moment's call show, if they show anything. On an allocation
    /// failure nothing is noted.
    fn note_shown(
        &mut self,
        moment: Moment,
        koid: Koid,
        before: Option<&Row>,
        after: Option<&Row>,
    ) -> Result<(), AllocError>
        ensures ok { OnOk result (self.new ≡ self.old ++ note_of moment koid (option_copied before.entry) (option_copied after.entry)) }
        ensures kept { IsLonger self.old self.new }
    {
        let shown = shown_changes(before, after);
        if shown.made || shown.ended || shown.peer_closed {
            return self.push(moment, koid, Noted::Shown(shown));
        }
        Ok(())
    }

    /// If the row before was that of a live process or job, notes that the parent lost it, if it did. Most rows are of
    /// neither. On an allocation failure nothing is noted.
    fn note_loss(
        &mut self,
        moment: Moment,
        before: Option<&Row>,
        after: Option<&Row>,
        store: &Store,
    ) -> Result<(), AllocError>
        ensures ok { OnOk result (self.new ≡ self.old ++ loss_of moment (option_copied before.entry) (option_copied after.entry) store.now.state) }
        ensures kept { IsLonger self.old self.new }
    {
        match parent_in(before) {
            Some(parent) => {
                let lost = is_lost(parent, after, store);
                self.push_if(lost, moment, parent, Noted::LostChild)
            }
            None => Ok(()),
        }
    }

    /// Notes which names among the handles of a message a moment's call released. The message stood under the key before.
    /// On an allocation failure some of these notes may be there.
    fn note_names(
        &mut self,
        moment: Moment,
        handles: &[Held],
        key: &RowKey,
        store: &Store,
    ) -> Result<(), AllocError>
        ensures ok { OnOk result (self.new ≡ self.old ++ gone_names moment (row store.now.state key.now) store.now.state handles.now) }
        ensures kept { IsLonger self.old self.new }
    {
        for held in handles {
            self.note_name(moment, held.koid, key, store)?;
        }
        Ok(())
    }

    /// Notes that a moment's call released a name of an object, if it did. The name stood under the key before. On an
    /// allocation failure nothing is noted.
    #[inline(always)]
    fn note_name(
        &mut self,
        moment: Moment,
        koid: Koid,
        key: &RowKey,
        store: &Store,
    ) -> Result<(), AllocError>
        ensures ok { OnOk result (self.new ≡ self.old ++ gone_name moment (row store.now.state key.now) store.now.state koid) }
        ensures kept { IsLonger self.old self.new }
    {
        let gone = is_released(koid, key, store);
        self.push_if(gone, moment, koid, Noted::Released)
    }

    /// Adds a note of an object as its last one, if this happened. On an allocation failure none is added.
    #[inline(always)]
    fn push_if(
        &mut self,
        happened: bool,
        moment: Moment,
        koid: Koid,
        what: Noted,
    ) -> Result<(), AllocError>
        ensures ok { OnOk result (self.new ≡ self.old ++ note_if happened moment koid what) }
        ensures kept { IsLonger self.old self.new }
    {
        if happened {
            return self.push(moment, koid, what);
        }
        Ok(())
    }

    /// Adds a note of an object as its last one. On an allocation failure none is added.
    #[inline(always)]
    fn push(&mut self, moment: Moment, koid: Koid, what: Noted) -> Result<(), AllocError>
        ensures ok { OnOk result (self.new ≡ self.old ++ note_with moment koid what ∷ []) }
        ensures kept { IsLonger self.old self.new }
    {
        let number = in_four_bytes(koid.0)?;
        let end = in_four_bytes(self.list.len() as u64 + 1)?;
        cover(&mut self.last, number)?;
        self.list.reserve(1)?;
        self.list.push_reserved(ObjectNote {
            koid: number,
            earlier: self.last[number as usize],
            moment,
            what,
        });
        self.last[number as usize] = end;
        Ok(())
    }

    /// Keeps the first `count` notes, and drops those behind.
    pub(super) fn cut_to(&mut self, count: usize)
        ensures { self.new ≡ take count self.old }
    {
        while self.len() > count {
            self.drop_last();
        }
    }

    /// Drops the notes of a moment, which are the last ones.
    pub(super) fn cut(&mut self, moment: Moment)
        ensures { IsCut self.old self.new moment }
    {
        while self.ends_at(moment) {
            self.drop_last();
        }
    }

    /// Whether the last note is one of this moment.
    fn ends_at(&self, moment: Moment) -> bool
        ensures { result ≡ ends_at self.now moment }
    {
        match self.list.last() {
            Some(note) => note.moment == moment,
            None => false,
        }
    }

    /// Drops the last note.
    fn drop_last(&mut self)
        requires { 0 < length self.old }
        ensures { self.new ≡ without_last self.old }
    {
        match self.list.pop() {
            Some(note) => self.last[note.koid as usize] = note.earlier,
            None => unreachable!(),
        }
    }

    /// The last moment on the path to `at` at which this happened to the object.
    pub(super) fn last_found(
        &self,
        moments: &Moments,
        what: Sought,
        koid: Koid,
        at: Moment,
    ) -> Option<Moment>
        requires { AreRising self.now }
        ensures { TellsLast self.now moments.now.made what koid at result }
    {
        found(&self.list, &self.last, moments, what, koid, at)
    }
}

/// The last moment on the path to `at` at which this happened to the object, read from the last note back.
fn found(
    list: &Vec<ObjectNote>,
    last: &Vec<u32>,
    moments: &Moments,
    what: Sought,
    koid: Koid,
    at: Moment,
) -> Option<Moment>
    requires chained { AreChained list.now.items last.now.items }
    requires rising { AreRising (notes_in list.now.items) }
    ensures { TellsLast (notes_in list.now.items) moments.now.made what koid at result }
{
    moments.limits();
    let mut next = end_of(last, koid);
    while next > 0 {
        let note = &list[next - 1];
        if tells(what, note) && moments.no_later(at, note.moment) == note.moment {
            return Some(note.moment);
        }
        next = note.earlier as usize;
    }
    None
}

/// The place behind that of the koid's last note, or 0 if it has none.
fn end_of(last: &Vec<u32>, koid: Koid) -> usize
    ensures { result ≡ end_at last.now.items koid }
{
    if koid.0 < last.len() as u64 {
        last[koid.0 as usize] as usize
    } else {
        0
    }
}

/// The number in four bytes. Only a number that does not fit counts as an allocation failure.
fn in_four_bytes(number: u64) -> Result<u32, AllocError>
    ensures same { IfOk result (λ same. same ≡ number) }
    ensures beyond { OnErr result (four_byte_numbers ≤ number) }
{
    match u32::try_from(number) {
        Ok(same) => Ok(same),
        Err(_) => Err(AllocError),
    }
}

/// Extends the list until it has a place for the koid. On an allocation failure some places may have been added.
fn cover(last: &mut Vec<u32>, koid: u32) -> Result<(), AllocError>
    ensures same { IsSameEnd last.old.items last.new.items }
    ensures ok { OnOk result (koid < length last.new.items) }
{
    while last.len() <= koid as usize {
        last.push(0)?;
    }
    Ok(())
}

/// Whether the note tells what is searched for.
fn tells(what: Sought, note: &ObjectNote) -> bool
    ensures { result ≡ tells what (note_as note.now) }
{
    match (what, note.what) {
        (Sought::Shown(happening), Noted::Shown(shown)) => has_shown(happening, shown),
        (Sought::Released, Noted::Released) => true,
        (Sought::LostChild, Noted::LostChild) => true,
        _ => false,
    }
}

/// Whether this is among what happened.
fn has_shown(happening: RowHappening, shown: ShownChanges) -> bool
    ensures { result ≡ has_shown happening shown }
{
    match happening {
        RowHappening::Made => shown.made,
        RowHappening::Ended => shown.ended,
        RowHappening::PeerClosed => shown.peer_closed,
    }
}
