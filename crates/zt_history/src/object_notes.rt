//! Notes beside the moments: what each call did to each object, by its row, by its names and by its live children. So
//! the moment of a happening is found by the notes of that object alone.

ghost use Rattle.std.specs.Prelude.{◌≡◌, ◌<◌, ◌∷◌, [], Some, IfOk, OnOk, OnErr, length, slice_get};
ghost use Rattle.zt_rows.specs.Handles.{next_koid};
ghost use Rattle.zt_history.specs.ProofsOnly.Branches.{without_last};
ghost use Rattle.zt_history.specs.ProofsOnly.FourBytes.{four_byte_numbers};
ghost use Rattle.zt_history.specs.ProofsOnly.ObjectNotes.{AreRising, IsCut, TellsLast, noted};

mod note_chains;
mod row_losses;

use crate::moments::Moments;
use crate::object_notes::note_chains::NoteChains;
use crate::row_happenings::{RowHappening, ShownChanges};
use std::alloc::{AllocError, Global};
use std::marker::Model;
use zt_rows::{Koid, Moment};
use zt_store::{Record, Store};

/// A change of an object by a moment's call.
#[derive(Clone, Copy)]
pub(crate) enum Noted {
    /// This shows in its row.
    Shown(ShownChanges),
    /// It lost a name while it stayed.
    Released,
    /// It lost a live child while it stayed.
    LostChild,
}

/// A change that is searched for among the notes of an object.
#[derive(Clone, Copy)]
pub(crate) enum Sought {
    /// This shows in its row.
    Shown(RowHappening),
    /// It lost a name while it stayed.
    Released,
    /// It lost a live child while it stayed.
    LostChild,
}

/// The notes of all objects, and the next koid at each moment from the opening on.
#[derive(Drop)]
pub(crate) struct ObjectNotes {
    chains: NoteChains,
    next_koids: Vec<u32>,
}

impl Model for ObjectNotes {
    ghost use Rattle.zt_history.specs.ProofsOnly.ObjectNotes.{NotedChanges};

    ghost Value = { NotedChanges };

    ghost view = { λ c. record { notes = c.chains; next_koids = c.next_koids.items } };
}

impl ObjectNotes {
    /// No notes, and the next koid at the opening.
    pub(crate) fn new(alloc: Global, store: &Store) -> Result<ObjectNotes, AllocError>
        requires few { next_koid store.now.state < four_byte_numbers }
        ensures { IfOk result (λ notes. notes ≡ record { notes = []; next_koids = next_koid store.now.state ∷ [] }) }
    {
        let mut next_koids = Vec::new(alloc);
        next_koids.push(store.counters().next_koid.0 as u32)?;
        Ok(ObjectNotes {
            chains: NoteChains::new(alloc),
            next_koids,
        })
    }

    /// The next koid at a moment.
    pub(crate) fn next_koid(&self, moment: Moment) -> Koid
        requires { moment < length self.now.next_koids }
        ensures { Some result ≡ slice_get self.now.next_koids moment }
    {
        Koid(u64::from(self.next_koids[moment.0 as usize]))
    }

    /// Notes what a moment's call did, by the call's record and the store after it. On an allocation failure nothing
    /// changes.
    pub(crate) fn note(
        &mut self,
        moment: Moment,
        change: &Record,
        store: &Store,
    ) -> Result<(), AllocError>
        requires few { next_koid store.now.state < four_byte_numbers }
        ensures ok { OnOk result (self.new ≡ noted self.old moment change.now store.now.state) }
        ensures err { OnErr result (self.new ≡ self.old) }
    {
        self.next_koids.reserve(1)?;
        let count = self.chains.len();
        match self.chains.note_record(moment, change, store) {
            Ok(()) => {
                self.next_koids
                    .push_reserved(store.counters().next_koid.0 as u32);
                Ok(())
            }
            Err(e) => {
                self.chains.cut_to(count);
                Err(e)
            }
        }
    }

    /// Drops what was noted of the last moment. Never allocates.
    pub(crate) fn drop_last(&mut self, moment: Moment)
        ensures notes { IsCut self.old.notes self.new.notes moment }
        ensures next_koids { self.new.next_koids ≡ without_last self.old.next_koids }
    {
        self.next_koids.pop();
        self.chains.cut(moment);
    }

    /// The last moment on the path to `at` at which this happened to the object.
    pub(crate) fn find(
        &self,
        moments: &Moments,
        what: Sought,
        koid: Koid,
        at: Moment,
    ) -> Option<Moment>
        requires { AreRising self.now.notes }
        ensures { TellsLast self.now.notes moments.now.made what koid at result }
    {
        self.chains.last_found(moments, what, koid, at)
    }
}
