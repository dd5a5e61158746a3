//! Keeps a history's store in a step at rest, so that calls run on it where it stands.

ghost use Rattle.std.specs.Prelude.{◌≡◌, true, IfOk, OnOk, OnErr};
ghost use Rattle.zt_rows.specs.Change.{before, exchange};
ghost use Rattle.zt_rows.specs.Consistent.{IsConsistent};
ghost use Rattle.zt_rows.specs.Opening.{opening};
ghost use Rattle.zt_rows.specs.Reads.{has_live_process};
ghost use Rattle.zt_rows.specs.Room.{HasRoom};
ghost use Rattle.zt_rows.specs.Step.{step};
ghost use Rattle.zt_store.specs.Places.{Keeps, fits};

use std::alloc::{AllocError, Global};
use std::marker::Model;
use zt_calls::run_on;
use zt_rows::{Call, Koid, Reply};
use zt_store::{Record, Step, Store};

/// A store on which calls run where it stands. Between calls it is the store of a step that has put nothing yet.
#[derive(Drop)]
pub(crate) struct WorkingStore {
    step: Step,
    alloc: Global,
}

impl Model for WorkingStore {
    ghost use Rattle.zt_store.specs.StepView.{IsAtRest};
    ghost use Rattle.zt_store.specs.StoreView.{Stored};

    ghost Value = { Stored };

    ghost view = { λ s. record { state = s.step.current; places = s.step.places } };

    ghost invariant = { λ s. IsAtRest s.step };
}

impl WorkingStore {
    /// The store that a history begins with.
    pub(crate) fn opening(alloc: Global) -> Result<WorkingStore, AllocError>
        ensures { IfOk result (λ store. store.state ≡ opening) }
    {
        let store = Store::opening(alloc)?;
        Ok(WorkingStore {
            step: Step::begin(store),
            alloc,
        })
    }

    /// The store itself.
    pub(crate) fn store(&self) -> &Store
        ensures { result.now ≡ self.now }
    {
        self.step.store()
    }

    /// Exchanges the record's rows with the store's, as `swap` of `zt_store` does.
    pub(crate) fn swap(&mut self, kept: &mut Record)
        requires { fits self.old.places kept.old ≡ true }
        ensures exchanged { (self.new.state, kept.new) ≡ exchange self.old.state kept.old }
        ensures places { self.new.places ≡ self.old.places }
        ensures fits { fits self.new.places kept.new ≡ true }
    {
        self.step.swap(kept);
    }

    /// Runs one call of a live process, as `run_on` of `zt_calls` does.
    pub(crate) fn apply(
        &mut self,
        process: Koid,
        call: &Call,
        reply: &mut Reply,
    ) -> Result<Record, AllocError>
        requires room { HasRoom self.old.state }
        requires consistent { IsConsistent self.old.state }
        requires running { has_live_process self.old.state process ≡ true }
        ensures ok { OnOk result ((self.new.state, reply.new) ≡ step self.old.state process call.now) }
        ensures recorded { IfOk result (λ change. change ≡ before self.old.state self.new.state) }
        ensures fits { IfOk result (λ change. fits self.new.places change ≡ true) }
        ensures err { OnErr result (self.new.state ≡ self.old.state) }
        ensures consistent { IsConsistent self.new.state }
        ensures kept { Keeps self.old.places self.new.places }
    {
        run_on(self.alloc, &mut self.step, process, call, reply)
    }
}
