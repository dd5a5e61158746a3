//! The replies that differ from what a log has: the first of them, and how many there are.

ghost use Rattle.std.specs.Prelude.{◌≡◌, ◌+◌, ◌-◌, ◌^◌, ◌<◌, [], ◌∷◌, ◌++◌, cond, nat_lt, if◌then◌else◌, length, OnOk};
ghost use Rattle.zt_import.specs.ProofsOnly.TakenCalls.{ComparesMore, nothing_compared};

use crate::trail::Difference;
use std::alloc::{AllocError, Global};
use std::marker::Model;
use zt_rows::Moment;

/// How many differences are kept; the others are only counted.
pub const TOLD: usize = 100;

/// The calls of a log whose replies differ from what the log has.
#[derive(Drop)]
pub(crate) struct Compared {
    told: Vec<Difference>,
    count: u64,
    by_schedule: u64,
}

impl Model for Compared {
    ghost use Rattle.zt_import.specs.ProofsOnly.TakenCalls.{ComparedView};

    ghost Value = { ComparedView };

    ghost view = { λ c. record { told = c.told.items; count = c.count; by_schedule = c.by_schedule } };
}

impl Compared {
    /// No differences.
    pub(crate) fn new(alloc: Global) -> Compared
        ensures { result ≡ nothing_compared }
    {
        Compared {
            told: Vec::new(alloc),
            count: 0,
            by_schedule: 0,
        }
    }

    /// The first hundred differences, in the order in which they were added.
    pub(crate) fn told(&self) -> &[Difference]
        ensures { result.now ≡ self.now.told }
    {
        self.told.as_slice()
    }

    /// How many differences there are.
    pub(crate) fn count(&self) -> u64
        ensures { result ≡ self.now.count }
    {
        self.count
    }

    /// How many of the differences are by the schedule.
    pub(crate) fn by_schedule(&self) -> u64
        ensures { result ≡ self.now.by_schedule }
    {
        self.by_schedule
    }

    /// Adds a difference. The error is an allocation failure.
    pub(crate) fn tell(
        &mut self,
        call: usize,
        moment: Option<Moment>,
        by_schedule: bool,
    ) -> Result<(), AllocError>
        ensures { OnOk result (ComparesMore self.old self.new (record { call = call; moment = moment; by_schedule = by_schedule } ∷ [])) }
    {
        push_told(&mut self.told, call, moment, by_schedule)?;
        let count = self.count;
        self.count = counted(count, true);
        let scheduled = self.by_schedule;
        self.by_schedule = counted(scheduled, by_schedule);
        Ok(())
    }
}

/// Keeps a difference, if fewer than a hundred are kept.
fn push_told(
    told: &mut Vec<Difference>,
    call: usize,
    moment: Option<Moment>,
    by_schedule: bool,
) -> Result<(), AllocError>
    ensures { OnOk result (told.new.items ≡ (if nat_lt (length told.old.items) 100
        then told.old.items ++ record { call = call; moment = moment; by_schedule = by_schedule } ∷ [] else told.old.items)) }
{
    if told.len() < TOLD {
        push_difference(told, call, moment, by_schedule)
    } else {
        Ok(())
    }
}

/// Appends a difference to those that are kept.
fn push_difference(
    told: &mut Vec<Difference>,
    call: usize,
    moment: Option<Moment>,
    by_schedule: bool,
) -> Result<(), AllocError>
    ensures { OnOk result (told.new.items ≡ told.old.items ++ record { call = call; moment = moment; by_schedule = by_schedule } ∷ []) }
{
    match told.push(Difference {
        call,
        moment,
        by_schedule,
    }) {
        Ok(()) => Ok(()),
        Err(_) => Err(AllocError),
    }
}

/// The count, with one more if `one` is set.
fn counted(count: u64, one: bool) -> u64
    ensures { count < 2 ^ 64 - 1 → result ≡ count + cond one 1 0 }
{
    if one { count.saturating_add(1) } else { count }
}
