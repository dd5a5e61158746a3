//! The order in which a log's calls run, while it is looked for call by call.

use crate::order::{Move, may_precede, move_ahead};
use std::alloc::{AllocError, Global};
use std::collections::HashMap;
use zt_bits::Status;
use zt_logs::LoggedCall;
use zt_rows::Call;

/// How many spawns are moved ahead of one call at most: that of its process, that of its parent, and so on.
const ANCESTORS: usize = 64;

/// The calls of a log in the order to which the moves led so far.
#[derive(Drop)]
pub(crate) struct Arranged {
    numbers: Vec<usize>,
    /// The place of each call, by the call's number. Empty as long as no call is moved.
    places: Vec<usize>,
    moves: Vec<Move>,
    /// Whether `move_spawns` moved the spawns.
    has_moved_spawns: bool,
}

impl Arranged {
    /// The order of a log with this many calls.
    pub(crate) fn of(alloc: Global, calls: usize) -> Result<Arranged, AllocError> {
        let mut order = Arranged {
            numbers: Vec::with_capacity(alloc, calls)?,
            places: Vec::new(alloc),
            moves: Vec::new(alloc),
            has_moved_spawns: false,
        };
        for number in 0..calls {
            order.numbers.push(number)?;
        }
        Ok(order)
    }

    /// Keeps the place of each call, ahead of the first move.
    fn keep_places(&mut self) -> Result<(), AllocError> {
        for place in self.places.len()..self.numbers.len() {
            self.places.push(place)?;
        }
        Ok(())
    }

    /// The number of the call at a place.
    pub(crate) fn at(&self, place: usize) -> Option<usize> {
        self.numbers.get(place).copied()
    }

    /// The place of the call with this number.
    pub(crate) fn place_of(&self, number: usize) -> usize {
        match self.places.get(number) {
            Some(place) => *place,
            None => number,
        }
    }

    pub(crate) fn numbers(&self) -> &[usize] {
        self.numbers.as_slice()
    }

    /// The moves that led to this order.
    pub(crate) fn moves(&self) -> &[Move] {
        self.moves.as_slice()
    }

    /// Whether the call at `from` may be moved to the earlier place `to`.
    pub(crate) fn can_move(&self, calls: &[LoggedCall], from: usize, to: usize) -> bool {
        to <= from && self.can_pass(calls, from, to, from)
    }

    /// Moves a call ahead if it may be moved that far. Returns whether it was moved.
    pub(crate) fn move_ahead(
        &mut self,
        calls: &[LoggedCall],
        from: usize,
        to: usize,
    ) -> Result<bool, AllocError> {
        if from <= to || !self.can_move(calls, from, to) {
            return Ok(false);
        }
        let made = Move { from, to };
        self.keep_places()?;
        self.moves.push(made)?;
        let _is_there = move_ahead(calls, &mut self.numbers, made);
        self.place_again(from, to);
        Ok(true)
    }

    /// Moves a call ahead, with the calls of its line that stand ahead of it, if all may be moved that far. Returns whether
    /// they were.
    pub(crate) fn move_line(
        &mut self,
        calls: &[LoggedCall],
        from: usize,
        to: usize,
    ) -> Result<bool, AllocError> {
        if !self.can_move_line(calls, from, to) {
            return Ok(false);
        }
        let first = self.line_begin(calls, from);
        for place in first..from.saturating_add(1) {
            let target = to.saturating_add(place.saturating_sub(first));
            let _is_moved = self.move_ahead(calls, place, target)?;
        }
        Ok(true)
    }

    /// Whether a call may be moved ahead, with the calls of its line that stand ahead of it.
    pub(crate) fn can_move_line(&self, calls: &[LoggedCall], from: usize, to: usize) -> bool {
        let first = self.line_begin(calls, from);
        first > to
            && self.are_of_line(calls, first, from)
            && (first..from.saturating_add(1)).all(|place| self.can_pass(calls, place, to, first))
    }

    /// The place of the first call of the line to which the call at `place` belongs.
    fn line_begin(&self, calls: &[LoggedCall], place: usize) -> usize {
        match self.at(place) {
            Some(number) => match calls.get(number) {
                Some(logged) => place.saturating_sub(logged.part.ahead),
                None => place,
            },
            None => place,
        }
    }

    /// Whether the calls at these places are all of one line.
    fn are_of_line(&self, calls: &[LoggedCall], first: usize, last: usize) -> bool {
        let line = self.line_at(calls, last);
        (first..last).all(|place| self.line_at(calls, place) == line)
    }

    fn line_at(&self, calls: &[LoggedCall], place: usize) -> Option<u64> {
        let number = self.at(place)?;
        match calls.get(number) {
            Some(logged) => Some(logged.line),
            None => None,
        }
    }

    /// Whether the call at `from` may be moved ahead of all calls from `begin` up to `end`, without the one at `end`.
    pub(crate) fn can_pass(
        &self,
        calls: &[LoggedCall],
        from: usize,
        begin: usize,
        end: usize,
    ) -> bool {
        let Some(number) = self.at(from) else {
            return false;
        };
        for place in begin..end {
            match self.at(place) {
                Some(passed) if may_precede(calls, number, passed) => {}
                _ => return false,
            }
        }
        true
    }

    /// Sets the places of the calls from `to` up to `from` again.
    fn place_again(&mut self, from: usize, to: usize) {
        for place in to..from.saturating_add(1) {
            if let Some(number) = self.numbers.get(place).copied() {
                if let Some(known) = self.places.get_mut(number) {
                    *known = place;
                }
            }
        }
    }

    /// Whether the call `one` stands ahead of the call `other`.
    pub(crate) fn precedes(&self, one: usize, other: usize) -> bool {
        self.place_of(one) < self.place_of(other)
    }

    /// Moves each `spawn` behind calls of the process that it makes ahead of the first of them. Once that is done, it does
    /// nothing.
    pub(crate) fn move_spawns(
        &mut self,
        alloc: Global,
        calls: &[LoggedCall],
    ) -> Result<(), AllocError> {
        if self.has_moved_spawns {
            return Ok(());
        }
        self.has_moved_spawns = true;
        let mut spawns = spawns_in(alloc, calls)?;
        for place in 0..calls.len() {
            if spawns.is_empty() {
                return Ok(());
            }
            self.move_spawns_to(calls, &mut spawns, place)?;
        }
        Ok(())
    }

    /// Moves the `spawn` of the process that makes the call at `place` there. Goes on with the process that makes that
    /// `spawn`. The process that makes the call at `place` in the end is there from then on, and no longer in `spawns`.
    fn move_spawns_to(
        &mut self,
        calls: &[LoggedCall],
        spawns: &mut HashMap<u64, usize>,
        place: usize,
    ) -> Result<(), AllocError> {
        for _ in 0..ANCESTORS {
            let Some(process) = self.process_at(calls, place) else {
                return Ok(());
            };
            let Some(spawn) = spawns.get(&process).copied() else {
                return Ok(());
            };
            if !self.move_with_others(calls, self.place_of(spawn), place)? {
                forget(spawns, process);
                return Ok(());
            }
        }
        if let Some(process) = self.process_at(calls, place) {
            forget(spawns, process);
        }
        Ok(())
    }
}

impl Arranged {
    /// Moves a call ahead, with the calls of its process in between, which keep their order. Nothing is moved unless all
    /// may be moved that far. Returns whether they were moved.
    fn move_with_others(
        &mut self,
        calls: &[LoggedCall],
        from: usize,
        to: usize,
    ) -> Result<bool, AllocError> {
        if from <= to || !self.can_move_with_others(calls, from, to) {
            return Ok(false);
        }
        let process = self.process_at(calls, from);
        let mut next = to;
        for place in to..from.saturating_add(1) {
            if self.process_at(calls, place) == process {
                let _is_moved = self.move_ahead(calls, place, next)?;
                next = next.saturating_add(1);
            }
        }
        Ok(true)
    }

    /// Whether a call may be moved ahead, with the calls of its process in between.
    fn can_move_with_others(&self, calls: &[LoggedCall], from: usize, to: usize) -> bool {
        let process = self.process_at(calls, from);
        for place in to..from.saturating_add(1) {
            if self.process_at(calls, place) == process && !self.can_pass_others(calls, place, to) {
                return false;
            }
        }
        true
    }

    /// Whether a call may be moved ahead of the calls of other processes in between.
    fn can_pass_others(&self, calls: &[LoggedCall], from: usize, to: usize) -> bool {
        let process = self.process_at(calls, from);
        let Some(number) = self.at(from) else {
            return false;
        };
        for place in to..from {
            let is_other = self.process_at(calls, place) != process;
            if is_other
                && !self
                    .at(place)
                    .is_some_and(|passed| may_precede(calls, number, passed))
            {
                return false;
            }
        }
        true
    }

    /// The process that makes the call at a place.
    fn process_at(&self, calls: &[LoggedCall], place: usize) -> Option<u64> {
        let number = self.at(place)?;
        match calls.get(number) {
            Some(logged) => Some(logged.process),
            None => None,
        }
    }
}

/// Removes the `spawn` of a process, if it is there.
fn forget(spawns: &mut HashMap<u64, usize>, process: u64) {
    let _spawn = spawns.remove(&process);
}

/// The call that makes each process, by the process's number.
fn spawns_in(alloc: Global, calls: &[LoggedCall]) -> Result<HashMap<u64, usize>, AllocError> {
    let mut spawns = HashMap::new(alloc);
    for number in 0..calls.len() {
        if let Some(process) = spawned_by(&calls[number]) {
            put_spawn(&mut spawns, process, number)?;
        }
    }
    Ok(spawns)
}

fn put_spawn(
    spawns: &mut HashMap<u64, usize>,
    process: u64,
    number: usize,
) -> Result<(), AllocError> {
    match spawns.insert(process, number) {
        Ok(_) => Ok(()),
        Err(_) => Err(AllocError),
    }
}

/// The process that a call made.
fn spawned_by(logged: &LoggedCall) -> Option<u64> {
    match logged.call {
        Call::Spawn { .. } if logged.recorded.status == Some(Status::Ok) => logged.recorded.process,
        _ => None,
    }
}
