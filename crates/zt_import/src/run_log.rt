//! Runs the calls of a log over a history, and compares their replies.

ghost use Rattle.std.specs.Prelude.{◌≡◌, ◌<◌, ℕ, List, [], ◌∷◌, ◌++◌, IfOk, OnOk, length, if◌then◌else◌};
ghost use Rattle.zt_history.specs.Tree.{opening_tree};
ghost use Rattle.zt_import.specs.Imports.{Loads, IsImportOf, CountsBySchedule, AreTheLogsCalls, differs};
ghost use Rattle.std.specs.Option.{option_copied};
ghost use Rattle.zt_import.specs.Orders.{IsOrder};
ghost use Rattle.zt_import.specs.Trails.{IsMadeOf, pair_of, spawned_in};
ghost use Rattle.zt_import.specs.ProofsOnly.TakenCalls.{IsOneStepMore, HasRun, IsRunOf, Leaves, Learns, is_settled_part, process_in};
ghost use Rattle.zt_import.specs.declared.trail.Origin.TheVariants as origin;

use crate::adoption::Adoption;
use crate::arranged::Arranged;
use crate::causes::may_be_by_order;
use crate::compared::Compared;
use crate::comparison::agrees;
use crate::differences::compare_all;
use crate::joins::line_of;
use crate::look::look;
use crate::mapped::Mapped;
use crate::numbers::Numbers;
use crate::order::ordered;
use crate::parts::is_last;
use crate::plan::Plan;
use crate::taken::Taken;
use crate::trail::{Difference, HandleOrigin, Origin, TrailStep};
use std::alloc::{AllocError, Global};
use std::marker::Model;
use zt_history::History;
use zt_logs::{Cause, LinePart, LogFault, LoggedCall};
use zt_rows::{Call, FIRST_HANDLE, Moment, Reply};

/// The import of a log: the history of its calls, and the calls whose replies differ.
pub struct Imported {
    taken: Taken,
    compared: Compared,
}

impl Drop for Imported {
    fn drop(self) {
        let Imported {
            taken: _taken,
            compared: _compared,
        } = self;
    }
}

impl Model for Imported {
    ghost use Rattle.zt_import.specs.Imports.{Import};
    ghost use Rattle.zt_import.specs.ProofsOnly.TakenCalls.{import_of};

    ghost Value = { Import };

    ghost view = { λ i. import_of i.taken i.compared };
}

impl Imported {
    /// The history of the calls.
    pub fn history(&self) -> &History
        ensures tree { result.now.tree ≡ self.now.tree }
        ensures loads { Loads self.now }
    {
        self.taken.history()
    }

    /// The calls that were asked of the history, in the order in which they were asked.
    pub fn trail(&self) -> &[TrailStep]
        ensures { result.now ≡ self.now.trail }
    {
        self.taken.trail()
    }

    /// The adopted handles, by the numbers that the trail has.
    pub(crate) fn adopted(&self) -> &[HandleOrigin] {
        self.taken.adopted()
    }

    /// What stands for the log's processes and handles.
    pub(crate) fn mapped(&self) -> &Mapped {
        self.taken.mapped()
    }

    /// The first hundred calls whose replies differ, in the order of the trace.
    pub fn differences(&self) -> &[Difference]
        ensures { result.now ≡ self.now.told }
    {
        self.compared.told()
    }

    /// How many replies differ.
    pub fn count(&self) -> u64
        ensures { result ≡ self.now.count }
    {
        self.compared.count()
    }

    /// How many of the differences are by the schedule.
    pub fn by_schedule(&self) -> u64
        ensures { result ≡ self.now.by_schedule }
    {
        self.compared.by_schedule()
    }

    /// Whether a reply differs that is not by the schedule.
    pub fn differs(&self) -> bool
        ensures { result ≡ differs self.now }
    {
        self.compared.by_schedule() < self.compared.count()
    }
}

/// The calls of a log, run.
#[derive(Drop)]
struct Run {
    taken: Taken,
    /// The steps that are not yet known to agree with the log.
    left: Vec<TrailStep>,
}

/// How often an order is looked for. Each time starts from the moves of the last.
const ROUNDS: usize = 8;

/// Runs the calls of a log over a history, behind calls that make what the log uses and never got. Compares the replies.
/// The calls run in the order of the log, except for those that are moved ahead of calls of other processes.
///
/// The error is `SpawnedTwice` at a line, `Full` if the history takes no more calls, or `OutOfMemory`.
pub fn import(alloc: Global, calls: &[LoggedCall]) -> Result<Imported, LogFault>
    ensures loads { IfOk result Loads }
    ensures differences { IfOk result (IsImportOf calls.now) }
    ensures by_schedule { IfOk result (CountsBySchedule calls.now) }
    ensures calls { IfOk result (AreTheLogsCalls calls.now) }
{
    let Run { taken, left } = best_run(alloc, calls)?;
    let mut taken = taken;
    let mut compared = Compared::new(alloc);
    compare_all(alloc, &mut taken, &mut compared, calls, left.as_slice())?;
    let _history = taken.history();
    Ok(Imported { taken, compared })
}

/// The calls, run in the order of the log with its spawns and writes moved, or in another order in which fewer replies
/// differ.
fn best_run(alloc: Global, calls: &[LoggedCall]) -> Result<Run, LogFault>
    ensures run { IfOk result (λ run. IsRunOf calls.now run.taken) }
    ensures left { IfOk result (λ run. Leaves calls.now run.taken.tree.made run.taken.trail run.left.items) }
{
    let mut order = match Arranged::of(alloc, calls.len()) {
        Ok(order) => order,
        Err(_) => return Err(Cause::OutOfMemory.at(0)),
    };
    let mut found = Differing::none();
    let run = run_in(alloc, calls, &mut order, &mut found)?;
    if found.by_order == 0 {
        return Ok(run);
    }
    let mut others = Differing::none();
    let other = other_run(alloc, calls, &mut order, &mut others)?;
    if others.count < found.count {
        Ok(other)
    } else {
        Ok(run)
    }
}

/// The calls, run in an order that is looked for. Adds the replies that differ to `found`.
fn other_run(
    alloc: Global,
    calls: &[LoggedCall],
    order: &mut Arranged,
    found: &mut Differing,
) -> Result<Run, LogFault>
    ensures run { IfOk result (λ run. IsRunOf calls.now run.taken) }
    ensures left { IfOk result (λ run. Leaves calls.now run.taken.tree.made run.taken.trail run.left.items) }
{
    for _ in 0..ROUNDS {
        let plan = Plan::of(alloc, calls, order)?;
        let before = order.moves().len();
        look(alloc, calls, &plan, order)?;
        if order.moves().len() == before {
            return run_in(alloc, calls, order, found);
        }
    }
    run_in(alloc, calls, order, found)
}

/// The calls, run in this order. Adds the replies that differ to `found`.
fn run_in(
    alloc: Global,
    calls: &[LoggedCall],
    order: &mut Arranged,
    found: &mut Differing,
) -> Result<Run, LogFault>
    ensures run { IfOk result (λ run. IsRunOf calls.now run.taken) }
    ensures left { IfOk result (λ run. Leaves calls.now run.taken.tree.made run.taken.trail run.left.items) }
{
    let plan = Plan::of(alloc, calls, order)?;
    let Ok(numbers) = ordered(alloc, calls, order.moves()) else {
        return Err(Cause::OutOfMemory.at(0));
    };
    let Ok(mut taken) = Taken::new(alloc, calls.len()) else {
        return Err(Cause::OutOfMemory.at(0));
    };
    let mut left = Vec::new(alloc);
    run_all(
        alloc,
        &mut taken,
        &mut left,
        &plan,
        calls,
        numbers.as_slice(),
        found,
    )?;
    Ok(Run { taken, left })
}

/// How many replies differ, and how many of these may agree in another order.
#[derive(Clone, Copy)]
struct Differing {
    count: usize,
    by_order: usize,
}

impl Differing {
    fn none() -> Differing {
        Differing {
            count: 0,
            by_order: 0,
        }
    }

    /// Counts a call if its reply does not agree. A call ahead of the last of its line counts only if another order may make it
    /// agree.
    fn add(&mut self, logged: &LoggedCall, reply: Option<&Reply>, agreed: bool) {
        if agreed || !is_last(logged.part) && !may_be_by_order(logged, reply) {
            return;
        }
        self.count = self.count.saturating_add(1);
        if may_be_by_order(logged, reply) {
            self.by_order = self.by_order.saturating_add(1);
        }
    }
}

/// Makes what is adopted, and then runs the calls of these numbers one after another. Adds the replies that differ to
/// `found`, and to `left` the steps that are not known to agree.
fn run_all(
    alloc: Global,
    taken: &mut Taken,
    left: &mut Vec<TrailStep>,
    plan: &Plan,
    calls: &[LoggedCall],
    order: &[usize],
    found: &mut Differing,
) -> Result<(), LogFault>
    requires opening { taken.old ≡ record { tree = opening_tree; trail = [] } }
    requires order { IsOrder calls.now order.now }
    requires none { left.old.items ≡ [] }
    ensures run { OnOk result (IsRunOf calls.now taken.new) }
    ensures left { OnOk result (Leaves calls.now taken.new.tree.made taken.new.trail left.new.items) }
{
    let mut numbers = Numbers::new(alloc);
    let mut adoption = Adoption::new(alloc);
    match adoption.adopt_all(taken, &mut numbers, plan) {
        Ok(()) => {}
        Err(cause) => return Err(cause.at(0)),
    }
    for place in 0..order.len() {
        let index = order[place];
        match run_one(
            taken,
            left,
            &mut numbers,
            &mut adoption,
            plan,
            calls,
            index,
            found,
        ) {
            Ok(()) => {}
            Err(cause) => return Err(cause.at(line_of(calls, index))),
        }
    }
    taken.keep(numbers.into_mapped());
    Ok(())
}

/// Runs a call of the log, and adds its reply to `found` if it differs, and its step to `left` if it is not known to agree.
fn run_one(
    taken: &mut Taken,
    left: &mut Vec<TrailStep>,
    numbers: &mut Numbers,
    adoption: &mut Adoption,
    plan: &Plan,
    calls: &[LoggedCall],
    index: usize,
    found: &mut Differing,
) -> Result<(), Cause>
    requires { index < length calls.now }
    ensures run { OnOk result ((done : List ℕ) → HasRun calls.now done taken.old numbers.old.processes
        → HasRun calls.now (done ++ index ∷ []) taken.new numbers.new.processes) }
    ensures left { OnOk result (Leaves calls.now taken.old.tree.made taken.old.trail left.old.items
        → Leaves calls.now taken.new.tree.made taken.new.trail left.new.items) }
{
    let logged = &calls[index];
    adoption.write_outside(taken, plan, calls, index)?;
    let moment = run_call(taken, numbers, index, logged)?;
    let reply = taken.reply(&moment);
    let agreed = agrees(&logged.recorded, reply);
    found.add(logged, reply, agreed);
    keep_left(left, logged.part, index, moment, agreed)?;
    learn(numbers, plan, logged, reply)?;
    Ok(())
}

/// Appends the step of a call of the log, unless it is known to agree.
fn keep_left(
    left: &mut Vec<TrailStep>,
    part: LinePart,
    number: usize,
    moment: Option<Moment>,
    agreed: bool,
) -> Result<(), AllocError>
    ensures { OnOk result (left.new.items ≡ (if is_settled_part part agreed then left.old.items
        else left.old.items ++ record { origin = origin.Logged number; moment = moment } ∷ [])) }
{
    if is_settled_part(part, agreed) {
        return Ok(());
    }
    let origin = Origin::Logged(number);
    match left.push(TrailStep { origin, moment }) {
        Ok(()) => Ok(()),
        Err(_) => Err(AllocError),
    }
}

/// Whether a call needs no further comparison: it is a whole line and agrees, or its line ends with another call.
fn is_settled_part(part: LinePart, agreed: bool) -> bool
    ensures { result ≡ is_settled_part part agreed }
{
    !is_last(part) || part.ahead == 0 && agreed
}

/// Runs a call of the log with the processes and handles of the trace.
pub(crate) fn run_call(
    taken: &mut Taken,
    numbers: &Numbers,
    index: usize,
    logged: &LoggedCall,
) -> Result<Option<Moment>, Cause>
    ensures one { IfOk result (λ moment. IsOneStepMore taken.old taken.new (record { origin = origin.Logged index; moment = moment })) }
    ensures made { IfOk result (λ moment. IsMadeOf taken.new.tree.made moment (process_in numbers.now.processes logged.now.process) logged.now.call) }
{
    let call = numbers.call(logged.process, &logged.call)?;
    taken.ask(
        Origin::Logged(index),
        numbers.process(logged.process),
        &call,
    )
}

/// Maps what the log's call got to what the trace's call got.
pub(crate) fn learn(
    numbers: &mut Numbers,
    plan: &Plan,
    logged: &LoggedCall,
    reply: Option<&Reply>,
) -> Result<(), AllocError>
    ensures { OnOk result (Learns numbers.old.processes numbers.new.processes (pair_of logged.now.recorded.process (spawned_in (option_copied reply.entry)))) }
{
    numbers.learn_process(logged.recorded.process, reply)?;
    learn_handles(numbers, logged, reply)?;
    numbers.learn_copy(logged.part, reply)?;
    if logged.part.count > 1 && matches!(logged.call, Call::ChannelWrite { .. }) {
        numbers.forget_copies();
    }
    match reply {
        Some(Reply::Spawned(_, _)) => learn_argument(numbers, plan, logged),
        _ => Ok(()),
    }
}

/// Maps the handles that a call got.
fn learn_handles(
    numbers: &mut Numbers,
    logged: &LoggedCall,
    reply: Option<&Reply>,
) -> Result<(), AllocError>
    ensures { OnOk result (numbers.new.processes ≡ numbers.old.processes) }
{
    let process = logged.process;
    let handles = logged.recorded.handles.as_slice();
    match reply {
        Some(Reply::Handle(value)) => numbers.set_handles(process, handles, &[*value]),
        Some(Reply::Handles(first, second)) => {
            numbers.set_handles(process, handles, &[*first, *second])
        }
        Some(Reply::Message(_, values)) => numbers.set_handles(process, handles, values.as_slice()),
        Some(Reply::Spawned(value, _)) => numbers.set_handles(process, handles, &[*value]),
        _ => Ok(()),
    }
}

/// Maps the argument of a spawned process to its first handle.
fn learn_argument(numbers: &mut Numbers, plan: &Plan, logged: &LoggedCall) -> Result<(), AllocError>
    ensures { OnOk result (numbers.new.processes ≡ numbers.old.processes) }
{
    let Call::Spawn { argument, .. } = &logged.call else {
        return Ok(());
    };
    let Some(child) = logged.recorded.process else {
        return Ok(());
    };
    if argument.0 == 0 {
        return Ok(());
    }
    match plan.arguments.get(&child).copied() {
        Some(handle) => numbers.set_handle(child, handle, FIRST_HANDLE),
        None => Ok(()),
    }
}
