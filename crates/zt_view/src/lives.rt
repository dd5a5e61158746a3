//! Prints the life of a handle.

ghost use Rattle.std.specs.Prelude.{◌≡◌, ◌++◌, IfErr, IfOk, None, OnOk, unwrap_or};
ghost use Rattle.zt_history.specs.Tree.{call_at};
ghost use Rattle.zt_view.specs.HandleTexts.{end_text, ending_text, last_step, life_text, step_text, steps_text};
ghost use Rattle.zt_view.specs.Questions.{IsAnswer, IsUnanswered};
ghost use Rattle.zt_view.specs.declared.question.ViewQuestion.TheVariants as question;

use std::alloc::{AllocError, Global};
use zt_history::History;
use zt_lineage::{Ending, HandleLife, LifeStep, Place, life};
use zt_look::{print_life_end, print_life_step, print_whereabouts};
use zt_rows::{HandleValue, Koid, Moment, Refusal};

/// Prints the life of a handle of a process on the path to `at`: its steps, how it ended, if it did, and where it is.
#[tactic(auto, using(crate::proofs::LifeLaws::unanswered_life, crate::proofs::LifeLaws::unanswered_memory))]
pub fn life_lines(
    alloc: Global,
    history: &mut History,
    process: Koid,
    value: HandleValue,
    at: Moment,
) -> Result<Vec<u8>, Refusal>
    ensures answer { IfOk result (λ text. IsAnswer (question.Handle process value at) history.old.tree text.items) }
    ensures none { IfErr result (IsUnanswered (question.Handle process value at) history.old.tree) }
    ensures tree { history.new.tree ≡ history.old.tree }
{
    let told = life(alloc, history, at, Place::Entry(process, value))?;
    let mut text = Vec::new(alloc);
    put_life(alloc, &mut text, history, &told)?;
    Ok(text)
}

/// Appends a life.
fn put_life(
    alloc: Global,
    text: &mut Vec<u8>,
    history: &History,
    told: &HandleLife,
) -> Result<(), AllocError>
    ensures { OnOk result (text.new.items ≡ text.old.items ++ life_text history.now.tree.made told.now) }
{
    let last = put_steps(alloc, text, history, told.steps.as_slice())?;
    put_end(alloc, text, history, &last, &told.ended)
}

/// Appends steps, and returns the last of them.
fn put_steps(
    alloc: Global,
    text: &mut Vec<u8>,
    history: &History,
    steps: &[LifeStep],
) -> Result<Option<LifeStep>, AllocError>
    ensures text { OnOk result (text.new.items ≡ text.old.items ++ steps_text history.now.tree.made None steps.now) }
    ensures last { IfOk result (λ last. last ≡ last_step None steps.now) }
{
    let mut before: Option<LifeStep> = None;
    for step in steps {
        put_step(alloc, text, history, step, &before)?;
        before = Some(*step);
    }
    Ok(before)
}

/// Appends a step, with the rights of the step before and the call of its moment.
fn put_step(
    alloc: Global,
    text: &mut Vec<u8>,
    history: &History,
    step: &LifeStep,
    before: &Option<LifeStep>,
) -> Result<(), AllocError>
    ensures { OnOk result (text.new.items ≡ text.old.items ++ step_text history.now.tree.made before.now step.now) }
{
    let by = history.call_of(step.moment);
    let ahead = step_ahead(before, step);
    let line = print_life_step(alloc, step, ahead.held.rights, &by, false)?;
    text.extend_from_slice(line.as_slice())
}

/// Returns the step before, or the step itself if there is none before.
fn step_ahead<'a>(before: &'a Option<LifeStep>, step: &'a LifeStep) -> &'a LifeStep
    ensures { result.now ≡ unwrap_or before.now step.now }
{
    match before {
        Some(before) => before,
        None => step,
    }
}

/// Appends how a handle ended after its last step, if it did, and where it is.
fn put_end(
    alloc: Global,
    text: &mut Vec<u8>,
    history: &History,
    last: &Option<LifeStep>,
    ended: &Option<(Moment, Ending)>,
) -> Result<(), AllocError>
    ensures { OnOk result (text.new.items ≡ text.old.items ++ end_text history.now.tree.made last.now ended.now) }
{
    match ended {
        None => text.extend_from_slice(print_whereabouts(alloc, last, false)?.as_slice()),
        Some((moment, how)) => {
            put_ending(alloc, text, history, last, *moment, *how)?;
            text.extend_from_slice(print_whereabouts(alloc, &None, false)?.as_slice())
        }
    }
}

/// Appends how a handle ended after its last step, with the call of the moment.
fn put_ending(
    alloc: Global,
    text: &mut Vec<u8>,
    history: &History,
    last: &Option<LifeStep>,
    moment: Moment,
    how: Ending,
) -> Result<(), AllocError>
    ensures { OnOk result (text.new.items ≡ text.old.items ++ ending_text last.now moment how (call_at history.now.tree.made moment)) }
{
    match last {
        None => Ok(()),
        Some(last) => match history.call_of(moment) {
            None => Ok(()),
            Some((process, call)) => {
                let line = print_life_end(alloc, moment, how, last, process, call, false)?;
                text.extend_from_slice(line.as_slice())
            }
        },
    }
}
