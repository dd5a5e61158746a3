//! Prints the handles of an object.

ghost use Rattle.std.specs.Prelude.{◌≡◌, ◌++◌, IfErr, IfOk, OnOk};
ghost use Rattle.std.specs.List.{flat_map};
ghost use Rattle.std.specs.Option.{option_map};
ghost use Rattle.zt_view.specs.HandleTexts.{call_left, lineage_text};
ghost use Rattle.zt_view.specs.Questions.{IsAnswer, IsUnanswered};
ghost use Rattle.zt_view.specs.declared.question.ViewQuestion.TheVariants as question;

use std::alloc::{AllocError, Global};
use zt_history::History;
use zt_look::{Leaving, LineageStep, lineage, print_lineage_step};
use zt_rows::{Call, Koid, Moment, Refusal};

/// Prints the handles of an object on the path to `at`, each below the one that it came from.
#[tactic(auto, using(crate::proofs::LifeLaws::unanswered_lineage, crate::proofs::LifeLaws::unanswered_lineage_memory))]
pub fn lineage_lines(
    alloc: Global,
    history: &mut History,
    koid: Koid,
    at: Moment,
) -> Result<Vec<u8>, Refusal>
    ensures answer { IfOk result (λ text. IsAnswer (question.Lineage koid at) history.old.tree text.items) }
    ensures none { IfErr result (IsUnanswered (question.Lineage koid at) history.old.tree) }
    ensures tree { history.new.tree ≡ history.old.tree }
{
    let list = lineage(alloc, history, at, koid)?;
    let mut text = Vec::new(alloc);
    put_lineage(alloc, &mut text, history, list.as_slice())?;
    Ok(text)
}

/// Appends the handles of an object.
fn put_lineage(
    alloc: Global,
    text: &mut Vec<u8>,
    history: &History,
    list: &[LineageStep],
) -> Result<(), AllocError>
    ensures { OnOk result (text.new.items ≡ text.old.items ++ flat_map (lineage_text history.now.tree.made) list.now) }
{
    for step in list {
        put_lineage_step(alloc, text, history, step)?;
    }
    Ok(())
}

/// Appends one handle of an object, with the words of the calls by which it came and left.
fn put_lineage_step(
    alloc: Global,
    text: &mut Vec<u8>,
    history: &History,
    step: &LineageStep,
) -> Result<(), AllocError>
    ensures { OnOk result (text.new.items ≡ text.old.items ++ lineage_text history.now.tree.made step.now) }
{
    let came = history.call_of(step.handle.moment);
    let left = call_left(history, step.handle.left);
    let line = print_lineage_step(alloc, step, &came, &left, false)?;
    text.extend_from_slice(line.as_slice())
}

/// Returns the call of the moment at which a handle left its place, if it did.
fn call_left(history: &History, left: Option<(Moment, Leaving)>) -> Option<(Koid, &Call)>
    ensures { option_map (λ e. (e.0, e.1.now)) result ≡ call_left history.now.tree.made left }
{
    match left {
        Some((moment, _)) => history.call_of(moment),
        None => None,
    }
}
