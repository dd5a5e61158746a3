//! Answers one line with one text.

ghost use Rattle.std.specs.Prelude.{◌≡◌, List, ℕ, Ok, Some, IfOk, MatchResult};
ghost use Rattle.zt_text.specs.ReadLines.{read_as};
ghost use Rattle.zt_console.specs.Conversations.{Answers, IsRespondedTo, IsToldOfCopy, rows_in, holders_in, leaks_in, of_copy, newest, shown};

use crate::responder::Responder;
use std::alloc::{AllocError, Global};
use zt_queries::{Frozen, holders, leaks, rows};
use zt_rows::{Answer, Command, Koid, Refusal};
use zt_text::{Line, print_answer, print_refusal, read_line};

/// A client: its responder, and the copy that `pinned` lines ask. There is a copy once the client has pinned a moment.
pub(crate) struct Conversation<D> {
    pub(crate) responder: D,
    pub(crate) pinned: Option<Frozen>,
}

/// Returns the text that answers a line.
pub(crate) fn text_for<D: Responder>(
    alloc: Global,
    client: &mut Conversation<D>,
    line: &[u8],
) -> Result<Vec<u8>, AllocError>
    requires { D.ready client.old.responder }
    ensures answers { MatchResult result (λ text. Answers D.asks client.old (read_as line.now) text.items client.new)
        (λ _. (text : List ℕ) × Answers D.asks client.old (read_as line.now) text client.new) }
    ensures ready { D.ready client.new.responder }
{
    match read_line(alloc, line) {
        Ok(read) => text_read(alloc, client, &read),
        Err(refusal) => print_refusal(alloc, refusal),
    }
}

/// Returns the text that answers a parsed line; it is empty if the line is skipped.
fn text_read<D: Responder>(
    alloc: Global,
    client: &mut Conversation<D>,
    read: &Option<Line>,
) -> Result<Vec<u8>, AllocError>
    requires { D.ready client.old.responder }
    ensures answers { MatchResult result (λ text. Answers D.asks client.old (Ok read.now) text.items client.new)
        (λ _. (text : List ℕ) × Answers D.asks client.old (Ok read.now) text client.new) }
    ensures ready { D.ready client.new.responder }
{
    match read {
        Some(line) => text_wanted(alloc, client, line),
        None => Ok(Vec::new(alloc)),
    }
}

/// Returns the text that answers a line that is not skipped.
fn text_wanted<D: Responder>(
    alloc: Global,
    client: &mut Conversation<D>,
    line: &Line,
) -> Result<Vec<u8>, AllocError>
    requires { D.ready client.old.responder }
    ensures answers { MatchResult result (λ text. Answers D.asks client.old (Ok (Some line.now)) text.items client.new)
        (λ _. (text : List ℕ) × Answers D.asks client.old (Ok (Some line.now)) text client.new) }
    ensures ready { D.ready client.new.responder }
{
    match line {
        Line::Command(request) => text_asked(alloc, client, request),
        Line::PinnedShow => printed(alloc, pinned_rows(alloc, &client.pinned)),
        Line::PinnedHolders(koid) => {
            printed(alloc, pinned_holders(alloc, &client.pinned, *koid))
        }
        Line::PinnedLeaks => printed(alloc, pinned_leaks(alloc, &client.pinned)),
    }
}

/// Returns the text that answers a command.
fn text_asked<D: Responder>(
    alloc: Global,
    client: &mut Conversation<D>,
    request: &Command,
) -> Result<Vec<u8>, AllocError>
    requires { D.ready client.old.responder }
    ensures answered { MatchResult result (λ text. IsRespondedTo D.asks client.old request.now text.items client.new)
        (λ _. (text : List ℕ) × IsRespondedTo D.asks client.old request.now text client.new) }
    ensures ready { D.ready client.new.responder }
{
    match client.responder.ask(request) {
        Ok(given) => {
            let (answer, copy) = given;
            keep(&mut client.pinned, copy);
            printed(alloc, Ok(answer))
        }
        Err(refusal) => print_refusal(alloc, refusal),
    }
}

/// Keeps the newest copy.
fn keep(pinned: &mut Option<Frozen>, copy: Option<Frozen>)
    ensures { pinned.new ≡ newest pinned.old copy }
{
    if let Some(made) = copy {
        *pinned = Some(made);
    }
}

/// Returns the rows of the pinned copy. Fails with `NoMoment` if nothing is pinned.
fn pinned_rows(alloc: Global, pinned: &Option<Frozen>) -> Result<Answer, Refusal>
    ensures { IsToldOfCopy (of_copy pinned.now rows_in) result }
{
    let Some(copy) = pinned else {
        return Err(Refusal::NoMoment);
    };
    let found = rows(alloc, copy)?;
    Ok(Answer::Rows(copy.moment(), found))
}

/// Returns what keeps the object in the pinned copy. Fails with `NoMoment` if nothing is pinned.
fn pinned_holders(alloc: Global, pinned: &Option<Frozen>, koid: Koid) -> Result<Answer, Refusal>
    ensures { IsToldOfCopy (of_copy pinned.now (holders_in koid)) result }
{
    let Some(copy) = pinned else {
        return Err(Refusal::NoMoment);
    };
    let found = holders(alloc, copy, koid)?;
    Ok(Answer::Holders(koid, found))
}

/// Returns the leaked objects of the pinned copy. Fails with `NoMoment` if nothing is pinned.
fn pinned_leaks(alloc: Global, pinned: &Option<Frozen>) -> Result<Answer, Refusal>
    ensures { IsToldOfCopy (of_copy pinned.now leaks_in) result }
{
    let Some(copy) = pinned else {
        return Err(Refusal::NoMoment);
    };
    let found = leaks(alloc, copy)?;
    Ok(Answer::Leaks(copy.moment(), found))
}

/// Prints an answer or a refusal, and drops it.
fn printed(alloc: Global, said: Result<Answer, Refusal>) -> Result<Vec<u8>, AllocError>
    ensures { IfOk result (λ text. text.items ≡ shown said) }
{
    print(alloc, &said)
}

/// Prints an answer or a refusal.
fn print(alloc: Global, said: &Result<Answer, Refusal>) -> Result<Vec<u8>, AllocError>
    ensures { IfOk result (λ text. text.items ≡ shown said.now) }
{
    match said {
        Ok(answer) => print_answer(alloc, answer),
        Err(refusal) => print_refusal(alloc, *refusal),
    }
}
