//! Reads what requests ask for.

ghost use Rattle.std.specs.Prelude.{◌≡◌, option_copied};
ghost use Rattle.zt_view.specs.Requests.{asked_at, asked_by, calls_asked, change_asked, events_asked, handle_asked, is_few, lineage_asked, method_lack, method_of, named, object_asked, of_numbers, part_asked, path_asked, wish};

use crate::cuts::{cut, handle, is, koid, moment};
use crate::lacks::{Lack, lack_of};
use crate::page::Part;
use crate::query::{calls_wanted, happenings_wanted};
use crate::question::ViewQuestion;
use zt_look::{CallFilter, EventFilter};
use zt_rows::Moment;

/// A request may ask for the calls or events of at most this many moments, so that it does not keep others waiting for long.
const MOST_MOMENTS: u64 = 16_384;

/// What a request asks for.
#[derive(Clone, Copy)]
pub enum ViewRequest {
    /// A part of the page.
    Page(Part),
    /// The answers to the lines of its body.
    Lines,
    /// The name of the trace that the history began with.
    Trace,
    /// Whether that trace has notes or names.
    Noted,
    /// The session text of the whole tree.
    Tree,
    /// The answer to a question about the history.
    Answer(ViewQuestion),
    /// The end of the server.
    End,
}

/// A part of the path to the moment `at`: from one moment to another, which need not be on the path.
#[derive(Clone, Copy)]
pub struct PathPart {
    pub at: Moment,
    pub first: Moment,
    pub last: Moment,
}

/// Returns what a request of this method, path and query asks for, or why it asks for nothing.
pub fn wish(method: &str, path: &str, query: Option<&str>) -> Result<ViewRequest, Lack>
    ensures { result ≡ wish method.now path.now (option_copied query.entry) }
{
    let words = match query {
        Some(query) => query.as_bytes(),
        None => b"".as_slice(),
    };
    let asked = asked_at(path.as_bytes(), words)?;
    if method == method_of(&asked) {
        Ok(asked)
    } else {
        Err(method_lack(&asked))
    }
}

/// Returns the method with which this must be asked for.
fn method_of(asked: &ViewRequest) -> &'static str
    ensures { result.now ≡ method_of asked.now }
{
    match asked {
        ViewRequest::Lines | ViewRequest::End => "POST",
        ViewRequest::Page(_)
        | ViewRequest::Trace
        | ViewRequest::Noted
        | ViewRequest::Tree
        | ViewRequest::Answer(_) => "GET",
    }
}

/// Returns why another method is wrong.
fn method_lack(asked: &ViewRequest) -> Lack
    ensures { result ≡ method_lack asked.now }
{
    match asked {
        ViewRequest::Lines | ViewRequest::End => Lack::AskedByPost,
        ViewRequest::Page(_)
        | ViewRequest::Trace
        | ViewRequest::Noted
        | ViewRequest::Tree
        | ViewRequest::Answer(_) => Lack::AskedByGet,
    }
}

/// Returns what a path with a query asks for. The path must begin with `/`.
#[tactic(auto, unfolding(crate::specs::Requests::asked_at))]
fn asked_at(path: &[u8], query: &[u8]) -> Result<ViewRequest, Lack>
    ensures { result ≡ asked_at path.now query.now }
{
    let (before, rest) = cut(path, b'/');
    if !is(before, "") {
        return Err(Lack::NoPath);
    }
    match rest {
        Some(rest) => asked_by(rest, query),
        None => Err(Lack::NoPath),
    }
}

/// Returns what a path without its first `/`, with a query, asks for.
#[tactic(auto, unfolding(crate::specs::Requests::asked_by))]
fn asked_by(path: &[u8], query: &[u8]) -> Result<ViewRequest, Lack>
    ensures { result ≡ asked_by path.now query.now }
{
    let (word, numbers) = cut(path, b'/');
    let asked = match numbers {
        None => named(word),
        Some(numbers) => of_numbers(word, numbers, query),
    };
    match asked {
        Some(asked) => Ok(asked),
        None => Err(lack_of(word)),
    }
}

/// Returns what a path of one word asks for.
#[tactic(auto, unfolding(crate::specs::Requests::named))]
fn named(word: &[u8]) -> Option<ViewRequest>
    ensures { result ≡ named word.now }
{
    if is(word, "") {
        Some(ViewRequest::Page(Part::Index))
    } else if is(word, "style.css") {
        Some(ViewRequest::Page(Part::Style))
    } else if is(word, "script.js") {
        Some(ViewRequest::Page(Part::Script))
    } else if is(word, "lines") {
        Some(ViewRequest::Lines)
    } else if is(word, "trace") {
        Some(ViewRequest::Trace)
    } else if is(word, "noted") {
        Some(ViewRequest::Noted)
    } else if is(word, "tree") {
        Some(ViewRequest::Tree)
    } else if is(word, "branches") {
        Some(ViewRequest::Answer(ViewQuestion::Branches))
    } else if is(word, "end") {
        Some(ViewRequest::End)
    } else {
        None
    }
}

/// Returns what a word with numbers after it asks for.
#[tactic(auto, unfolding(crate::specs::Requests::of_numbers))]
fn of_numbers(word: &[u8], numbers: &[u8], query: &[u8]) -> Option<ViewRequest>
    ensures { result ≡ of_numbers word.now numbers.now query.now }
{
    if is(word, "change") {
        change_asked(numbers)
    } else if is(word, "events") {
        events_asked(numbers, query)
    } else if is(word, "object") {
        object_asked(numbers)
    } else if is(word, "handle") {
        handle_asked(numbers)
    } else if is(word, "lineage") {
        lineage_asked(numbers)
    } else if is(word, "calls") {
        calls_asked(numbers, query)
    } else if is(word, "path") {
        path_asked(numbers)
    } else {
        None
    }
}

/// Reads `MOMENT`: what its call changed.
#[tactic(auto, unfolding(crate::specs::Requests::change_asked))]
fn change_asked(numbers: &[u8]) -> Option<ViewRequest>
    ensures { result ≡ change_asked numbers.now }
{
    let moment = moment(numbers)?;
    Some(ViewRequest::Answer(ViewQuestion::Change(moment)))
}

/// Reads `AT/FROM/TO` and the query: events on a part of a path.
#[tactic(auto, unfolding(crate::specs::Requests::events_asked))]
fn events_asked(numbers: &[u8], query: &[u8]) -> Option<ViewRequest>
    ensures { result ≡ events_asked numbers.now query.now }
{
    let part = part_asked(numbers)?;
    let happenings = happenings_wanted(query)?;
    let wanted = EventFilter {
        first: part.first,
        last: part.last,
        happenings,
    };
    Some(ViewRequest::Answer(ViewQuestion::Events(part.at, wanted)))
}

/// Reads `KOID/AT`: an object at a moment.
#[tactic(auto, unfolding(crate::specs::Requests::object_asked))]
fn object_asked(numbers: &[u8]) -> Option<ViewRequest>
    ensures { result ≡ object_asked numbers.now }
{
    let (first, rest) = cut(numbers, b'/');
    let koid = koid(first)?;
    let at = moment(rest?)?;
    Some(ViewRequest::Answer(ViewQuestion::Object(koid, at)))
}

/// Reads `PROCESS/VALUE/AT`: the life of a handle on the path to a moment.
#[tactic(auto, unfolding(crate::specs::Requests::handle_asked))]
fn handle_asked(numbers: &[u8]) -> Option<ViewRequest>
    ensures { result ≡ handle_asked numbers.now }
{
    let (first, rest) = cut(numbers, b'/');
    let process = koid(first)?;
    let (second, end) = cut(rest?, b'/');
    let value = handle(second)?;
    let at = moment(end?)?;
    Some(ViewRequest::Answer(ViewQuestion::Handle(process, value, at)))
}

/// Reads `KOID/AT`: the handles of an object on the path to a moment.
#[tactic(auto, unfolding(crate::specs::Requests::lineage_asked))]
fn lineage_asked(numbers: &[u8]) -> Option<ViewRequest>
    ensures { result ≡ lineage_asked numbers.now }
{
    let (first, rest) = cut(numbers, b'/');
    let koid = koid(first)?;
    let at = moment(rest?)?;
    Some(ViewRequest::Answer(ViewQuestion::Lineage(koid, at)))
}

/// Reads `AT/FROM`: the path to a moment, from another moment on.
#[tactic(auto, unfolding(crate::specs::Requests::path_asked))]
fn path_asked(numbers: &[u8]) -> Option<ViewRequest>
    ensures { result ≡ path_asked numbers.now }
{
    let (end, rest) = cut(numbers, b'/');
    let at = moment(end)?;
    let from = moment(rest?)?;
    Some(ViewRequest::Answer(ViewQuestion::Path(at, from)))
}

/// Reads `AT/FROM/TO` and the query: calls on a part of a path.
#[tactic(auto, unfolding(crate::specs::Requests::calls_asked))]
fn calls_asked(numbers: &[u8], query: &[u8]) -> Option<ViewRequest>
    ensures { result ≡ calls_asked numbers.now query.now }
{
    let part = part_asked(numbers)?;
    let all = CallFilter {
        first: part.first,
        last: part.last,
        failed: false,
        process: None,
        object: None,
    };
    let wanted = calls_wanted(all, query)?;
    Some(ViewRequest::Answer(ViewQuestion::Calls(part.at, wanted)))
}

/// Reads `AT/FROM/TO`: a part of the path to a moment. Returns `None` if it has more moments than a request may ask for.
#[tactic(auto, unfolding(crate::specs::Requests::part_asked))]
fn part_asked(numbers: &[u8]) -> Option<PathPart>
    ensures { result ≡ part_asked numbers.now }
{
    let (end, range) = cut(numbers, b'/');
    let at = moment(end)?;
    let (from, to) = cut(range?, b'/');
    let first = moment(from)?;
    let last = moment(to?)?;
    if is_few(first, last) {
        Some(PathPart { at, first, last })
    } else {
        None
    }
}

/// Whether one request may ask for all moments from the first to the last.
fn is_few(first: Moment, last: Moment) -> bool
    ensures { result ≡ is_few first last }
{
    u64::from(last.0) < u64::from(first.0) + MOST_MOMENTS
}
