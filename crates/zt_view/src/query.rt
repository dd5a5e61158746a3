//! Reads the words of a query.

ghost use Rattle.std.specs.Prelude.{◌≡◌};
ghost use Rattle.zt_text.specs.Fields.{parts_of};
ghost use Rattle.zt_view.specs.Requests.{calls_wanted, each_happening, happenings_by, happenings_wanted, happenings_with, wanted_by, wanted_if, wanted_of, wanted_with};

use crate::cuts::{cut, is, koid};
use zt_look::{CallFilter, HappeningSet};
use zt_rows::Koid;

/// Returns the filter with what the words of a query ask for. Returns `None` if a word is unknown.
pub fn calls_wanted(all: CallFilter, query: &[u8]) -> Option<CallFilter>
    ensures { result ≡ calls_wanted all query.now }
{
    if query.is_empty() {
        Some(all)
    } else {
        wanted_by(all, query)
    }
}

/// Returns the filter with what the words of a text ask for; there is at least one word.
#[tactic(auto, using(crate::proofs::CutLaws::words_alone, crate::proofs::CutLaws::words_more, crate::proofs::QueryLaws::none_wanted))]
fn wanted_by(wanted: CallFilter, words: &[u8]) -> Option<CallFilter>
    ensures { result ≡ wanted_by wanted (parts_of 38 words.now) }
{
    let (word, others) = cut(words, b'&');
    let next = wanted_with(wanted, word)?;
    match others {
        None => Some(next),
        Some(others) => wanted_by(next, others),
    }
}

/// Returns the filter with what one more word asks for.
#[tactic(auto, unfolding(crate::specs::Requests::wanted_with))]
fn wanted_with(wanted: CallFilter, word: &[u8]) -> Option<CallFilter>
    ensures { result ≡ wanted_with wanted word.now }
{
    let (name, value) = cut(word, b'=');
    match value {
        None => {
            if is(name, "failed") {
                Some(CallFilter {
                    failed: true,
                    ..wanted
                })
            } else {
                None
            }
        }
        Some(value) => {
            let koid = koid(value)?;
            wanted_of(wanted, name, koid)
        }
    }
}

/// Returns the filter for calls that a process made, or that are about an object.
#[tactic(auto, unfolding(crate::specs::Requests::wanted_of))]
fn wanted_of(wanted: CallFilter, name: &[u8], koid: Koid) -> Option<CallFilter>
    ensures { result ≡ wanted_of wanted name.now koid }
{
    if is(name, "process") {
        Some(CallFilter {
            process: Some(koid),
            ..wanted
        })
    } else if is(name, "object") {
        Some(CallFilter {
            object: Some(koid),
            ..wanted
        })
    } else {
        None
    }
}

/// Returns the happenings that the words of a query ask for, or all if there are no words. Returns `None` if a word is unknown.
pub fn happenings_wanted(query: &[u8]) -> Option<HappeningSet>
    ensures { result ≡ happenings_wanted query.now }
{
    if query.is_empty() {
        Some(each_happening(true))
    } else {
        happenings_by(each_happening(false), query)
    }
}

/// Returns all happenings, or none.
fn each_happening(is: bool) -> HappeningSet
    ensures { result ≡ each_happening is }
{
    HappeningSet {
        made: is,
        ended: is,
        peer_closed: is,
        leaked: is,
    }
}

/// Returns these happenings with those that the words of a text name; there is at least one word.
#[tactic(auto, using(crate::proofs::CutLaws::words_alone, crate::proofs::CutLaws::words_more, crate::proofs::QueryLaws::none_named))]
fn happenings_by(wanted: HappeningSet, words: &[u8]) -> Option<HappeningSet>
    ensures { result ≡ happenings_by wanted (parts_of 38 words.now) }
{
    let (word, others) = cut(words, b'&');
    let next = happenings_with(wanted, word)?;
    match others {
        None => Some(next),
        Some(others) => happenings_by(next, others),
    }
}

/// Returns these happenings with the one that the word names.
#[tactic(auto, unfolding(crate::specs::Requests::happenings_with))]
fn happenings_with(wanted: HappeningSet, word: &[u8]) -> Option<HappeningSet>
    ensures { result ≡ happenings_with wanted word.now }
{
    if is(word, "made") {
        Some(HappeningSet {
            made: true,
            ..wanted
        })
    } else if is(word, "ended") {
        Some(HappeningSet {
            ended: true,
            ..wanted
        })
    } else if is(word, "peer_closed") {
        Some(HappeningSet {
            peer_closed: true,
            ..wanted
        })
    } else if is(word, "leaked") {
        Some(HappeningSet {
            leaked: true,
            ..wanted
        })
    } else {
        None
    }
}
