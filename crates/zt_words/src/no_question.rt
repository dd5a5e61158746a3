//! Explains words that ask `look` no question.

use crate::question::Topic;
use std::fmt;
use std::fmt::{Formatter, Write};

/// Why the words after `look` ask no question.
#[derive(Debug, Drop)]
pub enum NoQuestion {
    /// No question has this name; the value is a similar name, if there is one.
    Unnamed(Option<&'static str>),
    /// The name is a word of `run`; the value is a question that asks something similar.
    OfRun(&'static str),
    /// The question about this topic lacks its word.
    Lacks(Topic),
    /// The question about this topic is asked with other words.
    Otherwise(Topic),
}

impl NoQuestion {
    /// Finds why this name, with the words after it, asks no question. `about` is the topic of the question with this name.
    pub fn of(about: Option<Topic>, name: &str, words: &[&str]) -> NoQuestion {
        match about {
            Some(about) if words.is_empty() && word_of(about).is_some() => NoQuestion::Lacks(about),
            Some(about) => NoQuestion::Otherwise(about),
            None => match question_like(name) {
                Some(question) => NoQuestion::OfRun(question),
                None => NoQuestion::Unnamed(nearest(name)),
            },
        }
    }
}

impl fmt::Display for NoQuestion {
    fn fmt<W: Write>(&self, f: &mut Formatter<W>) -> fmt::Result {
        f.write_str("error: ")?;
        match self {
            NoQuestion::Unnamed(near) => write_unnamed(f, *near)?,
            NoQuestion::OfRun(question) => {
                write_unnamed(f, None)?;
                f.write_str(of_run())?;
                f.write_str(question)?;
                f.write_str("` here")?;
            }
            NoQuestion::Lacks(about) => {
                f.write_str("the question needs the argument ")?;
                f.write_str(word_of(*about).unwrap_or(""))?;
                write_form(f, *about)?;
            }
            NoQuestion::Otherwise(about) => {
                f.write_str("the question does not take these arguments or options")?;
                write_form(f, *about)?;
            }
        }
        f.write_str("\n\nFor more information, try '--help'.\n")
    }
}

/// Writes that no question has this name, and a similar name.
fn write_unnamed<W: Write>(f: &mut Formatter<W>, near: Option<&str>) -> fmt::Result {
    f.write_str(known_questions())?;
    match near {
        Some(question) => {
            f.write_str("\n\n  tip: a similar question exists: '")?;
            f.write_str(question)?;
            f.write_str("'")
        }
        None => Ok(()),
    }
}

/// Writes how a question is asked.
fn write_form<W: Write>(f: &mut Formatter<W>, about: Topic) -> fmt::Result {
    f.write_str("\n\nUsage: zxtt look <TRACE> ")?;
    f.write_str(form_of(about))
}

/// Returns the word that must come after the name of a question.
fn word_of(about: Topic) -> Option<&'static str> {
    match about {
        Topic::Changed | Topic::Note => Some("<MOMENT>"),
        Topic::Object | Topic::Messages | Topic::Lineage => Some("<KOID>"),
        Topic::Handles | Topic::Handle => Some("<PROCESS>"),
        Topic::Find => Some("<TEXT>"),
        _ => None,
    }
}

/// Returns the question that is similar to this word of `run`, or to the word after `when`.
fn question_like(name: &str) -> Option<&'static str> {
    match name {
        "when" | "made" | "ended" | "peer_closed" | "leaked" | "leaks" => Some("events"),
        "holders" | "show" => Some("object"),
        _ => None,
    }
}

/// Returns the name of the most similar question, if one is similar.
fn nearest(name: &str) -> Option<&'static str> {
    let mut found = None;
    let mut best = 0;
    for question in questions() {
        let alike = likeness(name.as_bytes(), question.as_bytes());
        if alike > best {
            best = alike;
            found = Some(question);
        }
    }
    found
}

/// Returns the names of all questions.
fn questions() -> [&'static str; 13] {
    [
        "calls", "changed", "events", "object", "handles", "messages", "branches", "summary",
        "alive", "handle", "lineage", "note", "find",
    ]
}

/// Returns how many bytes two names have in common at their beginning and end. Returns 0 if more than two bytes of the longer
/// name are left, unless `name` has three bytes or more and `other` begins with it.
fn likeness(name: &[u8], other: &[u8]) -> usize {
    let first = first_in_common(name, other);
    let last = last_in_common(name, other);
    let both = first.saturating_add(last);
    if both.saturating_add(2) >= name.len().max(other.len()) || (first > 2 && first == name.len()) {
        both
    } else {
        0
    }
}

/// Returns how many bytes two names have in common at their beginning.
fn first_in_common(name: &[u8], other: &[u8]) -> usize {
    let mut count = 0usize;
    for (byte, its) in name.iter().zip(other.iter()) {
        if *byte != *its {
            return count;
        }
        count = count.saturating_add(1);
    }
    count
}

/// Returns how many bytes two names have in common at their end.
fn last_in_common(name: &[u8], other: &[u8]) -> usize {
    let mut count = 0usize;
    for (byte, its) in name.iter().rev().zip(other.iter().rev()) {
        if *byte != *its {
            return count;
        }
        count = count.saturating_add(1);
    }
    count
}

// The contracts do not say which texts these functions return, so proofs of their callers need not go over the bytes.

/// The list of all questions.
fn known_questions() -> &'static str {
    "unknown question
  [questions: calls, changed, events, object, handles, messages, branches, summary, alive, handle, lineage, note, find]"
}

/// What is said about a word of `run`, up to the name of the similar question.
fn of_run() -> &'static str {
    "\n\n  tip: this word belongs to `zxtt run`; ask `"
}

/// Returns how a question is asked.
fn form_of(about: Topic) -> &'static str {
    match about {
        Topic::Calls => calls_form(),
        Topic::Changed => "[--names] [--notes] changed <MOMENT> [OTHER]",
        Topic::Branches => "[--names] [--notes] branches",
        Topic::Note => "note <MOMENT>",
        _ => form_on_path(about),
    }
}

/// Returns how the question about calls is asked.
fn calls_form() -> &'static str {
    "[--at <MOMENT> | --branch <NAME> | --all] [--names] [--notes] calls [FROM [TO]] [--failed] [--process <P>] [--object <K>]"
}

/// Returns how the other questions about a path are asked.
fn form_on_path(about: Topic) -> &'static str {
    match about {
        Topic::Events => {
            "[--at <MOMENT> | --branch <NAME> | --all] [--names] [--notes] events [made] [ended] [peer_closed] [leaked]"
        }
        Topic::Object => "[--at <MOMENT> | --branch <NAME>] [--names] [--notes] object <KOID>",
        Topic::Handles => "[--at <MOMENT> | --branch <NAME>] [--names] [--notes] handles <PROCESS>",
        Topic::Messages => "[--at <MOMENT> | --branch <NAME>] [--names] [--notes] messages <KOID>",
        Topic::Alive => "[--at <MOMENT> | --branch <NAME>] [--names] [--notes] alive [--since <M>]",
        Topic::Handle =>
            "[--at <MOMENT> | --branch <NAME>] [--names] [--notes] handle <PROCESS> <VALUE>",
        Topic::Lineage => "[--at <MOMENT> | --branch <NAME>] [--names] [--notes] lineage <KOID>",
        Topic::Find => "[--at <MOMENT> | --branch <NAME> | --all] [--names] [--notes] find <TEXT>",
        _ => "[--at <MOMENT> | --branch <NAME>] [--names] [--notes] summary",
    }
}
