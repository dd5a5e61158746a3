//! Finds the question of `look` that the words ask.

ghost use Rattle.std.specs.Prelude.{◌≡◌, ◌≤◌, IfSome, map};
ghost use Rattle.std.specs.List.{list_all, list_any};
ghost use Rattle.std.specs.Option.{option_map};
ghost use Rattle.std.specs.Result.{result_ok};
ghost use Rattle.std.specs.Str.{bytes_eq};
ghost use Rattle.zt_words.specs.Questions.{alive_question, all_happenings, between_question, calls_question, changed_question, find_question, first_of_calls, handle_of, handle_question, handle_word, happenings_of, has_option_of_calls, has_other_option, has_other_place, is_happening, is_named, is_of_branches, is_of_path, koid_word, last_of_calls, late_topic_named, moment_word, named_happenings, note_question, number_up_to, one_koid, one_word, other_topic_named, plain_question, question_of, question_on, question_there, topic_named, without_words};

use zt_look::{CallFilter, HappeningSet};
use zt_rows::{HandleValue, Koid, LAST_MOMENT, Moment};

/// The topic of a question.
#[derive(Clone, Copy, Debug, PartialEq, Eq)]
pub enum Topic {
    Calls,
    Changed,
    Events,
    Object,
    Handles,
    Messages,
    Branches,
    Summary,
    Alive,
    Handle,
    Lineage,
    Note,
    Find,
}

/// A question with its values.
#[derive(Clone, Copy)]
pub enum Question {
    /// Calls of the path, as the filter says.
    Calls(CallFilter),
    /// The rows that the call of a moment changed.
    Changed(Moment),
    /// The rows that differ between the states of two moments.
    ChangedBetween(Moment, Moment),
    /// The happenings to objects on the path, as the set says.
    Events(HappeningSet),
    /// An object at the end of the path.
    Object(Koid),
    /// The handles of a process at the end of the path.
    Handles(Koid),
    /// The messages that were queued at an endpoint.
    Messages(Koid),
    /// The branches of the tree.
    Branches,
    /// How the calls of the path were answered, and what became of the objects.
    Summary,
    /// What was made behind a moment of the path and is there at its end.
    Alive(Moment),
    /// The life of a handle of a process.
    Handle(Koid, HandleValue),
    /// The handles that named an object.
    Lineage(Koid),
    /// The note of a moment.
    Note(Moment),
    /// The calls of the path that have a text in their line or note. The text is in `Look`.
    Find,
}

/// The options that only some questions have.
#[derive(Clone, Copy)]
pub struct Options {
    /// Whether `--at` or `--branch` is given.
    pub placed: bool,
    /// Whether `--all` is given.
    pub all: bool,
    pub failed: bool,
    pub process: Option<Koid>,
    pub object: Option<Koid>,
    pub since: Option<Moment>,
}

/// Returns the question of this name, with the words after it and these options. Fails with the topic of this name if the words
/// or options do not fit it, and with `None` if no question has this name.
pub fn question_of(name: &str, words: &[&str], options: &Options) -> Result<Question, Option<Topic>>
    ensures { result_ok result ≡ question_of name.now (map (λ s. s.now) words.now) options.now }
{
    match topic_named(name) {
        Some(about) => match question_on(about, words, options) {
            Some(question) => Ok(question),
            None => Err(Some(about)),
        },
        None => Err(None),
    }
}

/// Returns the topic of the question with this name.
fn topic_named(name: &str) -> Option<Topic>
    ensures { result ≡ topic_named name.now }
{
    if name == "calls" {
        Some(Topic::Calls)
    } else if name == "changed" {
        Some(Topic::Changed)
    } else if name == "events" {
        Some(Topic::Events)
    } else if name == "object" {
        Some(Topic::Object)
    } else {
        other_topic_named(name)
    }
}

/// Returns the topic of the question with this name, among the others.
fn other_topic_named(name: &str) -> Option<Topic>
    ensures { result ≡ other_topic_named name.now }
{
    if name == "handles" {
        Some(Topic::Handles)
    } else if name == "messages" {
        Some(Topic::Messages)
    } else if name == "branches" {
        Some(Topic::Branches)
    } else if name == "summary" {
        Some(Topic::Summary)
    } else {
        late_topic_named(name)
    }
}

/// Returns the topic of the question with this name, among the last five.
fn late_topic_named(name: &str) -> Option<Topic>
    ensures { result ≡ late_topic_named name.now }
{
    if name == "alive" {
        Some(Topic::Alive)
    } else if name == "handle" {
        Some(Topic::Handle)
    } else if name == "lineage" {
        Some(Topic::Lineage)
    } else if name == "note" {
        Some(Topic::Note)
    } else if name == "find" {
        Some(Topic::Find)
    } else {
        None
    }
}

/// Returns the question about this topic. Returns `None` if a word or an option does not fit it.
fn question_on(about: Topic, words: &[&str], options: &Options) -> Option<Question>
    ensures { result ≡ question_on about (map (λ s. s.now) words.now) options.now }
{
    if has_other_place(about, options) {
        None
    } else {
        question_there(about, words, options)
    }
}

/// Returns the question about this topic if it can be asked where the options say.
fn question_there(about: Topic, words: &[&str], options: &Options) -> Option<Question>
    ensures { result ≡ question_there about (map (λ s. s.now) words.now) options.now }
{
    match about {
        Topic::Calls => calls_question(words, options),
        Topic::Alive => alive_question(words, options),
        _ if has_other_option(options) => None,
        _ => plain_question(about, words),
    }
}

/// Whether the options ask where questions about this topic cannot be asked.
fn has_other_place(about: Topic, options: &Options) -> bool
    ensures { result ≡ has_other_place about options.now }
{
    if options.all {
        options.placed || !is_of_branches(about)
    } else {
        options.placed && !is_of_path(about)
    }
}

/// Whether an option is given that only questions about calls or what is alive have.
fn has_other_option(options: &Options) -> bool
    ensures { result ≡ has_other_option options.now }
{
    has_option_of_calls(options) || options.since.is_some()
}

/// Whether an option is given that only questions about calls have.
fn has_option_of_calls(options: &Options) -> bool
    ensures { result ≡ has_option_of_calls options.now }
{
    options.failed || options.process.is_some() || options.object.is_some()
}

/// Whether questions about this topic are asked of a path.
fn is_of_path(about: Topic) -> bool
    ensures { result ≡ is_of_path about }
{
    match about {
        Topic::Changed | Topic::Branches | Topic::Note => false,
        _ => true,
    }
}

/// Whether questions about this topic can be asked of all branches.
fn is_of_branches(about: Topic) -> bool
    ensures { result ≡ is_of_branches about }
{
    match about {
        Topic::Calls | Topic::Events | Topic::Find => true,
        _ => false,
    }
}

/// Returns the question about this topic that these words ask without options.
fn plain_question(about: Topic, words: &[&str]) -> Option<Question>
    ensures { result ≡ plain_question about (map (λ s. s.now) words.now) }
{
    match about {
        Topic::Calls | Topic::Alive => None,
        Topic::Changed => changed_question(words),
        Topic::Events => Some(Question::Events(happenings_of(words)?)),
        Topic::Object => Some(Question::Object(one_koid(words)?)),
        Topic::Handles => Some(Question::Handles(one_koid(words)?)),
        Topic::Messages => Some(Question::Messages(one_koid(words)?)),
        Topic::Branches => without_words(words, Question::Branches),
        Topic::Summary => without_words(words, Question::Summary),
        Topic::Handle => handle_question(words),
        Topic::Lineage => Some(Question::Lineage(one_koid(words)?)),
        Topic::Note => note_question(words),
        Topic::Find => find_question(words),
    }
}

/// Returns the question if there are no words.
fn without_words(words: &[&str], asked: Question) -> Option<Question>
    ensures { result ≡ without_words (map (λ s. s.now) words.now) asked }
{
    if words.is_empty() { Some(asked) } else { None }
}

/// Returns the question about calls that the words and options ask.
fn calls_question(words: &[&str], options: &Options) -> Option<Question>
    ensures { result ≡ calls_question (map (λ s. s.now) words.now) options.now }
{
    if options.since.is_some() {
        return None;
    }
    let first = first_of_calls(words)?;
    let last = last_of_calls(words)?;
    Some(Question::Calls(CallFilter {
        first,
        last,
        failed: options.failed,
        process: options.process,
        object: options.object,
    }))
}

/// Returns the question about what is alive that the words and options ask. Without `--since` it is about all that a
/// call made.
fn alive_question(words: &[&str], options: &Options) -> Option<Question>
    ensures { result ≡ alive_question (map (λ s. s.now) words.now) options.now }
{
    if has_option_of_calls(options) {
        return None;
    }
    without_words(words, Question::Alive(options.since.unwrap_or(Moment(0))))
}

/// Returns the question about changed rows that one moment or two ask.
fn changed_question(words: &[&str]) -> Option<Question>
    ensures { result ≡ changed_question (map (λ s. s.now) words.now) }
{
    match words {
        [word] => Some(Question::Changed(moment_word(word)?)),
        [from, to] => between_question(from, to),
        _ => None,
    }
}

/// Returns the question about the rows that differ between two moments.
fn between_question(from: &str, to: &str) -> Option<Question>
    ensures { result ≡ between_question from.now to.now }
{
    let first = moment_word(from)?;
    let second = moment_word(to)?;
    Some(Question::ChangedBetween(first, second))
}

/// Returns the question about the handle that a process and a handle value name.
fn handle_question(words: &[&str]) -> Option<Question>
    ensures { result ≡ handle_question (map (λ s. s.now) words.now) }
{
    match words {
        [process, value] => handle_of(process, value),
        _ => None,
    }
}

/// Returns the question about the handle of this process with this value.
fn handle_of(process: &str, value: &str) -> Option<Question>
    ensures { result ≡ handle_of process.now value.now }
{
    let process = koid_word(process)?;
    let value = handle_word(value)?;
    Some(Question::Handle(process, value))
}

/// Returns the question about the note of the moment that the only word names.
fn note_question(words: &[&str]) -> Option<Question>
    ensures { result ≡ note_question (map (λ s. s.now) words.now) }
{
    Some(Question::Note(moment_word(one_word(words)?)?))
}

/// Returns the question which calls have a text, if the only word is a text of one byte or more.
fn find_question(words: &[&str]) -> Option<Question>
    ensures { result ≡ find_question (map (λ s. s.now) words.now) }
{
    let text = one_word(words)?;
    if text.is_empty() {
        None
    } else {
        Some(Question::Find)
    }
}

/// Returns the first moment of the calls: the first word, or 1 without words.
fn first_of_calls(words: &[&str]) -> Option<Moment>
    ensures { result ≡ first_of_calls (map (λ s. s.now) words.now) }
{
    match words {
        [] => Some(Moment(1)),
        [word, ..] => moment_word(word),
    }
}

/// Returns the last moment of the calls: the second word, or `LAST_MOMENT` without one.
fn last_of_calls(words: &[&str]) -> Option<Moment>
    ensures { result ≡ last_of_calls (map (λ s. s.now) words.now) }
{
    match words {
        [] | [_] => Some(Moment(LAST_MOMENT)),
        [_, word] => moment_word(word),
        _ => None,
    }
}

/// Returns the happenings that the words name, or all without words.
fn happenings_of(words: &[&str]) -> Option<HappeningSet>
    ensures { result ≡ happenings_of (map (λ s. s.now) words.now) }
{
    if words.is_empty() {
        Some(all_happenings())
    } else if are_happenings(words) {
        Some(named_happenings(words))
    } else {
        None
    }
}

/// Returns all happenings.
fn all_happenings() -> HappeningSet
    ensures { result ≡ all_happenings }
{
    HappeningSet {
        made: true,
        ended: true,
        peer_closed: true,
        leaked: true,
    }
}

/// Returns the happenings that the words name.
fn named_happenings(words: &[&str]) -> HappeningSet
    ensures { result ≡ named_happenings (map (λ s. s.now) words.now) }
{
    HappeningSet {
        made: is_named(words, "made"),
        ended: is_named(words, "ended"),
        peer_closed: is_named(words, "peer_closed"),
        leaked: is_named(words, "leaked"),
    }
}

/// Whether each word names a happening.
fn are_happenings(words: &[&str]) -> bool
    ensures { result ≡ list_all is_happening (map (λ s. s.now) words.now) }
{
    are_all_happenings(words)
}

/// Whether each word names a happening; this contract is about the borrowed words themselves.
fn are_all_happenings(words: &[&str]) -> bool
    ensures { result ≡ list_all (λ s. is_happening s.now) words.now }
{
    for word in words {
        if !is_happening(word) {
            return false;
        }
    }
    true
}

/// Whether the word names a happening.
fn is_happening(word: &str) -> bool
    ensures { result ≡ is_happening word.now }
{
    word == "made" || word == "ended" || word == "peer_closed" || word == "leaked"
}

/// Whether the name is among these words.
fn is_named(words: &[&str], name: &str) -> bool
    ensures { result ≡ is_named (map (λ s. s.now) words.now) name.now }
{
    is_among(words, name)
}

/// Whether the name is among these words; this contract is about the borrowed words themselves.
fn is_among(words: &[&str], name: &str) -> bool
    ensures { result ≡ list_any (λ s. bytes_eq s.now name.now) words.now }
{
    for word in words {
        if *word == name {
            return true;
        }
    }
    false
}

/// Reads the only word as a koid.
fn one_koid(words: &[&str]) -> Option<Koid>
    ensures { result ≡ one_koid (map (λ s. s.now) words.now) }
{
    koid_word(one_word(words)?)
}

/// Returns the only word; `None` if there are none or more.
fn one_word<'a>(words: &[&'a str]) -> Option<&'a str>
    ensures { option_map (λ s. s.now) result ≡ one_word (map (λ s. s.now) words.now) }
{
    match words {
        [word] => Some(*word),
        _ => None,
    }
}

/// Reads a word as a moment of at most `LAST_MOMENT`.
fn moment_word(word: &str) -> Option<Moment>
    ensures { result ≡ moment_word word.now }
{
    match number_up_to(LAST_MOMENT as u64, word) {
        Some(number) => Some(Moment(number as u32)),
        None => None,
    }
}

/// Reads a word as a koid.
fn koid_word(word: &str) -> Option<Koid>
    ensures { result ≡ koid_word word.now }
{
    match number_up_to(u64::MAX, word) {
        Some(number) => Some(Koid(number)),
        None => None,
    }
}

/// Reads a word as a handle value.
fn handle_word(word: &str) -> Option<HandleValue>
    ensures { result ≡ handle_word word.now }
{
    match number_up_to(u32::MAX as u64, word) {
        Some(number) => Some(HandleValue(number as u32)),
        None => None,
    }
}

/// Reads a word as a number of at most `most`.
fn number_up_to(most: u64, word: &str) -> Option<u64>
    ensures number { result ≡ number_up_to most word.now }
    ensures within { IfSome result (λ n. n ≤ most) }
{
    match word.parse::<u64>() {
        Ok(number) if number <= most => Some(number),
        _ => None,
    }
}
