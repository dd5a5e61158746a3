//! Gives numbers to the processes that a log has by names.

ghost use Rattle.std.specs.Prelude.{◌≡◌, OnOk, map};
ghost use Rattle.zt_logs.specs.ProofsOnly.ReadLines.{without_process};

use crate::json_values::JsonValue;
use crate::line_members::LineMembers;
use crate::logged::{CallLog, LoggedCall};
use crate::numbers::{number_of, written};
use crate::rare_members::RareMember;
use crate::shown_texts::put_shown;
use crate::skipped::SkippedCall;
use std::alloc::{AllocError, Global};
use std::collections::HashMap;

/// The most bytes of a name.
const NAME_BYTES: usize = 64;

/// The processes that a log has by names. A number that no other process of the log has stands for each.
#[derive(Drop)]
pub struct ProcessNames {
    shown: HashMap<u64, String>,
    /// No name has a number below this one.
    lowest: u64,
    /// The names that lines tell of their processes.
    told: HashMap<u64, String>,
}

impl ProcessNames {
    pub(crate) fn new(alloc: Global) -> ProcessNames {
        ProcessNames {
            shown: HashMap::new(alloc),
            lowest: u64::MAX,
            told: HashMap::new(alloc),
        }
    }

    /// The name of the process with this number, if the log has it by a name. A `?` stands for each byte that is not
    /// printable.
    pub fn shown(&self, process: u64) -> Option<&str> {
        if process < self.lowest {
            return None;
        }
        match self.shown.get(&process) {
            Some(name) => Some(name.as_str()),
            None => None,
        }
    }

    /// The name that the last line with one tells of this process. It has 1 to 64 bytes, with `?` for each control
    /// character.
    pub fn told(&self, process: u64) -> Option<&str> {
        match self.told.get(&process) {
            Some(name) => Some(name.as_str()),
            None => None,
        }
    }
}

/// The name that a line with these members tells of its process.
#[inline(always)]
pub(crate) fn told_name<'a>(line: &LineMembers<'_, 'a>) -> Option<&'a str> {
    rare_text(line, RareMember::Name).or_else(|| rare_text(line, RareMember::ProcessName))
}

/// The text of a rare member. None if it is empty or no text.
#[inline(always)]
fn rare_text<'a>(line: &LineMembers<'_, 'a>, member: RareMember) -> Option<&'a str> {
    let text = line.rare(member)?.as_str()?;
    if text.is_empty() { None } else { Some(text) }
}

/// A process, as a line has it.
#[derive(Clone, Copy)]
pub(crate) enum ProcessWord<'a> {
    Number(u64),
    Name(&'a str),
}

/// The process that a value is: a number, a text of one, or a name of 1 to 64 bytes.
pub(crate) fn process_in<'a>(value: &JsonValue<'_, 'a>) -> Option<ProcessWord<'a>> {
    match value.as_number() {
        Some(digits) => Some(ProcessWord::Number(written(digits.as_bytes(), 10)?)),
        None => process_of(value.as_str()?),
    }
}

fn process_of(text: &str) -> Option<ProcessWord<'_>> {
    if let Some(number) = number_of(text) {
        return Some(ProcessWord::Number(number));
    }
    if text.is_empty() || text.len() > NAME_BYTES {
        return None;
    }
    Some(ProcessWord::Name(text))
}

/// A place at which a log names a process.
#[derive(Clone, Copy)]
pub(crate) enum NamedPlace {
    /// It makes the call at this place.
    Caller(usize),
    /// The call at this place made it.
    Made(usize),
    /// It makes the skipped call at this place.
    Skipped(usize),
}

/// A place where the log has a process by a name.
#[derive(Clone, Copy)]
struct NameUse {
    place: NamedPlace,
    name: usize,
}

/// The numbers of names go down from the largest number of 64 bits, past those that are taken. No log has so many names and
/// processes that they come to this one.
const LOWEST_TAKEN: u64 = u64::MAX - (1 << 40);

/// The names of processes that were read so far.
#[derive(Drop)]
pub(crate) struct Naming {
    places: HashMap<String, usize>,
    shown: Vec<String>,
    uses: Vec<NameUse>,
    /// The numbers of processes from `LOWEST_TAKEN` up. No name gets one of them.
    taken: HashMap<u64, ()>,
    /// The names that lines tell of processes that they have by numbers.
    numbered: HashMap<u64, String>,
    /// The names that lines tell of processes that they have by names, by the places of these names.
    named: HashMap<u64, String>,
}

impl Naming {
    pub(crate) fn new(alloc: Global) -> Naming {
        Naming {
            places: HashMap::new(alloc),
            shown: Vec::new(alloc),
            uses: Vec::new(alloc),
            taken: HashMap::new(alloc),
            numbered: HashMap::new(alloc),
            named: HashMap::new(alloc),
        }
    }

    /// Keeps the name that a line tells of its process. The error is an allocation failure.
    pub(crate) fn tell(&mut self, process: ProcessWord<'_>, name: &str) -> Result<(), AllocError> {
        let alloc = *self.shown.allocator();
        match process {
            ProcessWord::Number(number) => keep_told(alloc, &mut self.numbered, number, name),
            ProcessWord::Name(word) => {
                let place = self.place(word)?;
                keep_told(alloc, &mut self.named, place as u64, name)
            }
        }
    }

    /// The number of the process at this place. It is 0 for a name, until `finish` sets the number. The error is an
    /// allocation failure.
    pub(crate) fn number(
        &mut self,
        place: NamedPlace,
        process: ProcessWord<'_>,
    ) -> Result<u64, AllocError> {
        match process {
            ProcessWord::Number(number) => {
                if number >= LOWEST_TAKEN {
                    take_number(&mut self.taken, number)?;
                }
                Ok(number)
            }
            ProcessWord::Name(name) => {
                let name = self.place(name)?;
                push_use(&mut self.uses, NameUse { place, name })?;
                Ok(0)
            }
        }
    }

    /// The place of a name in the list of names. A new name is appended.
    fn place(&mut self, name: &str) -> Result<usize, AllocError> {
        if let Some(place) = self.places.get(name) {
            return Ok(*place);
        }
        let alloc = *self.shown.allocator();
        let place = self.shown.len();
        push_text(&mut self.shown, shown_name(alloc, name)?)?;
        match self.places.insert(String::from_str(alloc, name)?, place) {
            Ok(_) => Ok(place),
            Err(_) => Err(AllocError),
        }
    }

    /// Gives each name its number, and sets it in the calls and in the skipped calls.
    pub(crate) fn finish(self, alloc: Global, log: &mut CallLog) -> Result<ProcessNames, AllocError>
        ensures calls { OnOk result (map without_process log.new.calls.items ≡ map without_process log.old.calls.items) }
        ensures lines { log.new.lines ≡ log.old.lines }
    {
        let mut names = ProcessNames::new(alloc);
        names.told = self.numbered;
        if self.uses.is_empty() {
            return Ok(names);
        }
        let numbers = free_numbers(alloc, &self.taken, self.shown.len())?;
        for used in self.uses.as_slice() {
            if let Some(number) = numbers.get(used.name) {
                set_number(log, used.place, *number);
            }
        }
        tell_named(&mut names, &self.named, numbers.as_slice())?;
        for (number, shown) in numbers.as_slice().iter().zip(self.shown) {
            put_name(&mut names, *number, shown)?;
        }
        Ok(names)
    }
}

/// Keeps the name that a line tells of a process, as it is shown.
fn keep_told(
    alloc: Global,
    told: &mut HashMap<u64, String>,
    process: u64,
    name: &str,
) -> Result<(), AllocError> {
    if let Some(last) = told.get(&process) {
        if last.as_str() == name {
            return Ok(());
        }
    }
    let mut shown = String::new(alloc);
    put_shown(&mut shown, name, NAME_BYTES, "?")?;
    match told.insert(process, shown) {
        Ok(_) => Ok(()),
        Err(_) => Err(AllocError),
    }
}

/// Keeps the names that lines tell of processes by names, each of which has the number at its place.
fn tell_named(
    names: &mut ProcessNames,
    named: &HashMap<u64, String>,
    numbers: &[u64],
) -> Result<(), AllocError> {
    for place in 0..numbers.len() {
        if let Some(name) = named.get(&(place as u64)) {
            let copy = String::from_str(*name.allocator(), name.as_str())?;
            put_told(&mut names.told, numbers[place], copy)?;
        }
    }
    Ok(())
}

fn put_told(told: &mut HashMap<u64, String>, process: u64, name: String) -> Result<(), AllocError> {
    match told.insert(process, name) {
        Ok(_) => Ok(()),
        Err(_) => Err(AllocError),
    }
}

fn put_name(names: &mut ProcessNames, number: u64, shown: String) -> Result<(), AllocError> {
    names.lowest = names.lowest.min(number);
    match names.shown.insert(number, shown) {
        Ok(_) => Ok(()),
        Err(_) => Err(AllocError),
    }
}

/// `count` numbers that are not taken, from the largest number of 64 bits down.
fn free_numbers(
    alloc: Global,
    taken: &HashMap<u64, ()>,
    count: usize,
) -> Result<Vec<u64>, AllocError> {
    let mut numbers = Vec::new(alloc);
    let mut next = u64::MAX;
    for _ in 0..count {
        next = last_free(taken, next);
        push_number(&mut numbers, next)?;
        next = next.saturating_sub(1);
    }
    Ok(numbers)
}

/// The largest number up to `most` that is not taken.
fn last_free(taken: &HashMap<u64, ()>, most: u64) -> u64 {
    let mut number = most;
    while number > 0 && taken.contains_key(&number) {
        number -= 1;
    }
    number
}

fn take_number(taken: &mut HashMap<u64, ()>, number: u64) -> Result<(), AllocError> {
    match taken.insert(number, ()) {
        Ok(_) => Ok(()),
        Err(_) => Err(AllocError),
    }
}

/// Sets the number of the process at this place.
fn set_number(log: &mut CallLog, place: NamedPlace, number: u64)
    ensures calls { map without_process log.new.calls.items ≡ map without_process log.old.calls.items }
    ensures lines { log.new.lines ≡ log.old.lines }
{
    match place {
        NamedPlace::Caller(call) => set_caller(&mut log.calls, call, number),
        NamedPlace::Made(call) => set_made(&mut log.calls, call, number),
        NamedPlace::Skipped(call) => set_skipped(&mut log.skipped, call, number),
    }
}

fn set_caller(calls: &mut Vec<LoggedCall>, call: usize, number: u64)
    ensures { map without_process calls.new.items ≡ map without_process calls.old.items }
{
    if let Some(logged) = calls.get_mut(call) {
        logged.process = number;
    }
}

fn set_made(calls: &mut Vec<LoggedCall>, call: usize, number: u64)
    ensures { map without_process calls.new.items ≡ map without_process calls.old.items }
{
    if let Some(logged) = calls.get_mut(call) {
        logged.recorded.process = Some(number);
    }
}

fn set_skipped(skipped: &mut Vec<SkippedCall>, call: usize, number: u64) {
    if let Some(call) = skipped.get_mut(call) {
        call.process = Some(number);
    }
}

fn push_use(uses: &mut Vec<NameUse>, used: NameUse) -> Result<(), AllocError> {
    match uses.push(used) {
        Ok(()) => Ok(()),
        Err(_) => Err(AllocError),
    }
}

fn push_text(texts: &mut Vec<String>, text: String) -> Result<(), AllocError> {
    match texts.push(text) {
        Ok(()) => Ok(()),
        Err(_) => Err(AllocError),
    }
}

fn push_number(numbers: &mut Vec<u64>, number: u64) -> Result<(), AllocError> {
    match numbers.push(number) {
        Ok(()) => Ok(()),
        Err(_) => Err(AllocError),
    }
}

/// A text of at most 64 bytes with `?` for each byte that is not printable. A longer text is cut after 64 bytes, and `..`
/// follows.
pub(crate) fn shown_name(alloc: Global, name: &str) -> Result<String, AllocError> {
    let mut shown = String::new(alloc);
    for byte in name.bytes() {
        if shown.len() >= NAME_BYTES {
            shown.push_str("..")?;
            return Ok(shown);
        }
        shown.push(shown_byte(byte))?;
    }
    Ok(shown)
}

fn shown_byte(byte: u8) -> char {
    if matches!(byte, b' '..=b'~') {
        char::from(byte)
    } else {
        '?'
    }
}
