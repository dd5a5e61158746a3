//! Finds the members of a line in one walk.

ghost use Rattle.std.specs.Prelude.{◌≡◌, None, IfOk, option_and_then};
ghost use Rattle.json.specs.Json.{object};
ghost use Rattle.json.specs.Find.{as_str};
ghost use Rattle.zt_logs.specs.declared.places.Member.TheVariants as member;
ghost use Rattle.zt_logs.specs.Members.{not_null, field};
ghost use Rattle.zt_logs.specs.ProofsOnly.Tokens.{value_at, data_at, members_at};
ghost use Rattle.zt_logs.specs.ProofsOnly.Walks.{IsSeen, IsWalked, SeesNext, AreAsBefore};

use crate::call_names::is;
use crate::faults::{Cause, WantedValue};
use crate::json_values::{JsonMembers, JsonValue};
use crate::members::Members;
use crate::places::{LineObject, Member};
use crate::process_names::{ProcessWord, process_in};
use crate::rare_members::RareMember;

/// The members of a line. A member that is left out or `null` is none. If a line has a member twice, the last counts.
#[derive(Drop)]
pub(crate) struct LineMembers<'tape, 'text> {
    whole: Members<'tape, 'text>,
    args: Members<'tape, 'text>,
    out: Members<'tape, 'text>,
    others: OtherMembers<'tape, 'text>,
}

/// The members of a line, of which `args` and `out` are taken out once all are seen.
#[derive(Drop)]
struct OtherMembers<'tape, 'text> {
    call: Option<JsonValue<'tape, 'text>>,
    args: Option<JsonValue<'tape, 'text>>,
    status: Option<JsonValue<'tape, 'text>>,
    out: Option<JsonValue<'tape, 'text>>,
    process: Option<JsonValue<'tape, 'text>>,
    time: Option<JsonValue<'tape, 'text>>,
    /// The bits of the rare members that the line has, `null` ones too. Looking them up when they are wanted keeps this
    /// struct small: it is made for each line.
    rare: u16,
}

impl<'tape, 'text> LineMembers<'tape, 'text> {
    /// The members of a line. The error is `NoObject` if it is not an object.
    #[inline(always)]
    pub(crate) fn of_line(line: JsonValue<'tape, 'text>) -> Result<LineMembers<'tape, 'text>, Cause>
        ensures walked { IfOk result IsWalked }
        ensures whole { IfOk result (λ members. data_at members.whole.value ≡ Some (value_at line.entry)) }
    {
        let Some(members) = line.members() else {
            return Err(Cause::NoObject);
        };
        let mut others = walked(members);
        let args = Members::new(LineObject::Args, others.args.take());
        let out = Members::new(LineObject::Out, others.out.take());
        let whole = Members::new(LineObject::Line, Some(line));
        Ok(LineMembers {
            whole,
            args,
            out,
            others,
        })
    }

    /// The name of the call.
    #[inline(always)]
    pub(crate) fn call(&self) -> Result<&'text str, Cause>
        requires { IsWalked self.now }
        ensures { IfOk result (λ text. option_and_then as_str (field member.Call (data_at self.now.whole.value)) ≡ Some text.now) }
    {
        self.text(Member::Call, &self.others.call)
    }

    /// The word of the status.
    #[inline(always)]
    pub(crate) fn status(&self) -> Result<&'text str, Cause>
        requires { IsWalked self.now }
        ensures { IfOk result (λ text. option_and_then as_str (field member.Status (data_at self.now.whole.value)) ≡ Some text.now) }
    {
        self.text(Member::Status, &self.others.status)
    }

    /// The text of a needed member.
    #[inline(always)]
    fn text(
        &self,
        name: Member,
        value: &Option<JsonValue<'tape, 'text>>,
    ) -> Result<&'text str, Cause>
        ensures { IfOk result (λ text. option_and_then as_str (data_at value.now) ≡ Some text.now) }
    {
        match value {
            Some(value) => match value.as_str() {
                Some(text) => Ok(text),
                None => Err(self.whole.fault(name, WantedValue::Text)),
            },
            None => Err(self.whole.missing(name)),
        }
    }

    /// The arguments.
    pub(crate) fn args(&self) -> Result<&Members<'tape, 'text>, Cause>
        requires { IsWalked self.now }
        ensures { IfOk result (λ args. data_at args.now.value ≡ field member.Args (data_at self.now.whole.value)) }
    {
        if self.args.is_other() {
            return Err(self.whole.fault(Member::Args, WantedValue::Object));
        }
        Ok(&self.args)
    }

    /// What the call gave.
    pub(crate) fn out(&self) -> Result<&Members<'tape, 'text>, Cause>
        requires { IsWalked self.now }
        ensures { IfOk result (λ out. data_at out.now.value ≡ field member.Out (data_at self.now.whole.value)) }
    {
        if self.out.is_other() {
            return Err(self.whole.fault(Member::Out, WantedValue::Object));
        }
        Ok(&self.out)
    }

    /// The values of `args` and `out`, of any form.
    pub(crate) fn objects(
        &self,
    ) -> (
        Option<&JsonValue<'tape, 'text>>,
        Option<&JsonValue<'tape, 'text>>,
    ) {
        (self.args.value(), self.out.value())
    }

    /// When the call returned, by the member `time`.
    pub(crate) fn time(&self) -> Option<&JsonValue<'tape, 'text>> {
        self.others.time.as_ref()
    }

    /// A member that few lines have. None if it is left out or `null`.
    #[inline(always)]
    pub(crate) fn rare(&self, member: RareMember) -> Option<JsonValue<'tape, 'text>> {
        if self.others.rare & member.bit() == 0 {
            return None;
        }
        self.whole.named(member.name())
    }

    /// The process that makes the call. The error is `Missing` or `Member`.
    pub(crate) fn process(&self) -> Result<ProcessWord<'text>, Cause> {
        if let Some(value) = &self.others.process {
            if let Some(process) = process_in(value) {
                return Ok(process);
            }
        }
        self.whole.process(Member::Process)
    }
}

/// Goes over the members of a line.
#[inline(always)]
fn walked<'tape, 'text>(members: JsonMembers<'tape, 'text>) -> OtherMembers<'tape, 'text>
    ensures { IsSeen (members_at members.entry) result }
{
    let mut seen = OtherMembers::none();
    let mut rest = members;
    while let Some((name, value)) = rest.next() {
        seen.see(name, value);
    }
    seen
}

impl<'tape, 'text> OtherMembers<'tape, 'text> {
    /// Those of an object without members.
    fn none() -> OtherMembers<'tape, 'text>
        ensures call { result.call ≡ None }
        ensures args { result.args ≡ None }
        ensures status { result.status ≡ None }
        ensures out { result.out ≡ None }
    {
        OtherMembers {
            call: None,
            args: None,
            status: None,
            out: None,
            process: None,
            time: None,
            rare: 0,
        }
    }

    /// Goes over the next member of the line.
    #[tactic(auto, using(crate::proofs::WalkLaws::other_name))]
    #[inline(always)]
    fn see(&mut self, name: &str, value: JsonValue<'tape, 'text>)
        ensures { SeesNext name.now (value_at value.entry) self.old self.new }
    {
        let bytes = name.as_bytes();
        if is(bytes, b"args") {
            self.args = told(value);
        } else if is(bytes, b"call") {
            self.call = told(value);
        } else if is(bytes, b"status") {
            self.status = told(value);
        } else if is(bytes, b"out") {
            self.out = told(value);
        } else {
            self.see_other(name, value);
        }
    }

    /// Goes over the process, the time, or a member that few lines have.
    #[inline(always)]
    fn see_other(&mut self, name: &str, value: JsonValue<'tape, 'text>)
        ensures { AreAsBefore self.old self.new }
    {
        if name == "process" {
            self.process = told(value);
        } else if name == "time" {
            self.time = told(value);
        } else if let Some(member) = RareMember::of(name) {
            self.rare |= member.bit();
        }
    }
}

/// The value, unless it is `null`.
#[inline(always)]
fn told<'tape, 'text>(value: JsonValue<'tape, 'text>) -> Option<JsonValue<'tape, 'text>>
    ensures { data_at result ≡ not_null (value_at value.entry) }
{
    if value.is_null() { None } else { Some(value) }
}
