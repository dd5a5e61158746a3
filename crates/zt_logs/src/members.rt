//! Reads the members of a JSON object, each in the form that is wanted of it. A needed member that is left out is
//! `Missing`. A member of another form is `Member`. A member that is `null` counts as left out.

ghost use Rattle.std.specs.Prelude.{◌≡◌, ◌++◌, ◌∷◌, [], Some, None, IfOk, IfSome, OnOk, is_some, option_and_then};
ghost use Rattle.json.specs.Find.{as_str};
ghost use Rattle.zt_logs.specs.Members.{named, field};
ghost use Rattle.zt_logs.specs.ProofsOnly.Tokens.{value_at, data_at, items_at};
ghost use Rattle.zt_logs.specs.Numbers.{IsNumber, IsNumberIn, IsNumberOrNone, IsMaskIn, IsSignedIn, flag_of};
ghost use Rattle.zt_logs.specs.LoggedCalls.{AreBytes, ArePacketBytes, AreNumbers, AreHandles};
ghost use Rattle.zt_logs.specs.LineCalls.{IsOperation, IsOperationIn};
ghost use Rattle.zt_logs.specs.Answered.{IsReadNumber, AreReadNumbers, AreReadHandles};
ghost use Rattle.zt_logs.specs.ProofsOnly.ReadLines.{IsListAt};

use crate::bit_names::{BitNames, bits_in};
use crate::faults::{Cause, WantedValue};
use crate::json_values::{JsonItems, JsonValue};
use crate::numbers::{narrow_in, number_in, signed_in};
use crate::places::{LineObject, Member, Place};
use crate::process_names::{ProcessWord, process_in};
use hex::{FromHex, FromHexError};
use std::alloc::Global;
use zt_bits::Signals;
use zt_rows::{HandleValue, Items, MESSAGE_BYTES, MESSAGE_HANDLES};

/// The members of an object of a line. An object that is left out has none.
#[derive(Drop)]
pub(crate) struct Members<'tape, 'text> {
    object: LineObject,
    value: Option<JsonValue<'tape, 'text>>,
}

impl<'tape, 'text> Members<'tape, 'text> {
    /// The members of this value, which is an object or is left out.
    pub(crate) fn new(
        object: LineObject,
        value: Option<JsonValue<'tape, 'text>>,
    ) -> Members<'tape, 'text>
        ensures { result.value ≡ value.entry }
    {
        Members { object, value }
    }

    /// The value of these members, if it is not left out.
    pub(crate) fn value(&self) -> Option<&JsonValue<'tape, 'text>> {
        self.value.as_ref()
    }

    /// Whether a value is there that is no object.
    pub(crate) fn is_other(&self) -> bool {
        match &self.value {
            Some(value) => !value.is_object(),
            None => false,
        }
    }

    /// The error of a needed member that is left out.
    #[cold]
    pub(crate) fn missing(&self, name: Member) -> Cause {
        Cause::Missing(self.place(name))
    }

    /// The members of the object under this name, which may be left out.
    pub(crate) fn object(
        &self,
        name: Member,
        object: LineObject,
    ) -> Result<Members<'tape, 'text>, Cause>
        ensures { IfOk result (λ members. data_at members.value ≡ field name (data_at self.now.value)) }
    {
        let value = self.member(name);
        if let Some(found) = &value {
            if !found.is_object() {
                return Err(self.fault(name, WantedValue::Object));
            }
        }
        Ok(Members { object, value })
    }

    /// Whether a member of this name is there, by either of its names.
    #[inline(always)]
    pub(crate) fn has(&self, name: Member) -> bool
        ensures { result ≡ is_some (field name (data_at self.now.value)) }
    {
        self.member(name).is_some()
    }

    /// Whether the member of this name is an object.
    pub(crate) fn has_object(&self, name: Member) -> bool {
        match self.member(name) {
            Some(value) => value.is_object(),
            None => false,
        }
    }

    /// The value of a member, by its name or else by its second name.
    #[inline(always)]
    pub(crate) fn member(&self, name: Member) -> Option<JsonValue<'tape, 'text>>
        ensures { data_at result ≡ field name (data_at self.now.value) }
    {
        match self.named(name.name()) {
            Some(value) => Some(value),
            None => self.named(name.second_name()?),
        }
    }

    /// The value under this name, unless it is left out or `null`.
    #[inline(always)]
    pub(crate) fn named(&self, name: &str) -> Option<JsonValue<'tape, 'text>>
        ensures { data_at result ≡ named name.now (data_at self.now.value) }
    {
        let Some(object) = &self.value else {
            return None;
        };
        let value = object.get(name)?;
        if value.is_null() { None } else { Some(value) }
    }

    /// The value of a member that may not be left out.
    #[inline(always)]
    fn needed(&self, name: Member) -> Result<JsonValue<'tape, 'text>, Cause>
        ensures { IfOk result (λ value. field name (data_at self.now.value) ≡ Some (value_at value)) }
    {
        match self.member(name) {
            Some(value) => Ok(value),
            None => Err(self.missing(name)),
        }
    }

    /// The place of a member.
    #[cold]
    fn place(&self, name: Member) -> Place {
        Place {
            object: self.object,
            member: name,
            is_second: self.has(name) && self.named(name.name()).is_none(),
            item: None,
        }
    }

    /// The error of a member that is not of the form wanted.
    #[cold]
    pub(crate) fn fault(&self, name: Member, wanted: WantedValue) -> Cause {
        let place = self.place(name);
        Cause::Member { place, wanted }
    }

    /// A text.
    pub(crate) fn text(&self, name: Member) -> Result<&'text str, Cause>
        ensures { IfOk result (λ text. option_and_then as_str (field name (data_at self.now.value)) ≡ Some text.now) }
    {
        match self.needed(name)?.as_str() {
            Some(text) => Ok(text),
            None => Err(self.fault(name, WantedValue::Text)),
        }
    }

    /// A process, by its number or its name.
    pub(crate) fn process(&self, name: Member) -> Result<ProcessWord<'text>, Cause> {
        match process_in(&self.needed(name)?) {
            Some(process) => Ok(process),
            None => Err(self.fault(name, WantedValue::Process)),
        }
    }

    /// A process; none if it is left out.
    pub(crate) fn process_if_any(&self, name: Member) -> Result<Option<ProcessWord<'text>>, Cause> {
        if !self.has(name) {
            return Ok(None);
        }
        Ok(Some(self.process(name)?))
    }

    /// A number of 64 bits.
    pub(crate) fn wide(&self, name: Member) -> Result<u64, Cause>
        ensures { IfOk result (IsNumberIn (field name (data_at self.now.value))) }
    {
        match number_in(&self.needed(name)?) {
            Some(number) => Ok(number),
            None => Err(self.fault(name, WantedValue::Number(u64::MAX))),
        }
    }

    /// A number of 32 bits.
    #[inline(always)]
    pub(crate) fn narrow(&self, name: Member) -> Result<u32, Cause>
        ensures { IfOk result (IsNumberIn (field name (data_at self.now.value))) }
    {
        match narrow_in(&self.needed(name)?) {
            Some(number) => Ok(number),
            None => Err(self.fault(name, WantedValue::Number(u64::from(u32::MAX)))),
        }
    }

    /// A handle.
    #[inline(always)]
    pub(crate) fn handle(&self, name: Member) -> Result<HandleValue, Cause>
        ensures { IfOk result (IsNumberIn (field name (data_at self.now.value))) }
    {
        Ok(HandleValue(self.narrow(name)?))
    }

    /// A handle; 0 if it is left out.
    pub(crate) fn handle_or_none(&self, name: Member) -> Result<HandleValue, Cause>
        ensures { IfOk result (IsNumberOrNone (field name (data_at self.now.value))) }
    {
        if !self.has(name) {
            return Ok(HandleValue(0));
        }
        self.handle(name)
    }

    /// A mask of rights, as a number or as names.
    pub(crate) fn rights(&self, name: Member) -> Result<u32, Cause>
        ensures { IfOk result (IsMaskIn (field name (data_at self.now.value))) }
    {
        self.bits(name, BitNames::Rights)
    }

    /// A mask of signals, as a number or as names.
    pub(crate) fn signals(&self, name: Member) -> Result<Signals, Cause>
        ensures { IfOk result (λ signals. IsMaskIn (field name (data_at self.now.value)) signals.0) }
    {
        Ok(Signals(self.bits(name, BitNames::Signals)?))
    }

    fn bits(&self, name: Member, names: BitNames) -> Result<u32, Cause>
        ensures { IfOk result (IsMaskIn (field name (data_at self.now.value))) }
    {
        match bits_in(names, &self.needed(name)?) {
            Some(bits) => Ok(bits),
            None => Err(self.fault(name, WantedValue::Mask)),
        }
    }

    /// A signed number of 64 bits.
    pub(crate) fn signed(&self, name: Member) -> Result<i64, Cause>
        ensures { IfOk result (IsSignedIn (field name (data_at self.now.value))) }
    {
        match signed_in(&self.needed(name)?) {
            Some(number) => Ok(number),
            None => Err(self.fault(name, WantedValue::SignedNumber)),
        }
    }

    /// A flag; false if it is left out.
    pub(crate) fn flag(&self, name: Member) -> Result<bool, Cause>
        ensures { IfOk result (λ flag. flag_of (field name (data_at self.now.value)) ≡ Some flag) }
    {
        match self.member(name) {
            None => Ok(false),
            Some(value) => match value.as_bool() {
                Some(flag) => Ok(flag),
                None => Err(self.fault(name, WantedValue::Flag)),
            },
        }
    }

    /// The bytes of a message; none if they are left out.
    pub(crate) fn bytes_if_any(
        &self,
        alloc: Global,
        name: Member,
    ) -> Result<Option<Items<u8>>, Cause> {
        match self.member(name) {
            Some(value) => Ok(Some(Items::new(self.bytes_in(alloc, name, &value)?))),
            None => Ok(None),
        }
    }

    /// The bytes of a message; empty if they are left out.
    pub(crate) fn bytes_or_none(&self, alloc: Global, name: Member) -> Result<Vec<u8>, Cause>
        ensures { IfOk result (λ bytes. AreBytes (field name (data_at self.now.value)) bytes.items) }
    {
        match self.member(name) {
            Some(value) => self.bytes_in(alloc, name, &value),
            None => Ok(Vec::new(alloc)),
        }
    }

    /// The bytes that a value writes as hexadecimal digits, at most 65,536.
    fn bytes_in(
        &self,
        alloc: Global,
        name: Member,
        value: &JsonValue<'_, '_>,
    ) -> Result<Vec<u8>, Cause>
        ensures { IfOk result (λ bytes. AreBytes (Some (value_at value.now)) bytes.items) }
    {
        let Some(text) = value.as_str() else {
            return Err(self.fault(name, WantedValue::Digits));
        };
        if text.len() / 2 > MESSAGE_BYTES {
            return Err(self.fault(name, WantedValue::AtMost(MESSAGE_BYTES)));
        }
        match hex::decode(alloc, text.as_bytes()) {
            Ok(bytes) => Ok(bytes),
            Err(FromHexError::OutOfMemory) => Err(Cause::OutOfMemory),
            Err(_) => Err(self.fault(name, WantedValue::Digits)),
        }
    }

    /// The 32 bytes of a user packet.
    pub(crate) fn packet_bytes(&self, name: Member) -> Result<[u8; 32], Cause>
        ensures { IfOk result (ArePacketBytes (field name (data_at self.now.value))) }
    {
        let Some(text) = self.needed(name)?.as_str() else {
            return Err(self.fault(name, WantedValue::PacketDigits));
        };
        match <[u8; 32] as FromHex>::from_hex(text.as_bytes()) {
            Ok(bytes) => Ok(bytes),
            Err(_) => Err(self.fault(name, WantedValue::PacketDigits)),
        }
    }

    /// The handles of a list of at most 64 items; empty if it is left out.
    #[tactic(auto, using(crate::proofs::ListedLaws::handles_at, crate::proofs::ListedLaws::no_handles_at))]
    pub(crate) fn handles(&self, alloc: Global, name: Member) -> Result<Vec<HandleValue>, Cause>
        ensures { IfOk result (λ handles. AreHandles (field name (data_at self.now.value)) handles.items) }
    {
        match self.list(name)? {
            Some(list) => self.handles_in(alloc, name, list),
            None => Ok(Vec::new(alloc)),
        }
    }

    /// The handles of a list of any length; empty if it is left out.
    #[tactic(auto, using(crate::proofs::ListedLaws::handles_at, crate::proofs::ListedLaws::no_handles_at))]
    pub(crate) fn all_handles(&self, alloc: Global, name: Member) -> Result<Vec<HandleValue>, Cause>
        ensures { IfOk result (λ handles. AreHandles (field name (data_at self.now.value)) handles.items) }
    {
        match self.any_list(name)? {
            Some(list) => self.handles_in(alloc, name, list),
            None => Ok(Vec::new(alloc)),
        }
    }

    /// The handles of a message that was read, at most 64. An item is a handle, or an object that has one as its member
    /// `handle`.
    #[tactic(auto, using(crate::proofs::ListedLaws::read_at, crate::proofs::ListedLaws::no_read_at))]
    pub(crate) fn read_handles(
        &self,
        alloc: Global,
        name: Member,
    ) -> Result<Vec<HandleValue>, Cause>
        ensures { IfOk result (λ handles. AreReadHandles (field name (data_at self.now.value)) handles.items) }
    {
        match self.list(name)? {
            Some(list) => self.read_handles_in(alloc, name, list),
            None => Ok(Vec::new(alloc)),
        }
    }

    /// The handles that the items of a list are or have.
    fn read_handles_in(
        &self,
        alloc: Global,
        name: Member,
        list: JsonItems<'_, '_>,
    ) -> Result<Vec<HandleValue>, Cause>
        ensures { IfOk result (λ handles. AreReadNumbers (items_at list.entry) handles.items) }
    {
        let mut handles = Vec::new(alloc);
        let mut rest = list;
        let mut item = 0usize;
        while let Some(value) = rest.next() {
            let handle = self.read_handle_in(name, item, &value)?;
            push_handle(&mut handles, handle)?;
            item = item.saturating_add(1);
        }
        Ok(handles)
    }

    /// The handle that this item of a list is or has.
    fn read_handle_in(
        &self,
        name: Member,
        item: usize,
        value: &JsonValue<'_, '_>,
    ) -> Result<HandleValue, Cause>
        ensures { IfOk result (IsReadNumber (value_at value.now)) }
    {
        match value.get(Member::Handle.name()) {
            Some(handle) => self.handle_in(name, item, &handle),
            None => self.handle_in(name, item, value),
        }
    }

    /// A list of at most 64 items, as many as a message has handles; none if it is left out.
    pub(crate) fn list(&self, name: Member) -> Result<Option<JsonItems<'tape, 'text>>, Cause>
        ensures { IfOk result (IsListAt (field name (data_at self.now.value))) }
    {
        let Some(value) = self.member(name) else {
            return Ok(None);
        };
        match value.items() {
            Some(list) => {
                if is_too_long(&value) {
                    return Err(self.fault(name, WantedValue::AtMost(MESSAGE_HANDLES)));
                }
                Ok(Some(list))
            }
            None => Err(self.fault(name, WantedValue::List)),
        }
    }

    /// A list of any length; none if it is left out.
    fn any_list(&self, name: Member) -> Result<Option<JsonItems<'tape, 'text>>, Cause>
        ensures { IfOk result (IsListAt (field name (data_at self.now.value))) }
    {
        let Some(value) = self.member(name) else {
            return Ok(None);
        };
        match value.items() {
            Some(list) => Ok(Some(list)),
            None => Err(self.fault(name, WantedValue::List)),
        }
    }

    /// The members of an item of a list of handles that are sent. The error is `Member` if it is not an object.
    pub(crate) fn item(
        &self,
        name: Member,
        item: usize,
        value: JsonValue<'tape, 'text>,
    ) -> Result<Members<'tape, 'text>, Cause>
        ensures { IfOk result (λ members. data_at members.value ≡ Some (value_at value.entry)) }
    {
        if !value.is_object() {
            let mut place = self.place(name);
            place.item = Some(item);
            let wanted = WantedValue::Object;
            return Err(Cause::Member { place, wanted });
        }
        let object = match name {
            Member::WrittenHandles => LineObject::CalledHandle(item),
            _ => LineObject::SentHandle(item),
        };
        Ok(Members {
            object,
            value: Some(value),
        })
    }

    /// Whether a duplicate of a handle is sent, so that the process keeps it.
    pub(crate) fn is_duplicate(&self, name: Member) -> Result<bool, Cause>
        ensures { IfOk result (IsOperationIn (field name (data_at self.now.value))) }
    {
        match is_duplicate_in(&self.needed(name)?) {
            Some(is_duplicate) => Ok(is_duplicate),
            None => Err(self.fault(name, WantedValue::Operation)),
        }
    }

    /// The handles that the items of a list are.
    fn handles_in(
        &self,
        alloc: Global,
        name: Member,
        list: JsonItems<'_, '_>,
    ) -> Result<Vec<HandleValue>, Cause>
        ensures { IfOk result (λ handles. AreNumbers (items_at list.entry) handles.items) }
    {
        let mut handles = Vec::new(alloc);
        let mut rest = list;
        let mut item = 0usize;
        while let Some(value) = rest.next() {
            let handle = self.handle_in(name, item, &value)?;
            push_handle(&mut handles, handle)?;
            item = item.saturating_add(1);
        }
        Ok(handles)
    }

    /// The handle that this item of a list is.
    fn handle_in(
        &self,
        name: Member,
        item: usize,
        value: &JsonValue<'_, '_>,
    ) -> Result<HandleValue, Cause>
        ensures { IfOk result (IsNumber (value_at value.now)) }
    {
        match narrow_in(value) {
            Some(number) => Ok(HandleValue(number)),
            None => {
                let mut place = self.place(name);
                place.item = Some(item);
                let wanted = WantedValue::Number(u64::from(u32::MAX));
                Err(Cause::Member { place, wanted })
            }
        }
    }
}

/// Whether a list has more items than a message has handles.
fn is_too_long(list: &JsonValue<'_, '_>) -> bool {
    let Some(mut items) = list.items() else {
        return false;
    };
    for _ in 0..MESSAGE_HANDLES {
        if items.next().is_none() {
            return false;
        }
    }
    items.next().is_some()
}

/// Whether an operation, by its number or its name, duplicates the handle. None if it is neither operation.
fn is_duplicate_in(value: &JsonValue<'_, '_>) -> Option<bool>
    ensures { IfSome result (IsOperation (value_at value.now)) }
{
    match number_in(value) {
        Some(0) => Some(false),
        Some(1) => Some(true),
        Some(_) => None,
        None => match value.as_str()? {
            "ZX_HANDLE_OP_MOVE" => Some(false),
            "ZX_HANDLE_OP_DUPLICATE" => Some(true),
            _ => None,
        },
    }
}

/// Appends a handle.
pub(crate) fn push_handle(handles: &mut Vec<HandleValue>, handle: HandleValue) -> Result<(), Cause>
    ensures { OnOk result (handles.new.items ≡ handles.old.items ++ handle ∷ []) }
{
    match handles.push(handle) {
        Ok(()) => Ok(()),
        Err(_) => Err(Cause::OutOfMemory),
    }
}
