//! Values of a line, each at its place in the tape of the line.

ghost use Rattle.std.specs.Prelude.{◌≡◌, ◌<◌, length, MatchOption, option_map, IfSome};
ghost use Rattle.json.specs.Json.{no_items, item, no_members, member};
ghost use Rattle.json.specs.Find.{get, as_str, as_number, as_bool, as_array, as_object, is_null};
ghost use Rattle.zt_logs.specs.ProofsOnly.Tokens.{value_at, data_at, items_at, members_at};

use json::{Element, Items, Members, Tape};
use std::alloc::Allocator;
use std::marker::Model;

/// A value of a line. A clause sees the tokens from its place on.
#[derive(Drop)]
pub(crate) struct JsonValue<'tape, 'text> {
    element: Element<'tape, 'text>,
}

impl<'tape, 'text> Model for JsonValue<'tape, 'text> {
    ghost use Rattle.std.specs.Prelude.{List};
    ghost use Rattle.json.specs.Token.{Token, tokens_code};

    ghost Value = { List Token };

    ghost coded = { tokens_code };

    ghost use Rattle.json.specs.Find.{HasValue};

    ghost view = { λ v. v.element };

    ghost invariant = { λ v. HasValue v.element };
}

impl<'tape, 'text> JsonValue<'tape, 'text> {
    /// The value of a whole tape.
    pub(crate) fn of_tape<A: Allocator>(tape: &'tape Tape<'text, A>) -> JsonValue<'tape, 'text>
        ensures { result ≡ tape.now }
    {
        JsonValue {
            element: tape.root(),
        }
    }

    /// The value under this name, if this is an object that has one.
    #[inline(always)]
    pub(crate) fn get(&self, name: &str) -> Option<JsonValue<'tape, 'text>>
        ensures { data_at result ≡ get name.now (value_at self.now) }
    {
        match self.element.get(name) {
            Some(element) => Some(JsonValue { element }),
            None => None,
        }
    }

    #[inline(always)]
    pub(crate) fn is_null(&self) -> bool
        ensures { result ≡ is_null (value_at self.now) }
    {
        self.element.is_null()
    }

    /// The text that this is, if it is one.
    #[inline(always)]
    pub(crate) fn as_str(&self) -> Option<&'text str>
        ensures { option_map (λ text. text.now) result ≡ as_str (value_at self.now) }
    {
        self.element.as_str()
    }

    /// The digits of the number that this is, if it is one.
    #[inline(always)]
    pub(crate) fn as_number(&self) -> Option<&'text str>
        ensures { option_map (λ text. text.now) result ≡ as_number (value_at self.now) }
    {
        self.element.as_number()
    }

    pub(crate) fn as_bool(&self) -> Option<bool>
        ensures { result ≡ as_bool (value_at self.now) }
    {
        self.element.as_bool()
    }

    pub(crate) fn as_f64(&self) -> Option<f64> {
        self.element.as_f64()
    }

    pub(crate) fn is_object(&self) -> bool {
        self.element.members().is_some()
    }

    /// The members, if this is an object.
    #[inline(always)]
    pub(crate) fn members(&self) -> Option<JsonMembers<'tape, 'text>>
        ensures { option_map members_at result ≡ as_object (value_at self.now) }
    {
        match self.element.members() {
            Some(members) => Some(JsonMembers { members }),
            None => None,
        }
    }

    /// The items, if this is a list.
    pub(crate) fn items(&self) -> Option<JsonItems<'tape, 'text>>
        ensures { option_map items_at result ≡ as_array (value_at self.now) }
    {
        match self.element.items() {
            Some(items) => Some(JsonItems { items }),
            None => None,
        }
    }
}

/// The items of a list that are left. A clause sees the tokens from the next item on.
#[derive(Drop)]
pub(crate) struct JsonItems<'tape, 'text> {
    items: Items<'tape, 'text>,
}

impl<'tape, 'text> Model for JsonItems<'tape, 'text> {
    ghost use Rattle.std.specs.Prelude.{List};
    ghost use Rattle.json.specs.Token.{Token, tokens_code};

    ghost Value = { List Token };

    ghost coded = { tokens_code };

    ghost use Rattle.json.specs.Json.{Items};
    ghost use Rattle.json.specs.Find.{InItems};

    ghost view = { λ list. list.items };

    ghost invariant = { λ list. (js : Items) × InItems list.items js };
}

impl<'tape, 'text> JsonItems<'tape, 'text> {
    /// Takes the next item.
    pub(crate) fn next(&mut self) -> Option<JsonValue<'tape, 'text>>
        ensures value { MatchOption result (items_at self.old ≡ no_items)
            (λ value. items_at self.old ≡ item (value_at value) (items_at self.new)) }
        ensures shorter { IfSome result (λ _. length self.new < length self.old) }
    {
        let Some(element) = self.items.next() else {
            return None;
        };
        Some(JsonValue { element })
    }
}

/// The members of an object that are left. A clause sees the tokens from the next member on.
#[derive(Drop)]
pub(crate) struct JsonMembers<'tape, 'text> {
    members: Members<'tape, 'text>,
}

impl<'tape, 'text> Model for JsonMembers<'tape, 'text> {
    ghost use Rattle.std.specs.Prelude.{List};
    ghost use Rattle.json.specs.Token.{Token, tokens_code};

    ghost Value = { List Token };

    ghost coded = { tokens_code };

    ghost use Rattle.json.specs.Json.{Members};
    ghost use Rattle.json.specs.Find.{InMembers};

    ghost view = { λ rest. rest.members };

    ghost invariant = { λ rest. (ms : Members) × InMembers rest.members ms };
}

impl<'tape, 'text> JsonMembers<'tape, 'text> {
    /// Takes the next member: its name and its value.
    #[inline(always)]
    pub(crate) fn next(&mut self) -> Option<(&'text str, JsonValue<'tape, 'text>)>
        ensures value { MatchOption result (members_at self.old ≡ no_members)
            (λ next. members_at self.old ≡ member next.0.now (value_at next.1) (members_at self.new)) }
        ensures shorter { IfSome result (λ _. length self.new < length self.old) }
    {
        let Some((name, element)) = self.members.next() else {
            return None;
        };
        Some((name, JsonValue { element }))
    }
}
