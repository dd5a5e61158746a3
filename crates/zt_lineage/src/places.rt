//! The places of handles.

ghost use Rattle.std.specs.Prelude.{◌≡◌};
ghost use Rattle.std.specs.Ordering.{as_partial_cmp};
ghost use Rattle.zt_lineage.specs.Places.{held_at};

use std::cmp::Ordering;
use zt_rows::{HandleValue, Held, Koid};
use zt_store::Store;

/// Where a handle can be. Entries are ordered before messages, and each by their numbers as listed.
#[derive(Clone, Copy)]
pub enum Place {
    /// In the handle table of a process, under a handle value.
    Entry(Koid, HandleValue),
    /// In a queued message: the endpoint, the number of the message there, and which of its handles, from 0.
    Message(Koid, u64, u64),
}

impl PartialEq for Place {
    ghost use Rattle.zt_lineage.specs.Places.{is_same};
    ghost use Rattle.zt_lineage.specs.ProofsOnly.PlaceOrder.{is_same-laws};

    ghost eq = { is_same };

    ghost laws = { is_same-laws };

    fn eq(&self, other: &Place) -> bool {
        match (self, other) {
            (Place::Entry(process, handle), Place::Entry(other_process, other_handle)) => {
                process == other_process && handle == other_handle
            }
            (
                Place::Message(endpoint, number, index),
                Place::Message(other_endpoint, other_number, other_index),
            ) => endpoint == other_endpoint && number == other_number && index == other_index,
            _ => false,
        }
    }
}

impl Eq for Place {
    ghost use Rattle.std.specs.Cmp.{partial_equiv_from_equiv, equiv};
    ghost use Rattle.zt_lineage.specs.ProofsOnly.PlaceOrder.{is_same-laws, is_same-self};

    ghost laws = { equiv is_same-laws is_same-self };
}

impl PartialOrd for Place {
    ghost use Rattle.zt_lineage.specs.Places.{place_cmp};
    ghost use Rattle.zt_lineage.specs.ProofsOnly.PlaceOrder.{place_cmp_partial};

    ghost partial_cmp = { as_partial_cmp place_cmp };

    ghost laws = { place_cmp_partial };

    fn partial_cmp(&self, other: &Place) -> Option<Ordering> {
        Some(self.cmp(other))
    }
}

impl Ord for Place {
    ghost use Rattle.zt_lineage.specs.Places.{place_cmp};
    ghost use Rattle.zt_lineage.specs.ProofsOnly.PlaceOrder.{place_cmp_total, is_same-matches};
    ghost use Rattle.std.specs.Prelude.{refl};

    ghost cmp = { place_cmp };

    ghost total = { place_cmp_total };

    ghost matches_partial_cmp = { λ a b. refl };

    ghost matches_eq = { is_same-matches };

    fn cmp(&self, other: &Place) -> Ordering {
        let (variant, other_variant) = (self.variant(), other.variant());
        if variant != other_variant {
            return variant.cmp(&other_variant);
        }
        let (owner, number, index) = self.numbers();
        let (other_owner, other_number, other_index) = other.numbers();
        owner
            .cmp(&other_owner)
            .then(number.cmp(&other_number).then(index.cmp(&other_index)))
    }
}

impl Place {
    ghost use Rattle.zt_lineage.specs.Places.{variant, owner, number, index};

    /// The number of the variant in the list, from 0.
    fn variant(self) -> u8
        ensures { result ≡ variant self }
    {
        match self {
            Place::Entry(_, _) => 0,
            Place::Message(_, _, _) => 1,
        }
    }

    /// The numbers of the place, 0 for the index of an entry.
    fn numbers(self) -> (u64, u64, u64)
        ensures owner { result.0 ≡ owner self }
        ensures number { result.1 ≡ number self }
        ensures index { result.2 ≡ index self }
    {
        match self {
            Place::Entry(process, handle) => (process.0, u64::from(handle.0), 0),
            Place::Message(endpoint, number, index) => (endpoint.0, number, index),
        }
    }
}

/// What the place holds in the store, if there is a handle.
pub fn held_at(store: &Store, place: &Place) -> Option<Held>
    ensures { result ≡ held_at store.now.state place.now }
{
    match place {
        Place::Entry(process, handle) => store.entry(*process, *handle),
        Place::Message(endpoint, number, index) => match store.message(*endpoint, *number) {
            Some(message) => message.handles().as_slice().get(*index as usize).copied(),
            None => None,
        },
    }
}
