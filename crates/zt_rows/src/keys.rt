//! Keys of rows, and their order.

ghost use Rattle.std.specs.Prelude.{◌≡◌};
ghost use Rattle.std.specs.Ordering.{as_partial_cmp};

use crate::numbers::{HandleValue, Koid};
use std::cmp::Ordering;

/// The key under which a row stands. Keys are ordered by variant as listed, then by their first number, then by their
/// second number.
#[derive(Clone, Copy, Debug)]
pub enum RowKey {
    Counters,
    Object(Koid),
    /// An entry of a process's handle table, by its handle value.
    Entry(Koid, HandleValue),
    /// A message of an endpoint, by its number.
    Msg(Koid, u64),
    /// A packet of a port, by its number.
    Packet(Koid, u64),
    Wait(u64),
}

impl PartialEq for RowKey {
    ghost use Rattle.zt_rows.specs.Keys.{rowkey_eq};
    ghost use Rattle.zt_rows.specs.ProofsOnly.KeyOrder.{rowkey_eq-laws};

    ghost eq = { rowkey_eq };

    ghost laws = { rowkey_eq-laws };

    fn eq(&self, other: &RowKey) -> bool {
        match (self, other) {
            (RowKey::Counters, RowKey::Counters) => true,
            (RowKey::Object(koid), RowKey::Object(other_koid)) => koid == other_koid,
            (RowKey::Entry(process, handle), RowKey::Entry(other_process, other_handle)) => {
                process == other_process && handle == other_handle
            }
            (RowKey::Msg(endpoint, number), RowKey::Msg(other_endpoint, other_number)) => {
                endpoint == other_endpoint && number == other_number
            }
            (RowKey::Packet(port, number), RowKey::Packet(other_port, other_number)) => {
                port == other_port && number == other_number
            }
            (RowKey::Wait(number), RowKey::Wait(other_number)) => number == other_number,
            _ => false,
        }
    }
}

impl Eq for RowKey {
    ghost use Rattle.std.specs.Cmp.{partial_equiv_from_equiv, equiv};
    ghost use Rattle.zt_rows.specs.ProofsOnly.KeyOrder.{rowkey_eq-laws, rowkey_eq-self};

    ghost laws = { equiv rowkey_eq-laws rowkey_eq-self };
}

impl PartialOrd for RowKey {
    ghost use Rattle.zt_rows.specs.Keys.{rowkey_cmp};
    ghost use Rattle.zt_rows.specs.ProofsOnly.KeyOrder.{rowkey_cmp_partial};

    ghost partial_cmp = { as_partial_cmp rowkey_cmp };

    ghost laws = { rowkey_cmp_partial };

    fn partial_cmp(&self, other: &RowKey) -> Option<Ordering> {
        Some(self.cmp(other))
    }
}

impl Ord for RowKey {
    ghost use Rattle.zt_rows.specs.Keys.{rowkey_cmp};
    ghost use Rattle.zt_rows.specs.ProofsOnly.KeyOrder.{rowkey_cmp_total, rowkey_eq-matches};
    ghost use Rattle.std.specs.Prelude.{refl};

    ghost cmp = { rowkey_cmp };

    ghost total = { rowkey_cmp_total };

    ghost matches_partial_cmp = { λ a b. refl };

    ghost matches_eq = { rowkey_eq-matches };

    fn cmp(&self, other: &RowKey) -> Ordering {
        let (variant, other_variant) = (self.variant(), other.variant());
        if variant != other_variant {
            return variant.cmp(&other_variant);
        }
        let (first, second) = self.numbers();
        let (other_first, other_second) = other.numbers();
        first.cmp(&other_first).then(second.cmp(&other_second))
    }
}

impl RowKey {
    ghost use Rattle.zt_rows.specs.Keys.{variant, first_number, second_number};

    /// The number of the variant in the list, from 0.
    fn variant(self) -> u8
        ensures { result ≡ variant self }
    {
        match self {
            RowKey::Counters => 0,
            RowKey::Object(_) => 1,
            RowKey::Entry(_, _) => 2,
            RowKey::Msg(_, _) => 3,
            RowKey::Packet(_, _) => 4,
            RowKey::Wait(_) => 5,
        }
    }

    /// The two numbers of the key, 0 for a number that it does not have.
    fn numbers(self) -> (u64, u64)
        ensures first { result.0 ≡ first_number self }
        ensures second { result.1 ≡ second_number self }
    {
        match self {
            RowKey::Counters => (0, 0),
            RowKey::Object(koid) => (koid.0, 0),
            RowKey::Entry(process, handle) => (process.0, u64::from(handle.0)),
            RowKey::Msg(endpoint, number) => (endpoint.0, number),
            RowKey::Packet(port, number) => (port.0, number),
            RowKey::Wait(number) => (number, 0),
        }
    }
}
