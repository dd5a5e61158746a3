//! Whether logs, their rows and their answers are equal. A comparison that may fail for want of memory is made again.

use crate::tests::commands::command;
use std::alloc::{AllocError, Global};
use std::fmt::Debug;
use zt_book::{Log, Recorded};
use zt_rows::{Answer, Command};
use zt_shared::account::Naming;
use zt_shared::{Beginning, Pass};
use zt_text::print_answer;

/// A client's line, and the lines of its answer.
pub(super) type Told = (u8, &'static str, &'static str);

/// All that a value has, as a text.
fn shown<T: Debug>(alloc: Global, value: &T) -> Result<String, AllocError> {
    format!(in alloc; "{value:?}")
}

/// Whether both values have the same text. No if an allocation fails.
pub(super) fn looks_same<T: Debug>(alloc: Global, first: &T, second: &T) -> bool {
    match (shown(alloc, first), shown(alloc, second)) {
        (Ok(first), Ok(second)) => first == second,
        _ => false,
    }
}

fn is_same<T: Debug>(alloc: Global, first: &T, second: &T) -> bool {
    looks_same(alloc, first, second) || looks_same(alloc, first, second)
}

/// Whether these are the command and the answer of this row of the log.
fn is_row(alloc: Global, said: Option<(&Command, &Answer)>, row: &Recorded) -> bool {
    match said {
        Some((asked, answered)) => {
            is_same(alloc, asked, &row.asked) && is_same(alloc, answered, &row.answered)
        }
        None => false,
    }
}

/// Whether the pass has exactly its client's rows of the log.
pub(super) fn has_rows_of<A: Naming + Beginning, B: Naming, C: Naming, D: Naming>(
    alloc: Global,
    pass: &Pass<A, B, C, D>,
    log: &Log,
) -> bool {
    let client = pass.client();
    let mut n: usize = 0;
    for row in log.rows() {
        if row.client == client {
            n = n.saturating_add(1);
            if !is_row(alloc, pass.row(n), row) {
                return false;
            }
        }
    }
    n == pass.len()
}

fn is_same_row(alloc: Global, first: Option<&Recorded>, second: &Recorded) -> bool {
    match first {
        Some(first) => is_same(alloc, first, second),
        None => false,
    }
}

pub(super) fn is_same_log(alloc: Global, first: &Log, second: &Log) -> bool {
    let mut number: usize = 0;
    for row in second.rows() {
        if !is_same_row(alloc, first.row(number), row) {
            return false;
        }
        number = number.saturating_add(1);
    }
    number == first.len()
}

/// Whether the row has this command and these lines.
fn tells_row(alloc: Global, row: &Recorded, told: Told) -> bool {
    let (client, line, lines) = told;
    match (command(alloc, line), print_answer(alloc, &row.answered)) {
        (Some(asked), Ok(text)) => {
            row.client == client
                && is_same(alloc, &asked, &row.asked)
                && text.as_slice() == lines.as_bytes()
        }
        _ => false,
    }
}

/// Whether the last row of the log has this command and these lines.
pub(super) fn tells_last(alloc: Global, log: &Log, told: Told) -> bool {
    match log.rows().last() {
        Some(row) => tells_row(alloc, row, told) || tells_row(alloc, row, told),
        None => false,
    }
}

/// Whether the log has exactly these rows.
pub(super) fn tells(alloc: Global, log: &Log, told: &[Told]) -> bool {
    let mut number: usize = 0;
    for row in log.rows() {
        match told.get(number) {
            Some(told) if tells_row(alloc, row, *told) => number = number.saturating_add(1),
            _ => return false,
        }
    }
    number == told.len()
}
