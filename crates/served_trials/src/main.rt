//! Serves clients of shared books in trials. Prints a line for each trial: how many rows the logs have, or what went wrong.
#![tactic(auto)]

mod faults;
mod gates;
mod lost_between;
mod lost_clients;
mod served_clients;
mod sockets;
mod typed;

use faults::TrialFault;
use gates::{around_commands, each_for_the_others, each_line_heard, second_before_first};
use lost_between::{second_reads_fail, second_writes_fail};
use lost_clients::{half_a_line, reads_fail, writes_fail};
use sockets::{four_clients, two_clients};
use std::io;
use std::sync::Wait;
use std::thread::Threads;
use std::time::Clock;

fn main(rt: HostRuntime) -> io::Result<()> {
    report_held(&rt)?;
    report(
        &rt,
        "gates are called around commands alone",
        around_commands(&rt),
    )?;
    report(
        &rt,
        "a gate hears each line with its answer",
        each_line_heard(&rt),
    )?;
    report(&rt, "each read fails once", reads_fail(&rt))?;
    report(&rt, "each write fails once", writes_fail(&rt))?;
    report(
        &rt,
        "a client goes away in the middle of a line",
        half_a_line(&rt),
    )?;
    report_second_lost(&rt)?;
    report(&rt, "two clients over loopback", two_clients(&rt))?;
    report(
        &rt,
        "four clients talk over loopback, a row for each answer",
        four_clients(&rt),
    )
}

/// Prints the outcome of the trials in which clients are held until others have come.
fn report_held<R: Threads + Wait + AllocGlobal + Clock + Print + Sync>(rt: &R) -> io::Result<()> {
    report(
        rt,
        "the second client is answered before the first",
        second_before_first(rt),
    )?;
    report(
        rt,
        "each client waits for the other",
        each_for_the_others(rt, 2),
    )?;
    report(
        rt,
        "each of three clients waits for the others",
        each_for_the_others(rt, 3),
    )?;
    report(
        rt,
        "each of four clients waits for the others",
        each_for_the_others(rt, 4),
    )
}

/// Prints the outcome of the trials in which a second client is lost between two lines of the first.
fn report_second_lost<R: Threads + Wait + AllocGlobal + Clock + Print + Sync>(
    rt: &R,
) -> io::Result<()> {
    report(
        rt,
        "a second client is lost at each read, between two lines of the first",
        second_reads_fail(rt),
    )?;
    report(
        rt,
        "a second client is lost at each write, between two lines of the first",
        second_writes_fail(rt),
    )
}

/// Prints the outcome of a trial.
fn report(rt: &impl Print, trial: &str, went: Result<usize, TrialFault>) -> io::Result<()> {
    match went {
        Ok(rows) => println!(rt; "{trial}: {rows} rows"),
        Err(fault) => println!(rt; "{trial}: {fault}"),
    }
}
