//! Measures how long a store and a history take, each alone.
//!
//! - `benches store WORKLOAD OBJECTS COUNT` runs a workload of `store_workloads`.
//! - `benches history WORKLOAD COUNT` runs a workload of `history_workloads`.
//!
//! Each prints the workload, its numbers and its time in nanoseconds. Without arguments the program does nothing.
#![tactic(auto)]

mod calls;
mod critical_jobs;
mod edge_waits;
mod fired_waits;
mod histories;
mod history_workloads;
mod moves;
mod own_job;
mod questions;
mod store_workloads;

use anyhow::{Context, Result, bail};
use std::env;

/// The first koid that the opening has not given to an object.
const FIRST: u64 = 1026;

fn main(rt: HostRuntime) -> Result<()> {
    let mut words = env::args(&rt)?;
    let _program = words.next();
    let Some(subject) = words.next() else {
        return Ok(());
    };
    let workload = words.next().context("a workload is missing")?;
    match subject.as_str() {
        "store" => {
            let objects = number(words.next())?;
            let count = number(words.next())?;
            over_store(&rt, workload.as_str(), objects, count)
        }
        "history" => {
            let count = number(words.next())?;
            over_history(&rt, workload.as_str(), count)
        }
        _ => bail!("store or history is wanted"),
    }
}

/// The number that an argument is.
fn number(word: Option<String>) -> Result<u32> {
    let word = word.context("a number is missing")?;
    word.as_str().parse::<u32>().context("a number is wanted")
}

/// Prints how long a workload of a store takes.
fn over_store(rt: &HostRuntime, workload: &str, objects: u32, count: u32) -> Result<()> {
    let time = store_workloads::time_of(rt, rt.alloc(), workload, objects, count)?;
    println!(rt; "{workload} {objects} {count} {time}")?;
    Ok(())
}

/// Prints how long a workload of a history takes.
fn over_history(rt: &HostRuntime, workload: &str, count: u32) -> Result<()> {
    let time = history_workloads::time_of(rt, rt.alloc(), workload, count);
    let time = time.context("no such workload, or it was refused")?;
    println!(rt; "{workload} {count} {time}")?;
    Ok(())
}
