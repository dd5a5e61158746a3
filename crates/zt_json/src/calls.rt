//! The tables of the calls: the arguments and the values of each.

ghost use Rattle.std.specs.Prelude.{◌≡◌};
ghost use Rattle.zt_json.specs.Calls.{arguments_of, more_arguments_of, values_of};

use crate::steps;
use crate::steps::Step;

/// Returns the arguments of a call, which its name says. A call without arguments has none, as has an unknown name.
#[tactic(auto, unfolding(crate::specs::Calls::arguments_of))]
pub fn arguments_of(name: &str) -> &'static [Step]
    ensures { result.now ≡ arguments_of name.now }
{
    if name == "channel_write" {
        &steps::CHANNEL_WRITE
    } else if name == "channel_read" {
        &steps::CHANNEL_READ
    } else if name == "handle_close" || name == "task_kill" {
        &steps::ONE_HANDLE
    } else if name == "handle_duplicate" || name == "handle_replace" {
        &steps::HANDLE_RIGHTS
    } else if name == "object_signal" || name == "object_signal_peer" {
        &steps::SIGNAL
    } else {
        more_arguments_of(name)
    }
}

/// Returns the arguments of the calls on ports, jobs and processes.
#[tactic(auto, unfolding(crate::specs::Calls::more_arguments_of))]
fn more_arguments_of(name: &str) -> &'static [Step]
    ensures { result.now ≡ more_arguments_of name.now }
{
    if name == "object_wait_async" {
        &steps::WAIT_ASYNC
    } else if name == "port_queue" {
        &steps::PORT_QUEUE
    } else if name == "port_wait" {
        &steps::ONE_PORT
    } else if name == "port_cancel" {
        &steps::PORT_CANCEL
    } else if name == "job_create" {
        &steps::ONE_JOB
    } else if name == "spawn" {
        &steps::SPAWN
    } else if name == "job_set_critical" {
        &steps::SET_CRITICAL
    } else if name == "process_exit" {
        &steps::ONE_CODE
    } else {
        &steps::NOTHING
    }
}

/// Returns the values of a call that has some: those behind `buffer_too_small`, or else those behind `ok`.
#[tactic(auto, unfolding(crate::specs::Calls::values_of))]
pub fn values_of(name: &str, status: &str) -> &'static [Step]
    ensures { result.now ≡ values_of name.now status.now }
{
    if status == "buffer_too_small" {
        &steps::NEEDED
    } else if name == "channel_read" {
        &steps::MESSAGE_READ
    } else if name == "spawn" {
        &steps::SPAWNED
    } else if name == "channel_create" || name == "eventpair_create" {
        &steps::TWO_ENDS
    } else {
        &steps::ONE_HANDLE
    }
}
