//! Counts the packets of users in a port.

ghost use Rattle.std.specs.Prelude.{◌≡◌};
ghost use Rattle.zt_rows.specs.PortCalls.{pending};

use zt_rows::Koid;
use zt_store::Step;

/// How many packets of users are in the port. Never allocates.
pub fn pending(step: &Step, port: Koid) -> u64
    ensures { result ≡ pending step.now.current port }
{
    step.store().user_packets(port)
}
