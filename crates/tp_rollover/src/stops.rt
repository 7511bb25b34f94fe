//! Why a rollover stops once it has begun, and the fault that is told then.
ghost use Rattle.std.specs.Prelude.{◌≡◌};
ghost use Rattle.tp_rollover.specs.Faults.{fault_anew, fault_of};
ghost use Rattle.tp_rollover.specs.declared.moved.RollFault.TheVariants as faults;
ghost use Rattle.tp_rollover.specs.declared.stops.Stop.TheVariants as stops;

use crate::moved::RollFault;

/// Why the births or the checks have stopped.
#[derive(Clone, Copy)]
pub(crate) enum Stop {
    NoMemory,
    Full,
    Unequal,
}

/// The fault of a restoration that has stopped.
pub(crate) fn fault_of(stop: Stop) -> RollFault
    ensures is { result ≡ fault_of stop }
    ensures full { result ≡ faults.Full → stop ≡ stops.Full }
    ensures unequal { result ≡ faults.Unequal → stop ≡ stops.Unequal }
{
    match stop {
        Stop::NoMemory => RollFault::NoMemory,
        Stop::Full => RollFault::Full,
        Stop::Unequal => RollFault::Unequal,
    }
}

/// The fault of a rollover into a new manager that has stopped: where what was made isn't alike nothing is
/// computed, and so what is alive finds no room.
pub(crate) fn fault_anew(stop: Stop) -> RollFault
    ensures is { result ≡ fault_anew stop }
    ensures memory { result ≡ faults.NoMemory → stop ≡ stops.NoMemory }
{
    match stop {
        Stop::NoMemory => RollFault::NoMemory,
        Stop::Full => RollFault::Full,
        Stop::Unequal => RollFault::Full,
    }
}
