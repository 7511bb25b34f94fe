//! What desks are to do.
ghost use Rattle.std.specs.Prelude.{◌≡◌};

use tp_desk::Order;

/// How many turns each desk takes, and in which order it claims.
#[derive(Clone, Copy, Debug, PartialEq, Eq)]
pub struct Plan {
    /// How many turns, or fewer where a desk stops early.
    pub turns: u32,
    /// The order of its claims.
    pub order: Order,
}

impl Plan {
    ghost use Rattle.tp_workers.specs.Plans.{least_first, in_turn};

    /// This many turns, each of which claims the element with the least id.
    pub fn least_first(turns: u32) -> Plan
        ensures { result ≡ least_first turns }
    {
        Plan {
            turns,
            order: Order::LeastFirst,
        }
    }

    /// This many turns whose claims are in turn.
    pub fn in_turn(turns: u32) -> Plan
        ensures { result ≡ in_turn turns }
    {
        Plan {
            turns,
            order: Order::InTurn,
        }
    }
}
