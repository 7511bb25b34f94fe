//! Drains: the servers take turns in rounds until nothing is left for them.
ghost use Rattle.std.specs.Prelude.{◌≡◌};
ghost use Rattle.tp_session.specs.Acted.{Rounds, Serves};
ghost use Rattle.tp_session.specs.Drains.{has_taken, round, rounds, turn_in_round};

use crate::server::Server;
use std::alloc::AllocError;
use tp_answers::Told;
use tp_server::Order;
use tp_store::store::Store;

/// How many rounds a drain has at most: a server that feeds itself would never end one.
pub const MAX_ROUNDS_OF_DRAIN: u32 = 1_000;

/// Whether a turn that is told so took an element.
fn has_taken(told: &Told) -> bool
    ensures { result ≡ has_taken told.now }
{
    match told {
        Told::Idle => false,
        _ => true,
    }
}

/// A server's turn in a round, if it takes part.
fn turn_in_round(server: &mut Server, store: &mut Store, order: Order) -> Result<Told, AllocError>
    ensures { Serves result server.new store.new (turn_in_round order server.old store.old) }
{
    if server.takes_part() {
        server.turn(store, order)
    } else {
        Ok(Told::Idle)
    }
}

/// Each server takes one turn, in their order: whether one of them took an element.
fn round(servers: &mut [Server], store: &mut Store, order: Order) -> Result<bool, AllocError>
    ensures { Rounds result servers.new store.new (round order servers.old store.old) }
{
    match servers.split_first_mut() {
        None => Ok(false),
        Some((first, others)) => {
            let told = turn_in_round(first, store, order)?;
            let rest = round(others, store, order)?;
            Ok(has_taken(&told) || rest)
        }
    }
}

/// Rounds, one after another, until nothing is taken in one, and `most` at most: whether something was taken
/// in the last one.
pub(crate) fn drain(
    servers: &mut [Server],
    store: &mut Store,
    order: Order,
    most: u32,
) -> Result<bool, AllocError>
    ensures { Rounds result servers.new store.new (rounds order most servers.old store.old) }
{
    for past in 0..most {
        if !round(servers, store, order)? {
            return Ok(false);
        }
    }
    Ok(true)
}
