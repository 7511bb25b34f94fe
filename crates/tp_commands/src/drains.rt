//! The commands `drain` and `drain next`: the free desks take turns in rounds, on the caller's thread.
ghost use Rattle.std.specs.Prelude.{◌≡◌, ◌+◌, ◌⊎◌, ◌≤◌, ◌<◌, IfOk, MatchOption, length, string_bytes, true};
ghost use Rattle.tp_manager.specs.Accounts.{AreAll};
ghost use Rattle.tp_manager.specs.Shown.{IsKeptBy, numbers};
ghost use Rattle.tp_commands.specs.Acting.{StaysIn, TurnsIn};
ghost use Rattle.tp_commands.specs.Places.{firsts};
ghost use Rattle.tp_commands.specs.Drains.{Drains, Round, Turn, turn_claimed};
ghost use Rattle.tp_commands.specs.Scenes.{OnlyPlaces, Scene};
ghost use Rattle.tp_commands.specs.Told.{AreReady, IsScene, units_held};
ghost use Rattle.tp_commands.specs.Units.{all_units_left};

use crate::desks::turn_in;
use crate::place::Place;
use std::alloc::{AllocError, Global};
use std::string::String;
use tp_desk::{Order, Turned};
use tp_manager::{Keeper, Manager, Pass};
use tp_report::{Answer, line};
use tp_server::Server;

/// Has the free desks take turns in rounds, whose claims are in this order, until a whole round claims
/// nothing, and returns its line. The passes are all that the keeper gave out: the client's, then one for
/// each server, then others. They gather after each turn.
pub fn drain_line(
    alloc: Global,
    manager: &Manager,
    keeper: &mut Keeper,
    passes: &mut [Pass],
    servers: &mut [Box<dyn Server + Send>],
    places: &mut [Place],
    order: Order,
) -> Result<String, AllocError>
    requires keeper { IsKeptBy manager.now keeper.old }
    requires given { AreAll keeper.old passes.old }
    requires ready { AreReady behaviour registers pending manager.now passes.old servers.old places.old }
    requires enough { 1 + length servers.old ≤ length passes.old }
    ensures keeper { IsKeptBy manager.now keeper.new }
    ensures all { AreAll keeper.new passes.new }
    ensures given { keeper.new.given ≡ keeper.old.given }
    ensures ready { AreReady behaviour registers pending manager.now passes.new servers.new places.new }
    ensures as_many { length places.new ≡ length places.old }
    ensures began { firsts places.new ≡ firsts places.old }
    ensures numbered { numbers passes.new ≡ numbers passes.old }
    ensures held { units_held (length servers.old) passes.new ≡ units_held (length servers.old) passes.old }
    ensures tells { IfOk result (λ text. (old : Scene) × (new : Scene)
        × IsScene behaviour registers pending passes.old servers.old places.old old
        × Drains order manager.now keeper.old old (string_bytes text) keeper.new new
        × IsScene behaviour registers pending passes.new servers.new places.new new) }
{
    'rounds: while round(manager, keeper, passes, servers, places, order) {}
    line(alloc, Answer::Drained)
}

/// Has each free desk take one turn, in the order of the servers. Answers whether any of them claimed an
/// element.
fn round(
    manager: &Manager,
    keeper: &mut Keeper,
    passes: &mut [Pass],
    servers: &mut [Box<dyn Server + Send>],
    places: &mut [Place],
    order: Order,
) -> bool
    requires keeper { IsKeptBy manager.now keeper.old }
    requires given { AreAll keeper.old passes.old }
    requires ready { AreReady behaviour registers pending manager.now passes.old servers.old places.old }
    requires enough { 1 + length servers.old ≤ length passes.old }
    ensures keeper { IsKeptBy manager.now keeper.new }
    ensures all { AreAll keeper.new passes.new }
    ensures given { keeper.new.given ≡ keeper.old.given }
    ensures ready { AreReady behaviour registers pending manager.now passes.new servers.new places.new }
    ensures as_many { length places.new ≡ length places.old }
    ensures began { firsts places.new ≡ firsts places.old }
    ensures numbered { numbers passes.new ≡ numbers passes.old }
    ensures held { units_held (length servers.old) passes.new ≡ units_held (length servers.old) passes.old }
    ensures turns { (old : Scene) × (new : Scene)
        × IsScene behaviour registers pending passes.old servers.old places.old old
        × Round order manager.now keeper.old old result keeper.new new
        × IsScene behaviour registers pending passes.new servers.new places.new new }
    ensures fewer { result ≡ true
        → all_units_left manager.now.limits passes.new < all_units_left manager.now.limits passes.old }
{
    let mut claims = false;
    for at in 0..places.len() {
        if turn(manager, keeper, passes, servers, places, order, at) {
            claims = true;
        }
    }
    claims
}

/// Has the desk at one of the places take a turn, if it is free, and then all passes gather. Answers whether
/// it claimed an element.
fn turn(
    manager: &Manager,
    keeper: &mut Keeper,
    passes: &mut [Pass],
    servers: &mut [Box<dyn Server + Send>],
    places: &mut [Place],
    order: Order,
    at: usize,
) -> bool
    requires keeper { IsKeptBy manager.now keeper.old }
    requires given { AreAll keeper.old passes.old }
    requires ready { AreReady behaviour registers pending manager.now passes.old servers.old places.old }
    requires enough { 1 + length servers.old ≤ length passes.old }
    requires within { at < length places.old }
    ensures keeper { IsKeptBy manager.now keeper.new }
    ensures all { AreAll keeper.new passes.new }
    ensures given { keeper.new.given ≡ keeper.old.given }
    ensures ready { AreReady behaviour registers pending manager.now passes.new servers.new places.new }
    ensures as_many { length places.new ≡ length places.old }
    ensures began { firsts places.new ≡ firsts places.old }
    ensures numbered { numbers passes.new ≡ numbers passes.old }
    ensures held { units_held (length servers.old) passes.new ≡ units_held (length servers.old) passes.old }
    ensures turn { (old : Scene) × (new : Scene)
        × IsScene behaviour registers pending passes.old servers.old places.old old
        × Turn order manager.now at keeper.old old result keeper.new new
        × IsScene behaviour registers pending passes.new servers.new places.new new }
{
    let Some(turned) = turn_of_all(manager, passes, servers, places, order, at) else {
        return false;
    };
    keeper.gather(manager, passes);
    claims(turned)
}

/// Whether a turn claimed an element.
fn claims(turned: Turned) -> bool
    ensures { result ≡ turn_claimed turned }
{
    match turned {
        Turned::Idle | Turned::NoUnit => false,
        Turned::Done { .. } | Turned::Refused { .. } | Turned::Lost { .. } | Turned::Full { .. } =>
            true,
    }
}

/// Has the desk at one of the places take a turn, or answers `None` where it isn't free. The passes are all,
/// from the client's on.
fn turn_of_all(
    manager: &Manager,
    passes: &mut [Pass],
    servers: &mut [Box<dyn Server + Send>],
    places: &mut [Place],
    order: Order,
    at: usize,
) -> Option<Turned>
    requires ready { AreReady behaviour registers pending manager.now passes.old servers.old places.old }
    requires enough { 1 + length servers.old ≤ length passes.old }
    requires within { at < length places.old }
    ensures ready { AreReady behaviour registers pending manager.now passes.new servers.new places.new }
    ensures as_many { length places.new ≡ length places.old }
    ensures began { firsts places.new ≡ firsts places.old }
    ensures numbered { numbers passes.new ≡ numbers passes.old }
    ensures held { units_held (length servers.old) passes.new ≡ units_held (length servers.old) passes.old }
    ensures turn { (old : Scene) × (new : Scene)
        × IsScene behaviour registers pending passes.old servers.old places.old old
        × OnlyPlaces old new
        × MatchOption result (StaysIn at old.places new.places)
        (λ turned. TurnsIn order manager.now.limits at old.places turned new.places)
        × IsScene behaviour registers pending passes.new servers.new places.new new }
{
    let Some((_client, others)) = passes.split_first_mut() else {
        unreachable!();
    };
    let (workers, _racers) = others.split_at_mut(servers.len());
    turn_in(manager, workers, servers, places, at, order)
}
