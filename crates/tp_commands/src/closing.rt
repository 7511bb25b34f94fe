//! After the last command, and after a fault: the desks give up what they have in hand, one after another.
ghost use Rattle.std.specs.Prelude.{◌≡◌, ◌+◌, ◌≤◌, ◌<◌, length};
ghost use Rattle.tp_manager.specs.Accounts.{AreAll};
ghost use Rattle.tp_manager.specs.Shown.{IsKeptBy, numbers};
ghost use Rattle.tp_commands.specs.Acting.{GivesUpIn};
ghost use Rattle.tp_commands.specs.Places.{firsts};
ghost use Rattle.tp_commands.specs.GivingUp.{GiveUpAll, DeskGivesUp};
ghost use Rattle.tp_commands.specs.Scenes.{OnlyPlaces, Scene};
ghost use Rattle.tp_commands.specs.Told.{AreReady, IsScene, units_held};

use crate::giving_up::give_up_in;
use crate::place::Place;
use tp_manager::{Keeper, Manager, Pass};
use tp_server::Server;

/// Has each desk give up what it has in hand, in the order of the servers. The passes are all that the keeper
/// gave out: the client's, then one for each server, then those of races. They gather behind each desk, so
/// that what is counted afterwards is what a manager of one thread counts.
pub fn give_up_all(
    manager: &Manager,
    keeper: &mut Keeper,
    passes: &mut [Pass],
    servers: &mut [Box<dyn Server + Send>],
    places: &mut [Place],
)
    requires keeper { IsKeptBy manager.now keeper.old }
    requires given { AreAll keeper.old passes.old }
    requires ready { AreReady behaviour registers pending manager.now passes.old servers.old places.old }
    requires enough { 1 + length servers.old ≤ length passes.old }
    ensures keeper { IsKeptBy manager.now keeper.new }
    ensures all { AreAll keeper.new passes.new }
    ensures given { keeper.new.given ≡ keeper.old.given }
    ensures ready { AreReady behaviour registers pending manager.now passes.new servers.new places.new }
    ensures as_many { length places.new ≡ length places.old }
    ensures began { firsts places.new ≡ firsts places.old }
    ensures numbered { numbers passes.new ≡ numbers passes.old }
    ensures held { units_held (length servers.old) passes.new ≡ units_held (length servers.old) passes.old }
    ensures gives_up { (old : Scene) × (new : Scene)
        × IsScene behaviour registers pending passes.old servers.old places.old old
        × GiveUpAll manager.now keeper.old old keeper.new new
        × IsScene behaviour registers pending passes.new servers.new places.new new }
{
    for at in 0..places.len() {
        give_up(manager, keeper, passes, servers, places, at);
    }
}

/// Has the desk at one of the places give up what it has in hand, and then all passes gather.
fn give_up(
    manager: &Manager,
    keeper: &mut Keeper,
    passes: &mut [Pass],
    servers: &mut [Box<dyn Server + Send>],
    places: &mut [Place],
    at: usize,
)
    requires keeper { IsKeptBy manager.now keeper.old }
    requires given { AreAll keeper.old passes.old }
    requires ready { AreReady behaviour registers pending manager.now passes.old servers.old places.old }
    requires enough { 1 + length servers.old ≤ length passes.old }
    requires within { at < length places.old }
    ensures keeper { IsKeptBy manager.now keeper.new }
    ensures all { AreAll keeper.new passes.new }
    ensures given { keeper.new.given ≡ keeper.old.given }
    ensures ready { AreReady behaviour registers pending manager.now passes.new servers.new places.new }
    ensures as_many { length places.new ≡ length places.old }
    ensures began { firsts places.new ≡ firsts places.old }
    ensures numbered { numbers passes.new ≡ numbers passes.old }
    ensures held { units_held (length servers.old) passes.new ≡ units_held (length servers.old) passes.old }
    ensures gives_up { (old : Scene) × (new : Scene)
        × IsScene behaviour registers pending passes.old servers.old places.old old
        × DeskGivesUp manager.now at keeper.old old keeper.new new
        × IsScene behaviour registers pending passes.new servers.new places.new new }
{
    give_up_of_all(manager, passes, servers, places, at);
    keeper.gather(manager, passes);
}

/// Has the desk at one of the places give up what it has in hand. The passes are all, from the client's on.
fn give_up_of_all(
    manager: &Manager,
    passes: &mut [Pass],
    servers: &mut [Box<dyn Server + Send>],
    places: &mut [Place],
    at: usize,
)
    requires ready { AreReady behaviour registers pending manager.now passes.old servers.old places.old }
    requires enough { 1 + length servers.old ≤ length passes.old }
    requires within { at < length places.old }
    ensures ready { AreReady behaviour registers pending manager.now passes.new servers.new places.new }
    ensures as_many { length places.new ≡ length places.old }
    ensures began { firsts places.new ≡ firsts places.old }
    ensures numbered { numbers passes.new ≡ numbers passes.old }
    ensures held { units_held (length servers.old) passes.new ≡ units_held (length servers.old) passes.old }
    ensures gives_up { (old : Scene) × (new : Scene)
        × IsScene behaviour registers pending passes.old servers.old places.old old
        × OnlyPlaces old new
        × GivesUpIn manager.now.limits at old.places new.places
        × IsScene behaviour registers pending passes.new servers.new places.new new }
{
    let Some((_client, others)) = passes.split_first_mut() else {
        unreachable!();
    };
    let (workers, _racers) = others.split_at_mut(servers.len());
    give_up_in(manager, workers, servers, places, at);
}
