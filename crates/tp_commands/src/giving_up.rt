//! A desk gives up what it has in hand, before all desks end.
ghost use Rattle.std.specs.Prelude.{◌≡◌, ◌<◌, All, length};
ghost use Rattle.tp_manager.specs.Shown.{IsOf};
ghost use Rattle.tp_commands.specs.Acting.{GivesUpAt, GivesUpIn, place_shown, places_shown};
ghost use Rattle.tp_commands.specs.Places.{AllLie, Lies, first_of, firsts};

use crate::desks::give_up;
use crate::place::Place;
use tp_desk::Desk;
use tp_manager::{Manager, Pass};
use tp_server::Server;

/// Has the desk at one of the places give up what it has in hand, if it has something.
pub fn give_up_in(
    manager: &Manager,
    passes: &mut [Pass],
    servers: &mut [Box<dyn Server + Send>],
    places: &mut [Place],
    at: usize,
)
    requires own { All (IsOf manager.now) passes.old }
    requires lie { AllLie behaviour registers pending passes.old servers.old places.old }
    requires within { at < length places.old }
    ensures own { All (IsOf manager.now) passes.new }
    ensures lie { AllLie behaviour registers pending passes.new servers.new places.new }
    ensures as_many { length places.new ≡ length places.old }
    ensures began { firsts places.new ≡ firsts places.old }
    ensures gives_up { GivesUpIn manager.now.limits at
        (places_shown behaviour registers pending passes.old servers.old places.old)
        (places_shown behaviour registers pending passes.new servers.new places.new) }
{
    give_up_at(manager, &mut passes[at], &mut servers[at], &mut places[at]);
}

/// Has the desk at a place give up what it laid aside.
fn give_up_at(
    manager: &Manager,
    pass: &mut Pass,
    server: &mut Box<dyn Server + Send>,
    place: &mut Place,
)
    requires own { IsOf manager.now pass.old }
    requires lies { Lies behaviour registers pending pass.old server.old place.old.aside }
    ensures own { IsOf manager.now pass.new }
    ensures lies { Lies behaviour registers pending pass.new server.new place.new.aside }
    ensures began { first_of place.new ≡ first_of place.old }
    ensures gives_up { GivesUpAt manager.now.limits
        (place_shown behaviour registers pending pass.old server.old place.old)
        (place_shown behaviour registers pending pass.new server.new place.new) }
{
    let Some(aside) = place.aside.take() else {
        unreachable!();
    };
    let mut desk = Desk::resume(manager, pass, server, aside);
    give_up(&mut desk);
    place.aside = Some(desk.lay_aside());
}
