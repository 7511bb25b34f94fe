//! Where a server's desk is between commands.
ghost use Rattle.std.specs.Prelude.{◌≡◌, ◌≤◌, None, All, length, map};
ghost use Rattle.tp_manager.specs.Shown.{IsOf};
ghost use Rattle.tp_workers.specs.Free.{IsFreePass};
ghost use Rattle.tp_commands.specs.Acting.{new_places, place_shown, places_shown};
ghost use Rattle.tp_commands.specs.Places.{AllLeft, AllLie, IsLeft, Lies, all_firsts, first_of, firsts};
ghost use Rattle.tp_commands.specs.Acting.{AllEnded, EndsDesk};
ghost use Rattle.tp_script.specs.declared.script.TheConstants.{MAX_SERVERS};

use arrayvec::ArrayVec;
use tp_desk::{Aside, Desk};
use tp_manager::{Manager, Pass};
use tp_script::MAX_SERVERS;
use tp_server::Server;

/// What is kept of a server's desk between commands, while its pass and its server lie with the others.
#[derive(Default, Drop)]
pub struct Place {
    /// What the desk laid aside. It is gone only while a command is at work.
    pub aside: Option<Aside>,
    /// Whether the desk was dropped: then it has nothing in hand, and works no more.
    pub is_dropped: bool,
}

impl Place {
    ghost use Rattle.tp_commands.specs.Places.{is_free_at};

    /// Whether the desk joins a race or a drain: it wasn't dropped, and has nothing in hand.
    pub fn is_free(&self) -> bool
        ensures { result ≡ is_free_at self.now }
    {
        match &self.aside {
            Some(aside) => !self.is_dropped && !aside.has_open(),
            None => false,
        }
    }
}

/// A place for each server, whose desk has nothing in hand.
pub fn places_for(
    passes: &[Pass],
    servers: &[Box<dyn Server + Send>],
) -> ArrayVec<Place, MAX_SERVERS>
    requires free { All (λ pass. pass.open_unit ≡ None) passes.now }
    requires clear { All (λ server. pending server ≡ None) servers.now }
    requires paired { length passes.now ≡ length servers.now }
    requires few { length servers.now ≤ MAX_SERVERS }
    ensures lie { AllLie behaviour registers pending passes.now servers.now result.items }
    ensures began { firsts result.items ≡ all_firsts passes.now servers.now }
    ensures shown { places_shown behaviour registers pending passes.now servers.now result.items
        ≡ new_places behaviour registers pending passes.now servers.now }
{
    let mut places = ArrayVec::new();
    for i in 0..servers.len() {
        places.push(Place {
            aside: Some(Aside::nothing(&passes[i], &servers[i])),
            is_dropped: false,
        });
    }
    places
}

/// Lays a new desk aside at each place, of one of these passes and of these servers, which have nothing in
/// hand. A desk that was dropped stays dropped.
pub fn begin_again(passes: &[Pass], servers: &[Box<dyn Server + Send>], places: &mut [Place])
    requires free { All (λ pass. pass.open_unit ≡ None) passes.now }
    requires clear { All (λ server. pending server ≡ None) servers.now }
    requires paired { (length passes.now ≡ length places.old) × (length servers.now ≡ length places.old) }
    ensures lie { AllLie behaviour registers pending passes.now servers.now places.new }
    ensures began { firsts places.new ≡ all_firsts passes.now servers.now }
    ensures dropped { map (λ place. place.is_dropped) places.new
        ≡ map (λ place. place.is_dropped) places.old }
{
    let Some((pass, passes)) = passes.split_first() else {
        return;
    };
    let Some((server, servers)) = servers.split_first() else {
        return;
    };
    let Some((place, places)) = places.split_first_mut() else {
        return;
    };
    place.aside = Some(Aside::nothing(pass, server));
    begin_again(passes, servers, places);
}

/// Ends all desks: what they have in hand is given up.
pub fn end_all(
    manager: &Manager,
    passes: &mut [Pass],
    servers: &mut [Box<dyn Server + Send>],
    places: &mut [Place],
)
    requires own { All (IsOf manager.now) passes.old }
    requires lie { AllLie behaviour registers pending passes.old servers.old places.old }
    ensures free { All (IsFreePass manager.now) passes.new }
    ensures clear { All (λ server. pending server ≡ None) servers.new }
    ensures left { AllLeft behaviour registers (firsts places.old) passes.new servers.new }
    ensures ended { AllEnded (places_shown behaviour registers pending passes.old servers.old places.old)
        passes.new (map (λ server. registers server) servers.new) }
{
    let Some((pass, passes)) = passes.split_first_mut() else {
        return;
    };
    let Some((server, servers)) = servers.split_first_mut() else {
        return;
    };
    let Some((place, places)) = places.split_first_mut() else {
        return;
    };
    end_at(manager, pass, server, place);
    end_all(manager, passes, servers, places);
}

/// Ends the desk at a place.
fn end_at(
    manager: &Manager,
    pass: &mut Pass,
    server: &mut Box<dyn Server + Send>,
    place: &mut Place,
)
    requires own { IsOf manager.now pass.old }
    requires lies { Lies behaviour registers pending pass.old server.old place.old.aside }
    ensures free { IsFreePass manager.now pass.new }
    ensures clear { pending server.new ≡ None }
    ensures left { IsLeft behaviour registers (first_of place.old) pass.new server.new }
    ensures ended { EndsDesk (place_shown behaviour registers pending pass.old server.old place.old)
        pass.new (registers server.new) }
{
    let Some(aside) = place.aside.take() else {
        unreachable!();
    };
    Desk::resume(manager, pass, server, aside).end();
}
