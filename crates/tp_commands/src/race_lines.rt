//! A race as a command: by which passes, and its line.
ghost use Rattle.std.specs.Prelude.{◌≡◌, ◌+◌, ◌≤◌, All, IfOk, length, string_bytes};
ghost use Rattle.tp_manager.specs.Accounts.{AreAll};
ghost use Rattle.tp_manager.specs.Shown.{IsKeptBy, IsOf, numbers};
ghost use Rattle.tp_workers.specs.Free.{IsFreePass};
ghost use Rattle.tp_commands.specs.Places.{AllLie, firsts};
ghost use Rattle.tp_commands.specs.Scenes.{Scene, scene};
ghost use Rattle.tp_commands.specs.Told.{AreReady, IsScene, RaceFree, RaceLine, Raced, RacedAll};
ghost use Rattle.tp_commands.specs.Together.{AreStillFree};
ghost use Rattle.tp_commands.specs.Told.{units_held};
ghost use Rattle.tp_script.specs.Passes.{racers as racers_of};
ghost use Rattle.tp_script.specs.Ranges.{IsRaceInRange};
ghost use Rattle.tp_script.specs.Script.{head_view};
ghost use Rattle.tp_script.specs.declared.head.Act.TheVariants as act;

use crate::place::Place;
use crate::racing::{Racing, run_race};
use std::alloc::AllocError;
use std::string::String;
use std::thread::Threads;
use tp_manager::{Keeper, Pass};
use tp_report::{Answer, line};
use tp_server::Server;

/// Performs a race by the passes of its clients and killers, and answers its line.
fn race_line<R: Threads + Sync>(
    racing: &Racing<R>,
    client: &Pass,
    passes: &mut [Pass],
    servers: &mut [Box<dyn Server + Send>],
    places: &mut [Place],
    racers: &mut [Pass],
) -> Result<String, AllocError>
    requires own { All (IsOf racing.now.manager.now) passes.old }
    requires lie { AllLie behaviour registers pending passes.old servers.old places.old }
    requires as_many { length places.old ≡ length racing.now.head.now.servers.items }
    requires racers { All (IsFreePass racing.now.manager.now) racers.old }
    requires enough { length racers.old ≡ racers_of (act.Race racing.now.plan) }
    requires in_range { IsRaceInRange racing.now.plan }
    ensures own { All (IsOf racing.now.manager.now) passes.new }
    ensures lie { AllLie behaviour registers pending passes.new servers.new places.new }
    ensures as_many { length places.new ≡ length places.old }
    ensures began { firsts places.new ≡ firsts places.old }
    ensures racers { AreStillFree racing.now.manager.now racers.old racers.new }
    ensures tells { IfOk result (λ text.
        RaceLine racing.now.manager.now racing.now.head.now.settings.rows racing.now.plan
        (scene behaviour registers pending client.now passes.old servers.old places.old racers.old)
        (string_bytes text)
        (scene behaviour registers pending client.now passes.new servers.new places.new racers.new)) }
{
    // What is read is known to be in its type's range.
    let _clients = racing.plan.clients;
    let _killers = racing.plan.killers;
    let submitted = run_race(racing, passes, servers, places, racers)?;
    line(racing.alloc, Answer::Raced { submitted })
}

/// Performs a race by the passes that it needs of all: those of the servers, and its own, which lie behind so
/// many others.
pub(crate) fn race_in<R: Threads + Sync>(
    racing: &Racing<R>,
    passes: &mut [Pass],
    servers: &mut [Box<dyn Server + Send>],
    places: &mut [Place],
) -> Result<String, AllocError>
    requires ready { AreReady behaviour registers pending racing.now.manager.now passes.old servers.old
        places.old }
    requires free { RaceFree racing.now.manager.now (length servers.old) racing.now.behind
        (racers_of (act.Race racing.now.plan)) passes.old }
    requires as_many { length places.old ≡ length racing.now.head.now.servers.items }
    requires enough { 1 + length servers.old + racing.now.behind + racers_of (act.Race racing.now.plan)
        ≤ length passes.old }
    requires in_range { IsRaceInRange racing.now.plan }
    ensures ready { AreReady behaviour registers pending racing.now.manager.now passes.new servers.new
        places.new }
    ensures held { units_held (length servers.old) passes.new ≡ units_held (length servers.old) passes.old }
    ensures as_many { length places.new ≡ length places.old }
    ensures began { firsts places.new ≡ firsts places.old }
    ensures numbered { numbers passes.new ≡ numbers passes.old }
    ensures tells { IfOk result (λ text. (old : Scene) × (new : Scene)
        × IsScene behaviour registers pending passes.old servers.old places.old old
        × Raced racing.now.manager.now (head_view racing.now.head.now) racing.now.plan racing.now.behind
        old (string_bytes text) new
        × IsScene behaviour registers pending passes.new servers.new places.new new) }
{
    let Some((client, others)) = passes.split_first_mut() else {
        unreachable!();
    };
    let (workers, rest) = others.split_at_mut(servers.len());
    let (_before, racers) = rest.split_at_mut(racing.behind);
    let needed = usize::from(racing.plan.clients) + usize::from(racing.plan.killers);
    let (here, _after) = racers.split_at_mut(needed);
    race_line(racing, client, workers, servers, places, here)
}

/// Performs a race, after which all passes gather, and answers its line. The passes are all that the keeper
/// gave out: the client's, then one for each server, then others, of which so many stand before those of the
/// race.
pub fn race_next<R: Threads + Sync>(
    racing: &Racing<R>,
    keeper: &mut Keeper,
    passes: &mut [Pass],
    servers: &mut [Box<dyn Server + Send>],
    places: &mut [Place],
) -> Result<String, AllocError>
    requires keeper { IsKeptBy racing.now.manager.now keeper.old }
    requires given { AreAll keeper.old passes.old }
    requires ready { AreReady behaviour registers pending racing.now.manager.now passes.old servers.old
        places.old }
    requires free { RaceFree racing.now.manager.now (length servers.old) racing.now.behind
        (racers_of (act.Race racing.now.plan)) passes.old }
    requires as_many { length places.old ≡ length racing.now.head.now.servers.items }
    requires enough { 1 + length servers.old + racing.now.behind + racers_of (act.Race racing.now.plan)
        ≤ length passes.old }
    requires in_range { IsRaceInRange racing.now.plan }
    ensures keeper { IsKeptBy racing.now.manager.now keeper.new }
    ensures given { keeper.new.given ≡ keeper.old.given }
    ensures all { AreAll keeper.new passes.new }
    ensures ready { AreReady behaviour registers pending racing.now.manager.now passes.new servers.new
        places.new }
    ensures held { units_held (length servers.old) passes.new ≡ units_held (length servers.old) passes.old }
    ensures as_many { length places.new ≡ length places.old }
    ensures began { firsts places.new ≡ firsts places.old }
    ensures numbered { numbers passes.new ≡ numbers passes.old }
    ensures tells { IfOk result (λ text. (old : Scene) × (new : Scene)
        × IsScene behaviour registers pending passes.old servers.old places.old old
        × RacedAll racing.now.manager.now (head_view racing.now.head.now) racing.now.plan racing.now.behind
        keeper.old old (string_bytes text) keeper.new new
        × IsScene behaviour registers pending passes.new servers.new places.new new) }
{
    let line = race_in(racing, passes, servers, places)?;
    keeper.gather(racing.manager, passes);
    Ok(line)
}
