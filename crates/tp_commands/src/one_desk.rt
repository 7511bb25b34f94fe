//! A command on one desk, by the passes of all.
ghost use Rattle.std.specs.Prelude.{◌≡◌, ◌+◌, ◌<◌, ◌≤◌, IfOk, length, string_bytes};
ghost use Rattle.tp_manager.specs.Shown.{numbers};
ghost use Rattle.tp_commands.specs.Places.{firsts};
ghost use Rattle.tp_commands.specs.Scenes.{Scene};
ghost use Rattle.tp_commands.specs.Told.{AreReady, IsScene, ServerLine, units_held};
ghost use Rattle.tp_script.specs.Script.{head_view};

use crate::desks::desk_line;
use crate::means::Means;
use crate::place::Place;
use std::alloc::AllocError;
use std::string::String;
use tp_manager::Pass;
use tp_script::DeskAct;
use tp_server::Server;

/// Has the desk of a server do what is asked, and answers the line of its answer. The passes are all: the
/// client's, then one for each server, then others, which may have units open and keep them.
pub fn desk_in(
    means: &Means,
    passes: &mut [Pass],
    servers: &mut [Box<dyn Server + Send>],
    places: &mut [Place],
    server: usize,
    act: DeskAct,
) -> Result<String, AllocError>
    requires ready { AreReady behaviour registers pending means.now.manager.now passes.old servers.old
        places.old }
    requires as_many { length places.old ≡ length means.now.head.now.servers.items }
    requires enough { 1 + length servers.old ≤ length passes.old }
    requires in_range { server < length means.now.head.now.servers.items }
    ensures ready { AreReady behaviour registers pending means.now.manager.now passes.new servers.new
        places.new }
    ensures as_many { length places.new ≡ length places.old }
    ensures began { firsts places.new ≡ firsts places.old }
    ensures numbered { numbers passes.new ≡ numbers passes.old }
    ensures held { units_held (length servers.old) passes.new ≡ units_held (length servers.old) passes.old }
    ensures tells { IfOk result (λ text. (old : Scene) × (new : Scene)
        × IsScene behaviour registers pending passes.old servers.old places.old old
        × ServerLine means.now.manager.now (head_view means.now.head.now).servers act server old
        (string_bytes text) new
        × IsScene behaviour registers pending passes.new servers.new places.new new) }
{
    let Some((_client, others)) = passes.split_first_mut() else {
        unreachable!();
    };
    let (workers, _rest) = others.split_at_mut(servers.len());
    desk_line(means, workers, servers, places, server, act)
}
