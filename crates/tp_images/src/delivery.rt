//! Pictures that are delivered on the caller's own thread.
ghost use Rattle.std.specs.Prelude.{◌≡◌, ◌+◌, ◌≤◌};
ghost use Rattle.tp_model.specs.Counts.{taken};
ghost use Rattle.tp_server.specs.Books.{Raises};
ghost use Rattle.tp_desk.specs.Serving.{gained};
ghost use Rattle.tp_images.specs.Books.{CountsAll, bytes_in, notices_in, one_notice};
ghost use Rattle.tp_images.specs.Pictures.{picture_bytes, notifier};
ghost use Rattle.tp_workers.specs.Desks.{IsDeskOf};
ghost use Rattle.tp_workers.specs.Gains.{commits_in};

use tp_manager::{Manager, Pass};
use tp_server::Server;
use tp_workers::{Plan, work_off};

/// Delivers in at most this many turns, or until no picture waits, and returns how many were. The notices and
/// the bytes that the notifier has counted are those from before and those of the pictures that were
/// committed since, each once, whatever other threads did.
pub fn deliver(
    manager: &Manager,
    pass: &mut Pass,
    server: &mut Box<dyn Server + Send>,
    turns: u32,
) -> u32
    requires ready { IsDeskOf behaviour registers pending manager.now (pass.old, server.old) }
    requires is_notifier { behaviour server.old ≡ notifier }
    ensures ready { IsDeskOf behaviour registers pending manager.now (pass.new, server.new) }
    ensures counts_all { CountsAll (registers server.old) (registers server.new)
        (taken (gained pass.old.mine pass.new.mine) pass.new.seen) }
    ensures delivered { result + commits_in pass.old ≡ commits_in pass.new }
    ensures at_most { result ≤ turns }
{
    each_notice();
    work_off(manager, pass, server, Plan::least_first(turns)).done
}

/// Each notice counts one more, and adds the bytes of its picture.
fn each_notice()
    ensures notices { Raises notifier notices_in one_notice }
    ensures bytes { Raises notifier bytes_in picture_bytes }
{}
