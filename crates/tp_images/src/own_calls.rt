//! The resizer's stage by the manager's own calls. This form suits work whose books are kept elsewhere:
//! nothing ties a state of the worker to what was committed, and in return the worker needs no `Server`.
ghost use Rattle.std.specs.Prelude.{◌≡◌, ◌+◌, ◌≤◌, []};
ghost use Rattle.tp_desk.specs.Serving.{Serves};
ghost use Rattle.tp_images.specs.Pictures.{spaceless};
ghost use Rattle.tp_workers.specs.Free.{IsFreePass};
ghost use Rattle.tp_workers.specs.Gains.{commits_in};

use tp_manager::{Manager, Pass};
use tp_model::types::{Claimed, Draft, Outcome};

/// Resizes at most this many pictures of stage 2, and reports how many were. A picture of no bytes fails: its
/// unit is aborted, so that it waits again until its attempts are used up.
pub fn resize(manager: &Manager, pass: &mut Pass, turns: u32) -> u32
    requires free { IsFreePass manager.now pass.old }
    ensures free { IsFreePass manager.now pass.new }
    ensures resized { result + commits_in pass.old ≡ commits_in pass.new }
    ensures at_most { result ≤ turns }
    ensures smaller { Serves spaceless [] [] pass.old pass.new }
{
    let mut resized = 0;
    for _turn in 0..turns {
        let Claimed::Work(work) = manager.claim(pass, 2) else {
            break;
        };
        let [format, bytes, customer, job] = work.element.body;
        if bytes == 0 {
            let _ = manager.abort(pass);
            continue;
        }
        let Some(output) = Draft::new(3, [format, bytes / 4, customer, job]) else {
            unreachable!();
        };
        match manager.commit(pass, &[output]) {
            Outcome::Committed { .. } => resized += 1,
            Outcome::Lost => {}
            Outcome::Full => {}
        }
    }
    resized
}
