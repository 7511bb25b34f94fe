//! Ends: a request on which no work goes on is noted, and those that ended long ago are forgotten.
ghost use Rattle.std.specs.Prelude.{◌≡◌, ◌<◌, ◌++◌, [], ◌∷◌, true, false};
ghost use Rattle.std.specs.VecDeque.{deque_len, deque_capacity};
ghost use Rattle.tp_store.specs.Ends.{ended_in, forget, forget_one, is_over};
ghost use Rattle.tp_store.specs.Shelves.{IsFewer};
ghost use Rattle.tp_store.specs.declared.ends.TheConstants.{FORGET_STEPS};

use crate::group::Group;
use crate::shelf::Shelf;
use std::collections::VecDeque;

/// How many steps of forgetting are made behind each birth and each end.
pub(crate) const FORGET_STEPS: u8 = 8;

/// Notes a request as ended, where it is over. Where it is known to go on, nothing is looked at.
pub(crate) fn note_end(shelf: &Shelf, ended: &mut VecDeque<u64>, root: u64, goes_on: bool)
    requires goes_on { goes_on ≡ true → is_over root shelf.now ≡ false }
    requires room { deque_len ended.old < deque_capacity ended.old }
    ensures { ended.new.items ≡ ended_in root shelf.now ended.old.items }
{
    if !goes_on && shelf.is_over(root) {
        let _ = ended.push_back(root);
    }
}

/// Forgets some of what ended first, where more requests have ended than are kept.
pub(crate) fn forget(shelf: &mut Shelf, ended: &mut VecDeque<u64>, keep: u64)
    ensures forgets { record { elements = shelf.new; ended = ended.new.items }
        ≡ forget FORGET_STEPS keep (record { elements = shelf.old; ended = ended.old.items }) }
    ensures fewer { IsFewer shelf.old shelf.new }
{
    for _step in 0..FORGET_STEPS {
        forget_one(shelf, ended, keep);
    }
}

fn forget_one(shelf: &mut Shelf, ended: &mut VecDeque<u64>, keep: u64)
    ensures forgets { record { elements = shelf.new; ended = ended.new.items }
        ≡ forget_one keep (record { elements = shelf.old; ended = ended.old.items }) }
    ensures fewer { IsFewer shelf.old shelf.new }
{
    if ended.len() as u64 <= keep {
        return;
    }
    let Some(root) = ended.front().copied() else {
        return;
    };
    match shelf.first(Group::Family(root), 0) {
        Some((id, _)) => shelf.remove(id),
        None => {
            let _ = ended.pop_front();
        }
    }
}
