//! Cancels: all that is open of a request is killed.
ghost use Rattle.std.specs.Prelude.{◌≡◌, ◌≤◌, ◌==◌, ℕ, None, Some, filter, if◌then◌else◌, length};
ghost use Rattle.tp_store.specs.Cancels.{is_open_from, strike_all, struck_if_open};
ghost use Rattle.tp_store.specs.Shelves.{IsFewer};
ghost use Rattle.tp_store.specs.declared.element.TheConstants.{REPLY_STAGE};
ghost use Rattle.tp_store.specs.Elements.{element_at};

use crate::counts::Tally;
use crate::element::{Element, REPLY_STAGE, Status};
use crate::shelf::Shelf;

/// Kills each element of a request on which work goes on, but for its replies. All ids are below `end`. The
/// answer is how many were killed.
pub(crate) fn kill_open(shelf: &mut Shelf, tally: &mut Tally, root: u64, end: u64) -> u64
    requires below { (i : ℕ) → end ≤ i → element_at i shelf.old ≡ None }
    ensures kills { record { elements = shelf.new; tally = tally.new }
        ≡ strike_all (filter (is_open_from root 0) shelf.old) (record { elements = shelf.old; tally = tally.old }) }
    ensures count { result ≡ length (filter (is_open_from root 0) shelf.old) }
    ensures still_below { (i : ℕ) → end ≤ i → element_at i shelf.new ≡ None }
{
    let mut from = 0;
    let mut killed = 0;
    while let Some((id, element)) = shelf.first_alive(root, from) {
        killed += strike(shelf, tally, id, &element);
        from = id + 1;
    }
    killed
}

/// Kills the element, unless it is a reply. The answer is how many were killed.
fn strike(shelf: &mut Shelf, tally: &mut Tally, id: u64, element: &Element) -> u64
    requires there { element_at id shelf.old ≡ Some element.now }
    ensures kills { record { elements = shelf.new; tally = tally.new }
        ≡ struck_if_open (id, element.now) (record { elements = shelf.old; tally = tally.old }) }
    ensures count { result ≡ (if element.now.stage == REPLY_STAGE then 0 else 1) }
    ensures fewer { IsFewer shelf.old shelf.new }
{
    if element.stage == REPLY_STAGE {
        return 0;
    }
    match shelf.replace(id, element, element.standing(Status::Killed)) {
        Ok(()) => {}
        Err(_) => return 0,
    }
    tally.count(element.stage, &Some(element.status), &Status::Killed);
    1
}
