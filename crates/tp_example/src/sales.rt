//! The orders of a day, worked off.
ghost use Rattle.std.specs.Prelude.{◌≡◌, ◌+◌, ◌≤◌, None};
ghost use Rattle.tp_model.specs.Counts.{taken};
ghost use Rattle.tp_manager.specs.Shown.{IsOf};
ghost use Rattle.tp_desk.specs.Serving.{gained};
ghost use Rattle.tp_server.specs.Books.{Lowers, Raises};
ghost use Rattle.tp_workers.specs.Desks.{DeskWorksOn, place};
ghost use Rattle.tp_workers.specs.Gains.{commits_in};
ghost use Rattle.tp_workers.specs.Plans.{least_first};
ghost use Rattle.tp_workers.specs.declared.tally.Shift.{Shift};
ghost use Rattle.tp_example.specs.Sales.{AddsUp, goods_in, money_in};
ghost use Rattle.tp_example.specs.Shop.{cost, how_many, shop};

use tp_manager::{Manager, Pass};
use tp_server::Server;
use tp_workers::{Plan, work_off};

/// How many turns sold something, and how many declined an order.
#[derive(Clone, Copy, Debug, PartialEq, Eq)]
pub struct Sales {
    pub sold: u32,
    pub short: u32,
}

/// Sells in at most this many turns, or until no order waits. What is left in stock and what the orders took
/// that were committed meanwhile make what there was before, whatever other threads did.
pub fn sell(
    manager: &Manager,
    pass: &mut Pass,
    stock: &mut Box<dyn Server + Send>,
    turns: u32,
) -> Sales
    requires own { IsOf manager.now pass.old }
    requires free { pass.old.open_unit ≡ None }
    requires unprepared { pending stock.old ≡ None }
    requires is_shop { behaviour stock.old ≡ shop }
    ensures own { IsOf manager.now pass.new }
    ensures free { pass.new.open_unit ≡ None }
    ensures unprepared { pending stock.new ≡ None }
    ensures behaviour { behaviour stock.new ≡ behaviour stock.old }
    ensures adds_up { AddsUp (registers stock.old) (registers stock.new)
        (taken (gained pass.old.mine pass.new.mine) pass.new.seen) }
    ensures sold { result.sold + commits_in pass.old ≡ commits_in pass.new }
    ensures short { (counts : Shift) × (result.sold ≡ counts.done) × (result.short ≡ counts.refused)
        × DeskWorksOn (least_first turns) manager.now.limits
        (place behaviour registers pending (pass.old, stock.old)) counts
        (place behaviour registers pending (pass.new, stock.new)) }
    ensures turns { result.sold + result.short ≤ turns }
{
    each_sale();
    let counts = work_off(manager, pass, stock, Plan::least_first(turns));
    Sales {
        sold: counts.done,
        short: counts.refused,
    }
}

/// Each order that is sold takes from the stock what it asks for, and adds what it costs to the takings.
fn each_sale()
    ensures goods { Lowers shop goods_in how_many }
    ensures money { Raises shop money_in cost }
{}
