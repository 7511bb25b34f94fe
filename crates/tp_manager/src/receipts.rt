//! Receipts: what one pass has seen, for another to have seen too.
ghost use Rattle.std.specs.Prelude.{◌≡◌};
ghost use Rattle.tp_manager.specs.Shown.{IsOf};
ghost use Rattle.tp_manager.specs.Bounds.{follow_steps, receipt_steps};
ghost use Rattle.tp_manager.specs.Calls.{Follows, HasLooked, IsQuiet};
ghost use Rattle.tp_manager.specs.Receipts.{FollowsReceipt, IsReceiptOf, LeavesReceipt};

use crate::manager::{Manager, Pass};
use std::marker::Model;
use tp_rule::Seat;

/// What a pass had seen when it left this. Whoever is handed it can have another pass of the manager follow
/// it. When the program runs it has no bytes, and it keeps nothing in the manager.
#[derive(Drop)]
pub struct Receipt {
    seat: Seat,
}

impl Model for Receipt {
    ghost use Rattle.tp_rule.specs.Receipts.{IsReceipt};
    ghost use Rattle.tp_manager.specs.Receipts.{ReceiptShown};

    ghost Value = { ReceiptShown };

    ghost view = { λ r. record { table = r.seat.table; seen = r.seat.view.seen } };

    ghost invariant = { λ r. IsReceipt r.seat.view };
}

impl Manager {
    /// The pass leaves a receipt of all that it has seen: of its own calls so far, and of what these saw of
    /// others. This costs one step, and changes nothing else.
    pub fn receipt(&self, pass: &mut Pass) -> Receipt
        requires own { IsOf self.now pass.old }
        ensures own { IsOf self.now pass.new }
        ensures at_manager { IsReceiptOf self.now result }
        ensures turn { pass.new.from ≡ pass.old.from }
        ensures follows { Follows receipt_steps pass.old pass.new }
        ensures quiet { IsQuiet pass.old pass.new }
        ensures leaves { LeavesReceipt pass.old pass.new result }
    {
        Receipt {
            seat: self.shared.words.leave(&mut pass.seat),
        }
    }

    /// The pass follows a receipt of the manager: it has then seen all that the pass which left the receipt
    /// had seen by then. So each of its later calls answers at a point behind all of that. This costs two
    /// steps, and changes nothing else.
    pub fn follow(&self, pass: &mut Pass, receipt: Receipt)
        requires own { IsOf self.now pass.old }
        requires at_manager { IsReceiptOf self.now receipt }
        ensures own { IsOf self.now pass.new }
        ensures turn { pass.new.from ≡ pass.old.from }
        ensures follows { Follows follow_steps pass.old pass.new }
        ensures quiet { IsQuiet pass.old pass.new }
        ensures looks { HasLooked pass.old pass.new }
        ensures follows_receipt { FollowsReceipt receipt pass.old pass.new }
    {
        self.shared.words.follow(&mut pass.seat, receipt.seat);
    }
}
