//! What each kind of step says to the functions of this crate, in the numbers of the table, and how seats are
//! cut and joined.
ghost use Rattle.tp_rule.specs.Plays.{Telling, loads, loads_head, stores_word, stores_head, publishes};
ghost use Rattle.tp_rule.specs.Plays.{chooses, exchanges_claim, exchanges_commit, exchanges_abort};
ghost use Rattle.tp_rule.specs.Plays.{exchanges_kill, exchanges_requeue, loads_mark, raises, loads_drawn};
ghost use Rattle.tp_rule.specs.Plays.{draws, loads_unit, voids};
ghost use Rattle.tp_rule.specs.Views.{spent};
ghost use Rattle.tp_rule.specs.Steps.{handed_on, handed_out, kept, parted, joined};

use crate::view::View;
use atomic_table::{Join, Split};

/// What a step makes of the seat's view, and what it says.
pub(crate) trait Effect {
    // Of the place, the one or two numbers that the step takes, the view before, the number found (at a
    // store, the number stored) and the view after.
    ghost told: { Telling };
}

pub(crate) struct Load;

impl Effect for Load {
    ghost told = { loads };
}

/// The load of a head, which the seat remembers.
pub(crate) struct LoadHead;

impl Effect for LoadHead {
    ghost told = { loads_head };
}

/// The load of a unit's word.
pub(crate) struct LoadUnit;

impl Effect for LoadUnit {
    ghost told = { loads_unit };
}

pub(crate) struct DraftWord;

impl Effect for DraftWord {
    ghost told = { stores_word };
}

pub(crate) struct DraftHead;

impl Effect for DraftHead {
    ghost told = { stores_head };
}

pub(crate) struct Publish;

impl Effect for Publish {
    ghost told = { publishes };
}

pub(crate) struct UnitChoice;

impl Effect for UnitChoice {
    ghost told = { chooses };
}

pub(crate) struct ClaimExchange;

impl Effect for ClaimExchange {
    ghost told = { exchanges_claim };
}

pub(crate) struct CommitExchange;

impl Effect for CommitExchange {
    ghost told = { exchanges_commit };
}

pub(crate) struct AbortExchange;

impl Effect for AbortExchange {
    ghost told = { exchanges_abort };
}

pub(crate) struct KillExchange;

impl Effect for KillExchange {
    ghost told = { exchanges_kill };
}

pub(crate) struct RequeueExchange;

impl Effect for RequeueExchange {
    ghost told = { exchanges_requeue };
}

/// The load of a mark, which the seat remembers.
pub(crate) struct LoadMark;

impl Effect for LoadMark {
    ghost told = { loads_mark };
}

pub(crate) struct Raise;

impl Effect for Raise {
    ghost told = { raises };
}

/// The load of the counter of drawn blocks, which the seat remembers.
pub(crate) struct LoadDrawn;

impl Effect for LoadDrawn {
    ghost told = { loads_drawn };
}

pub(crate) struct Draw;

impl Effect for Draw {
    ghost told = { draws };
}

pub(crate) struct Void;

impl Effect for Void {
    ghost told = { voids };
}

/// The first pass goes to a new seat.
pub(crate) struct HandOut;

impl Split<View> for HandOut {
    ghost left = { handed_on };

    ghost right = { handed_out };
}

/// The first pass stays, and the others go to a new seat.
pub(crate) struct Part;

impl Split<View> for Part {
    ghost left = { kept };

    ghost right = { parted };
}

/// The passes of both seats go to one of them.
pub(crate) struct Together;

impl Join<View> for Together {
    ghost both = { joined };

    ghost spent = { spent };
}
