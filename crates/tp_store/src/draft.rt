//! Drafts: elements before they are born.
ghost use Rattle.std.specs.Prelude.{◌≡◌, ◌≤◌, ◌↔◌, IsSome, IfSome};
ghost use Rattle.tp_model.specs.Drafts.{DraftView};
ghost use Rattle.tp_store.specs.declared.element.TheConstants.{LAST_STAGE};

use crate::element::{LAST_STAGE, REPLY_STAGE};
use std::marker::Model;
use tp_model::types::{BODY_WORDS, Body};

/// A request, or an output of a unit of work, before it is born. Its stage is 1 to 999.
#[derive(Clone, Copy, Debug, PartialEq, Eq)]
pub struct Draft {
    body: Body,
    stage: u16,
}

impl Model for Draft {
    ghost use Rattle.std.specs.Prelude.{◌≤◌};
    ghost use Rattle.tp_model.specs.Drafts.{DraftView};
    ghost use Rattle.tp_model.specs.Steps.{IsBody};
    ghost use Rattle.tp_store.specs.declared.element.TheConstants.{LAST_STAGE};

    ghost Value = { DraftView };

    ghost view = { λ d. record { stage = d.stage; body = d.body } };

    ghost invariant = { λ d. (1 ≤ d.stage) × (d.stage ≤ LAST_STAGE) × IsBody d.body };

    ghost inverse = { λ d. record { stage = d.stage; body = d.body } };
}

/// The draft that fills unused places: a reply with a body of zeros.
impl Default for Draft {
    ghost use Rattle.std.specs.Prelude.{[], ◌∷◌};
    ghost use Rattle.tp_store.specs.declared.element.TheConstants.{REPLY_STAGE};

    ghost is_default = { λ d. d ≡ record { stage = REPLY_STAGE; body = 0 ∷ 0 ∷ 0 ∷ 0 ∷ [] } };

    fn default() -> Draft {
        Draft {
            stage: REPLY_STAGE,
            body: [0; BODY_WORDS],
        }
    }
}

impl Draft {
    ghost use Rattle.tp_store.specs.declared.element.TheConstants.{LAST_STAGE};

    /// A draft for a stage, or `None` unless the stage is 1 to 999.
    pub fn new(stage: u16, body: Body) -> Option<Draft>
        ensures some { IsSome result ↔ ((1 ≤ stage) × (stage ≤ LAST_STAGE)) }
        ensures value { IfSome result (λ d. d ≡ record { stage = stage; body = body }) }
    {
        if stage >= 1 && stage <= LAST_STAGE {
            Some(Draft { body, stage })
        } else {
            None
        }
    }

    /// The stage, 1 to 999.
    pub fn stage(&self) -> u16
        ensures value { result ≡ self.now.stage }
        ensures low { 1 ≤ result }
        ensures high { result ≤ LAST_STAGE }
    {
        self.stage
    }

    /// The body.
    pub fn body(&self) -> Body
        ensures { result ≡ self.now.body }
    {
        self.body
    }
}
