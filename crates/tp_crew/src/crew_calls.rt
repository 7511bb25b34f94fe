//! The calls of a crew's own pass: a client's and an operator's, beside the desks. The desks' folds go on as
//! they were.
ghost use Rattle.std.specs.Prelude.{◌≡◌, ◌≤◌, MatchOption, MatchResult};
ghost use Rattle.tp_model.specs.History.{IsUnborn};
ghost use Rattle.tp_model.specs.declared.types.Refusal.TheVariants as refusals;
ghost use Rattle.tp_manager.specs.Bounds.{cancel_steps, collect_next_steps, kill_steps, next_error_steps};
ghost use Rattle.tp_manager.specs.Bounds.{read_steps, reply_steps, requeue_steps, submit_steps};
ghost use Rattle.tp_manager.specs.Calls.{AtPoint, KillFails, Kills, Reads, SubmitRefused, Submits};
ghost use Rattle.tp_manager.specs.Cancels.{CancelFails, Cancels};
ghost use Rattle.tp_manager.specs.Lists.{AllKilled, CollectsNext, NextError, NextReply, NoneCollected};
ghost use Rattle.tp_manager.specs.Lists.{NoneParked};
ghost use Rattle.tp_manager.specs.Requeues.{RequeueFails, Requeues};

use crate::crew::Crew;
use tp_model::types::{Body, Cancelled, Element, Killed, Look, Refusal};

impl Crew {
    ghost use Rattle.tp_crew.specs.Crew.{IsSteadyCrew, OwnCall};

    /// Puts a client's element with this body into the queue of a stage, as `Manager::submit`. The answer is
    /// its id.
    pub fn submit(&mut self, stage: u8, body: Body) -> Result<u32, Refusal>
        requires steady { IsSteadyCrew behaviour registers pending self.old }
        ensures steady { IsSteadyCrew behaviour registers pending self.new }
        ensures call { OwnCall (submit_steps self.old.managed.manager.limits)
            (λ p q. MatchResult result (λ id. Submits id stage body p q)
            (λ why. SubmitRefused stage p q why)) self.old self.new }
    {
        self.managed
            .manager
            .submit(&mut self.managed.passes[0], stage, body)
    }

    /// The element with this id, and how it stands, as `Manager::read`.
    pub fn read(&mut self, id: u32) -> Result<Look, Refusal>
        requires steady { IsSteadyCrew behaviour registers pending self.old }
        ensures steady { IsSteadyCrew behaviour registers pending self.new }
        ensures call { OwnCall (read_steps self.old.managed.manager.limits)
            (λ p q. MatchResult result (λ look. Reads self.old.managed.manager.limits id p q look)
            (λ why. (why ≡ refusals.NotThere) × AtPoint p q (λ h. IsUnborn h id))) self.old self.new }
    {
        self.managed.manager.read(&mut self.managed.passes[0], id)
    }

    /// Kills the element with this id, as `Manager::kill`.
    pub fn kill(&mut self, id: u32) -> Result<Killed, Refusal>
        requires steady { IsSteadyCrew behaviour registers pending self.old }
        ensures steady { IsSteadyCrew behaviour registers pending self.new }
        ensures call { let l = self.old.managed.manager.limits in OwnCall (kill_steps l)
            (λ p q. MatchResult result (λ killed. Kills l id killed.units_aborted p q)
            (λ why. KillFails l id p q why)) self.old self.new }
    {
        self.managed.manager.kill(&mut self.managed.passes[0], id)
    }

    /// Cancels the request with this root, as `Manager::cancel`.
    pub fn cancel(&mut self, root: u32) -> Result<Cancelled, Refusal>
        requires steady { IsSteadyCrew behaviour registers pending self.old }
        ensures steady { IsSteadyCrew behaviour registers pending self.new }
        ensures call { OwnCall (cancel_steps self.old.managed.manager.limits)
            (λ p q. MatchResult result (λ cancelled.
            Cancels self.old.managed.manager.limits root cancelled.killed p q)
            (λ why. CancelFails root p q why)) self.old self.new }
    {
        self.managed
            .manager
            .cancel(&mut self.managed.passes[0], root)
    }

    /// Gives the parked element with this id another round of attempts, as `Manager::requeue`.
    pub fn requeue(&mut self, id: u32) -> Result<u8, Refusal>
        requires steady { IsSteadyCrew behaviour registers pending self.old }
        ensures steady { IsSteadyCrew behaviour registers pending self.new }
        ensures call { OwnCall (requeue_steps) (λ p q. MatchResult result (λ round. Requeues id round p q)
            (λ why. RequeueFails self.old.managed.manager.limits id p q why)) self.old self.new }
    {
        self.managed
            .manager
            .requeue(&mut self.managed.passes[0], id)
    }

    /// The least id from this one on of a reply to the request with this root, as `Manager::reply`.
    pub fn reply(&mut self, root: u32, from: u32) -> Option<u32>
        requires steady { IsSteadyCrew behaviour registers pending self.old }
        ensures steady { IsSteadyCrew behaviour registers pending self.new }
        ensures call { OwnCall (reply_steps self.old.managed.manager.limits)
            (λ p q. MatchOption result (AllKilled self.old.managed.manager.limits root (λ i. from ≤ i) p q)
            (λ id. NextReply self.old.managed.manager.limits root from id p q)) self.old self.new }
    {
        self.managed
            .manager
            .reply(&mut self.managed.passes[0], root, from)
    }

    /// Takes the least reply to the request with this root that it finds waiting, once, as
    /// `Manager::collect_next`.
    pub fn collect_next(&mut self, root: u32) -> Option<Element>
        requires steady { IsSteadyCrew behaviour registers pending self.old }
        ensures steady { IsSteadyCrew behaviour registers pending self.new }
        ensures call { OwnCall (collect_next_steps self.old.managed.manager.limits)
            (λ p q. MatchOption result (NoneCollected self.old.managed.manager.limits root p q)
            (λ x. CollectsNext self.old.managed.manager.limits root x p q)) self.old self.new }
    {
        self.managed
            .manager
            .collect_next(&mut self.managed.passes[0], root)
    }

    /// The least id from this one on of an element that is parked, as `Manager::next_error`.
    pub fn next_error(&mut self, from: u32) -> Option<u32>
        requires steady { IsSteadyCrew behaviour registers pending self.old }
        ensures steady { IsSteadyCrew behaviour registers pending self.new }
        ensures call { OwnCall (next_error_steps self.old.managed.manager.limits)
            (λ p q. MatchOption result (NoneParked self.old.managed.manager.limits (λ i. from ≤ i) p q)
            (λ id. NextError self.old.managed.manager.limits from id p q)) self.old self.new }
    {
        self.managed
            .manager
            .next_error(&mut self.managed.passes[0], from)
    }
}
