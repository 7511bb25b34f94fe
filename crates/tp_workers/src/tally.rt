//! What workers count.
ghost use Rattle.std.specs.Prelude.{◌≡◌, ◌+◌, ◌<◌, ◌^◌, true, false};
ghost use Rattle.std.specs.Bool.{OnTrue, OnFalse};
ghost use Rattle.tp_workers.specs.Sums.{client_part, desk_part, killer_part};
ghost use Rattle.tp_workers.specs.Tally.{claimed_in_all, kill_count, empty_shift, plus, submit_count, total};
ghost use Rattle.tp_workers.specs.Tally.{turn_count};

use tp_desk::Turned;
use tp_model::types::{Killed, Refusal};

/// What the workers of a shift did.
#[derive(Clone, Copy, Debug, Default, PartialEq, Eq)]
pub struct Shift {
    /// Turns whose unit was committed.
    pub done: u32,
    /// Turns whose element the server declined.
    pub refused: u32,
    /// Turns whose unit another caller had aborted.
    pub lost: u32,
    /// Turns whose pass had too few rows left for the outputs, and found no spare block left.
    pub full: u32,
    /// Turns that found nothing to wait.
    pub idle: u32,
    /// Turns whose pass had no unit left.
    pub nounit: u32,
    /// Calls that submitted an element.
    pub submitted: u32,
    /// Calls that submitted none, since the pass had no row left, and found no spare block left.
    pub submit_full: u32,
    /// Calls that killed an element.
    pub killed: u32,
    /// Calls that killed none, since it was consumed.
    pub late: u32,
    /// Calls that killed none, since it was killed before.
    pub already: u32,
    /// Calls that killed none, since none was there.
    pub missing: u32,
}

impl Shift {
    /// Nothing was done.
    pub(crate) fn none() -> Shift
        ensures { result ≡ empty_shift }
    {
        Shift {
            done: 0,
            refused: 0,
            lost: 0,
            full: 0,
            idle: 0,
            nounit: 0,
            submitted: 0,
            submit_full: 0,
            killed: 0,
            late: 0,
            already: 0,
            missing: 0,
        }
    }

    /// What two workers did together.
    pub(crate) fn plus(self, other: Shift) -> Shift
        requires { total self + total other < 2 ^ 32 }
        ensures { result ≡ plus self other }
    {
        Shift {
            done: self.done + other.done,
            refused: self.refused + other.refused,
            lost: self.lost + other.lost,
            full: self.full + other.full,
            idle: self.idle + other.idle,
            nounit: self.nounit + other.nounit,
            submitted: self.submitted + other.submitted,
            submit_full: self.submit_full + other.submit_full,
            killed: self.killed + other.killed,
            late: self.late + other.late,
            already: self.already + other.already,
            missing: self.missing + other.missing,
        }
    }

    /// What desks, clients and killers did together, where each counts its own.
    pub(crate) fn of_kinds(desks: Shift, clients: Shift, killers: Shift) -> Shift
        ensures desks { desk_part result ≡ desk_part desks }
        ensures clients { client_part result ≡ client_part clients }
        ensures killers { killer_part result ≡ killer_part killers }
    {
        Shift {
            done: desks.done,
            refused: desks.refused,
            lost: desks.lost,
            full: desks.full,
            idle: desks.idle,
            nounit: desks.nounit,
            submitted: clients.submitted,
            submit_full: clients.submit_full,
            killed: killers.killed,
            late: killers.late,
            already: killers.already,
            missing: killers.missing,
        }
    }

    /// A turn with this answer.
    pub(crate) fn of_turn(turned: Turned) -> Shift
        ensures { result ≡ turn_count turned }
    {
        let mut counts = Shift::none();
        match turned {
            Turned::Idle => counts.idle = 1,
            Turned::NoUnit => counts.nounit = 1,
            Turned::Done { .. } => counts.done = 1,
            Turned::Refused { .. } => counts.refused = 1,
            Turned::Lost { .. } => counts.lost = 1,
            Turned::Full { .. } => counts.full = 1,
        }
        counts
    }

    /// A submit with this answer, to the stage of a server.
    pub(crate) fn of_submit(answer: Result<u32, Refusal>) -> Shift
        ensures { result ≡ submit_count answer }
    {
        let mut counts = Shift::none();
        match answer {
            Ok(_) => counts.submitted = 1,
            Err(_) => counts.submit_full = 1,
        }
        counts
    }

    /// A kill with this answer.
    pub(crate) fn of_kill(answer: Result<Killed, Refusal>) -> Shift
        ensures { result ≡ kill_count answer }
    {
        let mut counts = Shift::none();
        match answer {
            Ok(_) => counts.killed = 1,
            Err(Refusal::Consumed { .. }) => counts.late = 1,
            Err(Refusal::AlreadyKilled) => counts.already = 1,
            Err(_) => counts.missing = 1,
        }
        counts
    }

    /// Whether a desk has claimed an element.
    pub(crate) fn has_claimed(&self) -> bool
        ensures claimed { OnTrue result (0 < claimed_in_all self.now) }
        ensures unclaimed { OnFalse result (claimed_in_all self.now ≡ 0) }
    {
        self.done > 0 || self.refused > 0 || self.lost > 0 || self.full > 0
    }
}
