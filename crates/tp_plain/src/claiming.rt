//! Claims: what a pass takes, by which unit of work, and in which order.
ghost use Rattle.std.specs.Prelude.{◌≡◌, ℕ, ◌<◌, ◌+◌, None, IfOk, IfSome, slice_index, slice_set};
ghost use Rattle.tp_model.specs.declared.types.Element.{Element};
ghost use Rattle.tp_model.specs.Steps.{IsServerStage};
ghost use Rattle.tp_plain.specs.Computed.{IsComputedOk, claim_next_of_stage, claim_of_stage, next_waiting};
ghost use Rattle.tp_plain.specs.Computed.{with_claimed, work_on};
ghost use Rattle.tp_plain.specs.Looks.{attempts_in};
ghost use Rattle.tp_plain.specs.OneThread.{Answers, CallClaim, CallClaimNext, Waits, held_after, pass_at};

use crate::history::Note;
use crate::looks::{apply, attempts_of, next_waiting};
use crate::pass_state::PassState;
use crate::plain::Plain;
use tp_model::types::{Claimed, Look, Refusal, Work};

// Where a stage's next claim in turn begins.
fn turn_in(places: &[u32; 16], stage: u8) -> u32
    requires stage { IsServerStage stage }
    ensures { result ≡ slice_index places.now stage }
{
    places[stage as usize]
}

// The places with that of a stage after this row.
fn go_on_behind(turns: [u32; 16], stage: u8, row: u32) -> [u32; 16]
    requires stage { IsServerStage stage }
    requires few { row < 65536 }
    ensures { result ≡ slice_set turns stage (row + 1) }
{
    let mut turns = turns;
    turns[stage as usize] = row + 1;
    turns
}

impl Plain {
    /// A pass takes the waiting element of a stage that has the least id, by its next unit.
    pub fn claim(&mut self, caller: u16, stage: u8) -> Result<Claimed, Refusal>
        requires pass { caller < self.old.limits.parts }
        requires server { IsServerStage stage }
        requires free { (pass_at self.old caller).holding ≡ None }
        ensures answer { Answers self.old (CallClaim caller stage result) self.new }
        ensures computed { IsComputedOk self.old self.new result (claim_of_stage self.old caller stage) }
        ensures hand { IfOk result (λ a. (pass_at self.new caller).holding ≡ held_after a) }
        ensures limits { self.new.limits ≡ self.old.limits }
    {
        self.show_reached();
        let used = self.used_by(caller);
        if used.claimed >= self.limits.units {
            return Ok(Claimed::NoUnit);
        }
        let Some(look) = self.first_waiting(0, stage) else {
            return Ok(Claimed::Idle);
        };
        Ok(Claimed::Work(self.take(caller, look, used.turns)))
    }

    /// A pass takes the waiting element of a stage, by its next unit, that comes first after the one of the
    /// stage that it took last by such a call. After the last id comes the first.
    pub fn claim_next(&mut self, caller: u16, stage: u8) -> Result<Claimed, Refusal>
        requires pass { caller < self.old.limits.parts }
        requires server { IsServerStage stage }
        requires free { (pass_at self.old caller).holding ≡ None }
        ensures answer { Answers self.old (CallClaimNext caller stage result) self.new }
        ensures computed { IsComputedOk self.old self.new result (claim_next_of_stage self.old caller stage) }
        ensures hand { IfOk result (λ a. (pass_at self.new caller).holding ≡ held_after a) }
        ensures limits { self.new.limits ≡ self.old.limits }
    {
        self.show_reached();
        let used = self.used_by(caller);
        if used.claimed >= self.limits.units {
            return Ok(Claimed::NoUnit);
        }
        let turn = turn_in(&used.turns, stage);
        let Some(look) = self.first_waiting(turn, stage) else {
            return Ok(Claimed::Idle);
        };
        let turns = go_on_behind(used.turns, stage, look.element.id);
        Ok(Claimed::Work(self.take(caller, look, turns)))
    }

    // What a pass has used.
    pub(crate) fn used_by(&self, caller: u16) -> PassState
        requires { caller < self.now.limits.parts }
        ensures { result ≡ pass_at self.now caller }
    {
        self.passes[caller as usize]
    }

    // The first waiting element of a stage from an id on, where after the last id comes the first.
    fn first_waiting(&self, from: u32, stage: u8) -> Option<Look>
        ensures first { result ≡ next_waiting self.now from stage }
        ensures waits { IfSome result (λ look. Waits self.now stage look.element (attempts_in look.status)) }
        ensures stage { IfSome result (λ look. look.element.stage ≡ stage) }
        ensures few { IfSome result (λ look. look.element.id < 65536) }
        ensures none { result ≡ None → (e : Element) (n : ℕ) → ¬ Waits self.now stage e n }
    {
        next_waiting(&self.looks, from, stage)
    }

    // A pass takes a waiting element by its next unit. Its claims in turn go on from these places.
    pub(crate) fn take(&mut self, caller: u16, look: Look, turns: [u32; 16]) -> Work
        requires pass { caller < self.old.limits.parts }
        requires free { (pass_at self.old caller).holding ≡ None }
        requires room { (pass_at self.old caller).claimed < self.old.limits.units }
        requires stage { IsServerStage look.element.stage }
        requires waits { Waits self.old look.element.stage look.element (attempts_in look.status) }
        ensures work { result ≡ work_on self.old caller look }
        ensures state { self.new ≡ with_claimed self.old caller look turns }
    {
        self.show_reached();
        let used = self.used_by(caller);
        let unit = caller * self.limits.units + used.claimed;
        let attempt = attempts_of(look.status) + 1;
        let note = Note::Claim(caller, unit, look.element.id, attempt);
        apply(self.limits.attempts, &mut self.looks, &note);
        self.passes[caller as usize] = PassState {
            claimed: used.claimed + 1,
            holding: Some(unit),
            turns,
            ..used
        };
        self.history = self.history.then(&note);
        Work {
            unit,
            element: look.element,
            attempt,
        }
    }
}
