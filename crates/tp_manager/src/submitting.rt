//! The client's call.
ghost use Rattle.std.specs.Prelude.{◌≡◌, ◌<◌, MatchResult};
ghost use Rattle.tp_model.specs.Steps.{IsServerStage};
ghost use Rattle.tp_manager.specs.Shown.{IsOf};
ghost use Rattle.tp_manager.specs.Bounds.{next_steps, submit_steps};
ghost use Rattle.tp_manager.specs.Calls.{Follows, Submits, SubmitRefused};

use crate::manager::{Manager, Pass};
use tp_model::types::{Body, MAX_STAGE, Refusal};

impl Manager {
    /// Puts a client's element into the pass's next row. The answer is its id.
    #[inline(always)]
    fn submit_next(&self, pass: &mut Pass, stage: u8, body: Body) -> u32
        requires own { IsOf self.now pass.old }
        requires stage { IsServerStage stage }
        requires room { 0 < pass.old.left }
        ensures own { IsOf self.now pass.new }
        ensures turn { pass.new.from ≡ pass.old.from }
        ensures follows { Follows next_steps pass.old pass.new }
        ensures open_unit { pass.new.open_unit ≡ pass.old.open_unit }
        ensures answer { Submits result stage body pass.old pass.new }
    {
        let seat = &mut pass.seat;
        let row = pass.run.next as u32;
        self.shared.words.store_draft_body(seat, row, body);
        let tail = if pass.run.tail_stage == stage {
            pass.run.tail
        } else {
            0
        };
        self.shared.words.publish(seat, row, stage, tail);
        pass.run.tail = tail.saturating_add(1);
        pass.run.tail_stage = stage;
        pass.run.next += 1;
        pass.run.left -= 1;
        row
    }

    /// Puts a client's element with this body into the queue of a stage. The answer is its id, which is also
    /// its root. `BadStage` unless the stage is 1 to 14, which changes nothing, and then `Full` where the
    /// pass has used its rows and all spare blocks are drawn.
    #[inline(always)]
    pub fn submit(&self, pass: &mut Pass, stage: u8, body: Body) -> Result<u32, Refusal>
        requires own { IsOf self.now pass.old }
        ensures own { IsOf self.now pass.new }
        ensures turn { pass.new.from ≡ pass.old.from }
        ensures follows { Follows (submit_steps self.now.limits) pass.old pass.new }
        ensures lean { 0 < pass.old.left → Follows next_steps pass.old pass.new }
        ensures open_unit { pass.new.open_unit ≡ pass.old.open_unit }
        ensures answer { MatchResult result
            (λ id. Submits id stage body pass.old pass.new)
            (λ refusal. SubmitRefused stage pass.old pass.new refusal) }
    {
        if stage == 0 || stage > MAX_STAGE {
            pass.stays();
            return Err(Refusal::BadStage);
        }
        if !self.has_room(pass, 1) {
            return Err(Refusal::Full);
        }
        Ok(self.submit_next(pass, stage, body))
    }
}
