//! The end of a server's unit of work.
ghost use Rattle.tp_model.specs.declared.types.TheConstants.{MAX_OUTPUTS};
ghost use Rattle.std.specs.Prelude.{◌≡◌, ◌≤◌, None, IfSome, IsSome, length};
ghost use Rattle.tp_manager.specs.Shown.{IsOf};
ghost use Rattle.tp_manager.specs.Bounds.{abort_steps, close_steps, commit_steps};
ghost use Rattle.tp_manager.specs.Calls.{AnswersAbort, Follows, HasEnded, Settles, SettlesApart};

use crate::manager::{Manager, Pass};
use crate::streak::Streak;
use tp_model::types::{Draft, Ended, Outcome};

impl Manager {
    /// Gives up the open unit of work: its element waits again, or is parked, and nothing is born of it.
    /// `AlreadyAborted` where another caller had aborted the unit. Either way the pass has no unit open any
    /// more.
    pub fn abort(&self, pass: &mut Pass) -> Ended
        requires own { IsOf self.now pass.old }
        requires busy { IsSome pass.old.open_unit }
        ensures own { IsOf self.now pass.new }
        ensures turn { pass.new.from ≡ pass.old.from }
        ensures follows { Follows abort_steps pass.old pass.new }
        ensures free { pass.new.open_unit ≡ None }
        ensures ended { IfSome pass.old.open_unit (HasEnded pass.new.seen) }
        ensures answer { AnswersAbort pass.old pass.new result }
        ensures kept { pass.new.seen_blocks ≡ pass.old.seen_blocks }
    {
        let shared = &self.shared;
        let seat = &mut pass.seat;
        let Some(task) = pass.task else {
            unreachable!();
        };
        match shared.words.abort_exchange(seat, task.unit) {
            Ok(()) => {
                pass.task = None;
                pass.run.tail = 0;
                Ended::Aborted
            }
            Err(_) => {
                pass.task = None;
                pass.run.tail = 0;
                Ended::AlreadyAborted
            }
        }
    }

    /// Commits the open unit of work with drafts for which the pass has rows left.
    #[inline(always)]
    fn close(&self, pass: &mut Pass, drafts: &[Draft]) -> Outcome
        requires own { IsOf self.now pass.old }
        requires busy { IsSome pass.old.open_unit }
        requires few { length drafts.now ≤ MAX_OUTPUTS }
        requires room { length drafts.now ≤ pass.old.left }
        ensures own { IsOf self.now pass.new }
        ensures turn { pass.new.from ≡ pass.old.from }
        ensures follows { Follows (close_steps (length drafts.now)) pass.old pass.new }
        ensures answer { Settles drafts.now pass.old pass.new result }
        ensures kept { pass.new.seen_blocks ≡ pass.old.seen_blocks }
    {
        let shared = &self.shared;
        let seat = &mut pass.seat;
        let Some(task) = pass.task else {
            unreachable!();
        };
        let next = pass.run.next;
        let count = drafts.len() as u16;
        shared.write_all(seat, next as u32, drafts, task.root, task.unit);
        let first = if count == 0 { 0 } else { next };
        pass.run.next = next + count;
        pass.run.left -= count;
        pass.run.tail = 0;
        let tail = pass.streak.before(task.unit);
        if shared
            .words
            .commit_exchange(seat, task.unit, first, count as u8, tail)
        {
            pass.streak = Streak::behind(task.unit, tail);
            pass.run.done = Some(task.row);
            pass.task = None;
            Outcome::Committed {
                first: first as u32,
                count: count as u8,
            }
        } else {
            pass.task = None;
            Outcome::Lost
        }
    }

    /// Commits the open unit of work with at most four drafts. In one step its element is consumed and the
    /// drafts are born, with ids one after another. They use the next rows of the pass. Where too few are
    /// left to it, it draws a spare block for them; where enough are, no step is about spare blocks (`lean`).
    ///
    /// `Full` where no block is left to draw: no row is used, and the unit is over. Either this call aborted
    /// it, or another caller had: `commit_apart` tells which. `Lost` where another caller had aborted it: the
    /// rows of the drafts are used up. Whatever the answer, the pass has no unit open any more.
    #[inline(always)]
    #[tactic(auto, using(crate::proofs::Rows::Rooms::settles_with, crate::proofs::Rows::Rooms::settles_full))]
    pub fn commit(&self, pass: &mut Pass, drafts: &[Draft]) -> Outcome
        requires own { IsOf self.now pass.old }
        requires busy { IsSome pass.old.open_unit }
        requires few { length drafts.now ≤ MAX_OUTPUTS }
        ensures own { IsOf self.now pass.new }
        ensures turn { pass.new.from ≡ pass.old.from }
        ensures follows { Follows (commit_steps self.now.limits (length drafts.now)) pass.old pass.new }
        ensures lean { length drafts.now ≤ pass.old.left
            → Follows (close_steps (length drafts.now)) pass.old pass.new }
        ensures free { pass.new.open_unit ≡ None }
        ensures ended { IfSome pass.old.open_unit (HasEnded pass.new.seen) }
        ensures answer { Settles drafts.now pass.old pass.new result }
    {
        match self.commit_apart(pass, drafts) {
            Ok(outcome) => outcome,
            Err(_) => Outcome::Full,
        }
    }

    /// The same, but where no block is left to draw (`Err`) with what the unit had come to. Where this call
    /// aborted it, its element waits again or is parked (`Aborted`). Where another caller had aborted it, what
    /// became of the element is that caller's doing (`AlreadyAborted`).
    #[inline(always)]
    pub fn commit_apart(&self, pass: &mut Pass, drafts: &[Draft]) -> Result<Outcome, Ended>
        requires own { IsOf self.now pass.old }
        requires busy { IsSome pass.old.open_unit }
        requires few { length drafts.now ≤ MAX_OUTPUTS }
        ensures own { IsOf self.now pass.new }
        ensures turn { pass.new.from ≡ pass.old.from }
        ensures follows { Follows (commit_steps self.now.limits (length drafts.now)) pass.old pass.new }
        ensures lean { length drafts.now ≤ pass.old.left
            → Follows (close_steps (length drafts.now)) pass.old pass.new }
        ensures free { pass.new.open_unit ≡ None }
        ensures ended { IfSome pass.old.open_unit (HasEnded pass.new.seen) }
        ensures answer { SettlesApart drafts.now pass.old pass.new result }
    {
        if self.has_room(pass, drafts.len() as u16) {
            return Ok(self.close(pass, drafts));
        }
        Err(self.abort(pass))
    }
}
