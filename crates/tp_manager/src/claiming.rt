//! A server's call for work.
ghost use Rattle.std.specs.Prelude.{◌≡◌, ℕ, None};
ghost use Rattle.tp_model.specs.Steps.{AreLimits, IsServerStage};
ghost use Rattle.tp_manager.specs.Shown.{marks_of, IsOf};
ghost use Rattle.tp_manager.specs.Bounds.{claim_steps, claim_steps_left};
ghost use Rattle.tp_manager.specs.RowSteps.{lean_claim_steps};
ghost use Rattle.tp_manager.specs.Calls.{Claims, Follows};
ghost use Rattle.tp_model.specs.declared.types.Limits.{Limits};
ghost use Rattle.tp_manager.specs.Upward.{FirstInFirstOut};
ghost use Rattle.tp_manager.specs.Raises.{FewAgain, RaisesMarks};

use crate::manager::{Manager, Pass, Task};
use crate::seeker::Seeker;
use tp_model::types::{Claimed, Work};

impl Manager {
    /// Takes the element with the least id that was found to wait in the stage, 1 to 14, into a new unit of
    /// work. The pass may have none open. `NoUnit` where it has used up its units, and `Idle` where nothing
    /// was found to wait. No step is for a row behind the element that it takes (`lean`).
    pub fn claim(&self, pass: &mut Pass, stage: u8) -> Claimed
        requires own { IsOf self.now pass.old }
        requires stage { IsServerStage stage }
        requires free { pass.old.open_unit ≡ None }
        ensures own { IsOf self.now pass.new }
        ensures turn { pass.new.from ≡ pass.old.from }
        ensures limits { AreLimits self.now.limits }
        ensures follows { Follows (claim_steps self.now.limits) pass.old pass.new }
        ensures answer { Claims self.now.limits stage pass.old pass.new result }
        ensures few { Follows (claim_steps_left self.now.limits (marks_of pass.old.lows stage)) pass.old
            pass.new }
        ensures lean { let lows = marks_of pass.old.lows stage in
            let n = lean_claim_steps self.now.limits stage lows pass.new.seen_blocks result in
            Follows (n pass.old.seen pass.new.seen) pass.old pass.new }
        ensures raises { RaisesMarks self.now.limits stage pass.old pass.new result }
    {
        let seat = &mut pass.seat;
        let units = self.shared.places.limits.units;
        if pass.used == units {
            return Claimed::NoUnit;
        }
        let unit = pass.number * units + pass.used;
        self.shared.words.choose_unit(seat, unit);
        let Some(taken) = self.shared.scan(
            seat,
            &mut pass.lows[stage as usize],
            &mut pass.gaps[stage as usize],
            &mut pass.begins[stage as usize],
            &mut pass.run.drawn,
            Seeker {
                stage,
                unit,
                done: pass.run.done,
            },
        )
        else {
            return Claimed::Idle;
        };
        pass.used += 1;
        pass.task = Some(Task {
            unit,
            root: taken.root,
            row: taken.element.id,
        });
        Claimed::Work(Work {
            unit,
            element: taken.element,
            attempt: taken.attempt,
        })
    }
}

/// What a pass's claim of a stage has come to from the beginning of a part, or of the spare rows, its next
/// claim of the stage doesn't look at again, as far as these rows were of no use to the stage by then. So the
/// next claim costs what the other rows cost, and at most three steps a part. The function does nothing: its
/// contract is the law.
pub fn few_again()
    ensures few { (l : Limits) (stage : ℕ) → FewAgain l stage }
{}

/// First in, first out: of the elements of a stage that one pass has made, a claim takes those of an earlier
/// call before those of a later call. It leaves out only what it found not to wait. The function does
/// nothing: its contract is the law.
pub fn first_in_first_out()
    ensures first { (l : Limits) → FirstInFirstOut l }
{}
