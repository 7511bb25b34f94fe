//! Rows from the spare blocks.
ghost use Rattle.tp_model.specs.declared.types.TheConstants.{BLOCK_ROWS};
ghost use Rattle.std.specs.Prelude.{◌≡◌, ◌+◌, ◌-◌, ◌<◌, ◌≤◌, [], true, false};
ghost use Rattle.tp_rule.specs.Views.{hand_of, view_of, IsSameSeat};
ghost use Rattle.tp_rule.specs.Steps.{HasCleared};
ghost use Rattle.tp_rule.specs.Tables.{table_limits};
ghost use Rattle.tp_manager.specs.Shown.{IsOf};
ghost use Rattle.tp_manager.specs.Draws.{Drawn, HasRoom, NoRoom};
ghost use Rattle.tp_manager.specs.Bounds.{draw_steps};
ghost use Rattle.tp_manager.specs.Spares.{AreHeaded, AreLeft};
ghost use Rattle.tp_manager.specs.CallSteps.{IsSteady, Tried};
ghost use Rattle.tp_manager.specs.BetweenCalls.{RemembersDrawn};
ghost use Rattle.tp_model.specs.declared.types.Limits.{Limits};
ghost use Rattle.tp_manager.specs.Upward.{IdsGoUp};

use crate::manager::{Manager, Pass, Run, Shared};
use tp_model::types::BLOCK_ROWS;
use tp_rule::Seat;

impl Shared {
    /// Draws a spare block, whose rows are then the run, unless all are drawn. At most a step for each spare
    /// block, since an exchange of their counter that fails has found it higher.
    fn draw(&self, seat: &mut Seat, run: &mut Run) -> bool
        requires steady { IsSteady self.now.words seat.old }
        requires drawn { RemembersDrawn (view_of seat.old) run.old.drawn }
        requires no_drafts { (hand_of seat.old).drafts ≡ [] }
        requires cleared { HasCleared (view_of seat.old) }
        ensures same { IsSameSeat seat.old seat.new }
        ensures drawn { RemembersDrawn (view_of seat.new) run.new.drawn }
        ensures risen { run.old.drawn ≤ run.new.drawn }
        ensures fresh { result ≡ true → run.old.drawn < run.new.drawn }
        ensures done { run.new.done ≡ run.old.done }
        ensures yes { result ≡ true → let l = table_limits self.now.words in
            Drawn l (draw_steps l) (view_of seat.old) (view_of seat.new) run.new }
        ensures no { result ≡ false → let l = table_limits self.now.words in
            Tried l (l.spare - run.old.drawn) (view_of seat.old) (view_of seat.new)
            × (run.new ≡ record run.old { drawn = l.spare }) }
    {
        while run.drawn < self.places.limits.spare {
            match self.words.draw(seat, run.drawn) {
                Ok(()) => {
                    *run = Run {
                        next: self.places.block_first(run.drawn) as u16,
                        left: BLOCK_ROWS,
                        tail: 0,
                        tail_stage: 0,
                        drawn: run.drawn + 1,
                        done: run.done,
                    };
                    return true;
                }
                Err(found) => run.drawn = found,
            }
        }
        false
    }

    /// Marks this many rows from this one on, which the pass has left behind, as rows that are never used.
    /// One step for each.
    fn void_rows(&self, seat: &mut Seat, first: u32, count: u16)
        requires steady { IsSteady self.now.words seat.old }
        requires left { AreLeft (table_limits self.now.words) (view_of seat.old) first count }
        ensures same { IsSameSeat seat.old seat.new }
        ensures tried { Tried (table_limits self.now.words) count (view_of seat.old) (view_of seat.new) }
        ensures headed { AreHeaded (view_of seat.new) first count }
    {
        for i in 0..count {
            self.words.void(seat, first + i as u32);
        }
    }

    /// Draws a spare block, unless all are drawn. Then none of the rows that the pass leaves behind is empty:
    /// so marks of the spare rows can rise over them.
    fn draw_on(&self, seat: &mut Seat, run: &mut Run) -> bool
        requires steady { IsSteady self.now.words seat.old }
        requires drawn { RemembersDrawn (view_of seat.old) run.old.drawn }
        requires no_drafts { (hand_of seat.old).drafts ≡ [] }
        requires cleared { HasCleared (view_of seat.old) }
        requires run { ((hand_of seat.old).next ≡ run.old.next) × ((hand_of seat.old).left ≡ run.old.left) }
        ensures same { IsSameSeat seat.old seat.new }
        ensures drawn { RemembersDrawn (view_of seat.new) run.new.drawn }
        ensures risen { run.old.drawn ≤ run.new.drawn }
        ensures fresh { result ≡ true → run.old.drawn < run.new.drawn }
        ensures done { run.new.done ≡ run.old.done }
        ensures yes { result ≡ true → let l = table_limits self.now.words in
            Drawn l (draw_steps l + run.old.left) (view_of seat.old) (view_of seat.new) run.new }
        ensures cleared { HasCleared (view_of seat.new) }
        ensures no { result ≡ false → let l = table_limits self.now.words in
            Tried l (l.spare - run.old.drawn) (view_of seat.old) (view_of seat.new)
            × (run.new ≡ record run.old { drawn = l.spare }) }
    {
        let old = *run;
        if !self.draw(seat, run) {
            return false;
        }
        self.void_rows(seat, old.next as u32, old.left);
        true
    }
}

impl Manager {
    /// Whether the pass has this many rows left, at most 8. Where it has fewer, it draws a spare block, and
    /// leaves no empty row behind.
    pub(crate) fn has_room(&self, pass: &mut Pass, rows: u16) -> bool
        requires own { IsOf self.now pass.old }
        requires few { rows ≤ BLOCK_ROWS }
        ensures own { IsOf self.now pass.new }
        ensures turn { pass.new.from ≡ pass.old.from }
        ensures yes { result ≡ true → HasRoom self.now.limits rows pass.old pass.new }
        ensures no { result ≡ false → NoRoom self.now.limits rows pass.old pass.new }
    {
        if rows <= pass.run.left {
            return true;
        }
        let seat = &mut pass.seat;
        self.shared.draw_on(seat, &mut pass.run)
    }
}

/// The rows that a pass uses lie above all that it has used before. The function does nothing: its contract
/// is the law.
pub fn ids_go_up()
    ensures up { (l : Limits) → IdsGoUp l }
{}
