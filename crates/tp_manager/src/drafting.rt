//! The drafts of a unit of work.
ghost use Rattle.std.specs.Prelude.{◌≡◌, ◌+◌, ◌<◌, ◌≤◌, Some, [], ◌∷◌, length};
ghost use Rattle.std.specs.List.{All};
ghost use Rattle.tp_model.specs.Births.{IsWhole, outputs};
ghost use Rattle.tp_model.specs.Steps.{rows_of};
ghost use Rattle.tp_rule.specs.Views.{hand_of, next_row, view_of, IsNextRow, IsSameSeat};
ghost use Rattle.tp_rule.specs.Tables.{table_limits};
ghost use Rattle.tp_manager.specs.CallSteps.{IsBlank, IsSteady};
ghost use Rattle.tp_manager.specs.Drafts.{output, Wrote};

use crate::manager::Shared;
use tp_model::types::Draft;
use tp_rule::Seat;

impl Shared {
    /// Writes a draft into the next row of the pass, which has the unit open. At most five steps.
    fn write_one(&self, seat: &mut Seat, row: u32, draft: Draft, root: u16, unit: u16)
        requires steady { IsSteady self.now.words seat.old }
        requires next { IsNextRow (table_limits self.now.words) (view_of seat.old) row }
        requires fits { unit < 65535 }
        requires open_unit { (hand_of seat.old).open_unit ≡ Some unit }
        requires blank { IsBlank (view_of seat.old) }
        ensures same { IsSameSeat seat.old seat.new }
        ensures wrote { let l = table_limits self.now.words in
            Wrote l (output unit root row draft ∷ []) (view_of seat.old) (view_of seat.new) }
        ensures whole { IsWhole draft }
    {
        self.words.store_draft_body(seat, row, draft.body());
        self.words
            .store_draft_head(seat, row, draft.stage(), root, unit);
    }

    /// Writes the drafts into the next rows of the pass, which has the unit open and room for them.
    pub(crate) fn write_all(
        &self,
        seat: &mut Seat,
        first: u32,
        drafts: &[Draft],
        root: u16,
        unit: u16,
    )
        requires steady { IsSteady self.now.words seat.old }
        requires next { first ≡ next_row (view_of seat.old) }
        requires room { let l = table_limits self.now.words in
            (length drafts.now ≤ (hand_of seat.old).left)
            × (first + length drafts.now ≤ rows_of l) }
        requires fits { unit < 65535 }
        requires open_unit { (hand_of seat.old).open_unit ≡ Some unit }
        requires blank { IsBlank (view_of seat.old) }
        ensures same { IsSameSeat seat.old seat.new }
        ensures wrote { let l = table_limits self.now.words in
            Wrote l (outputs unit root first drafts.now) (view_of seat.old) (view_of seat.new) }
        ensures whole { All IsWhole drafts.now }
    {
        for i in 0..drafts.len() {
            let draft = drafts[i];
            self.write_one(seat, first + i as u32, draft, root, unit);
        }
    }
}
