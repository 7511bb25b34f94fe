//! The look at one element.
ghost use Rattle.std.specs.Prelude.{◌≡◌, ◌<◌, MatchResult};
ghost use Rattle.tp_model.specs.History.{IsUnborn};
ghost use Rattle.tp_model.specs.Steps.{rows_of};
ghost use Rattle.tp_model.specs.declared.types.Refusal.TheVariants as refusals;
ghost use Rattle.tp_manager.specs.Shown.{IsOf};
ghost use Rattle.tp_manager.specs.Bounds.{read_steps};
ghost use Rattle.tp_manager.specs.Calls.{AtPoint, Follows, HasLooked, IsQuiet, Reads};

use crate::manager::{Manager, Pass};
use tp_model::types::{Look, Refusal};

impl Manager {
    /// The element with this id, and its status. `NotThere` where none is born, so also for an id from the
    /// capacity on.
    #[inline(always)]
    pub fn read(&self, pass: &mut Pass, id: u32) -> Result<Look, Refusal>
        requires own { IsOf self.now pass.old }
        ensures own { IsOf self.now pass.new }
        ensures turn { pass.new.from ≡ pass.old.from }
        ensures follows { Follows (read_steps self.now.limits) pass.old pass.new }
        ensures quiet { IsQuiet pass.old pass.new }
        ensures looks { id < rows_of self.now.limits → HasLooked pass.old pass.new }
        ensures answer { MatchResult result
            (λ look. Reads self.now.limits id pass.old pass.new look)
            (λ refusal. (refusal ≡ refusals.NotThere) × AtPoint pass.old pass.new (λ h. IsUnborn h id)) }
    {
        let seat = &mut pass.seat;
        if id >= self.shared.places.rows() {
            return Err(Refusal::NotThere);
        }
        let head = self.shared.head_at(seat, id);
        let Some(birth) = self.shared.birth_from(seat, id, head) else {
            return Err(Refusal::NotThere);
        };
        let element = self.shared.element_at(seat, id, birth);
        let status = self.shared.status_at(seat, id);
        Ok(Look { element, status })
    }
}
