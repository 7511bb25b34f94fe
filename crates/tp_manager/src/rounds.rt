//! How many rounds of attempts an element had.
ghost use Rattle.std.specs.Prelude.{◌≡◌, ◌<◌, ◌≤◌, MatchResult};
ghost use Rattle.tp_model.specs.History.{IsUnborn};
ghost use Rattle.tp_model.specs.Steps.{rows_of};
ghost use Rattle.tp_model.specs.declared.types.Refusal.TheVariants as refusals;
ghost use Rattle.tp_model.specs.declared.types.TheConstants.{MAX_ROUNDS};
ghost use Rattle.tp_manager.specs.Shown.{IsOf};
ghost use Rattle.tp_manager.specs.Bounds.{rounds_steps};
ghost use Rattle.tp_manager.specs.Calls.{AtPoint, Follows, HasLooked, IsQuiet};
ghost use Rattle.tp_manager.specs.Requeues.{HasHadRounds};

use crate::manager::{Manager, Pass};
use tp_model::types::Refusal;

impl Manager {
    /// How many further rounds of attempts the element with this id was given, 0 to 3. `NotThere` where no
    /// such element is born.
    pub fn rounds(&self, pass: &mut Pass, id: u32) -> Result<u8, Refusal>
        requires own { IsOf self.now pass.old }
        ensures own { IsOf self.now pass.new }
        ensures turn { pass.new.from ≡ pass.old.from }
        ensures follows { Follows rounds_steps pass.old pass.new }
        ensures quiet { IsQuiet pass.old pass.new }
        ensures looks { id < rows_of self.now.limits → HasLooked pass.old pass.new }
        ensures answer { MatchResult result
            (λ n. (n ≤ MAX_ROUNDS) × AtPoint pass.old pass.new (HasHadRounds id n))
            (λ refusal. (refusal ≡ refusals.NotThere) × AtPoint pass.old pass.new (λ h. IsUnborn h id)) }
    {
        let shared = &self.shared;
        let seat = &mut pass.seat;
        if id >= shared.places.rows() {
            return Err(Refusal::NotThere);
        }
        let head = shared.head_at(seat, id);
        let Some(_) = shared.birth_from(seat, id, head) else {
            return Err(Refusal::NotThere);
        };
        let claim = shared.words.load_claim(seat, id);
        Ok(claim.tells.round())
    }
}
