//! The whole effect of a recipe on an element, before anything is changed.
ghost use Rattle.std.specs.Prelude.{◌≡◌, ◌<◌, Ok, Err, length, slice_set, IfOk, IfErr};
ghost use Rattle.tp_server.specs.Check.{check_of};
ghost use Rattle.tp_server.specs.Effect.{effect_of, key_in};

use crate::effect;
use crate::recipe::{Declined, Recipe};
use crate::registers::Registers;
use arrayvec::ArrayVec;
use tp_model::types::{Draft, Element};

/// What work on an element comes to: what the register of the element's key becomes, and the outputs.
#[derive(Debug, Drop)]
pub struct Prepared {
    /// The register of the element's key after the act.
    pub after: u64,
    /// The outputs, in the recipe's order.
    pub drafts: ArrayVec<Draft, 4>,
}

impl Recipe {
    /// The effect on an element of a server with these registers, or why it declines. Nothing is changed.
    pub fn effect(&self, registers: &Registers, element: &Element) -> Result<Prepared, Declined>
        requires { check_of self.now ≡ Ok tt }
        ensures ok { IfOk result (λ p. effect_of self.now registers.now element.now
            ≡ Ok (record {
              registers = slice_set registers.now (key_in element.now.body) p.after;
              drafts = p.drafts.items;
            })) }
        ensures err { IfErr result (λ why. effect_of self.now registers.now element.now ≡ Err why) }
        ensures in_range { IfOk result (λ _. key_in element.now.body < length registers.now) }
    {
        let after = effect::register_after(self, registers, element)?;
        let drafts = effect::drafts(self, element, after);
        Ok(Prepared { after, drafts })
    }
}
