//! A server that changes its registers as it prepares.
ghost use Rattle.std.specs.Prelude.{◌≡◌, ◌<◌, length, Ok, Err, None, IfOk, IfErr, OnOk};
ghost use Rattle.std.specs.Option.{ForSome};
ghost use Rattle.tp_server.specs.Check.{check_of};
ghost use Rattle.tp_server.specs.Effect.{key_in};

use crate::effect;
use crate::entry::Entry;
use crate::recipe::{BadRecipe, Declined, Recipe};
use crate::registers::Registers;
use crate::server::Server;
use arrayvec::ArrayVec;
use tp_model::types::{Draft, Element};

/// A server that changes its registers as it prepares, and keeps what the one changed register was before.
#[derive(Debug, Drop)]
pub struct EagerServer {
    registers: Registers,
    recipe: Recipe,
    /// What the register of the prepared element was before, while work is prepared.
    undo: Option<Entry>,
    ghost checked: { check_of recipe ≡ Ok tt },
    ghost counted: { length registers ≡ recipe.registers },
    ghost in_range: { ForSome undo (λ entry. key_in entry.element.body < length registers) },
}

impl EagerServer {
    ghost use Rattle.tp_server.specs.Behaviour.{behaviour_of};
    ghost use Rattle.tp_server.specs.Check.{check_with};

    /// A server with this recipe and these registers, with nothing prepared.
    ///
    /// It is refused as `Recipe::check` refuses the recipe, and then as `BadRegisters` where the recipe asks
    /// for more or fewer registers than these. A refusal gives the registers up.
    pub fn new(registers: Registers, recipe: Recipe) -> Result<EagerServer, BadRecipe>
        ensures refusal { IfErr result (λ why. check_with registers recipe ≡ Err why) }
        ensures made { OnOk result (check_with registers recipe ≡ Ok tt) }
        ensures behaviour { IfOk result (λ s. ⟦<EagerServer as Server>⟧.behaviour s ≡ behaviour_of recipe) }
        ensures registers { IfOk result (λ s. ⟦<EagerServer as Server>⟧.registers s ≡ registers) }
        ensures not_prepared { IfOk result (λ s. ⟦<EagerServer as Server>⟧.pending s ≡ None) }
    {
        recipe.check_with(&registers)?;
        Ok(EagerServer {
            registers,
            recipe,
            undo: None,
        })
    }

    /// What the server does with an element.
    pub fn recipe(&self) -> &Recipe
        ensures { ⟦<EagerServer as Server>⟧.behaviour self.now ≡ behaviour_of result.now }
    {
        &self.recipe
    }
}

impl Server for EagerServer {
    ghost use Rattle.tp_server.specs.Behaviour.{behaviour_of};
    ghost use Rattle.tp_server.specs.Entries.{restored, where_kept};

    ghost behaviour = { λ s. behaviour_of s.recipe };

    ghost registers = { λ s. restored s.registers s.undo };

    ghost pending = { λ s. where_kept s.registers s.undo };

    fn stage(&self) -> u8 {
        self.recipe.stage
    }

    fn count(&self) -> u64 {
        u64::from(self.registers.len())
    }

    fn balance(&self, k: u64) -> Option<u64> {
        match self.undo {
            Some(entry) if entry.element.body[0] == k => Some(entry.value),
            _ => self.registers.get(k),
        }
    }

    fn is_prepared(&self) -> bool {
        self.undo.is_some()
    }

    fn prepare(&mut self, element: &Element) -> Result<ArrayVec<Draft, 4>, Declined> {
        let after = effect::register_after(&self.recipe, &self.registers, element)?;
        let key = element.body[0];
        if let Some(value) = self.registers.get(key) {
            self.undo = Some(Entry {
                element: *element,
                value,
            });
        }
        self.registers.set(key, after);
        Ok(effect::drafts(&self.recipe, element, after))
    }

    fn commit(&mut self) {
        self.undo = None;
    }

    fn undo(&mut self) {
        if let Some(entry) = self.undo {
            self.registers.set(entry.element.body[0], entry.value);
        }
        self.undo = None;
    }
}
