//! A server that keeps the write until it commits.
ghost use Rattle.std.specs.Prelude.{◌≡◌, ◌<◌, length, Ok, Err, None, IfOk, IfErr, OnOk};
ghost use Rattle.std.specs.Option.{ForSome};
ghost use Rattle.tp_server.specs.Check.{check_of};
ghost use Rattle.tp_server.specs.Effect.{key_in};

use crate::effect;
use crate::entry::Entry;
use crate::recipe::{BadRecipe, Declined, Recipe};
use crate::registers::Registers;
use crate::server::Server;
use arrayvec::ArrayVec;
use tp_model::types::{Draft, Element};

/// A server that leaves its registers alone as it prepares, and keeps what it has to write until it commits.
#[derive(Debug, Drop)]
pub struct LazyServer {
    registers: Registers,
    recipe: Recipe,
    /// What the register of the prepared element becomes, while work is prepared.
    write: Option<Entry>,
    ghost checked: { check_of recipe ≡ Ok tt },
    ghost counted: { length registers ≡ recipe.registers },
    ghost in_range: { ForSome write (λ entry. key_in entry.element.body < length registers) },
}

impl LazyServer {
    ghost use Rattle.tp_server.specs.Behaviour.{behaviour_of};
    ghost use Rattle.tp_server.specs.Check.{check_with};

    /// A server with this recipe and these registers, with nothing prepared.
    ///
    /// It is refused as `Recipe::check` refuses the recipe, and then as `BadRegisters` where the recipe asks
    /// for more or fewer registers than these. A refusal gives the registers up.
    pub fn new(registers: Registers, recipe: Recipe) -> Result<LazyServer, BadRecipe>
        ensures refusal { IfErr result (λ why. check_with registers recipe ≡ Err why) }
        ensures made { OnOk result (check_with registers recipe ≡ Ok tt) }
        ensures behaviour { IfOk result (λ s. ⟦<LazyServer as Server>⟧.behaviour s ≡ behaviour_of recipe) }
        ensures registers { IfOk result (λ s. ⟦<LazyServer as Server>⟧.registers s ≡ registers) }
        ensures not_prepared { IfOk result (λ s. ⟦<LazyServer as Server>⟧.pending s ≡ None) }
    {
        recipe.check_with(&registers)?;
        Ok(LazyServer {
            registers,
            recipe,
            write: None,
        })
    }

    /// What the server does with an element.
    pub fn recipe(&self) -> &Recipe
        ensures { ⟦<LazyServer as Server>⟧.behaviour self.now ≡ behaviour_of result.now }
    {
        &self.recipe
    }
}

impl Server for LazyServer {
    ghost use Rattle.tp_server.specs.Behaviour.{behaviour_of};
    ghost use Rattle.tp_server.specs.Entries.{written};

    ghost behaviour = { λ s. behaviour_of s.recipe };

    ghost registers = { λ s. s.registers };

    ghost pending = { λ s. written s.registers s.write };

    fn stage(&self) -> u8 {
        self.recipe.stage
    }

    fn count(&self) -> u64 {
        u64::from(self.registers.len())
    }

    fn balance(&self, k: u64) -> Option<u64> {
        self.registers.get(k)
    }

    fn is_prepared(&self) -> bool {
        self.write.is_some()
    }

    fn prepare(&mut self, element: &Element) -> Result<ArrayVec<Draft, 4>, Declined> {
        let value = effect::register_after(&self.recipe, &self.registers, element)?;
        self.write = Some(Entry {
            element: *element,
            value,
        });
        Ok(effect::drafts(&self.recipe, element, value))
    }

    fn commit(&mut self) {
        if let Some(entry) = self.write {
            self.registers.set(entry.element.body[0], entry.value);
        }
        self.write = None;
    }

    fn undo(&mut self) {
        self.write = None;
    }
}
