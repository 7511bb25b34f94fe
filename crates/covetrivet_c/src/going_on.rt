//! A manager goes on in the next one.
use crate::fault::Fault;
use crate::home::Home;
use crate::places::has_open_from;
use crate::rolling::carry;
use std::alloc::Global;
use tp_model::types::{Limits, Refusal};

impl Home {
    ghost use Rattle.covetrivet_c.specs.Accounting.{RollSays};

    /// What is alive goes on in a new manager with these limits, whose attempts are those of the old one, and
    /// what a pass holds in the hand of the pass of the same number, which these limits have. How many
    /// elements that are.
    pub fn roll_over(&mut self, alloc: Global, limits: Limits) -> Result<usize, Fault>
        ensures answer { RollSays limits self.old self.new result }
    {
        if !self.keeper.has_all(&self.passes) {
            return Err(Fault::NotAll);
        }
        if has_open_from(&self.passes, limits.parts) {
            return Err(Fault::Refused(Refusal::BadLimits));
        }
        let new = match Home::new(alloc, limits) {
            Ok(new) => new,
            Err(fault) => return Err(fault),
        };
        let Home {
            manager,
            mut keeper,
            mut passes,
            moved: _,
        } = new;
        match carry(
            alloc,
            &self.manager,
            &mut self.keeper,
            &mut self.passes,
            &manager,
            &mut keeper,
            &mut passes,
        ) {
            Ok(moved) => {
                let count = moved.len();
                *self = Home {
                    manager,
                    keeper,
                    passes,
                    moved,
                };
                Ok(count)
            }
            Err(fault) => Err(fault),
        }
    }
}
