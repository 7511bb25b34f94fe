//! A manager with its keeper, and the passes that are at home.
ghost use Rattle.std.specs.Prelude.{◌≤◌, All, vec_capacity};
ghost use Rattle.std.specs.Arc.{arc_value};
ghost use Rattle.tp_manager.specs.Shown.{IsKeptBy, IsOf};

use crate::caller::{Caller, pass_of};
use crate::fault::Fault;
use crate::places::{place_of, place_with};
use std::alloc::Global;
use std::sync::Arc;
use tp_manager::{Keeper, MakeFault, Manager, Pass};
use tp_model::types::{Limits, Refusal};
use tp_rollover::{Managed, Moved};

/// An owner of a manager, its keeper, the passes that no caller has, with room for all that there are, and what
/// the last rollover carried over.
#[derive(Drop)]
pub struct Home {
    pub manager: Arc<Manager, Global>,
    pub keeper: Keeper,
    pub passes: Vec<Pass>,
    pub moved: Vec<Moved>,
    pub ghost kept: { IsKeptBy (arc_value manager) keeper },
    pub ghost own: { All (IsOf (arc_value manager)) passes.items },
    pub ghost room: { (arc_value manager).limits.parts ≤ vec_capacity passes },
}

impl Home {
    ghost use Rattle.std.specs.Prelude.{◌≡◌, ◌<◌, ◌≤◌, IfOk, IfErr, MatchResult, OnErr, length};
    ghost use Rattle.std.specs.List.{slice_index_or};
    ghost use Rattle.tp_model.specs.declared.types.Refusal.TheVariants as refusals;
    ghost use Rattle.covetrivet_c.specs.declared.fault.Fault.TheVariants as faults;
    ghost use Rattle.covetrivet_c.specs.Homes.{IsNewHome, IsNumberUnlent, IsUnlent, IsUnmade, LendsFirst};
    ghost use Rattle.covetrivet_c.specs.Homes.{LendsNumber, LendsPlace, TakesHome};

    /// A manager with these limits, all of whose passes are at home.
    pub fn new(alloc: Global, limits: Limits) -> Result<Home, Fault>
        ensures made { IfOk result (IsNewHome limits) }
        ensures unmade { IfErr result (IsUnmade limits) }
    {
        match Managed::new(alloc, limits) {
            Ok(made) => {
                let Managed {
                    manager,
                    keeper,
                    passes,
                } = made;
                match Arc::new(alloc, manager) {
                    Ok(manager) => Ok(Home {
                        manager,
                        keeper,
                        passes,
                        moved: Vec::new(alloc),
                    }),
                    Err(_) => Err(Fault::Refused(Refusal::NoMemory)),
                }
            }
            Err(MakeFault::NoMemory) => Err(Fault::Refused(Refusal::NoMemory)),
            Err(MakeFault::BadLimits) => Err(Fault::Refused(Refusal::BadLimits)),
            Err(MakeFault::NoPart) => unreachable!(),
        }
    }

    /// The same on the heap.
    pub fn boxed(alloc: Global, limits: Limits) -> Result<Box<Home, Global>, Fault>
        ensures { MatchResult result (λ b. IsNewHome limits b.value) (IsUnmade limits) }
    {
        match Home::new(alloc, limits) {
            Ok(home) => match Box::new(alloc, home) {
                Ok(home) => Ok(home),
                Err(_) => Err(Fault::Refused(Refusal::NoMemory)),
            },
            Err(fault) => Err(fault),
        }
    }

    /// A caller with the pass in this place of those that are at home. `NoMemory`.
    fn lend_from(&mut self, alloc: Global, place: usize) -> Result<Box<Caller, Global>, Fault>
        requires inside { place < length self.old.passes.items }
        ensures same { (self.new.manager ≡ self.old.manager) × (self.new.keeper ≡ self.old.keeper)
            × (self.new.moved ≡ self.old.moved) }
        ensures lent { MatchResult result
            (λ b. (arc_value b.value.manager ≡ arc_value self.old.manager)
            × LendsPlace place self.old.passes.items b.value.pass self.new.passes.items)
            (λ f. (self.new.passes.items ≡ self.old.passes.items)
            × (f ≡ faults.Refused refusals.NoMemory)) }
        ensures at { IfOk result (λ b.
            b.value.pass ≡ slice_index_or self.old.passes.items place b.value.pass) }
    {
        let Ok(manager) = Arc::try_clone(&self.manager) else {
            return Err(Fault::Refused(Refusal::NoMemory));
        };
        let pass = self.passes.remove(place);
        match Box::new(alloc, Caller { manager, pass }) {
            Ok(caller) => Ok(caller),
            Err(refused) => {
                let Ok(()) = self.passes.insert(place, pass_of(refused.value)) else {
                    unreachable!();
                };
                Err(Fault::Refused(Refusal::NoMemory))
            }
        }
    }

    /// A caller with the first pass that is at home. `NoPart` where none is, `NoMemory`.
    pub fn lend(&mut self, alloc: Global) -> Result<Box<Caller, Global>, Fault>
        ensures same { (self.new.manager ≡ self.old.manager) × (self.new.keeper ≡ self.old.keeper)
            × (self.new.moved ≡ self.old.moved) }
        ensures lent { MatchResult result
            (λ b. (arc_value b.value.manager ≡ arc_value self.old.manager)
            × LendsFirst self.old.passes.items b.value.pass self.new.passes.items)
            (λ f. (self.new.passes.items ≡ self.old.passes.items) × IsUnlent self.old.passes.items f) }
    {
        if self.passes.len() == 0 {
            return Err(Fault::NoPart);
        }
        self.lend_from(alloc, 0)
    }

    /// A caller with the pass of this number, if that is at home. `NoPart` where it isn't, `NoMemory`.
    pub fn lend_number(&mut self, alloc: Global, number: u16) -> Result<Box<Caller, Global>, Fault>
        ensures same { (self.new.manager ≡ self.old.manager) × (self.new.keeper ≡ self.old.keeper)
            × (self.new.moved ≡ self.old.moved) }
        ensures lent { MatchResult result
            (λ b. (arc_value b.value.manager ≡ arc_value self.old.manager)
            × LendsNumber number self.old.passes.items b.value.pass self.new.passes.items)
            (λ f. (self.new.passes.items ≡ self.old.passes.items)
            × IsNumberUnlent number self.old.passes.items f) }
    {
        let Some(place) = place_with(&self.passes, number) else {
            return Err(Fault::NoPart);
        };
        self.lend_from(alloc, place)
    }

    /// Takes a caller's pass home again. The caller comes back where there is no room for it, which is where
    /// as many passes are at home as the manager has: so never one of its own.
    pub fn hand_back(&mut self, caller: Box<Caller, Global>) -> Result<(), Box<Caller, Global>>
        requires of { arc_value caller.value.manager ≡ arc_value self.old.manager }
        ensures same { (self.new.manager ≡ self.old.manager) × (self.new.keeper ≡ self.old.keeper)
            × (self.new.moved ≡ self.old.moved) }
        ensures back { MatchResult result
            (λ _. TakesHome caller.value.pass self.old.passes.items self.new.passes.items)
            (λ b. (self.new.passes.items ≡ self.old.passes.items) × (b.value ≡ caller.value)) }
        ensures full { OnErr result
            ((arc_value self.old.manager).limits.parts ≤ length self.old.passes.items) }
    {
        if self.passes.len() >= self.passes.capacity() {
            return Err(caller);
        }
        let pass = pass_of(Box::into_inner(caller));
        let place = place_of(&self.passes, pass.number());
        let Ok(()) = self.passes.insert(place, pass) else {
            unreachable!();
        };
        Ok(())
    }
}
