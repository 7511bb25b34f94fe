//! Whether what was described can be alive in one manager at once, and go on in another one; and the families
//! of what is.
ghost use Rattle.std.specs.Prelude.{◌≡◌, ◌<◌, ◌≤◌, All, IfErr, IfSome, None, OnErr, OnOk, false, length};
ghost use Rattle.std.specs.Prelude.{true, vec_capacity};
ghost use Rattle.tp_model.specs.Steps.{IsKillable, rows_of};
ghost use Rattle.tp_rollover.specs.Anew.{families_of, highest_root};
ghost use Rattle.tp_rollover.specs.Bounds.{IsWithinLimits, attempts_had};
ghost use Rattle.tp_rollover.specs.declared.stops.Stop.TheVariants as stops;
ghost use Rattle.tp_rollover.specs.Fits.{AreApart, AreFit, IsFit, HasFamilyPlace, StopsUnfit};

use crate::births::Family;
use crate::space::refill;
use crate::stops::Stop;
use crate::survivors::Survivor;
use std::alloc::AllocError;
use tp_manager::Manager;
use tp_model::types::{Limits, MAX_ROUNDS, REPLY_STAGE, Status};

/// How many attempts an element that waits or is parked has had in its round, or `None` where it doesn't.
fn attempts_of(status: Status) -> Option<u8>
    ensures alive { IfSome result (λ times. (times ≡ attempts_had status) × IsKillable status) }
    ensures none { result ≡ None → ¬ IsKillable status }
{
    match status {
        Status::Waiting { attempts } => Some(attempts),
        Status::Held {
            unit: _,
            attempt: _,
        } => None,
        Status::Consumed { unit: _ } => None,
        Status::Parked { attempts } => Some(attempts),
        Status::Killed => None,
    }
}

/// Whether an element can have had so many attempts in its round, with the one in hand, and its rounds.
fn is_within(limits: Limits, one: Survivor, times: u8) -> bool
    requires times { times ≡ attempts_had one.status }
    ensures within { result ≡ true → IsWithinLimits limits one }
    ensures past { result ≡ false → ¬ IsWithinLimits limits one }
{
    if one.rounds > MAX_ROUNDS {
        return false;
    }
    if one.holder.is_some() {
        return times < limits.attempts;
    }
    times <= limits.attempts
}

/// Whether this can have been alive in a manager, and can be in one with these limits.
fn is_fit(of: &Manager, limits: Limits, one: Survivor) -> bool
    ensures fit { result ≡ true → IsFit of.now.limits limits one }
    ensures unfit { result ≡ false → ¬ IsFit of.now.limits limits one }
{
    if one.id >= of.capacity() {
        return false;
    }
    if one.root >= of.capacity() {
        return false;
    }
    if one.stage == 0 {
        return false;
    }
    if one.stage > REPLY_STAGE {
        return false;
    }
    let Some(times) = attempts_of(one.status) else {
        return false;
    };
    is_within(limits, one, times)
}

/// Whether each of these can.
fn are_fit(of: &Manager, limits: Limits, survivors: &[Survivor]) -> bool
    ensures fit { result ≡ true → All (IsFit of.now.limits limits) survivors.now }
    ensures unfit { result ≡ false → ¬ All (IsFit of.now.limits limits) survivors.now }
{
    for place in 0..survivors.len() {
        if !is_fit(of, limits, survivors[place]) {
            return false;
        }
    }
    true
}

/// The highest root of these.
fn highest_root(survivors: &[Survivor]) -> u32
    ensures { result ≡ highest_root survivors.now }
{
    let mut highest: u32 = 0;
    for place in 0..survivors.len() {
        highest = highest.max(survivors[place].root);
    }
    highest
}

/// A place for the family of each root up to the highest of these, with how many of its elements are alive.
/// The manager in which they are says how many there can be.
fn count_families(
    families: &mut Vec<Family>,
    of: &Manager,
    survivors: &[Survivor],
) -> Result<(), AllocError>
    requires roots { All (λ s. s.root < rows_of of.now.limits) survivors.now }
    ensures counted { OnOk result (families.new.items ≡ families_of of.now.limits survivors.now) }
    ensures places { OnOk result (All (λ s. s.root < length families.new.items) survivors.now) }
    ensures memory { OnErr result (vec_capacity families.old < rows_of of.now.limits) }
    ensures space { vec_capacity families.old ≤ vec_capacity families.new }
{
    let places = highest_root(survivors).saturating_add(1).min(of.capacity());
    let none = Family {
        carrier: None,
        left: 0,
    };
    refill(families, none, places as usize)?;
    for place in 0..survivors.len() {
        let root = survivors[place].root as usize;
        families[root] = Family {
            carrier: None,
            left: families[root].left + 1,
        };
    }
    Ok(())
}

/// Whether no element of a family is the root of another one.
fn are_apart(limits: Limits, survivors: &[Survivor], families: &[Family]) -> bool
    requires counted { families.now ≡ families_of limits survivors.now }
    ensures { result ≡ false → ¬ AreApart survivors.now }
{
    for place in 0..survivors.len() {
        let one = survivors[place];
        let id = one.id as usize;
        if one.id != one.root && id < families.len() && families[id].left > 0 {
            return false;
        }
    }
    true
}

/// The families of these, where they are fit to be made alive in this manager. `Unequal` where they aren't.
/// `of` is the manager in which they are.
pub(crate) fn families_for(
    families: &mut Vec<Family>,
    of: &Manager,
    manager: &Manager,
    survivors: &[Survivor],
) -> Result<(), Stop>
    ensures counted { OnOk result (families.new.items ≡ families_of of.now.limits survivors.now) }
    ensures may { OnOk result (All (HasFamilyPlace families.new.items) survivors.now) }
    ensures memory { IfErr result (λ stop. stop ≡ stops.NoMemory
        → vec_capacity families.old < rows_of of.now.limits) }
    ensures space { vec_capacity families.old ≤ vec_capacity families.new }
    ensures fit { OnOk result (All (IsFit of.now.limits manager.now.limits) survivors.now) }
    ensures stops { IfErr result (StopsUnfit of.now.limits manager.now.limits survivors.now) }
{
    if !are_fit(of, manager.limits(), survivors) {
        return Err(Stop::Unequal);
    }
    let Ok(()) = count_families(families, of, survivors) else {
        return Err(Stop::NoMemory);
    };
    if !are_apart(of.limits(), survivors, families) {
        return Err(Stop::Unequal);
    }
    Ok(())
}
