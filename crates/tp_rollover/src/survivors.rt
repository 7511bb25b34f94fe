//! What is alive, described so that another manager can go on with it.
ghost use Rattle.std.specs.Prelude.{◌≡◌, ◌≢◌, ◌*◌, ◌<◌, ◌≤◌, IfErr, IfOk, IfSome, None, OnOk, false, length};
ghost use Rattle.std.specs.Prelude.{true, vec_capacity};
ghost use Rattle.tp_model.specs.Steps.{IsLegal};
ghost use Rattle.tp_manager.specs.Shown.{IsOf};
ghost use Rattle.tp_rollover.specs.Thread.{Stays};
ghost use Rattle.tp_rollover.specs.Bounds.{PassMakes, describe_steps};
ghost use Rattle.tp_rollover.specs.Finding.{AreDescribed, AreLiving, IsDescribed, StandsLiving, StopsLooking};
ghost use Rattle.tp_rollover.specs.Survivors.{HasNoAttempt, IsLiving, IsStanding};
ghost use Rattle.tp_rollover.specs.Told.{HoldsAsSeen};
ghost use Rattle.tp_rollover.specs.declared.stops.Stop.TheVariants as stops;

use crate::looks::{look, rounds_had};
use crate::stops::Stop;
use tp_manager::{Manager, Pass};
use tp_model::types::{Body, Limits, Status};

/// An element that is alive: it waits, is parked, or a pass has it in hand. With its root it is all that
/// another manager needs to go on with it.
#[derive(Clone, Copy, Debug, PartialEq, Eq)]
pub struct Survivor {
    /// Its id.
    pub id: u32,
    /// The id of the client's element that it goes back to; its own where a client submitted it.
    pub root: u32,
    /// Its stage, 1 to 15.
    pub stage: u8,
    /// Its body.
    pub body: Body,
    /// Whether it waits or is parked, and how many attempts it had in its round. Of one that a pass holds:
    /// how it waited before that pass claimed it.
    pub status: Status,
    /// The number of the pass that holds it, if one does.
    pub holder: Option<u16>,
    /// How many further rounds it was given, at most three.
    pub rounds: u8,
    /// The stage of its root, 1 to 14.
    pub root_stage: u8,
    /// The body of its root.
    pub root_body: Body,
}

/// How an element with this status is described, and which pass holds it. `None` where it is over.
fn standing(limits: Limits, status: Status) -> Option<(Status, Option<u16>)>
    ensures stands { IfSome result (λ stands. IsStanding limits status stands.0 stands.1) }
    ensures none { result ≡ None → IsLiving status → HasNoAttempt status }
{
    match status {
        Status::Waiting { attempts: _ } => Some((status, None)),
        Status::Held { unit, attempt } => {
            let attempts = attempt.checked_sub(1)?;
            Some((
                Status::Waiting { attempts },
                Some(unit / limits.units.max(1)),
            ))
        }
        Status::Consumed { unit: _ } => None,
        Status::Parked { attempts: _ } => Some((status, None)),
        Status::Killed => None,
    }
}

/// Describes the element with this id, which was found alive.
fn describe(manager: &Manager, pass: &mut Pass, id: u32) -> Result<Survivor, Stop>
    requires own { IsOf manager.now pass.old }
    ensures own { IsOf manager.now pass.new }
    ensures stays { Stays pass.old pass.new }
    ensures steps { PassMakes (describe_steps manager.now.limits) pass.old pass.new }
    ensures stops { let l = manager.now.limits in
        IfErr result (StopsLooking pass.old pass.new (λ h. IsLegal l h × StandsLiving l.attempts id h)) }
    ensures told { IfOk result (λ found.
        HoldsAsSeen pass.old pass.new (λ h. IsDescribed manager.now.limits h id found)) }
    ensures memory { IfErr result (λ stop. stop ≢ stops.NoMemory) }
{
    let Some(found) = look(manager, pass, id) else {
        return Err(Stop::Unequal);
    };
    let Some((status, holder)) = standing(manager.limits(), found.status) else {
        return Err(Stop::Unequal);
    };
    let Some(root) = look(manager, pass, found.element.root) else {
        return Err(Stop::Unequal);
    };
    let Some(rounds) = rounds_had(manager, pass, id) else {
        return Err(Stop::Unequal);
    };
    let body = found.element.body;
    let root_body = root.element.body;
    Ok(Survivor {
        id,
        root: found.element.root,
        stage: found.element.stage,
        body,
        status,
        holder,
        rounds,
        root_stage: root.element.stage,
        root_body,
    })
}

/// Describes the elements with these ids, which were found alive, in their order, and no others.
pub(crate) fn describe_all(
    found: &mut Vec<Survivor>,
    manager: &Manager,
    pass: &mut Pass,
    ids: &[u32],
) -> Result<(), Stop>
    requires own { IsOf manager.now pass.old }
    ensures own { IsOf manager.now pass.new }
    ensures stays { Stays pass.old pass.new }
    ensures steps { PassMakes (length ids.now * describe_steps manager.now.limits) pass.old pass.new }
    ensures many { OnOk result (length found.new.items ≡ length ids.now) }
    ensures full { IfErr result (λ stop. stop ≡ stops.NoMemory
        → vec_capacity found.old < length ids.now) }
    ensures space { vec_capacity found.old ≤ vec_capacity found.new }
    ensures stops { let l = manager.now.limits in
        IfErr result (StopsLooking pass.old pass.new (λ h. IsLegal l h × AreLiving l.attempts ids.now h)) }
    ensures told { OnOk result (HoldsAsSeen pass.old pass.new
        (λ h. AreDescribed manager.now.limits h ids.now found.new.items)) }
{
    found.clear();
    if found.reserve_exact(ids.len()).is_err() {
        return Err(Stop::NoMemory);
    }
    for place in 0..ids.len() {
        let one = describe(manager, pass, ids[place])?;
        if found.push(one).is_err() {
            return Err(Stop::NoMemory);
        }
    }
    Ok(())
}
