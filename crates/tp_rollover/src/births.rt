//! What was described is born in a manager, in whose passes' order, by groups.
ghost use Rattle.std.specs.Prelude.{◌≡◌, ◌≢◌, ◌+◌, ◌-◌, ◌*◌, ◌<◌, ◌≤◌, ◌++◌, All, IfErr, IfOk, OnOk};
ghost use Rattle.std.specs.Prelude.{List, None, Some, length, take, true};
ghost use Rattle.std.specs.Prelude.{vec_capacity};
ghost use Rattle.tp_model.specs.declared.event.Event.{Event};
ghost use Rattle.tp_model.specs.Steps.{IsStage, rows_of};
ghost use Rattle.tp_plain.specs.OneThread.{pass_at};
ghost use Rattle.tp_manager.specs.Bounds.{submit_steps};
ghost use Rattle.tp_manager.specs.Shown.{IsOf};
ghost use Rattle.tp_rollover.specs.Thread.{thread_of};
ghost use Rattle.tp_rollover.specs.Anew.{all_born, born_next, carrier_by, drafts_of};
ghost use Rattle.tp_rollover.specs.Anew.{home_of, named_in};
ghost use Rattle.tp_rollover.specs.Anew.{next_born, submitted_next};
ghost use Rattle.tp_rollover.specs.Bounds.{AllMake, bear_steps, commit_on_steps, gathered};
ghost use Rattle.tp_rollover.specs.Births.{born_of};
ghost use Rattle.tp_rollover.specs.Fits.{AreFit, IsFit, HasFamilyPlace};
ghost use Rattle.tp_rollover.specs.Lone.{Agrees, AgreesUnless, AreLone, bearing, lone, placing};
ghost use Rattle.tp_rollover.specs.Runs.{BearsOn, StaysInPart, newly};
ghost use Rattle.tp_rollover.specs.declared.stops.Stop.TheVariants as stops;

use crate::calls::{bear_by, submit_by, submit_run};
use crate::fitting::families_for;
use crate::groups::{drafts_of, home_of, next_group};
use crate::moved::Moved;
use crate::places::{Cursor, begin, kept_for};
use crate::stops::Stop;
use crate::survivors::Survivor;
use tp_manager::{Keeper, Manager, Pass};
use tp_model::types::Limits;

/// What stands of a family in the new manager.
#[derive(Clone, Copy)]
pub(crate) struct Family {
    /// Its root there, and the element of which its next ones are born, once there is one.
    pub carrier: Option<(u32, u32)>,
    /// How many of its elements are to be born.
    pub left: usize,
}

/// Elements that were born together: their root, the id of the first, and how many they are.
#[derive(Clone, Copy)]
struct Group {
    root: u32,
    first: u32,
    count: usize,
}

/// What is yet to be born, in its order, and the limits of the manager in which it is.
#[derive(Clone, Copy)]
struct Unborn<'s> {
    limits: Limits,
    rest: &'s [Survivor],
}

/// Those that are born next: of which element, by the next pass from which on, and whether a further carrier
/// is born with them.
#[derive(Clone, Copy)]
struct Birth<'s> {
    group: &'s [Survivor],
    more: bool,
    carrier: u32,
    home: usize,
}

/// A copy of this one's root is submitted, by the next pass from `home` on. Its id.
fn submit_root(
    one: Survivor,
    manager: &Manager,
    keeper: &mut Keeper,
    passes: &mut [Pass],
    cursor: &mut Cursor,
    home: usize,
) -> Result<u32, Stop>
    requires lone { AreLone manager.now keeper.old passes.old }
    ensures lone { AreLone manager.now keeper.new passes.new × (keeper.new.given ≡ keeper.old.given) }
    ensures steps { let l = manager.now.limits in
        AllMake (gathered l keeper.old.given (submit_steps l)) keeper.old passes.old keeper.new passes.new }
    ensures rows { IfOk result (λ id. id < rows_of manager.now.limits) }
    ensures gives { Agrees result (λ id. (id, placing manager.now keeper.new passes.new cursor.new))
        (submitted_next (length passes.old) one.root_stage one.root_body home
        (placing manager.now keeper.old passes.old cursor.old)) }
    ensures memory { IfErr result (λ stop. stop ≢ stops.NoMemory) }
{
    let at = cursor.next(manager, passes, home, 1, 0)?;
    submit_by(manager, keeper, passes, at, one.root_stage, one.root_body)
}

/// The root of a family in the new manager, and the element of which its next ones are born. Both are a copy
/// of this one's root where there is none yet.
fn carrier_of(
    one: Survivor,
    carrier: Option<(u32, u32)>,
    manager: &Manager,
    keeper: &mut Keeper,
    passes: &mut [Pass],
    cursor: &mut Cursor,
    home: usize,
) -> Result<(u32, u32), Stop>
    requires lone { AreLone manager.now keeper.old passes.old }
    ensures lone { AreLone manager.now keeper.new passes.new × (keeper.new.given ≡ keeper.old.given) }
    ensures steps { let l = manager.now.limits in
        AllMake (gathered l keeper.old.given (submit_steps l)) keeper.old passes.old keeper.new passes.new }
    ensures gives { Agrees result (λ has. (has, placing manager.now keeper.new passes.new cursor.new))
        (carrier_by (length passes.old) one home carrier
        (placing manager.now keeper.old passes.old cursor.old)) }
    ensures memory { IfErr result (λ stop. stop ≢ stops.NoMemory) }
{
    match carrier {
        Some(carrier) => Ok(carrier),
        None => {
            let id = submit_root(one, manager, keeper, passes, cursor, home)?;
            Ok((id, id))
        }
    }
}

/// These are born. The id of the first.
fn bear_group(
    birth: &Birth,
    manager: &Manager,
    keeper: &mut Keeper,
    passes: &mut [Pass],
    cursor: &mut Cursor,
) -> Result<u32, Stop>
    requires lone { AreLone manager.now keeper.old passes.old }
    requires some { 1 ≤ length birth.now.group.now }
    requires few { length birth.now.group.now ≤ 4 }
    requires room { birth.now.more ≡ true → length birth.now.group.now ≤ 3 }
    requires stages { All (λ s. IsStage s.stage) birth.now.group.now }
    ensures lone { AreLone manager.now keeper.new passes.new × (keeper.new.given ≡ keeper.old.given) }
    ensures steps { let n = length birth.now.group.now in
        AllMake (commit_on_steps manager.now.limits keeper.old.given (n + 1))
        keeper.old passes.old keeper.new passes.new }
    ensures rows { let n = length birth.now.group.now in
        IfOk result (λ first. first + n ≤ rows_of manager.now.limits) }
    ensures gives { Agrees result (λ first. (first, placing manager.now keeper.new passes.new cursor.new))
        (born_next (length passes.old) (drafts_of birth.now.group.now birth.now.more) birth.now.carrier
        birth.now.home
        (placing manager.now keeper.old passes.old cursor.old)) }
    ensures memory { IfErr result (λ stop. stop ≢ stops.NoMemory) }
{
    let drafts = drafts_of(birth.group);
    let alone = birth.group.len();
    let count = if birth.more { alone + 1 } else { alone };
    let at = cursor.next(manager, passes, birth.home, count as u16, 1)?;
    bear_by(manager, keeper, passes, at, birth.carrier, &drafts[..count])
}

/// The next of these are born: a root by itself, or neighbours of one family.
fn bear_next(
    unborn: &Unborn,
    manager: &Manager,
    keeper: &mut Keeper,
    passes: &mut [Pass],
    families: &mut [Family],
    cursor: &mut Cursor,
) -> Result<Group, Stop>
    requires lone { AreLone manager.now keeper.old passes.old }
    requires some { 1 ≤ length unborn.now.rest.now }
    requires may { All (HasFamilyPlace families.old) unborn.now.rest.now }
    ensures lone { AreLone manager.now keeper.new passes.new × (keeper.new.given ≡ keeper.old.given) }
    ensures long { length families.new ≡ length families.old }
    ensures inside { IfOk result (λ group. (1 ≤ group.count) × (group.count ≤ length unborn.now.rest.now)) }
    ensures few { IfOk result (λ group. group.count ≤ 4) }
    ensures rows { IfOk result (λ group.
        2 ≤ group.count → group.first + group.count ≤ rows_of manager.now.limits) }
    ensures steps { let n = born_of unborn.now.rest.now result in
        AllMake (n * bear_steps manager.now.limits keeper.old.given 1)
        keeper.old passes.old keeper.new passes.new }
    ensures gives { Agrees result
        (λ group. (group, bearing manager.now keeper.new passes.new cursor.new families.new))
        (next_born unborn.now.limits (length passes.old) unborn.now.rest.now
        (bearing manager.now keeper.old passes.old cursor.old families.old)) }
    ensures memory { IfErr result (λ stop. stop ≢ stops.NoMemory) }
{
    let next = unborn.rest[0];
    let place = next.root as usize;
    let family = families[place];
    let home = home_of(unborn.limits, next.id);
    let (root, carrier) = carrier_of(next, family.carrier, manager, keeper, passes, cursor, home)?;
    if next.id == next.root {
        return Ok(Group {
            root,
            first: root,
            count: 1,
        });
    }
    let (count, more) = next_group(unborn.limits, unborn.rest, family.left);
    let birth = Birth {
        group: &unborn.rest[..count],
        more,
        carrier,
        home,
    };
    let first = bear_group(&birth, manager, keeper, passes, cursor)?;
    families[place] = Family {
        carrier: Some((root, after(manager, first, count))),
        left: family.left.saturating_sub(count),
    };
    Ok(Group { root, first, count })
}

/// The id behind so many elements of a manager, of which the first has this one.
fn after(manager: &Manager, first: u32, count: usize) -> u32
    requires few { count ≤ 4 }
    requires rows { 1 ≤ count → first + count ≤ rows_of manager.now.limits }
    ensures { result ≡ first + count }
{
    if count == 0 {
        return first;
    }
    let rows = manager.capacity();
    rows.min(first + count as u32)
}

/// Names the elements of a group that was born in this manager.
fn name(
    manager: &Manager,
    moved: &mut Vec<Moved>,
    rest: &[Survivor],
    group: Group,
) -> Result<(), Stop>
    requires inside { group.count ≤ length rest.now }
    requires few { group.count ≤ 4 }
    requires rows { 2 ≤ group.count → group.first + group.count ≤ rows_of manager.now.limits }
    ensures named { Agrees result (λ _. moved.new.items) (Some (moved.old.items ++ named_in group rest.now)) }
    ensures many { OnOk result (length moved.new.items ≡ length moved.old.items + group.count) }
    ensures memory { IfErr result (λ stop. stop ≡ stops.NoMemory
        → vec_capacity moved.old < length moved.old.items + length rest.now) }
    ensures space { vec_capacity moved.old ≤ vec_capacity moved.new }
{
    for place in 0..group.count {
        let one = Moved {
            old: rest[place].id,
            new: after(manager, group.first, place),
            old_root: rest[place].root,
            new_root: group.root,
            holder: rest[place].holder,
        };
        if moved.push(one).is_err() {
            return Err(Stop::NoMemory);
        }
    }
    Ok(())
}

/// Whether this is a request of a family of which nothing is born yet, and goes on in the part of the pass
/// that is in use.
fn goes_on(limits: Limits, one: Survivor, passes: usize, at: usize, families: &[Family]) -> bool
    ensures { result ≡ true → StaysInPart limits passes at families.now one }
{
    if one.id != one.root {
        return false;
    }
    let place = one.root as usize;
    if place >= families.len() {
        return false;
    }
    let family = families[place];
    match family.carrier {
        Some(_carrier) => false,
        None => begin(passes, at, home_of(limits, one.id)) == at,
    }
}

/// How many of these are requests that this pass submits next, one after another: as many as go on in its
/// part, while rows of that are left.
fn run_of(
    limits: Limits,
    rest: &[Survivor],
    manager: &Manager,
    passes: &[Pass],
    at: usize,
    families: &[Family],
) -> usize
    requires own { All (IsOf manager.now) passes.now }
    requires at { at < length passes.now }
    ensures inside { result ≤ length rest.now }
    ensures rows { (h : List Event) → let s = thread_of manager.now.limits passes.now h in
        result ≤ (pass_at s at).left }
    ensures on { All (StaysInPart limits (length passes.now) at families.now) (take result rest.now) }
{
    let room = manager.room(&passes[at]);
    let end = rest.len().min(usize::from(room.rows));
    for place in 0..end {
        if !goes_on(limits, rest[place], passes.len(), at, families) {
            return place;
        }
    }
    end
}

/// The next of these are born and named: a run of requests by the pass whose part is in use, or else one
/// group.
fn bear_turn(
    unborn: &Unborn,
    manager: &Manager,
    keeper: &mut Keeper,
    passes: &mut [Pass],
    families: &mut [Family],
    cursor: &mut Cursor,
    moved: &mut Vec<Moved>,
) -> Result<(), Stop>
    requires lone { AreLone manager.now keeper.old passes.old }
    requires some { 1 ≤ length unborn.now.rest.now }
    requires may { All (HasFamilyPlace families.old) unborn.now.rest.now }
    ensures lone { AreLone manager.now keeper.new passes.new × (keeper.new.given ≡ keeper.old.given) }
    ensures long { length families.new ≡ length families.old }
    ensures steps { let n = newly unborn.now.rest.now moved.old.items moved.new.items result in
        AllMake (n * bear_steps manager.now.limits keeper.old.given 1)
        keeper.old passes.old keeper.new passes.new }
    ensures on { BearsOn unborn.now.limits (length passes.old) unborn.now.rest.now moved.old.items
        moved.new.items
        (bearing manager.now keeper.old passes.old cursor.old families.old)
        (bearing manager.now keeper.new passes.new cursor.new families.new) result }
    ensures memory { IfErr result (λ stop. stop ≡ stops.NoMemory
        → vec_capacity moved.old < length moved.old.items + length unborn.now.rest.now) }
    ensures space { vec_capacity moved.old ≤ vec_capacity moved.new }
{
    let at = cursor.at;
    if at < passes.len() {
        let count = run_of(unborn.limits, unborn.rest, manager, passes, at, families);
        if count > 0 {
            return submit_run(manager, keeper, passes, at, &unborn.rest[..count], moved);
        }
    }
    let group = bear_next(unborn, manager, keeper, passes, families, cursor)?;
    name(manager, moved, unborn.rest, group)
}

/// All these are born in a manager, in their order. `moved` is what they are there. `of` is the manager in
/// which they are, by whose parts each goes on as an element of the pass of the same number.
pub(crate) fn bear_all(
    moved: &mut Vec<Moved>,
    families: &mut Vec<Family>,
    of: &Manager,
    survivors: &[Survivor],
    manager: &Manager,
    keeper: &mut Keeper,
    passes: &mut [Pass],
) -> Result<(), Stop>
    requires lone { AreLone manager.now keeper.old passes.old }
    ensures lone { AreLone manager.now keeper.new passes.new × (keeper.new.given ≡ keeper.old.given) }
    ensures many { OnOk result (length moved.new.items ≡ length survivors.now) }
    ensures memory { IfErr result (λ stop. stop ≡ stops.NoMemory
        → length survivors.now ≤ vec_capacity moved.old → vec_capacity families.old < rows_of of.now.limits) }
    ensures space { vec_capacity moved.old ≤ vec_capacity moved.new }
    ensures families { vec_capacity families.old ≤ vec_capacity families.new }
    ensures fit { OnOk result (All (IsFit of.now.limits manager.now.limits) survivors.now) }
    ensures steps { let n = length survivors.now in
        AllMake (n * bear_steps manager.now.limits keeper.old.given 1)
        keeper.old passes.old keeper.new passes.new }
    ensures gives { let l = of.now.limits in
        let computed = all_born l (length passes.old) survivors.now
        (lone manager.now keeper.old passes.old) in
        AgreesUnless (AreFit l manager.now.limits survivors.now → computed ≡ None) result
        (λ _. (moved.new.items, lone manager.now keeper.new passes.new)) computed }
{
    moved.clear();
    if survivors.is_empty() {
        return Ok(());
    }
    if moved.reserve_exact(survivors.len()).is_err() {
        return Err(Stop::NoMemory);
    }
    families_for(families, of, manager, survivors)?;
    let mut cursor = Cursor::start(kept_for(survivors));
    for _turn in 0..survivors.len() {
        let from = moved.len();
        if from >= survivors.len() {
            break;
        }
        let unborn = Unborn {
            limits: of.limits(),
            rest: &survivors[from..],
        };
        bear_turn(
            &unborn,
            manager,
            keeper,
            passes,
            families,
            &mut cursor,
            moved,
        )?;
    }
    Ok(())
}
