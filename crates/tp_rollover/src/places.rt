//! Which pass of the new manager makes the next elements.
ghost use Rattle.std.specs.Prelude.{◌≡◌, ◌≢◌, ◌-◌, ◌<◌, ◌≤◌, All, IfErr, IfOk, IfSome, List, None, length};
ghost use Rattle.tp_model.specs.declared.event.Event.{Event};
ghost use Rattle.tp_manager.specs.Shown.{IsOf};
ghost use Rattle.tp_rollover.specs.Thread.{thread_of};
ghost use Rattle.tp_rollover.specs.Anew.{drawer, first_from, has_left, last_below, next_pass, start_at};
ghost use Rattle.tp_rollover.specs.Anew.{kept_for, least_units, with_holder, would_draw};
ghost use Rattle.tp_rollover.specs.Lone.{Agrees};
ghost use Rattle.tp_rollover.specs.declared.stops.Stop.TheVariants as stops;

use crate::stops::Stop;
use crate::survivors::Survivor;
use tp_manager::{Manager, Pass};
use tp_model::types::MAX_PASSES;

/// Which passes are to hold an element. Each keeps a unit for it.
pub(crate) type Kept = [bool; MAX_PASSES as usize];

/// The pass that is to hold an element, if one is, keeps a unit.
fn keep(kept: &mut Kept, holder: Option<u16>)
    ensures { kept.new ≡ with_holder holder kept.old }
{
    let Some(holder) = holder else {
        return;
    };
    let at = usize::from(holder);
    if at < kept.len() {
        kept[at] = true;
    }
}

/// Which passes are to hold one of these.
pub(crate) fn kept_for(survivors: &[Survivor]) -> Kept
    ensures { result ≡ kept_for survivors.now }
{
    let mut kept = [false; MAX_PASSES as usize];
    for place in 0..survivors.len() {
        keep(&mut kept, survivors[place].holder);
    }
    kept
}

/// How many units the pass has to have left, to use so many and keep the one.
fn least_units(kept: &Kept, units: u16, at: usize) -> u16
    requires few { units ≤ 1 }
    ensures { result ≡ least_units kept.now units at }
{
    if units == 0 {
        return 0;
    }
    if at < kept.len() && kept[at] {
        return units + 1;
    }
    units
}

/// How far the passes of the new manager are used. Ids ascend: the parts are used one after another, and then
/// spare blocks.
#[derive(Clone, Copy)]
pub(crate) struct Cursor {
    /// The pass whose part is in use, or as many as there are passes where spare blocks are.
    pub at: usize,
    /// The pass that draws spare blocks.
    pub block: Option<usize>,
    /// Which passes keep a unit.
    pub kept: Kept,
}

/// The first pass from this one on that has so many rows and units of work left, beside the unit that it
/// keeps.
pub(crate) fn first_with(
    manager: &Manager,
    passes: &[Pass],
    kept: &Kept,
    from: usize,
    rows: u16,
    units: u16,
) -> Option<usize>
    requires own { All (IsOf manager.now) passes.now }
    requires few { units ≤ 1 }
    ensures inside { IfSome result (λ at. at < length passes.now) }
    ensures first { (h : List Event) → result
        ≡ first_from (has_left kept.now (thread_of manager.now.limits passes.now h) rows units) from
        (length passes.now - from) }
{
    for at in from..passes.len() {
        let room = manager.room(&passes[at]);
        let least = least_units(kept, units, at);
        if room.rows >= rows && room.units >= least {
            return Some(at);
        }
    }
    None
}

/// The last pass that has the units, and too few rows, so that it draws a spare block.
fn last_drawing(
    manager: &Manager,
    passes: &[Pass],
    kept: &Kept,
    rows: u16,
    units: u16,
) -> Option<usize>
    requires own { All (IsOf manager.now) passes.now }
    requires few { units ≤ 1 }
    ensures inside { IfSome result (λ at. at < length passes.now) }
    ensures last { (h : List Event) → result
        ≡ last_below (would_draw kept.now (thread_of manager.now.limits passes.now h) rows units)
        (length passes.now) }
{
    for back in 0..passes.len() {
        let at = passes.len() - 1 - back;
        let room = manager.room(&passes[at]);
        let least = least_units(kept, units, at);
        if room.rows < rows && room.units >= least {
            return Some(at);
        }
    }
    None
}

/// The pass that goes on in spare blocks: the one that did, as long as it has the units, or else one that has
/// too few rows and so draws.
fn drawing(
    manager: &Manager,
    passes: &[Pass],
    kept: &Kept,
    block: Option<usize>,
    rows: u16,
    units: u16,
) -> Option<usize>
    requires own { All (IsOf manager.now) passes.now }
    requires few { units ≤ 1 }
    ensures inside { IfSome result (λ at. at < length passes.now) }
    ensures drawer { (h : List Event) → result
        ≡ drawer kept.now (length passes.now) (thread_of manager.now.limits passes.now h) rows units block }
{
    let Some(at) = block else {
        return last_drawing(manager, passes, kept, rows, units);
    };
    if at >= passes.len() {
        return last_drawing(manager, passes, kept, rows, units);
    }
    let least = least_units(kept, units, at);
    if manager.room(&passes[at]).units < least {
        return last_drawing(manager, passes, kept, rows, units);
    }
    Some(at)
}

/// Where the search for a pass begins: at `home` where the parts below that are all that is used.
pub(crate) fn begin(passes: usize, at: usize, home: usize) -> usize
    ensures { result ≡ start_at passes at home }
{
    if at >= home {
        return at;
    }
    if home >= passes {
        return at;
    }
    home
}

impl Cursor {
    /// Nothing is used, and these passes keep a unit.
    pub(crate) fn start(kept: Kept) -> Cursor
        ensures { result ≡ record { at = 0; block = None; kept = kept } }
    {
        Cursor {
            at: 0,
            block: None,
            kept,
        }
    }

    /// The pass that makes so many elements next, with so many units of work. It is `home` where the parts
    /// below that are all that is used, and the part of `home` has the rows; else a later part, or spare
    /// blocks.
    pub(crate) fn next(
        &mut self,
        manager: &Manager,
        passes: &[Pass],
        home: usize,
        rows: u16,
        units: u16,
    ) -> Result<usize, Stop>
        requires own { All (IsOf manager.now) passes.now }
        requires few { units ≤ 1 }
        ensures inside { IfOk result (λ at. at < length passes.now) }
        ensures gives { (h : List Event) → Agrees result (λ at. (at, self.new))
            (next_pass (length passes.now) (thread_of manager.now.limits passes.now h) home rows units
            self.old) }
        ensures memory { IfErr result (λ stop. stop ≢ stops.NoMemory) }
    {
        let from = begin(passes.len(), self.at, home);
        match first_with(manager, passes, &self.kept, from, rows, units) {
            Some(at) => {
                self.at = at;
                Ok(at)
            }
            None => {
                let Some(at) = drawing(manager, passes, &self.kept, self.block, rows, units) else {
                    return Err(Stop::Full);
                };
                self.at = passes.len();
                self.block = Some(at);
                Ok(at)
            }
        }
    }
}
