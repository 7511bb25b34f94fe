//! The manager, the keeper that hands out its passes, and the passes.
ghost use Rattle.std.specs.Prelude.{◌≡◌, ◌↔◌, ◌+◌, ◌-◌, ◌*◌, ◌<◌, ◌≤◌, ℕ, [], length, true, false, None};
ghost use Rattle.std.specs.Prelude.{IfOk, IfErr, is_some, Err};
ghost use Rattle.tp_model.specs.Steps.{AreLimits, rows_of};
ghost use Rattle.tp_model.specs.Passes.{IsPassView};
ghost use Rattle.tp_rule.specs.Views.{fresh_from, view_of};
ghost use Rattle.tp_rule.specs.Tables.{table_limits};
ghost use Rattle.tp_rule.specs.Steps.{IsLow};
ghost use Rattle.tp_manager.specs.Calls.{Follows, claims_in};
ghost use Rattle.tp_manager.specs.Shown.{low_of, turn_of, view_in, IsOf, IsKeptBy};
ghost use Rattle.tp_manager.specs.declared.manager.MakeFault.TheVariants as faults;

use crate::error_units::UnitsSeen;
use crate::gaps::Gaps;
use crate::marking::{Lows, MARKED_PARTS};
use crate::row_set::{NoRows, RowSet};
use crate::streak::Streak;
use std::alloc::Global;
use std::marker::Model;
use tp_model::types::Limits;
use tp_rule::{MARK_KINDS, Places, Seat, Words};

/// Why a manager could not be made, or a pass not be given out.
#[derive(Clone, Copy, Debug, PartialEq, Eq)]
pub enum MakeFault {
    /// Memory could not be had.
    NoMemory,
    /// A limit is outside its range.
    BadLimits,
    /// All passes are given out.
    NoPart,
}

/// The words that all passes share, and where they are.
#[derive(Drop)]
pub(crate) struct Shared {
    pub words: Words,
    pub places: Places,
    pub ghost same: { table_limits words ≡ places.limits },
}

/// A manager of queued requests, that callers share: each call takes `&self` and the caller's own pass.
#[derive(Drop)]
pub struct Manager {
    pub(crate) shared: Shared,
}

impl Model for Manager {
    ghost use Rattle.tp_rule.specs.Tables.{table_of};
    ghost use Rattle.tp_manager.specs.Shown.{ManagerShown};

    ghost Value = { ManagerShown };

    ghost view = { λ m. record { table = table_of m.shared.words; limits = m.shared.places.limits } };
}

/// What gives out the passes of a manager.
#[derive(Drop)]
pub struct Keeper {
    pub(crate) seat: Seat,
    limits: Limits,
    pub(crate) given: u16,
}

impl Model for Keeper {
    ghost use Rattle.tp_manager.specs.Shown.{KeeperShown, steps_in};

    ghost Value = { KeeperShown };

    ghost view = { λ k. record {
      table = k.seat.table;
      limits = k.limits;
      given = k.given;
      seen = k.seat.view.seen;
      steps = steps_in k.seat.view.hands;
    } };

    ghost use Rattle.tp_manager.specs.BetweenCalls.{Keeps};

    ghost invariant = { λ k. Keeps k.seat k.limits k.given };
}

/// The unit of work that a pass has open, and the root and the row of the element that it took.
#[derive(Clone, Copy)]
pub(crate) struct Task {
    pub unit: u16,
    pub root: u16,
    pub row: u32,
}

/// The rows that are left to a pass: this many, from the row `next` on. Of those right before it at least
/// `tail` were published in stage `tail_stage`. And how many spare blocks were drawn, as the pass last loaded
/// or set it, and the row of the element that it has consumed last.
#[derive(Clone, Copy)]
pub(crate) struct Run {
    pub next: u16,
    pub left: u16,
    pub tail: u16,
    pub tail_stage: u8,
    pub drawn: u16,
    pub done: Option<u32>,
}

/// What is left to a pass.
#[derive(Clone, Copy, Debug, PartialEq, Eq)]
pub struct Room {
    /// How many elements it can make before it draws a spare block, 0 to 256.
    pub rows: u16,
    /// How many units of work it can begin, 0 to 1,024.
    pub units: u16,
}

/// What one caller acts through, one call at a time. A pass that is dropped leaves its open unit open: the
/// element stays held, and a kill still takes it.
#[derive(Drop)]
pub struct Pass {
    pub(crate) seat: Seat,
    pub(crate) number: u16,
    pub(crate) run: Run,
    pub(crate) used: u16,
    pub(crate) task: Option<Task>,
    /// The units that it has committed last.
    pub(crate) streak: Streak,
    /// The marks of each kind and part, as the pass last loaded or set them, or as far as a raise of a
    /// stage's mark that failed would have set it.
    pub(crate) lows: [Lows; MARK_KINDS],
    /// For each stage and part a run of rows of no use to the stage, and before it one of rows of the stage,
    /// as far as the pass remembers them.
    pub(crate) gaps: [Gaps; MARK_KINDS],
    /// For each stage a part before which the pass knows all finished, as its last claim found it.
    pub(crate) begins: [u16; MARK_KINDS],
    /// What it has seen of units.
    pub(crate) units: UnitsSeen,
    /// For each stage the row after the element that it took last in its turn.
    pub(crate) from: [u32; 16],
    /// The rows that a walk has come to and not gone on from: none, between two calls.
    pub(crate) walk: NoRows,
}

impl Model for Pass {
    ghost use Rattle.tp_manager.specs.Shown.{PassShown, shown, spot};

    ghost Value = { PassShown };

    ghost use Rattle.tp_manager.specs.BetweenCalls.{Rests};
    ghost use Rattle.tp_manager.specs.Marks.{Recalls};

    ghost view = { λ p. shown (spot p.seat.table p.lows p.run.drawn p.from) p.seat.view };

    ghost invariant = { λ p. Rests p.seat p.number p.run p.used p.task
        × Recalls p.seat.view p.lows p.gaps p.begins p.units.committed p.streak };
}

impl Keeper {
    /// A manager with these limits, and the keeper of its passes. `BadLimits` where a limit is outside its
    /// range, and `NoMemory` where the allocator has refused, and only there.
    pub fn new(alloc: Global, limits: Limits) -> Result<(Manager, Keeper), MakeFault>
        ensures keeper { IfOk result (λ made. IsKeptBy made.0 made.1 × (made.1.given ≡ 0)) }
        ensures fresh { IfOk result (λ made. (made.1.seen ≡ []) × (made.1.steps ≡ 0)) }
        ensures limits { IfOk result (λ made. (made.0.limits ≡ limits) × AreLimits limits) }
        ensures bad { (result ≡ Err faults.BadLimits) ↔ (¬ AreLimits limits) }
        ensures part { ¬ (result ≡ Err faults.NoPart) }
    {
        let Ok(places) = Places::new(limits) else {
            return Err(MakeFault::BadLimits);
        };
        let limits = places.limits;
        match Words::new(alloc, places) {
            Ok((words, seat)) => Ok((
                Manager {
                    shared: Shared { words, places },
                },
                Keeper {
                    seat,
                    limits,
                    given: 0,
                },
            )),
            Err(_) => Err(MakeFault::NoMemory),
        }
    }

    /// The next pass of the manager, the first with number 0. `NoPart` where as many are given out as there
    /// are parts.
    pub fn pass(&mut self, manager: &Manager) -> Result<Pass, MakeFault>
        requires keeper { IsKeptBy manager.now self.old }
        ensures keeper { IsKeptBy manager.now self.new }
        ensures own { IfOk result (λ pass. IsOf manager.now pass
            × IsPassView pass.limits (view_in pass)) }
        ensures fresh { IfOk result (λ pass. (pass.number ≡ self.old.given) × (pass.mine ≡ [])
            × (pass.seen ≡ self.old.seen) × (pass.open_unit ≡ None)
            × ((c p : ℕ) → low_of pass c p ≡ 0) × (pass.seen_blocks ≡ 0)) }
        ensures turn { IfOk result (λ pass. (stage : ℕ) → turn_of pass stage ≡ 0) }
        ensures rows { IfOk result (λ pass. (pass.next ≡ pass.number * pass.limits.rows)
            × (pass.left ≡ pass.limits.rows) × (pass.blocks ≡ [])) }
        ensures given { IfOk result (λ pass. (self.new.given ≡ self.old.given + 1)
            × (self.new.seen ≡ self.old.seen)) }
        ensures steps { IfOk result (λ pass. length pass.trace + self.new.steps ≡ self.old.steps + 1) }
        ensures none { IfErr result (λ fault. (fault ≡ faults.NoPart)
            × (self.old.given ≡ self.old.limits.parts) × (self.new ≡ self.old)) }
    {
        if self.given == self.limits.parts {
            return Err(MakeFault::NoPart);
        }
        let seat = manager.shared.words.hand_out(&mut self.seat);
        let number = self.given;
        let rows = self.limits.rows;
        self.given += 1;
        Ok(Pass {
            seat,
            number,
            run: Run {
                next: number * rows,
                left: rows,
                tail: 0,
                tail_stage: 0,
                drawn: 0,
                done: None,
            },
            used: 0,
            task: None,
            streak: Streak { end: 0, length: 0 },
            lows: [[0; MARKED_PARTS]; MARK_KINDS],
            gaps: [[0; 3 * MARKED_PARTS]; MARK_KINDS],
            begins: [0; MARK_KINDS],
            units: UnitsSeen {
                committed: [0; MARKED_PARTS],
                aborted: false,
            },
            from: [0; 16],
            walk: NoRows {
                rows: RowSet::new(),
            },
        })
    }
}

impl Pass {
    /// The number of the pass: how many were given out before it.
    pub fn number(&self) -> u16
        ensures { result ≡ self.now.number }
    {
        self.number
    }

    /// How many first rows of a part have nothing alive of a stage, 1 to 15, as far as this pass knows: no
    /// element of the stage in these rows waits, is held or is parked, and none ever will. The pass's claims
    /// begin behind them. Stage 0 stands for all stages but 15 together, and the part behind those of the
    /// passes for all spare rows.
    ///
    /// It is 0 at first, and for a stage or a part that there isn't. It never falls (`follows` of each call).
    /// Another pass may know of more rows.
    pub fn low(&self, stage: u8, part: u16) -> u16
        ensures answer { result ≡ low_of self.now stage part }
        ensures low { IsLow self.now.limits stage self.now.seen part result }
    {
        match self.lows.get(stage as usize) {
            Some(lows) => match lows.get(part as usize) {
                Some(low) => *low,
                None => 0,
            },
            None => 0,
        }
    }

    /// How many spare blocks all passes together had drawn when this pass last looked or drew one, and 0
    /// before that. The number never falls.
    pub fn seen_blocks(&self) -> u16
        ensures answer { result ≡ self.now.seen_blocks }
        ensures inside { result ≤ self.now.limits.spare }
    {
        self.run.drawn
    }

    /// A call that changes nothing makes no step. The function does nothing: its contract is the law.
    pub(crate) fn stays(&self)
        ensures { Follows 0 self.now self.now }
    {
        let _number = self.number;
    }

    /// Whether the pass has a unit of work open: claimed, and neither committed nor aborted by its own calls.
    pub fn has_open(&self) -> bool
        ensures answer { result ≡ is_some self.now.open_unit }
        ensures shows { IsPassView self.now.limits (view_in self.now) }
    {
        self.task.is_some()
    }

    /// The unit of work that the pass has open, if it has one.
    pub fn open_unit(&self) -> Option<u16>
        ensures { result ≡ self.now.open_unit }
    {
        match self.task {
            Some(task) => Some(task.unit),
            None => None,
        }
    }
}

impl Manager {
    /// How many elements the manager has room for, at most 10,240: as many as its passes have rows, and 8 for
    /// each spare block.
    pub fn capacity(&self) -> u32
        ensures { result ≡ rows_of self.now.limits }
    {
        self.shared.places.rows()
    }

    /// What is left to a pass of this manager. Spare blocks, which any pass may draw, aren't counted.
    pub fn room(&self, pass: &Pass) -> Room
        requires own { IsOf self.now pass.now }
        ensures rows { result.rows ≡ pass.now.left }
        ensures units { claims_in pass.now.mine + result.units ≡ self.now.limits.units }
    {
        Room {
            rows: pass.run.left,
            units: self.shared.places.limits.units - pass.used,
        }
    }

    /// The limits that the manager was made with.
    pub fn limits(&self) -> Limits
        ensures { result ≡ self.now.limits }
    {
        self.shared.places.limits
    }
}
