//! The manager of one thread.
ghost use Rattle.tp_model.specs.declared.types.TheConstants.{MAX_OUTPUTS};
ghost use Rattle.std.specs.Prelude.{◌≡◌, ℕ, nat_lt, ◌<◌, ◌≤◌, ◌↔◌, ◌⊎◌, length, map, IfOk, IfErr, IsSome};
ghost use Rattle.std.specs.Prelude.{is_some, replicate};
ghost use Rattle.std.specs.List.{range_with_len};
ghost use Rattle.tp_plain.specs.Noted.{noted_event};
ghost use Rattle.tp_plain.specs.Computed.{IsComputed, IsComputedOk, submit_of, commit_of, abort_of, kill_of};
ghost use Rattle.tp_plain.specs.Computed.{read_of};
ghost use Rattle.tp_plain.specs.OneThread.{Answers, CallSubmit, CallAbort, CallCommit, CallKill, CallRead};
ghost use Rattle.tp_plain.specs.OneThread.{extended, start, fresh_pass, pass_at};
ghost use Rattle.tp_plain.specs.Reached.{IsWithoutUnit, IsReachable};
ghost use Rattle.tp_model.specs.Steps.{AreLimits, Step, rows_of};

use crate::history::{History, Note};
use crate::looks::{apply, first_of, fresh_looks, held_by, look_of, outputs_of};
use crate::pass_state::PassState;
use crate::room::block_first;
use std::alloc::{AllocError, Global};
use std::marker::Model;
use tp_model::types::{
    Body, Claimed, Draft, Element, Ended, Killed, Limits, Look, MAX_STAGE, Outcome, Refusal, Status,
};

/// The manager of one thread. Contracts see it as its limits, its history, what its passes have used and how
/// many spare blocks are drawn.
#[derive(Drop)]
pub struct Plain {
    alloc: Global,
    pub(crate) limits: Limits,
    pub(crate) looks: Vec<Look>,
    pub(crate) passes: Vec<PassState>,
    // How many spare blocks are drawn. They are drawn in order.
    pub(crate) drawn: u16,
    // For each id, how many rounds its element was given.
    pub(crate) rounds: Vec<u8>,
    pub(crate) history: History,
}

impl Model for Plain {
    ghost use Rattle.std.specs.Prelude.{◌≡◌, map};
    ghost use Rattle.tp_plain.specs.OneThread.{State};
    ghost use Rattle.tp_plain.specs.Reached.{IsReachable};
    ghost use Rattle.tp_plain.specs.Looks.{KeepsRounds, look_at};
    ghost use Rattle.tp_model.specs.History.{born};

    ghost Value = { State };

    ghost view = { λ p. record {
      limits = p.limits;
      history = p.history.events;
      passes = p.passes.items;
      drawn = p.drawn;
    } };

    ghost invariant = { λ p. IsReachable (record {
      limits = p.limits;
      history = p.history.events;
      passes = p.passes.items;
      drawn = p.drawn;
    })
        × (p.looks.items ≡ map (look_at p.limits.attempts p.history.events) (born p.history.events))
        × KeepsRounds p.limits p.history.events p.rounds.items };
}

impl Plain {
    /// A manager with these limits, in which nothing happened.
    pub fn new(alloc: Global, limits: Limits) -> Result<Plain, Refusal>
        ensures ok { IfOk result (λ p. p ≡ start limits) }
        ensures valid { IfOk result (λ _. AreLimits limits) }
        ensures bad { (result ≡ Err Refusal.BadLimits) ↔ (¬ AreLimits limits) }
        ensures only { IfErr result (λ why. (why ≡ Refusal.BadLimits) ⊎ (why ≡ Refusal.NoMemory)) }
    {
        if !limits.is_valid() {
            return Err(Refusal::BadLimits);
        }
        let Ok(passes) = fresh_passes(alloc, limits.parts, limits.rows) else {
            return Err(Refusal::NoMemory);
        };
        let Ok(rounds) = fresh_rounds(alloc, block_first(limits, limits.spare)) else {
            return Err(Refusal::NoMemory);
        };
        Ok(Plain {
            alloc,
            limits,
            looks: Vec::new(alloc),
            passes,
            drawn: 0,
            rounds,
            history: History::new(),
        })
    }

    /// How many elements there can be: the ids are below this.
    pub fn capacity(&self) -> u32
        ensures { result ≡ rows_of self.now.limits }
    {
        block_first(self.limits, self.limits.spare)
    }

    /// Whether a pass has a unit of work in its hand: claimed, and neither committed nor given up by its own
    /// calls.
    pub fn has_open(&self, caller: u16) -> bool
        requires { caller < self.now.limits.parts }
        ensures { result ≡ is_some (pass_at self.now caller).holding }
    {
        self.passes[caller as usize].holding.is_some()
    }

    /// Whether a unit of work is left to a pass.
    pub fn has_units(&self, caller: u16) -> bool
        requires { caller < self.now.limits.parts }
        ensures { result ≡ nat_lt (pass_at self.now caller).claimed self.now.limits.units }
    {
        self.passes[caller as usize].claimed < self.limits.units
    }

    /// A client puts a new request into a stage. Where the run of the pass has no row left, the pass draws a
    /// block.
    ///
    /// `BadStage` for a stage outside 1 to 14, `Full` where no spare block is left either, and `NoMemory`.
    pub fn submit(&mut self, caller: u16, stage: u8, body: Body) -> Result<u32, Refusal>
        requires { caller < self.old.limits.parts }
        ensures answer { Answers self.old (CallSubmit caller stage body result) self.new }
        ensures computed { IsComputed self.old self.new result (submit_of self.old caller stage body) }
        ensures hands { (c : ℕ) → (pass_at self.new c).holding ≡ (pass_at self.old c).holding }
        ensures limits { self.new.limits ≡ self.old.limits }
    {
        if stage < 1 || stage > MAX_STAGE {
            return Err(Refusal::BadStage);
        }
        let used = self.ready(caller, 1);
        if used.left == 0 {
            return Err(Refusal::Full);
        }
        let drawn = self.drawn_with(caller, 1);
        let id = used.next;
        let element = Element {
            id,
            stage,
            root: id,
            body,
            by: None,
        };
        let look = Look {
            element,
            status: Status::Waiting { attempts: 0 },
        };
        let Ok(()) = self.looks.push(look) else {
            return Err(Refusal::NoMemory);
        };
        self.passes[caller as usize] = PassState {
            next: used.next + 1,
            left: used.left - 1,
            ..used
        };
        self.drawn = drawn;
        self.history = self.history.then(&Note::Enqueue(caller, element));
        Ok(id)
    }

    /// A pass ends the unit in its hand, and its drafts become elements, in rows of one run. Where its run
    /// has too few rows left for them, the pass draws a block.
    pub fn commit(&mut self, caller: u16, drafts: &[Draft]) -> Result<Outcome, Refusal>
        requires pass { caller < self.old.limits.parts }
        requires holding { IsSome (pass_at self.old caller).holding }
        requires few { length drafts.now ≤ MAX_OUTPUTS }
        ensures answer { Answers self.old (CallCommit caller drafts.now result) self.new }
        ensures computed { IsComputedOk self.old self.new result (commit_of self.old caller drafts.now) }
        ensures free { IfOk result (λ _. (pass_at self.new caller).holding ≡ None) }
        ensures limits { self.new.limits ≡ self.old.limits }
    {
        let used = self.ready(caller, drafts.len());
        if drafts.len() > used.left as usize {
            let _ended = self.abort(caller);
            return Ok(Outcome::Full);
        }
        let drawn = self.drawn_with(caller, drafts.len());
        let next = used.next + drafts.len() as u32;
        let left = used.left - drafts.len() as u16;
        let Some(unit) = used.holding else {
            return Ok(Outcome::Lost);
        };
        let Some(look) = held_by(&self.looks, unit) else {
            self.passes[caller as usize] = PassState {
                next,
                left,
                holding: None,
                ..used
            };
            self.drawn = drawn;
            return Ok(Outcome::Lost);
        };
        let first = used.next;
        let Ok(outs) = outputs_of(self.alloc, unit, look.element.root, first, drafts) else {
            return Err(Refusal::NoMemory);
        };
        let Ok(fresh) = fresh_looks(self.alloc, &outs) else {
            return Err(Refusal::NoMemory);
        };
        let Ok(()) = self.looks.extend_from_slice(&fresh) else {
            return Err(Refusal::NoMemory);
        };
        let note = Note::Commit(caller, unit, &outs);
        apply(self.limits.attempts, &mut self.looks, &note);
        self.passes[caller as usize] = PassState {
            next,
            left,
            holding: None,
            ..used
        };
        self.drawn = drawn;
        self.history = self.history.then(&note);
        Ok(Outcome::Committed {
            first: first_of(drafts.len(), first),
            count: drafts.len() as u8,
        })
    }

    /// A pass gives up the unit in its hand.
    pub fn abort(&mut self, caller: u16) -> Ended
        requires pass { caller < self.old.limits.parts }
        requires holding { IsSome (pass_at self.old caller).holding }
        ensures answer { Answers self.old (CallAbort caller result) self.new }
        ensures computed { (result ≡ (abort_of self.old caller).0)
            × (self.new ≡ (abort_of self.old caller).1) }
        ensures free { (pass_at self.new caller).holding ≡ None }
        ensures limits { self.new.limits ≡ self.old.limits }
    {
        let used = self.passes[caller as usize];
        let Some(unit) = used.holding else {
            return Ended::AlreadyAborted;
        };
        let held = held_by(&self.looks, unit);
        self.passes[caller as usize] = PassState {
            holding: None,
            ..used
        };
        match held {
            None => Ended::AlreadyAborted,
            Some(_) => {
                let note = Note::Abort(caller, unit);
                apply(self.limits.attempts, &mut self.looks, &note);
                self.history = self.history.then(&note);
                Ended::Aborted
            }
        }
    }

    /// A pass kills an element that waits or is parked. A unit that holds it is aborted first.
    pub fn kill(&mut self, caller: u16, id: u32) -> Result<Killed, Refusal>
        requires pass { caller < self.old.limits.parts }
        requires free { (pass_at self.old caller).holding ≡ None }
        ensures answer { Answers self.old (CallKill caller id result) self.new }
        ensures computed { (result ≡ (kill_of self.old caller id).0)
            × (self.new ≡ (kill_of self.old caller id).1) }
        ensures limits { self.new.limits ≡ self.old.limits }
    {
        self.show_reached();
        let Ok(look) = self.read(id) else {
            return Err(Refusal::NotThere);
        };
        match look.status {
            Status::Consumed { unit } => Err(Refusal::Consumed { unit }),
            Status::Killed => Err(Refusal::AlreadyKilled),
            Status::Held { unit, attempt: _ } => {
                self.mark(&Note::Abort(caller, unit));
                self.mark(&Note::Kill(caller, id));
                Ok(Killed { units_aborted: 1 })
            }
            _ => {
                self.mark(&Note::Kill(caller, id));
                Ok(Killed { units_aborted: 0 })
            }
        }
    }

    // What holds of each manager.
    pub(crate) fn show_reached(&self)
        ensures { IsReachable self.now }
    {
        let _limits = &self.limits;
    }

    // An Abort or a Kill by a pass with nothing in its hand.
    pub(crate) fn mark(&mut self, note: &Note<'_>)
        requires step { Step self.old.limits self.old.history (noted_event note.now) }
        requires quiet { IsWithoutUnit self.old (noted_event note.now) }
        ensures { self.new ≡ extended self.old (noted_event note.now) }
    {
        apply(self.limits.attempts, &mut self.looks, note);
        self.history = self.history.then(note);
    }

    /// The element with this id, and its status.
    pub fn read(&self, id: u32) -> Result<Look, Refusal>
        ensures answer { Answers self.now (CallRead id result) self.now }
        ensures computed { result ≡ read_of self.now id }
    {
        match look_of(&self.looks, id) {
            Some(look) => Ok(look),
            None => Err(Refusal::NotThere),
        }
    }
}

// No round so far, for this many ids.
fn fresh_rounds(alloc: Global, rows: u32) -> Result<Vec<u8>, AllocError>
    ensures { IfOk result (λ v. v.items ≡ replicate rows 0) }
{
    let mut rounds = Vec::with_capacity(alloc, rows as usize)?;
    for _ in 0..rows {
        rounds.push(0)?;
    }
    Ok(rounds)
}

// This many passes that have done nothing, each with this many rows.
fn fresh_passes(alloc: Global, parts: u16, rows: u16) -> Result<Vec<PassState>, AllocError>
    ensures { IfOk result (λ v. v.items ≡ map (fresh_pass rows) (range_with_len 0 parts)) }
{
    let mut passes = Vec::with_capacity(alloc, parts as usize)?;
    for pass in 0..parts {
        passes.push(PassState {
            next: pass as u32 * rows as u32,
            left: rows,
            claimed: 0,
            holding: None,
            turns: [0; 16],
        })?;
    }
    Ok(passes)
}
