//! The commands that name no server, worker or client.
ghost use Rattle.std.specs.Prelude.{◌≡◌, ◌+◌, IfErr, IfOk, OnOk, slice_get, string_bytes};
ghost use Rattle.tp_answers.specs.Answer.{answer_text, line};
ghost use Rattle.tp_answers.specs.declared.answer.Answer.TheVariants as answer;
ghost use Rattle.tp_script.specs.declared.fault.LineError.TheVariants.{NoMemory};
ghost use Rattle.tp_session.specs.Requests.{account_step, all_of, cancel_step, collect_step, count_step, depth_of};
ghost use Rattle.tp_session.specs.Requests.{depth_step, depths_below, errors_step, family_step, kill_step, list_step};
ghost use Rattle.tp_session.specs.Requests.{read_step, release_step, reply_step, requeue_step, submit_step};
ghost use Rattle.tp_session.specs.Requests.{with_collected};
ghost use Rattle.tp_session.specs.Said.{Says};

use crate::session::Session;
use std::alloc::{AllocError, Global};
use std::string::String;
use tp_answers::{Answer, Depth, line};
use tp_model::types::Body;
use tp_script::LineError;
use tp_store::answers::Refusal;
use tp_store::element::{Element, LAST_STAGE};
use tp_store::group::Group;
use tp_store::store::Store;

/// How many ids a list has at most.
pub const MAX_LISTED: usize = 200;

/// The line of an answer, or that memory ran out.
pub(crate) fn told(alloc: Global, answer: Answer<'_>) -> Result<String, LineError>
    ensures text { IfOk result (λ text. string_bytes text ≡ line (answer_text answer.entry)) }
    ensures err { IfErr result (λ why. why ≡ NoMemory) }
{
    match line(alloc, answer) {
        Ok(text) => Ok(text),
        Err(_) => Err(LineError::NoMemory),
    }
}

/// The line of a refused call.
fn refused(alloc: Global, why: Refusal) -> Result<String, LineError>
    ensures text { IfOk result (λ text. string_bytes text ≡ line (answer_text (answer.Refused why))) }
    ensures err { IfErr result (λ why. why ≡ NoMemory) }
{
    told(alloc, Answer::Refused(why))
}

impl Session {
    /// `submit STAGE KEY AMOUNT W2 W3`
    pub(crate) fn submit(
        &mut self,
        alloc: Global,
        stage: u16,
        body: Body,
    ) -> Result<String, LineError>
        ensures { Says string_bytes result self.new self.old (submit_step stage body self.old) }
    {
        match self.store.submit(stage, body, None) {
            Ok(id) => told(alloc, Answer::Submitted { id }),
            Err(Refusal::NoMemory) => Err(LineError::NoMemory),
            Err(Refusal::NoNumber) => Err(LineError::NoMemory),
            Err(why) => refused(alloc, why),
        }
    }

    /// `kill ID`
    pub(crate) fn kill(&mut self, alloc: Global, id: u64) -> Result<String, LineError>
        ensures { Says string_bytes result self.new self.old (kill_step id self.old) }
    {
        match self.store.kill(id) {
            Ok(killed) => {
                let aborted = killed.units_aborted;
                told(alloc, Answer::Killed { id, aborted })
            }
            Err(Refusal::NoMemory) => Err(LineError::NoMemory),
            Err(Refusal::NoNumber) => Err(LineError::NoMemory),
            Err(why) => refused(alloc, why),
        }
    }

    /// `cancel ROOT`
    pub(crate) fn cancel(&mut self, alloc: Global, root: u64) -> Result<String, LineError>
        ensures { Says string_bytes result self.new self.old (cancel_step root self.old) }
    {
        match self.store.cancel(root) {
            Ok(cancelled) => {
                let killed = cancelled.killed;
                told(alloc, Answer::Cancelled { root, killed })
            }
            Err(Refusal::NoMemory) => Err(LineError::NoMemory),
            Err(Refusal::NoNumber) => Err(LineError::NoMemory),
            Err(why) => refused(alloc, why),
        }
    }

    /// `requeue ID`
    pub(crate) fn requeue(&mut self, alloc: Global, id: u64) -> Result<String, LineError>
        ensures { Says string_bytes result self.new self.old (requeue_step id self.old) }
    {
        match self.store.requeue(id) {
            Ok(round) => told(alloc, Answer::Requeued { id, round }),
            Err(Refusal::NoMemory) => Err(LineError::NoMemory),
            Err(Refusal::NoNumber) => Err(LineError::NoMemory),
            Err(why) => refused(alloc, why),
        }
    }

    /// `release ID`
    pub(crate) fn release(&mut self, alloc: Global, id: u64) -> Result<String, LineError>
        ensures { Says string_bytes result self.new self.old (release_step id self.old) }
    {
        match self.store.release(id) {
            Ok(released) => told(
                alloc,
                Answer::Released {
                    id,
                    unit: released.unit,
                    attempt: released.attempt,
                },
            ),
            Err(Refusal::NoMemory) => Err(LineError::NoMemory),
            Err(Refusal::NoNumber) => Err(LineError::NoMemory),
            Err(why) => refused(alloc, why),
        }
    }

    /// `read ID`
    pub(crate) fn read(&self, alloc: Global, id: u64) -> Result<String, LineError>
        ensures { Says string_bytes result self.now self.now (read_step id self.now) }
    {
        match self.store.get(id) {
            Some(element) => told(alloc, Answer::Read { id, element }),
            None => refused(alloc, Refusal::NotThere),
        }
    }

    /// All elements of a group.
    fn all(&self, alloc: Global, group: Group) -> Result<Vec<(u64, Element)>, LineError>
        ensures all { IfOk result (λ all. all.items ≡ all_of group self.now) }
        ensures err { IfErr result (λ why. why ≡ NoMemory) }
    {
        match self.store.list(alloc, group, 0, usize::MAX) {
            Ok(all) => Ok(all),
            Err(_) => Err(LineError::NoMemory),
        }
    }

    /// `reply ROOT`
    pub(crate) fn replies(&self, alloc: Global, root: u64) -> Result<String, LineError>
        ensures { Says string_bytes result self.now self.now (reply_step root self.now) }
    {
        let all = self.all(alloc, Group::Replies(root))?;
        let replies = all.as_slice();
        told(alloc, Answer::Replies { root, replies })
    }

    /// `family ROOT`
    pub(crate) fn family(&self, alloc: Global, root: u64) -> Result<String, LineError>
        ensures { Says string_bytes result self.now self.now (family_step root self.now) }
    {
        let all = self.all(alloc, Group::Family(root))?;
        let members = all.as_slice();
        told(alloc, Answer::Family { root, members })
    }

    /// `errors`
    pub(crate) fn errors(&self, alloc: Global) -> Result<String, LineError>
        ensures { Says string_bytes result self.now self.now (errors_step self.now) }
    {
        let all = self.all(alloc, Group::Queue(0))?;
        told(alloc, Answer::Errors(all.as_slice()))
    }

    /// `list STAGE FROM`
    pub(crate) fn list(&self, alloc: Global, stage: u16, from: u64) -> Result<String, LineError>
        ensures { Says string_bytes result self.now self.now (list_step stage from self.now) }
    {
        match self
            .store
            .list(alloc, Group::Queue(stage), from, MAX_LISTED)
        {
            Ok(all) => {
                let waiting = all.as_slice();
                told(alloc, Answer::List { stage, waiting })
            }
            Err(_) => Err(LineError::NoMemory),
        }
    }

    /// `collect ROOT`
    pub(crate) fn collect(&mut self, alloc: Global, root: u64) -> Result<String, LineError>
        ensures { Says string_bytes result self.new self.old (collect_step root self.old) }
    {
        let all = self.all(alloc, Group::Replies(root))?;
        let replies = all.as_slice();
        let text = told(alloc, Answer::Collected { root, replies })?;
        match take_replies(&mut self.store, replies) {
            Ok(()) => Ok(text),
            Err(_) => Err(LineError::NoMemory),
        }
    }

    /// `count`
    pub(crate) fn count(&self, alloc: Global) -> Result<String, LineError>
        ensures { Says string_bytes result self.now self.now (count_step self.now) }
    {
        told(alloc, Answer::Count(self.store.total()))
    }

    /// `account`
    pub(crate) fn account(&self, alloc: Global) -> Result<String, LineError>
        ensures { Says string_bytes result self.now self.now (account_step self.now) }
    {
        let total = self.store.total();
        if total.held == 0 {
            told(alloc, Answer::Account(total))
        } else {
            told(alloc, Answer::Busy)
        }
    }

    /// `depth`
    pub(crate) fn depth(&self, alloc: Global) -> Result<String, LineError>
        ensures { Says string_bytes result self.now self.now (depth_step self.now) }
    {
        match depths(alloc, &self.store, LAST_STAGE + 1) {
            Ok(depths) => told(alloc, Answer::Depth(depths.as_slice())),
            Err(_) => Err(LineError::NoMemory),
        }
    }
}

/// Takes each of these replies.
fn take_replies(store: &mut Store, replies: &[(u64, Element)]) -> Result<(), AllocError>
    ensures { OnOk result (store.new ≡ with_collected replies.now store.old) }
{
    for (id, _) in replies {
        match store.collect(*id) {
            Ok(_) => {}
            Err(Refusal::NoMemory) => return Err(AllocError),
            Err(Refusal::NoNumber) => return Err(AllocError),
            Err(_) => {}
        }
    }
    Ok(())
}

/// How deep a stage is.
fn depth(store: &Store, stage: u16) -> Depth
    ensures { result ≡ depth_of stage (slice_get store.now.tally.stages stage) }
{
    let Some(counts) = store.stage_total(stage) else {
        return Depth {
            stage,
            waiting: 0,
            held: 0,
            parked: 0,
        };
    };
    Depth {
        stage,
        waiting: counts.waiting,
        held: counts.held,
        parked: counts.parked,
    }
}

/// How deep each stage below this one is.
#[tactic(auto, unfolding(crate::specs::Requests::depths_below))]
fn depths(alloc: Global, store: &Store, end: u16) -> Result<Vec<Depth>, AllocError>
    ensures { IfOk result (λ depths. depths.items ≡ depths_below end store.now) }
{
    let mut depths = Vec::new(alloc);
    for stage in 0..end {
        depths.push(depth(store, stage))?;
    }
    Ok(depths)
}
