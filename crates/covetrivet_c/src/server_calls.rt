//! The calls of a server.
use crate::caller::Caller;
use crate::fault::Fault;
use crate::shapes::{BornOut, DraftIn, draft_in};
use tp_model::types::{Claimed, Draft, Ended, MAX_STAGE, Outcome, Refusal, Work};

impl Caller {
    ghost use Rattle.std.specs.Prelude.{◌≡◌, ◌≤◌, length};
    ghost use Rattle.tp_model.specs.declared.types.TheConstants.{MAX_OUTPUTS};
    ghost use Rattle.covetrivet_c.specs.Callers.{caller_limits};
    ghost use Rattle.covetrivet_c.specs.Servers.{AbortSays, ClaimIdSays, ClaimNextSays, ClaimSays};
    ghost use Rattle.covetrivet_c.specs.Servers.{CommitSays, CommitTold};

    /// Takes the first element of a stage, 1 to 14, that waits.
    pub fn claim(&mut self, stage: u8) -> Result<Work, Fault>
        ensures manager { self.new.manager ≡ self.old.manager }
        ensures answer { ClaimSays stage (caller_limits self.old) self.old.pass self.new.pass result }
    {
        if stage == 0 || stage > MAX_STAGE {
            return Err(Fault::BadStage);
        }
        if self.pass.has_open() {
            return Err(Fault::Busy);
        }
        match self.manager.claim(&mut self.pass, stage) {
            Claimed::Work(work) => Ok(work),
            Claimed::Idle => Err(Fault::Idle),
            Claimed::NoUnit => Err(Fault::Refused(Refusal::NoUnit)),
        }
    }

    /// Takes the next element of a stage, 1 to 14, in turn.
    pub fn claim_next(&mut self, stage: u8) -> Result<Work, Fault>
        ensures manager { self.new.manager ≡ self.old.manager }
        ensures answer { ClaimNextSays stage (caller_limits self.old) self.old.pass self.new.pass result }
    {
        if stage == 0 || stage > MAX_STAGE {
            return Err(Fault::BadStage);
        }
        if self.pass.has_open() {
            return Err(Fault::Busy);
        }
        match self.manager.claim_next(&mut self.pass, stage) {
            Claimed::Work(work) => Ok(work),
            Claimed::Idle => Err(Fault::Idle),
            Claimed::NoUnit => Err(Fault::Refused(Refusal::NoUnit)),
        }
    }

    /// Takes the element with this id, if it waits.
    pub fn claim_id(&mut self, id: u32) -> Result<Work, Fault>
        ensures manager { self.new.manager ≡ self.old.manager }
        ensures answer { ClaimIdSays id (caller_limits self.old) self.old.pass self.new.pass result }
    {
        if self.pass.has_open() {
            return Err(Fault::Busy);
        }
        match self.manager.claim_id(&mut self.pass, id) {
            Ok(work) => Ok(work),
            Err(refusal) => Err(Fault::Refused(refusal)),
        }
    }

    /// Gives up the open unit of work.
    pub fn abort(&mut self) -> Result<(), Fault>
        ensures manager { self.new.manager ≡ self.old.manager }
        ensures answer { AbortSays (caller_limits self.old) self.old.pass self.new.pass result }
    {
        if !self.pass.has_open() {
            return Err(Fault::NoOpen);
        }
        match self.manager.abort(&mut self.pass) {
            Ended::Aborted => Ok(()),
            Ended::AlreadyAborted => Err(Fault::Lost),
        }
    }

    /// Commits the open unit of work with these drafts, at most four.
    fn commit_drafts(&mut self, drafts: &[Draft]) -> Result<BornOut, Fault>
        requires few { length drafts.now ≤ MAX_OUTPUTS }
        ensures manager { self.new.manager ≡ self.old.manager }
        ensures answer { CommitTold drafts.now (caller_limits self.old) self.old.pass self.new.pass result }
    {
        if !self.pass.has_open() {
            return Err(Fault::NoOpen);
        }
        match self.manager.commit_apart(&mut self.pass, drafts) {
            Ok(Outcome::Committed { first, count }) => Ok(BornOut { first, count }),
            Ok(Outcome::Lost) => Err(Fault::Lost),
            Ok(Outcome::Full) => unreachable!(),
            Err(Ended::Aborted) => Err(Fault::Refused(Refusal::Full)),
            Err(Ended::AlreadyAborted) => Err(Fault::FullLost),
        }
    }

    /// Commits the open unit of work with these drafts. Which outputs are born.
    pub fn commit(&mut self, drafts: &[DraftIn]) -> Result<BornOut, Fault>
        ensures manager { self.new.manager ≡ self.old.manager }
        ensures answer { CommitSays drafts.now (caller_limits self.old) self.old.pass self.new.pass result }
    {
        match drafts {
            [] => self.commit_drafts(&[]),
            [a] => {
                let Some(a) = draft_in(a) else {
                    return Err(Fault::BadDraft);
                };
                self.commit_drafts(&[a])
            }
            [a, b] => {
                let Some(a) = draft_in(a) else {
                    return Err(Fault::BadDraft);
                };
                let Some(b) = draft_in(b) else {
                    return Err(Fault::BadDraft);
                };
                self.commit_drafts(&[a, b])
            }
            [a, b, c] => {
                let Some(a) = draft_in(a) else {
                    return Err(Fault::BadDraft);
                };
                let Some(b) = draft_in(b) else {
                    return Err(Fault::BadDraft);
                };
                let Some(c) = draft_in(c) else {
                    return Err(Fault::BadDraft);
                };
                self.commit_drafts(&[a, b, c])
            }
            [a, b, c, d] => {
                let Some(a) = draft_in(a) else {
                    return Err(Fault::BadDraft);
                };
                let Some(b) = draft_in(b) else {
                    return Err(Fault::BadDraft);
                };
                let Some(c) = draft_in(c) else {
                    return Err(Fault::BadDraft);
                };
                let Some(d) = draft_in(d) else {
                    return Err(Fault::BadDraft);
                };
                self.commit_drafts(&[a, b, c, d])
            }
            _ => Err(Fault::TooMany),
        }
    }
}
