//! The laws of a store. These functions do nothing: their contracts are the laws.

ghost use Rattle.tp_store.specs.Accounts.{AccountsHold};
ghost use Rattle.tp_store.specs.Changes.{CallsFollow, RunsAreSound};
ghost use Rattle.tp_store.specs.Lasting.{AliveStays, ContentsLast, FamiliesLast, IdsLast, OverLasts};
ghost use Rattle.tp_store.specs.Lasting.{SettledLasts};
ghost use Rattle.tp_store.specs.Modelled.{FamiliesAreTrees, HaveRoom, RunsAreHistories};
ghost use Rattle.tp_store.specs.Progress.{AbortsHeld, ClaimsFirst, CollectsReplies, CommitsHeld, HandsOut};
ghost use Rattle.tp_store.specs.Progress.{KillsAlive};
ghost use Rattle.tp_store.specs.Progress.{NeverIdle, OutputsWait, RequeuesParked, SubmitsWait, TakesWaiting};
ghost use Rattle.tp_store.specs.Restoring.{RestoredIsSound, StaysSound};
ghost use Rattle.tp_store.specs.Retelling.{ToldAndTakenBack};
ghost use Rattle.tp_store.specs.Tries.{TriesComeOnce};

/// A claim of a stage in which an element waits is never idle: it hands out the one with the least id.
pub fn claims_never_idle()
    ensures never { NeverIdle }
    ensures first { ClaimsFirst }
{}

/// Nothing that is accepted is ever stuck. A request for a server's stage is taken in and waits, where there
/// is room. What waits can be taken, and a reply collected. What is handed out is held, and can be committed,
/// whatever its outputs are, which wait then, or aborted. What is parked has its rounds, and what is alive
/// can be killed.
pub fn never_stuck()
    ensures submit { SubmitsWait }
    ensures take { TakesWaiting }
    ensures collect { CollectsReplies }
    ensures handed { HandsOut }
    ensures commit { CommitsHeld }
    ensures outputs { OutputsWait }
    ensures abort { AbortsHeld }
    ensures requeue { RequeuesParked }
    ensures kill { KillsAlive }
{}

/// Each call leaves a sound store, and an element as `Goes` says, unless its request is over and forgotten.
pub fn calls_follow()
    ensures calls { CallsFollow }
    ensures runs { RunsAreSound }
{}

/// Over each run of calls an id is used once, an element's contents stay, and so does what is settled. No
/// work goes on with a request that was over, and while some does, each element of the request is there. Where
/// at least one request is kept behind its end, no call forgets one that it ends.
pub fn lasts()
    ensures ids { IdsLast }
    ensures contents { ContentsLast }
    ensures settled { SettledLasts }
    ensures over { OverLasts }
    ensures families { FamiliesLast }
    ensures alive { AliveStays }
{}

/// Units that hold an element one after another are in tries that grow, over all its rounds. So an id and a try
/// name a unit.
pub fn tries_come_once()
    ensures { TriesComeOnce }
{}

/// Each run of calls is a legal history of the model, in which each element has the contents, the status and
/// the rounds that it has in the store. It has no other elements but those of requests that are over.
pub fn runs_are_histories()
    ensures histories { RunsAreHistories }
    ensures room { HaveRoom }
{}

/// A request on which work goes on is a tree: each element of it is a client's, or was made by the unit that
/// consumed another one of it, which is there.
pub fn families_are_trees()
    ensures { FamiliesAreTrees }
{}

/// The account counts each element that was born once, and those that wait, are held and are parked as they
/// are, in all and in each stage.
pub fn accounts_hold()
    ensures { AccountsHold }
{}

/// Whatever is told, a sound store stays sound, and one that is built of it alone is sound, behind each run of
/// calls too.
pub fn takes_back_soundly()
    ensures stays { StaysSound }
    ensures restored { RestoredIsSound }
{}

/// A store that calls have led to is built again of all that it tells of itself: its numbers, its elements,
/// the requests that are over, and what was ever settled. All of it is taken in, and nothing is other than it
/// was. This is of runs that draw fewer than 2^64 - 1 ids, and of drafts of stages 1 to 999, as each is.
pub fn told_and_taken_back()
    ensures { ToldAndTakenBack }
{}
