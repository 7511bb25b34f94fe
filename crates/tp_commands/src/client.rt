//! What the script's own client asks of the manager, through its pass.
ghost use Rattle.std.specs.Prelude.{◌≡◌, ◌-◌, ◌<◌, ◌≤◌, ◌^◌, ℕ, List, IfOk, IfSome, MatchOption};
ghost use Rattle.std.specs.Prelude.{string_bytes};
ghost use Rattle.tp_model.specs.declared.types.Element.{Element};
ghost use Rattle.tp_model.specs.declared.types.Look.{Look};
ghost use Rattle.tp_model.specs.Accounts.{all_in, one_more};
ghost use Rattle.tp_model.specs.Steps.{rows_of};
ghost use Rattle.tp_report.specs.Answer.{collected_text, errors_text, family_text, line, replies_text};
ghost use Rattle.tp_report.specs.Lines.{IsLine};
ghost use Rattle.tp_report.specs.declared.answer.Answer.{Answer};
ghost use Rattle.tp_workers.specs.Free.{IsFreePass};
ghost use Rattle.tp_commands.specs.Asked.{FindsMember, FindsNoMember, FindsNoReply, FindsReply, TellsCancel};
ghost use Rattle.tp_commands.specs.Asked.{TellsClient, TellsCollected, TellsCount, TellsErrors, TellsFamily};
ghost use Rattle.tp_commands.specs.Asked.{TellsKill, TellsRead, TellsRelease, TellsReplies, TellsRequeue};
ghost use Rattle.tp_commands.specs.Asked.{TellsSubmit};

use std::alloc::{AllocError, Global};
use std::string::String;
use tp_manager::{Manager, Pass};
use tp_model::types::{Body, Counts, Element, Look, Status};
use tp_report::{Answer, line};
use tp_script::ClientAct;

/// Has the client do what is asked, and answers the line of its answer.
pub fn client_line(
    alloc: Global,
    manager: &Manager,
    client: &mut Pass,
    act: ClientAct,
) -> Result<String, AllocError>
    requires { IsFreePass manager.now client.old }
    ensures free { IsFreePass manager.now client.new }
    ensures number { client.new.number ≡ client.old.number }
    ensures tells { IfOk result (λ text.
        TellsClient manager.now.limits act client.old (string_bytes text) client.new) }
    ensures line { IfOk result (λ text. IsLine (string_bytes text)) }
{
    match act {
        ClientAct::Submit { stage, body } => line(alloc, submit(manager, client, stage, body)),
        ClientAct::Kill { id } => line(alloc, kill(manager, client, id)),
        ClientAct::Cancel { root } => line(alloc, cancel(manager, client, root)),
        ClientAct::Requeue { id } => line(alloc, requeue(manager, client, id)),
        ClientAct::Release { id } => line(alloc, release(manager, client, id)),
        ClientAct::Read { id } => line(alloc, read(manager, client, id)),
        ClientAct::Reply { root } => replies(alloc, manager, client, root),
        ClientAct::Collect { root } => collected(alloc, manager, client, root),
        ClientAct::Family { root } => family(alloc, manager, client, root),
        ClientAct::Errors => errors(alloc, manager, client),
        ClientAct::Count => line(alloc, Answer::Count(count(manager, client))),
    }
}

/// `submit STAGE KEY AMOUNT W2 W3`
pub fn submit(manager: &Manager, client: &mut Pass, stage: u8, body: Body) -> Answer<'static>
    requires { IsFreePass manager.now client.old }
    ensures free { IsFreePass manager.now client.new }
    ensures number { client.new.number ≡ client.old.number }
    ensures tells { TellsSubmit manager.now.limits stage body client.old client.new result }
{
    match manager.submit(client, stage, body) {
        Ok(id) => Answer::Submitted { id },
        Err(why) => Answer::Refused(why),
    }
}

/// `kill ID`
fn kill(manager: &Manager, client: &mut Pass, id: u32) -> Answer<'static>
    requires { IsFreePass manager.now client.old }
    ensures free { IsFreePass manager.now client.new }
    ensures number { client.new.number ≡ client.old.number }
    ensures tells { TellsKill manager.now.limits id client.old client.new result }
{
    match manager.kill(client, id) {
        Ok(killed) => Answer::Killed {
            id,
            aborted: killed.units_aborted,
        },
        Err(why) => Answer::Refused(why),
    }
}

/// `cancel ROOT`
fn cancel(manager: &Manager, client: &mut Pass, root: u32) -> Answer<'static>
    requires { IsFreePass manager.now client.old }
    ensures free { IsFreePass manager.now client.new }
    ensures number { client.new.number ≡ client.old.number }
    ensures tells { TellsCancel manager.now.limits root client.old client.new result }
{
    match manager.cancel(client, root) {
        Ok(cancelled) => Answer::Cancelled {
            root,
            killed: cancelled.killed,
        },
        Err(why) => Answer::Refused(why),
    }
}

/// `requeue ID`
fn requeue(manager: &Manager, client: &mut Pass, id: u32) -> Answer<'static>
    requires { IsFreePass manager.now client.old }
    ensures free { IsFreePass manager.now client.new }
    ensures number { client.new.number ≡ client.old.number }
    ensures tells { TellsRequeue manager.now.limits id client.old client.new result }
{
    match manager.requeue(client, id) {
        Ok(round) => Answer::Requeued { id, round },
        Err(why) => Answer::Refused(why),
    }
}

/// `release ID`
fn release(manager: &Manager, client: &mut Pass, id: u32) -> Answer<'static>
    requires { IsFreePass manager.now client.old }
    ensures free { IsFreePass manager.now client.new }
    ensures number { client.new.number ≡ client.old.number }
    ensures tells { TellsRelease manager.now.limits id client.old client.new result }
{
    match manager.release(client, id) {
        Ok(released) => Answer::Released {
            id,
            unit: released.unit,
            attempt: released.attempt,
        },
        Err(why) => Answer::Refused(why),
    }
}

/// `read ID`
pub fn read(manager: &Manager, client: &mut Pass, id: u32) -> Answer<'static>
    requires { IsFreePass manager.now client.old }
    ensures free { IsFreePass manager.now client.new }
    ensures number { client.new.number ≡ client.old.number }
    ensures tells { TellsRead manager.now.limits id client.old client.new result }
{
    match manager.read(client, id) {
        Ok(look) => Answer::Read(look),
        Err(why) => Answer::Refused(why),
    }
}

/// The reply to the request that has the least id from this one on of those found waiting.
fn next_reply(manager: &Manager, client: &mut Pass, root: u32, from: u32) -> Option<Element>
    requires { IsFreePass manager.now client.old }
    ensures free { IsFreePass manager.now client.new }
    ensures number { client.new.number ≡ client.old.number }
    ensures inside { IfSome result (λ reply. (from ≤ reply.id) × (reply.id < rows_of manager.now.limits)) }
    ensures tells { MatchOption result
        (FindsNoReply manager.now.limits root from client.old client.new)
        (λ reply. FindsReply manager.now.limits root from reply client.old client.new) }
{
    let Some(id) = manager.reply(client, root, from) else {
        return None;
    };
    match manager.read(client, id) {
        Ok(look) => Some(look.element),
        Err(_) => unreachable!(),
    }
}

/// The line of `reply ROOT`: the replies to the request, in ascending order.
fn replies(
    alloc: Global,
    manager: &Manager,
    client: &mut Pass,
    root: u32,
) -> Result<String, AllocError>
    requires { IsFreePass manager.now client.old }
    ensures free { IsFreePass manager.now client.new }
    ensures number { client.new.number ≡ client.old.number }
    ensures tells { IfOk result (λ text. (found : List Element)
        × TellsReplies manager.now.limits root 0 client.old found client.new
        × (string_bytes text ≡ line (replies_text root found))) }
    ensures line { IfOk result (λ text. IsLine (string_bytes text)) }
{
    let mut found = Vec::new(alloc);
    let capacity = manager.capacity();
    let mut from = 0;
    while from < capacity {
        let Some(reply) = next_reply(manager, client, root, from) else {
            break;
        };
        found.push(reply)?;
        from = reply.id + 1;
    }
    let replies = found.as_slice();
    line(alloc, Answer::Replies { root, replies })
}

/// The line of `collect ROOT`: takes the replies to the request, the least one each time, until none waits.
fn collected(
    alloc: Global,
    manager: &Manager,
    client: &mut Pass,
    root: u32,
) -> Result<String, AllocError>
    requires { IsFreePass manager.now client.old }
    ensures free { IsFreePass manager.now client.new }
    ensures number { client.new.number ≡ client.old.number }
    ensures tells { IfOk result (λ text. (found : List Element)
        × TellsCollected manager.now.limits root client.old found client.new
        × (string_bytes text ≡ line (collected_text root found))) }
    ensures line { IfOk result (λ text. IsLine (string_bytes text)) }
{
    let mut found = Vec::new(alloc);
    while let Some(reply) = manager.collect_next(client, root) {
        found.push(reply)?;
    }
    let replies = found.as_slice();
    line(alloc, Answer::Collected { root, replies })
}

/// The element of the request that has the least id from this one on, and its status.
fn next_member(manager: &Manager, client: &mut Pass, root: u32, from: u32) -> Option<Look>
    requires { IsFreePass manager.now client.old }
    ensures free { IsFreePass manager.now client.new }
    ensures number { client.new.number ≡ client.old.number }
    ensures inside { IfSome result (λ look. (from ≤ look.element.id)
        × (look.element.id < rows_of manager.now.limits)) }
    ensures tells { MatchOption result
        (FindsNoMember manager.now.limits root from client.old client.new)
        (λ look. FindsMember manager.now.limits root from look client.old client.new) }
{
    manager.family(client, root, from)
}

/// The line of `family ROOT`: the elements of the request, in ascending order.
fn family(
    alloc: Global,
    manager: &Manager,
    client: &mut Pass,
    root: u32,
) -> Result<String, AllocError>
    requires { IsFreePass manager.now client.old }
    ensures free { IsFreePass manager.now client.new }
    ensures number { client.new.number ≡ client.old.number }
    ensures tells { IfOk result (λ text. (found : List Look)
        × TellsFamily manager.now.limits root 0 client.old found client.new
        × (string_bytes text ≡ line (family_text root found))) }
    ensures line { IfOk result (λ text. IsLine (string_bytes text)) }
{
    let mut found = Vec::new(alloc);
    let capacity = manager.capacity();
    let mut from = 0;
    while from < capacity {
        let Some(look) = next_member(manager, client, root, from) else {
            break;
        };
        found.push(look)?;
        from = look.element.id + 1;
    }
    let looks = found.as_slice();
    line(alloc, Answer::Family { root, looks })
}

/// The line of `errors`: the ids of the parked elements, in ascending order.
fn errors(alloc: Global, manager: &Manager, client: &mut Pass) -> Result<String, AllocError>
    requires { IsFreePass manager.now client.old }
    ensures free { IsFreePass manager.now client.new }
    ensures number { client.new.number ≡ client.old.number }
    ensures tells { IfOk result (λ text. (parked : List ℕ)
        × TellsErrors manager.now.limits 0 client.old parked client.new
        × (string_bytes text ≡ line (errors_text parked))) }
    ensures line { IfOk result (λ text. IsLine (string_bytes text)) }
{
    let mut parked = Vec::new(alloc);
    let capacity = manager.capacity();
    let mut from = 0;
    while from < capacity {
        let Some(id) = manager.next_error(client, from) else {
            break;
        };
        parked.push(id)?;
        from = id + 1;
    }
    line(alloc, Answer::Errors(parked.as_slice()))
}

/// `count`: how many elements have each status, over all ids below the capacity.
pub fn count(manager: &Manager, client: &mut Pass) -> Counts
    requires { IsFreePass manager.now client.old }
    ensures free { IsFreePass manager.now client.new }
    ensures number { client.new.number ≡ client.old.number }
    ensures tells { TellsCount manager.now.limits (rows_of manager.now.limits) client.old result client.new }
{
    let mut counts = Counts {
        waiting: 0,
        held: 0,
        consumed: 0,
        parked: 0,
        killed: 0,
    };
    for id in 0..manager.capacity() {
        if let Ok(look) = manager.read(client, id) {
            counts = one_more(counts, look.status);
        }
    }
    counts
}

/// These counts, and one more element of this status.
fn one_more(counts: Counts, status: Status) -> Counts
    requires { all_in counts < 2 ^ 32 - 1 }
    ensures { result ≡ one_more status counts }
{
    let mut counts = counts;
    match status {
        Status::Waiting { .. } => counts.waiting += 1,
        Status::Held { .. } => counts.held += 1,
        Status::Consumed { .. } => counts.consumed += 1,
        Status::Parked { .. } => counts.parked += 1,
        Status::Killed => counts.killed += 1,
    }
    counts
}
