//! What the script's own client asks of the manager of one thread, and what it is answered.
ghost use Rattle.std.specs.Prelude.{◌≡◌, ◌+◌, ◌-◌, ◌<◌, ◌≤◌, ◌^◌, None, IfOk, OnOk, string_bytes};
ghost use Rattle.tp_model.specs.Accounts.{all_in, one_more};
ghost use Rattle.tp_model.specs.Steps.{rows_of};
ghost use Rattle.tp_plain.specs.Computed.{cancel_of, kill_of, read_of, release_of, requeue_of, submit_of};
ghost use Rattle.tp_plain.specs.OneThread.{pass_at};
ghost use Rattle.tp_report.specs.Answer.{answer_text, line};
ghost use Rattle.tp_reference.specs.PlainClient.{cancelled_as, client_step, count_read, counts_of, is_reply};
ghost use Rattle.tp_reference.specs.PlainClient.{killed_as, member_in, parked_in, picked, picked_of, read_as};
ghost use Rattle.tp_reference.specs.PlainClient.{released_as, replies_of, reply_shown, requeued_as};
ghost use Rattle.tp_reference.specs.PlainClient.{submitted_as, with_collected, with_last};

use std::alloc::{AllocError, Global};
use std::string::String;
use tp_model::types::{Body, Counts, Element, Look, REPLY_STAGE, Refusal, Status};
use tp_plain::plain::Plain;
use tp_report::{Answer, line};
use tp_script::ClientAct;

/// The pass of the script's own client.
const CLIENT: u16 = 0;

/// `submit STAGE KEY AMOUNT W2 W3`
fn submit(plain: &mut Plain, stage: u8, body: Body) -> Result<Answer<'static>, AllocError>
    requires { 0 < plain.old.limits.parts }
    ensures gives { IfOk result (λ a. (a ≡ submitted_as (submit_of plain.old 0 stage body).0)
        × (plain.new ≡ (submit_of plain.old 0 stage body).1)) }
    ensures client { (pass_at plain.new 0).holding ≡ (pass_at plain.old 0).holding }
    ensures limits { plain.new.limits ≡ plain.old.limits }
{
    match plain.submit(CLIENT, stage, body) {
        Ok(id) => Ok(Answer::Submitted { id }),
        Err(Refusal::NoMemory) => Err(AllocError),
        Err(why) => Ok(Answer::Refused(why)),
    }
}

/// `kill ID`
fn kill(plain: &mut Plain, id: u32) -> Answer<'static>
    requires parts { 0 < plain.old.limits.parts }
    requires free { (pass_at plain.old 0).holding ≡ None }
    ensures gives { (result ≡ killed_as id (kill_of plain.old 0 id).0)
        × (plain.new ≡ (kill_of plain.old 0 id).1) }
    ensures free { (pass_at plain.new 0).holding ≡ None }
    ensures limits { plain.new.limits ≡ plain.old.limits }
{
    match plain.kill(CLIENT, id) {
        Ok(killed) => Answer::Killed {
            id,
            aborted: killed.units_aborted,
        },
        Err(why) => Answer::Refused(why),
    }
}

/// `cancel ROOT`
fn cancel(plain: &mut Plain, root: u32) -> Answer<'static>
    requires parts { 0 < plain.old.limits.parts }
    requires free { (pass_at plain.old 0).holding ≡ None }
    ensures gives { (result ≡ cancelled_as root (cancel_of plain.old 0 root).0)
        × (plain.new ≡ (cancel_of plain.old 0 root).1) }
    ensures free { (pass_at plain.new 0).holding ≡ None }
    ensures limits { plain.new.limits ≡ plain.old.limits }
{
    match plain.cancel(CLIENT, root) {
        Ok(cancelled) => Answer::Cancelled {
            root,
            killed: cancelled.killed,
        },
        Err(why) => Answer::Refused(why),
    }
}

/// `requeue ID`
fn requeue(plain: &mut Plain, id: u32) -> Answer<'static>
    requires parts { 0 < plain.old.limits.parts }
    requires free { (pass_at plain.old 0).holding ≡ None }
    ensures gives { (result ≡ requeued_as id (requeue_of plain.old 0 id).0)
        × (plain.new ≡ (requeue_of plain.old 0 id).1) }
    ensures free { (pass_at plain.new 0).holding ≡ None }
    ensures limits { plain.new.limits ≡ plain.old.limits }
{
    match plain.requeue(CLIENT, id) {
        Ok(round) => Answer::Requeued { id, round },
        Err(why) => Answer::Refused(why),
    }
}

/// `release ID`
fn release(plain: &mut Plain, id: u32) -> Answer<'static>
    requires parts { 0 < plain.old.limits.parts }
    requires free { (pass_at plain.old 0).holding ≡ None }
    ensures gives { (result ≡ released_as id (release_of plain.old 0 id).0)
        × (plain.new ≡ (release_of plain.old 0 id).1) }
    ensures free { (pass_at plain.new 0).holding ≡ None }
    ensures limits { plain.new.limits ≡ plain.old.limits }
{
    match plain.release(CLIENT, id) {
        Ok(released) => Answer::Released {
            id,
            unit: released.unit,
            attempt: released.attempt,
        },
        Err(why) => Answer::Refused(why),
    }
}

/// `read ID`
fn read(plain: &Plain, id: u32) -> Answer<'static>
    ensures { result ≡ read_as (read_of plain.now id) }
{
    match plain.read(id) {
        Ok(look) => Answer::Read(look),
        Err(why) => Answer::Refused(why),
    }
}

/// The reply to the request with this id that waits, if there is one.
fn reply_at(plain: &Plain, root: u32, id: u32) -> Option<Element>
    ensures { result ≡ picked (reply_shown root) (read_of plain.now id) }
{
    match plain.read(id) {
        Ok(look) => {
            if is_reply(root, &look) {
                Some(look.element)
            } else {
                None
            }
        }
        Err(_) => None,
    }
}

/// Whether a look shows a reply to this request that waits.
fn is_reply(root: u32, look: &Look) -> bool
    ensures { result ≡ is_reply root look.now }
{
    look.element.stage == REPLY_STAGE
        && look.element.root == root
        && matches!(look.status, Status::Waiting { attempts: _ })
}

/// The look at the element with this id, where it is of the request.
fn member_at(plain: &Plain, root: u32, id: u32) -> Option<Look>
    ensures { result ≡ picked (member_in root) (read_of plain.now id) }
{
    match plain.read(id) {
        Ok(look) => {
            if look.element.root == root {
                Some(look)
            } else {
                None
            }
        }
        Err(_) => None,
    }
}

/// The id of a parked element, where this is one.
fn parked_at(plain: &Plain, id: u32) -> Option<u32>
    ensures { result ≡ picked parked_in (read_of plain.now id) }
{
    match plain.read(id) {
        Ok(look) => parked_in(look),
        Err(_) => None,
    }
}

/// The id of an element that was shown parked.
fn parked_in(look: Look) -> Option<u32>
    ensures { result ≡ parked_in look }
{
    match look.status {
        Status::Parked { attempts: _ } => Some(look.element.id),
        _ => None,
    }
}

/// Adds what there is.
fn push_some<T: Drop>(found: &mut Vec<T>, one: Option<T>) -> Result<(), AllocError>
    ensures { OnOk result (found.new.items ≡ with_last found.old.items one) }
{
    match one {
        Some(one) => {
            found.push(one)?;
            Ok(())
        }
        None => Ok(()),
    }
}

/// The replies to a request, in ascending order.
fn replies(plain: &Plain, alloc: Global, root: u32) -> Result<Vec<Element>, AllocError>
    ensures { IfOk result (λ found. found.items ≡ replies_of root plain.now) }
{
    let mut found = Vec::new(alloc);
    for id in 0..plain.capacity() {
        push_some(&mut found, reply_at(plain, root, id))?;
    }
    Ok(found)
}

/// The elements of a request, in ascending order.
fn members(plain: &Plain, alloc: Global, root: u32) -> Result<Vec<Look>, AllocError>
    ensures { IfOk result (λ found. found.items ≡ picked_of (member_in root) plain.now) }
{
    let mut found = Vec::new(alloc);
    for id in 0..plain.capacity() {
        push_some(&mut found, member_at(plain, root, id))?;
    }
    Ok(found)
}

/// The parked elements, in ascending order.
fn parked(plain: &Plain, alloc: Global) -> Result<Vec<u32>, AllocError>
    ensures { IfOk result (λ found. found.items ≡ picked_of parked_in plain.now) }
{
    let mut found = Vec::new(alloc);
    for id in 0..plain.capacity() {
        push_some(&mut found, parked_at(plain, id))?;
    }
    Ok(found)
}

/// Has the client take these replies, one after another.
fn collect_all(plain: &mut Plain, replies: &[Element])
    requires parts { 0 < plain.old.limits.parts }
    requires free { (pass_at plain.old 0).holding ≡ None }
    ensures gives { plain.new ≡ with_collected plain.old replies.now }
    ensures free { (pass_at plain.new 0).holding ≡ None }
    ensures limits { plain.new.limits ≡ plain.old.limits }
{
    for reply in replies {
        let _collected = plain.collect(CLIENT, reply.id);
    }
}

/// How many elements have each status.
pub(crate) fn counts(plain: &Plain) -> Counts
    ensures { result ≡ counts_of plain.now }
{
    let mut counts = Counts {
        waiting: 0,
        held: 0,
        consumed: 0,
        parked: 0,
        killed: 0,
    };
    for id in 0..plain.capacity() {
        counts = counted_with(plain, id, counts);
    }
    counts
}

/// These counts, and one more where there is an element with this id.
fn counted_with(plain: &Plain, id: u32, counts: Counts) -> Counts
    requires { all_in counts < 2 ^ 32 - 1 }
    ensures counts { result ≡ count_read (read_of plain.now id) counts }
    ensures few { all_in result ≤ all_in counts + 1 }
{
    match plain.read(id) {
        Ok(look) => one_more(counts, look.status),
        Err(_) => counts,
    }
}

/// These counts, and one more element of this status.
fn one_more(counts: Counts, status: Status) -> Counts
    requires { all_in counts < 2 ^ 32 - 1 }
    ensures { result ≡ one_more status counts }
{
    let mut counts = counts;
    match status {
        Status::Waiting { .. } => counts.waiting += 1,
        Status::Held { .. } => counts.held += 1,
        Status::Consumed { .. } => counts.consumed += 1,
        Status::Parked { .. } => counts.parked += 1,
        Status::Killed => counts.killed += 1,
    }
    counts
}

/// Has the client do what is asked, and answers the line of its answer.
pub(crate) fn client_line(
    plain: &mut Plain,
    alloc: Global,
    act: ClientAct,
) -> Result<String, AllocError>
    requires parts { 0 < plain.old.limits.parts }
    requires free { (pass_at plain.old 0).holding ≡ None }
    ensures gives { IfOk result (λ text. client_step act plain.old ≡ (string_bytes text, plain.new)) }
    ensures free { IfOk result (λ _. (pass_at plain.new 0).holding ≡ None) }
    ensures limits { plain.new.limits ≡ plain.old.limits }
{
    match act {
        ClientAct::Submit { stage, body } => line(alloc, submit(plain, stage, body)?),
        ClientAct::Kill { id } => line(alloc, kill(plain, id)),
        ClientAct::Cancel { root } => line(alloc, cancel(plain, root)),
        ClientAct::Requeue { id } => line(alloc, requeue(plain, id)),
        ClientAct::Release { id } => line(alloc, release(plain, id)),
        ClientAct::Read { id } => line(alloc, read(plain, id)),
        ClientAct::Reply { root } => {
            let replies = replies(plain, alloc, root)?;
            let replies = replies.as_slice();
            line(alloc, Answer::Replies { root, replies })
        }
        ClientAct::Collect { root } => {
            let replies = replies(plain, alloc, root)?;
            let replies = replies.as_slice();
            collect_all(plain, replies);
            line(alloc, Answer::Collected { root, replies })
        }
        ClientAct::Family { root } => {
            let looks = members(plain, alloc, root)?;
            let looks = looks.as_slice();
            line(alloc, Answer::Family { root, looks })
        }
        ClientAct::Errors => {
            let parked = parked(plain, alloc)?;
            line(alloc, Answer::Errors(parked.as_slice()))
        }
        ClientAct::Count => line(alloc, Answer::Count(counts(plain))),
    }
}
