//! The looks of a manager of one thread: each born element with its status.
ghost use Rattle.std.specs.Prelude.{◌≡◌, ◌==◌, if◌then◌else◌, ◌<◌, ◌+◌, ◌^◌, length, IfOk, map, Some};
ghost use Rattle.std.specs.List.{find, fold, All};
ghost use Rattle.tp_plain.specs.Listings.{reply_found};
ghost use Rattle.tp_plain.specs.Noted.{noted_event};
ghost use Rattle.tp_plain.specs.Looks.{comes_before, look_after, sooner, attempts_in, is_held_by};
ghost use Rattle.tp_plain.specs.Looks.{is_unsettled_of, fresh_look};
ghost use Rattle.tp_model.specs.Births.{IsWhole, outputs};

use crate::history::Note;
use std::alloc::{AllocError, Global};
use tp_model::types::{Draft, Element, Look, REPLY_STAGE, Status};

/// The look at the element with this id.
pub(crate) fn look_of(looks: &[Look], id: u32) -> Option<Look>
    ensures { result ≡ find (λ look. look.element.id == id) looks.now }
{
    looks.iter().copied().find(|look| look.element.id == id)
}

// A look after one more event.
fn after(limit: u8, look: Look, note: &Note<'_>) -> Look
    ensures { result ≡ look_after limit (noted_event note.now) look }
{
    let status = match *note {
        Note::Enqueue(_, _) => look.status,
        Note::Claim(_, unit, id, attempt) => {
            if id == look.element.id {
                Status::Held { unit, attempt }
            } else {
                look.status
            }
        }
        Note::Commit(_, unit, _) => match look.status {
            Status::Held {
                unit: by,
                attempt: _,
            } if unit == by => Status::Consumed { unit: by },
            status => status,
        },
        Note::Abort(_, unit) => match look.status {
            Status::Held { unit: by, attempt } if unit == by => {
                if attempt < limit {
                    Status::Waiting { attempts: attempt }
                } else {
                    Status::Parked { attempts: attempt }
                }
            }
            status => status,
        },
        Note::Kill(_, id) => {
            if id == look.element.id {
                Status::Killed
            } else {
                look.status
            }
        }
        Note::Requeue(_, id, _) => {
            if id == look.element.id {
                Status::Waiting { attempts: 0 }
            } else {
                look.status
            }
        }
    };
    Look {
        element: look.element,
        status,
    }
}

/// All looks after one more event.
pub(crate) fn apply(limit: u8, looks: &mut [Look], note: &Note<'_>)
    ensures { looks.new ≡ map (look_after limit (noted_event note.now)) looks.old }
{
    for look in looks.iter_mut() {
        *look = after(limit, *look, note);
    }
}

/// The first waiting element of a stage from an id on, where after the last id comes the first.
pub(crate) fn next_waiting(looks: &[Look], from: u32, stage: u8) -> Option<Look>
    ensures { result ≡ fold (sooner from stage) None looks.now }
{
    let mut best: Option<Look> = None;
    for look in looks {
        best = sooner_of(from, stage, best, *look);
    }
    best
}

// Whether an id comes before another one where the ids are a circle, which begins at `from`.
fn comes_before(from: u32, id: u32, other: u32) -> bool
    ensures { result ≡ comes_before from id other }
{
    if id < from {
        other < from && id < other
    } else {
        other < from || id < other
    }
}

// Of a look found before and another one, the one to be claimed first.
fn sooner_of(from: u32, stage: u8, best: Option<Look>, look: Look) -> Option<Look>
    ensures { result ≡ sooner from stage best look }
{
    let waits = look.element.stage == stage
        && matches!(look.status, Status::Waiting { attempts: _ });
    match best {
        None => { if waits { Some(look) } else { None } }
        Some(found) => {
            if waits && comes_before(from, look.element.id, found.element.id) {
                Some(look)
            } else {
                Some(found)
            }
        }
    }
}

/// How many attempts an element that waits has had in its round.
pub(crate) fn attempts_of(status: Status) -> u8
    ensures { result ≡ attempts_in status }
{
    match status {
        Status::Waiting { attempts } => attempts,
        _ => 0,
    }
}

/// The look at the element that a unit holds.
pub(crate) fn held_by(looks: &[Look], unit: u16) -> Option<Look>
    ensures { result ≡ find (λ look. is_held_by unit look.status) looks.now }
{
    looks.iter().copied().find(
        |look| matches!(look.status, Status::Held { unit: by, attempt: _ } if unit == by),
    )
}

/// The outputs of a unit that these drafts become.
pub(crate) fn outputs_of(
    alloc: Global,
    unit: u16,
    root: u32,
    first: u32,
    drafts: &[Draft],
) -> Result<Vec<Element>, AllocError>
    requires { first + length drafts.now < 2 ^ 32 }
    ensures outputs { IfOk result (λ v. v.items ≡ outputs unit root first drafts.now) }
    ensures whole { IfOk result (λ _. All IsWhole drafts.now) }
{
    let mut outs = Vec::with_capacity(alloc, drafts.len())?;
    let mut id = first;
    for draft in drafts {
        outs.push(Element {
            id,
            stage: draft.stage(),
            root,
            body: draft.body(),
            by: Some(unit),
        })?;
        id += 1;
    }
    Ok(outs)
}

/// Looks at elements that are just born.
pub(crate) fn fresh_looks(alloc: Global, outs: &[Element]) -> Result<Vec<Look>, AllocError>
    ensures { IfOk result (λ v. v.items ≡ map fresh_look outs.now) }
{
    let mut looks = Vec::with_capacity(alloc, outs.len())?;
    for element in outs {
        looks.push(Look {
            element: *element,
            status: Status::Waiting { attempts: 0 },
        })?;
    }
    Ok(looks)
}

/// The id of the first of this many outputs, or 0 where there is none.
pub(crate) fn first_of(count: usize, first: u32) -> u32
    ensures { result ≡ (if count == 0 then 0 else first) }
{
    if count == 0 { 0 } else { first }
}

/// Whether an element is of the family, no reply, and neither consumed nor killed.
pub(crate) fn is_unsettled_in(root: u32, look: Look) -> bool
    ensures { result ≡ is_unsettled_of root look.status look.element }
{
    let settled = matches!(look.status, Status::Consumed { unit: _ } | Status::Killed);
    look.element.root == root && look.element.stage != REPLY_STAGE && !settled
}

/// Whether an element is a reply to the request, and waits.
pub(crate) fn is_reply_in(root: u32, look: Look) -> bool
    ensures { result ≡ reply_found root look.status (Some look.element) }
{
    let waits = matches!(look.status, Status::Waiting { attempts: _ });
    look.element.stage == REPLY_STAGE && look.element.root == root && waits
}
