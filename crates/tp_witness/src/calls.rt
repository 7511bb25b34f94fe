//! Each call of the manager, made and written down.
ghost use Rattle.std.specs.Prelude.{◌≡◌, ◌≤◌, None, IfOk, IsSome, is_some};
ghost use Rattle.tp_manager.specs.Shown.{IsOf};

use crate::diary::{Diary, Made};
use crate::program_fault::ProgramFault;
use tp_manager::{Manager, Pass};
use tp_model::types::{Body, Claimed, Draft};

pub fn submit(
    manager: &Manager,
    pass: &mut Pass,
    diary: &mut Diary,
    stage: u8,
    body: Body,
) -> Result<(), ProgramFault>
    requires own { IsOf manager.now pass.old }
    ensures own { IsOf manager.now pass.new }
    ensures open_unit { pass.new.open_unit ≡ pass.old.open_unit }
{
    let before = diary.now();
    let answer = manager.submit(pass, stage, body);
    diary.note(
        before,
        Made::Submit {
            stage,
            body,
            answer,
        },
    )
}

/// Whether the pass has a unit open now.
pub fn claim(
    manager: &Manager,
    pass: &mut Pass,
    diary: &mut Diary,
    stage: u8,
) -> Result<bool, ProgramFault>
    requires own { IsOf manager.now pass.old }
    requires free { pass.old.open_unit ≡ None }
    requires stage { (1 ≤ stage) × (stage ≤ 14) }
    ensures own { IsOf manager.now pass.new }
    ensures open_unit { IfOk result (λ has. has ≡ is_some pass.new.open_unit) }
{
    let before = diary.now();
    let answer = manager.claim(pass, stage);
    if let Claimed::Work(work) = answer {
        diary.take(work.element);
    }
    diary.note(before, Made::Claim { stage, answer })?;
    Ok(pass.has_open())
}

/// Whether the pass has a unit open now.
pub fn claim_next(
    manager: &Manager,
    pass: &mut Pass,
    diary: &mut Diary,
    stage: u8,
) -> Result<bool, ProgramFault>
    requires own { IsOf manager.now pass.old }
    requires free { pass.old.open_unit ≡ None }
    requires stage { (1 ≤ stage) × (stage ≤ 14) }
    ensures own { IsOf manager.now pass.new }
    ensures open_unit { IfOk result (λ has. has ≡ is_some pass.new.open_unit) }
{
    let before = diary.now();
    let answer = manager.claim_next(pass, stage);
    if let Claimed::Work(work) = answer {
        diary.take(work.element);
    }
    diary.note(before, Made::ClaimNext { stage, answer })?;
    Ok(pass.has_open())
}

/// Whether the pass has a unit open now.
pub fn claim_id(
    manager: &Manager,
    pass: &mut Pass,
    diary: &mut Diary,
    id: u32,
) -> Result<bool, ProgramFault>
    requires own { IsOf manager.now pass.old }
    requires free { pass.old.open_unit ≡ None }
    ensures own { IsOf manager.now pass.new }
    ensures open_unit { IfOk result (λ has. has ≡ is_some pass.new.open_unit) }
{
    let before = diary.now();
    let answer = manager.claim_id(pass, id);
    if let Ok(work) = answer {
        diary.take(work.element);
    }
    diary.note(before, Made::ClaimId { id, answer })?;
    Ok(pass.has_open())
}

/// Commits with this many drafts, at most four.
pub fn commit(
    manager: &Manager,
    pass: &mut Pass,
    diary: &mut Diary,
    drafts: u8,
    stage: u8,
    body: Body,
) -> Result<(), ProgramFault>
    requires own { IsOf manager.now pass.old }
    requires busy { IsSome pass.old.open_unit }
    ensures own { IsOf manager.now pass.new }
    ensures free { pass.new.open_unit ≡ None }
{
    let drafts = drafts.min(4);
    let all = [
        draft(stage, body, 0),
        draft(stage, body, 1),
        draft(stage, body, 2),
        draft(stage, body, 3),
    ];
    let before = diary.now();
    let answer = manager.commit(pass, &all[..usize::from(drafts)]);
    diary.note(
        before,
        Made::Commit {
            drafts,
            stage,
            body,
            answer,
        },
    )
}

/// A draft with this body, of which each word but the key is so much more.
fn draft(stage: u8, body: Body, more: u64) -> Draft {
    let [key, second, third, last] = body;
    let body = [
        key,
        second.wrapping_add(more),
        third.wrapping_add(more),
        last.wrapping_add(more),
    ];
    match Draft::new(stage, body) {
        Some(draft) => draft,
        None => Draft::default(),
    }
}

pub fn abort(manager: &Manager, pass: &mut Pass, diary: &mut Diary) -> Result<(), ProgramFault>
    requires own { IsOf manager.now pass.old }
    requires busy { IsSome pass.old.open_unit }
    ensures own { IsOf manager.now pass.new }
    ensures free { pass.new.open_unit ≡ None }
{
    let before = diary.now();
    let answer = manager.abort(pass);
    diary.note(before, Made::Abort { answer })
}

pub fn release(
    manager: &Manager,
    pass: &mut Pass,
    diary: &mut Diary,
    id: u32,
) -> Result<(), ProgramFault>
    requires own { IsOf manager.now pass.old }
    requires free { pass.old.open_unit ≡ None }
    ensures own { IsOf manager.now pass.new }
    ensures free { pass.new.open_unit ≡ None }
{
    let before = diary.now();
    let answer = manager.release(pass, id);
    diary.note(before, Made::Release { id, answer })
}

pub fn kill(
    manager: &Manager,
    pass: &mut Pass,
    diary: &mut Diary,
    id: u32,
) -> Result<(), ProgramFault>
    requires own { IsOf manager.now pass.old }
    requires free { pass.old.open_unit ≡ None }
    ensures own { IsOf manager.now pass.new }
    ensures free { pass.new.open_unit ≡ None }
{
    let before = diary.now();
    let answer = manager.kill(pass, id);
    diary.note(before, Made::Kill { id, answer })
}

pub fn cancel(
    manager: &Manager,
    pass: &mut Pass,
    diary: &mut Diary,
    root: u32,
) -> Result<(), ProgramFault>
    requires own { IsOf manager.now pass.old }
    requires free { pass.old.open_unit ≡ None }
    ensures own { IsOf manager.now pass.new }
    ensures free { pass.new.open_unit ≡ None }
{
    let before = diary.now();
    let answer = manager.cancel(pass, root);
    diary.note(before, Made::Cancel { root, answer })
}

pub fn requeue(
    manager: &Manager,
    pass: &mut Pass,
    diary: &mut Diary,
    id: u32,
) -> Result<(), ProgramFault>
    requires own { IsOf manager.now pass.old }
    ensures own { IsOf manager.now pass.new }
    ensures open_unit { pass.new.open_unit ≡ pass.old.open_unit }
{
    let before = diary.now();
    let answer = manager.requeue(pass, id);
    diary.note(before, Made::Requeue { id, answer })
}

pub fn read(
    manager: &Manager,
    pass: &mut Pass,
    diary: &mut Diary,
    id: u32,
) -> Result<(), ProgramFault>
    requires own { IsOf manager.now pass.old }
    ensures own { IsOf manager.now pass.new }
    ensures open_unit { pass.new.open_unit ≡ pass.old.open_unit }
{
    let before = diary.now();
    let answer = manager.read(pass, id);
    if let Ok(look) = answer {
        diary.see(id, look.status);
    }
    diary.note(before, Made::Read { id, answer })
}

pub fn reply(
    manager: &Manager,
    pass: &mut Pass,
    diary: &mut Diary,
    root: u32,
    from: u32,
) -> Result<Option<u32>, ProgramFault>
    requires own { IsOf manager.now pass.old }
    ensures own { IsOf manager.now pass.new }
    ensures open_unit { pass.new.open_unit ≡ pass.old.open_unit }
{
    let before = diary.now();
    let answer = manager.reply(pass, root, from);
    diary.note(before, Made::Reply { root, from, answer })?;
    Ok(answer)
}

pub fn collect(
    manager: &Manager,
    pass: &mut Pass,
    diary: &mut Diary,
    id: u32,
) -> Result<(), ProgramFault>
    requires own { IsOf manager.now pass.old }
    requires free { pass.old.open_unit ≡ None }
    ensures own { IsOf manager.now pass.new }
    ensures free { pass.new.open_unit ≡ None }
{
    let before = diary.now();
    let answer = manager.collect(pass, id);
    diary.note(before, Made::Collect { id, answer })
}

pub fn collect_next(
    manager: &Manager,
    pass: &mut Pass,
    diary: &mut Diary,
    root: u32,
) -> Result<(), ProgramFault>
    requires own { IsOf manager.now pass.old }
    requires free { pass.old.open_unit ≡ None }
    ensures own { IsOf manager.now pass.new }
    ensures free { pass.new.open_unit ≡ None }
{
    let before = diary.now();
    let answer = manager.collect_next(pass, root);
    diary.note(before, Made::CollectNext { root, answer })
}

/// The id of the element that was found.
pub fn family(
    manager: &Manager,
    pass: &mut Pass,
    diary: &mut Diary,
    root: u32,
    from: u32,
) -> Result<Option<u32>, ProgramFault>
    requires own { IsOf manager.now pass.old }
    ensures own { IsOf manager.now pass.new }
    ensures open_unit { pass.new.open_unit ≡ pass.old.open_unit }
{
    let before = diary.now();
    let answer = manager.family(pass, root, from);
    diary.note(before, Made::Family { root, from, answer })?;
    Ok(answer.map(|look| look.element.id))
}

pub fn next_error(
    manager: &Manager,
    pass: &mut Pass,
    diary: &mut Diary,
    from: u32,
) -> Result<Option<u32>, ProgramFault>
    requires own { IsOf manager.now pass.old }
    ensures own { IsOf manager.now pass.new }
    ensures open_unit { pass.new.open_unit ≡ pass.old.open_unit }
{
    let before = diary.now();
    let answer = manager.next_error(pass, from);
    diary.note(before, Made::NextError { from, answer })?;
    Ok(answer)
}
