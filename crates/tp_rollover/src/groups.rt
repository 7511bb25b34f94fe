//! How many are born together, and the drafts of them.
ghost use Rattle.std.specs.Prelude.{◌≡◌, ◌-◌, ◌≤◌, ◌++◌, All, length, map, nat_lt, replicate, true};
ghost use Rattle.tp_model.specs.Steps.{IsStage};
ghost use Rattle.tp_rollover.specs.Anew.{filler, group_size, home_of, neighbours_in};
ghost use Rattle.tp_rollover.specs.Anew.{survivor_draft};

use crate::survivors::Survivor;
use tp_model::types::{Body, Draft, Limits};

/// The pass in whose part the row lies, or as many as there are parts for a spare one.
pub(crate) fn home_of(limits: Limits, id: u32) -> usize
    ensures { result ≡ home_of limits id }
{
    let home = id / u32::from(limits.rows).max(1);
    home.min(u32::from(limits.parts)) as usize
}

/// How many of these, at most four, are neighbours of one pass and one family.
fn neighbours(limits: Limits, rest: &[Survivor]) -> usize
    requires some { 1 ≤ length rest.now }
    ensures few { result ≤ 4 }
    ensures some { 1 ≤ result }
    ensures inside { result ≤ length rest.now }
    ensures counted { result ≡ neighbours_in limits rest.now }
{
    let first = rest[0];
    let home = home_of(limits, first.id);
    let end = rest.len().min(4);
    for place in 1..end {
        let next = rest[place];
        if next.root != first.root {
            return place;
        }
        if home_of(limits, next.id) != home {
            return place;
        }
    }
    end
}

/// How many of these are born next, where so many of the family are left; and whether a carrier is born with
/// them, for more of it.
pub(crate) fn next_group(limits: Limits, rest: &[Survivor], left: usize) -> (usize, bool)
    requires some { 1 ≤ length rest.now }
    ensures few { result.0 ≤ 4 }
    ensures room { result.1 ≡ true → result.0 ≤ 3 }
    ensures some { 1 ≤ result.0 }
    ensures inside { result.0 ≤ length rest.now }
    ensures size { result.0 ≡ group_size limits rest.now left }
    ensures more { result.1 ≡ nat_lt result.0 left }
{
    let count = neighbours(limits, rest);
    if count == 4 && left > 4 {
        return (3, true);
    }
    (count, left > count)
}

/// A draft for a stage that outputs have.
pub(crate) fn draft(stage: u8, body: Body) -> Draft
    requires stage { IsStage stage }
    ensures { result ≡ record { stage = stage; body = body } }
{
    let Some(draft) = Draft::new(stage, body) else {
        unreachable!();
    };
    draft
}

/// Drafts of these, and for what is left of four fillers, of which one is a carrier: it waits until its
/// family's next turn.
pub(crate) fn drafts_of(group: &[Survivor]) -> [Draft; 4]
    requires few { length group.now ≤ 4 }
    requires stages { All (λ s. IsStage s.stage) group.now }
    ensures drafts { result ≡ map survivor_draft group.now ++ replicate (4 - length group.now) filler }
{
    let mut drafts = [draft(1, [0; 4]); 4];
    for place in 0..group.len() {
        drafts[place] = draft(group[place].stage, group[place].body);
    }
    drafts
}
