//! What crosses between the library and C.
ghost use Rattle.std.specs.Prelude.{◌≡◌, MatchOption};
ghost use Rattle.covetrivet_c.specs.Shapes.{IsDraftIn, counts_shape, draft_given, element_shape, limits_in};
ghost use Rattle.covetrivet_c.specs.Shapes.{limits_shape, look_shape, moved_shape, released_shape};
ghost use Rattle.covetrivet_c.specs.Shapes.{status_shape};
ghost use Rattle.covetrivet_c.specs.Shapes.{number_code, work_shape};

use tp_model::types::{Body, Counts, Draft, Element, Limits, Look, Released, Status, Work};
use tp_rollover::Moved;

/// The limits of a manager, as `Limits`.
#[repr(C)]
#[derive(Clone, Copy)]
pub struct PlainLimits {
    pub parts: u16,
    pub rows: u16,
    pub units: u16,
    pub spare: u16,
    pub attempts: u8,
}

/// An element, as `Element`; `by` is 65,536 where a client submitted it.
#[repr(C)]
#[derive(Clone, Copy)]
pub struct ElementOut {
    pub body: Body,
    pub id: u32,
    pub root: u32,
    pub by: u32,
    pub stage: u8,
}

/// What a claim hands out, as `Work`.
#[repr(C)]
#[derive(Clone, Copy)]
pub struct WorkOut {
    pub element: ElementOut,
    pub unit: u16,
    pub attempt: u8,
}

/// A status, as `Status`: its kind is 0 for waiting, 1 held, 2 consumed, 3 parked, 4 killed.
#[repr(C)]
#[derive(Clone, Copy)]
pub struct StatusOut {
    pub unit: u16,
    pub kind: u8,
    pub attempts: u8,
}

/// An element with its status.
#[repr(C)]
#[derive(Clone, Copy)]
pub struct LookOut {
    pub element: ElementOut,
    pub status: StatusOut,
}

/// The unit of work that a release aborted, as `Released`.
#[repr(C)]
#[derive(Clone, Copy)]
pub struct ReleasedOut {
    pub unit: u16,
    pub attempt: u8,
}

/// The outputs of a commit: `count` of them, with ids from `first` on.
#[repr(C)]
#[derive(Clone, Copy)]
pub struct BornOut {
    pub first: u32,
    pub count: u8,
}

/// What is left to a pass, as `Room`.
#[repr(C)]
#[derive(Clone, Copy)]
pub struct RoomOut {
    pub rows: u16,
    pub units: u16,
}

/// How many elements there are of each kind of status, as `Counts`.
#[repr(C)]
#[derive(Clone, Copy)]
pub struct CountsOut {
    pub waiting: u32,
    pub held: u32,
    pub consumed: u32,
    pub parked: u32,
    pub killed: u32,
}

/// One element that was carried over, as `Moved`; `holder` is 65,536 where no pass has it in hand.
#[repr(C)]
#[derive(Clone, Copy)]
pub struct MovedOut {
    pub old_id: u32,
    pub new_id: u32,
    pub old_root: u32,
    pub new_root: u32,
    pub holder: u32,
}

/// An output of a unit of work, before it is born.
#[repr(C)]
#[derive(Clone, Copy)]
pub struct DraftIn {
    pub body: Body,
    pub stage: u8,
}

/// The limits that C asked for.
pub(crate) fn limits_in(limits: &PlainLimits) -> Limits
    ensures { result ≡ limits_in limits.now }
{
    Limits {
        parts: limits.parts,
        rows: limits.rows,
        units: limits.units,
        attempts: limits.attempts,
        spare: limits.spare,
    }
}

/// A manager's limits, for C.
pub(crate) fn limits_out(limits: &Limits) -> PlainLimits
    ensures { result ≡ limits_shape limits.now }
{
    PlainLimits {
        parts: limits.parts,
        rows: limits.rows,
        units: limits.units,
        spare: limits.spare,
        attempts: limits.attempts,
    }
}

/// A number for C, and 65,536 for none.
fn number_code(number: Option<u16>) -> u32
    ensures { result ≡ number_code number }
{
    match number {
        Some(number) => number as u32,
        None => 65_536,
    }
}

/// The element for C.
pub(crate) fn element_out(element: &Element) -> ElementOut
    ensures { result ≡ element_shape element.now }
{
    ElementOut {
        body: element.body,
        id: element.id,
        root: element.root,
        by: number_code(element.by),
        stage: element.stage,
    }
}

/// What was claimed, for C.
pub(crate) fn work_out(work: &Work) -> WorkOut
    ensures { result ≡ work_shape work.now }
{
    WorkOut {
        element: element_out(&work.element),
        unit: work.unit,
        attempt: work.attempt,
    }
}

fn status_out(status: Status) -> StatusOut
    ensures { result ≡ status_shape status }
{
    match status {
        Status::Waiting { attempts } => StatusOut {
            unit: 0,
            kind: 0,
            attempts,
        },
        Status::Held { unit, attempt } => StatusOut {
            unit,
            kind: 1,
            attempts: attempt,
        },
        Status::Consumed { unit } => StatusOut {
            unit,
            kind: 2,
            attempts: 0,
        },
        Status::Parked { attempts } => StatusOut {
            unit: 0,
            kind: 3,
            attempts,
        },
        Status::Killed => StatusOut {
            unit: 0,
            kind: 4,
            attempts: 0,
        },
    }
}

/// A look, for C.
pub(crate) fn look_out(look: &Look) -> LookOut
    ensures { result ≡ look_shape look.now }
{
    LookOut {
        element: element_out(&look.element),
        status: status_out(look.status),
    }
}

/// The unit of work that a release aborted, for C.
pub(crate) fn released_out(released: &Released) -> ReleasedOut
    ensures { result ≡ released_shape released.now }
{
    ReleasedOut {
        unit: released.unit,
        attempt: released.attempt,
    }
}

/// The draft that C asked for, or `None` unless its stage is 1 to 15.
pub(crate) fn draft_in(draft: &DraftIn) -> Option<Draft>
    ensures { MatchOption result (¬ IsDraftIn draft.now) (λ d. d ≡ draft_given draft.now) }
{
    Draft::new(draft.stage, draft.body)
}

/// The counts, for C.
pub(crate) fn counts_out(counts: &Counts) -> CountsOut
    ensures { result ≡ counts_shape counts.now }
{
    CountsOut {
        waiting: counts.waiting,
        held: counts.held,
        consumed: counts.consumed,
        parked: counts.parked,
        killed: counts.killed,
    }
}

/// What was carried over, for C.
pub(crate) fn moved_out(moved: &Moved) -> MovedOut
    ensures { result ≡ moved_shape moved.now }
{
    MovedOut {
        old_id: moved.old,
        new_id: moved.new,
        old_root: moved.old_root,
        new_root: moved.new_root,
        holder: number_code(moved.holder),
    }
}
