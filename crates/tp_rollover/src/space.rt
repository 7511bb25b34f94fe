//! The memory that a rollover needs, which a caller can have before it begins.
ghost use Rattle.std.specs.Prelude.{◌≡◌, ◌<◌, ◌≤◌, IfOk, OnErr, OnOk, replicate, vec_capacity};
ghost use Rattle.tp_model.specs.Steps.{rows_of};
ghost use Rattle.tp_rollover.specs.Space.{HasRestoreSpace, HasSpace, HasSurveySpace};
ghost use Rattle.tp_rollover.specs.Space.{TakesRestoreSpace, TakesSpace, TakesSurveySpace};

use crate::births::Family;
use crate::moved::Moved;
use crate::survivors::Survivor;
use std::alloc::{AllocError, Global};
use tp_model::types::{BLOCK_ROWS, Limits};

/// What a survey writes into (`Managed::survey_in`), again and again: what it has written, the next one clears.
#[derive(Drop)]
pub struct SurveySpace {
    pub(crate) ids: Vec<u32>,
    /// What the last survey found.
    pub found: Vec<Survivor>,
}

/// What a restoration writes into, again and again.
#[derive(Drop)]
pub struct RestoreSpace {
    /// What the last restoration made.
    pub moved: Vec<Moved>,
    pub(crate) families: Vec<Family>,
    pub(crate) new_roots: Vec<Option<u32>>,
    pub(crate) old_roots: Vec<Option<u32>>,
}

/// What a rollover writes into (`Managed::roll_over_into`), again and again: what it has written, the next one
/// clears.
#[derive(Drop)]
pub struct Space {
    pub survey: SurveySpace,
    pub restore: RestoreSpace,
}

/// Clears the vector, and fills it with so many of this one.
pub(crate) fn refill<T: Copy>(places: &mut Vec<T>, one: T, count: usize) -> Result<(), AllocError>
    ensures filled { OnOk result (places.new.items ≡ replicate count one) }
    ensures kept { vec_capacity places.old ≤ vec_capacity places.new }
    ensures room { OnErr result (vec_capacity places.old < count) }
{
    places.clear();
    places.reserve_exact(count)?;
    for _done in 0..count {
        if places.push(one).is_err() {
            return Err(AllocError);
        }
    }
    Ok(())
}

/// How many rows a manager with these limits has.
fn rows_of(limits: Limits) -> usize
    ensures { result ≡ rows_of limits }
{
    let own = usize::from(limits.parts) * usize::from(limits.rows);
    own + usize::from(BLOCK_ROWS) * usize::from(limits.spare)
}

impl SurveySpace {
    /// No memory: a survey takes what it needs then.
    pub(crate) fn empty(alloc: Global) -> SurveySpace {
        SurveySpace {
            ids: Vec::new(alloc),
            found: Vec::new(alloc),
        }
    }

    /// All that a survey of a manager with these limits needs, and no more.
    pub fn new(alloc: Global, limits: Limits) -> Result<SurveySpace, AllocError>
        ensures has { IfOk result (HasSurveySpace limits) }
        ensures takes { IfOk result (TakesSurveySpace limits) }
    {
        let rows = rows_of(limits);
        Ok(SurveySpace {
            ids: Vec::with_capacity(alloc, rows)?,
            found: Vec::with_capacity(alloc, rows)?,
        })
    }

    /// What the last survey found.
    pub(crate) fn into_found(self) -> Vec<Survivor>
        ensures { result ≡ self.found }
    {
        let SurveySpace { ids: _ids, found } = self;
        found
    }
}

impl RestoreSpace {
    /// No memory: a restoration takes what it needs then.
    pub(crate) fn empty(alloc: Global) -> RestoreSpace {
        RestoreSpace {
            moved: Vec::new(alloc),
            families: Vec::new(alloc),
            new_roots: Vec::new(alloc),
            old_roots: Vec::new(alloc),
        }
    }

    /// All that is needed to restore so many elements, which are described by the limits `old`, in a manager
    /// with the limits `new`, and no more.
    fn between(
        alloc: Global,
        old: Limits,
        new: Limits,
        survivors: usize,
    ) -> Result<RestoreSpace, AllocError>
        ensures has { IfOk result (HasRestoreSpace old new survivors) }
        ensures takes { IfOk result (TakesRestoreSpace old new survivors) }
    {
        let rows = rows_of(old);
        Ok(RestoreSpace {
            moved: Vec::with_capacity(alloc, survivors)?,
            families: Vec::with_capacity(alloc, rows)?,
            new_roots: Vec::with_capacity(alloc, rows)?,
            old_roots: Vec::with_capacity(alloc, rows_of(new))?,
        })
    }

    /// What the last restoration made.
    pub(crate) fn into_moved(self) -> Vec<Moved>
        ensures { result ≡ self.moved }
    {
        let RestoreSpace {
            moved,
            families: _families,
            new_roots: _new_roots,
            old_roots: _old_roots,
        } = self;
        moved
    }
}

impl Space {
    /// No memory: a rollover takes what it needs then.
    pub(crate) fn empty(alloc: Global) -> Space {
        Space {
            survey: SurveySpace::empty(alloc),
            restore: RestoreSpace::empty(alloc),
        }
    }

    /// All that a rollover needs, from a manager with these limits into one with those, and no more.
    pub fn new(alloc: Global, old: Limits, new: Limits) -> Result<Space, AllocError>
        ensures has { IfOk result (HasSpace old new) }
        ensures takes { IfOk result (TakesSpace old new) }
    {
        Ok(Space {
            survey: SurveySpace::new(alloc, old)?,
            restore: RestoreSpace::between(alloc, old, new, rows_of(old))?,
        })
    }

    /// What the last rollover carried over: nothing where it was refused.
    pub fn moved(&self) -> &[Moved]
        ensures { result.now ≡ self.now.restore.moved.items }
    {
        &self.restore.moved
    }

    /// The same, without the space.
    pub(crate) fn into_moved(self) -> Vec<Moved>
        ensures { result ≡ self.restore.moved }
    {
        let Space {
            survey: _survey,
            restore,
        } = self;
        restore.into_moved()
    }
}
