//! Where the folds of boxes' work begin, for proofs alone.
ghost use Rattle.std.specs.Prelude.{◌≡◌, ◌+◌, ◌<◌, ◌≤◌, IfOk, Some, length, slice_get, zip};
ghost use Rattle.tp_crew.specs.CrewPasses.{desks_in};
ghost use Rattle.tp_crew.specs.Folds.{BeginsFold};

use std::alloc::{AllocError, Global};
use tp_manager::Pass;
use tp_model::remembered::Remembered;
use tp_server::Server;

/// What a box showed when the fold of its work began, and the pass of its desk.
#[derive(Drop)]
pub struct FoldStart {
    pub(crate) pass: Remembered<Pass>,
    pub(crate) server: Remembered<Box<dyn Server + Send>>,
}

impl FoldStart {
    /// The fold of the work of this box, the one at place `k`, begins here.
    fn of(passes: &[Pass], k: usize, server: &Box<dyn Server + Send>) -> FoldStart
        requires within { 1 + k < length passes.now }
        ensures pass { slice_get passes.now (k + 1) ≡ Some result.pass.value }
        ensures server { result.server.value ≡ server.now }
    {
        FoldStart {
            pass: Remembered::of(&passes[k + 1]),
            server: Remembered::of(server),
        }
    }

    ghost use Rattle.tp_crew.specs.FoldStarts.{begun};

    /// The folds of these boxes' work begin here.
    pub(crate) fn each(
        alloc: Global,
        passes: &[Pass],
        boxes: &[Box<dyn Server + Send>],
    ) -> Result<Vec<FoldStart>, AllocError>
        requires enough { 1 + length boxes.now ≤ length passes.now }
        ensures begun { IfOk result (λ starts.
            begun starts.items ≡ zip (desks_in (length boxes.now) passes.now) boxes.now) }
        ensures count { IfOk result (λ starts. length starts.items ≡ length boxes.now) }
    {
        let mut starts = Vec::new(alloc);
        for k in 0..boxes.len() {
            starts.push(FoldStart::of(passes, k, &boxes[k]))?;
        }
        Ok(starts)
    }

    /// The fold of the work of this box, which comes to place `k`, begins here. (The starts aren't lent as a
    /// slice: the borrow checker covers no pointer to an element of a type of no size.)
    pub(crate) fn begin(
        starts: &mut Vec<FoldStart>,
        k: usize,
        passes: &[Pass],
        server: &Box<dyn Server + Send>,
    )
        requires place { k < length starts.old.items }
        requires within { 1 + k < length passes.now }
        ensures folds { BeginsFold k server.now passes.now (begun starts.old.items) (begun starts.new.items) }
        ensures kept { length starts.new.items ≡ length starts.old.items }
    {
        starts[k] = FoldStart::of(passes, k, server);
    }

    /// The folds of these boxes' work begin here, in the place of those that began before.
    pub(crate) fn begin_all(
        starts: &mut Vec<FoldStart>,
        passes: &[Pass],
        boxes: &[Box<dyn Server + Send>],
    )
        requires places { length starts.old.items ≡ length boxes.now }
        requires enough { 1 + length boxes.now ≤ length passes.now }
        ensures begun { begun starts.new.items ≡ zip (desks_in (length boxes.now) passes.now) boxes.now }
        ensures kept { length starts.new.items ≡ length starts.old.items }
    {
        for k in 0..boxes.len() {
            FoldStart::begin(starts, k, passes, &boxes[k]);
        }
    }
}
