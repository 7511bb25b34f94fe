//! The rows that a pass goes on to use: those of its run, or of a spare block that it draws for them.
ghost use Rattle.std.specs.Prelude.{◌≡◌, ◌<◌, ◌≤◌};
ghost use Rattle.tp_model.specs.Steps.{AreLimits, block_first};
ghost use Rattle.tp_plain.specs.OneThread.{draws_block, pass_at, ready, with_draw};

use crate::pass_state::PassState;
use crate::plain::Plain;
use tp_model::types::{BLOCK_ROWS, Limits};

impl Plain {
    /// What a pass has used when it goes on to use this many rows. A block that it draws is then its run.
    pub(crate) fn ready(&self, caller: u16, rows: usize) -> PassState
        requires { caller < self.now.limits.parts }
        ensures { result ≡ ready self.now caller rows }
    {
        let used = self.passes[caller as usize];
        if !self.draws(caller, rows) {
            return used;
        }
        PassState {
            next: block_first(self.limits, self.drawn),
            left: BLOCK_ROWS,
            ..used
        }
    }

    /// How many spare blocks are drawn when a pass goes on to use this many rows.
    pub(crate) fn drawn_with(&self, caller: u16, rows: usize) -> u16
        requires { caller < self.now.limits.parts }
        ensures { result ≡ (with_draw self.now caller rows).drawn }
    {
        if self.draws(caller, rows) {
            self.drawn + 1
        } else {
            self.drawn
        }
    }

    // Whether a pass draws the next spare block for this many rows.
    fn draws(&self, caller: u16, rows: usize) -> bool
        requires { caller < self.now.limits.parts }
        ensures { result ≡ draws_block self.now caller rows }
    {
        (self.passes[caller as usize].left as usize) < rows && self.drawn < self.limits.spare
    }
}

/// The first row of a spare block. For the number of blocks it is the row after all.
pub(crate) fn block_first(limits: Limits, block: u16) -> u32
    requires limits { AreLimits limits }
    requires block { block ≤ limits.spare }
    ensures { result ≡ block_first limits block }
{
    u32::from(limits.parts) * u32::from(limits.rows) + u32::from(BLOCK_ROWS) * u32::from(block)
}
