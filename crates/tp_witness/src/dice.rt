//! Numbers that a thread chooses by: the same for the same seed.

use rand_core::Rng;
use rand_pcg::Pcg32;

#[derive(Drop)]
pub struct Dice {
    numbers: Pcg32,
}

impl Dice {
    /// The dice of one thread.
    pub fn new(seed: u64, thread: u64) -> Dice {
        Dice {
            numbers: Pcg32::new(seed, thread),
        }
    }

    /// A number below `end`, or 0 where that is 0.
    pub fn below(&mut self, end: u32) -> u32 {
        self.numbers.next_u32().checked_rem(end).unwrap_or(0)
    }
}
