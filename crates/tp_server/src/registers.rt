//! The registers of a server.
ghost use Rattle.std.specs.Prelude.{◌≡◌, ◌≤◌, ◌<◌, ◌↔◌, length, replicate, IsSome, IfSome, slice_get};
ghost use Rattle.std.specs.Prelude.{slice_set};

use arrayvec::ArrayVec;
use std::alloc::AllocError;
use std::marker::Model;

/// 1 to 64 numbers of 64 bits, which lie in the value itself. Contracts see them as a list.
#[derive(Debug, Drop)]
pub struct Registers {
    cells: ArrayVec<u64, 64>,
}

impl Model for Registers {
    ghost use Rattle.std.specs.Prelude.{◌≤◌, ℕ, List, length};

    ghost Value = { List ℕ };

    ghost view = { λ r. r.cells.items };

    ghost invariant = { λ r. (1 ≤ length r.cells.items) × (length r.cells.items ≤ 64) };
}

impl Registers {
    /// This many registers, all 0, or `None` unless the count is 1 to 64.
    pub fn new(count: u8) -> Option<Registers>
        ensures some { IsSome result ↔ ((1 ≤ count) × (count ≤ 64)) }
        ensures zeros { IfSome result (λ r. r ≡ replicate count 0) }
    {
        if count < 1 || count > 64 {
            return None;
        }
        let mut cells = ArrayVec::new();
        for _i in 0..count {
            cells.push(0);
        }
        Some(Registers { cells })
    }

    /// How many there are, 1 to 64.
    pub fn len(&self) -> u8
        ensures value { result ≡ length self.now }
        ensures low { 1 ≤ result }
        ensures high { result ≤ 64 }
    {
        self.cells.len() as u8
    }

    /// The register with this number, counted from 0, or `None` past the last one.
    pub fn get(&self, k: u64) -> Option<u64>
        ensures { result ≡ slice_get self.now k }
    {
        if k < self.cells.len() as u64 {
            Some(self.cells.as_slice()[k as usize])
        } else {
            None
        }
    }

    /// All of them, in order.
    pub fn as_slice(&self) -> &[u64]
        ensures { result.now ≡ self.now }
    {
        self.cells.as_slice()
    }

    /// Writes the register with this number, counted from 0, and leaves the others as they are.
    pub fn set(&mut self, k: u64, value: u64)
        requires { k < length self.old }
        ensures { self.new ≡ slice_set self.old k value }
    {
        self.cells.as_mut_slice()[k as usize] = value;
    }
}

/// Takes no memory, and so never fails.
impl Clone for Registers {
    ghost is_clone = { λ old new. new ≡ old };

    fn clone(&self) -> Result<Self, AllocError> {
        let mut cells = ArrayVec::new();
        for cell in self.cells.as_slice() {
            cells.push(*cell);
        }
        Ok(Registers { cells })
    }
}
