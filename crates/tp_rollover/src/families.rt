//! Whether families stay families.
ghost use Rattle.std.specs.Prelude.{◌≡◌, ◌<◌, ◌≤◌, ℕ, All, IfOk, None, OnErr, false, length, true};
ghost use Rattle.std.specs.Prelude.{vec_capacity};
ghost use Rattle.tp_rollover.specs.Checks.{AreFamilies, HasOther, HasPut};
ghost use Rattle.tp_rollover.specs.Space.{AreWithin};

use crate::moved::Moved;
use crate::space::refill;
use std::alloc::AllocError;

/// Whether the place is free or has this value, which it has then. The others stay.
fn takes(places: &mut [Option<u32>], at: u32, value: u32) -> bool
    requires inside { at < length places.old }
    ensures long { length places.new ≡ length places.old }
    ensures put { result ≡ true → HasPut at value places.old places.new }
    ensures other { result ≡ false → HasOther at value places.old }
{
    let at = at as usize;
    match places[at] {
        Some(other) => other == value,
        None => {
            places[at] = Some(value);
            true
        }
    }
}

/// Whether two of these are of one family in the new manager exactly where they were in the old one: the new
/// root of each old one, and the old root of each new one, are put into these tables.
fn put_all(moved: &[Moved], new_roots: &mut [Option<u32>], old_roots: &mut [Option<u32>]) -> bool
    requires inside { All (λ m. (m.old_root < length new_roots.old) × (m.new_root < length old_roots.old))
        moved.now }
    requires none { All (λ o. o ≡ None) new_roots.old × All (λ o. o ≡ None) old_roots.old }
    ensures families { result ≡ true → AreFamilies moved.now }
    ensures other { result ≡ false → ¬ AreFamilies moved.now }
{
    for place in 0..moved.len() {
        let one = moved[place];
        if !takes(new_roots, one.old_root, one.new_root) {
            return false;
        }
        if !takes(old_roots, one.new_root, one.old_root) {
            return false;
        }
    }
    true
}

/// The highest root of these in the old manager, and the highest in the new one.
fn highest_roots(moved: &[Moved]) -> (u32, u32)
    ensures highest { All (λ m. (m.old_root ≤ result.0) × (m.new_root ≤ result.1)) moved.now }
    ensures least { (n n' : ℕ) → 1 ≤ n → 1 ≤ n' → AreWithin n n' moved.now
        → (result.0 < n) × (result.1 < n') }
{
    let mut old_root = 0;
    let mut new_root = 0;
    for place in 0..moved.len() {
        old_root = moved[place].old_root.max(old_root);
        new_root = moved[place].new_root.max(new_root);
    }
    (old_root, new_root)
}

/// Whether two of these are of one family in the new manager exactly where they were in the old one. Both
/// tables are filled anew.
pub(crate) fn are_families(
    moved: &[Moved],
    new_roots: &mut Vec<Option<u32>>,
    old_roots: &mut Vec<Option<u32>>,
) -> Result<bool, AllocError>
    ensures memory { OnErr result
        (¬ AreWithin (vec_capacity new_roots.old) (vec_capacity old_roots.old) moved.now) }
    ensures new_space { vec_capacity new_roots.old ≤ vec_capacity new_roots.new }
    ensures old_space { vec_capacity old_roots.old ≤ vec_capacity old_roots.new }
    ensures families { IfOk result (λ yes. yes ≡ true → AreFamilies moved.now) }
    ensures other { IfOk result (λ yes. yes ≡ false → ¬ AreFamilies moved.now) }
{
    if moved.is_empty() {
        return Ok(true);
    }
    let (old_root, new_root) = highest_roots(moved);
    refill(new_roots, None, old_root as usize + 1)?;
    refill(old_roots, None, new_root as usize + 1)?;
    Ok(put_all(moved, new_roots, old_roots))
}
