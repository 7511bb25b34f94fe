//! Where a pass is, or belongs, among those that are at home.
ghost use Rattle.std.specs.Prelude.{◌≡◌, ◌≢◌, ◌<◌, ◌≤◌, All, MatchOption, None, length, true};
ghost use Rattle.std.specs.List.{slice_index_or};
ghost use Rattle.tp_manager.specs.Shown.{PassShown};
ghost use Rattle.covetrivet_c.specs.Homes.{HasOpenFrom, place_in, place_with};

use tp_manager::Pass;

/// The place behind the first passes that have no higher number than this.
pub(crate) fn place_of(passes: &[Pass], number: u16) -> usize
    ensures inside { result ≤ length passes.now }
    ensures place { result ≡ place_in passes.now number }
{
    for place in 0..passes.len() {
        if passes[place].number() > number {
            return place;
        }
    }
    passes.len()
}

/// The place of the first pass with this number.
pub(crate) fn place_with(passes: &[Pass], number: u16) -> Option<usize>
    ensures found { MatchOption result
        (All (λ (p : PassShown). p.number ≢ number) passes.now)
        (λ place. (place < length passes.now) × (place ≡ place_with passes.now number)
        × ((d : PassShown) → (slice_index_or passes.now place d).number ≡ number)) }
{
    for place in 0..passes.len() {
        if passes[place].number() == number {
            return Some(place);
        }
    }
    None
}

/// Whether it has this number or a higher one, and a unit of work open.
fn is_open_from(pass: &Pass, number: u16) -> bool
    ensures { result ≡ true → (number ≤ pass.now.number) × (pass.now.open_unit ≢ None) }
{
    if pass.number() < number {
        return false;
    }
    pass.has_open()
}

/// Whether one of these passes has this number or a higher one, and a unit of work open.
pub(crate) fn has_open_from(passes: &[Pass], number: u16) -> bool
    ensures { result ≡ true → HasOpenFrom number passes.now }
{
    for place in 0..passes.len() {
        if is_open_from(&passes[place], number) {
            return true;
        }
    }
    false
}
