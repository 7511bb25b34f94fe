//! What is asked of passes before a call.
ghost use Rattle.std.specs.Prelude.{◌≡◌, false, true};
ghost use Rattle.tp_rollover.specs.Faults.{AreFree, LacksPass};

use tp_manager::Pass;

/// Whether one of these passes has a unit of work open.
pub fn has_open(passes: &[Pass]) -> bool
    ensures free { result ≡ false → AreFree passes.now }
    ensures busy { result ≡ true → ¬ AreFree passes.now }
{
    for place in 0..passes.len() {
        if passes[place].has_open() {
            return true;
        }
    }
    false
}

/// Whether no pass of one of the managers was given out.
pub(crate) fn lacks_pass(olds: &[Pass], news: &[Pass]) -> bool
    ensures lacks { result ≡ true → LacksPass olds.now news.now }
    ensures has { result ≡ false → ¬ LacksPass olds.now news.now }
{
    if olds.len() == 0 {
        return true;
    }
    news.len() == 0
}
