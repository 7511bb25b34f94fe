//! The laws of what a server's effects do to its registers, for contracts of one's own. These functions do
//! nothing: their contracts are the laws. What each effect does is shown once, and then holds of all of them
//! together.

ghost use Rattle.tp_server.specs.Books.{AllLower, AllNeverLower, AllPreserve, AllRaise, AllRaiseByOutputs};
ghost use Rattle.tp_server.specs.Onward.{FoldsGoOn};

/// What each effect adds to a measure of the registers, or takes from it, adds up over the elements that were
/// worked on.
pub fn elements_add_up()
    ensures raise { AllRaise }
    ensures lower { AllLower }
{}

/// What each effect adds to a measure of the registers for the outputs that it makes adds up over all outputs
/// that were made.
pub fn outputs_add_up()
    ensures { AllRaiseByOutputs }
{}

/// A measure of the registers that no effect lowers is lowered by no row of effects.
pub fn measures_rise()
    ensures { AllNeverLower }
{}

/// A test of the registers that each effect preserves is passed after all of them, where it was passed
/// before.
pub fn tests_stay_passed()
    ensures { AllPreserve }
{}

/// A server's registers go on across a rollover. The fold of what was committed in both managers is that of
/// what was committed in the new one, from the registers to which the old one led.
pub fn folds_go_on()
    ensures { FoldsGoOn }
{}
