//! The numbers of steps as round numbers.
ghost use Rattle.tp_model.specs.declared.types.Limits.{Limits};
ghost use Rattle.tp_manager.specs.Bounds.{RoundBounds};

/// The most steps of each call stay within round numbers over the limits. The function does nothing: its
/// contract is the law.
pub fn round_bounds()
    ensures round { (l : Limits) → RoundBounds l }
{}
