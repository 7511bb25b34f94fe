//! A law of the computed report. Its function does nothing: the contract is the law.

ghost use Rattle.tp_reference.specs.DrainEnds.{DrainsEnd};

/// The last round of a drain claims nothing: the bound of its rounds suffices.
pub fn drains_end()
    ensures { DrainsEnd }
{}
