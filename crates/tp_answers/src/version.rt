//! Which program this is, and which lines it speaks.
ghost use Rattle.std.specs.Prelude.{◌≡◌};
ghost use Rattle.std.specs.Fmt.{WritesOnOk};
ghost use Rattle.tp_answers.specs.Version.{version_text};

use std::fmt;

/// The program's version, and the number of the protocol of its lines: 1 was without tags and fences.
pub(crate) fn version<W: fmt::Write>(f: &mut fmt::Formatter<W>) -> fmt::Result
    ensures { WritesOnOk W.write_str_gives f.old result version_text f.new }
{
    write!(f, "version 0.25.0 lines 2")
}
