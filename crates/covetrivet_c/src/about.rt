//! What the library says of itself.
ghost use Rattle.std.specs.Prelude.{◌≡◌};
ghost use Rattle.std.specs.List.{slice_index_or};
ghost use Rattle.covetrivet_c.specs.Shapes.{sizes};

use crate::caller_handle::CallerHandle;
use crate::home_handle::HomeHandle;
use crate::shapes::{
    BornOut, CountsOut, DraftIn, ElementOut, LookOut, MovedOut, PlainLimits, ReleasedOut, RoomOut,
    StatusOut, WorkOut,
};
use std::mem::size_of;

/// The version: 1,000 times the major, plus the minor, then 1,000 times that, plus the patch.
#[unsafe(no_mangle)]
pub extern "C" fn covetrivet_version() -> u32
    ensures { result ≡ 25000 }
{
    25_000
}

/// How many bytes a type that crosses takes, or what the library uses of a handle, by its place in this list,
/// and 0 behind it.
#[unsafe(no_mangle)]
pub extern "C" fn covetrivet_size(which: u32) -> usize
    ensures { result ≡ slice_index_or sizes which 0 }
{
    match which {
        0 => size_of::<PlainLimits>(),
        1 => size_of::<ElementOut>(),
        2 => size_of::<WorkOut>(),
        3 => size_of::<StatusOut>(),
        4 => size_of::<LookOut>(),
        5 => size_of::<DraftIn>(),
        6 => size_of::<BornOut>(),
        7 => size_of::<ReleasedOut>(),
        8 => size_of::<RoomOut>(),
        9 => size_of::<CountsOut>(),
        10 => size_of::<MovedOut>(),
        11 => size_of::<HomeHandle>(),
        12 => size_of::<CallerHandle>(),
        _ => 0,
    }
}
