//! Boxed servers side by side.
ghost use Rattle.std.specs.Prelude.{◌≡◌, [], ◌∷◌, All, None};

use crate::server::Server;

/// Three servers with nothing prepared, as a crew, a shift or a drain asks for them. Of boxes that were just
/// made this is known one at a time, and of an array of them only by a clause such as this.
pub fn three(
    first: Box<dyn Server + Send>,
    second: Box<dyn Server + Send>,
    third: Box<dyn Server + Send>,
) -> [Box<dyn Server + Send>; 3]
    requires { (pending first ≡ None) × (pending second ≡ None) × (pending third ≡ None) }
    ensures boxes { result ≡ first ∷ second ∷ third ∷ [] }
    ensures unprepared { All (λ server. pending server ≡ None) result }
{
    [first, second, third]
}
