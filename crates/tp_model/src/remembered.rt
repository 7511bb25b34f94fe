//! What a value was at one moment, for proofs alone. It takes no memory, and making it does nothing when the
//! program runs.
ghost use Rattle.std.specs.Prelude.{◌≡◌};
ghost use Rattle.std.specs.Borrow.{ftrue};

use std::marker::{Model, PhantomData};

/// What a value was at one moment. A clause reads it as `value`.
#[derive(Drop)]
pub struct Remembered<T> {
    of: PhantomData<T>,
    pub ghost value: { T },
}

impl<T> Model for Remembered<T> {
    ghost also_owns = { λ _. ftrue };
}

// It owns nothing.
unsafe impl<T: Send> Send for Remembered<T> {}

impl<T> Remembered<T> {
    /// What the value is now.
    pub fn of(what: &T) -> Remembered<T>
        ensures { result.value ≡ what.now }
    {
        Remembered { of: PhantomData }
    }
}
