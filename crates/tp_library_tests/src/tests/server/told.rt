//! A handler that counts: its registers become how often it was asked for an effect before, and how often it
//! was told of a commit.
ghost use Rattle.std.specs.Prelude.{◌≡◌, [], ◌∷◌, Ok, None, slice_index};

use tp_model::types::Element;
use tp_server::{Declined, Effect, Handler, OwnServer, Server};

#[derive(Drop)]
pub(crate) struct Counting {
    asked: u64,
    told: u64,
}

/// A server that has counted nothing.
pub(crate) fn from_zero() -> OwnServer<Counting, 2>
    ensures { ⟦<OwnServer<Counting, 2> as Server>⟧.pending result ≡ None }
{
    OwnServer::new(Counting { asked: 0, told: 0 }, [0, 0])
}

impl Handler<2> for Counting {
    ghost behaviour = { λ s. record {
      stage = 1;
      effect = λ registers element heard.
          Ok (record { registers = slice_index heard 0 ∷ slice_index heard 1 ∷ []; drafts = [] });
    } };

    fn stage(&self) -> u8 {
        1
    }

    fn effect(&mut self, _element: &Element, _registers: &[u64; 2]) -> Result<Effect<2>, Declined> {
        let effect = Effect::new([self.asked, self.told]);
        self.asked = self.asked.wrapping_add(1);
        Ok(effect)
    }

    fn committed(&mut self, _element: &Element, _registers: &[u64; 2]) {
        self.told = self.told.wrapping_add(1);
    }
}
