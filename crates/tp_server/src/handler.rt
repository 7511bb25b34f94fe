//! What a server of one's own does with an element, as one function.
ghost use Rattle.tp_model.specs.declared.types.TheConstants.{MAX_OUTPUTS, REPLY_STAGE};
ghost use Rattle.std.specs.Prelude.{◌≡◌, ◌≤◌, ◌<◌, Bool, true, List, [], ◌∷◌, ◌++◌, length};

use crate::recipe::Declined;
use arrayvec::ArrayVec;
use std::marker::Model;
use tp_model::types::{Body, Draft, Element};

/// What work on an element comes to: all registers as it leaves them, and its outputs in order.
#[derive(Debug, Drop)]
pub struct Effect<const N: usize> {
    pub(crate) registers: [u64; N],
    pub(crate) drafts: ArrayVec<Draft, 4>,
}

impl<const N: usize> Model for Effect<N> {
    ghost use Rattle.tp_server.specs.Effect.{Effect};

    ghost Value = { Effect };

    ghost view = { λ e. record { registers = e.registers; drafts = e.drafts.items } };
}

impl<const N: usize> Effect<N> {
    /// An effect that leaves these registers, and has no output.
    pub fn new(registers: [u64; N]) -> Effect<N>
        ensures { result ≡ record { registers = registers.entry; drafts = [] } }
    {
        Effect {
            registers,
            drafts: ArrayVec::new(),
        }
    }

    /// The same with one more output. The stage is 1 to 15, and there are 4 outputs at most.
    pub fn output(mut self, stage: u8, body: Body) -> Effect<N>
        requires low { 1 ≤ stage }
        requires high { stage ≤ REPLY_STAGE }
        requires room { length self.drafts < MAX_OUTPUTS }
        ensures { result ≡ record {
          registers = self.entry.registers;
          drafts = self.entry.drafts
              ++ record { stage = stage; body = body } ∷ [];
        } }
    {
        match Draft::new(stage, body) {
            Some(draft) => self.drafts.push(draft),
            None => unreachable!(),
        }
        self
    }
}

/// What a server of one's own does: one function, from an element and the registers of committed work to
/// new registers and outputs, or to a reason to decline the element. `OwnServer` makes a `Server` of it.
pub trait Handler<const N: usize>: Drop {
    ghost use Rattle.tp_server.specs.Asked.{Asked, Asks, Commit, Prepare};
    ghost use Rattle.tp_server.specs.Behaviour.{Allows, Behaviour};

    /// What it does with an element.
    ghost behaviour: { Self → Behaviour };

    /// What it may have been asked and told so far, the last call first, as `asked` of `Server`. Leave it
    /// out.
    ghost asked: { Self → List Asked → Bool } = { λ _ _. true };

    /// The stage whose elements it takes, 1 to 14.
    fn stage(&self) -> u8
        ensures value { result ≡ (behaviour self.now).stage }
        ensures low { 1 ≤ result }
        ensures high { result ≤ 14 };

    /// What the element comes to, where these are the registers. It is asked once for each preparation. It
    /// may ask the outside, and must do nothing there that can't be undone: the work can still be called off,
    /// and no call reports that.
    fn effect(&mut self, element: &Element, registers: &[u64; N]) -> Result<Effect<N>, Declined>
        ensures behaviour { behaviour self.new ≡ behaviour self.old }
        ensures allowed { Allows (behaviour self.old) registers.now element.now result }
        ensures asked { Asks (Prepare element.now registers.now ∷ []) (asked self.old) (asked self.new) };

    /// Told of each element whose work was committed, once, with the registers that this left. Leave its body
    /// empty where nothing is to happen then.
    fn committed(&mut self, element: &Element, registers: &[u64; N])
        ensures behaviour { behaviour self.new ≡ behaviour self.old }
        ensures asked { Asks (Commit (record { prepared_for = element.now; registers = registers.now }) ∷ [])
            (asked self.old) (asked self.new) };
}
