//! A server of one's own, made of what it does with an element.
ghost use Rattle.std.specs.Prelude.{◌≡◌, None};

use crate::handler::{Effect, Handler};
use crate::recipe::Declined;
use crate::server::Server;
use arrayvec::ArrayVec;
use tp_model::types::{Draft, Element};

/// A server with N registers that does what its handler says. It leaves its registers alone as it prepares,
/// and keeps what they become until it commits.
#[derive(Drop)]
pub struct OwnServer<H: Handler<N>, const N: usize> {
    handler: H,
    registers: [u64; N],
    prepared: Option<After<N>>,
}

/// The element whose work is prepared, and the registers that a commit leaves.
#[derive(Clone, Copy, Debug)]
struct After<const N: usize> {
    element: Element,
    registers: [u64; N],
}

impl<H: Handler<N>, const N: usize> OwnServer<H, N> {
    ghost use Rattle.tp_server.specs.Asked.{handled};

    /// A server with this handler and these registers, with nothing prepared.
    pub fn new(handler: H, registers: [u64; N]) -> OwnServer<H, N>
        ensures behaviour { ⟦<OwnServer<H, N> as Server>⟧.behaviour result ≡ H.behaviour handler }
        ensures registers { ⟦<OwnServer<H, N> as Server>⟧.registers result ≡ registers.entry }
        ensures unprepared { ⟦<OwnServer<H, N> as Server>⟧.pending result ≡ None }
        ensures asked { ⟦<OwnServer<H, N> as Server>⟧.asked result ≡ (λ all. H.asked handler (handled all)) }
    {
        OwnServer {
            handler,
            registers,
            prepared: None,
        }
    }
}

impl<H: Handler<N>, const N: usize> Server for OwnServer<H, N> {
    ghost use Rattle.std.specs.Option.{option_map};
    ghost use Rattle.tp_server.specs.Asked.{handled};

    ghost behaviour = { λ s. H.behaviour s.handler };

    ghost registers = { λ s. s.registers };

    ghost pending = { λ s. option_map (λ after. record {
      prepared_for = after.element;
      registers = after.registers;
    }) s.prepared };

    ghost asked = { λ s all. H.asked s.handler (handled all) };

    fn stage(&self) -> u8 {
        self.handler.stage()
    }

    fn count(&self) -> u64 {
        self.registers.len() as u64
    }

    fn balance(&self, k: u64) -> Option<u64> {
        if k < self.registers.len() as u64 {
            Some(self.registers[k as usize])
        } else {
            None
        }
    }

    fn is_prepared(&self) -> bool {
        self.prepared.is_some()
    }

    fn prepare(&mut self, element: &Element) -> Result<ArrayVec<Draft, 4>, Declined> {
        let Effect { registers, drafts } = self.handler.effect(element, &self.registers)?;
        self.prepared = Some(After {
            element: *element,
            registers,
        });
        Ok(drafts)
    }

    fn commit(&mut self) {
        if let Some(after) = self.prepared {
            self.registers = after.registers;
            self.handler.committed(&after.element, &self.registers);
        }
        self.prepared = None;
    }

    fn undo(&mut self) {
        self.prepared = None;
    }
}
