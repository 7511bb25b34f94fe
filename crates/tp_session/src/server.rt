//! Built-in servers: registers, a recipe, and what is in hand.
ghost use Rattle.std.specs.Prelude.{◌≡◌, ◌<◌, IfOk, Some, length, nat_lt, slice_get, slice_set, true};
ghost use Rattle.tp_session.specs.Drains.{takes_part};
ghost use Rattle.tp_session.specs.Heads.{new_server};

use crate::hand::Hand;
use std::alloc::AllocError;
use std::marker::Model;
use tp_lines::{Name, ServerLine};
use tp_script::Kind;
use tp_server::{Recipe, Registers};

/// A built-in server.
#[derive(Drop)]
pub struct Server {
    pub(crate) name: Name,
    pub(crate) kind: Kind,
    pub(crate) recipe: Recipe,
    pub(crate) registers: Registers,
    pub(crate) hand: Option<Hand>,
    pub(crate) is_prepared: bool,
    pub(crate) is_dropped: bool,
    pub(crate) from: u64,
}

impl Model for Server {
    ghost use Rattle.std.specs.Prelude.{◌≡◌, Ok, length};
    ghost use Rattle.tp_server.specs.Check.{check_of};
    ghost use Rattle.tp_session.specs.State.{ServerView};

    ghost Value = { ServerView };

    ghost view = { λ v. record {
      name = v.name;
      kind = v.kind;
      recipe = v.recipe;
      registers = v.registers;
      hand = v.hand;
      is_prepared = v.is_prepared;
      is_dropped = v.is_dropped;
      from = v.from;
    } };

    ghost invariant = { λ v. (check_of v.recipe ≡ Ok tt) × (length v.registers ≡ v.recipe.registers) };
}

impl Server {
    /// A server with registers of 0.
    pub(crate) fn new(line: ServerLine) -> Server
        ensures { result ≡ new_server line }
    {
        let ServerLine { name, kind, recipe } = line;
        match Registers::new(recipe.registers) {
            Some(registers) => Server {
                name,
                kind,
                recipe,
                registers,
                hand: None,
                is_prepared: false,
                is_dropped: false,
                from: 0,
            },
            None => unreachable!(),
        }
    }

    /// Its name.
    pub(crate) fn name(&self) -> &Name
        ensures { result.now ≡ self.now.name }
    {
        &self.name
    }

    /// What it has in hand.
    pub(crate) fn hand(&self) -> Option<Hand>
        ensures { result ≡ self.now.hand }
    {
        self.hand
    }

    /// The register with this number, if it has it.
    pub(crate) fn register(&self, k: u64) -> Option<u64>
        ensures { result ≡ slice_get self.now.registers k }
    {
        self.registers.get(k)
    }

    /// All registers.
    pub(crate) fn registers(&self) -> &[u64]
        ensures { result.now ≡ self.now.registers }
    {
        self.registers.as_slice()
    }

    /// Whether it has register k.
    pub(crate) fn has_register(&self, k: u64) -> bool
        ensures { result ≡ nat_lt k (length self.now.registers) }
    {
        k < u64::from(self.registers.len())
    }

    /// Register k holds this.
    pub(crate) fn begin(&mut self, k: u64, value: u64)
        requires { k < length self.old.registers }
        ensures { self.new ≡ record self.old { registers = slice_set self.old.registers k value } }
    {
        self.registers.set(k, value);
    }

    /// Its work is prepared.
    pub(crate) fn mark_prepared(&mut self)
        ensures { self.new ≡ record self.old { is_prepared = true } }
    {
        self.is_prepared = true;
    }

    /// It was dropped.
    pub(crate) fn mark_dropped(&mut self)
        ensures { self.new ≡ record self.old { is_dropped = true } }
    {
        self.is_dropped = true;
    }

    /// It has this in hand.
    pub(crate) fn put_in_hand(&mut self, hand: Hand)
        ensures { self.new ≡ record self.old { hand = Some hand } }
    {
        self.hand = Some(hand);
    }

    /// `next` goes on here.
    pub(crate) fn go_from(&mut self, id: u64)
        ensures { self.new ≡ record self.old { from = id } }
    {
        self.from = id;
    }

    /// The line that makes it.
    pub(crate) fn line(&self) -> Result<ServerLine, AllocError>
        ensures { IfOk result (λ line. line ≡ record {
          name = self.now.name;
          kind = self.now.kind;
          recipe = self.now.recipe;
        }) }
    {
        Ok(ServerLine {
            name: self.name.copy(),
            kind: self.kind,
            recipe: self.recipe.clone()?,
        })
    }

    /// Whether its work is prepared.
    pub(crate) fn is_prepared(&self) -> bool
        ensures { result ≡ self.now.is_prepared }
    {
        self.is_prepared
    }

    /// Whether it was dropped.
    pub(crate) fn is_dropped(&self) -> bool
        ensures { result ≡ self.now.is_dropped }
    {
        self.is_dropped
    }

    /// Where `next` goes on.
    pub(crate) fn from(&self) -> u64
        ensures { result ≡ self.now.from }
    {
        self.from
    }

    /// Whether it takes part in a drain.
    pub(crate) fn takes_part(&self) -> bool
        ensures { result ≡ takes_part self.now }
    {
        !self.is_dropped && self.hand.is_none()
    }
}
