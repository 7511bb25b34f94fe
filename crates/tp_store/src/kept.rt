//! Elements as a shelf keeps them: in 72 bytes in the place of 104.
ghost use Rattle.std.specs.Prelude.{◌≡◌};
ghost use Rattle.tp_store.specs.Packing.{if_some, status_of};

use crate::element::{Element, Status};
use std::marker::Model;
use tp_model::types::Body;

/// Which status an element has.
#[derive(Clone, Copy, Debug, PartialEq, Eq)]
pub(crate) enum Kind {
    Waiting,
    Held,
    Consumed,
    Parked,
    Killed,
}

/// An element. Its options and its status have no room of their own for which case they are.
#[derive(Drop)]
pub(crate) struct Kept {
    root: u64,
    maker: u64,
    owner: u64,
    body: Body,
    unit: u64,
    stage: u16,
    rounds: u8,
    earlier: u8,
    attempts: u8,
    kind: Kind,
    is_made: bool,
    is_owned: bool,
}

impl Model for Kept {
    ghost use Rattle.tp_store.specs.declared.element.Element.{Element};
    ghost use Rattle.tp_store.specs.Packing.{if_some, status_of};

    ghost Value = { Element };

    ghost view = { λ k. record {
      root = k.root;
      by = if_some k.is_made k.maker;
      owner = if_some k.is_owned k.owner;
      body = k.body;
      status = status_of k.kind k.unit k.attempts;
      stage = k.stage;
      rounds = k.rounds;
      earlier = k.earlier;
    } };
}

impl Kept {
    /// What is kept of an element.
    #[inline(always)]
    pub(crate) fn of(element: &Element) -> Kept
        ensures { result ≡ element.now }
    {
        let (is_made, maker) = parted(element.by);
        let (is_owned, owner) = parted(element.owner);
        let (kind, unit, attempts) = kind_of(element.status);
        Kept {
            root: element.root,
            maker,
            owner,
            body: element.body,
            unit,
            stage: element.stage,
            rounds: element.rounds,
            earlier: element.earlier,
            attempts,
            kind,
            is_made,
            is_owned,
        }
    }

    /// The element.
    #[inline(always)]
    pub(crate) fn element(&self) -> Element
        ensures { result ≡ self.now }
    {
        Element {
            root: self.root,
            by: joined(self.is_made, self.maker),
            owner: joined(self.is_owned, self.owner),
            body: self.body,
            status: status_of(self.kind, self.unit, self.attempts),
            stage: self.stage,
            rounds: self.rounds,
            earlier: self.earlier,
        }
    }
}

/// Whether there is a number, and which one.
#[inline(always)]
fn parted(number: Option<u64>) -> (bool, u64)
    ensures { if_some result.0 result.1 ≡ number }
{
    match number {
        Some(number) => (true, number),
        None => (false, 0),
    }
}

/// A number, where there is one.
#[inline(always)]
fn joined(is_some: bool, number: u64) -> Option<u64>
    ensures { result ≡ if_some is_some number }
{
    if is_some { Some(number) } else { None }
}

/// The kind of a status, its unit and its attempts.
#[inline(always)]
fn kind_of(status: Status) -> (Kind, u64, u8)
    ensures { status_of result.0 result.1 result.2 ≡ status }
{
    match status {
        Status::Waiting { attempts } => (Kind::Waiting, 0, attempts),
        Status::Held { unit, attempt } => (Kind::Held, unit, attempt),
        Status::Consumed { unit } => (Kind::Consumed, unit, 0),
        Status::Parked { attempts } => (Kind::Parked, 0, attempts),
        Status::Killed => (Kind::Killed, 0, 0),
    }
}

/// The status of a kind, with its unit and attempts.
#[inline(always)]
fn status_of(kind: Kind, unit: u64, attempts: u8) -> Status
    ensures { result ≡ status_of kind unit attempts }
{
    match kind {
        Kind::Waiting => Status::Waiting { attempts },
        Kind::Held => Status::Held {
            unit,
            attempt: attempts,
        },
        Kind::Consumed => Status::Consumed { unit },
        Kind::Parked => Status::Parked { attempts },
        Kind::Killed => Status::Killed,
    }
}
