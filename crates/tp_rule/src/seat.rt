//! What a thread steps with, and the one door to the shared table.
//!
//! The fields of both types are this module's alone, so that no other code of the crate reaches the table.
//! Each step goes through a method here, which asks for a seat and notes the step in the seat's view.
ghost use Rattle.std.specs.Prelude.{◌≡◌, ◌<◌, [], ◌==◌, IfOk};
ghost use mathlib.Core.Option.{none};
ghost use prog.Atomic.{either};
ghost use Rattle.atomic_table.specs.Table.{opening};
ghost use Rattle.tp_rule.specs.Rule.{Rule};
ghost use Rattle.tp_rule.specs.Views.{first_view, no_seat};
ghost use Rattle.tp_rule.specs.Doors.{Permits, MayCut, MayJoin};

use crate::plays::Effect;
use crate::rule::OneHistory;
use crate::view::View;
use atomic_table::{Badge, Join, Play, Split, Table};
use std::alloc::{AllocError, Global};
use std::marker::{Model, PhantomData};
use std::mem;
use tp_model::types::Limits;

/// What a thread steps with: it stands for one or more passes, or for none, and knows what its view says.
/// When the program runs it has no bytes. One that was joined to another is empty.
#[derive(Drop)]
pub struct Seat {
    badge: Badge<View>,
}

impl Model for Seat {
    ghost use Rattle.tp_rule.specs.Views.{SeatShown};
    ghost use Rattle.tp_rule.specs.Doors.{shown_by, IsSole};

    ghost Value = { SeatShown };

    ghost view = { λ s. shown_by s.badge };

    ghost invariant = { λ s. IsSole s.badge.views };
}

impl Seat {
    /// The seat of this place at a table.
    #[inline(always)]
    fn of(place: atomic_table::Seat<(), View>) -> Seat
        requires bare { place.me.1 ≡ [] }
        ensures { result ≡ record { table = place.table_id; view = place.me.0 } }
    {
        Seat {
            badge: place.into_badge(),
        }
    }

    /// Takes out the place at a table, and leaves an empty seat.
    #[inline(always)]
    fn take(&mut self) -> atomic_table::Seat<(), View>
        requires seated { 0 < self.old.table.words }
        ensures table { result.table_id ≡ self.old.table }
        ensures me { result.me ≡ (self.old.view, []) }
        ensures leaves { self.new ≡ no_seat }
    {
        mem::replace(&mut self.badge, Badge::blank()).into_seat()
    }
}

/// What a step with this effect says to the table, which has slots too: that it leaves those alone.
pub(crate) struct Alone<E> {
    effect: PhantomData<E>,
}

impl<E: Effect> Play<(), View> for Alone<E> {
    ghost then = { λ step me found after. (after.1 ≡ me.1)
        × E.told step.word step.first step.second me.0 found after.0 };
}

/// The table that all passes share, behind this door.
#[derive(Drop)]
pub(crate) struct SharedTable {
    table: Table<(), View, Limits, OneHistory, Global>,
}

impl SharedTable {
    ghost use Rattle.tp_rule.specs.Doors.{id_of, key_of};
    ghost use Rattle.std.specs.Prelude.{length};

    /// A table of these words, under the rule for these limits, and its first seat.
    pub(crate) fn new(
        alloc: Global,
        words: &[u64],
        limits: &Limits,
    ) -> Result<(SharedTable, Seat), AllocError>
        requires opens { Rule limits.now (opening words.now [] (first_view limits.now)) }
        ensures key { IfOk result (λ made. key_of made.0 ≡ limits.now) }
        ensures wide { IfOk result (λ made. (id_of made.0).words ≡ length words.now) }
        ensures seat { IfOk result (λ made. made.1 ≡ record {
          table = id_of made.0;
          view = first_view limits.now;
        }) }
    {
        let (table, place) = Table::of_words(alloc, words, limits)?;
        Ok((SharedTable { table }, Seat::of(place)))
    }

    /// Loads a word, with this effect.
    #[inline(always)]
    pub(crate) fn load<E: Effect>(&self, seat: &mut Seat, word: usize) -> u64
        requires own { seat.old.table ≡ id_of self.now }
        requires inside { word < (id_of self.now).words }
        requires permits { Permits (key_of self.now) seat.old.view word (λ n. n)
            (E.told word 0 0 seat.old.view) }
        ensures same { seat.new.table ≡ seat.old.table }
        ensures told { E.told word 0 0 seat.old.view result seat.new.view }
    {
        let mut place = seat.take();
        let found = self.table.shared.load::<Alone<E>>(&mut place, word);
        *seat = Seat::of(place);
        found
    }

    /// Stores a word, with this effect.
    #[inline(always)]
    pub(crate) fn store<E: Effect>(&self, seat: &mut Seat, word: usize, new: u64)
        requires own { seat.old.table ≡ id_of self.now }
        requires inside { word < (id_of self.now).words }
        requires permits { Permits (key_of self.now) seat.old.view word (λ _. new)
            (λ _ w. E.told word new 0 seat.old.view new w) }
        ensures same { seat.new.table ≡ seat.old.table }
        ensures told { E.told word new 0 seat.old.view new seat.new.view }
    {
        let mut place = seat.take();
        self.table.shared.store::<Alone<E>>(&mut place, word, new);
        *seat = Seat::of(place);
    }

    /// Changes a word from `old` to `new` if it is `old`, with this effect. The answer is the word as it was.
    #[inline(always)]
    pub(crate) fn compare_exchange<E: Effect>(
        &self,
        seat: &mut Seat,
        word: usize,
        old: u64,
        new: u64,
    ) -> u64
        requires own { seat.old.table ≡ id_of self.now }
        requires inside { word < (id_of self.now).words }
        requires permits { Permits (key_of self.now) seat.old.view word (λ n. either (n == old) new n)
            (E.told word old new seat.old.view) }
        ensures same { seat.new.table ≡ seat.old.table }
        ensures told { E.told word old new seat.old.view result seat.new.view }
    {
        let mut place = seat.take();
        let found = self
            .table
            .shared
            .compare_exchange::<Alone<E>>(&mut place, word, old, new);
        *seat = Seat::of(place);
        found
    }

    /// Cuts a seat in two, by a load.
    pub(crate) fn split<C: Split<View>>(&self, seat: &mut Seat) -> Seat
        requires own { seat.old.table ≡ id_of self.now }
        requires room { 0 < (id_of self.now).words }
        requires permits { MayCut (key_of self.now) seat.old.view (C.left seat.old.view)
            (C.right seat.old.view) }
        ensures keeps { seat.new ≡ record { table = seat.old.table; view = C.left seat.old.view } }
        ensures parts { result ≡ record { table = seat.old.table; view = C.right seat.old.view } }
    {
        let mut place = seat.take();
        let other = self.table.shared.split_seat::<C>(&mut place);
        *seat = Seat::of(place);
        Seat::of(other)
    }

    /// Joins two seats, by a load. The second is an empty one afterwards.
    pub(crate) fn join<J: Join<View>>(&self, seat: &mut Seat, other: &mut Seat)
        requires own { (seat.old.table ≡ id_of self.now) × (other.old.table ≡ id_of self.now) }
        requires room { 0 < (id_of self.now).words }
        requires permits { MayJoin (key_of self.now) seat.old.view other.old.view
            (J.both seat.old.view other.old.view) }
        requires spent { J.spent ≡ no_seat.view }
        ensures joins { seat.new ≡ record {
          table = seat.old.table;
          view = J.both seat.old.view other.old.view;
        } }
        ensures leaves { other.new ≡ no_seat }
    {
        let mut place = seat.take();
        let last = other.take();
        self.table.shared.join_seat::<J>(&mut place, last);
        *seat = Seat::of(place);
    }
}
