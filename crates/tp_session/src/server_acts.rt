//! What a built-in server does. Its registers change by commits alone.
ghost use Rattle.std.specs.Prelude.{◌≡◌, ◌<◌, ◌≤◌, Ok, Err, length, IfErr, IfOk, OnOk, slice_set};
ghost use Rattle.tp_answers.specs.declared.told.Told.TheVariants as told;
ghost use Rattle.tp_server.specs.Effect.{key_in};
ghost use Rattle.tp_server.specs.declared.order.Order.TheVariants.{LeastFirst};
ghost use Rattle.tp_store.specs.Calls.{Does};
ghost use Rattle.tp_store.specs.Elements.{element_at};
ghost use Rattle.tp_session.specs.Acted.{Serves};
ghost use Rattle.tp_session.specs.Servers.{abort_by, claim_by, claim_in_order, cleared, commit_by, declined, drop_by};
ghost use Rattle.tp_session.specs.Servers.{effect_on, for_recipe, goes_on, holding, if_free, if_held, is_other_stage};
ghost use Rattle.tp_session.specs.Servers.{prepare_by, server_does, settle_with, take_by, turn_by};

use crate::hand::Hand;
use crate::server::Server;
use arrayvec::ArrayVec;
use std::alloc::AllocError;
use tp_answers::Told;
use tp_lines::Act;
use tp_model::types::{Body, Draft as ModelDraft, Element as ModelElement};
use tp_server::{Declined, Order, Prepared};
use tp_store::answers::{Ended, Outcome, Refusal, Work};
use tp_store::draft::Draft;
use tp_store::element::Element;
use tp_store::store::Store;

/// What recipes know of elements: they look at the body alone.
fn for_recipe(body: Body) -> ModelElement
    ensures { result ≡ for_recipe body }
{
    ModelElement {
        stage: 1,
        by: None,
        id: 0,
        root: 0,
        body,
    }
}

/// The outputs of a recipe, for the store.
fn outputs(drafts: &[ModelDraft]) -> ArrayVec<Draft, 4>
    requires { length drafts.now ≤ 4 }
    ensures { result.items ≡ drafts.now }
{
    let mut outputs = ArrayVec::new();
    for draft in drafts {
        match Draft::new(u16::from(draft.stage()), draft.body()) {
            Some(output) => outputs.push(output),
            None => unreachable!(),
        }
    }
    outputs
}

impl Server {
    /// Has it do this, and answers what it is told. Fails where memory or numbers run out.
    pub(crate) fn act(&mut self, store: &mut Store, act: &Act) -> Result<Told, AllocError>
        ensures { Serves result self.new store.new (server_does act.now self.old store.old) }
    {
        if self.is_dropped {
            return Ok(Told::Ended);
        }
        match act {
            Act::Claim => self.claim(store, Order::LeastFirst),
            Act::Next => self.claim(store, Order::InTurn),
            Act::Take { id } => self.take(store, *id),
            Act::Turn => self.turn_if_free(store),
            Act::Prepare => self.prepare(store),
            Act::Commit { .. } => self.commit(store),
            Act::Abort => self.abort(store),
            Act::Drop => self.drop_desk(store),
        }
    }

    /// Goes on behind this element, where it takes them in turn: whether there is a number behind it.
    fn go_on(&mut self, order: Order, id: u64) -> Result<(), AllocError>
        ensures { OnOk result (self.new ≡ goes_on order id self.old) }
    {
        match order {
            Order::LeastFirst => Ok(()),
            Order::InTurn => match id.checked_add(1) {
                Some(from) => {
                    self.from = from;
                    Ok(())
                }
                None => Err(AllocError),
            },
        }
    }

    /// It has this in hand.
    fn hold(&mut self, work: &Work)
        ensures { self.new ≡ holding work.now self.old }
    {
        self.hand = Some(Hand::of(work));
        self.is_prepared = false;
    }

    /// It has nothing in hand.
    fn clear(&mut self)
        ensures { self.new ≡ cleared self.old }
    {
        self.hand = None;
        self.is_prepared = false;
    }

    /// Claims in this order.
    fn claim_in(&mut self, store: &mut Store, order: Order) -> Result<Option<Work>, Refusal>
        ensures same { self.new ≡ self.old }
        ensures answer { Does result store.new (claim_in_order order self.old store.old) store.old }
    {
        match order {
            Order::LeastFirst => store.claim(u16::from(self.recipe.stage)),
            Order::InTurn => store.claim_from(u16::from(self.recipe.stage), self.from),
        }
    }

    /// `claim`, `next`
    fn claim(&mut self, store: &mut Store, order: Order) -> Result<Told, AllocError>
        ensures { Serves result self.new store.new (if_free (claim_by order) self.old store.old) }
    {
        if self.hand.is_some() {
            return Ok(Told::Busy);
        }
        match self.claim_in(store, order) {
            Ok(Some(work)) => {
                match self.go_on(order, work.id) {
                    Ok(()) => {}
                    Err(_) => return Err(AllocError),
                }
                self.hold(&work);
                Ok(Told::Work {
                    id: work.id,
                    unit: work.unit,
                    attempt: work.attempt,
                })
            }
            Ok(None) => Ok(Told::Idle),
            Err(Refusal::NoMemory) => Err(AllocError),
            Err(Refusal::NoNumber) => Err(AllocError),
            Err(_) => Ok(Told::Idle),
        }
    }

    /// Whether the element with this id is of another stage.
    fn is_of_other_stage(&self, store: &Store, id: u64) -> bool
        ensures { result ≡ is_other_stage self.now.recipe.stage (element_at id store.now.elements) }
    {
        match store.get(id) {
            None => false,
            Some(element) => element.stage != u16::from(self.recipe.stage),
        }
    }

    /// `take`
    fn take(&mut self, store: &mut Store, id: u64) -> Result<Told, AllocError>
        ensures { Serves result self.new store.new (if_free (take_by id) self.old store.old) }
    {
        if self.hand.is_some() {
            return Ok(Told::Busy);
        }
        if self.is_of_other_stage(store, id) {
            let why = Refusal::BadStage;
            return Ok(Told::NotTaken { id, why });
        }
        match store.take(id) {
            Ok(work) => {
                self.hold(&work);
                Ok(Told::Work {
                    id,
                    unit: work.unit,
                    attempt: work.attempt,
                })
            }
            Err(Refusal::NoMemory) => Err(AllocError),
            Err(Refusal::NoNumber) => Err(AllocError),
            Err(why) => Ok(Told::NotTaken { id, why }),
        }
    }

    /// What the recipe makes of an element.
    fn effect(&self, element: &Element) -> Result<Prepared, Declined>
        ensures ok { IfOk result (λ p. effect_on self.now element.now ≡ Ok (record {
          registers = slice_set self.now.registers (key_in element.now.body) p.after;
          drafts = p.drafts.items;
        })) }
        ensures err { IfErr result (λ why. effect_on self.now element.now ≡ Err why) }
        ensures in_range { IfOk result (λ _. key_in element.now.body < length self.now.registers) }
    {
        self.recipe
            .effect(&self.registers, &for_recipe(element.body))
    }

    /// The unit of what was in hand holds it no more.
    fn lose(&mut self, hand: Hand) -> Told
        ensures told { result ≡ told.Lost hand.id }
        ensures cleared { self.new ≡ cleared self.old }
    {
        self.clear();
        Told::Lost { id: hand.id }
    }

    /// Gives up what the recipe declines.
    fn decline(&mut self, store: &mut Store, hand: Hand, why: Declined) -> Result<Told, AllocError>
        ensures { Serves result self.new store.new (declined hand why self.old store.old) }
    {
        match store.abort(hand.id, hand.unit) {
            Ok(_) => {}
            Err(_) => return Err(AllocError),
        }
        self.clear();
        Ok(Told::Declined { id: hand.id, why })
    }

    /// Commits what the recipe makes of an element, or gives it up where it declines.
    fn settle(
        &mut self,
        store: &mut Store,
        hand: Hand,
        element: &Element,
    ) -> Result<Told, AllocError>
        ensures { Serves result self.new store.new
            (settle_with hand (effect_on self.old element.now) self.old store.old) }
    {
        let Prepared { after, drafts } = match self.effect(element) {
            Ok(prepared) => prepared,
            Err(why) => return self.decline(store, hand, why),
        };
        let Hand { id, unit, .. } = hand;
        let outputs = outputs(drafts.as_slice());
        match store.commit(id, unit, outputs.as_slice()) {
            Ok(Outcome::Committed { first, count }) => {
                self.registers.set(element.body[0], after);
                self.clear();
                Ok(Told::Done {
                    id,
                    unit,
                    first,
                    count,
                })
            }
            Ok(Outcome::Lost) => Ok(self.lose(hand)),
            Err(_) => Err(AllocError),
        }
    }

    /// A turn: a claim and, where it takes work, a commit of what is done with it.
    pub(crate) fn turn(&mut self, store: &mut Store, order: Order) -> Result<Told, AllocError>
        ensures { Serves result self.new store.new (turn_by order self.old store.old) }
    {
        match self.claim_in(store, order) {
            Ok(Some(work)) => {
                match self.go_on(order, work.id) {
                    Ok(()) => {}
                    Err(_) => return Err(AllocError),
                }
                self.clear();
                self.settle(store, Hand::of(&work), &work.element)
            }
            Ok(None) => Ok(Told::Idle),
            Err(Refusal::NoMemory) => Err(AllocError),
            Err(Refusal::NoNumber) => Err(AllocError),
            Err(_) => Ok(Told::Idle),
        }
    }

    /// `turn`
    fn turn_if_free(&mut self, store: &mut Store) -> Result<Told, AllocError>
        ensures { Serves result self.new store.new (if_free (turn_by LeastFirst) self.old store.old) }
    {
        if self.hand.is_some() {
            return Ok(Told::Busy);
        }
        self.turn(store, Order::LeastFirst)
    }

    /// `prepare`
    fn prepare(&mut self, store: &mut Store) -> Result<Told, AllocError>
        ensures { Serves result self.new store.new (if_held prepare_by self.old.hand self.old store.old) }
    {
        let Some(hand) = self.hand else {
            return Ok(Told::NoneOpen);
        };
        if self.is_prepared {
            return Ok(Told::Busy);
        }
        let Some(element) = hand.held(store) else {
            return Ok(self.lose(hand));
        };
        match self.effect(&element) {
            Ok(_) => {
                self.is_prepared = true;
                Ok(Told::Ready)
            }
            Err(why) => self.decline(store, hand, why),
        }
    }

    /// `commit`
    fn commit(&mut self, store: &mut Store) -> Result<Told, AllocError>
        ensures { Serves result self.new store.new (if_held commit_by self.old.hand self.old store.old) }
    {
        let Some(hand) = self.hand else {
            return Ok(Told::NoneOpen);
        };
        let Some(element) = hand.held(store) else {
            return Ok(self.lose(hand));
        };
        self.settle(store, hand, &element)
    }

    /// `abort`
    fn abort(&mut self, store: &mut Store) -> Result<Told, AllocError>
        ensures { Serves result self.new store.new (if_held abort_by self.old.hand self.old store.old) }
    {
        let Some(hand) = self.hand else {
            return Ok(Told::NoneOpen);
        };
        let Hand { id, unit, .. } = hand;
        match store.abort(id, unit) {
            Ok(Ended::Aborted) => {
                self.clear();
                Ok(Told::Aborted { id })
            }
            Ok(Ended::AlreadyAborted) => {
                self.clear();
                Ok(Told::Already { id })
            }
            Err(_) => Err(AllocError),
        }
    }

    /// `drop`
    fn drop_desk(&mut self, store: &mut Store) -> Result<Told, AllocError>
        ensures { Serves result self.new store.new (drop_by self.old store.old) }
    {
        if let Some(hand) = self.hand {
            match store.abort(hand.id, hand.unit) {
                Ok(_) => {}
                Err(_) => return Err(AllocError),
            }
        }
        self.clear();
        self.is_dropped = true;
        Ok(Told::Dropped)
    }
}
