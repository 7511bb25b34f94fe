//! All indexes of a store: an element goes from its groups to others in one step, or not at all.
ghost use Rattle.std.specs.Prelude.{◌≡◌, [], OnOk, OnErr, true};
ghost use Rattle.tp_store.specs.Indexing.{gains_any, HaveBegun, HaveEntered, HaveLeft, HaveSame, StandsIn};

use crate::element::Groups;
use crate::index::Index;
use crate::queues::Queues;
use std::alloc::{AllocError, Global};

/// An index for each question that is asked.
#[derive(Drop)]
pub(crate) struct Indexes {
    /// What waits, by its stage; in queue 0 what is parked.
    pub(crate) queues: Queues,
    /// Replies that wait, by the request.
    pub(crate) replies: Index,
    /// Replies that wait, by whose request it is.
    pub(crate) owned: Index,
    /// All elements, by the request.
    pub(crate) families: Index,
    /// Those on which work may go on, by the request.
    pub(crate) alive: Index,
}

impl Indexes {
    /// Indexes of nothing.
    pub(crate) fn new(alloc: Global) -> Indexes
        ensures queues { result.queues ≡ [] }
        ensures replies { result.replies ≡ [] }
        ensures owned { result.owned ≡ [] }
        ensures families { result.families ≡ [] }
        ensures alive { result.alive ≡ [] }
    {
        Indexes {
            queues: Queues::new(alloc),
            replies: Index::new(alloc),
            owned: Index::new(alloc),
            families: Index::new(alloc),
            alive: Index::new(alloc),
        }
    }

    /// The id stands in these groups too, from now on; where memory is wanted, in those that it was in.
    #[inline(always)]
    pub(crate) fn enter(&mut self, id: u64, from: &Groups, to: &Groups) -> Result<(), AllocError>
        requires known { StandsIn id from.now self.old }
        ensures ok { OnOk result (HaveEntered id to.now self.old self.new) }
        ensures err { OnErr result (HaveSame self.old self.new) }
        ensures absent { OnErr result (gains_any from.now to.now ≡ true) }
    {
        match self.enter_each(id, from, to) {
            Ok(()) => Ok(()),
            Err(refused) => {
                self.leave(id, to, from);
                Err(refused)
            }
        }
    }

    #[inline(always)]
    fn enter_each(&mut self, id: u64, from: &Groups, to: &Groups) -> Result<(), AllocError>
        requires known { StandsIn id from.now self.old }
        ensures ok { OnOk result (HaveEntered id to.now self.old self.new) }
        ensures err { OnErr result (HaveBegun id to.now self.old self.new) }
        ensures absent { OnErr result (gains_any from.now to.now ≡ true) }
    {
        self.queues.enter(id, from.queue, to.queue)?;
        self.replies.enter(id, from.reply, to.reply)?;
        self.owned.enter(id, from.owned, to.owned)?;
        self.families.enter(id, from.family, to.family)?;
        self.alive.enter(id, from.alive, to.alive)
    }

    /// The id leaves the groups that it was in, but for those that it goes over into.
    #[inline(always)]
    pub(crate) fn leave(&mut self, id: u64, from: &Groups, to: &Groups)
        ensures { HaveLeft id from.now to.now self.old self.new }
    {
        self.queues.leave(id, from.queue, to.queue);
        self.replies.leave(id, from.reply, to.reply);
        self.owned.leave(id, from.owned, to.owned);
        self.families.leave(id, from.family, to.family);
        self.alive.leave(id, from.alive, to.alive);
    }
}
