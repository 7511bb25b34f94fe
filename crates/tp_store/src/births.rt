//! Births: drafts become elements, all of them or none.
ghost use Rattle.std.specs.Prelude.{◌≡◌, ◌≤◌, ◌<◌, ◌+◌, ◌^◌, ℕ, None, OnOk, OnErr, length};
ghost use Rattle.tp_store.specs.Elements.{element_at};
ghost use Rattle.tp_store.specs.State.{made, put_all};

use crate::draft::Draft;
use crate::element::{Element, Status};
use crate::shelf::Shelf;
use std::alloc::AllocError;

/// What elements come from.
#[derive(Clone, Copy, Debug, PartialEq, Eq)]
pub(crate) struct Origin {
    /// The client's element that they go back to.
    pub(crate) root: u64,
    /// The unit of work that makes them, or `None` where a client submits them.
    pub(crate) by: Option<u64>,
    /// Whose request they are of, where somebody's.
    pub(crate) owner: Option<u64>,
}

impl Origin {
    /// The element that a draft becomes.
    fn made(&self, draft: &Draft) -> Element
        ensures { result ≡ made self.now draft.now }
    {
        Element {
            root: self.root,
            by: self.by,
            owner: self.owner,
            body: draft.body(),
            status: Status::Waiting { attempts: 0 },
            stage: draft.stage(),
            rounds: 0,
            earlier: 0,
        }
    }
}

/// Puts these on the shelf at the ids from this one on. Where memory is wanted, none is put there.
pub(crate) fn bear(
    shelf: &mut Shelf,
    id: u64,
    from: &Origin,
    drafts: &[Draft],
) -> Result<(), AllocError>
    requires unborn { (i : ℕ) → id ≤ i → element_at i shelf.old ≡ None }
    requires fits { id + length drafts.now < 2 ^ 64 }
    ensures ok { OnOk result (shelf.new ≡ put_all id from.now drafts.now shelf.old) }
    ensures err { OnErr result (shelf.new ≡ shelf.old) }
    ensures before { (i : ℕ) → i < id → element_at i shelf.new ≡ element_at i shelf.old }
    ensures behind { (i : ℕ) → id + length drafts.now ≤ i → element_at i shelf.new ≡ None }
{
    let Some((draft, others)) = drafts.split_first() else {
        return Ok(());
    };
    shelf.insert(id, from.made(draft))?;
    match bear(shelf, id + 1, from, others) {
        Ok(()) => Ok(()),
        Err(refused) => {
            shelf.remove(id);
            Err(refused)
        }
    }
}
