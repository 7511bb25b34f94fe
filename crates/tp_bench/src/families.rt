//! Requests of several elements, in the largest manager: what it costs to ask for a reply to one, and to
//! cancel it. The lock's twin is `bench/rust/families.rs`.
ghost use Rattle.std.specs.Prelude.{◌≡◌, None, IfSome};
ghost use Rattle.tp_manager.specs.Shown.{IsOf, IsKeptBy};

use crate::calls::{cancels, kept, now, pass, replies, submits};
use crate::large::{LARGE, fill};
use std::alloc::Global;
use std::io;
use tp_manager::{Keeper, Manager, Pass};
use tp_model::types::{Draft, Outcome};

/// The passes that fill a manager with 6,144 other elements.
const OTHERS: u32 = 24;

/// So many requests, each grown to a family of this size. The elements that are left of one wait, and the
/// last may be a reply.
#[derive(Clone, Copy)]
struct Requests {
    count: u32,
    size: u8,
    last: u8,
}

/// A request's family: an element is taken and makes up to four, of which the first is taken next.
fn grow(manager: &Manager, server: &mut Pass, root: u32, requests: Requests)
    requires own { IsOf manager.now server.old }
    requires free { server.old.open_unit ≡ None }
    ensures own { IsOf manager.now server.new }
    ensures free { server.new.open_unit ≡ None }
{
    let (Some(middle), Some(last)) = (
        Draft::new(2, [0, 1, 0, 0]),
        Draft::new(requests.last, [0, 1, 0, 0]),
    ) else {
        return;
    };
    let mut id = root;
    let mut left = requests.size.saturating_sub(1);
    for _past in 0..requests.size {
        let count = left.min(4);
        if count == 0 || manager.claim_id(server, id).is_err() {
            return;
        }
        left = left.saturating_sub(count);
        let first = if left == 0 { last } else { middle };
        let drafts = [first, middle, middle, middle];
        match manager.commit(server, &drafts[..usize::from(count)]) {
            Outcome::Committed { first, .. } => id = first,
            Outcome::Lost | Outcome::Full => return,
        }
    }
}

/// The requests, by the first pass of the manager, and their families by the next one.
fn grow_all(manager: &Manager, keeper: &mut Keeper, client: &mut Pass, requests: Requests)
    requires kept { IsKeptBy manager.now keeper.old }
    requires own { IsOf manager.now client.old }
    requires free { client.old.open_unit ≡ None }
    ensures kept { IsKeptBy manager.now keeper.new }
    ensures own { IsOf manager.now client.new }
    ensures free { client.new.open_unit ≡ None }
{
    submits(manager, client, 1, requests.count);
    if let Some(mut server) = pass(keeper, manager) {
        for root in 0..requests.count {
            grow(manager, &mut server, root, requests);
        }
    }
}

/// A manager with the requests, and the pass of their client, beside others of so many passes.
fn made(alloc: Global, others: u32, requests: Requests) -> Option<(Manager, Pass)>
    ensures own { IfSome result (λ made. IsOf made.0 made.1 × (made.1.open_unit ≡ None)) }
{
    let (manager, mut keeper) = kept(alloc, LARGE)?;
    let mut client = pass(&mut keeper, &manager)?;
    fill(&manager, &mut keeper, others);
    grow_all(&manager, &mut keeper, &mut client, requests);
    Some((manager, client))
}

/// A reply to each request is asked for, four times.
fn ask(rt: &HostRuntime, name: &'static str, others: u32, size: u8) -> io::Result<()> {
    let requests = Requests {
        count: 16,
        size,
        last: 15,
    };
    let Some((manager, mut client)) = made(rt.alloc(), others, requests) else {
        return Ok(());
    };
    let before = now(rt);
    let first = replies(&manager, &mut client, 0, 16);
    let second = replies(&manager, &mut client, 0, 16);
    let third = replies(&manager, &mut client, 0, 16);
    let last = replies(&manager, &mut client, 0, 16);
    let after = now(rt);
    let found = first
        .wrapping_add(second)
        .wrapping_add(third)
        .wrapping_add(last);
    println!(rt; "{name} {size} {} 64 {found}", after.wrapping_sub(before))
}

/// Each request is cancelled, which has no reply.
fn end(rt: &HostRuntime, name: &'static str, others: u32, size: u8, count: u32) -> io::Result<()> {
    let requests = Requests {
        count,
        size,
        last: 2,
    };
    let Some((manager, mut client)) = made(rt.alloc(), others, requests) else {
        return Ok(());
    };
    let before = now(rt);
    let done = cancels(&manager, &mut client, count);
    let after = now(rt);
    println!(rt; "{name} {size} {} {done}", after.wrapping_sub(before))
}

pub fn round(rt: &HostRuntime) -> io::Result<()> {
    for size in [1u8, 2, 3, 6, 10] {
        ask(rt, "reply_family", 0, size)?;
        ask(rt, "reply_family_6144", OTHERS, size)?;
    }
    for (size, count) in [(1u8, 16u32), (6, 16), (100, 2)] {
        end(rt, "cancel_family", 0, size, count)?;
        end(rt, "cancel_family_6144", OTHERS, size, count)?;
    }
    Ok(())
}
