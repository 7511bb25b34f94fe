//! A client on one thread and the shop on another: the client sends a receipt of each request through a ring,
//! and the shop's next claim finds the request.
ghost use Rattle.std.specs.Prelude.{◌≡◌, IfOk, IfSome, None};
ghost use Rattle.rtrb.specs.Ring.{received, sent};
ghost use Rattle.tp_model.specs.declared.types.Claimed.TheVariants as claimeds;
ghost use Rattle.tp_manager.specs.Calls.{claims_in};
ghost use Rattle.tp_manager.specs.Receipts.{IsReceiptOf};
ghost use Rattle.tp_manager.specs.Shown.{IsOf};
ghost use Rattle.tp_example.specs.Handover.{AreOf, HasRequested, MaySend, WasTaken};

use rtrb::{Consumer, Producer, Protocol, RingBuffer};
use std::alloc::{AllocError, Global};
use std::thread;
use std::thread::{Threads, join_mut};
use tp_manager::{Manager, Pass, Receipt, waits_till_taken};
use tp_model::types::{Body, Claimed};

/// What goes through the ring: receipts of one manager, which the first one tells. Each behind it was left
/// right after a request of stage 1.
pub struct Requests;

impl Protocol<Receipt> for Requests {
    ghost allows = { MaySend };
}

/// Submits a request to stage 1 and sends a receipt of it. Whether it could.
pub fn request(
    manager: &Manager,
    client: &mut Pass,
    ring: &mut Producer<Receipt, Global, Requests>,
    body: Body,
) -> bool
    requires own { IsOf manager.now client.old }
    requires ring { AreOf manager.now (sent ring.old) }
    ensures own { IsOf manager.now client.new }
{
    if manager.submit(client, 1, body).is_err() {
        return false;
    }
    let receipt = manager.receipt(client);
    ring.push(receipt).is_ok()
}

/// Looks at most a million times for a receipt.
fn next_receipt(ring: &mut Consumer<Receipt, Global, Requests>) -> Option<Receipt>
    ensures allowed { IfSome result (λ receipt. MaySend (received ring.old) receipt) }
{
    for _ in 0..1_000_000u32 {
        if let Ok(receipt) = ring.pop() {
            return Some(receipt);
        }
        thread::yield_now();
    }
    None
}

/// Follows the receipt of a request, and claims. It finds nothing only where a request was claimed or killed
/// since: so never where nobody else claims or kills.
pub fn take(manager: &Manager, shop: &mut Pass, receipt: Receipt) -> Claimed
    requires own { IsOf manager.now shop.old }
    requires free { shop.old.open_unit ≡ None }
    requires at_manager { IsReceiptOf manager.now receipt }
    requires requested { HasRequested 1 receipt.seen }
    ensures own { IsOf manager.now shop.new }
    ensures units { result ≡ claimeds.NoUnit → claims_in shop.old.mine ≡ manager.now.limits.units }
    ensures never_idle { result ≡ claimeds.Idle → WasTaken shop.new.seen }
{
    waits_till_taken();
    manager.follow(shop, receipt);
    manager.claim(shop, 1)
}

/// The shop waits for the client's receipt, and takes. Nothing where no receipt has come.
fn wait_and_take(
    manager: &Manager,
    shop: &mut Pass,
    ring: &mut Consumer<Receipt, Global, Requests>,
) -> Option<Claimed>
    requires own { IsOf manager.now shop.old }
    requires free { shop.old.open_unit ≡ None }
    requires ring { AreOf manager.now (received ring.old) }
    ensures own { IsOf manager.now shop.new }
    ensures never_idle { IfSome result (λ claimed. claimed ≡ claimeds.Idle → WasTaken shop.new.seen) }
{
    let receipt = next_receipt(ring)?;
    Some(take(manager, shop, receipt))
}

/// Both at once, each on a thread.
fn both<R: Threads + Sync>(
    rt: &R,
    manager: &Manager,
    client: &mut Pass,
    shop: &mut Pass,
    to_shop: &mut Producer<Receipt, Global, Requests>,
    from_client: &mut Consumer<Receipt, Global, Requests>,
    body: Body,
) -> (bool, Option<Claimed>)
    requires own { IsOf manager.now client.old × IsOf manager.now shop.old }
    requires free { shop.old.open_unit ≡ None }
    requires rings { AreOf manager.now (sent to_shop.old) × AreOf manager.now (received from_client.old) }
    ensures own { IsOf manager.now client.new × IsOf manager.now shop.new }
    ensures never_idle { IfSome result.1 (λ claimed. claimed ≡ claimeds.Idle → WasTaken shop.new.seen) }
{
    let mut submits = || -> bool
        requires { IsOf manager.now client.now × AreOf manager.now (sent to_shop.now) }
        ensures { IsOf manager.entry.now client.exit.now }
    { request(manager, client, to_shop, body) };
    let mut takes = || -> Option<Claimed>
        requires { IsOf manager.now shop.now × (shop.now.open_unit ≡ None)
            × AreOf manager.now (received from_client.now) }
        ensures { IsOf manager.entry.now shop.exit.now
            × IfSome result (λ claimed. claimed ≡ claimeds.Idle → WasTaken shop.exit.now.seen) }
    { wait_and_take(manager, shop, from_client) };
    join_mut(rt, &mut submits, &mut takes)
}

/// The client submits a request on one thread, and the shop takes one on another, once it has the receipt.
/// Whether the client could, and what the shop's claim answered, if a receipt had come. It is Idle only where
/// a request was claimed or killed meanwhile.
pub fn hand_over<R: Threads + Sync>(
    rt: &R,
    alloc: Global,
    manager: &Manager,
    client: &mut Pass,
    shop: &mut Pass,
    body: Body,
) -> Result<(bool, Option<Claimed>), AllocError>
    requires own { IsOf manager.now client.old × IsOf manager.now shop.old }
    requires free { shop.old.open_unit ≡ None }
    ensures never_idle { IfOk result (λ answers. IfSome answers.1
        (λ claimed. claimed ≡ claimeds.Idle → WasTaken shop.new.seen)) }
{
    let (mut to_shop, mut from_client) = RingBuffer::with_protocol::<Global, Requests>(alloc, 2)?;
    // The first receipt tells both ends of which manager all are.
    let first = manager.receipt(client);
    to_shop.push_reserved(first);
    from_client.slots_beside(&mut to_shop);
    let _first = from_client.pop_known();
    Ok(both(
        rt,
        manager,
        client,
        shop,
        &mut to_shop,
        &mut from_client,
        body,
    ))
}
