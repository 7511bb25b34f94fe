//! A small shop on the manager of requests: orders are submitted, a server of the shop's own takes them from
//! its stock, and replies say what was left.
#![tactic(auto)]

ghost use Rattle.std.specs.Prelude.{◌≡◌, None};
ghost use Rattle.tp_manager.specs.Shown.{IsOf};

mod handover;
mod quotes;
mod sales;
mod stock;

use handover::hand_over;
use quotes::{Prices, Quotes};
use sales::sell;
use std::process::ExitCode;
use std::thread::Threads;
use stock::Stock;
use tp_desk::Desk;
use tp_manager::{Keeper, Manager, Pass};
use tp_model::types::{Claimed, Limits};
use tp_server::{OwnServer, Server};
use tp_workers::ProgramFault;

fn main(rt: HostRuntime) -> ExitCode {
    let done = match trade(&rt) {
        Ok(()) => trade_from_afar(&rt),
        Err(trouble) => Err(trouble),
    };
    match done {
        Ok(()) => ExitCode::SUCCESS,
        Err(trouble) => {
            let _ = eprintln!(&rt; "{trouble:?}");
            ExitCode::FAILURE
        }
    }
}

/// One order from another thread, which the shop finds by its receipt.
fn trade_from_afar<R: AllocGlobal + Print + Threads + Sync>(rt: &R) -> Result<(), ProgramFault> {
    let limits = Limits {
        parts: 2,
        rows: 1,
        units: 1,
        attempts: 1,
        spare: 0,
    };
    let (manager, mut keeper) = Keeper::new(rt.alloc(), limits)?;
    let mut client = keeper.pass(&manager)?;
    let mut shop = keeper.pass(&manager)?;
    let order = [0, 1, 75, 3];
    let (sent, answer) = hand_over(rt, rt.alloc(), &manager, &mut client, &mut shop, order)?;
    match answer {
        Some(Claimed::Work(work)) => println!(rt; "order {} from another thread", work.element.id)?,
        Some(_) => println!(rt; "nothing to do")?,
        None => println!(rt; "no receipt, sent: {sent}")?,
    }
    Ok(())
}

/// A day of the shop, with a client's pass and one for the shop's server.
fn trade(rt: &HostRuntime) -> Result<(), ProgramFault> {
    let limits = Limits {
        parts: 2,
        rows: 8,
        units: 8,
        attempts: 3,
        spare: 0,
    };
    let (manager, mut keeper) = Keeper::new(rt.alloc(), limits)?;
    let mut client = keeper.pass(&manager)?;
    let mut shop = keeper.pass(&manager)?;
    orders(rt, &manager, &mut client, &mut shop)
}

/// Three orders, of which the second asks for more than there is.
fn orders(
    rt: &HostRuntime,
    manager: &Manager,
    client: &mut Pass,
    shop: &mut Pass,
) -> Result<(), ProgramFault>
    requires client { IsOf manager.now client.old }
    requires shop { IsOf manager.now shop.old }
    requires free { (client.old.open_unit ≡ None) × (shop.old.open_unit ≡ None) }
{
    // Which goods, how many, for which customer, at which price.
    let first = manager.submit(client, 1, [0, 5, 71, 3])?;
    let second = manager.submit(client, 1, [0, 9, 72, 3])?;
    let third = manager.submit(client, 1, [0, 4, 73, 4])?;
    let question = manager.submit(client, 3, [0, 0, 74, 0])?;
    open_shop(rt, manager, shop, 12)?;
    give_quotes(rt, manager, shop)?;
    tell(rt, manager, client, first)?;
    tell(rt, manager, client, second)?;
    tell(rt, manager, client, third)?;
    tell_price(rt, manager, client, question)?;
    if let Some(id) = manager.next_error(client, 0) {
        println!(rt; "order {id} is parked")?;
    }
    Ok(())
}

/// Sells from a stock of this many goods.
fn open_shop(
    rt: &HostRuntime,
    manager: &Manager,
    pass: &mut Pass,
    goods: u64,
) -> Result<(), ProgramFault>
    requires own { IsOf manager.now pass.old }
    requires free { pass.old.open_unit ≡ None }
    ensures own { IsOf manager.now pass.new }
    ensures free { pass.new.open_unit ≡ None }
{
    let mut stock: Box<dyn Server + Send> = Box::new(
        rt.alloc(),
        OwnServer::new(Stock, [goods, 0]),
    )?;
    let sales = sell(manager, pass, &mut stock, 8);
    println!(rt; "sold {}, short {}", sales.sold, sales.short)?;
    if let Some(left) = stock.balance(0) {
        println!(rt; "{left} of {goods} in stock")?;
    }
    if let Some(takings) = stock.balance(1) {
        println!(rt; "{takings} in the till")?;
    }
    Ok(())
}

/// The prices of the day.
#[derive(Debug, Drop)]
struct PriceList;

impl Prices for PriceList {
    fn price(&self, goods: u64) -> Option<u64> {
        if goods == 0 { Some(3) } else { None }
    }
}

/// Answers one question for a price.
fn give_quotes(rt: &HostRuntime, manager: &Manager, pass: &mut Pass) -> Result<(), ProgramFault>
    requires own { IsOf manager.now pass.old }
    requires free { pass.old.open_unit ≡ None }
    ensures own { IsOf manager.now pass.new }
{
    let mut quotes: Box<dyn Server + Send> = Box::new(
        rt.alloc(),
        OwnServer::new(Quotes { prices: PriceList }, [0]),
    )?;
    let mut desk = Desk::new(manager, pass, &mut quotes);
    let _ = desk.turn();
    desk.end();
    Ok(())
}

/// What became of an order.
fn tell(
    rt: &HostRuntime,
    manager: &Manager,
    client: &mut Pass,
    order: u32,
) -> Result<(), ProgramFault>
    requires own { IsOf manager.now client.old }
    ensures own { IsOf manager.now client.new }
{
    match manager.reply(client, order, 0) {
        Some(id) => {
            let reply = manager.read(client, id)?;
            let [_goods, left, customer, cost] = reply.element.body;
            println!(rt; "order {order} of customer {customer}: {cost} to pay, {left} left")?;
        }
        None => println!(rt; "order {order}: no reply")?,
    }
    Ok(())
}

/// The price that was asked for.
fn tell_price(
    rt: &HostRuntime,
    manager: &Manager,
    client: &mut Pass,
    question: u32,
) -> Result<(), ProgramFault>
    requires own { IsOf manager.now client.old }
    ensures own { IsOf manager.now client.new }
{
    match manager.reply(client, question, 0) {
        Some(id) => {
            let reply = manager.read(client, id)?;
            println!(rt; "question {question}: {} each", reply.element.body[1])?;
        }
        None => println!(rt; "question {question}: no reply")?,
    }
    Ok(())
}
