//! Payments that go through three stages: each is validated, charged and shipped. However many there are, a
//! crew works them off, in one manager after another.
//!
//! The arguments, each of which may be left out: how many payments there are, how many turns each desk takes
//! on a thread of its own before what is left of a batch is drained on one (as many as a batch has payments,
//! if not said), and how many steps each turn's work takes. With any argument a line more tells of the
//! managers.
#![tactic(auto)]

mod audit;
mod bank;
mod books;
mod faults;
mod servers;
mod service;

use bank::Terminal;
use books::Books;
use faults::PipelineFault;
use servers::{Charger, Shipper, Validator};
use service::{BATCH, Boxed, Task, serve};
use std::alloc::{AllocError, Global};
use std::env;
use std::thread::Threads;
use std::time::Clock;
use tp_server::{OwnServer, three};

/// The highest amount that the validator lets through.
const CEILING: u64 = 98;

/// How many words a large piece of memory has: a megabyte, twelve times as much as a manager of the crew
/// takes.
const LARGE_PIECE: usize = 1 << 17;

fn main(rt: HostRuntime) -> Result<(), PipelineFault> {
    let mut numbers = [3000, u64::from(BATCH), 0];
    let mut given = 0;
    for word in env::args(&rt)? {
        if let Ok(number) = word.parse::<u64>() {
            if given < 3 {
                numbers[given] = number;
                given += 1;
            }
        }
    }
    let [payments, turns, steps] = numbers;
    let task = Task {
        payments,
        ceiling: CEILING,
        turns: turns.min(60_000) as u16,
    };
    run(&rt, task, steps.min(1_000_000) as u32, given > 0)
}

/// Takes a large piece of memory and gives it back at once. After that the allocator of the system (glibc's)
/// keeps what a manager leaves for the next one. Before, it gives it back, and each manager's pages are asked
/// for and zeroed anew.
fn keep_memory(alloc: Global) -> Result<(), AllocError> {
    let piece: Vec<u64> = Vec::with_capacity(alloc, LARGE_PIECE)?;
    drop(piece);
    Ok(())
}

/// Hires the servers, which work all payments off, and tells of the books, and of the managers if asked.
fn run<R: AllocGlobal + Clock + Print + Threads + Sync>(
    rt: &R,
    task: Task,
    steps: u32,
    managers_too: bool,
) -> Result<(), PipelineFault> {
    keep_memory(rt.alloc())?;
    let validator = Validator {
        ceiling: task.ceiling,
        steps,
    };
    let charger = Charger {
        bank: Terminal { calls: 0 },
        steps,
    };
    let first: Boxed = Box::new(rt.alloc(), OwnServer::new(validator, [0]))?;
    let second: Boxed = Box::new(rt.alloc(), OwnServer::new(charger, [0, 0]))?;
    let third: Boxed = Box::new(rt.alloc(), OwnServer::new(Shipper { steps }, [0]))?;
    let fourth: Boxed = Box::new(rt.alloc(), OwnServer::new(Shipper { steps }, [0]))?;
    let mut boxes = Vec::from_array(rt.alloc(), three(first, second, third))?;
    boxes.push(fourth)?;
    let served = serve(rt, boxes, task)?;
    tell(rt, &served.books)?;
    if managers_too {
        tell_of_managers(rt, &served.books)?;
    }
    Ok(())
}

/// What became of the payments.
fn tell<R: Print>(rt: &R, books: &Books) -> Result<(), PipelineFault> {
    println!(rt;
        "payments {}: {} shipped, {} cancelled",
        books.submitted, books.collected, books.cancelled
    )?;
    println!(rt; "takings {} of {} charges", books.paid, books.collected)?;
    Ok(())
}

/// What the managers were used for.
fn tell_of_managers<R: Print>(rt: &R, books: &Books) -> Result<(), PipelineFault> {
    println!(rt;
        "managers {} carried {} requeued {} rolling {}",
        books.managers, books.carried, books.requeued, books.rolling
    )?;
    Ok(())
}
