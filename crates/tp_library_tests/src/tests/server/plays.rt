//! Tests as tables: calls of a server with the answers that they are to give, played one after another.

use crate::tests::server::element;
use std::process::Abort;
use tp_model::types::Body;
use tp_server::{Declined, Server};

/// A call, and after what it is given what it is to answer.
#[derive(Clone, Copy)]
pub(super) enum Call {
    /// The preparation of an element with this key and amount: the body of the one reply.
    Prepares(u64, u64, Result<Body, Declined>),
    /// What is prepared is undone.
    Undoes,
    /// What is prepared is committed.
    Commits,
    /// Whether something is prepared.
    IsPrepared(bool),
    /// A register.
    Balance(u64, Option<u64>),
}

/// Whether a preparation answers this. While another is prepared it isn't asked for.
fn prepares(
    server: &mut (dyn Server + Send),
    key: u64,
    amount: u64,
    answer: Result<Body, Declined>,
) -> bool {
    if server.is_prepared() {
        return false;
    }
    match server.prepare(&element(key, amount)) {
        Ok(drafts) => {
            drafts.len() == 1 && drafts[0].stage() == 15 && answer == Ok(drafts[0].body())
        }
        Err(why) => answer == Err(why),
    }
}

/// Commits what is prepared, if something is.
fn commit(server: &mut (dyn Server + Send)) -> bool {
    let is_prepared = server.is_prepared();
    if is_prepared {
        server.commit();
    }
    is_prepared
}

/// Undoes what is prepared, if something is.
fn undo(server: &mut (dyn Server + Send)) -> bool {
    let is_prepared = server.is_prepared();
    if is_prepared {
        server.undo();
    }
    is_prepared
}

/// Whether the call gives its answer.
fn answers(server: &mut (dyn Server + Send), call: Call) -> bool {
    match call {
        Call::Prepares(key, amount, answer) => prepares(server, key, amount, answer),
        Call::Undoes => undo(server),
        Call::Commits => commit(server),
        Call::IsPrepared(answer) => server.is_prepared() == answer,
        Call::Balance(k, answer) => server.balance(k) == answer,
    }
}

/// Plays calls, and stops at the first that gives another answer.
pub(super) fn play(rt: &impl Abort, server: &mut (dyn Server + Send), calls: &[Call]) {
    for (i, call) in calls.iter().enumerate() {
        assert!(rt; answers(server, *call), "at call {i}");
    }
}
