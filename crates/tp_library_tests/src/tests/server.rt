//! Worked rows at both kinds of server, boxed, and refused recipes.
mod plays;
pub(crate) mod told;

use crate::tests::fixture::{eager, lazy, output, recipe};
use crate::tests::server::plays::Call::{Balance, Commits, IsPrepared, Prepares, Undoes};
use crate::tests::server::plays::play;
use std::process::Abort;
use tp_model::types::Element;
use tp_server::{Act, AmountFrom, BadRecipe, Declined, EagerServer, LazyServer, Registers, Server};

/// An element with this key and amount. The words after them are 70 and 80, as in each draft.
fn element(key: u64, amount: u64) -> Element {
    Element {
        id: 0,
        stage: 1,
        root: 0,
        body: [key, amount, 70, 80],
        by: None,
    }
}

/// Registers `[5]`, Add, output `15:same:after`.
fn prepare_undo_commit(rt: &impl Abort, server: &mut (dyn Server + Send)) {
    let calls = [
        IsPrepared(false),
        Prepares(0, 7, Ok([0, 12, 70, 80])),
        IsPrepared(true),
        Balance(0, Some(5)),
        Undoes,
        IsPrepared(false),
        Balance(0, Some(5)),
        Prepares(0, 7, Ok([0, 12, 70, 80])),
        Commits,
        IsPrepared(false),
        Balance(0, Some(12)),
        Balance(1, None),
    ];
    play(rt, server, &calls);
}

#[test]
fn prepared_undone_and_committed(rt: HostRuntime) {
    let outputs = [output(15, AmountFrom::After)];
    let mut early = eager(&rt, 5, recipe(1, Act::Add, &outputs));
    prepare_undo_commit(&rt, &mut *early);
    let mut late = lazy(&rt, 5, recipe(1, Act::Add, &outputs));
    prepare_undo_commit(&rt, &mut *late);
}

/// Registers `[12]`, Take.
fn declines(rt: &impl Abort, server: &mut (dyn Server + Send)) {
    let calls = [
        Prepares(0, 13, Err(Declined::Short)),
        IsPrepared(false),
        Balance(0, Some(12)),
        Prepares(1, 13, Err(Declined::NoRegister)),
        IsPrepared(false),
        Balance(0, Some(12)),
    ];
    play(rt, server, &calls);
}

#[test]
fn declined(rt: HostRuntime) {
    let mut early = eager(&rt, 12, recipe(1, Act::Take, &[]));
    declines(&rt, &mut *early);
    let mut late = lazy(&rt, 12, recipe(1, Act::Take, &[]));
    declines(&rt, &mut *late);
}

/// One register, which a recipe of two is refused for.
fn one(rt: &impl Abort) -> Registers {
    Registers::new(1).expect(rt, "registers")
}

#[test]
fn recipes_refused(rt: HostRuntime) {
    let mut bad = recipe(15, Act::Add, &[output(0, AmountFrom::Same)]);
    bad.registers = 0;
    assert!(rt; bad.check() == Err(BadRecipe::BadStage));
    bad.stage = 1;
    assert!(rt; bad.check() == Err(BadRecipe::BadRegisters));
    bad.registers = 1;
    assert!(rt; bad.check() == Err(BadRecipe::BadOutput));
    let mut good = recipe(1, Act::Add, &[]);
    assert!(rt; good.check() == Ok(()));
    good.word = 0;
    assert!(rt; good.check() == Err(BadRecipe::BadWord));
    let mut two = recipe(1, Act::Add, &[]);
    two.registers = 2;
    assert!(rt; EagerServer::new(one(&rt), two).err() == Some(BadRecipe::BadRegisters));
    assert!(rt; LazyServer::new(one(&rt), bad).err() == Some(BadRecipe::BadOutput));
}

#[test]
fn printed_names(rt: HostRuntime) {
    for (fault, name) in [
        (BadRecipe::BadStage, "BadStage"),
        (BadRecipe::BadRegisters, "BadRegisters"),
        (BadRecipe::BadOutput, "BadOutput"),
        (BadRecipe::BadWord, "BadWord"),
    ] {
        let text = format!(in rt.alloc(); "{fault}").expect(&rt, "no memory");
        assert!(rt; text.as_str() == name);
    }
}
