//! The lines that make servers.
ghost use Rattle.std.specs.Prelude.{◌≡◌, ◌≤◌, ◌&&◌, map, length, IfOk, OnOk, Ok, nat_le, is_ok};
ghost use Rattle.std.specs.List.{list_all};
ghost use Rattle.tp_model.specs.declared.types.TheConstants.{MAX_OUTPUTS};
ghost use Rattle.tp_server.specs.Check.{check_of};
ghost use Rattle.tp_script.specs.declared.fault.LineFault.TheVariants.{BadRecipe};
ghost use Rattle.tp_script.specs.LineWords.{act_and_place, act_named, act_words, amount_at, has_two_colons};
ghost use Rattle.tp_script.specs.LineWords.{key_at, kind_at, output_at, outputs_at, place_at, require};
ghost use Rattle.tp_script.specs.Reading.{Gives};
ghost use Rattle.tp_script.specs.ServerLines.{recipe_at, shape_at};
ghost use Rattle.tp_lines.specs.Reading.{shape_view};
ghost use Rattle.tp_lines.specs.Servers.{server_said};

use crate::bodies::colons;
use crate::line::ServerLine;
use crate::text::parts;
use crate::words::{byte_at, is, long_at, name_at, three};
use arrayvec::ArrayVec;
use std::alloc::Global;
use tp_model::types::MAX_OUTPUTS;
use tp_script::{Kind, LineError, LineFault};
use tp_server::{Act, AmountFrom, KeyFrom, Output, Recipe};

/// The words of a server line, each in its place.
#[derive(Clone, Copy)]
pub(crate) struct Shape<'a> {
    name: &'a [u8],
    kind: Kind,
    stage: &'a [u8],
    registers: &'a [u8],
    act: Act,
    word: u8,
    outputs: &'a [&'a [u8]],
}

// ---- words

// `eager` or `lazy`.
#[tactic(auto, unfolding(tp_script::specs::LineWords::kind_at))]
fn kind_at(word: &[u8]) -> Result<Kind, LineError>
    ensures { Gives (λ x. x) result (kind_at word.now) }
{
    if is(word, "eager") {
        Ok(Kind::Eager)
    } else if is(word, "lazy") {
        Ok(Kind::Lazy)
    } else {
        Err(LineFault::Syntax.into())
    }
}

// `add`, `take` or `pass`.
#[tactic(auto, unfolding(tp_script::specs::LineWords::act_named))]
fn act_named(word: &[u8]) -> Result<Act, LineError>
    ensures { Gives (λ x. x) result (act_named word.now) }
{
    if is(word, "add") {
        Ok(Act::Add)
    } else if is(word, "take") {
        Ok(Act::Take)
    } else if is(word, "pass") {
        Ok(Act::Pass)
    } else {
        Err(LineFault::Syntax.into())
    }
}

// The place of the amount in a body: `1`, `2` or `3`.
#[tactic(auto, unfolding(tp_script::specs::LineWords::place_at))]
fn amount_place(word: &[u8]) -> Result<u8, LineError>
    ensures { Gives (λ x. x) result (place_at word.now) }
{
    if is(word, "1") {
        Ok(1)
    } else if is(word, "2") {
        Ok(2)
    } else if is(word, "3") {
        Ok(3)
    } else {
        Err(LineFault::Syntax.into())
    }
}

// An act, and the place of its amount: 1 where none is said.
fn act_words<'a>(parts: &[&'a [u8]]) -> Result<(&'a [u8], &'a [u8]), LineError>
    ensures { Gives (λ x. (x.0.now, x.1.now)) result (act_words (map (λ x. x.now) parts.now)) }
{
    match parts {
        [act] => Ok((*act, b"1".as_slice())),
        [act, place] => Ok((*act, *place)),
        _ => Err(LineFault::Syntax.into()),
    }
}

// `ACT` or `ACT:PLACE`.
#[tactic(auto, unfolding(tp_script::specs::LineWords::act_and_place))]
fn act_at(alloc: Global, word: &[u8]) -> Result<(Act, u8), LineError>
    ensures { Gives (λ x. x) result (act_and_place word.now) }
{
    let parts = parts(alloc, word, b':')?;
    let (act, place) = act_words(parts.as_slice())?;
    Ok((act_named(act)?, amount_place(place)?))
}

// Whether a word has exactly two colons.
fn is_output(word: &[u8]) -> bool
    ensures { result ≡ has_two_colons word.now }
{
    colons(word) == 2
}

// Whether each word has exactly two colons.
fn all_outputs(words: &[&[u8]]) -> bool
    ensures { result ≡ list_all has_two_colons (map (λ x. x.now) words.now) }
{
    words.iter().all(|word| is_output(word))
}

// NAME KIND STAGE REGISTERS ACT OUT..
#[tactic(auto, unfolding(tp_script::specs::ServerLines::shape_at))]
fn shape_at<'a>(alloc: Global, words: &'a [&'a [u8]]) -> Result<Shape<'a>, LineError>
    ensures gives { Gives shape_view result (shape_at (map (λ x. x.now) words.now)) }
    ensures few { IfOk result (λ shape. length shape.outputs.now ≤ MAX_OUTPUTS) }
{
    let [name, kind, stage, registers, act, outputs @ ..] = words else {
        return Err(LineFault::Syntax.into());
    };
    let kind = kind_at(kind)?;
    let (act, word) = act_at(alloc, act)?;
    if outputs.len() > MAX_OUTPUTS || !all_outputs(outputs) {
        return Err(LineFault::Syntax.into());
    }
    Ok(Shape {
        name,
        kind,
        stage,
        registers,
        act,
        word,
        outputs,
    })
}

// ---- numbers

// The key of an output: `same` or a number.
#[tactic(auto, unfolding(tp_script::specs::LineWords::key_at))]
fn key_at(word: &[u8]) -> Result<KeyFrom, LineError>
    ensures { Gives (λ x. x) result (key_at word.now) }
{
    if is(word, "same") {
        Ok(KeyFrom::Same)
    } else {
        Ok(KeyFrom::Fixed(long_at(word)?))
    }
}

// The amount of an output: `same`, `after` or a number.
#[tactic(auto, unfolding(tp_script::specs::LineWords::amount_at))]
fn amount_at(word: &[u8]) -> Result<AmountFrom, LineError>
    ensures { Gives (λ x. x) result (amount_at word.now) }
{
    if is(word, "same") {
        Ok(AmountFrom::Same)
    } else if is(word, "after") {
        Ok(AmountFrom::After)
    } else {
        Ok(AmountFrom::Fixed(long_at(word)?))
    }
}

// `STAGE:KEY:AMOUNT`.
#[tactic(auto, unfolding(tp_script::specs::LineWords::output_at))]
fn output_at(alloc: Global, word: &[u8]) -> Result<Output, LineError>
    ensures { Gives (λ x. x) result (output_at word.now) }
{
    let parts = parts(alloc, word, b':')?;
    let (stage, key, amount) = three(parts.as_slice())?;
    let stage = byte_at(stage)?;
    let key = key_at(key)?;
    let amount = amount_at(amount)?;
    Ok(Output { stage, key, amount })
}

// The outputs that words say.
fn outputs_at(alloc: Global, words: &[&[u8]]) -> Result<ArrayVec<Output, 4>, LineError>
    requires { length words.now ≤ MAX_OUTPUTS }
    ensures { Gives (λ v. v.items) result (outputs_at (map (λ x. x.now) words.now)) }
{
    let mut outputs = ArrayVec::new();
    for word in words {
        outputs.push(output_at(alloc, word)?);
    }
    Ok(outputs)
}

// The numbers of a server line.
#[tactic(auto, unfolding(tp_script::specs::ServerLines::recipe_at))]
fn recipe_at(alloc: Global, shape: &Shape<'_>) -> Result<Recipe, LineError>
    requires { length shape.now.outputs.now ≤ MAX_OUTPUTS }
    ensures { Gives (λ r. r) result (recipe_at (shape_view shape.now)) }
{
    let stage = byte_at(shape.stage)?;
    let registers = byte_at(shape.registers)?;
    let outputs = outputs_at(alloc, shape.outputs)?;
    let act = shape.act;
    let word = shape.word;
    Ok(Recipe {
        stage,
        registers,
        act,
        word,
        outputs,
    })
}

// Whether a recipe has no fault.
fn checked(recipe: &Recipe) -> Result<(), LineError>
    ensures gives { Gives (λ x. x) result (require (is_ok (check_of recipe.now)) BadRecipe) }
    ensures checked { OnOk result (check_of recipe.now ≡ Ok tt) }
{
    match recipe.check() {
        Ok(()) => Ok(()),
        Err(_) => Err(LineFault::BadRecipe.into()),
    }
}

/// `server NAME KIND STAGE REGISTERS ACT OUT..`
#[tactic(auto, unfolding(crate::specs::Servers::server_said))]
pub(crate) fn server_said(alloc: Global, words: &[&[u8]]) -> Result<ServerLine, LineError>
    ensures { Gives (λ x. x) result (server_said (map (λ x. x.now) words.now)) }
{
    let shape = shape_at(alloc, words)?;
    let name = name_at(shape.name)?;
    let recipe = recipe_at(alloc, &shape)?;
    checked(&recipe)?;
    let kind = shape.kind;
    Ok(ServerLine { name, kind, recipe })
}
