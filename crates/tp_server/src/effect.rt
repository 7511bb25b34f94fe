//! What a recipe does with an element, computed: the one register that changes, and the drafts.
ghost use Rattle.std.specs.Prelude.{◌≡◌, ◌<◌, true, map, length, OnOk};
ghost use Rattle.std.specs.List.{list_all};
ghost use Rattle.tp_server.specs.Check.{is_output, is_word};
ghost use Rattle.tp_server.specs.Effect.{act_on, register_after, key_in, body_of, draft_of};

use crate::recipe::{Act, AmountFrom, Declined, KeyFrom, Output, Recipe};
use crate::registers::Registers;
use arrayvec::ArrayVec;
use tp_model::types::{Body, Draft, Element};

/// A register's value after the act.
fn apply(act: Act, value: u64, amount: u64) -> Result<u64, Declined>
    ensures { result ≡ act_on act value amount }
{
    match act {
        Act::Add => value.checked_add(amount).ok_or(Declined::TooLarge),
        Act::Take => value.checked_sub(amount).ok_or(Declined::Short),
        Act::Pass => Ok(value),
    }
}

/// The register that the element's key names, after the recipe's act.
pub fn register_after(
    recipe: &Recipe,
    registers: &Registers,
    element: &Element,
) -> Result<u64, Declined>
    requires { is_word recipe.now.word ≡ true }
    ensures value { result ≡ register_after recipe.now registers.now element.now }
    ensures in_range { OnOk result (key_in element.now.body < length registers.now) }
{
    match registers.get(element.body[0]) {
        Some(value) => apply(recipe.act, value, element.body[recipe.word as usize]),
        None => Err(Declined::NoRegister),
    }
}

/// The body of one output, where amounts are words `word` and the act leaves the register at `after`.
fn body(output: &Output, element: &Element, word: u8, after: u64) -> Body
    requires { is_word word ≡ true }
    ensures { result ≡ body_of word element.now.body after output.now }
{
    let mut body = element.body;
    body[0] = match output.key {
        KeyFrom::Same => element.body[0],
        KeyFrom::Fixed(key) => key,
    };
    body[word as usize] = match output.amount {
        AmountFrom::Same => element.body[word as usize],
        AmountFrom::After => after,
        AmountFrom::Fixed(amount) => amount,
    };
    body
}

/// The draft of one output, where amounts are words `word` and the act leaves the register at `after`.
fn draft(output: &Output, element: &Element, word: u8, after: u64) -> Draft
    requires output { is_output output.now ≡ true }
    requires word { is_word word ≡ true }
    ensures { result ≡ draft_of word element.now after output.now }
{
    match Draft::new(output.stage, body(output, element, word, after)) {
        Some(draft) => draft,
        None => unreachable!(),
    }
}

/// The drafts of all outputs of a recipe, in their order.
pub fn drafts(recipe: &Recipe, element: &Element, after: u64) -> ArrayVec<Draft, 4>
    requires outputs { list_all is_output recipe.now.outputs.items ≡ true }
    requires word { is_word recipe.now.word ≡ true }
    ensures { result.items ≡ map (draft_of recipe.now.word element.now after) recipe.now.outputs.items }
{
    let mut drafts = ArrayVec::new();
    for output in recipe.outputs.as_slice() {
        drafts.push(draft(output, element, recipe.word, after));
    }
    drafts
}
