//! What a server does with an element, and which recipes are good.
ghost use Rattle.std.specs.Prelude.{◌≡◌, Some};
ghost use Rattle.std.specs.List.{list_all};
ghost use Rattle.tp_server.specs.Check.{check_of, check_with, is_output};

use crate::registers::Registers;
use arrayvec::ArrayVec;
use std::error::Error;
use std::fmt;
use tp_model::types::{MAX_STAGE, REPLY_STAGE};

/// What a server does to the register that an element's key names: the key is word 0 of its body.
#[derive(Clone, Copy, Debug, PartialEq, Eq)]
pub enum Act {
    /// The register is increased by the element's amount. It holds 18446744073709551615 at most.
    Add,
    /// The register is decreased by the element's amount. It holds 0 at least.
    Take,
    /// The register stays as it is.
    Pass,
}

/// Where the key of an output comes from.
#[derive(Clone, Copy, Debug, PartialEq, Eq)]
pub enum KeyFrom {
    /// It is the element's own key.
    Same,
    /// It is this number, whatever the element's key is.
    Fixed(u64),
}

/// Where the amount of an output comes from.
#[derive(Clone, Copy, Debug, PartialEq, Eq)]
pub enum AmountFrom {
    /// It is the element's own amount.
    Same,
    /// It is the value that the register has after the act.
    After,
    /// It is this number, whatever the element's amount is.
    Fixed(u64),
}

/// An output that a recipe makes of each element. Its body is the element's own but for the two words that
/// are said here.
#[derive(Clone, Copy, Debug, PartialEq, Eq)]
pub struct Output {
    /// The stage that it goes to: 1 to 14 for servers, 15 for replies.
    pub stage: u8,
    /// Where its key comes from: word 0 of its body.
    pub key: KeyFrom,
    /// Where its amount comes from: the word of its body at the recipe's place for amounts.
    pub amount: AmountFrom,
}

/// A reply with the element's own body. It only fills unused places.
impl Default for Output {
    ghost use Rattle.tp_model.specs.declared.types.TheConstants.{REPLY_STAGE};
    ghost use Rattle.tp_server.specs.declared.recipe.KeyFrom.TheVariants.{Same};
    ghost use Rattle.tp_server.specs.declared.recipe.AmountFrom.TheVariants.{Same as SameAmount};

    ghost is_default = { λ output. output ≡ record { stage = REPLY_STAGE; key = Same; amount = SameAmount } };

    fn default() -> Output {
        Output {
            stage: REPLY_STAGE,
            key: KeyFrom::Same,
            amount: AmountFrom::Same,
        }
    }
}

/// What a server does with each element that it takes.
#[derive(Clone, Debug, PartialEq, Eq, Drop)]
pub struct Recipe {
    /// The stage whose elements it takes, 1 to 14.
    pub stage: u8,
    /// How many registers it has, 1 to 64.
    pub registers: u8,
    /// What it does to the register that the element's key names.
    pub act: Act,
    /// Which word of a body is the amount, 1 to 3.
    pub word: u8,
    /// The outputs that it makes, in this order.
    pub outputs: ArrayVec<Output, 4>,
}

/// The first fault of a recipe.
#[derive(Clone, Copy, Debug, PartialEq, Eq)]
pub enum BadRecipe {
    /// Its own stage isn't 1 to 14.
    BadStage,
    /// The number of its registers isn't 1 to 64, or isn't that of the registers that came with it.
    BadRegisters,
    /// The stage of an output isn't 1 to 15.
    BadOutput,
    /// The amount's place isn't 1 to 3.
    BadWord,
}

/// Its bare name, as `BadStage`.
impl fmt::Display for BadRecipe {
    ghost use Rattle.tp_server.specs.Names.{recipe_fault_name};

    ghost output = { λ fault. Some (recipe_fault_name fault) };

    fn fmt<W: fmt::Write>(&self, f: &mut fmt::Formatter<W>) -> fmt::Result {
        match self {
            BadRecipe::BadStage => f.write_str("BadStage"),
            BadRecipe::BadRegisters => f.write_str("BadRegisters"),
            BadRecipe::BadOutput => f.write_str("BadOutput"),
            BadRecipe::BadWord => f.write_str("BadWord"),
        }
    }
}

impl Error for BadRecipe {}

/// Why a server declined an element. Where several hold, it is the first.
#[derive(Clone, Copy, Debug, PartialEq, Eq)]
pub enum Declined {
    /// The element's key isn't below the number of registers. This holds for each act.
    NoRegister,
    /// The act adds, and the sum would pass 18446744073709551615.
    TooLarge,
    /// The act takes, and the register holds less than the element's amount.
    Short,
    /// A reason of the server's own, by a number of its own. No recipe declines so.
    Own(u16),
}

/// Its bare name, as `NoRegister`.
impl fmt::Display for Declined {
    ghost use Rattle.tp_server.specs.Names.{declined_name};

    ghost output = { λ why. Some (declined_name why) };

    fn fmt<W: fmt::Write>(&self, f: &mut fmt::Formatter<W>) -> fmt::Result {
        match self {
            Declined::NoRegister => f.write_str("NoRegister"),
            Declined::TooLarge => f.write_str("TooLarge"),
            Declined::Short => f.write_str("Short"),
            Declined::Own(reason) => write!(f, "Own({reason})"),
        }
    }
}

impl Error for Declined {}

impl Recipe {
    /// The first fault of the recipe: `BadStage`, then `BadRegisters`, then `BadOutput`, then `BadWord`.
    pub fn check(&self) -> Result<(), BadRecipe>
        ensures { result ≡ check_of self.now }
    {
        if self.stage < 1 || self.stage > MAX_STAGE {
            return Err(BadRecipe::BadStage);
        }
        if self.registers < 1 || self.registers > 64 {
            return Err(BadRecipe::BadRegisters);
        }
        if !are_outputs_good(self.outputs.as_slice()) {
            return Err(BadRecipe::BadOutput);
        }
        if self.word < 1 || self.word > 3 {
            return Err(BadRecipe::BadWord);
        }
        Ok(())
    }

    /// The first fault of the recipe for these registers: its own, then `BadRegisters` where it asks for more
    /// or fewer.
    pub(crate) fn check_with(&self, registers: &Registers) -> Result<(), BadRecipe>
        ensures { result ≡ check_with registers.now self.now }
    {
        self.check()?;
        if registers.len() != self.registers {
            return Err(BadRecipe::BadRegisters);
        }
        Ok(())
    }
}

/// Whether each output goes to a stage that there is.
fn are_outputs_good(outputs: &[Output]) -> bool
    ensures { result ≡ list_all is_output outputs.now }
{
    outputs
        .iter()
        .all(|output| 1 <= output.stage && output.stage <= REPLY_STAGE)
}
