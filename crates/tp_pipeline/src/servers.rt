//! The servers of the three stages. The words of a payment's body are its amount, its number, and the bank's
//! receipt once there is one.
ghost use Rattle.std.specs.Prelude.{◌≡◌, ◌≤◌};
ghost use Rattle.tp_pipeline.specs.Payments.{receipt_heard, charged, charger, count_on, shipper};
ghost use Rattle.tp_pipeline.specs.Payments.{payment_validated, payment_validator};

use crate::bank::Bank;
use std::hint::spin_loop;
use tp_model::types::Element;
use tp_server::{Declined, Effect, Handler};

/// What a server does beside its bookkeeping, for so many steps.
fn toil(steps: u32) {
    for _step in 0..steps {
        spin_loop();
    }
}

/// The registers with one more counted, and the payment as it goes on to this stage.
fn count_on(stage: u8, payment: &Element, counted: &[u64; 1]) -> Result<Effect<1>, Declined>
    requires low { 1 ≤ stage }
    requires high { stage ≤ 15 }
    ensures { result ≡ count_on stage counted.now payment.now }
{
    let Some(count) = counted[0].checked_add(1) else {
        return Err(Declined::TooLarge);
    };
    Ok(Effect::new([count]).output(stage, payment.body))
}

/// Lets payments up to `ceiling` through.
#[derive(Drop)]
pub struct Validator {
    pub ceiling: u64,
    pub steps: u32,
}

impl Handler<1> for Validator {
    ghost behaviour = { λ s. payment_validator s.ceiling };

    fn stage(&self) -> u8 {
        1
    }

    fn effect(&mut self, payment: &Element, counted: &[u64; 1]) -> Result<Effect<1>, Declined> {
        toil(self.steps);
        validated(self.ceiling, payment, counted)
    }

    fn committed(&mut self, _element: &Element, _registers: &[u64; 1]) {}
}

/// What a payment comes to, where this is the ceiling.
fn validated(ceiling: u64, payment: &Element, counted: &[u64; 1]) -> Result<Effect<1>, Declined>
    ensures { result ≡ payment_validated ceiling counted.now payment.now }
{
    if payment.body[0] > ceiling {
        return Err(Declined::Own(1));
    }
    count_on(2, payment, counted)
}

/// Charges payments to a bank that isn't always open.
#[derive(Drop)]
pub struct Charger<B: Bank> {
    pub bank: B,
    pub steps: u32,
}

impl<B: Bank> Handler<2> for Charger<B> {
    ghost behaviour = { λ s. charger };

    fn stage(&self) -> u8 {
        2
    }

    fn effect(&mut self, payment: &Element, books: &[u64; 2]) -> Result<Effect<2>, Declined> {
        toil(self.steps);
        let receipt = self.bank.authorise(payment.body[0]);
        charged(payment, books, receipt)
    }

    fn committed(&mut self, _element: &Element, _registers: &[u64; 2]) {}
}

/// What a payment comes to, where this receipt was heard of.
fn charged(payment: &Element, books: &[u64; 2], receipt: Option<u64>) -> Result<Effect<2>, Declined>
    ensures { result ≡ charged books.now payment.now (receipt_heard receipt) }
{
    let [amount, number, _, _] = payment.body;
    let Some(takings) = books[0].checked_add(amount) else {
        return Err(Declined::TooLarge);
    };
    let Some(charges) = books[1].checked_add(1) else {
        return Err(Declined::TooLarge);
    };
    let Some(receipt) = receipt else {
        return Err(Declined::Own(2));
    };
    Ok(Effect::new([takings, charges]).output(3, [amount, number, receipt, 0]))
}

/// Ships what was paid for, and replies.
#[derive(Drop)]
pub struct Shipper {
    pub steps: u32,
}

impl Handler<1> for Shipper {
    ghost behaviour = { λ s. shipper };

    fn stage(&self) -> u8 {
        3
    }

    fn effect(&mut self, payment: &Element, shipped: &[u64; 1]) -> Result<Effect<1>, Declined> {
        toil(self.steps);
        count_on(15, payment, shipped)
    }

    fn committed(&mut self, _element: &Element, _registers: &[u64; 1]) {}
}
