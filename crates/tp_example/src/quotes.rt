//! A server of one's own that replies what a call to the outside gave.
ghost use Rattle.std.specs.Prelude.{◌≡◌};
ghost use Rattle.tp_example.specs.Quotes.{price_heard, quoted, quotes};

use tp_model::types::{Element, REPLY_STAGE};
use tp_server::{Declined, Effect, Handler};

/// Where prices come from. Nothing is known of what it answers.
pub trait Prices: Drop {
    /// The price of these goods today, if there is one.
    fn price(&self, goods: u64) -> Option<u64>;
}

/// Replies to each question of stage 3 with the price of the goods in its word 0. The one register counts the
/// quotes.
#[derive(Drop)]
pub struct Quotes<P: Prices> {
    pub prices: P,
}

impl<P: Prices> Handler<1> for Quotes<P> {
    ghost behaviour = { λ s. quotes };

    fn stage(&self) -> u8 {
        3
    }

    fn effect(&mut self, question: &Element, given: &[u64; 1]) -> Result<Effect<1>, Declined> {
        let price = self.prices.price(question.body[0]);
        quoted(question, given, price)
    }

    fn committed(&mut self, _element: &Element, _registers: &[u64; 1]) {}
}

/// What a question comes to, where this many quotes were given and this price was heard.
fn quoted(question: &Element, given: &[u64; 1], price: Option<u64>) -> Result<Effect<1>, Declined>
    ensures { result ≡ quoted given.now question.now (price_heard price) }
{
    let [goods, _, customer, _] = question.body;
    let Some(given) = given[0].checked_add(1) else {
        return Err(Declined::TooLarge);
    };
    let Some(price) = price else {
        return Err(Declined::Own(2));
    };
    Ok(Effect::new([given]).output(REPLY_STAGE, [goods, price, customer, 0]))
}
