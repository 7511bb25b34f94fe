//! A server of one's own: a stock of goods, from which orders take, and what was taken for them.
ghost use Rattle.std.specs.Prelude.{◌≡◌};
ghost use Rattle.tp_example.specs.Shop.{sell, shop};

use tp_model::types::{Element, REPLY_STAGE};
use tp_server::{Declined, Effect, Handler};

/// Sells each order of stage 1 from the stock. An order for nothing is declined for a reason of the shop's
/// own, and one for more than is left as `Short`. The registers are what is left in stock, and what was
/// taken.
///
/// The words of an order's body are which goods it asks for, how many, for which customer, and at which
/// price. The output has the goods and the customer, what is left in place of how many, and what they cost in
/// place of the price. It goes to the packers of stage 2 where the order is for six or more, and else it is
/// the reply.
#[derive(Drop)]
pub struct Stock;

impl Handler<2> for Stock {
    ghost behaviour = { λ s. shop };

    fn stage(&self) -> u8 {
        1
    }

    fn effect(&mut self, order: &Element, books: &[u64; 2]) -> Result<Effect<2>, Declined> {
        sale(order, books)
    }

    fn committed(&mut self, _element: &Element, _registers: &[u64; 2]) {}
}

/// What an order comes to, where these are the registers.
fn sale(order: &Element, books: &[u64; 2]) -> Result<Effect<2>, Declined>
    ensures { result ≡ sell books.now order.now }
{
    let [goods, how_many, customer, price] = order.body;
    let [left, takings] = *books;
    if how_many == 0 {
        return Err(Declined::Own(1));
    }
    if how_many > left {
        return Err(Declined::Short);
    }
    let Some(cost) = how_many.checked_mul(price) else {
        return Err(Declined::TooLarge);
    };
    let Some(takings) = takings.checked_add(cost) else {
        return Err(Declined::TooLarge);
    };
    let stage = if how_many >= 6 { 2 } else { REPLY_STAGE };
    let left = left - how_many;
    Ok(Effect::new([left, takings]).output(stage, [goods, left, customer, cost]))
}
