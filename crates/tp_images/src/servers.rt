//! The servers of the three stages. The words of a picture's body are its format, its bytes, its customer and
//! its job.
ghost use Rattle.std.specs.Prelude.{◌≡◌};
ghost use Rattle.tp_images.specs.Pictures.{notifier, resize, resizer, validated, validator};

use tp_model::types::{Element, REPLY_STAGE};
use tp_server::{Declined, Effect, Handler};

/// Lets pictures of the formats 0 to `formats - 1` through: to the resizer of stage 2, or to the notifier
/// where they are small.
#[derive(Drop)]
pub struct Validator {
    pub formats: u64,
}

impl Handler<0> for Validator {
    ghost behaviour = { λ s. validator s.formats };

    fn stage(&self) -> u8 {
        1
    }

    fn effect(&mut self, picture: &Element, _none: &[u64; 0]) -> Result<Effect<0>, Declined> {
        validated(self.formats, picture)
    }

    fn committed(&mut self, _element: &Element, _registers: &[u64; 0]) {}
}

/// What a picture comes to, where the validator knows this many formats.
fn validated(formats: u64, picture: &Element) -> Result<Effect<0>, Declined>
    ensures { result ≡ validated formats picture.now }
{
    let [format, bytes, _customer, _job] = picture.body;
    if format >= formats {
        return Err(Declined::Own(1));
    }
    let stage = if bytes <= 1000 { 3 } else { 2 };
    Ok(Effect::new([]).output(stage, picture.body))
}

/// Resizes pictures to a quarter of their bytes, which it takes from the disk space that is left.
#[derive(Drop)]
pub struct Resizer;

impl Handler<1> for Resizer {
    ghost behaviour = { λ s. resizer };

    fn stage(&self) -> u8 {
        2
    }

    fn effect(&mut self, picture: &Element, space: &[u64; 1]) -> Result<Effect<1>, Declined> {
        resized(picture, space)
    }

    fn committed(&mut self, _element: &Element, _registers: &[u64; 1]) {}
}

/// What a picture comes to, where this is the space that is left.
fn resized(picture: &Element, space: &[u64; 1]) -> Result<Effect<1>, Declined>
    ensures { result ≡ resize space.now picture.now }
{
    let [format, bytes, customer, job] = picture.body;
    let [space] = *space;
    let size = bytes / 4;
    if size > space {
        return Err(Declined::Own(2));
    }
    Ok(Effect::new([space - size]).output(3, [format, size, customer, job]))
}

/// Replies to each picture, and keeps how many there were and what their bytes add up to.
#[derive(Drop)]
pub struct Notifier;

impl Handler<2> for Notifier {
    ghost behaviour = { λ s. notifier };

    fn stage(&self) -> u8 {
        3
    }

    fn effect(&mut self, picture: &Element, told: &[u64; 2]) -> Result<Effect<2>, Declined> {
        let Some(count) = told[0].checked_add(1) else {
            return Err(Declined::TooLarge);
        };
        let Some(bytes) = told[1].checked_add(picture.body[1]) else {
            return Err(Declined::TooLarge);
        };
        Ok(Effect::new([count, bytes]).output(REPLY_STAGE, picture.body))
    }

    fn committed(&mut self, _element: &Element, _registers: &[u64; 2]) {}
}
