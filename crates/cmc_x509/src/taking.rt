//! Taking values from the front of the input.
ghost use Rattle.std.specs.Prelude.{◌≡◌, ◌<◌, ◌-◌, ◌+◌, ◌≤◌, length, IfOk};
ghost use Rattle.cmc_der.specs.Keys.{text_shown};
ghost use Rattle.cmc_der.specs.Elements.{tlv_shown};
ghost use Rattle.cmc_x509.specs.Options.{Gives, value_shown, value_at, take_at, whole_at, end_at, only_at, at_most_one_at, optional_value_at};

use cmc_der::{Tlv, read_one};

/// An input of more octets than these has no reading.
pub const MAX_INPUT: usize = 16_777_216;

/// The input has no reading.
#[derive(Clone, Copy)]
pub struct NotForm;

/// The value at the front, and the rest.
#[tactic(auto, unfolding(crate::specs::Options::value_at))]
pub fn value<'a>(rest: &'a [u8]) -> Result<(Tlv<'a>, &'a [u8]), NotForm>
    ensures gives { Gives tlv_shown result (value_at rest.now) }
    ensures shorter { IfOk result (λ r. length r.1.now < length rest.now) }
{
    match read_one(rest) {
        Ok(found) => Ok(found),
        Err(_) => Err(NotForm),
    }
}

/// The body of the value at the front, which has this tag, and the rest.
#[tactic(auto, unfolding(crate::specs::Options::take_at))]
pub fn take<'a>(tag: u8, rest: &'a [u8]) -> Result<(&'a [u8], &'a [u8]), NotForm>
    ensures { Gives (λ p. (p.0.now, p.1.now)) result (take_at tag rest.now) }
{
    let (value, rest) = value(rest)?;
    if value.tag != tag {
        return Err(NotForm);
    }
    Ok((value.body, rest))
}

/// All octets of the value at the front, and the rest.
#[tactic(auto, unfolding(crate::specs::Options::whole_at))]
pub fn whole<'a>(input: &'a [u8]) -> Result<(&'a [u8], &'a [u8]), NotForm>
    ensures { Gives (λ p. (p.0.now, p.1.now)) result (whole_at input.now) }
{
    let (_value, rest) = value(input)?;
    let (whole, _rest) = input.split_at(input.len() - rest.len());
    Ok((whole, rest))
}

/// Nothing is there any more.
#[tactic(auto, unfolding(crate::specs::Options::end_at))]
pub fn end(rest: &[u8]) -> Result<(), NotForm>
    ensures { Gives (λ _. 0) result (end_at rest.now) }
{
    match rest {
        [] => Ok(()),
        [_first, ..] => Err(NotForm),
    }
}

/// The body of the one value of this tag that the input is.
#[tactic(auto, unfolding(crate::specs::Options::only_at))]
pub fn only<'a>(tag: u8, input: &'a [u8]) -> Result<&'a [u8], NotForm>
    ensures { Gives (λ p. p.now) result (only_at tag input.now) }
{
    let (body, rest) = take(tag, input)?;
    end(rest)?;
    Ok(body)
}

/// The one value that the input is, or none where it is empty.
#[tactic(auto, unfolding(crate::specs::Options::at_most_one_at))]
pub fn at_most_one<'a>(input: &'a [u8]) -> Result<Option<Tlv<'a>>, NotForm>
    ensures { Gives value_shown result (at_most_one_at input.now) }
{
    match input {
        [] => Ok(None),
        [_first, ..] => {
            let (value, rest) = value(input)?;
            end(rest)?;
            Ok(Some(value))
        }
    }
}

/// The body of the value at the front where one of this tag is there, and the rest.
#[tactic(auto, unfolding(crate::specs::Options::optional_value_at))]
pub fn optional<'a>(tag: u8, input: &'a [u8]) -> Result<(Option<&'a [u8]>, &'a [u8]), NotForm>
    ensures { Gives (λ p. (text_shown p.0, p.1.now)) result (optional_value_at tag input.now) }
{
    match input {
        [] => Ok((None, input)),
        [first, ..] => {
            if *first == tag {
                let (body, rest) = take(tag, input)?;
                Ok((Some(body), rest))
            } else {
                Ok((None, input))
            }
        }
    }
}
