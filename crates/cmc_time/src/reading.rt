//! The numbers of a date and a time of day, read from the front of a slice. Each function gives the value and the rest.
ghost use Rattle.std.specs.Prelude.{◌≡◌, ◌<◌, IfSome, option_copied};
ghost use Rattle.cmc_time.specs.TimeTexts as spec;

use crate::moment::Moment;

#[tactic(auto, unfolding(crate::specs::TimeTexts::mark_at))]
fn mark_at<'a>(mark: &[u8], text: &'a [u8]) -> Option<&'a [u8]>
    ensures { option_copied result ≡ spec.mark_at mark.now text.now }
{
    text.strip_prefix(mark)
}

/// Two decimal digits.
#[tactic(auto, unfolding(crate::specs::TimeTexts::two_digits_at))]
pub fn two_digits_at(text: &[u8]) -> Option<(u8, &[u8])>
    ensures value { spec.read_view result ≡ spec.two_digits_at text.now }
    ensures bound { IfSome result (λ p. p.0 < 100) }
{
    match text {
        [high @ b'0'..=b'9', low @ b'0'..=b'9', rest @ ..] => {
            Some(((*high - b'0') * 10 + (*low - b'0'), rest))
        }
        _ => None,
    }
}

/// Four decimal digits.
#[tactic(auto, unfolding(crate::specs::TimeTexts::four_digits_at))]
pub fn four_digits_at(text: &[u8]) -> Option<(u16, &[u8])>
    ensures { spec.read_view result ≡ spec.four_digits_at text.now }
{
    let (century, rest) = two_digits_at(text)?;
    let (year, rest) = two_digits_at(rest)?;
    Some((century as u16 * 100 + year as u16, rest))
}

#[tactic(auto, unfolding(crate::specs::TimeTexts::marked_at))]
fn marked_at<'a>(mark: &[u8], text: &'a [u8]) -> Option<(u8, &'a [u8])>
    ensures { spec.read_view result ≡ spec.marked_at mark.now text.now }
{
    two_digits_at(mark_at(mark, text)?)
}

/// The moment of this year that the text writes up to its end, a `Z`: the month and the day stand after the
/// mark `date`, the hour after `middle`, and the minute and the second after `time`.
#[tactic(auto, unfolding(crate::specs::TimeTexts::moment_of_year_at))]
pub fn moment_at(year: u16, date: &[u8], middle: &[u8], time: &[u8], text: &[u8]) -> Option<Moment>
    ensures { result ≡ spec.moment_of_year_at year date.now middle.now time.now text.now }
{
    let (month, rest) = marked_at(date, text)?;
    let (day, rest) = marked_at(date, rest)?;
    let (hour, rest) = marked_at(middle, rest)?;
    let (minute, rest) = marked_at(time, rest)?;
    let (second, rest) = marked_at(time, rest)?;
    if rest != b"Z".as_slice() {
        return None;
    }
    Some(Moment {
        year,
        month,
        day,
        hour,
        minute,
        second,
    })
}
