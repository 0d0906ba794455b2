//! Reading one value from the left.
ghost use Rattle.std.specs.Prelude.{◌≡◌, ℕ, List, [], ◌++◌, ◌+◌, ◌*◌, ◌^◌, ◌<◌, ◌↔◌, IfOk, Ok, Err};
ghost use Rattle.cmc_der.specs.declared.reading.DerFault.TheVariants.{Cut, NotDer};
ghost use Rattle.cmc_der.specs.Values.{IsDerValue, BeginsWith, IsCutShort, IsNotDerAt};
ghost use Rattle.cmc_der.specs.Elements.{tlv_shown, Gives, more_at, long_at, length_at, read_at};

/// Why no value was read.
#[derive(Clone, Copy, Debug, PartialEq, Eq)]
pub enum DerFault {
    /// The input is a proper prefix of a value.
    Cut,
    /// The input neither begins with a value nor begins one: with the octet at this offset,
    /// counted from 0, no value begins any more.
    NotDer(usize),
}

/// A value: its identifier octet, which names class, form and number of the tag (X.690, 8.1.2),
/// and its contents octets (8.1.4).
#[derive(Clone, Copy)]
pub struct Tlv<'a> {
    pub tag: u8,
    pub body: &'a [u8],
}

/// A number with one octet more, the next of those that spell it.
fn more(number: usize, rest: &[u8]) -> Result<(usize, &[u8]), DerFault>
    requires { number < 2 ^ 24 }
    ensures gives { Gives (λ x. (x.0, x.1.now)) result (more_at number rest.now) }
    ensures below { IfOk result (λ x. x.0 < 256 * (number + 1)) }
{
    match rest {
        [] => Err(DerFault::Cut),
        [octet, rest @ ..] => Ok((number * 256 + usize::from(*octet), rest)),
    }
}

/// The number of a length in the long form, after the octet that counts its octets.
fn long(count: u8, rest: &[u8]) -> Result<(usize, &[u8]), DerFault>
    requires { (0 < count) × (count < 5) }
    ensures { Gives (λ x. (x.0, x.1.now)) result (long_at count rest.now) }
{
    match rest {
        [] => Err(DerFault::Cut),
        [first, rest @ ..] => {
            // A zero in front, or a number that the short form holds, is not the shortest form.
            if *first == 0 || (count == 1 && *first < 128) {
                return Err(DerFault::NotDer(2));
            }
            let number = usize::from(*first);
            match count {
                1 => Ok((number, rest)),
                2 => more(number, rest),
                3 => {
                    let (number, rest) = more(number, rest)?;
                    more(number, rest)
                }
                _ => {
                    let (number, rest) = more(number, rest)?;
                    let (number, rest) = more(number, rest)?;
                    more(number, rest)
                }
            }
        }
    }
}

/// The length at the front, after the identifier octet.
fn length_of(rest: &[u8]) -> Result<(usize, &[u8]), DerFault>
    ensures { Gives (λ x. (x.0, x.1.now)) result (length_at rest.now) }
{
    match rest {
        [] => Err(DerFault::Cut),
        [first, rest @ ..] => {
            if *first < 128 {
                Ok((usize::from(*first), rest))
            } else if *first == 128 || 132 < *first {
                Err(DerFault::NotDer(1))
            } else {
                long(*first - 128, rest)
            }
        }
    }
}

/// The value at the front, and the octets after it.
#[tactic(auto, unfolding(crate::specs::Elements::read_at))]
fn read<'a>(input: &'a [u8]) -> Result<(Tlv<'a>, &'a [u8]), DerFault>
    ensures { Gives tlv_shown result (read_at input.now) }
{
    match input {
        [] => Err(DerFault::Cut),
        [tag, rest @ ..] => {
            if *tag % 32 == 31 {
                return Err(DerFault::NotDer(0));
            }
            let (len, rest) = length_of(rest)?;
            if rest.len() < len {
                return Err(DerFault::Cut);
            }
            let (body, rest) = rest.split_at(len);
            Ok((Tlv { tag: *tag, body }, rest))
        }
    }
}

/// Reads the value at the front of the input, and answers it with the octets after it.
///
/// A value is one identifier octet with a low tag number (X.690, 8.1.2.3), a definite length in the
/// shortest form (8.1.3 and 10.1) of at most four octets after the first, and as many contents
/// octets. It looks at the identifier and length octets alone, whatever the contents hold, takes no
/// memory and does not recurse.
///
/// # Errors
///
/// `Cut` exactly where the input is a proper prefix of a value, the empty input among them, and
/// `NotDer` with the place exactly where it neither begins with a value nor is a prefix of one.
pub fn read_one<'a>(input: &'a [u8]) -> Result<(Tlv<'a>, &'a [u8]), DerFault>
    ensures found { IfOk result (λ r. BeginsWith input.now r.0.tag r.0.body.now r.1.now) }
    ensures only { (tag : ℕ) (body rest : List ℕ) → BeginsWith input.now tag body rest →
        Gives tlv_shown result (Ok (tag, body, rest)) }
    ensures cut { (result ≡ Err Cut) ↔ IsCutShort input.now }
    ensures not_der { (place : ℕ) → (result ≡ Err (NotDer place)) ↔ IsNotDerAt input.now place }

    // The same as a function of the octets, from which the crates above compute what they read.
    ensures exact { Gives tlv_shown result (read_at input.now) }
{
    read(input)
}

/// A law: no value is a proper prefix of another, and one value has one tag and one body.
pub fn no_proper_prefix()
    ensures { (first second rest : List ℕ) (tag other_tag : ℕ) (body other_body : List ℕ) →
        IsDerValue first tag body → IsDerValue second other_tag other_body → first ++ rest ≡ second →
        (tag ≡ other_tag) × (body ≡ other_body) × (rest ≡ []) }
{}
