//! Names: common names, and alternative names in extensions and attributes.
ghost use Rattle.std.specs.Prelude.{◌≡◌, ◌↔◌, ◌<◌, length, ℕ, List, [], IsNone, IfSome};
ghost use Rattle.std.specs.Str.{bytes_eq};
ghost use Rattle.cmc_der.specs.Keys.{text_shown};
ghost use Rattle.cmc_der.specs.Values.{BeginsWith};
ghost use Rattle.cmc_x509.specs.Options.{Gives, Value};
ghost use Rattle.cmc_x509.specs.Lists.{or_first, Reader, first_at, any_value, IsValueList};
ghost use Rattle.cmc_x509.specs.Names.{is_text_tag, common_of};
ghost use Rattle.cmc_x509.specs.ReadNames.{inside, attribute_of, rdn_of, distinguished_name_at, true_or_absent, general_names_at, extension_value_at, extension_of, extensions_of, request_attribute_of};

use crate::oids::{COMMON_NAME, EXTENSION_REQUEST, SUBJECT_ALT_NAME};
use crate::taking::{NotForm, end, only, optional, take, value};
use cmc_der::Tlv;

/// A form of the values of a list, and how what is looked for is read of one.
pub trait Part {
    /// What a value gives, if it has a reading.
    ghost reads: { Reader };

    fn read<'a>(part: Tlv<'a>) -> Result<Option<&'a [u8]>, NotForm>
        ensures { Gives text_shown result (reads (part.entry.tag, part.entry.body.now)) };
}

/// What was found first.
fn first<'a>(found: Option<&'a [u8]>, next: Option<&'a [u8]>) -> Option<&'a [u8]>
    ensures { text_shown result ≡ or_first (text_shown found.entry) (text_shown next.entry) }
{
    match found {
        Some(text) => Some(text),
        None => next,
    }
}

/// What the first of the values gives that gives something. Each of them has a reading.
#[tactic(auto, using(crate::proofs::ListLaws::first_begins, crate::proofs::ListLaws::first_ends, crate::proofs::ListLaws::first_stops, crate::proofs::ListLaws::first_refuses, crate::proofs::ListLaws::first_goes_on))]
pub fn first_in<'a, P: Part>(body: &'a [u8]) -> Result<Option<&'a [u8]>, NotForm>
    ensures { Gives text_shown result (first_at P.reads body.now) }
{
    let mut found = None;
    let mut rest = body;
    while !rest.is_empty() {
        match value(rest) {
            Err(e) => return Err(e),
            Ok((part, after)) => {
                match P::read(part) {
                    Err(e) => return Err(e),
                    Ok(next) => found = first(found, next),
                }
                rest = after;
            }
        }
    }
    Ok(found)
}

/// Whether these are the same octets.
pub fn is(octets: &[u8], name: &[u8]) -> bool
    ensures { result ≡ bytes_eq octets.now name.now }
{
    octets == name
}

/// The contents of a value that has this tag.
pub fn inside_of<'a>(tag: u8, part: Tlv<'a>) -> Result<&'a [u8], NotForm>
    ensures { Gives (λ p. p.now) result (inside tag (part.entry.tag, part.entry.body.now)) }
{
    if part.tag == tag {
        Ok(part.body)
    } else {
        Err(NotForm)
    }
}

/// AttributeTypeAndValue (RFC 5280, 4.1.2.4), which gives the common name that it is.
struct Attribute;

fn text_tag(tag: u8) -> bool
    ensures { result ≡ is_text_tag tag }
{
    tag == 12 || (tag == 19 || (tag == 20 || tag == 22))
}

fn common<'a>(oid: &'a [u8], text: Tlv<'a>) -> Option<&'a [u8]>
    ensures { text_shown result ≡ common_of oid.now (text.entry.tag, text.entry.body.now) }
{
    if is(oid, &COMMON_NAME) && text_tag(text.tag) {
        Some(text.body)
    } else {
        None
    }
}

impl Part for Attribute {
    ghost reads = { attribute_of };

    #[tactic(auto, unfolding(crate::specs::ReadNames::attribute_of))]
    fn read<'a>(part: Tlv<'a>) -> Result<Option<&'a [u8]>, NotForm> {
        let body = inside_of(48, part)?;
        let (oid, rest) = take(6, body)?;
        let (text, rest) = value(rest)?;
        end(rest)?;
        Ok(common(oid, text))
    }
}

/// RelativeDistinguishedName: a SET of attributes.
struct Rdn;

impl Part for Rdn {
    ghost reads = { rdn_of };

    #[tactic(auto, unfolding(crate::specs::ReadNames::rdn_of))]
    fn read<'a>(part: Tlv<'a>) -> Result<Option<&'a [u8]>, NotForm> {
        let body = inside_of(49, part)?;
        first_in::<Attribute>(body)
    }
}

/// The common name of the Name at the front, and the rest.
#[tactic(auto, unfolding(crate::specs::ReadNames::distinguished_name_at))]
pub fn name<'a>(input: &'a [u8]) -> Result<(Option<&'a [u8]>, &'a [u8]), NotForm>
    ensures { Gives (λ p. (text_shown p.0, p.1.now)) result (distinguished_name_at input.now) }
{
    let (body, rest) = take(48, input)?;
    let common = first_in::<Rdn>(body)?;
    Ok((common, rest))
}

/// Any value, which gives nothing.
struct Anything;

impl Part for Anything {
    ghost reads = { any_value };

    fn read<'a>(_part: Tlv<'a>) -> Result<Option<&'a [u8]>, NotForm> {
        Ok(None)
    }
}

/// A BOOLEAN that is TRUE, or is not there.
fn is_true_or_absent(body: Option<&[u8]>) -> Result<(), NotForm>
    ensures { Gives (λ _. 0) result (true_or_absent (text_shown body.entry)) }
{
    match body {
        None => Ok(()),
        Some(body) => {
            if is(body, &[255]) {
                Ok(())
            } else {
                Err(NotForm)
            }
        }
    }
}

/// The contents octets of the GeneralNames that the input is.
#[tactic(auto, unfolding(crate::specs::ReadNames::general_names_at))]
fn general_names<'a>(input: &'a [u8]) -> Result<&'a [u8], NotForm>
    ensures { Gives (λ p. p.now) result (general_names_at input.now) }
{
    let names = only(48, input)?;
    first_in::<Anything>(names)?;
    Ok(names)
}

#[tactic(auto, unfolding(crate::specs::ReadNames::extension_value_at))]
fn extension_value<'a>(oid: &[u8], contents: &'a [u8]) -> Result<Option<&'a [u8]>, NotForm>
    ensures { Gives text_shown result (extension_value_at oid.now contents.now) }
{
    if is(oid, &SUBJECT_ALT_NAME) {
        let names = general_names(contents)?;
        Ok(Some(names))
    } else {
        Ok(None)
    }
}

/// Extension (RFC 5280, 4.1), which gives the contents of the alternative names that it is.
pub struct Extension;

impl Part for Extension {
    ghost reads = { extension_of };

    #[tactic(auto, unfolding(crate::specs::ReadNames::extension_of))]
    fn read<'a>(part: Tlv<'a>) -> Result<Option<&'a [u8]>, NotForm> {
        let body = inside_of(48, part)?;
        let (oid, rest) = take(6, body)?;
        let (critical, rest) = optional(1, rest)?;
        is_true_or_absent(critical)?;
        let contents = only(4, rest)?;
        extension_value(oid, contents)
    }
}

/// Extensions: a SEQUENCE of them.
struct Extensions;

impl Part for Extensions {
    ghost reads = { extensions_of };

    #[tactic(auto, unfolding(crate::specs::ReadNames::extensions_of))]
    fn read<'a>(part: Tlv<'a>) -> Result<Option<&'a [u8]>, NotForm> {
        let body = inside_of(48, part)?;
        first_in::<Extension>(body)
    }
}

/// Attribute of a request (RFC 2986, 4.1), which gives the alternative names of an extensionRequest.
pub struct RequestAttribute;

impl Part for RequestAttribute {
    ghost reads = { request_attribute_of };

    #[tactic(auto, unfolding(crate::specs::ReadNames::request_attribute_of))]
    fn read<'a>(part: Tlv<'a>) -> Result<Option<&'a [u8]>, NotForm> {
        let body = inside_of(48, part)?;
        let (oid, rest) = take(6, body)?;
        let set = only(49, rest)?;
        if is(oid, &EXTENSION_REQUEST) {
            first_in::<Extensions>(set)
        } else {
            Ok(None)
        }
    }
}

/// Takes the first name off a list of names, as `Names::alternative` has them: its tag, its body and
/// the names after it. `None` exactly at the end.
pub fn next_name<'a>(rest: &'a [u8]) -> Option<(u8, &'a [u8], &'a [u8])>
    requires { IsValueList rest.now }
    ensures end { IsNone result ↔ (rest.now ≡ []) }
    ensures some { IfSome result (λ x. BeginsWith rest.now x.0 x.1.now x.2.now) }
    ensures more { IfSome result (λ x. IsValueList x.2.now) }
    ensures shorter { IfSome result (λ x. length x.2.now < length rest.now) }
{
    match value(rest) {
        Ok((value, after)) => Some((value.tag, value.body, after)),
        Err(_) => None,
    }
}
