//! Writing values, one behind and inside another.
ghost use Rattle.std.specs.Prelude.{◌≡◌, ◌≢◌, ℕ, List, [], ◌∷◌, ◌+◌, ◌^◌, ◌%◌, ◌<◌, ◌≤◌, ◌++◌, length, reverse, IfOk, OnOk, OnErr, vec_len};
ghost use Rattle.cmc_der.specs.Values.{BeginsWith, number_after};
ghost use Rattle.cmc_der.specs.Integers.{trimmed, signed, integer_of, IsIntegerOf};
ghost use Rattle.cmc_der.specs.Builders.{Building, Begun, length_octets, value, value_begun, value_closed, value_added, held_octets, Closes};

use crate::fields::without_zeros;
use std::alloc::{AllocError, Global};
use std::marker::Model;

/// Three pieces more, all or none; the octets are moved at most once.
fn append(out: &mut Vec<u8>, head: &[u8], front: &[u8], back: &[u8]) -> Result<(), AllocError>
    requires { length head.now + length front.now + length back.now < 2 ^ 33 }
    ensures ok { OnOk result (out.new.items ≡ out.old.items ++ (head.now ++ (front.now ++ back.now))) }
    ensures err { OnErr result (out.new.items ≡ out.old.items) }
{
    out.reserve(head.len() + front.len() + back.len())?;
    out.extend_from_slice(head).unwrap();
    out.extend_from_slice(front).unwrap();
    out.extend_from_slice(back).unwrap();
    Ok(())
}

/// One value more: its tag, its length octets and its contents octets, which are those of `front` and of `back`.
#[tactic(auto, unfolding(crate::specs::Builders::value, crate::specs::Builders::length_octets))]
fn put(out: &mut Vec<u8>, tag: u8, front: &[u8], back: &[u8]) -> Result<(), AllocError>
    requires { length front.now + length back.now < 2 ^ 32 }
    ensures ok { OnOk result (out.new.items ≡ out.old.items ++ value tag (front.now ++ back.now)) }
    ensures err { OnErr result (out.new.items ≡ out.old.items) }
{
    let n = (front.len() + back.len()) as u32;
    let low = (n % 256) as u8;
    if n < 128 {
        append(out, &[tag, n as u8], front, back)
    } else if n < 256 {
        append(out, &[tag, 129, n as u8], front, back)
    } else if n < 65536 {
        append(out, &[tag, 130, (n / 256) as u8, low], front, back)
    } else if n < 16777216 {
        let middle = (n / 256 % 256) as u8;
        append(
            out,
            &[tag, 131, (n / 65536) as u8, middle, low],
            front,
            back,
        )
    } else {
        let high = (n / 65536 % 256) as u8;
        let middle = (n / 256 % 256) as u8;
        append(
            out,
            &[tag, 132, (n / 16777216) as u8, high, middle, low],
            front,
            back,
        )
    }
}

/// An INTEGER more, of the octets of a number without zeros in front.
fn put_signed(out: &mut Vec<u8>, octets: &[u8]) -> Result<(), AllocError>
    requires { length octets.now + 1 < 2 ^ 32 }
    ensures ok { OnOk result (out.new.items ≡ out.old.items ++ value 2 (signed octets.now)) }
    ensures err { OnErr result (out.new.items ≡ out.old.items) }
{
    match octets {
        [] => put(out, 2, &[0], octets),
        [first, ..] => {
            if *first < 128 {
                put(out, 2, &[], octets)
            } else {
                put(out, 2, &[0], octets)
            }
        }
    }
}

/// Writes a value with this tag after the octets: its contents octets are those of `front` and of `back` behind
/// them. The octets grow at most once.
///
/// # Errors
///
/// Only where there is no memory, and then the octets are as they were.
pub fn put_value(octets: &mut Vec<u8>, tag: u8, front: &[u8], back: &[u8]) -> Result<(), AllocError>
    requires tag { tag % 32 ≢ 31 }
    requires fits { length front.now + length back.now < 2 ^ 32 }
    ensures ok { OnOk result (octets.new.items ≡ octets.old.items ++ value tag (front.now ++ back.now)) }
    ensures err { OnErr result (octets.new.items ≡ octets.old.items) }
{
    put(octets, tag, front, back)
}

/// Writes an INTEGER after the octets (X.690, 8.3): the number without a sign that `bytes` spell, the highest
/// first, in the fewest octets. No bytes spell 0.
///
/// # Errors
///
/// Only where there is no memory, and then the octets are as they were.
pub fn put_integer(octets: &mut Vec<u8>, bytes: &[u8]) -> Result<(), AllocError>
    requires { length bytes.now + 1 < 2 ^ 32 }
    ensures ok { OnOk result (octets.new.items ≡ octets.old.items ++ value 2 (integer_of bytes.now)) }
    ensures err { OnErr result (octets.new.items ≡ octets.old.items) }
{
    put_signed(octets, without_zeros(bytes))
}

/// A begun value: its tag, and the octets that were before it.
#[derive(Drop)]
struct Level {
    tag: u8,
    before: Vec<u8>,
}

impl Model for Level {
    ghost Value = { ℕ × List ℕ };

    ghost view = { λ l. (l.tag, l.before.items) };
}

impl Level {
    /// Writes the value that ends after the octets before it.
    fn put_after(&mut self, body: &[u8]) -> Result<(), AllocError>
        requires { length body.now < 2 ^ 32 }
        ensures ok { OnOk result (self.new ≡ (self.old.0, self.old.1 ++ value self.old.0 body.now)) }
        ensures err { OnErr result (self.new ≡ self.old) }
    {
        put(&mut self.before, self.tag, &[], body)
    }

    fn into_octets(self) -> Vec<u8>
        ensures { result.items ≡ self.1 }
    {
        let Level { tag: _tag, before } = self;
        before
    }
}

/// The innermost begun value ends.
fn close_level(levels: &mut Vec<Level>, octets: &mut Vec<u8>) -> Result<(), AllocError>
    requires begun { 0 < vec_len levels.old }
    requires fits { length octets.old.items < 2 ^ 32 }
    ensures ok { OnOk result (Closes levels.old.items levels.new.items octets.old.items octets.new.items) }
    ensures err { OnErr result ((levels.new.items ≡ levels.old.items) × (octets.new.items ≡ octets.old.items)) }
{
    match levels.pop() {
        None => unreachable!(),
        Some(level) => {
            let mut level = level;
            match level.put_after(octets) {
                Ok(()) => {
                    *octets = level.into_octets();
                    Ok(())
                }
                Err(e) => {
                    levels.push(level).unwrap();
                    Err(e)
                }
            }
        }
    }
}

/// One level more: what is written so far stands before it.
fn open_level(
    levels: &mut Vec<Level>,
    octets: &mut Vec<u8>,
    alloc: Global,
    tag: u8,
) -> Result<(), AllocError>
    ensures ok { OnOk result ((levels.new.items ≡ levels.old.items ++ (tag, octets.old.items) ∷ []) × (octets.new.items ≡ [])) }
    ensures err { OnErr result ((levels.new.items ≡ levels.old.items) × (octets.new.items ≡ octets.old.items)) }
{
    levels.reserve(1)?;
    let before = std::mem::replace(octets, Vec::new(alloc));
    levels.push(Level { tag, before }).unwrap();
    Ok(())
}

/// Writes values, one behind and inside another.
///
/// Contracts see it as a `Building`: the values that are begun and not ended, the octets of the
/// innermost of them (of the whole, where none is begun), and `len`. A call that finds no memory
/// leaves it as it was. A tag is an identifier octet of a low tag number (X.690, 8.1.2.3), so its
/// low five bits are not all set.
#[derive(Drop)]
pub struct Writer {
    levels: Vec<Level>,
    octets: Vec<u8>,
    len: u64,
}

impl Model for Writer {
    ghost Value = { Building };

    ghost view = { λ w. record { outer = reverse w.levels.items; octets = w.octets.items; len = w.len } };

    ghost invariant = { λ w. (held_octets (reverse w.levels.items) + length w.octets.items ≤ w.len) × (w.len < 2 ^ 31) };
}

impl Writer {
    /// A writer that has written nothing. It takes no memory.
    pub fn new(alloc: Global) -> Writer
        ensures { result ≡ record { outer = []; octets = []; len = 0 } }
    {
        Writer {
            levels: Vec::new(alloc),
            octets: Vec::new(alloc),
            len: 0,
        }
    }

    /// The sum of the octets that were handed in, and of eight for each value that was written or
    /// begun. What is written is never longer.
    pub fn len(&self) -> u64
        ensures { result ≡ self.now.len }
    {
        self.len
    }

    /// Begins a value with this tag. What is written until its `end` is its contents.
    ///
    /// # Errors
    ///
    /// Only where there is no memory.
    pub fn begin(&mut self, alloc: Global, tag: u8) -> Result<(), AllocError>
        requires tag { tag % 32 ≢ 31 }
        requires fits { self.old.len + 8 < 2 ^ 31 }
        ensures ok { OnOk result (self.new ≡ value_begun tag self.old) }
        ensures err { OnErr result (self.new ≡ self.old) }
    {
        open_level(&mut self.levels, &mut self.octets, alloc, tag)?;
        self.len += 8;
        Ok(())
    }

    /// Ends the value that was begun last.
    ///
    /// # Errors
    ///
    /// Only where there is no memory.
    pub fn end(&mut self, _alloc: Global) -> Result<(), AllocError>
        requires { 0 < length self.old.outer }
        ensures ok { OnOk result (self.new ≡ value_closed self.old) }
        ensures err { OnErr result (self.new ≡ self.old) }
    {
        close_level(&mut self.levels, &mut self.octets)?;
        Ok(())
    }

    /// Writes an INTEGER (X.690, 8.3): the number without a sign that the octets spell, the highest
    /// first, in the fewest octets. No octets spell 0.
    ///
    /// # Errors
    ///
    /// Only where there is no memory.
    pub fn integer(&mut self, _alloc: Global, bytes: &[u8]) -> Result<(), AllocError>
        requires { self.old.len + length bytes.now + 8 < 2 ^ 31 }
        ensures ok { OnOk result (self.new ≡ value_added 2 (integer_of bytes.now) (length bytes.now) self.old) }
        ensures err { OnErr result (self.new ≡ self.old) }
    {
        put_integer(&mut self.octets, bytes)?;
        self.len += bytes.len() as u64 + 8;
        Ok(())
    }

    /// Writes an OBJECT IDENTIFIER with these contents octets (X.690, 8.19).
    ///
    /// # Errors
    ///
    /// Only where there is no memory.
    pub fn oid(&mut self, alloc: Global, body: &[u8]) -> Result<(), AllocError>
        requires { self.old.len + length body.now + 8 < 2 ^ 31 }
        ensures ok { OnOk result (self.new ≡ value_added 6 body.now (length body.now) self.old) }
        ensures err { OnErr result (self.new ≡ self.old) }
    {
        self.octets(alloc, 6, body)
    }

    /// Writes a BIT STRING of these octets, with no unused bits (X.690, 8.6).
    ///
    /// # Errors
    ///
    /// Only where there is no memory.
    pub fn bits(&mut self, _alloc: Global, bytes: &[u8]) -> Result<(), AllocError>
        requires { self.old.len + length bytes.now + 8 < 2 ^ 31 }
        ensures ok { OnOk result (self.new ≡ value_added 3 (0 ∷ bytes.now) (length bytes.now) self.old) }
        ensures err { OnErr result (self.new ≡ self.old) }
    {
        put(&mut self.octets, 3, &[0], bytes)?;
        self.len += bytes.len() as u64 + 8;
        Ok(())
    }

    /// Writes a value with this tag and these contents octets.
    ///
    /// # Errors
    ///
    /// Only where there is no memory.
    pub fn octets(&mut self, _alloc: Global, tag: u8, bytes: &[u8]) -> Result<(), AllocError>
        requires tag { tag % 32 ≢ 31 }
        requires fits { self.old.len + length bytes.now + 8 < 2 ^ 31 }
        ensures ok { OnOk result (self.new ≡ value_added tag bytes.now (length bytes.now) self.old) }
        ensures err { OnErr result (self.new ≡ self.old) }
    {
        put(&mut self.octets, tag, &[], bytes)?;
        self.len += bytes.len() as u64 + 8;
        Ok(())
    }

    /// The octets that were written. Every begun value is ended. It takes no memory.
    pub fn finish(self) -> Vec<u8>
        requires { self.outer ≡ [] }
        ensures { result.items ≡ self.octets }
    {
        let Writer {
            levels: _levels,
            octets,
            len: _len,
        } = self;
        octets
    }
}

/// A law: the octets of a value are read again as that value, whatever comes after them.
pub fn written_is_read()
    ensures { (tag : ℕ) (body rest : List ℕ) → tag % 32 ≢ 31 → length body < 2 ^ 32 →
        BeginsWith (value tag body ++ rest) tag body rest }
{}

/// A law: what `Writer::integer` writes spells the number that it was given, in the fewest octets
/// (X.690, 8.3.2).
pub fn number_is_shortest()
    ensures { (bytes : List ℕ) → IsIntegerOf (integer_of bytes) (number_after 0 bytes) }
{}
