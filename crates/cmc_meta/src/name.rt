ghost use Rattle.std.proofs.Common.{rules};
ghost use Rattle.std.specs.Arc.{arc_value};
ghost use Rattle.std.specs.Cmp.{partial_order_from_own_ties};
ghost use Rattle.std.specs.Cmp.Lexicographic.{slice_cmp, pointwise};
ghost use Rattle.std.specs.Cmp.Rules.{comparing, hashing};
ghost use Rattle.std.specs.List.{list_all};
ghost use Rattle.std.specs.Ordering.{nat_cmp, as_partial_cmp};
ghost use Rattle.std.specs.Prelude.{◌≡◌, ◌↔◌, ◌<◌, ℕ, true, false, IsTrue, IfOk, IsErrOf, nat_eq, slice_index};
ghost use Rattle.std.specs.String.{string_bytes};
ghost use Rattle.cmc_meta.specs.Names.{is_alphanumeric, is_label_byte, is_label, has_labels, is_subdomain, leading, are_short, hashed};

use crate::items::Item;
use std::alloc::{AllocError, Global};
use std::cmp::Ordering;
use std::hash::{Hash, Hasher};
use std::marker::Model;
use std::sync::Arc;

/// The name of an object or of a namespace: a DNS subdomain of 1 to 253 bytes, as RFC 1123 has it and
/// the Kubernetes API conventions ask of object names. Contracts see the list of its bytes. Copies
/// share one text.
pub struct Name {
    /// The first eight bytes as a number: it decides most comparisons without a look at the text.
    first: u64,
    text: Arc<String, Global>,
}

impl Drop for Name {
    fn drop(self) {
        let Name {
            first: _first,
            text: _text,
        } = self;
    }
}

impl Model for Name {
    ghost use Rattle.std.specs.Arc.{arc_value};
    ghost use Rattle.std.specs.String.{string_bytes};
    ghost use Rattle.std.specs.Prelude.{List, ℕ};
    ghost use Rattle.cmc_meta.specs.Names.{IsName};

    ghost Value = { List ℕ };

    ghost view = { λ n. string_bytes (arc_value n.text) };

    ghost invariant = { λ n. IsName n.first (string_bytes (arc_value n.text)) };
}

/// Why a text gave no `Name`.
#[derive(Clone, Copy, PartialEq, Eq)]
pub enum BadName {
    /// The text is no DNS subdomain.
    NotSubdomain,
    /// Memory ran out.
    NoMemory,
}

impl From<AllocError> for BadName {
    ghost use Rattle.cmc_meta.specs.declared.name.BadName.TheVariants.{NoMemory};

    ghost from_gives = { λ _ e. e ≡ NoMemory };

    fn from(_: AllocError) -> Self {
        BadName::NoMemory
    }
}

fn is_alphanumeric_byte(byte: u8) -> bool
    ensures { result ≡ is_alphanumeric byte }
{
    byte.is_ascii_lowercase() || byte.is_ascii_digit()
}

fn is_inner_byte(byte: u8) -> bool
    ensures { result ≡ is_label_byte byte }
{
    is_alphanumeric_byte(byte) || byte == b'-'
}

fn are_inner_bytes(label: &[u8]) -> bool
    ensures { result ≡ list_all is_label_byte label.now }
{
    label.iter().all(|byte| is_inner_byte(*byte))
}

#[tactic(auto, unfolding(crate::specs::Names::is_label))]
fn is_one_label(label: &[u8]) -> bool
    ensures { result ≡ is_label label.now }
{
    if label.is_empty() {
        return false;
    }
    is_alphanumeric_byte(label[0])
        && is_alphanumeric_byte(label[label.len() - 1])
        && are_inner_bytes(label)
}

fn all_labels(bytes: &[u8]) -> bool
    ensures { result ≡ has_labels bytes.now }
{
    let mut start = 0;
    for (i, byte) in bytes.iter().enumerate() {
        if *byte == b'.' {
            if !is_one_label(&bytes[start..i]) {
                return false;
            }
            start = i + 1;
        }
    }
    is_one_label(&bytes[start..])
}

/// The byte at the place, and 0 after the last one.
fn byte_at(bytes: &[u8], place: usize) -> u8
    ensures { result ≡ slice_index bytes.now place }
{
    if place < bytes.len() { bytes[place] } else { 0 }
}

/// The first eight bytes as a number, the first one counting most; 0 for each that is not there.
fn leading_bytes(bytes: &[u8]) -> u64
    ensures number { result ≡ leading 8 bytes.now }
    ensures bytes { (i : ℕ) → slice_index bytes.now i < 256 }
{
    let mut number = 0;
    for place in 0..8 {
        number = number * 256 + u64::from(byte_at(bytes, place));
    }
    number
}

/// The text, made to be shared.
fn shared_text(alloc: Global, text: &str) -> Result<Arc<String, Global>, AllocError>
    ensures { IfOk result (λ t. string_bytes (arc_value t) ≡ text.now) }
{
    Ok(Arc::new(alloc, String::from_str(alloc, text)?)?)
}

impl Name {
    /// The name that `text` spells.
    ///
    /// # Errors
    ///
    /// `NotSubdomain` exactly where the text is not one to 253 bytes of labels joined by single dots,
    /// each label of lower-case letters, digits and `-`, with a letter or digit at both ends.
    #[tactic(auto, unfolding(crate::specs::Names::IsName))]
    pub fn read(alloc: Global, text: &str) -> Result<Name, BadName>
        ensures read { IfOk result (λ n. n ≡ text.now) }
        ensures form { IfOk result (λ _. is_subdomain text.now ≡ true) }
        ensures refused { IsErrOf result BadName.NotSubdomain → is_subdomain text.now ≡ false }
        ensures told { is_subdomain text.now ≡ false → IsErrOf result BadName.NotSubdomain }
    {
        if text.len() > 253 || !all_labels(text.as_bytes()) {
            return Err(BadName::NotSubdomain);
        }
        Ok(Name {
            first: leading_bytes(text.as_bytes()),
            text: shared_text(alloc, text)?,
        })
    }

    /// The same bytes, as a `str`.
    #[tactic(auto, unfolding(crate::specs::Names::IsName))]
    pub fn as_str(&self) -> &str
        ensures value { result.now ≡ self.now }
        ensures form { is_subdomain self.now ≡ true }
    {
        self.text.as_str()
    }

    /// The bytes.
    pub fn as_slice(&self) -> &[u8]
        ensures { result.now ≡ self.now }
    {
        self.text.as_bytes()
    }

    /// An equal name, which shares the text. An error is one of memory.
    #[tactic(auto, unfolding(crate::specs::Names::IsName))]
    pub fn copy(&self) -> Result<Name, AllocError>
        ensures { IfOk result (λ n. n ≡ self.now) }
    {
        Ok(Name {
            first: self.first,
            text: Arc::try_clone(&self.text)?,
        })
    }

    /// Whether both names have the same bytes.
    #[tactic(auto, unfolding(crate::specs::Names::IsName))]
    pub fn same(&self, other: &Name) -> bool
        ensures { IsTrue result ↔ (self.now ≡ other.now) }
    {
        self.first == other.first
            && (self.is_short_as(other) || self.text.as_str() == other.text.as_str())
    }

    /// Whether both texts have one length of at most eight bytes, so that the numbers hold all of them.
    fn is_short_as(&self, other: &Name) -> bool
        ensures { result ≡ are_short self.now other.now }
    {
        self.text.len() <= 8 && self.text.len() == other.text.len()
    }

    /// The order of the texts. Most are told apart by their numbers alone.
    #[tactic(auto, unfolding(crate::specs::Names::IsName))]
    fn compare(&self, other: &Name) -> Ordering
        ensures { result ≡ slice_cmp nat_cmp self.now other.now }
    {
        match self.first.cmp(&other.first) {
            Ordering::Less => Ordering::Less,
            Ordering::Greater => Ordering::Greater,
            Ordering::Equal if self.is_short_as(other) => Ordering::Equal,
            Ordering::Equal => self.text.as_str().cmp(other.text.as_str()),
        }
    }
}

impl Item for Name {
    fn copy(&self) -> Result<Name, AllocError> {
        Name::copy(self)
    }

    fn same(&self, other: &Name) -> bool {
        Name::same(self, other)
    }
}

impl PartialEq for Name {
    ghost eq = { pointwise nat_eq };

    ghost laws = { Prim.search (comparing, rules) };

    fn eq(&self, other: &Name) -> bool {
        self.same(other)
    }
}

impl Eq for Name {
    ghost laws = { Prim.search (comparing, rules) };
}

impl PartialOrd for Name {
    ghost partial_cmp = { as_partial_cmp (slice_cmp nat_cmp) };

    ghost laws = { partial_order_from_own_ties (Prim.search (comparing, rules)) (Prim.search (comparing, rules)) };

    fn partial_cmp(&self, other: &Name) -> Option<Ordering> {
        Some(self.cmp(other))
    }
}

impl Ord for Name {
    ghost cmp = { slice_cmp nat_cmp };

    ghost total = { Prim.search (comparing, rules) };

    ghost matches_partial_cmp = { Prim.search (comparing, rules) };

    ghost matches_eq = { Prim.search (comparing, rules) };

    fn cmp(&self, other: &Name) -> Ordering {
        self.compare(other)
    }
}

impl Hash for Name {
    ghost hash_input = { hashed };

    ghost respects_eq = { Prim.search (hashing, rules) };

    #[tactic(auto, unfolding(crate::specs::Names::IsName))]
    fn hash<H: Hasher>(&self, state: &mut H) {
        if self.text.len() <= 8 {
            state.write_u64(self.first);
        } else {
            self.text.as_str().hash(state);
        }
    }
}
