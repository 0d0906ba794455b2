ghost use Rattle.std.proofs.Common.{rules};
ghost use Rattle.std.specs.Cmp.Lexicographic.{pointwise};
ghost use Rattle.std.specs.Cmp.Rules.{comparing};
ghost use Rattle.std.specs.Option.{option_copied};
ghost use Rattle.std.specs.Prelude.{◌≡◌, ◌↔◌, ◌&&◌, [], IsTrue, IfOk, OnOk, OnErr, nat_eq};
ghost use Rattle.cmc_meta.specs.HeldPairs.{pairs_of};
ghost use Rattle.cmc_meta.specs.PairLists.{text_by_key, with_text, without_text};

use crate::text::Text;
use std::alloc::{AllocError, Global};
use std::collections::BTreeMap;
use std::marker::Model;
use std::sync::Arc;

/// How pairs are held: alone while they are put together, and by all copies together once there are copies.
enum Held {
    Own(BTreeMap<Text, Text>),
    Shared(Arc<BTreeMap<Text, Text>, Global>),
}

impl Held {
    fn map(&self) -> &BTreeMap<Text, Text>
        ensures { result.now.entries ≡ pairs_of self.now }
    {
        match self {
            Held::Own(map) => map,
            Held::Shared(map) => map.as_ref(),
        }
    }
}

impl Drop for Held {
    fn drop(self) {
        match self {
            Held::Own(_map) => {}
            Held::Shared(_map) => {}
        }
    }
}

/// Texts under texts, as labels and annotations are; contracts see the pairs in order of key. Copies share their map
/// until one of them is changed.
pub struct Pairs {
    alloc: Global,
    held: Held,
}

impl Drop for Pairs {
    fn drop(self) {
        let Pairs {
            alloc: _alloc,
            held: _held,
        } = self;
    }
}

impl Model for Pairs {
    ghost use Rattle.std.specs.Prelude.{List, ℕ};
    ghost use Rattle.cmc_meta.specs.HeldPairs.{pairs_of};

    ghost Value = { List (List ℕ × List ℕ) };

    ghost view = { λ p. pairs_of p.held };
}

impl Pairs {
    /// No pairs. It takes no memory.
    pub fn new(alloc: Global) -> Pairs
        ensures { result ≡ [] }
    {
        Pairs {
            alloc,
            held: Held::Own(BTreeMap::new(alloc)),
        }
    }

    /// The text under the key; `None` exactly where no pair has it.
    pub fn get(&self, key: &Text) -> Option<&Text>
        ensures { option_copied result ≡ text_by_key self.now key.now }
    {
        self.as_map().get(key)
    }

    /// Puts the text under the key, in place of an older one.
    pub fn set(&mut self, key: Text, text: Text) -> Result<(), AllocError>
        ensures ok { OnOk result (self.new ≡ with_text self.old key text) }
        ensures err { OnErr result (self.new ≡ self.old) }
    {
        if let Held::Own(map) = &mut self.held {
            return put(map, key, text);
        }
        self.held = Held::Own(with_one(self.held.map(), key, text)?);
        Ok(())
    }

    /// Takes the pair of the key away; where no pair has it, nothing changes.
    pub fn remove(&mut self, key: &Text) -> Result<(), AllocError>
        ensures ok { OnOk result (self.new ≡ without_text self.old key.now) }
        ensures err { OnErr result (self.new ≡ self.old) }
    {
        if let Held::Own(map) = &mut self.held {
            let _ = map.remove(key);
            return Ok(());
        }
        self.held = Held::Own(without_one(self.held.map(), key)?);
        Ok(())
    }

    /// The map that keeps the pairs, to go over them in order of key.
    pub fn as_map(&self) -> &BTreeMap<Text, Text>
        ensures { result.now.entries ≡ self.now }
    {
        self.held.map()
    }

    /// Equal pairs, which share their map with further copies.
    pub fn copy(&self) -> Result<Pairs, AllocError>
        ensures { IfOk result (λ p. p ≡ self.now) }
    {
        let held = match &self.held {
            Held::Own(map) => shared_or_none(self.alloc, map)?,
            Held::Shared(map) => Held::Shared(Arc::try_clone(map)?),
        };
        Ok(Pairs {
            alloc: self.alloc,
            held,
        })
    }

    /// Whether both have the same pairs.
    pub fn same(&self, other: &Pairs) -> bool
        ensures { IsTrue result ↔ (self.now ≡ other.now) }
    {
        *self == *other
    }
}

fn put(map: &mut BTreeMap<Text, Text>, key: Text, text: Text) -> Result<(), AllocError>
    ensures ok { OnOk result (map.new.entries ≡ with_text map.old.entries key text) }
    ensures err { OnErr result (map.new.entries ≡ map.old.entries) }
{
    map.insert(key, text)?;
    Ok(())
}

/// A map of its own, with this pair too.
fn with_one(
    map: &BTreeMap<Text, Text>,
    key: Text,
    text: Text,
) -> Result<BTreeMap<Text, Text>, AllocError>
    ensures { IfOk result (λ own. own.entries ≡ with_text map.now.entries key text) }
{
    let mut own = map.clone()?;
    put(&mut own, key, text)?;
    Ok(own)
}

/// A map of its own, without the pair of the key.
fn without_one(map: &BTreeMap<Text, Text>, key: &Text) -> Result<BTreeMap<Text, Text>, AllocError>
    ensures { IfOk result (λ own. own.entries ≡ without_text map.now.entries key.now) }
{
    let mut own = map.clone()?;
    let _ = own.remove(key);
    Ok(own)
}

/// The pairs as copies share them. No pairs are held without memory.
fn shared_or_none(alloc: Global, map: &BTreeMap<Text, Text>) -> Result<Held, AllocError>
    ensures { IfOk result (λ held. pairs_of held ≡ map.now.entries) }
{
    if map.is_empty() {
        return Ok(Held::Own(BTreeMap::new(alloc)));
    }
    Ok(Held::Shared(Arc::new(alloc, map.clone()?)?))
}

impl PartialEq for Pairs {
    ghost eq = { pointwise (λ a b. pointwise nat_eq a.0 b.0 && pointwise nat_eq a.1 b.1) };

    ghost laws = { Prim.search (comparing, rules) };

    fn eq(&self, other: &Pairs) -> bool {
        *self.as_map() == *other.as_map()
    }
}

impl Eq for Pairs {
    ghost laws = { Prim.search (comparing, rules) };
}
