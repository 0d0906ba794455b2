// JSON without floats, as all that is printed is.
ghost use Rattle.std.specs.Prelude.{◌≡◌, false};
ghost use Rattle.serde_json.specs.View.{view, items_view, members_view};
ghost use Rattle.serde_json.specs.Written.{has_float, items_have_float, members_have_float};

use serde_json::{Map, Value};
use std::alloc::{AllocError, Global};

/// A JSON value in which no number is a float; so its text is settled.
#[derive(Drop)]
pub struct Tree {
    value: Value,
    ghost none: { has_float (view value) ≡ false },
}

/// The members of a JSON object in which no number is a float, in byte order of their names.
#[derive(Drop)]
pub struct Members {
    map: Map<String, Value>,
    ghost none: { members_have_float (members_view map.entries) ≡ false },
}

/// A list of JSON values in which no number is a float.
#[derive(Drop)]
pub struct Trees {
    list: Vec<Value>,
    ghost none: { items_have_float (items_view list.items) ≡ false },
}

impl Tree {
    ghost use Rattle.std.specs.Prelude.{IfOk, string_bytes};
    ghost use Rattle.serde_json.specs.Data.{string, boolean, array, object};
    ghost use Rattle.serde_json.specs.View.{items_of};
    ghost use Rattle.cmc_print.specs.Trees.{natural, line_of, data_of, members_of, items_in};

    /// A text.
    pub fn text(alloc: Global, text: &str) -> Result<Tree, AllocError>
        ensures { IfOk result (λ t. data_of t ≡ string text.now) }
    {
        Ok(Tree {
            value: Value::try_from_str(alloc, text)?,
        })
    }

    /// A whole number.
    pub fn count(number: u64) -> Tree
        ensures { data_of result ≡ natural number }
    {
        Tree {
            value: Value::from(number),
        }
    }

    /// A truth value.
    pub fn flag(flag: bool) -> Tree
        ensures { data_of result ≡ boolean flag }
    {
        Tree {
            value: Value::from(flag),
        }
    }

    /// An object with these members.
    pub fn object(members: Members) -> Tree
        ensures { data_of result ≡ object (members_of members) }
    {
        Tree {
            value: Value::Object(members.map),
        }
    }

    /// A list of these values.
    pub fn list(trees: Trees) -> Tree
        ensures { data_of result ≡ array (items_of (items_in trees)) }
    {
        Tree {
            value: Value::Array(trees.list),
        }
    }

    /// The JSON value.
    pub fn into_value(self) -> Value
        ensures value { view result ≡ data_of self }
        ensures none { has_float (view result) ≡ false }
    {
        self.value
    }

    /// The value as one line: compact JSON and a line feed.
    #[tactic(auto, unfolding(crate::specs::Trees::line_of))]
    pub fn line(&self, alloc: Global) -> Result<String, AllocError>
        ensures { IfOk result (λ s. string_bytes s ≡ line_of (data_of self.now)) }
    {
        let mut line = self.value.to_string(alloc)?;
        line.push_str("\n")?;
        Ok(line)
    }
}

impl Members {
    ghost use Rattle.std.specs.Prelude.{◌≢◌, MatchBool, OnOk, OnErr};
    ghost use Rattle.serde_json.specs.Data.{no_members, put};
    ghost use Rattle.cmc_print.specs.Trees.{data_of, members_of};

    /// No members. It takes no memory.
    pub fn new(alloc: Global) -> Members
        ensures { members_of result ≡ no_members }
    {
        Members {
            map: Map::new(alloc),
        }
    }

    /// Whether there are none.
    pub fn is_empty(&self) -> bool
        ensures { MatchBool result (members_of self.now ≡ no_members) (members_of self.now ≢ no_members) }
    {
        self.map.is_empty()
    }

    /// Puts the value under the name, in place of an older one.
    #[tactic(auto, using(crate::proofs::FloatFree::put_has_none))]
    pub fn put(&mut self, alloc: Global, name: &str, tree: Tree) -> Result<(), AllocError>
        ensures ok { OnOk result (members_of self.new ≡ put name.now (data_of tree) (members_of self.old)) }
        ensures err { OnErr result (members_of self.new ≡ members_of self.old) }
    {
        serde_json::put(&mut self.map, alloc, name, tree.value)
    }
}

impl Trees {
    ghost use Rattle.std.specs.Prelude.{[], ◌∷◌, ◌++◌, OnOk, OnErr};
    ghost use Rattle.cmc_print.specs.Trees.{data_of, items_in};

    /// No values. It takes no memory.
    pub fn new(alloc: Global) -> Trees
        ensures { items_in result ≡ [] }
    {
        Trees {
            list: Vec::new(alloc),
        }
    }

    /// Adds a value at the end.
    #[tactic(auto, using(crate::proofs::FloatFree::push_has_none))]
    pub fn push(&mut self, tree: Tree) -> Result<(), AllocError>
        ensures ok { OnOk result (items_in self.new ≡ items_in self.old ++ data_of tree ∷ []) }
        ensures err { OnErr result (items_in self.new ≡ items_in self.old) }
    {
        serde_json::push(&mut self.list, tree.value)
    }
}
