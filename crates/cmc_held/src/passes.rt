//! The passes that are open.
ghost use Rattle.std.specs.BTreeMap.{IsOrdered};
ghost use Rattle.std.specs.List.{list_any};
ghost use Rattle.std.specs.Map.{values_of};
ghost use Rattle.std.specs.Option.{option_copied};
ghost use Rattle.std.specs.Ordering.{nat_cmp};
ghost use Rattle.std.specs.Prelude.{◌≡◌, ◌==◌, ◌↔◌, ℕ, IsTrue, None, OnErr, OnOk, Some, false, if◌then◌else◌, option_map};
ghost use Rattle.cmc_rules.specs.Passes.{is_pass_of, unless_of, with_stage};
ghost use Rattle.cmc_held.specs.Open.{IsWorkedOn, pass_at};

use cmc_meta::Key;
use cmc_objects::Role;
use cmc_rules::{OpenPass, Stage};
use std::alloc::{AllocError, Global};
use std::collections::BTreeMap;
use std::marker::Model;

/// The open passes under their numbers; contracts see the list of both in order of number.
pub struct Passes {
    /// A pass stands under its number from its begin to its end, or to the stop of its role.
    map: BTreeMap<u64, OpenPass>,
}

impl Drop for Passes {
    fn drop(self) {
        let Passes { map: _map } = self;
    }
}

impl Model for Passes {
    ghost use Rattle.std.specs.Prelude.{ℕ, List};
    ghost use Rattle.cmc_rules.specs.declared.progress.OpenPass.{OpenPass};

    ghost Value = { List (ℕ × OpenPass) };

    ghost view = { λ p. p.map.entries };
}

impl Passes {
    /// No pass. It takes no memory.
    #[tactic(auto, unfolding(crate::specs::Open::pass_at))]
    pub fn new(alloc: Global) -> Passes
        ensures { (n : ℕ) → pass_at result n ≡ None }
    {
        Passes {
            map: BTreeMap::new(alloc),
        }
    }

    /// The pass of this number; `None` exactly where it is not open.
    #[tactic(auto, unfolding(crate::specs::Open::pass_at))]
    pub fn get(&self, number: u64) -> Option<&OpenPass>
        ensures { option_copied result ≡ pass_at self.now number }
    {
        self.map.get(&number)
    }

    /// The map that keeps the passes, to go over them in order of number.
    pub fn by_number(&self) -> &BTreeMap<u64, OpenPass>
        ensures { result.now.entries ≡ self.now }
    {
        &self.map
    }

    /// Opens the pass under this number, and changes no other. An error is one of memory, and
    /// leaves all passes as they were.
    #[tactic(auto, unfolding(crate::specs::Open::pass_at))]
    pub fn open(&mut self, number: u64, pass: OpenPass) -> Result<(), AllocError>
        ensures ok { OnOk result ((n : ℕ) → pass_at self.new n ≡ (if n == number then Some pass else pass_at self.old n)) }
        ensures err { OnErr result (self.new ≡ self.old) }
    {
        self.map.insert(number, pass)?;
        Ok(())
    }

    /// The pass of this number, where it is open, has come to the stage. It takes no memory.
    #[tactic(auto, unfolding(crate::specs::Open::pass_at))]
    pub fn advance(&mut self, number: u64, stage: Stage)
        ensures { (n : ℕ) → pass_at self.new n ≡ (if n == number then option_map (with_stage stage) (pass_at self.old n) else pass_at self.old n) }
    {
        if let Some(pass) = self.map.get_mut(&number) {
            put_stage(pass, stage);
        }
    }

    /// The pass of this number is no longer open. It takes no memory.
    #[tactic(auto, unfolding(crate::specs::Open::pass_at))]
    pub fn close(&mut self, number: u64)
        ensures { (n : ℕ) → pass_at self.new n ≡ (if n == number then None else pass_at self.old n) }
    {
        let _ = self.map.remove(&number);
    }

    /// No pass of the role is open any more. It takes no memory.
    #[tactic(auto, unfolding(crate::specs::Open::pass_at))]
    pub fn stop(&mut self, role: Role)
        ensures { (n : ℕ) → pass_at self.new n ≡ unless_of role (pass_at self.old n) }
    {
        self.map
            .retain(|_number, pass| role.rank() != pass.role.rank());
    }

    /// Whether no pass is open.
    #[tactic(auto, unfolding(crate::specs::Open::pass_at))]
    pub fn is_empty(&self) -> bool
        ensures { IsTrue result ↔ ((n : ℕ) → pass_at self.now n ≡ None) }
    {
        self.map.is_empty()
    }

    /// Whether a pass of the role on the key is open.
    #[tactic(auto, unfolding(crate::specs::Open::pass_at))]
    pub fn is_on(&self, role: Role, key: &Key) -> bool
        ensures some { IsTrue result ↔ IsWorkedOn self.now role key.now }
        ensures none { result ≡ false → (n : ℕ) → is_pass_of role key.now (pass_at self.now n) ≡ false }
    {
        has_pass_of(&self.map, role, key)
    }
}

/// A stage may own a question and its value, so it is exchanged in a function of its own.
fn put_stage(pass: &mut OpenPass, stage: Stage)
    ensures { pass.new ≡ with_stage stage pass.old }
{
    pass.stage = stage;
}

fn has_pass_of(map: &BTreeMap<u64, OpenPass>, role: Role, key: &Key) -> bool
    ensures test { result ≡ list_any (λ p. is_pass_of role key.now (Some p)) (values_of map.now.entries) }
    ensures ordered { IsOrdered nat_cmp map.now }
{
    map.values().any(|pass| is_of(pass, role, key))
}

fn is_of(pass: &OpenPass, role: Role, key: &Key) -> bool
    ensures { result ≡ is_pass_of role key.now (Some pass.now) }
{
    pass.role.rank() == role.rank() && pass.key == *key
}
