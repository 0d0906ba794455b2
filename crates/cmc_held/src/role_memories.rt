//! What each role remembers of each key since it started.
ghost use Rattle.std.specs.Option.{option_copied};
ghost use Rattle.std.specs.Prelude.{◌≡◌, ◌&&◌, IfOk, OnOk, if◌then◌else◌, true};
ghost use Rattle.cmc_meta.specs.declared.key.Key.{Key as KeyValue};
ghost use Rattle.cmc_meta.specs.Keys.{key_eq};
ghost use Rattle.cmc_objects.specs.declared.role.Role.{Role as RoleValue};
ghost use Rattle.cmc_model.specs.Histories.{role_eq};
ghost use Rattle.cmc_rules.specs.Memory.{no_past, with_begin, with_ending, with_own};
ghost use Rattle.cmc_held.specs.Remembered.{is_noted, has_past_row, memory_at, past_at, past_or_new, KeepsNoted, KeepsReady, KeepsReadyOfOthers};

use crate::role_states::put_at_kind;
use cmc_meta::{Key, Kind};
use cmc_objects::{Positions, Role, Shared};
use cmc_pass::Views;
use cmc_rules::{Ending, LastPass, Past};
use cmc_seed::HashSeed;
use std::alloc::{AllocError, Global};
use std::collections::HashMap;
use std::marker::Model;

/// What one role remembers; contracts see the list of the keys, in no order, with what is kept of each. A key is
/// only ever looked for by itself, and nobody asks for an order of keys: so they are hashed, and not sorted.
#[derive(Drop)]
struct RoleMemory {
    map: HashMap<Key, Past, HashSeed>,
}

impl Model for RoleMemory {
    ghost use Rattle.cmc_held.specs.Remembered.{PastRows};

    ghost Value = { PastRows };

    ghost view = { λ m. m.map.entries };
}

impl RoleMemory {
    /// Nothing, and keys are hashed by the seed. It takes no memory.
    #[tactic(auto, unfolding(crate::specs::Remembered::memory_at))]
    fn new(alloc: Global, seed: HashSeed) -> RoleMemory
        ensures { (k : KeyValue) → memory_at result k ≡ no_past }
    {
        RoleMemory {
            map: HashMap::with_hasher(alloc, seed),
        }
    }

    /// What is remembered of the key; `None` only where nothing was done on it.
    #[tactic(auto, unfolding(crate::specs::Remembered::memory_at))]
    fn get(&self, key: &Key) -> Option<&Past>
        ensures { past_or_new (option_copied result) ≡ memory_at self.now key.now }
    {
        self.map.get(key)
    }

    /// Makes room for what will be remembered of the key. An error is one of memory.
    #[tactic(auto, unfolding(crate::specs::Remembered::memory_at, crate::specs::Remembered::is_noted))]
    fn ready(&mut self, key: &Key) -> Result<(), AllocError>
        ensures room { OnOk result (is_noted self.new key.now ≡ true) }
        ensures same { (k : KeyValue) → memory_at self.new k ≡ memory_at self.old k }
        ensures keeps { KeepsNoted self.old self.new }
    {
        if self.map.contains_key(key) {
            return Ok(());
        }
        let key = key.copy()?;
        self.map.insert(key, new_past())?;
        Ok(())
    }

    /// Remembers that a pass on the key begins.
    #[tactic(auto, unfolding(crate::specs::Remembered::memory_at, crate::specs::Remembered::is_noted))]
    fn begin(&mut self, key: &Key, seen: Shared<Views>, since: i64)
        requires { is_noted self.old key.now ≡ true }
        ensures past { (k : KeyValue) → memory_at self.new k ≡ (if key_eq key.now k then with_begin seen since (memory_at self.old k) else memory_at self.old k) }
        ensures room { KeepsNoted self.old self.new }
    {
        if let Some(past) = self.map.get_mut(key) {
            note_begin(past, seen, since);
        }
    }

    /// Remembers an accepted write of a pass on the key.
    #[tactic(auto, unfolding(crate::specs::Remembered::memory_at, crate::specs::Remembered::is_noted))]
    fn wrote(&mut self, key: &Key, kind: Kind, version: u64)
        requires { is_noted self.old key.now ≡ true }
        ensures past { (k : KeyValue) → memory_at self.new k ≡ (if key_eq key.now k then with_own kind version (memory_at self.old k) else memory_at self.old k) }
        ensures room { KeepsNoted self.old self.new }
    {
        if let Some(past) = self.map.get_mut(key) {
            note_own(past, kind, version);
        }
    }

    /// Remembers how the last pass on the key ended.
    #[tactic(auto, unfolding(crate::specs::Remembered::memory_at, crate::specs::Remembered::is_noted))]
    fn ended(&mut self, key: &Key, ending: Ending)
        ensures past { (k : KeyValue) → memory_at self.new k ≡ (if key_eq key.now k then with_ending ending (memory_at self.old k) else memory_at self.old k) }
        ensures room { KeepsNoted self.old self.new }
    {
        if let Some(past) = self.map.get_mut(key) {
            note_ending(past, ending);
        }
    }

    /// Forgets all.
    #[tactic(auto, unfolding(crate::specs::Remembered::memory_at))]
    fn clear(&mut self)
        ensures { (k : KeyValue) → memory_at self.new k ≡ no_past }
    {
        self.map.clear();
    }
}

/// What each of the eight roles remembers. Contracts see the memories in the order of roles.
pub struct RoleMemories {
    /// Eight memories, one for each role, in the order of roles.
    rows: Vec<RoleMemory>,
}

impl Drop for RoleMemories {
    fn drop(self) {
        let RoleMemories { rows: _rows } = self;
    }
}

impl Model for RoleMemories {
    ghost use Rattle.std.specs.Prelude.{◌≡◌, List, length};
    ghost use Rattle.cmc_held.specs.Remembered.{PastRows};

    ghost Value = { List PastRows };

    ghost view = { λ p. p.rows.items };

    ghost invariant = { λ p. length p.rows.items ≡ 8 };
}

impl RoleMemories {
    /// No role remembers anything, and keys are hashed by the seed. An error is one of memory.
    pub fn new(alloc: Global, seed: HashSeed) -> Result<RoleMemories, AllocError>
        ensures { IfOk result (λ t. (r : RoleValue) → (k : KeyValue) → past_at t r k ≡ no_past) }
    {
        let rows = vec![in alloc;
            RoleMemory::new(alloc, seed),
            RoleMemory::new(alloc, seed),
            RoleMemory::new(alloc, seed),
            RoleMemory::new(alloc, seed),
            RoleMemory::new(alloc, seed),
            RoleMemory::new(alloc, seed),
            RoleMemory::new(alloc, seed),
            RoleMemory::new(alloc, seed),
        ]?;
        Ok(RoleMemories { rows })
    }

    /// What the role remembers of the key; `None` only where it did nothing on it.
    pub fn get(&self, role: Role, key: &Key) -> Option<&Past>
        ensures { past_or_new (option_copied result) ≡ past_at self.now role key.now }
    {
        self.rows[role.rank() as usize].get(key)
    }

    /// Makes room for what the role will remember of the key, and changes nothing of what it
    /// remembers; room that exists is kept. An error is one of memory.
    pub fn ready(&mut self, role: Role, key: &Key) -> Result<(), AllocError>
        ensures room { OnOk result (has_past_row self.new role key.now ≡ true) }
        ensures same { (r : RoleValue) → (k : KeyValue) → past_at self.new r k ≡ past_at self.old r k }
        ensures keeps { KeepsReady self.old self.new }
    {
        self.rows[role.rank() as usize].ready(key)
    }

    /// The role begins a pass on the key, of which it saw this at this moment. It takes no memory.
    pub fn begin(&mut self, role: Role, key: &Key, seen: Shared<Views>, since: i64)
        requires { has_past_row self.old role key.now ≡ true }
        ensures past { (r : RoleValue) → (k : KeyValue) → past_at self.new r k ≡ (if role_eq role r && key_eq key.now k then with_begin seen since (past_at self.old r k) else past_at self.old r k) }
        ensures room { KeepsReady self.old self.new }
    {
        self.rows[role.rank() as usize].begin(key, seen, since);
    }

    /// A pass of the role on the key made this accepted write. It takes no memory.
    pub fn wrote(&mut self, role: Role, key: &Key, kind: Kind, version: u64)
        requires { has_past_row self.old role key.now ≡ true }
        ensures past { (r : RoleValue) → (k : KeyValue) → past_at self.new r k ≡ (if role_eq role r && key_eq key.now k then with_own kind version (past_at self.old r k) else past_at self.old r k) }
        ensures room { KeepsReady self.old self.new }
    {
        self.rows[role.rank() as usize].wrote(key, kind, version);
    }

    /// The last pass of the role on the key ended so. It takes no memory.
    pub fn ended(&mut self, role: Role, key: &Key, ending: Ending)
        ensures past { (r : RoleValue) → (k : KeyValue) → past_at self.new r k ≡ (if role_eq role r && key_eq key.now k then with_ending ending (past_at self.old r k) else past_at self.old r k) }
        ensures room { KeepsReady self.old self.new }
    {
        self.rows[role.rank() as usize].ended(key, ending);
    }

    /// The role starts, and remembers nothing of what was before, nor has it room; the room of other roles is kept.
    /// It takes no memory.
    pub fn start(&mut self, role: Role)
        ensures past { (r : RoleValue) → (k : KeyValue) → past_at self.new r k ≡ (if role_eq role r then no_past else past_at self.old r k) }
        ensures room { KeepsReadyOfOthers role self.old self.new }
    {
        self.rows[role.rank() as usize].clear();
    }
}

fn new_past() -> Past
    ensures { result ≡ no_past }
{
    Past {
        own: Positions {
            certificates: 0,
            requests: 0,
            secrets: 0,
        },
        last: None,
    }
}

fn note_begin(past: &mut Past, seen: Shared<Views>, since: i64)
    ensures { past.new ≡ with_begin seen since past.old }
{
    past.last = Some(LastPass {
        seen,
        since,
        ending: Ending::Open,
    });
}

fn note_own(past: &mut Past, kind: Kind, version: u64)
    ensures { past.new ≡ with_own kind version past.old }
{
    past.own = put_at_kind(past.own, kind, version);
}

fn note_ending(past: &mut Past, ending: Ending)
    ensures { past.new ≡ with_ending ending past.old }
{
    if let Some(last) = &mut past.last {
        last.ending = ending;
    }
}
