//! The work queues of all roles.
ghost use Rattle.std.specs.Prelude.{◌≡◌, ◌+◌, IfOk, OnOk, true};
ghost use Rattle.cmc_meta.specs.declared.key.Key.{Key as KeyValue};
ghost use Rattle.cmc_objects.specs.declared.role.Role.{Role as RoleValue};
ghost use Rattle.cmc_queue.specs.Queues.{fresh_count, has_room, has_room_at, has_room_for, has_room_to_find, ChangesRow, ChangesRows, KeepsRoom};
ghost use Rattle.cmc_queue.specs.Rows.{is_fresh, no_row, ticked};
ghost use Rattle.cmc_caches.specs.Affected.{is_among};
ghost use Rattle.cmc_waking.specs.Feeds as words;
ghost use Rattle.cmc_waking.specs.Parked.{waits_for};
ghost use Rattle.cmc_waking.specs.Queues.{queue_in, row_at, HasPlaceAt, HasPlaceFor, HasRooms, KeepsOthers, KeepsRooms, KeepsRows, WakesSome};

use crate::feeding;
use cmc_meta::{Key, Kind};
use cmc_objects::{Positions, Role};
use cmc_queue::{Parked, Queue};
use cmc_rules::Ending;
use cmc_seed::HashSeed;
use std::alloc::{AllocError, Global};
use std::marker::Model;

/// The work queue of each of the eight roles. Contracts see the queues in the order of roles.
///
/// Room is made before a move, changes no row, and is kept. What happens then takes no memory.
pub struct Queues {
    rows: Vec<Queue>,
}

impl Drop for Queues {
    fn drop(self) {
        let Queues { rows: _rows } = self;
    }
}

impl Model for Queues {
    ghost use Rattle.std.specs.Prelude.{◌≡◌, List, length};
    ghost use Rattle.cmc_queue.specs.Queues.{Work};

    ghost Value = { List Work };

    ghost view = { λ q. q.rows.items };

    ghost invariant = { λ q. length q.rows.items ≡ 8 };
}

impl Queues {
    /// Nothing is to be done by any role, and keys are hashed by the seed. An error is one of memory.
    #[tactic(auto, unfolding(crate::specs::Queues::queue_in))]
    pub fn new(alloc: Global, seed: HashSeed) -> Result<Queues, AllocError>
        ensures { IfOk result (λ queues. (r : RoleValue) → (k : KeyValue) → row_at queues r k ≡ no_row) }
    {
        let rows = vec![in alloc;
            Queue::seeded(alloc, seed),
            Queue::seeded(alloc, seed),
            Queue::seeded(alloc, seed),
            Queue::seeded(alloc, seed),
            Queue::seeded(alloc, seed),
            Queue::seeded(alloc, seed),
            Queue::seeded(alloc, seed),
            Queue::seeded(alloc, seed),
        ]?;
        Ok(Queues { rows })
    }

    /// The queue of the role.
    #[tactic(auto, unfolding(crate::specs::Queues::queue_in))]
    pub fn queue(&self, role: Role) -> &Queue
        ensures { result.now ≡ queue_in self.now role }
    {
        &self.rows[role.rank() as usize]
    }

    // ---- room

    /// Makes room for each of the keys in the queue of the role. An error is one of memory.
    pub fn room(&mut self, role: Role, keys: &[Key]) -> Result<(), AllocError>
        ensures made { OnOk result (HasRooms keys.now (queue_in self.new role)) }
        ensures rows { KeepsRows self.old self.new }
        ensures room { KeepsRooms self.old self.new }
    {
        feeding::room_each(&mut self.rows[role.rank() as usize], keys)
    }

    /// Makes room to time the key at the moment, in the queue of the role. An error is one of memory.
    pub fn room_at(&mut self, role: Role, key: &Key, at: i64) -> Result<(), AllocError>
        ensures made { OnOk result (has_room (queue_in self.new role) key.now ≡ true) }
        ensures place { OnOk result (has_room_at (queue_in self.new role) at key.now ≡ true) }
        ensures rows { KeepsRows self.old self.new }
        ensures room { KeepsRooms self.old self.new }
        ensures fresh { fresh_count (queue_in self.new role).rows ≡ fresh_count (queue_in self.old role).rows }
    {
        self.rows[role.rank() as usize].room_at(key, at)
    }

    /// Makes room for the key to wait for the version, in the queue of the role. An error is one of memory.
    pub fn room_for(&mut self, role: Role, key: &Key, parked: Parked) -> Result<(), AllocError>
        ensures made { OnOk result (has_room (queue_in self.new role) key.now ≡ true) }
        ensures place { OnOk result (has_room_for (queue_in self.new role) parked.kind parked.version key.now ≡ true) }
        ensures rows { KeepsRows self.old self.new }
        ensures room { KeepsRooms self.old self.new }
        ensures fresh { fresh_count (queue_in self.new role).rows ≡ fresh_count (queue_in self.old role).rows }
    {
        self.rows[role.rank() as usize].room_for(key, parked.kind, parked.version)
    }

    /// Makes room to note that there is something to do on the key. An error is one of memory.
    pub fn room_to_find(&mut self, role: Role, key: &Key) -> Result<(), AllocError>
        ensures made { OnOk result (has_room (queue_in self.new role) key.now ≡ true) }
        ensures place { OnOk result (has_room_to_find (queue_in self.new role) key.now ≡ true) }
        ensures rows { KeepsRows self.old self.new }
        ensures room { KeepsRooms self.old self.new }
        ensures fresh { fresh_count (queue_in self.new role).rows ≡ fresh_count (queue_in self.old role).rows }
    {
        self.rows[role.rank() as usize].room_to_find(key)
    }

    /// Makes a place for the key at the moment, in the queue of the role. An error is one of memory.
    pub fn place_at(&mut self, role: Role, key: &Key, at: i64) -> Result<(), AllocError>
        ensures place { OnOk result (has_room_at (queue_in self.new role) at key.now ≡ true) }
        ensures rows { KeepsRows self.old self.new }
        ensures room { KeepsRooms self.old self.new }
        ensures fresh { fresh_count (queue_in self.new role).rows ≡ fresh_count (queue_in self.old role).rows }
    {
        self.rows[role.rank() as usize].place_at(key, at)
    }

    /// Makes a place for the key at the version, in the queue of the role. An error is one of memory.
    pub fn place_for(&mut self, role: Role, key: &Key, parked: Parked) -> Result<(), AllocError>
        ensures place { OnOk result (has_room_for (queue_in self.new role) parked.kind parked.version key.now ≡ true) }
        ensures rows { KeepsRows self.old self.new }
        ensures room { KeepsRooms self.old self.new }
        ensures fresh { fresh_count (queue_in self.new role).rows ≡ fresh_count (queue_in self.old role).rows }
    {
        self.rows[role.rank() as usize].place_for(key, parked.kind, parked.version)
    }

    // ---- what happens

    /// Makes each of the keys ready in the queue of the role, with room for it. An error is one of memory: some of the keys are
    /// ready then.
    pub fn wake(&mut self, role: Role, keys: &[Key]) -> Result<(), AllocError>
        ensures rows { OnOk result ((k : KeyValue) → row_at self.new role k ≡ words.added_if (is_among keys.now k) (row_at self.old role k)) }
        ensures some { WakesSome keys.now (queue_in self.old role) (queue_in self.new role) }
        ensures others { KeepsOthers role self.old self.new }
    {
        feeding::wake_each(&mut self.rows[role.rank() as usize], keys)
    }

    /// The role is told of the kind up to this version; of each of the keys it may see something new.
    pub fn told(&mut self, role: Role, kind: Kind, to: u64, keys: &[Key])
        requires { HasRooms keys.now (queue_in self.old role) }
        ensures rows { (k : KeyValue) → row_at self.new role k ≡ words.row_delivered (is_among keys.now k) kind to (row_at self.old role k) }
        ensures others { KeepsOthers role self.old self.new }
    {
        feeding::tell(&mut self.rows[role.rank() as usize], kind, to, keys);
    }

    /// A pass of the role begins on the key; `next` is the next due moment of what it sees.
    pub fn begun(&mut self, role: Role, key: &Key, next: Option<i64>)
        requires row { has_room (queue_in self.old role) key.now ≡ true }
        requires place { HasPlaceAt next key.now (queue_in self.old role) }
        ensures rows { ChangesRow (words.row_begun next) key.now (queue_in self.old role) (queue_in self.new role) }
        ensures room { KeepsRoom (queue_in self.old role) (queue_in self.new role) }
        ensures others { KeepsOthers role self.old self.new }
    {
        feeding::begin(&mut self.rows[role.rank() as usize], key, next);
    }

    /// A pass of the role on the key ends so; `own` are the role's own writes on it, and `at` is how far the role was told.
    pub fn ended(&mut self, role: Role, key: &Key, ending: Ending, own: Positions, at: Positions)
        requires row { has_room (queue_in self.old role) key.now ≡ true }
        requires place { HasPlaceFor (waits_for ending own at) key.now (queue_in self.old role) }
        ensures rows { ChangesRow (words.closed ending own at) key.now (queue_in self.old role) (queue_in self.new role) }
        ensures room { KeepsRoom (queue_in self.old role) (queue_in self.new role) }
        ensures others { KeepsOthers role self.old self.new }
    {
        feeding::end(&mut self.rows[role.rank() as usize], key, ending, own, at);
    }

    /// It is now this moment, for each role.
    pub fn ticked(&mut self, now: i64)
        ensures { (r : RoleValue) → ChangesRows (ticked now) (queue_in self.old r) (queue_in self.new r) }
    {
        for queue in self.rows.iter_mut() {
            queue.tick(now);
        }
    }

    /// The role stops: nothing is left to be done by it.
    pub fn stopped(&mut self, alloc: Global, role: Role)
        ensures rows { (k : KeyValue) → row_at self.new role k ≡ no_row }
        ensures others { KeepsOthers role self.old self.new }
    {
        let seed = self.queue(role).seed();
        self.rows[role.rank() as usize] = Queue::seeded(alloc, seed);
    }

    /// The role starts with this queue.
    pub fn started(&mut self, role: Role, queue: Queue)
        ensures own { queue_in self.new role ≡ queue }
        ensures others { KeepsOthers role self.old self.new }
    {
        self.rows[role.rank() as usize] = queue;
    }

    // ---- looks

    /// A pass may begin on the key and has something to do.
    pub fn found_busy(&mut self, role: Role, key: &Key)
        requires row { has_room (queue_in self.old role) key.now ≡ true }
        requires place { has_room_to_find (queue_in self.old role) key.now ≡ true }
        ensures rows { ChangesRow words.found_busy key.now (queue_in self.old role) (queue_in self.new role) }
        ensures room { KeepsRoom (queue_in self.old role) (queue_in self.new role) }
        ensures others { KeepsOthers role self.old self.new }
        ensures fewer { is_fresh (row_at self.old role key.now) ≡ true → fresh_count (queue_in self.old role).rows ≡ fresh_count (queue_in self.new role).rows + 1 }
    {
        self.rows[role.rank() as usize].found_something(key);
    }

    /// A pass may begin on the key, has nothing to do and sees something new; `next` is the next due moment of what is seen.
    pub fn found_idle(&mut self, role: Role, key: &Key, next: Option<i64>)
        requires row { has_room (queue_in self.old role) key.now ≡ true }
        requires place { HasPlaceAt next key.now (queue_in self.old role) }
        ensures rows { ChangesRow (words.found_idle next) key.now (queue_in self.old role) (queue_in self.new role) }
        ensures room { KeepsRoom (queue_in self.old role) (queue_in self.new role) }
        ensures others { KeepsOthers role self.old self.new }
        ensures fewer { is_fresh (row_at self.old role key.now) ≡ true → fresh_count (queue_in self.old role).rows ≡ fresh_count (queue_in self.new role).rows + 1 }
    {
        feeding::find_idle(&mut self.rows[role.rank() as usize], key, next);
    }

    /// There is nothing to do on the key, and nothing new to see; `next` is the next due moment of what is seen.
    pub fn found_quiet(&mut self, role: Role, key: &Key, next: Option<i64>)
        requires row { has_room (queue_in self.old role) key.now ≡ true }
        requires place { HasPlaceAt next key.now (queue_in self.old role) }
        ensures rows { ChangesRow (words.found_quiet next) key.now (queue_in self.old role) (queue_in self.new role) }
        ensures room { KeepsRoom (queue_in self.old role) (queue_in self.new role) }
        ensures others { KeepsOthers role self.old self.new }
        ensures fewer { is_fresh (row_at self.old role key.now) ≡ true → fresh_count (queue_in self.old role).rows ≡ fresh_count (queue_in self.new role).rows + 1 }
    {
        feeding::find_quiet(&mut self.rows[role.rank() as usize], key, next);
    }

    /// No pass may begin on the key before the role is told of this version.
    pub fn found_held(&mut self, role: Role, key: &Key, parked: Parked)
        requires row { has_room (queue_in self.old role) key.now ≡ true }
        requires place { has_room_for (queue_in self.old role) parked.kind parked.version key.now ≡ true }
        ensures rows { ChangesRow (words.found_parked parked) key.now (queue_in self.old role) (queue_in self.new role) }
        ensures room { KeepsRoom (queue_in self.old role) (queue_in self.new role) }
        ensures others { KeepsOthers role self.old self.new }
        ensures fewer { is_fresh (row_at self.old role key.now) ≡ true → fresh_count (queue_in self.old role).rows ≡ fresh_count (queue_in self.new role).rows + 1 }
    {
        feeding::find_held(&mut self.rows[role.rank() as usize], key, parked);
    }
}
