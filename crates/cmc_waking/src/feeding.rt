//! What entries and looks do to the work queue of one role. Nothing of it takes memory: room is made before.
ghost use Rattle.std.specs.Prelude.{◌≡◌, ◌+◌, true, IfOk, OnOk};
ghost use Rattle.cmc_meta.specs.declared.key.Key.{Key as KeyValue};
ghost use Rattle.cmc_queue.specs.Queues.{fresh_count, has_room, has_room_for, row_of, ChangesRow, KeepsRoom};
ghost use Rattle.cmc_queue.specs.Rows.{is_fresh};
ghost use Rattle.cmc_caches.specs.Affected.{is_among};
ghost use Rattle.cmc_waking.specs.Feeds as words;
ghost use Rattle.cmc_waking.specs.Parked.{waits_for};
ghost use Rattle.cmc_waking.specs.Queues.{HasPlaceAt, HasPlaceFor, HasRooms, WakesSome};

use crate::parking::{obstacle_ahead, own_ahead};
use cmc_meta::{Key, Kind};
use cmc_objects::Positions;
use cmc_queue::{Parked, Queue};
use cmc_rules::Ending;
use cmc_seed::HashSeed;
use std::alloc::{AllocError, Global};

/// Makes each of the keys ready.
fn add_each(queue: &mut Queue, keys: &[Key])
    requires { HasRooms keys.now queue.old }
    ensures rows { (k : KeyValue) → row_of queue.new k ≡ words.added_if (is_among keys.now k) (row_of queue.old k) }
    ensures room { KeepsRoom queue.old queue.new }
{
    for key in keys {
        queue.add(key);
    }
}

/// Makes each of the keys ready, with room for it. An error is one of memory: some of the keys are ready then.
pub(crate) fn wake_each(queue: &mut Queue, keys: &[Key]) -> Result<(), AllocError>
    ensures rows { OnOk result ((k : KeyValue) → row_of queue.new k ≡ words.added_if (is_among keys.now k) (row_of queue.old k)) }
    ensures some { WakesSome keys.now queue.old queue.new }
{
    for key in keys {
        queue.wake(key)?;
    }
    Ok(())
}

/// The role is told of the kind up to this version; of each of the keys it may see something new.
pub(crate) fn tell(queue: &mut Queue, kind: Kind, to: u64, keys: &[Key])
    requires { HasRooms keys.now queue.old }
    ensures { (k : KeyValue) → row_of queue.new k ≡ words.row_delivered (is_among keys.now k) kind to (row_of queue.old k) }
{
    queue.moved(kind, to);
    add_each(queue, keys);
}

/// Times the key at the moment too, if there is one.
fn time(queue: &mut Queue, key: &Key, next: Option<i64>)
    requires row { has_room queue.old key.now ≡ true }
    requires place { HasPlaceAt next key.now queue.old }
    ensures rows { ChangesRow (words.timed_too next) key.now queue.old queue.new }
    ensures room { KeepsRoom queue.old queue.new }
    ensures fresh { fresh_count queue.new.rows ≡ fresh_count queue.old.rows }
{
    if let Some(at) = next {
        queue.after(key, at);
    }
}

/// A pass begins on the key; `next` is the next due moment of what it sees.
pub(crate) fn begin(queue: &mut Queue, key: &Key, next: Option<i64>)
    requires row { has_room queue.old key.now ≡ true }
    requires place { HasPlaceAt next key.now queue.old }
    ensures rows { ChangesRow (words.row_begun next) key.now queue.old queue.new }
    ensures room { KeepsRoom queue.old queue.new }
{
    queue.take(key);
    time(queue, key, next);
}

/// The key waits for the version; where there is none, it is ready.
fn wait(queue: &mut Queue, key: &Key, parked: Option<Parked>)
    requires row { has_room queue.old key.now ≡ true }
    requires place { HasPlaceFor parked key.now queue.old }
    ensures rows { ChangesRow (words.waiting parked) key.now queue.old queue.new }
    ensures room { KeepsRoom queue.old queue.new }
{
    match parked {
        Some(Parked { kind, version }) => queue.park(key, kind, version),
        None => queue.add(key),
    }
}

/// For which version a key waits after a pass that ended so: the role's own write on it, or what refused the pass.
pub fn parked_after(ending: Ending, own: Positions, at: Positions) -> Option<Parked>
    ensures { result ≡ waits_for ending own at }
{
    match ending {
        Ending::Wrote => own_ahead(own, at),
        other => obstacle_ahead(other, at),
    }
}

/// A pass on the key ends so; `own` are the role's own writes on it, and `at` is how far the role was told.
pub(crate) fn end(queue: &mut Queue, key: &Key, ending: Ending, own: Positions, at: Positions)
    requires row { has_room queue.old key.now ≡ true }
    requires place { HasPlaceFor (waits_for ending own at) key.now queue.old }
    ensures rows { ChangesRow (words.closed ending own at) key.now queue.old queue.new }
    ensures room { KeepsRoom queue.old queue.new }
{
    queue.done(key);
    match ending {
        Ending::Nothing => {}
        other => wait(queue, key, parked_after(other, own, at)),
    }
}

// ---- looks

/// A pass may begin on the key, has nothing to do and sees something new; `next` is the next due moment of what is seen.
pub(crate) fn find_idle(queue: &mut Queue, key: &Key, next: Option<i64>)
    requires row { has_room queue.old key.now ≡ true }
    requires place { HasPlaceAt next key.now queue.old }
    ensures rows { ChangesRow (words.found_idle next) key.now queue.old queue.new }
    ensures room { KeepsRoom queue.old queue.new }
    ensures fewer { is_fresh (row_of queue.old key.now) ≡ true → fresh_count queue.old.rows ≡ fresh_count queue.new.rows + 1 }
{
    queue.found_nothing(key);
    time(queue, key, next);
}

/// There is nothing to do on the key, and nothing new to see; `next` is the next due moment of what is seen.
pub(crate) fn find_quiet(queue: &mut Queue, key: &Key, next: Option<i64>)
    requires row { has_room queue.old key.now ≡ true }
    requires place { HasPlaceAt next key.now queue.old }
    ensures rows { ChangesRow (words.found_quiet next) key.now queue.old queue.new }
    ensures room { KeepsRoom queue.old queue.new }
    ensures fewer { is_fresh (row_of queue.old key.now) ≡ true → fresh_count queue.old.rows ≡ fresh_count queue.new.rows + 1 }
{
    queue.leave(key);
    time(queue, key, next);
}

/// No pass may begin on the key before the role is told of this version.
pub(crate) fn find_held(queue: &mut Queue, key: &Key, parked: Parked)
    requires row { has_room queue.old key.now ≡ true }
    requires place { has_room_for queue.old parked.kind parked.version key.now ≡ true }
    ensures rows { ChangesRow (words.found_parked parked) key.now queue.old queue.new }
    ensures room { KeepsRoom queue.old queue.new }
    ensures fewer { is_fresh (row_of queue.old key.now) ≡ true → fresh_count queue.old.rows ≡ fresh_count queue.new.rows + 1 }
{
    queue.leave(key);
    queue.park(key, parked.kind, parked.version);
}

// ---- a role starts

/// Makes room for each of the keys; no row changes.
pub(crate) fn room_each(queue: &mut Queue, keys: &[Key]) -> Result<(), AllocError>
    ensures made { OnOk result (HasRooms keys.now queue.new) }
    ensures rows { (k : KeyValue) → row_of queue.new k ≡ row_of queue.old k }
    ensures room { KeepsRoom queue.old queue.new }
{
    for key in keys {
        queue.room(key)?;
    }
    Ok(())
}

/// The queue of a role that starts: each of the keys is ready, and keys are hashed by the seed.
pub fn starting_queue(alloc: Global, seed: HashSeed, keys: &[Key]) -> Result<Queue, AllocError>
    ensures { IfOk result (λ queue. (k : KeyValue) → row_of queue k ≡ words.started (is_among keys.now k)) }
{
    let mut queue = Queue::seeded(alloc, seed);
    room_each(&mut queue, keys)?;
    add_each(&mut queue, keys);
    Ok(queue)
}
