//! Runs by threads, and what they leave by one hand.
ghost use Rattle.std.specs.Prelude.{◌≡◌, ◌↔◌, ◌<◌, ◌≤◌, ◌⊎◌, ◌/◌, IsTrue, IfOk, length};
ghost use Rattle.cmc_world.specs.Turns.{IsDriven};
ghost use Rattle.cmc_workers.specs.Drives.{Drives};

use crate::threads::in_threads;
use cmc_answers::Signer;
use cmc_keys::KeyMaker;
use cmc_seed::HashSeed;
use cmc_setup::Scenario;
use cmc_world::{Driven, Gate, World, drain, drive_plain};
use std::alloc::{AllocError, Global};
use std::sync::Wait;
use std::thread::Threads;

/// Up to so many entries of room the plain order decides whether a run fits. It makes that many in some 20 milliseconds.
const SHORT_ROOM: u64 = 10_000;

/// Whether the status of the run would be the same by the plain order, as far as is measured: it takes up to four times the
/// entries that threads do. Of longer histories nobody asks that.
fn is_roomy(world: &World) -> bool
    ensures { IsTrue result ↔ ((10000 < world.now.scenario.events) ⊎ (length world.now.history ≤ world.now.scenario.events / 4)) }
{
    let events = world.scenario().events();
    events > SHORT_ROOM || world.history().len() <= events / 4
}

/// Runs the scenario in threads: so many workers take passes, one thread delivers and one performs the script, all round
/// one lock; keys, signatures, answers and judgements are made outside of it, by `keys` and `signer`, after the gate.
/// What the threads leave, because memory or room was wanting or one of them could not be started, the caller goes on
/// with by the plain order. With 0 workers it is `drive_plain`, and no thread is started.
///
/// A finished world is one of this scenario, whatever the order in which the threads came. Where the threads' history is
/// full, the scenario is run anew by the plain order, so `Spent` always has a plain history that is full. So it is where there
/// is room for 10,000 entries at most and more than a quarter of it is taken: then the status is that of the plain order,
/// which needs more entries than threads do.
pub fn drive<R: Threads + Wait + Sync, M: KeyMaker, N: Signer, G: Gate>(
    rt: &R,
    alloc: Global,
    seed: HashSeed,
    scenario: Scenario,
    keys: &M,
    signer: &N,
    gate: &G,
    workers: u32,
) -> Result<Driven, AllocError>
    ensures ends { IfOk result (λ d. Drives scenario d) }
    ensures alone { workers ≡ 0 → IfOk result (λ d. IsDriven scenario d) }
{
    if workers == 0 {
        return drive_plain(alloc, seed, scenario, keys, signer, gate);
    }
    let begun = World::seeded(alloc, seed, scenario.copy()?)?;
    let left = in_threads(rt, alloc, begun, keys, signer, gate, workers);
    if let Driven::Finished(world) = drain(alloc, left, keys, signer, gate)? {
        if !is_roomy(&world) {
            return drive_plain(alloc, seed, scenario, keys, signer, gate);
        }
        let same = world.scenario().same(&scenario);
        if same {
            return Ok(Driven::Finished(world));
        }
    }
    drive_plain(alloc, seed, scenario, keys, signer, gate)
}
