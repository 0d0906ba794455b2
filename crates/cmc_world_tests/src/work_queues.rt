// What no clause says: that a key leaves the work queue of a role as a pass of the role has looked at it and found nothing to
// do, so that a begin on it is refused, at a later moment too; for which version and which moment keys wait in some runs; and
// that a tick wakes just the keys whose moment has come.
use crate::checks::{passes, tells};
use crate::deciding::word_then;
use crate::fixtures::{ROLES, applied, denied_scenario, put, whole_scenario};
use cmc_answers::ScriptedSigner;
use cmc_keys::ScriptedKeys;
use cmc_meta::{Kind, Numbers};
use cmc_objects::{Material, Role, Step};
use cmc_queue::{Found, Row};
use cmc_setup::{Scenario, Steps};
use cmc_tests::values::{key, let_go};
use cmc_world::{Kernel, Move, World, question, value_for};
use std::alloc::Global;
use std::process::Abort;
use std::test::Fail;

/// A Certificate that is issued, and a minute that passes then.
fn scenario(alloc: Global) -> Result<Scenario, Fail> {
    let mut steps = Steps::new(alloc);
    put(&mut steps, applied(alloc, "web", "web-tls", "example.com"))?;
    steps.push(Step::Settle)?;
    steps.push(Step::Tick { seconds: 60 })?;
    let none = Material::new(alloc);
    whole_scenario(alloc, 400, 1000, Numbers::new(alloc), none, steps)
}

/// What gives the pass the value that it waits for, or has it go on where it waits for none.
fn next_of(alloc: Global, kernel: &Kernel, pass: u64, incarnation: u64) -> Result<Move, Fail> {
    match question(kernel, pass)? {
        Some(order) => {
            let given = value_for(alloc, &order, &ScriptedKeys, &ScriptedSigner)?;
            Ok(Move::Give {
                pass,
                incarnation,
                given,
            })
        }
        None => Ok(Move::Next { pass, incarnation }),
    }
}

/// The move, or what gives its pass the value that it waits for.
fn with_value(alloc: Global, kernel: &Kernel, step: Move) -> Result<Move, Fail> {
    match step {
        Move::Next { pass, incarnation } => next_of(alloc, kernel, pass, incarnation),
        other => Ok(other),
    }
}

/// Makes the move, and tells the answer in a word.
fn make(alloc: Global, world: &mut World, step: Move) -> Result<&'static str, Fail> {
    Ok(word_then(world.step(alloc, step)?))
}

/// Makes the plain move; false where there is none.
fn go_on(alloc: Global, world: &mut World) -> Result<bool, Fail> {
    match world.plain(alloc)? {
        Some(step) => {
            let step = with_value(alloc, world.kernel(), step)?;
            let _ = make(alloc, world, step)?;
            Ok(true)
        }
        None => Ok(false),
    }
}

fn is_at_the_tick(kernel: &Kernel) -> bool {
    matches!(kernel.next_step(), Some(Step::Tick { .. }))
}

/// Makes the plain moves up to the tick, or to the end.
fn come_to_the_tick(alloc: Global, world: &mut World) -> Result<(), Fail> {
    for _move in 0..400 {
        if is_at_the_tick(world.kernel()) || !go_on(alloc, world)? {
            return Ok(());
        }
    }
    Ok(())
}

/// What a begin of the role on the Certificate is answered, in a word.
fn begin(alloc: Global, world: &mut World, role: Role, word: &str) -> Result<&'static str, Fail> {
    let key = key(alloc, Kind::Certificate, word)?;
    make(alloc, world, Move::Begin { role, key })
}

/// Has the role look at the Certificate, if that is in its queue, and find nothing to do.
fn look(alloc: Global, world: &mut World, role: Role) -> Result<(), Fail> {
    if begin(alloc, world, role, "web")? == "done" {
        let pass = world.kernel().passes_begun();
        let incarnation = world.kernel().incarnation(role);
        let _ = make(alloc, world, Move::Next { pass, incarnation })?;
    }
    Ok(())
}

/// A world up to the tick, with each role having looked at the Certificate.
fn looked(alloc: Global) -> Result<World, Fail> {
    let mut world = World::new(alloc, scenario(alloc)?)?;
    come_to_the_tick(alloc, &mut world)?;
    for role in &ROLES {
        look(alloc, &mut world, *role)?;
    }
    Ok(world)
}

/// A begin of the role on the Certificate is refused, since the key is not in the role's queue.
fn refuses(
    rt: &impl Abort,
    alloc: Global,
    world: &mut World,
    role: Role,
    word: &str,
) -> Result<(), Fail> {
    let told = begin(alloc, world, role, word)?;
    tells(rt, word, told, "not queued");
    Ok(())
}

#[test]
fn a_key_with_nothing_to_do_is_in_no_queue(rt: HostRuntime) -> Result<(), Fail> {
    let alloc = rt.alloc();
    let mut world = looked(alloc)?;
    tells(
        &rt,
        "the tick",
        make(alloc, &mut world, Move::Script)?,
        "done",
    );
    let entries = world.kernel().history().len();
    passes(&rt, "issued", entries > 100);
    for role in &ROLES {
        refuses(&rt, alloc, &mut world, *role, "web")?;
        refuses(&rt, alloc, &mut world, *role, "of-nobody")?;
    }
    passes(&rt, "as it was", world.kernel().history().len() == entries);
    Ok(())
}

// ---- what keys wait for

/// Makes the plain moves up to the write of this number.
fn come_to_write(alloc: Global, world: &mut World, number: u64) -> Result<(), Fail> {
    for _move in 0..400 {
        if world.kernel().log().accepted() >= number {
            return Ok(());
        }
        let _ = go_on(alloc, world)?;
    }
    Err(Fail::from("the write is not made"))
}

/// The row of the Certificate in the role's work queue.
fn row_of(alloc: Global, world: &World, role: Role) -> Result<Row, Fail> {
    let key = key(alloc, Kind::Certificate, "web")?;
    Ok(world.queue(role).row(&key))
}

fn is_parked(row: Row, kind: Kind, version: u64) -> bool {
    match row.parked {
        Some(parked) => parked.kind.same(kind) && parked.version == version,
        None => false,
    }
}

fn is_free(row: Row) -> bool {
    row.ready && !row.working
}

/// Whether there may be something to do on the key.
fn is_pending(row: Row) -> bool {
    is_free(row) && row.work.may_work()
}

#[test]
fn a_key_waits_for_the_own_write(rt: HostRuntime) -> Result<(), Fail> {
    let alloc = rt.alloc();
    let mut world = World::new(alloc, scenario(alloc)?)?;
    let none = row_of(alloc, &world, Role::Trigger)?;
    passes(&rt, "not named", !none.ready && none.parked.is_none());
    come_to_write(alloc, &mut world, 2)?;
    let writes = row_of(alloc, &world, Role::Trigger)?;
    passes(&rt, "in process", writes.working && !writes.ready);
    let _ = go_on(alloc, &mut world)?;
    let own = row_of(alloc, &world, Role::Trigger)?;
    passes(&rt, "parked", is_parked(own, Kind::Certificate, 2));
    passes(&rt, "done", !own.working && !own.ready);
    come_to_the_tick(alloc, &mut world)?;
    let told = row_of(alloc, &world, Role::Trigger)?;
    passes(&rt, "told", told.parked.is_none() && !told.working);
    Ok(())
}

/// Makes the plain moves up to a begin, which is not made.
fn come_to_begin(alloc: Global, world: &mut World) -> Result<(), Fail> {
    for _move in 0..400 {
        let step = world.plain(alloc)?;
        let begins = matches!(step, Some(Move::Begin { .. }));
        let_go(step);
        if begins {
            return Ok(());
        }
        let _ = go_on(alloc, world)?;
    }
    Err(Fail::from("no pass begins"))
}

#[test]
fn a_key_is_ready_where_there_is_something_to_do(rt: HostRuntime) -> Result<(), Fail> {
    let alloc = rt.alloc();
    let mut world = World::new(alloc, scenario(alloc)?)?;
    come_to_write(alloc, &mut world, 1)?;
    let untold = row_of(alloc, &world, Role::Trigger)?;
    passes(&rt, "not told", !untold.ready);
    let step = world.plain(alloc)?;
    passes(&rt, "told next", matches!(step, Some(Move::Deliver { .. })));
    let_go(step);
    let _ = go_on(alloc, &mut world)?;
    let told = row_of(alloc, &world, Role::Trigger)?;
    passes(&rt, "ready", is_free(told) && told.work.is_unknown());
    come_to_begin(alloc, &mut world)?;
    let found = row_of(alloc, &world, Role::Trigger)?;
    passes(
        &rt,
        "looked at",
        is_free(found) && matches!(found.work, Found::Something),
    );
    Ok(())
}

/// The failure is at the moment of the beginning, and the back-off takes an hour.
#[test]
fn a_failure_times_the_key(rt: HostRuntime) -> Result<(), Fail> {
    let alloc = rt.alloc();
    let mut world = World::new(alloc, denied_scenario(alloc)?)?;
    come_to_the_tick(alloc, &mut world)?;
    let row = row_of(alloc, &world, Role::Trigger)?;
    passes(&rt, "timed", row.timed == Some(1_893_459_600));
    passes(&rt, "nothing to do", !is_pending(row));
    Ok(())
}

/// When the certificate that was issued ends and is renewed, as readiness wrote it.
fn times(alloc: Global, world: &World) -> Result<(Option<i64>, Option<i64>), Fail> {
    let key = key(alloc, Kind::Certificate, "web")?;
    match &world
        .kernel()
        .views(alloc, Role::Readiness, &key)?
        .certificate
    {
        Some(certificate) => Ok((certificate.status.not_after, certificate.status.renewal)),
        None => Err(Fail::from("no Certificate")),
    }
}

#[test]
fn a_certificate_times_its_key(rt: HostRuntime) -> Result<(), Fail> {
    let alloc = rt.alloc();
    let world = looked(alloc)?;
    let (end, renewal) = times(alloc, &world)?;
    passes(&rt, "issued", renewal.is_some());
    let trigger = row_of(alloc, &world, Role::Trigger)?;
    passes(&rt, "renewal", trigger.timed == renewal);
    let readiness = row_of(alloc, &world, Role::Readiness)?;
    passes(&rt, "expiry", readiness.timed == end);
    let issuing = row_of(alloc, &world, Role::Issuing)?;
    passes(&rt, "no moment", issuing.timed.is_none());
    Ok(())
}

/// A minute is long before the renewal: a role whose key is not timed up to then is not asked.
#[test]
fn a_tick_wakes_just_the_keys_whose_moment_has_come(rt: HostRuntime) -> Result<(), Fail> {
    let alloc = rt.alloc();
    let mut world = looked(alloc)?;
    let _ = make(alloc, &mut world, Move::Script)?;
    for role in &ROLES {
        let row = row_of(alloc, &world, *role)?;
        passes(&rt, "left alone", !row.ready);
    }
    Ok(())
}
