// What no clause says: that each answer of a step can come, and that passes ask, issue, find nothing to do and are
// refused. Pseudo-random moves of all eight roles, mixed with plain ones, are made on a world of several
// Certificates and Secrets, with lag, stops, starts, holds, faults, and values that answer another question.
use crate::audit::audit;
use crate::begins::begun_again;
use crate::checks::{passes, tells};
use crate::deciding::decision;
use crate::fixtures::{applied, put, value_of, whole_scenario};
use cmc_history::History;
use cmc_meta::{Bytes, Key, Kind, Numbers};
use cmc_objects::{Cause, Entry, Material, Object, Order, Parts, Role, Secret, Step};
use cmc_setup::{Scenario, Steps};
use cmc_tests::values::{key, new_meta, text};
use cmc_world::{Decided, Lack, Move, Stepped, World};
use std::alloc::Global;
use std::mem;
use std::test::Fail;

/// A part with one octet, 0.
fn parts(alloc: Global) -> Result<Parts, Fail> {
    let mut parts = Parts::new(alloc);
    let key = text(alloc, "tls.key")?;
    parts.set(key, Bytes::from_slice(alloc, &[0])?)?;
    Ok(parts)
}

fn secret_of(alloc: Global, word: &str) -> Result<Secret, Fail> {
    let meta = new_meta(alloc, word)?;
    let kind_text = text(alloc, "Opaque")?;
    Ok(Secret {
        meta,
        kind_text,
        parts: parts(alloc)?,
    })
}

fn secret(alloc: Global, word: &str) -> Result<Step, Fail> {
    Ok(Step::Apply {
        object: Object::of_secret(alloc, secret_of(alloc, word)?)?,
        version: None,
    })
}

fn delete(alloc: Global, kind: Kind, word: &str) -> Result<Step, Fail> {
    Ok(Step::Delete {
        key: key(alloc, kind, word)?,
        version: None,
    })
}

fn hold(role: Role, kind: Kind) -> Step {
    Step::Hold { role, kind }
}

fn release(role: Role, kind: Kind) -> Step {
    Step::Release { role, kind }
}

fn first_steps(alloc: Global, steps: &mut Steps) -> Result<(), Fail> {
    steps.push(Step::Settle)?;
    put(steps, applied(alloc, "web", "web-tls", "example.com"))?;
    put(steps, applied(alloc, "api", "api-tls", "api.example.com"))?;
    steps.push(Step::Until {
        role: Role::Issuing,
        kind: Kind::Secret,
        writes: 1,
    })?;
    steps.push(Step::Stop {
        role: Role::Issuing,
    })?;
    put(steps, secret(alloc, "web-tls"))?;
    steps.push(Step::Start {
        role: Role::Issuing,
        behind: 3,
    })?;
    steps.push(hold(Role::Trigger, Kind::Secret))?;
    put(steps, applied(alloc, "web", "web-tls", "www.example.com"))?;
    steps.push(Step::Tick { seconds: 5 })?;
    Ok(())
}

fn last_steps(alloc: Global, steps: &mut Steps) -> Result<(), Fail> {
    steps.push(release(Role::Trigger, Kind::Secret))?;
    put(steps, delete(alloc, Kind::Secret, "web-tls"))?;
    steps.push(Step::Stop {
        role: Role::KeyManager,
    })?;
    put(
        steps,
        applied(alloc, "shop", "shop-tls", "shop.example.com"),
    )?;
    steps.push(Step::Start {
        role: Role::KeyManager,
        behind: 0,
    })?;
    put(steps, delete(alloc, Kind::Certificate, "web"))?;
    put(steps, applied(alloc, "web", "web-tls", "example.com"))?;
    Ok(())
}

fn script(alloc: Global) -> Result<Steps, Fail> {
    let mut steps = Steps::new(alloc);
    first_steps(alloc, &mut steps)?;
    last_steps(alloc, &mut steps)?;
    Ok(steps)
}

fn faults(alloc: Global) -> Result<Numbers, Fail> {
    let mut faults = Numbers::new(alloc);
    faults.push(4)?;
    faults.push(31)?;
    Ok(faults)
}

fn scenario(alloc: Global, events: u64) -> Result<Scenario, Fail> {
    let faults = faults(alloc)?;
    let script = script(alloc)?;
    whole_scenario(alloc, events, 2, faults, Material::new(alloc), script)
}

/// A number below `bound`, of a linear congruential generator.
fn pick(random: &mut u64, bound: u64) -> u64 {
    *random = random
        .wrapping_mul(6_364_136_223_846_793_005)
        .wrapping_add(1_442_695_040_888_963_407);
    if bound == 0 {
        return 0;
    }
    (*random >> 33) % bound
}

fn some_role(random: &mut u64) -> Role {
    match pick(random, 9) {
        0 => Role::KeyManager,
        1 => Role::RequestManager,
        2 => Role::Approver,
        3 => Role::Issuer,
        4 => Role::Issuing,
        5 => Role::Readiness,
        6 => Role::Revision,
        _ => Role::Trigger,
    }
}

fn some_kind(random: &mut u64) -> Kind {
    match pick(random, 4) {
        0 => Kind::CertificateRequest,
        1 => Kind::Secret,
        _ => Kind::Certificate,
    }
}

fn some_key(alloc: Global, random: &mut u64) -> Result<Key, Fail> {
    match pick(random, 9) {
        0 | 1 | 2 => key(alloc, Kind::Certificate, "web"),
        3 | 4 | 5 => key(alloc, Kind::Certificate, "api"),
        6 => key(alloc, Kind::Certificate, "shop"),
        7 => key(alloc, Kind::Certificate, "nobody"),
        _ => key(alloc, Kind::Secret, "web-tls"),
    }
}

fn some_move(alloc: Global, random: &mut u64, begun: u64) -> Result<Move, Fail> {
    match pick(random, 10) {
        0 => Ok(Move::Script),
        1 | 2 | 3 => Ok(Move::Deliver {
            role: some_role(random),
            kind: some_kind(random),
            to: pick(random, 14),
        }),
        4 | 5 | 6 => Ok(Move::Begin {
            role: some_role(random),
            key: some_key(alloc, random)?,
        }),
        7 | 8 => Ok(Move::Next {
            pass: begun,
            incarnation: 1 + pick(random, 2) % 2,
        }),
        _ => Ok(Move::Next {
            pass: pick(random, begun.saturating_add(2)),
            incarnation: 1,
        }),
    }
}

/// Which answers came, in the order of their names below.
#[derive(Drop)]
struct Met {
    answers: [bool; 20],
}

static NAMES: [&str; 20] = [
    "done", "over", "waits", "stopped", "informer", "held", "current", "write", "queued",
    "process", "same", "own", "pass", "ended", "spent", "order", "asked", "mine", "settled",
    "views",
];

fn note_lack(met: &mut Met, lack: &Lack) {
    match lack {
        Lack::ScriptOver => met.answers[1] = true,
        Lack::ScriptWaits => met.answers[2] = true,
        Lack::Stopped => met.answers[3] = true,
        Lack::NoInformer => met.answers[4] = true,
        Lack::Held => met.answers[5] = true,
        Lack::Current { .. } => met.answers[6] = true,
        Lack::NotAWrite { .. } => met.answers[7] = true,
        Lack::NotQueued => met.answers[8] = true,
        Lack::InProcess => met.answers[9] = true,
        Lack::SameViews => met.answers[10] = true,
        Lack::OwnWrite { .. } => met.answers[11] = true,
        Lack::NoPass { .. } => met.answers[12] = true,
        Lack::NotAsked => met.answers[16] = true,
        Lack::Settled => met.answers[18] = true,
    }
}

fn note(met: &mut Met, answer: &Stepped) {
    match answer {
        Stepped::Done => met.answers[0] = true,
        Stepped::Order { .. } => met.answers[15] = true,
        Stepped::NotNow(lack) => note_lack(met, lack),
        Stepped::Ended { .. } => met.answers[13] = true,
        Stepped::NotMine { .. } => met.answers[17] = true,
        Stepped::OtherViews { .. } => met.answers[19] = true,
        Stepped::Spent { .. } => met.answers[14] = true,
    }
}

/// The value of the question that was told last, given to the pass that asked it, or to another one.
fn some_gift(
    alloc: Global,
    random: &mut u64,
    pass: u64,
    begun: u64,
    order: &Order,
) -> Result<Move, Fail> {
    let given = value_of(alloc, order)?;
    let to = if pick(random, 4) == 0 {
        pick(random, begun.saturating_add(2))
    } else {
        pass
    };
    Ok(Move::Give {
        pass: to,
        incarnation: 1 + pick(random, 3) / 2,
        given,
    })
}

/// The decision that was kept, handed in for the newest pass: one on what this pass saw is kept in its place.
fn some_decision(
    alloc: Global,
    world: &World,
    random: &mut u64,
    begun: u64,
    kept: &mut Option<Decided>,
) -> Result<Move, Fail> {
    let old = match decision(alloc, world, begun)? {
        Some(new) => mem::replace(kept, Some(new)),
        None if pick(random, 4) == 0 => kept.take(),
        None => None,
    };
    match old {
        Some(decided) => Ok(Move::Decide {
            pass: begun,
            incarnation: 1 + pick(random, 3) / 2,
            decided,
        }),
        None => some_move(alloc, random, begun),
    }
}

/// What the entries of the history show: a list, and passes that wrote, had nothing to do and were refused.
fn note_entries(shown: &mut [bool; 4], history: &History) {
    for entry in history.as_slice() {
        match entry {
            Entry::List { .. } => shown[0] = true,
            Entry::End { cause, .. } => match cause {
                Cause::Wrote => shown[1] = true,
                Cause::Nothing => shown[2] = true,
                Cause::Stopper(_) => shown[3] = true,
            },
            _ => {}
        }
    }
}

/// The plain move, but often any move in place of the next step of the script, so that much happens between two steps.
fn steady_move(
    alloc: Global,
    world: &mut World,
    random: &mut u64,
    begun: u64,
) -> Result<Move, Fail> {
    match world.plain(alloc)? {
        Some(Move::Script) => {
            if pick(random, 25) == 0 {
                return Ok(Move::Script);
            }
            some_move(alloc, random, begun)
        }
        Some(step) => Ok(step),
        None => some_move(alloc, random, begun),
    }
}

/// The next move: a plain one, a value of a question that was told, a decision, or any.
fn next_move(alloc: Global, world: &mut World, walk: &mut Walk) -> Result<Move, Fail> {
    let begun = walk.begun;
    let told = &walk.told;
    match (pick(&mut walk.random, 7), &told.last, &told.before) {
        (0, _, _) => some_move(alloc, &mut walk.random, begun),
        (6, _, _) => some_decision(alloc, world, &mut walk.random, begun, &mut walk.kept),
        (1, Some(order), _) => some_gift(alloc, &mut walk.random, told.pass, begun, order),
        (2, _, Some(order)) => some_gift(alloc, &mut walk.random, told.pass, begun, order),
        _ => steady_move(alloc, world, &mut walk.random, begun),
    }
}

/// The pass that told its question last, that question, and the one that another pass told before.
#[derive(Drop)]
struct Told {
    pass: u64,
    last: Option<Order>,
    before: Option<Order>,
}

fn tell(told: &mut Told, pass: u64, order: Order) {
    let last = mem::replace(&mut told.last, Some(order));
    if told.pass != pass {
        told.before = last;
    }
    told.pass = pass;
}

/// Keeps the question that a step has told.
fn hear(told: &mut Told, answer: Stepped) {
    if let Some((pass, order)) = answer.into_order() {
        tell(told, pass, order);
    }
}

/// What a walk keeps: its number, how many passes have begun, what was told, and a decision.
#[derive(Drop)]
struct Walk {
    random: u64,
    begun: u64,
    told: Told,
    kept: Option<Decided>,
}

/// Makes a move, and notes its answer.
fn make(
    alloc: Global,
    world: &mut World,
    walk: &mut Walk,
    met: &mut Met,
    step: Move,
) -> Result<(), Fail> {
    let begins = matches!(step, Move::Begin { .. });
    let answer = world.step(alloc, step)?;
    if begins && answer.is_done() {
        walk.begun = walk.begun.saturating_add(1);
    }
    note(met, &answer);
    hear(&mut walk.told, answer);
    Ok(())
}

fn go_on(alloc: Global, world: &mut World, walk: &mut Walk, met: &mut Met) -> Result<(), Fail> {
    let step = next_move(alloc, world, walk)?;
    make(alloc, world, walk, met, step)
}

fn set_out(seed: u64) -> Walk {
    Walk {
        random: seed,
        begun: 0,
        told: Told {
            pass: 0,
            last: None,
            before: None,
        },
        kept: None,
    }
}

/// Makes so many moves.
fn walk_far(alloc: Global, world: &mut World, walk: &mut Walk, met: &mut Met) -> Result<(), Fail> {
    for _ in 0..750 {
        go_on(alloc, world, walk, met)?;
    }
    Ok(())
}

/// The same on a new walk, which is dropped after it.
fn walk_on(alloc: Global, world: &mut World, met: &mut Met, seed: u64) -> Result<(), Fail> {
    let mut walk = set_out(seed);
    walk_far(alloc, world, &mut walk, met)
}

fn wander(
    alloc: Global,
    met: &mut Met,
    shown: &mut [bool; 4],
    seed: u64,
    events: u64,
) -> Result<u64, Fail> {
    let mut world = World::new(alloc, scenario(alloc, events)?)?;
    walk_on(alloc, &mut world, met, seed)?;
    note_entries(shown, world.history());
    begun_again(world.history())?;
    audit(world.history())
}

/// The names of those that did not come, with a blank after each.
fn missed(alloc: Global, met: &Met) -> Result<String, Fail> {
    let mut missed = String::new(alloc);
    for (name, came) in NAMES.iter().zip(met.answers.iter()) {
        if !*came {
            missed.push_str(name)?;
            missed.push(' ')?;
        }
    }
    Ok(missed)
}

/// The numbers that walks begin with, and how many entries their histories may have.
static WALKS: [(u64, u64); 5] = [(20, 900), (7, 900), (1, 900), (8, 900), (99, 60)];

#[test]
fn each_answer_comes(rt: HostRuntime) -> Result<(), Fail> {
    let alloc = rt.alloc();
    let mut met = Met {
        answers: [false; 20],
    };
    let mut shown = [false; 4];
    let mut issued = 0_u64;
    for (seed, events) in &WALKS {
        issued = issued.saturating_add(wander(alloc, &mut met, &mut shown, *seed, *events)?);
    }
    tells(&rt, "never came", missed(alloc, &met)?.as_str(), "");
    passes(&rt, "entries", shown == [true; 4]);
    passes(&rt, "issued", issued > 3);
    Ok(())
}
