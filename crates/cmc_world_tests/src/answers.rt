//! What a world answers to moves that are not possible, each answer with all that it says.
use crate::checks::passes;
use crate::fixtures::{applied, is_done, put, value_then, whole_scenario};
use crate::restarts::{make, make_whole, open_pass, scenario as row_scenario};
use cmc_history::History;
use cmc_meta::{Kind, Numbers};
use cmc_objects::{Entry, Material, Order, Role, Step, Who};
use cmc_setup::Steps;
use cmc_tests::values::key;
use cmc_world::{Lack, Move, Stepped, World, question};
use std::alloc::Global;
use std::process::Abort;
use std::test::Fail;

/// Why the move is not possible now; `None` of any other answer.
fn lack_of(answer: &Stepped) -> Option<Lack> {
    match answer {
        Stepped::NotNow(lack) => Some(*lack),
        _ => None,
    }
}

/// Why the world does not make the move now; `None` of any other answer.
fn lack(alloc: Global, world: &mut World, step: Move) -> Result<Option<Lack>, Fail> {
    Ok(lack_then(world.step(alloc, step)?))
}

fn lack_then(answer: Stepped) -> Option<Lack> {
    lack_of(&answer)
}

fn begin(alloc: Global, role: Role, name: &str) -> Result<Move, Fail> {
    let key = key(alloc, Kind::Certificate, name)?;
    Ok(Move::Begin { role, key })
}

/// Tells the role of the newest Certificate.
fn tell(alloc: Global, world: &mut World, role: Role) -> Result<(), Fail> {
    let kind = Kind::Certificate;
    let to = world.kernel().log().last_of_kind(kind);
    make(alloc, world, Move::Deliver { role, kind, to })
}

static CERTIFICATES: [&str; 2] = ["web", "api"];

/// A world in which the Certificates `web` and `api` stand.
fn two_certificates(alloc: Global) -> Result<World, Fail> {
    let mut script = Steps::new(alloc);
    put(&mut script, applied(alloc, "web", "web-tls", "example.com"))?;
    put(
        &mut script,
        applied(alloc, "api", "api-tls", "api.example.com"),
    )?;
    let none = Material::new(alloc);
    let scenario = whole_scenario(alloc, 400, 1000, Numbers::new(alloc), none, script)?;
    let mut world = World::new(alloc, scenario)?;
    make(alloc, &mut world, Move::Script)?;
    make(alloc, &mut world, Move::Script)?;
    Ok(world)
}

#[test]
fn names_what_an_informer_and_a_queue_lack(rt: HostRuntime) -> Result<(), Fail> {
    let alloc = rt.alloc();
    let mut world = two_certificates(alloc)?;
    let (role, kind) = (Role::Approver, Kind::Secret);
    let answer = lack(alloc, &mut world, Move::Deliver { role, kind, to: 1 })?;
    passes(&rt, "no informer", matches!(answer, Some(Lack::NoInformer)));
    let role = Role::KeyManager;
    tell(alloc, &mut world, role)?;
    let kind = Kind::Certificate;
    let answer = lack(alloc, &mut world, Move::Deliver { role, kind, to: 2 })?;
    let current = matches!(answer, Some(Lack::Current { position: 2 }));
    passes(&rt, "current", current);
    make_whole(alloc, &mut world, begin(alloc, role, "web")?)?;
    let answer = lack(alloc, &mut world, begin(alloc, role, "web")?)?;
    passes(&rt, "same views", matches!(answer, Some(Lack::SameViews)));
    Ok(())
}

/// Has the key manager ask for a key of the Certificate; the number of its pass, which waits.
fn asking(alloc: Global, world: &mut World, name: &str) -> Result<u64, Fail> {
    make(alloc, world, begin(alloc, Role::KeyManager, name)?)?;
    let Some(pass) = open_pass(world.history()) else {
        return Err(Fail::from("no pass"));
    };
    let incarnation = 1;
    make(alloc, world, Move::Next { pass, incarnation })?;
    Ok(pass)
}

fn asked(world: &World, pass: u64) -> Result<Order, Fail> {
    match question(world.kernel(), pass)? {
        Some(order) => Ok(order),
        None => Err(Fail::from("no question")),
    }
}

/// The answer where the pass is given the value of this question.
fn given(alloc: Global, world: &mut World, pass: u64, order: Order) -> Result<Stepped, Fail> {
    let given = value_then(alloc, order)?;
    let step = Move::Give {
        pass,
        incarnation: 1,
        given,
    };
    Ok(world.step(alloc, step)?)
}

/// Whether the answer names the question for which the pass waits, and the one whose value came.
fn names_both(answer: &Stepped, kept: &Order, given: &Order) -> bool {
    match answer {
        Stepped::NotMine {
            kept: waits,
            given: came,
        } => waits.same(kept) && came.same(given),
        _ => false,
    }
}

/// Whether the pass of one question refuses the key that was made for the other one's, and names both.
fn refuses(alloc: Global, world: &mut World, own: u64, other: u64) -> Result<bool, Fail> {
    let answer = given(alloc, world, own, asked(world, other)?)?;
    Ok(names_both(&answer, &asked(world, own)?, &asked(world, other)?))
}

#[test]
fn names_both_questions(rt: HostRuntime) -> Result<(), Fail> {
    let alloc = rt.alloc();
    let mut world = two_certificates(alloc)?;
    tell(alloc, &mut world, Role::Trigger)?;
    for name in &CERTIFICATES {
        make_whole(alloc, &mut world, begin(alloc, Role::Trigger, name)?)?;
    }
    tell(alloc, &mut world, Role::KeyManager)?;
    let web = asking(alloc, &mut world, "web")?;
    let api = asking(alloc, &mut world, "api")?;
    passes(&rt, "web", refuses(alloc, &mut world, web, api)?);
    passes(&rt, "api", refuses(alloc, &mut world, api, web)?);
    let own = asked(&world, web)?;
    let answer = given(alloc, &mut world, web, own)?;
    passes(&rt, "its own", is_done(answer));
    Ok(())
}

/// Issuing stops as soon as it has written its Secret, and starts again.
fn stopping(alloc: Global) -> Result<World, Fail> {
    let role = Role::Issuing;
    let mut script = Steps::new(alloc);
    put(&mut script, applied(alloc, "web", "web-tls", "example.com"))?;
    script.push(Step::Until {
        role,
        kind: Kind::Secret,
        writes: 1,
    })?;
    script.push(Step::Stop { role })?;
    script.push(Step::Start { role, behind: 0 })?;
    Ok(World::new(alloc, row_scenario(alloc, script)?)?)
}

/// Makes plain moves until the newest entry is a stop.
fn run_to_the_stop(alloc: Global, world: &mut World) -> Result<(), Fail> {
    for _ in 0..400 {
        if let Some(Entry::Stop { .. }) = world.history().as_slice().last() {
            return Ok(());
        }
        match world.plain(alloc)? {
            Some(step) => make(alloc, world, step)?,
            None => return Err(Fail::from("no stop")),
        }
    }
    Err(Fail::from("no end"))
}

/// The pass that called last; 0 where none did.
fn last_caller(history: &History) -> u64 {
    let mut caller = 0;
    for entry in history.as_slice() {
        if let Entry::Call {
            who: Who::Pass(pass),
            ..
        } = entry
        {
            caller = *pass;
        }
    }
    caller
}

#[test]
fn names_the_incarnation_of_a_pass_that_was_stopped(rt: HostRuntime) -> Result<(), Fail> {
    let alloc = rt.alloc();
    let mut world = stopping(alloc)?;
    run_to_the_stop(alloc, &mut world)?;
    let (pass, incarnation) = (last_caller(world.history()), 1);
    let answer = lack(alloc, &mut world, Move::Next { pass, incarnation })?;
    let none_open = matches!(answer, Some(Lack::NoPass { pass: named }) if named == pass);
    passes(&rt, "no pass", none_open);
    make(alloc, &mut world, Move::Script)?;
    let answer = world.step(alloc, Move::Next { pass, incarnation })?;
    let ended = matches!(&answer, Stepped::Ended { incarnation: 2 });
    passes(&rt, "ended", ended);
    Ok(())
}
