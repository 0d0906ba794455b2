//! Loads move by move: at each accepted write of a role what is left to write falls for one Certificate and stays for each
//! other. At the end nothing is left but the request that each Certificate keeps.
use crate::left_to_write;
use cmc_answers::{ScriptedSigner, Signer, judge};
use cmc_keys::{KeyMaker, ScriptedKeys, is_allowed_size};
use cmc_objects::{Entry, Object, Order, Who};
use cmc_pass::Given;
use cmc_scenario::{Scenario, generate};
use cmc_world::{Move, Stepped, World, question};
use std::alloc::Global;
use std::process::Abort;
use std::test::Fail;

/// The value of the question, as the scripted maker and signer have it.
fn value_of(alloc: Global, order: Order) -> Result<Given, Fail> {
    match &order {
        Order::Key(asked) => {
            if is_allowed_size(asked.algorithm, asked.size) {
                return Ok(Given::Made(ScriptedKeys.make(alloc, asked)?));
            }
            Err(Fail::from("no size"))
        }
        Order::Csr(asked) => Ok(Given::Signed(ScriptedKeys.sign(alloc, asked)?)),
        Order::Sign(asked) => Ok(Given::Answered(ScriptedSigner.sign(alloc, asked)?)),
        Order::Judge(asked) => Ok(Given::Judged(judge(alloc, asked.copy()?)?)),
    }
}

/// Whether the move was made; the answer is dropped after it.
fn is_made(answer: Stepped) -> bool {
    match &answer {
        Stepped::Done | Stepped::Order { .. } => true,
        _ => false,
    }
}

/// Has the pass go on: it is given the value that it waits for, or goes on by itself.
fn go_on(alloc: Global, world: &mut World, pass: u64, incarnation: u64) -> Result<bool, Fail> {
    let step = match question(world.kernel(), pass)? {
        None => Move::Next { pass, incarnation },
        Some(order) => Move::Give {
            pass,
            incarnation,
            given: value_of(alloc, order)?,
        },
    };
    Ok(is_made(world.step(alloc, step)?))
}

/// Makes the plain move.
fn make(alloc: Global, world: &mut World, step: Move) -> Result<bool, Fail> {
    match step {
        Move::Next { pass, incarnation } => go_on(alloc, world, pass, incarnation),
        other => Ok(is_made(world.step(alloc, other)?)),
    }
}

/// What is left to write for each Certificate that exists, in order of key.
fn left_now(alloc: Global, world: &World) -> Result<Vec<u128>, Fail> {
    let mut left = Vec::new(alloc);
    for (key, object) in world.objects().iter() {
        if matches!(object, Object::Cert(_)) {
            left.push(left_to_write(alloc, world.kernel(), key)?)?;
        }
    }
    Ok(left)
}

/// Whether the newest entry is a call of a pass.
fn is_called_by_role(world: &World) -> bool {
    match world.history().as_slice().last() {
        Some(
            Entry::Call {
                who: Who::Pass(_),
                ..
            },
        ) => true,
        _ => false,
    }
}

/// Whether it falls for one Certificate, and stays for each other.
fn falls_for_one(before: &[u128], after: &[u128]) -> bool {
    let fallen = before.iter().zip(after).filter(|(old, new)| new < old);
    let risen = before.iter().zip(after).filter(|(old, new)| old < new);
    before.len() == after.len() && fallen.count() == 1 && risen.count() == 0
}

/// How the run went: how many writes of roles were accepted, and of how many of them what is left fell for one Certificate
/// alone.
#[derive(Clone, Copy)]
struct Falls {
    writes: u64,
    fell: u64,
}

/// Makes the move, and counts what it wrote.
fn make_one(alloc: Global, world: &mut World, step: Move, falls: &mut Falls) -> Result<bool, Fail> {
    let before = left_now(alloc, world)?;
    let accepted = world.kernel().log().accepted();
    let made = make(alloc, world, step)?;
    if world.kernel().log().accepted() == accepted || !is_called_by_role(world) {
        return Ok(made);
    }
    let after = left_now(alloc, world)?;
    falls.writes = falls.writes.saturating_add(1);
    if falls_for_one(before.as_slice(), after.as_slice()) {
        falls.fell = falls.fell.saturating_add(1);
    }
    Ok(made)
}

/// Makes the plain moves of the load to the end; `None` where a move was not made or the end does not come.
fn run(alloc: Global, world: &mut World) -> Result<Option<Falls>, Fail> {
    let mut falls = Falls { writes: 0, fell: 0 };
    for _ in 0..5000 {
        match world.plain(alloc)? {
            None => return Ok(Some(falls)),
            Some(step) => {
                if !make_one(alloc, world, step, &mut falls)? {
                    return Ok(None);
                }
            }
        }
    }
    Ok(None)
}

/// Each Certificate of the load is issued and renewed, and keeps one request.
fn falls_in_load(rt: &impl Abort, alloc: Global, load: Scenario) -> Result<(), Fail> {
    let mut world = World::new(alloc, load)?;
    let Some(falls) = run(alloc, &mut world)? else {
        return Err(Fail::from("no end"));
    };
    let left = left_now(alloc, &world)?;
    assert!(rt; falls.writes > 0, "{} writes", falls.writes);
    assert!(rt;
        falls.fell == falls.writes,
        "{} of {} writes fell",
        falls.fell,
        falls.writes
    );
    assert!(rt;
        left.iter().all(|rest| *rest == 1),
        "more is left than the request that is kept"
    );
    Ok(())
}

#[test]
fn each_write_of_a_role_leaves_less_to_write(rt: HostRuntime) -> Result<(), Fail> {
    let alloc = rt.alloc();
    falls_in_load(&rt, alloc, generate(alloc, 1)?)?;
    falls_in_load(&rt, alloc, generate(alloc, 2)?)?;
    falls_in_load(&rt, alloc, generate(alloc, 3)?)
}
