// What no clause says: that a decision which is made outside of a world is taken by it, and that the run goes on as if the
// pass had decided itself. The answers to decisions are those of the table, row by row, on the pass of one of two
// Certificates.
use crate::checks::{passes, tells};
use crate::fixtures::{applied, put, value_then, whole_scenario};
use cmc_history::History;
use cmc_meta::{Key, Kind, Numbers};
use cmc_objects::{Call, Entry, Material, Role, Step};
use cmc_setup::{Scenario, Steps};
use cmc_tests::values::{key, let_go};
use cmc_world::{Decided, Lack, Move, Stepped, World, decide, question};
use std::alloc::Global;
use std::process::Abort;
use std::test::Fail;

fn script(alloc: Global) -> Result<Steps, Fail> {
    let mut steps = Steps::new(alloc);
    put(&mut steps, applied(alloc, "web", "web-tls", "example.com"))?;
    put(
        &mut steps,
        applied(alloc, "api", "api-tls", "api.example.com"),
    )?;
    steps.push(Step::Settle)?;
    Ok(steps)
}

/// Two Certificates, which all eight roles work on until nothing is left to do.
fn scenario(alloc: Global) -> Result<Scenario, Fail> {
    let script = script(alloc)?;
    let none = Material::new(alloc);
    whole_scenario(alloc, 400, 1000, Numbers::new(alloc), none, script)
}

/// A decision on what the pass of this number saw; none where no such pass is open, or its role does not decide alone.
pub(crate) fn decision(alloc: Global, world: &World, pass: u64) -> Result<Option<Decided>, Fail> {
    match world.kernel().begun(pass)? {
        Some(begun) => Ok(decide(alloc, begun)?),
        None => Ok(None),
    }
}

/// What a step answers, in a word.
fn word_of(answer: &Stepped) -> &'static str {
    match answer {
        Stepped::Done => "done",
        Stepped::Order { .. } => "order",
        Stepped::NotNow(Lack::Settled) => "settled",
        Stepped::NotNow(Lack::NoPass { .. }) => "no pass",
        Stepped::NotNow(Lack::NotQueued) => "not queued",
        Stepped::OtherViews { .. } => "other views",
        Stepped::Ended { .. } => "ended",
        Stepped::Spent { .. } => "spent",
        _ => "another answer",
    }
}

/// The answer in a word; it is dropped after that.
pub(crate) fn word_then(answer: Stepped) -> &'static str {
    word_of(&answer)
}

/// Makes the move, and tells the answer in a word.
pub(crate) fn make(alloc: Global, world: &mut World, step: Move) -> Result<&'static str, Fail> {
    Ok(word_then(world.step(alloc, step)?))
}

/// Has the pass go on: it is given the value that it waits for, or makes its next move.
fn go_on(
    alloc: Global,
    world: &mut World,
    pass: u64,
    incarnation: u64,
) -> Result<&'static str, Fail> {
    match question(world.kernel(), pass)? {
        Some(order) => {
            let given = value_then(alloc, order)?;
            let step = Move::Give {
                pass,
                incarnation,
                given,
            };
            make(alloc, world, step)
        }
        None => make(alloc, world, Move::Next { pass, incarnation }),
    }
}

/// Hands in a decision for the pass.
fn hand_in(
    alloc: Global,
    world: &mut World,
    pass: u64,
    incarnation: u64,
    decided: Decided,
) -> Result<&'static str, Fail> {
    make(
        alloc,
        world,
        Move::Decide {
            pass,
            incarnation,
            decided,
        },
    )
}

/// Has the pass take a decision where it can, and go on by itself where it cannot. It counts the decisions that were taken.
fn go_on_decided(
    alloc: Global,
    world: &mut World,
    pass: u64,
    incarnation: u64,
    taken: &mut u64,
) -> Result<&'static str, Fail> {
    let Some(decided) = decision(alloc, world, pass)? else {
        return go_on(alloc, world, pass, incarnation);
    };
    match hand_in(alloc, world, pass, incarnation, decided)? {
        "settled" => go_on(alloc, world, pass, incarnation),
        answer => {
            *taken = taken.saturating_add(1);
            Ok(answer)
        }
    }
}

/// Makes the plain move. With decisions a pass that goes on takes one where it can.
fn make_plain(
    alloc: Global,
    world: &mut World,
    step: Move,
    decides: bool,
    taken: &mut u64,
) -> Result<&'static str, Fail> {
    match step {
        Move::Next { pass, incarnation } => {
            if decides {
                return go_on_decided(alloc, world, pass, incarnation, taken);
            }
            go_on(alloc, world, pass, incarnation)
        }
        other => make(alloc, world, other),
    }
}

/// Runs the scenario by the plain order, up to its end. With decisions each pass takes one that can.
fn run(alloc: Global, world: &mut World, decides: bool, taken: &mut u64) -> Result<(), Fail> {
    for _ in 0..400 {
        match world.plain(alloc)? {
            Some(step) => {
                let _ = make_plain(alloc, world, step, decides, taken)?;
            }
            None => return Ok(()),
        }
    }
    Err(Fail::from("the run does not end"))
}

/// Makes the plain move with no decisions; a begin has to be done.
fn make_alone(alloc: Global, world: &mut World, step: Move) -> Result<(), Fail> {
    match step {
        Move::Begin { role, key } => return begin_at(alloc, world, role, key),
        Move::Next { pass, incarnation } => {
            let _ = go_on(alloc, world, pass, incarnation)?;
        }
        other => {
            let _ = make(alloc, world, other)?;
        }
    }
    Ok(())
}

/// Whether the move has the role begin a pass.
fn begins(step: &Move, role: Role) -> bool {
    match step {
        Move::Begin { role: next, .. } => next.same(role),
        _ => false,
    }
}

/// Makes the plain move, unless it has the role begin: true where it does.
fn comes_to(alloc: Global, world: &mut World, role: Role) -> Result<bool, Fail> {
    let Some(step) = world.plain(alloc)? else {
        return Err(Fail::from("the role never begins"));
    };
    if begins(&step, role) {
        let_go(step);
        return Ok(true);
    }
    make_alone(alloc, world, step)?;
    Ok(false)
}

/// Goes on by the plain order until the role begins a pass, and has it begin on this key: the number of that pass.
fn begun_on(alloc: Global, world: &mut World, role: Role, word: &str) -> Result<u64, Fail> {
    for _ in 0..400 {
        if comes_to(alloc, world, role)? {
            return begin(alloc, world, role, word);
        }
    }
    Err(Fail::from("the run does not end"))
}

fn begin_at(alloc: Global, world: &mut World, role: Role, key: Key) -> Result<(), Fail> {
    if make(alloc, world, Move::Begin { role, key })? == "done" {
        return Ok(());
    }
    Err(Fail::from("the role does not begin"))
}

/// Has the role begin a pass on the Certificate of this name: the number of that pass.
fn begin(alloc: Global, world: &mut World, role: Role, word: &str) -> Result<u64, Fail> {
    let key = key(alloc, Kind::Certificate, word)?;
    begin_at(alloc, world, role, key)?;
    Ok(world.kernel().passes_begun())
}

fn are_same_calls(left: &Call, right: &Call) -> bool {
    match (left, right) {
        (Call::Create { object, .. }, Call::Create { object: other, .. }) => object.same(other),
        (Call::Update { object, .. }, Call::Update { object: other, .. }) => object.same(other),
        (Call::UpdateStatus { object, .. }, Call::UpdateStatus { object: other, .. }) => {
            object.same(other)
        }
        (Call::Delete { key, .. }, Call::Delete { key: other, .. }) => *key == *other,
        (Call::Get { key }, Call::Get { key: other }) => *key == *other,
        _ => false,
    }
}

/// The sort of the entry, and the pass that it is of.
fn sort_of(entry: &Entry) -> (u8, u64) {
    match entry {
        Entry::Call { .. } => (1, 0),
        Entry::Begin { pass, .. } => (2, *pass),
        Entry::Ask { pass, .. } => (3, *pass),
        Entry::Made { pass, .. } => (4, *pass),
        Entry::Signed { pass, .. } => (5, *pass),
        Entry::Answered { pass, .. } => (6, *pass),
        Entry::Judged { pass, .. } => (7, *pass),
        Entry::End { pass, .. } => (8, *pass),
        Entry::Deliver { to, .. } => (9, *to),
        _ => (10, 0),
    }
}

fn are_same_entries(left: &Entry, right: &Entry) -> bool {
    match (left, right) {
        (Entry::Call { call, .. }, Entry::Call { call: other, .. }) => are_same_calls(call, other),
        (Entry::Ask { order, .. }, Entry::Ask { order: other, .. }) => order.same(other),
        _ => true,
    }
}

/// Whether both have the same entries, one after another, as far as passes can differ in them.
fn are_same(left: &History, right: &History) -> bool {
    if left.len() != right.len() {
        return false;
    }
    left.as_slice().iter().zip(right.as_slice()).all(|(entry, other)| sort_of(entry)
        == sort_of(other)
        && are_same_entries(entry, other))
}

/// A decision on the first pass or on the second, handed in for one of them or for none, with the answer that the table has.
/// Each row comes after those above it.
static ROWS: [(&str, bool, u64, u64, &str); 5] = [
    ("on another key", false, 0, 1, "other views"),
    ("of another incarnation", true, 0, 2, "ended"),
    ("for no pass", true, 100, 1, "no pass"),
    ("on what it saw", true, 0, 1, "order"),
    ("once more", true, 0, 1, "settled"),
];

fn decides_row(
    alloc: Global,
    world: &mut World,
    on: u64,
    pass: u64,
    incarnation: u64,
) -> Result<&'static str, Fail> {
    match decision(alloc, world, on)? {
        Some(decided) => hand_in(alloc, world, pass, incarnation, decided),
        None => Ok("no decision"),
    }
}

/// The row is answered so, and the history grows by an entry exactly where the decision is taken.
fn answers(rt: &impl Abort, row: &str, world: &World, before: u64, told: &str, want: &str) {
    let grown = u64::from(want == "order");
    tells(rt, row, told, want);
    let is_grown = world.history().len() == before.saturating_add(grown);
    passes(rt, row, is_grown);
}

#[test]
fn a_decision_is_answered_by_its_table(rt: HostRuntime) -> Result<(), Fail> {
    let alloc = rt.alloc();
    let mut world = World::new(alloc, scenario(alloc)?)?;
    let pass = begun_on(alloc, &mut world, Role::RequestManager, "api")?;
    let other = begin(alloc, &mut world, Role::RequestManager, "web")?;
    for (row, own, further, incarnation, want) in &ROWS {
        let before = world.history().len();
        let on = if *own { pass } else { other };
        let to = pass.saturating_add(*further);
        let told = decides_row(alloc, &mut world, on, to, *incarnation)?;
        answers(&rt, row, &world, before, told, want);
    }
    Ok(())
}

/// A decision of the request manager.
fn decided_once(alloc: Global) -> Result<Option<Decided>, Fail> {
    let mut world = World::new(alloc, scenario(alloc)?)?;
    let pass = begun_on(alloc, &mut world, Role::RequestManager, "api")?;
    decision(alloc, &world, pass)
}

/// What the pass is answered to a decision of the request manager.
fn told_pass(alloc: Global, world: &mut World, pass: u64) -> Result<&'static str, Fail> {
    match decided_once(alloc)? {
        Some(decided) => hand_in(alloc, world, pass, 1, decided),
        None => Ok("no decision"),
    }
}

/// What a pass of the trigger is answered to a decision of the request manager.
fn told_trigger(alloc: Global) -> Result<&'static str, Fail> {
    let mut world = World::new(alloc, scenario(alloc)?)?;
    let first = begun_on(alloc, &mut world, Role::Trigger, "api")?;
    told_pass(alloc, &mut world, first)
}

/// Whether there is a decision on what the pass saw; it is dropped after that.
fn has_decision(alloc: Global, world: &World, pass: u64) -> Result<bool, Fail> {
    let decided = decision(alloc, world, pass)?;
    Ok(decided.is_some())
}

/// Whether there is a decision on what a pass of the trigger saw.
fn decides_for_trigger(alloc: Global) -> Result<bool, Fail> {
    let mut world = World::new(alloc, scenario(alloc)?)?;
    let first = begun_on(alloc, &mut world, Role::Trigger, "api")?;
    has_decision(alloc, &world, first)
}

#[test]
fn a_trigger_takes_no_decision(rt: HostRuntime) -> Result<(), Fail> {
    let alloc = rt.alloc();
    tells(&rt, "trigger", told_trigger(alloc)?, "settled");
    passes(&rt, "no decision", !decides_for_trigger(alloc)?);
    Ok(())
}

/// A run of the scenario, with decisions or without, and how many of them were taken.
fn whole_run(alloc: Global, decides: bool) -> Result<(World, u64), Fail> {
    let mut taken = 0_u64;
    let mut world = World::new(alloc, scenario(alloc)?)?;
    run(alloc, &mut world, decides, &mut taken)?;
    Ok((world, taken))
}

/// Both Certificates have a request made, and are issued: four decisions at least are taken.
#[test]
fn a_run_by_decisions_is_the_plain_one(rt: HostRuntime) -> Result<(), Fail> {
    let (decided, taken) = whole_run(rt.alloc(), true)?;
    let (alone, none) = whole_run(rt.alloc(), false)?;
    passes(&rt, "four decisions", taken >= 4);
    passes(&rt, "no decision", none == 0);
    let are_same = are_same(decided.history(), alone.history());
    passes(&rt, "the same", are_same);
    Ok(())
}
