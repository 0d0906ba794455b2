//! What no clause says: that a work queue makes its room where memory is ample, and one run of each call.
use crate::checks::{passes, passes_at, tells};
use cmc_meta::{Key, Kind};
use cmc_queue::{Found, Queue};
use cmc_tests::values::key;
use std::alloc::{AllocError, Global};
use std::process::Abort;
use std::test::Fail;

/// A call of the queue.
enum Step {
    Add,
    Take,
    Done,
    After(i64),
    Tick(i64),
    Park(Kind, u64),
    Moved(Kind, u64),
    FoundNothing,
    FoundSomething,
    Leave,
}

/// Makes the room of the call and then the call, and gives what it answers.
fn made(queue: &mut Queue, key: &Key, step: &Step) -> Result<bool, Fail> {
    match step {
        Step::Add => {
            queue.room(key)?;
            queue.add(key);
        }
        Step::Take => return Ok(queue.take(key)),
        Step::Done => queue.done(key),
        Step::After(at) => {
            queue.room_at(key, *at)?;
            queue.after(key, *at);
        }
        Step::Tick(now) => queue.tick(*now),
        Step::Park(kind, version) => {
            queue.room_for(key, *kind, *version)?;
            queue.park(key, *kind, *version);
        }
        Step::Moved(kind, version) => queue.moved(*kind, *version),
        Step::FoundNothing => {
            queue.room(key)?;
            queue.found_nothing(key);
        }
        Step::FoundSomething => {
            queue.room_to_find(key)?;
            queue.found_something(key);
        }
        Step::Leave => {
            queue.room(key)?;
            queue.leave(key);
        }
    }
    Ok(true)
}

/// Whether both are the same finding.
fn same(one: Found, other: Found) -> bool {
    match one {
        Found::Unknown => matches!(other, Found::Unknown),
        Found::Nothing => matches!(other, Found::Nothing),
        Found::Something => matches!(other, Found::Something),
    }
}

/// Calls, what each answers, and then whether the key is ready, in process and parked, and its moment (0 for none).
static STEPS: [(Step, bool, bool, bool, bool, i64); 19] = [
    (Step::Take, false, false, false, false, 0),
    (Step::Add, true, true, false, false, 0),
    (Step::Take, true, false, true, false, 0),
    (Step::Add, true, true, true, false, 0),
    (Step::Take, false, true, true, false, 0),
    (Step::Done, true, true, false, false, 0),
    (Step::Take, true, false, true, false, 0),
    (Step::Park(Kind::Secret, 7), true, false, true, true, 0),
    (Step::Done, true, false, false, true, 0),
    (Step::Take, false, false, false, true, 0),
    (
        Step::Moved(Kind::Certificate, 9),
        true,
        false,
        false,
        true,
        0,
    ),
    (Step::Moved(Kind::Secret, 6), true, false, false, true, 0),
    (Step::Moved(Kind::Secret, 7), true, true, false, false, 0),
    (Step::Take, true, false, true, false, 0),
    (Step::After(50), true, false, true, false, 50),
    (Step::After(60), true, false, true, false, 50),
    (Step::After(40), true, false, true, false, 40),
    (Step::Tick(39), true, false, true, false, 40),
    (Step::Tick(40), true, true, true, false, 0),
];

#[test]
fn keys_come_and_go(rt: HostRuntime) -> Result<(), Fail> {
    let mut queue = Queue::new(rt.alloc());
    let web = key(rt.alloc(), Kind::Certificate, "web")?;
    for (number, (step, answer, ready, working, parked, timed)) in STEPS.iter().enumerate() {
        let made = made(&mut queue, &web, step)?;
        passes_at(&rt, number, "answer", made == *answer);
        let row = queue.row(&web);
        passes_at(&rt, number, "ready", row.ready == *ready);
        passes_at(&rt, number, "working", row.working == *working);
        passes_at(&rt, number, "parked", row.parked.is_some() == *parked);
        passes_at(&rt, number, "timed", row.timed.unwrap_or(0) == *timed);
    }
    Ok(())
}

/// Calls, and then what is known of the key, whether it is ready, and whether it is the first to be looked at.
static LOOKS: [(Step, Found, bool, bool); 12] = [
    (Step::Add, Found::Unknown, true, true),
    (Step::FoundNothing, Found::Nothing, true, false),
    (Step::Tick(10), Found::Nothing, true, false),
    (Step::Add, Found::Unknown, true, true),
    (Step::FoundSomething, Found::Something, true, false),
    (Step::Tick(11), Found::Unknown, true, true),
    (Step::After(50), Found::Unknown, true, true),
    (Step::Leave, Found::Unknown, false, false),
    (Step::Tick(50), Found::Unknown, true, true),
    (Step::FoundSomething, Found::Something, true, false),
    (Step::Take, Found::Unknown, false, false),
    (Step::Tick(51), Found::Unknown, false, false),
];

#[test]
fn looks_are_kept(rt: HostRuntime) -> Result<(), Fail> {
    let mut queue = Queue::new(rt.alloc());
    let web = key(rt.alloc(), Kind::Certificate, "web")?;
    for (number, (step, work, ready, fresh)) in LOOKS.iter().enumerate() {
        made(&mut queue, &web, step)?;
        let row = queue.row(&web);
        passes_at(&rt, number, "work", same(row.work, *work));
        passes_at(&rt, number, "ready", row.ready == *ready);
        passes_at(
            &rt,
            number,
            "fresh",
            queue.first_fresh().is_some() == *fresh,
        );
    }
    Ok(())
}

/// The name of the key, or an empty text.
fn named(key: Option<&Key>) -> &str {
    match key {
        Some(key) => key.name.as_str(),
        None => "",
    }
}

fn add(queue: &mut Queue, key: &Key) -> Result<(), AllocError> {
    queue.room(key)?;
    queue.add(key);
    Ok(())
}

/// Of the queue that has both keys, the one of `api` comes before that of `web`, and can be taken.
fn gives_both(rt: &impl Abort, queue: &mut Queue, web: &Key, api: &Key) {
    tells(rt, "first", named(queue.first()), "api");
    tells(rt, "following", named(queue.following(api)), "web");
    tells(rt, "at the end", named(queue.following(web)), "");
    passes(rt, "taken", queue.take(api));
    tells(rt, "first then", named(queue.first()), "web");
}

/// A new queue gives none, and then both.
fn gives_in_order(rt: &impl Abort, alloc: Global, web: &Key, api: &Key) -> Result<(), Fail> {
    let mut queue = Queue::new(alloc);
    tells(rt, "none", named(queue.first()), "");
    add(&mut queue, web)?;
    add(&mut queue, api)?;
    gives_both(rt, &mut queue, web, api);
    Ok(())
}

#[test]
fn keys_are_given_in_order(rt: HostRuntime) -> Result<(), Fail> {
    let web = key(rt.alloc(), Kind::Certificate, "web")?;
    let api = key(rt.alloc(), Kind::Certificate, "api")?;
    gives_in_order(&rt, rt.alloc(), &web, &api)
}
