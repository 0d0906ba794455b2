// Runs in threads: they end as runs by one hand end, and two workers are at an issuer at once.
use crate::checks::passes;
use crate::status::Status;
use crate::tests::{run_with, web};
use cmc_answers::ScriptedSigner;
use cmc_keys::ScriptedKeys;
use cmc_objects::{Entry, Order, Shared, SignOrder, Who};
use cmc_scenario::generate;
use cmc_seed::HashSeed;
use cmc_workers::{Driven, Gate, Point, Work, drive};
use cmc_world::World;
use std::alloc::{AllocError, Global};
use std::process::Abort;
use std::sync::Wait;
use std::sync::atomic::{AtomicU64, Ordering};
use std::test::Fail;
use std::thread;
use std::thread::Threads;

/// What the summary begins with where the one Certificate is ready.
static READY: &str =
    "{\"summary\":{\"certificates\":1,\"ready\":1,\"secrets\":1,\"waiting\":[]}}\n";

/// Scenarios of one Certificate that is ready in the end, whoever comes first; `@` stands for it, `#` for the same with an
/// issuer of another group.
static READY_IN_THE_END: [&str; 4] = [
    r#"{"material":{"default/web":{"keys":[{"synthetic":1}]}},"script":[{"do":"apply","object":@}]}"#,
    r#"{"script":[{"do":"apply","object":@},{"do":"settle"},{"do":"hold","kind":"Certificate","role":"issuing"},{"do":"hold","kind":"CertificateRequest","role":"issuing"},{"do":"hold","kind":"Secret","role":"issuing"},{"do":"stop","role":"issuing"},{"behind":5,"do":"start","role":"issuing"},{"do":"settle"},{"do":"release","kind":"Certificate","role":"issuing"},{"do":"release","kind":"CertificateRequest","role":"issuing"},{"do":"release","kind":"Secret","role":"issuing"},{"do":"settle"}]}"#,
    r#"{"faults":[9],"material":{"default/web":{"keys":[{"synthetic":1}]}},"script":[{"do":"apply","object":@}]}"#,
    r#"{"script":[{"do":"apply","object":#},{"do":"settle"},{"certificate":"default/web","do":"answer","revision":1,"row":{"reply":"issue"}},{"do":"settle"},{"certificate":"default/web","do":"approve","revision":1},{"do":"settle"}]}"#,
];

/// The Certificate with an issuer that no controller here answers for.
static OTHER: &str =
    r#"{"apiVersion":"cert-manager.io/v1","kind":"Certificate","metadata":{"name":"web","namespace":"default"},"spec":{"dnsNames":["example.com"],"issuerRef":{"group":"example.org","name":"ca"},"privateKey":{"algorithm":"ECDSA"},"secretName":"web-tls"}}"#;

fn filled(alloc: Global, row: &str) -> Result<String, AllocError> {
    let text = row.replace(alloc, "@", web())?;
    text.as_str().replace(alloc, "#", OTHER)
}

fn is_ready<R: Threads + Wait + Sync>(
    rt: &R,
    alloc: Global,
    row: &str,
    words: &str,
) -> Result<bool, AllocError> {
    let input = filled(alloc, row)?;
    let ended = run_with(rt, alloc, words, input.as_bytes(), &[], &[])?;
    let is_done = matches!(ended.status, Status::Done);
    Ok(is_done && ended.written.as_slice() == READY.as_bytes())
}

#[test]
fn finishes_in_threads(rt: HostRuntime) -> Result<(), Fail> {
    let alloc = rt.alloc();
    for row in &READY_IN_THE_END {
        passes(
            &rt,
            row,
            is_ready(&rt, alloc, row, "run --workers 4 --summary")?,
        );
        passes(
            &rt,
            row,
            is_ready(&rt, alloc, row, "run --summary --workers=1")?,
        );
    }
    Ok(())
}

/// Holds the first work of its sort until a second one is at the gate.
#[derive(Drop)]
struct Holding {
    /// Decisions are held, else questions to issuers.
    decisions: bool,
    here: AtomicU64,
    first: AtomicU64,
    second: AtomicU64,
    /// 1 once the second has come while the first was held.
    met: AtomicU64,
}

impl Holding {
    fn new(decisions: bool) -> Holding {
        Holding {
            decisions,
            here: AtomicU64::new(0),
            first: AtomicU64::new(0),
            second: AtomicU64::new(0),
            met: AtomicU64::new(0),
        }
    }

    fn is_held(&self, work: Work) -> bool {
        match work {
            Work::Decide => self.decisions,
            Work::Sign => !self.decisions,
            _ => false,
        }
    }

    /// The entries of the first and the second work.
    fn entries(&self) -> (u64, u64) {
        (
            self.first.load(Ordering::SeqCst),
            self.second.load(Ordering::SeqCst),
        )
    }

    /// Whether the second came to the gate while the first was held there.
    fn have_met(&self) -> bool {
        self.met.load(Ordering::SeqCst) == 1
    }

    fn hold(&self) {
        for _turn in 0..1_000_000u32 {
            if self.here.load(Ordering::SeqCst) > 1 {
                self.met.store(1, Ordering::SeqCst);
                break;
            }
            thread::yield_now();
        }
    }

    fn hold_first(&self, entry: u64) {
        match self.here.fetch_add(1, Ordering::SeqCst) {
            0 => {
                self.first.store(entry, Ordering::SeqCst);
                self.hold();
            }
            1 => self.second.store(entry, Ordering::SeqCst),
            _ => {}
        }
    }
}

impl Gate for Holding {
    fn at(&self, point: Point) {
        if self.is_held(point.work) {
            self.hold_first(point.entry);
        }
    }
}

/// The pass that asks an issuer in the entry of this number, and what it asks.
fn asked(world: &World, number: u64) -> Option<(u64, &Shared<SignOrder>)> {
    match world.history().entry(number)? {
        Entry::Ask {
            pass,
            order: Order::Sign(order),
        } => Some((*pass, order)),
        _ => None,
    }
}

/// The number of the entry in which the pass was answered.
fn answered_at(world: &World, asking: u64) -> Option<u64> {
    let mut number = 0u64;
    for entry in world.history().as_slice() {
        number = number.saturating_add(1);
        if let Entry::Answered { pass, .. } = entry {
            if *pass == asking {
                return Some(number);
            }
        }
    }
    None
}

/// The world of two Certificates as two workers leave it.
fn world_of_two<R: Threads + Wait + Sync>(
    rt: &R,
    alloc: Global,
    gate: &Holding,
) -> Result<World, Fail> {
    let scenario = generate(alloc, 2)?;
    let driven = drive(
        rt,
        alloc,
        HashSeed::fixed(),
        scenario,
        &ScriptedKeys,
        &ScriptedSigner,
        gate,
        2,
    )?;
    match driven {
        Driven::Finished(world) => Ok(world),
        Driven::Spent(_) => Err("spent".into()),
    }
}

fn two_open<R: Threads + Wait + Abort + Sync>(rt: &R, alloc: Global) -> Result<(), Fail> {
    let gate = Holding::new(false);
    let world = world_of_two(rt, alloc, &gate)?;
    passes(rt, "both are at the gate", gate.have_met());
    let (first, second) = gate.entries();
    let (one, one_order) = asked(&world, first).ok_or("the first asks an issuer")?;
    let (other, other_order) = asked(&world, second).ok_or("the second asks an issuer")?;
    passes(rt, "two passes", one != other);
    let one_owners = &one_order.request().meta.owners;
    let other_owners = &other_order.request().meta.owners;
    let is_one = one_owners.same(other_owners);
    passes(rt, "for two Certificates", !is_one);
    let one_done = answered_at(&world, one).ok_or("the first is answered")?;
    let other_done = answered_at(&world, other).ok_or("the second is answered")?;
    let done = one_done.min(other_done);
    let are_open = first < done && second < done;
    passes(rt, "both stand open at once", are_open);
    Ok(())
}

#[test]
fn two_signings_open(rt: HostRuntime) -> Result<(), Fail> {
    two_open(&rt, rt.alloc())
}

/// The pass that begins in the entry of this number.
fn begun(world: &World, number: u64) -> Option<u64> {
    match world.history().entry(number)? {
        Entry::Begin { pass, .. } => Some(*pass),
        _ => None,
    }
}

/// Whether the entry is one of the pass, after its begin.
fn is_of(entry: &Entry, number: u64) -> bool {
    match entry {
        Entry::Call {
            who: Who::Pass(pass),
            ..
        }
        | Entry::Ask { pass, .. }
        | Entry::Made { pass, .. }
        | Entry::Signed { pass, .. }
        | Entry::Answered { pass, .. }
        | Entry::Judged { pass, .. }
        | Entry::End { pass, .. } => *pass == number,
        _ => false,
    }
}

/// The number of the first entry of the pass after its begin.
fn next_of(world: &World, pass: u64) -> Option<u64> {
    let mut number = 0u64;
    for entry in world.history().as_slice() {
        number = number.saturating_add(1);
        if is_of(entry, pass) {
            return Some(number);
        }
    }
    None
}

fn two_undecided<R: Threads + Wait + Abort + Sync>(rt: &R, alloc: Global) -> Result<(), Fail> {
    let gate = Holding::new(true);
    let world = world_of_two(rt, alloc, &gate)?;
    passes(rt, "both are at the gate", gate.have_met());
    let (first, second) = gate.entries();
    let one = begun(&world, first).ok_or("the first begins a pass")?;
    let other = begun(&world, second).ok_or("the second begins a pass")?;
    assert!(rt; one != other);
    let later = first.max(second);
    let one_next = next_of(&world, one).ok_or("the first goes on")?;
    let other_next = next_of(&world, other).ok_or("the second goes on")?;
    assert!(rt;
        later < one_next && later < other_next,
        "both stand undecided at once"
    );
    Ok(())
}

#[test]
fn two_decisions_open(rt: HostRuntime) -> Result<(), Fail> {
    two_undecided(&rt, rt.alloc())
}
