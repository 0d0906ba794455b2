// What no clause says: that keys, signatures and issuers' answers are made by what a run is handed in, each once and behind
// the gate, which is told the entry of its question; and that all of it is done outside of the lock. The rows of both
// Certificates are free, so that who makes another key or answer is seen in the history.
ghost use Rattle.std.specs.Prelude.{◌≡◌, IfOk, IsTrue};
ghost use Rattle.cmc_keys.specs.Kinds.{IsKeyOf, allows_size};

use crate::checks::passes;
use crate::fixtures::{apply, certificate, put, whole_scenario};
use cmc_answers::{Answered, ScriptedSigner, Signer, signing_of};
use cmc_keys::{KeyMaker, Made, ScriptedKeys, SignedCsr, is_allowed_size, synthetic_key};
use cmc_meta::{Bytes, Kind, Numbers};
use cmc_objects::{
    Algorithm, CertSpec, CsrOrder, Entry, KeyOrder, KeyRow, KeyRows, Material, Order, Role, Rows,
    Shared, SignOrder, SignRow, SignRows, Signing, Step,
};
use cmc_seed::HashSeed;
use cmc_setup::{Scenario, Steps};
use cmc_tests::values::key;
use cmc_workers::{Driven, Gate, Point, Work, drive, drive_plain};
use cmc_world::World;
use std::alloc::{AllocError, Global};
use std::process::Abort;
use std::sync::atomic::{AtomicU64, Ordering};
use std::test::Fail;

// ---- two Certificates with free rows

fn applied(alloc: Global, word: &str, secret: &str, host: &str) -> Result<Step, Fail> {
    let mut certificate = certificate(alloc, word, secret, host)?;
    let mut spec = CertSpec::copy(&certificate.spec)?;
    spec.key.algorithm = Some(Algorithm::Ecdsa);
    certificate.spec = Shared::new(alloc, spec)?;
    apply(alloc, certificate)
}

fn free_rows(alloc: Global) -> Result<Rows, AllocError> {
    let mut keys = KeyRows::new(alloc);
    keys.push(KeyRow::Free)?;
    let mut replies = SignRows::new(alloc);
    replies.push(SignRow::Free)?;
    Ok(Rows { keys, replies })
}

fn material(alloc: Global) -> Result<Material, Fail> {
    let mut material = Material::new(alloc);
    for word in ["web", "api"] {
        let certificate = key(alloc, Kind::Certificate, word)?;
        material.set(certificate, free_rows(alloc)?)?;
    }
    Ok(material)
}

/// There is room for more than four times the entries, so that a run in threads is not made again by one hand.
fn scenario(alloc: Global) -> Result<Scenario, Fail> {
    let mut steps = Steps::new(alloc);
    put(&mut steps, applied(alloc, "web", "web-tls", "example.com"))?;
    put(
        &mut steps,
        applied(alloc, "api", "api-tls", "api.example.com"),
    )?;
    let material = material(alloc)?;
    whole_scenario(alloc, 100_000, 1000, Numbers::new(alloc), material, steps)
}

// ---- what is handed in

/// The points that came to the gate, and what was made after it.
#[derive(Drop)]
struct Ledger {
    came: AtomicU64,
    /// Of each point eight times its entry and the number of its sort, in the order in which they came.
    points: Vec<AtomicU64>,
    keys: AtomicU64,
    signatures: AtomicU64,
    answers: AtomicU64,
    /// How many keys, signatures and answers were asked for with no point of their own before.
    early: AtomicU64,
}

fn new_ledger(alloc: Global) -> Result<Ledger, AllocError> {
    let mut points = Vec::new(alloc);
    for _ in 0..256u32 {
        points.push(AtomicU64::new(0))?;
    }
    Ok(Ledger {
        came: AtomicU64::new(0),
        points,
        keys: AtomicU64::new(0),
        signatures: AtomicU64::new(0),
        answers: AtomicU64::new(0),
        early: AtomicU64::new(0),
    })
}

fn sort_of(work: Work) -> u64 {
    match work {
        Work::Key => 1,
        Work::Csr => 2,
        Work::Sign => 3,
        Work::Judge => 4,
        Work::Decide => 5,
    }
}

fn noted(entry: u64, work: Work) -> u64 {
    entry.saturating_mul(8).saturating_add(sort_of(work))
}

impl Ledger {
    /// How many points of this sort came.
    fn came_of(&self, work: Work) -> u64 {
        let mut count = 0u64;
        for point in self.points.as_slice() {
            if point.load(Ordering::SeqCst) % 8 == sort_of(work) {
                count = count.saturating_add(1);
            }
        }
        count
    }

    /// How many points of this sort and entry came.
    fn came_at(&self, entry: u64, work: Work) -> u64 {
        let mut count = 0u64;
        for point in self.points.as_slice() {
            if point.load(Ordering::SeqCst) == noted(entry, work) {
                count = count.saturating_add(1);
            }
        }
        count
    }

    /// Counts a piece of work that is asked for.
    fn count(&self, work: Work, made: &AtomicU64) {
        if made.fetch_add(1, Ordering::SeqCst) >= self.came_of(work) {
            self.early.fetch_add(1, Ordering::SeqCst);
        }
    }
}

impl Gate for Ledger {
    fn at(&self, point: Point) {
        let place = self.came.fetch_add(1, Ordering::SeqCst);
        if let Some(slot) = self.points.as_slice().get(place as usize) {
            slot.store(noted(point.entry, point.work), Ordering::SeqCst);
        }
    }
}

/// Makes for free rows the stand-in key 77.
#[derive(Drop)]
struct OwnKeys<'a> {
    ledger: &'a Ledger,
}

/// Issues for free rows, with the certificate of a CA of its own.
#[derive(Drop)]
struct OwnSigner<'a> {
    ledger: &'a Ledger,
}

static CA: [u8; 2] = [0xaa, 0xbb];

/// The key that is made for a question whose row is free.
fn own_key(alloc: Global, order: &KeyOrder) -> Result<Bytes, AllocError>
    requires { IsTrue (allows_size order.now.algorithm order.now.size) }
    ensures { IfOk result (λ file. IsKeyOf order.now.algorithm order.now.size file) }
{
    synthetic_key(alloc, order.algorithm, order.size, order.encoding, 77)
}

fn own_made(alloc: Global, order: &Shared<KeyOrder>) -> Result<Made, AllocError>
    requires { IsTrue (allows_size order.now.algorithm order.now.size) }
    ensures { IfOk result (λ made. made.order ≡ order.now) }
{
    match &order.row {
        KeyRow::Free => {
            let bytes = own_key(alloc, order)?;
            Ok(Made::new(order.copy()?, bytes))
        }
        _ => ScriptedKeys.make(alloc, order),
    }
}

impl KeyMaker for OwnKeys<'_> {
    fn make(&self, alloc: Global, order: &Shared<KeyOrder>) -> Result<Made, AllocError>
        requires { IsTrue (allows_size order.now.algorithm order.now.size) }
        ensures { IfOk result (λ made. made.order ≡ order.now) }
    {
        self.ledger.count(Work::Key, &self.ledger.keys);
        own_made(alloc, order)
    }

    fn sign(&self, alloc: Global, order: &Shared<CsrOrder>) -> Result<SignedCsr, AllocError>
        ensures { IfOk result (λ signed. signed.order ≡ order.now) }
    {
        self.ledger.count(Work::Csr, &self.ledger.signatures);
        ScriptedKeys.sign(alloc, order)
    }
}

/// The answer to a question whose row is free.
fn own_answer(alloc: Global, order: &SignOrder) -> Result<Signing, AllocError> {
    let row = SignRow::Issue {
        seconds: None,
        before: 0,
        serial: Some(99),
        key: None,
        ca: Bytes::from_slice(alloc, &CA)?,
    };
    signing_of(alloc, &row, order.number(), order.request(), order.now())
}

fn own_answered(alloc: Global, order: &Shared<SignOrder>) -> Result<Answered, AllocError>
    ensures { IfOk result (λ answered. answered.order ≡ order.now) }
{
    match order.row() {
        SignRow::Free => {
            let answer = own_answer(alloc, order)?;
            Ok(Answered::new(order.copy()?, answer))
        }
        _ => ScriptedSigner.sign(alloc, order),
    }
}

impl Signer for OwnSigner<'_> {
    fn sign(&self, alloc: Global, order: &Shared<SignOrder>) -> Result<Answered, AllocError>
        ensures { IfOk result (λ answered. answered.order ≡ order.now) }
    {
        self.ledger.count(Work::Sign, &self.ledger.answers);
        own_answered(alloc, order)
    }
}

// ---- what the history of a run says of it

/// The sort of work that the question hands out.
fn work_of(order: &Order) -> Work {
    match order {
        Order::Key(_) => Work::Key,
        Order::Csr(_) => Work::Csr,
        Order::Sign(_) => Work::Sign,
        Order::Judge(_) => Work::Judge,
    }
}

/// Whether the entry of this number begins a pass of a role that decides on what it saw.
fn begins_decider(world: &World, number: u64) -> bool {
    match world.history().entry(number) {
        Some(Entry::Begin { role, .. }) => role.same(Role::Issuing)
            || role.same(Role::RequestManager),
        _ => false,
    }
}

/// Whether each point that came names the entry of its question, and a decision that in which its pass begins.
fn name_their_entries(world: &World, ledger: &Ledger) -> bool {
    ledger.points.as_slice().iter().all(|point| {
        let point = point.load(Ordering::SeqCst);
        match world.history().entry(point / 8) {
            _ if point == 0 => true,
            Some(Entry::Ask { order, .. }) => sort_of(work_of(order)) == point % 8,
            _ => point % 8 == sort_of(Work::Decide) && begins_decider(world, point / 8),
        }
    })
}

/// Whether the pass is given this key, or no key here.
fn is_given(alloc: Global, entry: &Entry, asking: u64, order: &KeyOrder) -> Result<bool, Fail> {
    match entry {
        Entry::Made { pass, key } if *pass == asking => {
            if !is_allowed_size(order.algorithm, order.size) {
                return Ok(false);
            }
            Ok(own_key(alloc, order)?.same(key))
        }
        _ => Ok(true),
    }
}

/// Whether the keys that the pass is given are those that are handed in for the question.
fn are_own_keys(alloc: Global, world: &World, asking: u64, order: &KeyOrder) -> Result<bool, Fail> {
    for entry in world.history().as_slice() {
        if !is_given(alloc, entry, asking, order)? {
            return Ok(false);
        }
    }
    Ok(true)
}

/// Whether the answer is one that is handed in.
fn is_own_answer(answer: &Signing) -> bool {
    match answer {
        Signing::Issued { ca, .. } => ca.as_slice() == CA.as_slice(),
        _ => false,
    }
}

/// What stands in a history: questions, and what came for them.
#[derive(Drop)]
struct Found {
    questions: u64,
    keys: u64,
    signatures: u64,
    answers: u64,
    /// Entries that are not as they have to be.
    wrong: u64,
}

fn raise(count: &mut u64, more: bool) {
    if more {
        *count = count.saturating_add(1);
    }
}

/// Adds the entry of this number to what was found.
fn find(
    alloc: Global,
    world: &World,
    ledger: &Ledger,
    number: u64,
    entry: &Entry,
    found: &mut Found,
) -> Result<(), Fail> {
    match entry {
        Entry::Ask { pass, order } => {
            raise(&mut found.questions, true);
            raise(
                &mut found.wrong,
                ledger.came_at(number, work_of(order)) != 1,
            );
            if let Order::Key(order) = order {
                raise(&mut found.wrong, !are_own_keys(alloc, world, *pass, order)?);
            }
        }
        Entry::Made { .. } => raise(&mut found.keys, true),
        Entry::Signed { .. } => raise(&mut found.signatures, true),
        Entry::Answered { answer, .. } => {
            raise(&mut found.answers, true);
            raise(&mut found.wrong, !is_own_answer(answer));
        }
        _ => {}
    }
    Ok(())
}

fn found_in(alloc: Global, world: &World, ledger: &Ledger) -> Result<Found, Fail> {
    let mut found = Found {
        questions: 0,
        keys: 0,
        signatures: 0,
        answers: 0,
        wrong: 0,
    };
    let mut number = 0u64;
    for entry in world.history().as_slice() {
        number = number.saturating_add(1);
        find(alloc, world, ledger, number, entry, &mut found)?;
    }
    Ok(found)
}

/// Each question has one point, each point a question or a decision, and each key, signature and answer of the history was
/// made by what was handed in, after its point. Four questions are asked for each of the two Certificates.
fn is_handed_in(
    rt: &impl Abort,
    alloc: Global,
    world: &World,
    ledger: &Ledger,
) -> Result<u64, Fail> {
    let found = found_in(alloc, world, ledger)?;
    passes(rt, "questions", found.questions == 8);
    passes(
        rt,
        "points, keys and answers of questions",
        found.wrong == 0,
    );
    passes(rt, "points", name_their_entries(world, ledger));
    passes(
        rt,
        "no point too late",
        ledger.early.load(Ordering::SeqCst) == 0,
    );
    passes(
        rt,
        "keys",
        found.keys == 2 && ledger.keys.load(Ordering::SeqCst) == 2,
    );
    passes(
        rt,
        "signatures",
        found.signatures == 2 && ledger.signatures.load(Ordering::SeqCst) == 2,
    );
    passes(
        rt,
        "answers",
        found.answers == 2 && ledger.answers.load(Ordering::SeqCst) == 2,
    );
    let came = ledger.came.load(Ordering::SeqCst);
    passes(
        rt,
        "decisions",
        came == ledger.came_of(Work::Decide).saturating_add(8),
    );
    Ok(ledger.came_of(Work::Decide))
}

fn finished(driven: Driven) -> Result<World, Fail> {
    match driven {
        Driven::Finished(world) => Ok(world),
        Driven::Spent(_) => Err(Fail::from("spent")),
    }
}

#[test]
fn hands_work_out_by_one_hand(rt: HostRuntime) -> Result<(), Fail> {
    let alloc = rt.alloc();
    let ledger = new_ledger(alloc)?;
    let (keys, signer) = (OwnKeys { ledger: &ledger }, OwnSigner { ledger: &ledger });
    let seed = HashSeed::fixed();
    let world = finished(drive_plain(alloc, seed, scenario(alloc)?, &keys, &signer, &ledger)?)?;
    let decided = is_handed_in(&rt, alloc, &world, &ledger)?;
    passes(&rt, "no decision is handed out", decided == 0);
    Ok(())
}

/// How many workers there are.
static WORKERS: [u32; 3] = [1, 2, 4];

#[test]
fn hands_work_out_by_threads(rt: HostRuntime) -> Result<(), Fail> {
    let alloc = rt.alloc();
    for workers in &WORKERS {
        let ledger = new_ledger(alloc)?;
        let (keys, signer) = (OwnKeys { ledger: &ledger }, OwnSigner { ledger: &ledger });
        let (seed, scenario) = (HashSeed::fixed(), scenario(alloc)?);
        let driven = drive(
            &rt, alloc, seed, scenario, &keys, &signer, &ledger, *workers,
        )?;
        let world = finished(driven)?;
        let decided = is_handed_in(&rt, alloc, &world, &ledger)?;
        passes(&rt, "decisions are handed out", decided > 0);
    }
    Ok(())
}
