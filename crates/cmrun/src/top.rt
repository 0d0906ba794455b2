// The top call: from the bytes read to the bytes written.
ghost use Rattle.serde_json.specs.View.{view};
ghost use Rattle.serde_json.specs.Written.{has_float};
ghost use Rattle.std.specs.Prelude.{◌≡◌, ◌≢◌, ◌≤◌, ◌↔◌, true, false, None, IfOk, IfErr, IfSome};
ghost use Rattle.std.specs.Str.{IsUtf8};
ghost use Rattle.cmc_report.specs.Text.{joined};
ghost use Rattle.cmc_world.specs.Histories.{IsPlain};
ghost use Rattle.cmc_waits.specs.Named.{IsWhole, NamesEachWait};
ghost use Rattle.cmc_waits.specs.Waits.{summary_at};
ghost use Rattle.cmc_audit_laws.specs.AuditedYes.{IsAuditedYes};
ghost use Rattle.cmc_rules.specs.Runs.{IsFinished, IsRun};
ghost use Rattle.cmc_rules.specs.Safety.{IsSafe};
ghost use Rattle.cmc_safety.specs.Completion.{CompletesIssuing};
ghost use Rattle.cmc_safety.specs.Invariants.{KeepsInvariants};
ghost use Rattle.cmc_scenario_print.specs.ScenarioTree.{scenario_tree};
ghost use Rattle.cmc_kernel.specs.Kept.{on};
ghost use Rattle.cmrun.specs.Headline.{AnswersRun, IsLoadOf, IsRunOf, RunsOn};
ghost use Rattle.cmrun.specs.Statuses.{Explains, ExplainsLoad, ExplainsRun, LeavesSink, LeavesRead, Refuses, RefusesValue, SpendsOn, reads_failed, reads_nothing, scenario_limit, writes_failed, writes_nothing};
ghost use Rattle.cmrun.specs.Words.{command_of};

use crate::auditing::run_audit;
use crate::collecting::run_collect;
use crate::leaving::leave;
use crate::sink::{Sink, write_lines};
use crate::source::{ReadError, SCENARIO_LIMIT, Source, read_all};
use crate::status::Status;
use crate::words::{Command, read_words};
use cmc_answers::Signer;
use cmc_audit_laws::each_world_is_audited_yes;
use cmc_keys::KeyMaker;
use cmc_load_ends::generated_loads_end;
use cmc_report::{Lines, history_text, summary_text};
use cmc_scenario::{BadScenario, Scenario, generate, read, value_of_scenario};
use cmc_seed::HashSeed;
use cmc_waits::each_wait_is_named;
use cmc_workers::{Driven, Gate, drive};
use cmc_world::World;
use serde_json::{Category, Value};
use std::alloc::{AllocError, Global};
use std::str;
use std::sync::Wait;
use std::thread::Threads;

/// A law: the history of the world is that of a run, safe, complete and in order, and an audit of its lines says yes.
fn is_sound_run(world: &World)
    ensures run { on IsRun world.now }
    ensures safe { on IsSafe world.now }
    ensures complete { on CompletesIssuing world.now }
    ensures order { on KeepsInvariants world.now }
    ensures audited { on IsAuditedYes world.now }
{
    let kernel = world.kernel();
    kernel.is_run();
    each_world_is_audited_yes(kernel);
}

/// What each Certificate waits for in a finished world, each with its name.
fn waits_are_named(world: &World)
    requires { on IsFinished world.now }
    ensures named { on NamesEachWait world.now }
    ensures whole { on IsWhole world.now (on summary_at world.now) }
{
    world.is_run();
    each_wait_is_named();
}

/// The lines of a finished world, whose scenario the value is, or the line of its summary alone.
fn lines_of(
    alloc: Global,
    workers: u32,
    alone: bool,
    value: &Value,
    world: &World,
) -> Result<Lines, AllocError>
    requires float_free { has_float (view value.now) ≡ false }
    requires finished { on IsFinished world.now }
    requires plain { workers ≡ 0 → on IsPlain world.now }
    ensures { IfOk result (λ lines. RunsOn workers alone (view value.now) world.now.scenario (joined lines)) }
{
    is_sound_run(world);
    waits_are_named(world);
    let counts = world.summary(alloc)?;
    if alone {
        return summary_text(alloc, &counts);
    }
    history_text(alloc, value, world.history(), &counts)
}

/// The lines of the run of a scenario, which the value is.
fn run_of<R: Threads + Wait + Sync, M: KeyMaker, N: Signer, G: Gate>(
    rt: &R,
    alloc: Global,
    seed: HashSeed,
    workers: u32,
    alone: bool,
    value: &Value,
    scenario: Scenario,
    keys: &M,
    signer: &N,
    gate: &G,
) -> Result<Lines, Status>
    requires float_free { has_float (view value.now) ≡ false }
    ensures ok { IfOk result (λ lines. RunsOn workers alone (view value.now) scenario (joined lines)) }
    ensures err { IfErr result (λ status. SpendsOn scenario status) }
{
    match drive(rt, alloc, seed, scenario, keys, signer, gate, workers)? {
        Driven::Finished(world) => {
            let lines = lines_of(alloc, workers, alone, value, &world)?;
            leave(world);
            Ok(lines)
        }
        Driven::Spent(_) => Err(Status::Spent),
    }
}

/// The lines of the run of a value.
fn answer<R: Threads + Wait + Sync, M: KeyMaker, N: Signer, G: Gate>(
    rt: &R,
    alloc: Global,
    seed: HashSeed,
    workers: u32,
    alone: bool,
    value: &Value,
    keys: &M,
    signer: &N,
    gate: &G,
) -> Result<Lines, Status>
    ensures ok { IfOk result (λ lines. AnswersRun workers alone (view value.now) (joined lines)) }
    ensures err { IfErr result (λ status. RefusesValue (view value.now) status) }
{
    match read(alloc, value) {
        Ok(scenario) => run_of(
            rt, alloc, seed, workers, alone, value, scenario, keys, signer, gate,
        ),
        Err(BadScenario::Path(path)) => Err(Status::BadScenario(path)),
        Err(BadScenario::NoMemory) => Err(Status::NoMemory),
    }
}

/// The lines of the run of a text.
fn answer_text<R: Threads + Wait + Sync, M: KeyMaker, N: Signer, G: Gate>(
    rt: &R,
    alloc: Global,
    seed: HashSeed,
    workers: u32,
    alone: bool,
    text: &str,
    keys: &M,
    signer: &N,
    gate: &G,
) -> Result<Lines, Status>
    requires { IsUtf8 text.now }
    ensures ok { IfOk result (λ lines. IsRunOf workers alone text.now (joined lines)) }
    ensures err { IfErr result (λ status. Refuses text.now status) }
{
    match Value::from_str(alloc, text) {
        Ok(value) => {
            let lines = answer(rt, alloc, seed, workers, alone, &value, keys, signer, gate);
            leave(value);
            lines
        }
        Err(error) => match error.classify() {
            Category::Memory => Err(Status::NoMemory),
            _ => Err(Status::NotJson),
        },
    }
}

/// The lines of the run of some bytes.
fn answer_bytes<R: Threads + Wait + Sync, M: KeyMaker, N: Signer, G: Gate>(
    rt: &R,
    alloc: Global,
    seed: HashSeed,
    workers: u32,
    alone: bool,
    bytes: &[u8],
    keys: &M,
    signer: &N,
    gate: &G,
) -> Result<Lines, Status>
    ensures ok { IfOk result (λ lines. IsRunOf workers alone bytes.now (joined lines)) }
    ensures err { IfErr result (λ status. Refuses bytes.now status) }
{
    match str::from_utf8(bytes) {
        Ok(text) => answer_text(rt, alloc, seed, workers, alone, text, keys, signer, gate),
        Err(_) => Err(Status::NotJson),
    }
}

/// The scenario as JSON where it is printed, and null where the summary line stands alone, which does not say it.
fn printed_value(alloc: Global, alone: bool, scenario: &Scenario) -> Result<Value, AllocError>
    ensures said { IfOk result (λ v. alone ≡ false → view v ≡ scenario_tree scenario.now) }
    ensures float_free { IfOk result (λ v. has_float (view v) ≡ false) }
{
    if alone {
        return Ok(Value::Null);
    }
    value_of_scenario(alloc, scenario)
}

/// The lines of the run of the generated scenario of so many Certificates, which always ends within its room.
fn load_lines<R: Threads + Wait + Sync, M: KeyMaker, N: Signer, G: Gate>(
    rt: &R,
    alloc: Global,
    seed: HashSeed,
    workers: u32,
    alone: bool,
    count: u32,
    keys: &M,
    signer: &N,
    gate: &G,
) -> Result<Lines, Status>
    requires some { 1 ≤ count }
    requires few { count ≤ 200 }
    ensures ok { IfOk result (λ lines. IsLoadOf workers alone count (joined lines)) }
    ensures err { IfErr result (λ status. status ≡ Status.NoMemory) }
{
    generated_loads_end();
    let scenario = generate(alloc, count)?;
    let value = printed_value(alloc, alone, &scenario)?;
    let lines = run_of(
        rt, alloc, seed, workers, alone, &value, scenario, keys, signer, gate,
    );
    leave(value);
    lines
}

/// Runs the scenario that the source gives.
fn run_source<R: Threads + Wait + Sync, S: Source, K: Sink, M: KeyMaker, N: Signer, G: Gate>(
    rt: &R,
    alloc: Global,
    seed: HashSeed,
    workers: u32,
    alone: bool,
    source: &mut S,
    sink: &mut K,
    keys: &M,
    signer: &N,
    gate: &G,
) -> Status
    ensures told { IfSome (S.left source.old) (λ bytes. ExplainsRun workers alone result bytes (K.holds sink.old) (K.holds sink.new)) }
    ensures left { LeavesRead scenario_limit result (S.left source.old) (S.left source.new) }
    ensures unwritten { writes_nothing result ≡ true → sink.new ≡ sink.old }
    ensures words { result ≢ Status.Usage }
    ensures read { S.faults source.new ≡ reads_failed result (S.faults source.old) }
    ensures write { K.faults sink.new ≡ writes_failed result (K.faults sink.old) }
{
    let bytes = match read_all(alloc, source, SCENARIO_LIMIT) {
        Ok(bytes) => bytes,
        Err(ReadError::NoMemory) => return Status::NoMemory,
        Err(ReadError::Fault) => return Status::ReadFault,
        Err(ReadError::TooLong) => return Status::TooLong,
    };
    let lines = match answer_bytes(
        rt,
        alloc,
        seed,
        workers,
        alone,
        bytes.as_slice(),
        keys,
        signer,
        gate,
    ) {
        Ok(lines) => lines,
        Err(status) => return status,
    };
    match write_lines(sink, lines.as_slice()) {
        Ok(()) => Status::Done,
        Err(_) => Status::WriteFault,
    }
}

/// Runs the generated scenario of so many Certificates.
fn run_load<R: Threads + Wait + Sync, K: Sink, M: KeyMaker, N: Signer, G: Gate>(
    rt: &R,
    alloc: Global,
    seed: HashSeed,
    workers: u32,
    alone: bool,
    count: u32,
    sink: &mut K,
    keys: &M,
    signer: &N,
    gate: &G,
) -> Status
    requires some { 1 ≤ count }
    requires few { count ≤ 200 }
    ensures told { ExplainsLoad workers alone count result (K.holds sink.old) (K.holds sink.new) }
    ensures unwritten { writes_nothing result ≡ true → sink.new ≡ sink.old }
    ensures write { K.faults sink.new ≡ writes_failed result (K.faults sink.old) }
{
    let lines = match load_lines(rt, alloc, seed, workers, alone, count, keys, signer, gate) {
        Ok(lines) => lines,
        Err(status) => return status,
    };
    match write_lines(sink, lines.as_slice()) {
        Ok(()) => Status::Done,
        Err(_) => Status::WriteFault,
    }
}

/// Does all that the program does. With `run` it reads a scenario from the source, and with `load` it makes one of
/// so many Certificates, and reads nothing. It runs the scenario on an empty store and writes the history and its
/// summary to the sink, with `--summary` the line of the summary alone. `keys` makes keys and signs requests, and
/// `signer` answers for the issuers, whatever they answer; the gate is called before each such piece of work. With 0
/// workers the run is that of the plain order, and no thread is started. With more of them, so many threads of the
/// runtime `rt` take passes, and which history is printed depends on how they come; all that is promised of it is
/// promised of each. With `audit` it reads a printed history, and writes whether it is legal and safe, or which clause fails
/// first and at which entry. With `collect` it reads a script of owner collection, and writes what its steps make.
///
/// The lines are made before the first of them is written, each as one piece. Each status has its cause,
/// as its variant says; at `WriteFault` some first part of the text was written, and at every status but
/// `Done` and `WriteFault` nothing was. `Usage` comes exactly where the words are not of the command line's form. At
/// `run`, `audit` and `collect` reading stopped at the first byte above the limit, at the end, or at the read that failed; else
/// nothing was read.
pub fn run<R: Threads + Wait + Sync, S: Source, K: Sink, M: KeyMaker, N: Signer, G: Gate>(
    rt: &R,
    alloc: Global,
    seed: HashSeed,
    words: &[String],
    source: &mut S,
    sink: &mut K,
    keys: &M,
    signer: &N,
    gate: &G,
) -> Status
    ensures told { Explains (command_of words.now) result (S.left source.old) (K.holds sink.old) (K.holds sink.new) }
    ensures left { LeavesSink (command_of words.now) result (S.left source.old) (S.left source.new) }
    ensures unread { reads_nothing (command_of words.now) ≡ true → source.new ≡ source.old }
    ensures unwritten { writes_nothing result ≡ true → sink.new ≡ sink.old }
    ensures usage { (result ≡ Status.Usage) ↔ (command_of words.now ≡ None) }
    ensures read { S.faults source.new ≡ reads_failed result (S.faults source.old) }
    ensures write { K.faults sink.new ≡ writes_failed result (K.faults sink.old) }
{
    match read_words(words) {
        None => Status::Usage,
        Some(Command::Run { workers, summary }) => {
            run_source(
                rt, alloc, seed, workers, summary, source, sink, keys, signer, gate,
            )
        }
        Some(
            Command::Load {
                count,
                workers,
                summary,
            },
        ) => run_load(
            rt, alloc, seed, workers, summary, count, sink, keys, signer, gate,
        ),
        Some(Command::Audit) => run_audit(alloc, seed, source, sink),
        Some(Command::Collect) => run_collect(alloc, seed, source, sink),
    }
}
