// Owner collection, from the bytes read to the bytes written.
ghost use Rattle.serde_json.specs.View.{view};
ghost use Rattle.std.specs.Prelude.{◌≡◌, ◌≢◌, true, IfOk, IfErr, IfSome};
ghost use Rattle.std.specs.Str.{IsUtf8};
ghost use Rattle.cmc_collect_run.specs.Answers as collection;
ghost use Rattle.cmc_report.specs.Text.{joined};
ghost use Rattle.cmrun.specs.Headline.{IsCollectOf};
ghost use Rattle.cmrun.specs.Statuses.{ExplainsCollect, LeavesRead, RefusesScript, RefusesScriptIn, reads_failed, scenario_limit, writes_failed, writes_nothing};

use crate::leaving::leave;
use crate::sink::{Sink, write_lines};
use crate::source::{ReadError, SCENARIO_LIMIT, Source, read_all};
use crate::status::Status;
use cmc_collect_run::{NotCollected, collect};
use cmc_report::Lines;
use cmc_seed::HashSeed;
use serde_json::{Category, Value};
use std::alloc::Global;
use std::str;

/// The lines that the value is answered with as a script of owner collection.
fn collect_value(alloc: Global, seed: HashSeed, value: &Value) -> Result<Lines, Status>
    ensures ok { IfOk result (λ lines. collection.AnswersCollect (view value.now) (joined lines)) }
    ensures err { IfErr result (λ status. RefusesScript (view value.now) status) }
{
    match collect(alloc, seed, value) {
        Ok(lines) => Ok(lines),
        Err(NotCollected::Path(path)) => Err(Status::BadScenario(path)),
        Err(NotCollected::Spent) => Err(Status::Spent),
        Err(NotCollected::NoMemory) => Err(Status::NoMemory),
    }
}

/// The same of a text.
fn collect_text(alloc: Global, seed: HashSeed, text: &str) -> Result<Lines, Status>
    requires { IsUtf8 text.now }
    ensures ok { IfOk result (λ lines. IsCollectOf text.now (joined lines)) }
    ensures err { IfErr result (λ status. RefusesScriptIn text.now status) }
{
    match Value::from_str(alloc, text) {
        Ok(value) => {
            let lines = collect_value(alloc, seed, &value);
            leave(value);
            lines
        }
        Err(error) => match error.classify() {
            Category::Memory => Err(Status::NoMemory),
            _ => Err(Status::NotJson),
        },
    }
}

/// The same of some bytes.
fn collect_bytes(alloc: Global, seed: HashSeed, bytes: &[u8]) -> Result<Lines, Status>
    ensures ok { IfOk result (λ lines. IsCollectOf bytes.now (joined lines)) }
    ensures err { IfErr result (λ status. RefusesScriptIn bytes.now status) }
{
    match str::from_utf8(bytes) {
        Ok(text) => collect_text(alloc, seed, text),
        Err(_) => Err(Status::NotJson),
    }
}

/// Runs the script of owner collection that the source gives.
pub fn run_collect<S: Source, K: Sink>(
    alloc: Global,
    seed: HashSeed,
    source: &mut S,
    sink: &mut K,
) -> Status
    ensures told { IfSome (S.left source.old) (λ bytes. ExplainsCollect result bytes (K.holds sink.old) (K.holds sink.new)) }
    ensures left { LeavesRead scenario_limit result (S.left source.old) (S.left source.new) }
    ensures unwritten { writes_nothing result ≡ true → sink.new ≡ sink.old }
    ensures words { result ≢ Status.Usage }
    ensures read { S.faults source.new ≡ reads_failed result (S.faults source.old) }
    ensures write { K.faults sink.new ≡ writes_failed result (K.faults sink.old) }
{
    let bytes = match read_all(alloc, source, SCENARIO_LIMIT) {
        Ok(bytes) => bytes,
        Err(ReadError::NoMemory) => return Status::NoMemory,
        Err(ReadError::Fault) => return Status::ReadFault,
        Err(ReadError::TooLong) => return Status::TooLong,
    };
    let lines = match collect_bytes(alloc, seed, bytes.as_slice()) {
        Ok(lines) => lines,
        Err(status) => return status,
    };
    match write_lines(sink, lines.as_slice()) {
        Ok(()) => Status::Done,
        Err(_) => Status::WriteFault,
    }
}
