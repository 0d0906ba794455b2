// The audit of a printed history, from the bytes read to the bytes written.
ghost use Rattle.std.specs.Prelude.{◌≡◌, ◌≢◌, true, IfOk, IfErr, IfSome};
ghost use Rattle.cmc_audit.specs.Answers.{AnswersAudit};
ghost use Rattle.cmc_report.specs.Text.{joined};
ghost use Rattle.cmrun.specs.Statuses.{ExplainsAudit, LeavesRead, RefusesHistory, history_limit, reads_failed, writes_failed, writes_nothing};

use crate::sink::{Sink, write_lines};
use crate::source::{HISTORY_LIMIT, ReadError, Source, read_all};
use crate::status::Status;
use cmc_audit::{NotAudited, audit_bytes};
use cmc_report::Lines;
use cmc_seed::HashSeed;
use std::alloc::Global;

/// The line that answers the bytes, the text of a history.
fn verdict_on(alloc: Global, seed: HashSeed, bytes: &[u8]) -> Result<Lines, Status>
    ensures ok { IfOk result (λ lines. AnswersAudit bytes.now (joined lines)) }
    ensures err { IfErr result (λ status. RefusesHistory bytes.now status) }
{
    match audit_bytes(alloc, seed, bytes) {
        Ok(lines) => Ok(lines),
        Err(NotAudited::Line(line)) => Err(Status::BadHistory(line)),
        Err(NotAudited::NoMemory) => Err(Status::NoMemory),
    }
}

/// Audits the printed history that the source gives.
pub fn run_audit<S: Source, K: Sink>(
    alloc: Global,
    seed: HashSeed,
    source: &mut S,
    sink: &mut K,
) -> Status
    ensures told { IfSome (S.left source.old) (λ bytes. ExplainsAudit result bytes (K.holds sink.old) (K.holds sink.new)) }
    ensures left { LeavesRead history_limit result (S.left source.old) (S.left source.new) }
    ensures unwritten { writes_nothing result ≡ true → sink.new ≡ sink.old }
    ensures words { result ≢ Status.Usage }
    ensures read { S.faults source.new ≡ reads_failed result (S.faults source.old) }
    ensures write { K.faults sink.new ≡ writes_failed result (K.faults sink.old) }
{
    let bytes = match read_all(alloc, source, HISTORY_LIMIT) {
        Ok(bytes) => bytes,
        Err(ReadError::NoMemory) => return Status::NoMemory,
        Err(ReadError::Fault) => return Status::ReadFault,
        Err(ReadError::TooLong) => return Status::TooLong,
    };
    let lines = match verdict_on(alloc, seed, bytes.as_slice()) {
        Ok(lines) => lines,
        Err(status) => return status,
    };
    match write_lines(sink, lines.as_slice()) {
        Ok(()) => Status::Done,
        Err(_) => Status::WriteFault,
    }
}
