// How the program ends.
ghost use Rattle.std.specs.Prelude.{◌≡◌};
ghost use Rattle.cmrun.specs.Statuses.{exit_code, failing_line_of, message_of, path_of};

use cmc_meta::Text;
use std::alloc::AllocError;

/// How a run ended.
#[derive(Drop)]
pub enum Status {
    /// The run is finished and its text is written.
    Done,
    /// The input has more than 16,777,216 bytes, or as a printed history more than 268,435,456.
    TooLong,
    /// The input is no JSON.
    NotJson,
    /// The input is JSON, but no scenario, or no script of owner collection: it fails at this path first.
    BadScenario(Text),
    /// The input is not the text of a history: the line of this number, counted from 1, is the first that fails.
    BadHistory(u64),
    /// The words are not of the command line's form.
    Usage,
    /// A read failed.
    ReadFault,
    /// A write failed.
    WriteFault,
    /// Memory ran out.
    NoMemory,
    /// The run needs more entries than the scenario or the script allows.
    Spent,
}

impl From<AllocError> for Status {
    ghost use Rattle.cmrun.specs.declared.status.Status.TheVariants.{NoMemory};

    ghost from_gives = { λ _ s. s ≡ NoMemory };

    fn from(_: AllocError) -> Self {
        Status::NoMemory
    }
}

/// The exit status of the program.
pub fn code(status: &Status) -> u8
    ensures { result ≡ exit_code status.now }
{
    match status {
        Status::Done => 0,
        Status::TooLong | Status::NotJson | Status::BadScenario(_) | Status::BadHistory(_) => 1,
        Status::Usage => 2,
        Status::ReadFault => 3,
        Status::WriteFault => 4,
        Status::NoMemory => 5,
        Status::Spent => 6,
    }
}

/// What the line on standard error says after the program's name; empty at Done, where there is no line.
pub fn message(status: &Status) -> &'static str
    ensures { result.now ≡ message_of status.now }
{
    match status {
        Status::Done => "",
        Status::TooLong => "input too long",
        Status::NotJson => "not JSON",
        Status::BadScenario(_) => "bad scenario at ",
        Status::BadHistory(_) => "bad history at line ",
        Status::Usage =>
            "usage: cmrun run|load COUNT [--workers N] [--summary] or cmrun audit|collect",
        Status::ReadFault => "read failed",
        Status::WriteFault => "write failed",
        Status::NoMemory => "out of memory",
        Status::Spent => "history is full",
    }
}

/// The path that ends that line; empty but at BadScenario.
pub fn failing_path(status: &Status) -> &str
    ensures { result.now ≡ path_of status.now }
{
    match status {
        Status::BadScenario(path) => path.as_str(),
        _ => "",
    }
}

/// The number of the line that ends it; None but at BadHistory.
pub fn failing_line(status: &Status) -> Option<u64>
    ensures { result ≡ failing_line_of status.now }
{
    match status {
        Status::BadHistory(line) => Some(*line),
        _ => None,
    }
}
