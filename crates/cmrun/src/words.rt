// What the words of the command line ask for.
ghost use Rattle.std.specs.Prelude.{◌≡◌, ◌≤◌, IfSome, length, map, string_bytes};
ghost use Rattle.cmrun.specs.Words.{IsBounded, alone_in, command_of, bounded_number_in, with_other, with_summary, with_worker_value, with_word};
ghost use Rattle.cmrun.specs.Said.{IsSaidBy, Takes, TakesNext};

/// What the program is asked to do.
#[derive(Clone, Copy, PartialEq, Eq)]
pub enum Command {
    /// The scenario that is read is run.
    Run {
        /// How many workers run it.
        workers: u32,
        /// Only the summary is written.
        summary: bool,
    },
    /// A scenario of this many Certificates is made and run.
    Load {
        /// How many Certificates.
        count: u32,
        /// How many workers run it.
        workers: u32,
        /// Only the summary is written.
        summary: bool,
    },
    /// The printed history that is read is audited.
    Audit,
    /// The script of owner collection that is read is run.
    Collect,
}

/// How many workers there are where the words do not say.
const USUAL_WORKERS: u32 = 4;

/// What the words after the first say, so far as they were read.
#[derive(Clone, Copy)]
struct Said<'a> {
    workers: Option<&'a str>,
    summary: bool,
    other: Option<&'a str>,
}

/// The number between these bounds that a text writes.
#[tactic(auto, using(crate::proofs::Numbers::number_found, crate::proofs::Numbers::number_low, crate::proofs::Numbers::number_high, crate::proofs::Numbers::number_missed))]
fn number(text: &str, least: u32, most: u32) -> Option<u32>
    ensures value { result ≡ bounded_number_in least most text.now }
    ensures bounds { IfSome result (λ n. (least ≤ n) × (n ≤ most)) }
{
    match text.parse::<u32>() {
        Ok(number) if least <= number && number <= most => Some(number),
        _ => None,
    }
}

impl<'a> Said<'a> {
    /// The value of `--workers` stands next; a second one is refused.
    fn with_workers(self, value: &'a str) -> Option<Said<'a>>
        ensures { Takes self.entry (with_worker_value value.now) result }
    {
        match self.workers {
            Some(_) => None,
            None => Some(Said {
                workers: Some(value),
                ..self
            }),
        }
    }

    /// `--summary` stands next.
    fn with_summary(self) -> Option<Said<'a>>
        ensures { Takes self.entry with_summary result }
    {
        if self.summary {
            return None;
        }
        Some(Said {
            summary: true,
            ..self
        })
    }

    fn with_other(self, word: &'a str) -> Option<Said<'a>>
        ensures { Takes self.entry (with_other word.now) result }
    {
        match self.other {
            Some(_) => None,
            None => Some(Said {
                other: Some(word),
                ..self
            }),
        }
    }

    /// A word stands next that has no value after it.
    fn with_word(self, word: &'a str) -> Option<Said<'a>>
        ensures { Takes self.entry (with_word word.now) result }
    {
        if let Some(value) = word.strip_prefix("--workers=") {
            return self.with_workers(value);
        }
        if word == "--summary" {
            return self.with_summary();
        }
        self.with_other(word)
    }
}

/// What is said with the word that stands next, and with the value after it where it has one; and the words
/// that are left.
fn with_next<'a>(
    said: Said<'a>,
    word: &'a str,
    rest: &'a [String],
) -> Option<(Said<'a>, &'a [String])>
    ensures taken { TakesNext said.entry word.now rest.now result }
    ensures fewer { IfSome result (λ next. length next.1.now ≤ length rest.now) }
{
    let Some((value, behind)) = rest.split_first() else {
        return Some((said.with_word(word)?, rest));
    };
    if word == "--workers" {
        return Some((said.with_workers(value.as_str())?, behind));
    }
    Some((said.with_word(word)?, rest))
}

/// What all the words say; None where one stands twice that may stand once.
fn said_by(words: &[String]) -> Option<Said<'_>>
    ensures { IsSaidBy words.now result }
{
    let mut said = Said {
        workers: None,
        summary: false,
        other: None,
    };
    let mut left = words;
    while let Some((word, rest)) = left.split_first() {
        let (more, behind) = with_next(said, word.as_str(), rest)?;
        said = more;
        left = behind;
    }
    Some(said)
}

/// A command after whose word no other exists.
fn alone_in(command: Command, words: &[String]) -> Option<Command>
    ensures { result ≡ alone_in command (map string_bytes words.now) }
{
    if words.is_empty() {
        return Some(command);
    }
    None
}

/// What the words of the command line ask for; None exactly where they are not of its form. The first is
/// `run`, `load`, `audit` or `collect`. Behind `run` and `load` stand in any order `--workers N`, or `--workers=N`, at most once,
/// `--summary` at most once, and for `load` one other word, the count; behind `audit` and `collect` stands nothing. It takes no memory.
pub fn read_words(words: &[String]) -> Option<Command>
    ensures value { result ≡ command_of words.now }
    ensures bounds { IfSome result IsBounded }
{
    let (first, rest) = words.split_first()?;
    if first.as_str() == "audit" {
        return alone_in(Command::Audit, rest);
    }
    if first.as_str() == "collect" {
        return alone_in(Command::Collect, rest);
    }
    let said = said_by(rest)?;
    let workers = match said.workers {
        Some(value) => number(value, 0, 64)?,
        None => USUAL_WORKERS,
    };
    let summary = said.summary;
    match (first.as_str(), said.other) {
        ("run", None) => Some(Command::Run { workers, summary }),
        ("load", Some(word)) => Some(Command::Load {
            count: number(word, 1, 200)?,
            workers,
            summary,
        }),
        _ => None,
    }
}
