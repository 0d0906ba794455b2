// Runs cert-manager's certificate controllers over a modelled Kubernetes API store.
//
// `cmrun run` reads a scenario from standard input, runs its script and its controllers on an empty store,
// and prints the history of the run and a summary to standard output. `cmrun load COUNT` does the same with a
// scenario that it makes, of COUNT Certificates that are issued and renewed, and reads nothing. `cmrun audit` reads such a
// history, and says whether it is legal and safe, or where it fails first. `cmrun collect` reads a script of owner collection,
// and prints what its steps make. With `--summary`
// the summary alone is printed. `--workers N` says how many threads take passes of controllers, 4 where it is not given;
// with 0 there is no thread but the first, and the run is that of the plain order.
#![tactic(auto)]

mod auditing;
mod collecting;
mod laws;
mod leaving;
mod memory;
mod sink;
mod source;
mod status;
mod top;
mod words;

use cmc_answers::ScriptedSigner;
use cmc_keys::ScriptedKeys;
use cmc_seed::HashSeed;
use cmc_workers::NoGate;
use sink::StdSink;
use source::StdSource;
use status::{Status, code, failing_line, failing_path, message};
use std::alloc::AllocError;
use std::env;
use std::io::ErrorKind;
use std::process::ExitCode;
use top::run;

fn command_line(rt: &HostRuntime) -> Result<Vec<String>, AllocError> {
    let mut words = Vec::new(rt.alloc());
    match env::args(rt) {
        Ok(args) => {
            for word in args.skip(1) {
                words.push(word)?;
            }
        }
        Err(error) if matches!(error.kind(), ErrorKind::OutOfMemory) => return Err(AllocError),
        // A word that is no UTF-8 is none of the command line, and with no words at all there is no command.
        Err(_) => {}
    }
    Ok(words)
}

/// Draws the seed that the run's maps hash by. No run fails for want of random bytes: it has the fixed seed then.
fn drawn_seed(rt: &HostRuntime) -> HashSeed {
    match HashSeed::new(rt) {
        Ok(seed) => seed,
        Err(_) => HashSeed::fixed(),
    }
}

fn main(rt: HostRuntime) -> ExitCode {
    let status = match command_line(&rt) {
        Ok(words) => {
            let mut source = StdSource::new(rt.stdin());
            let mut sink = StdSink::new(rt.stdout());
            run(
                &rt,
                rt.alloc(),
                drawn_seed(&rt),
                words.as_slice(),
                &mut source,
                &mut sink,
                &ScriptedKeys,
                &ScriptedSigner,
                &NoGate,
            )
        }
        Err(_) => Status::NoMemory,
    };
    if !matches!(status, Status::Done) {
        let _ = match failing_line(&status) {
            Some(line) => eprintln!(rt; "cmrun: {}{line}", message(&status)),
            None => eprintln!(rt; "cmrun: {}{}", message(&status), failing_path(&status)),
        };
    }
    ExitCode::from(code(&status))
}

#[cfg(test)]
mod checks;
#[cfg(test)]
mod tests;
#[cfg(test)]
mod tests_of_audit;
#[cfg(test)]
mod tests_of_collect;
#[cfg(test)]
mod tests_of_ends;
#[cfg(test)]
mod tests_of_hostile_input;
#[cfg(test)]
mod tests_of_refusals;
#[cfg(test)]
mod tests_of_rows;
#[cfg(test)]
mod tests_of_steps;
#[cfg(test)]
mod tests_of_threads;
#[cfg(test)]
mod tests_of_waits;
#[cfg(test)]
mod tests_of_words;
