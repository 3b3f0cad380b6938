//! Predicts data races and deadlocks from a trace of lock events, shows how each is met, runs scripts on threads and records
//! such traces of them, and takes the scripts to each race and each deadlock.
#![tactic(auto)]

mod answer;
mod bench_mode;
#[cfg(test)]
mod bench_tests;
#[cfg(test)]
mod deadlock_tests;
#[cfg(test)]
mod device_tests;
mod fault_line;
#[cfg(test)]
mod meeting;
#[cfg(test)]
mod meeting_tests;
mod modes;
mod outcome;
mod predict_mode;
mod predicted;
mod record_mode;
#[cfg(test)]
mod record_tests;
mod replay_mode;
#[cfg(test)]
mod replay_tests;
mod run;
mod run_mode;
#[cfg(test)]
mod run_tests;
mod scripts_of;
mod status;
#[cfg(test)]
mod tests;
mod witness_mode;
#[cfg(test)]
mod witness_tests;

use outcome::Status;
use run::run;
use sp_base::{OpenGate, StdSink, StdSource};
use std::process::ExitCode;
use std::{env, io};

// The words of the command line, or the status where they can't be had.
fn given_words(rt: &HostRuntime) -> Result<Vec<String>, Status> {
    let args = match env::args(rt) {
        Ok(args) => args,
        Err(fault) if fault.kind() == io::ErrorKind::OutOfMemory => return Err(Status::NoMemory),
        Err(_) => return Err(Status::Usage),
    };
    let mut words = Vec::new(rt.alloc());
    for word in args {
        if words.push(word).is_err() {
            return Err(Status::NoMemory);
        }
    }
    Ok(words)
}

fn main(rt: HostRuntime) -> ExitCode {
    let words = match given_words(&rt) {
        Ok(words) => words,
        Err(status) => return ExitCode::from(status.code()),
    };
    let mut source = StdSource::new(rt.stdin());
    let mut out = StdSink::new(rt.stdout());
    let mut err = StdSink::new(rt.stderr());
    let alloc = rt.alloc();
    let status = run(
        &rt,
        alloc,
        &words,
        &mut source,
        &mut out,
        &mut err,
        &OpenGate,
    );
    ExitCode::from(status.code())
}
