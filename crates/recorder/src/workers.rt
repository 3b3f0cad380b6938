//! Threads that run scripts.

ghost use Rattle.std.specs.Prelude.{◌≡◌, All, IfOk, vec_len};
ghost use Rattle.script_machine.specs.Held.{meaning};
ghost use Rattle.script_machine.specs.Machine.{IsComplete};
ghost use Rattle.script_machine.specs.Recorded.{IsRecording};
ghost use Rattle.recorder.specs.Passes.{IsPassOf};

use crate::{Call, Manager, Pass};
use script_machine::{Recording, Script};
use sp_base::{Gate, OutOfMemory};
use std::alloc::Global;
use std::sync::Wait;
use std::thread;
use std::thread::Threads;

/// Runs the scripts on threads, one worker for each thread of the scripts, until no thread of them can step, and answers
/// what was recorded. Its only error is want of memory.
///
/// The work of a worker that cannot be started is done on a thread of another.
pub fn record<'a, R: Threads + Wait + Sync, G: Gate + Sync>(
    rt: &R,
    alloc: Global,
    script: &'a Script,
    gate: &G,
) -> Result<Recording<'a>, OutOfMemory>
    ensures script { IfOk result (λ r. r.machine.script ≡ script.now) }
    ensures recording { IfOk result (λ r. IsRecording r) }
    ensures complete { IfOk result (λ r. IsComplete script.now (meaning r.machine)) }
{
    let (manager, passes) = Manager::new(alloc, script)?;
    let workers = workers_of(alloc, &manager, passes)?;
    let passes = thread::map_vec(rt, workers, &|worker: Worker| worker.run(rt, gate))?;
    manager.finish(alloc, passes)
}

// What one thread of the recording does: it makes the calls of a pass.
#[derive(Drop)]
pub(crate) struct Worker<'m, 'a> {
    pub(crate) manager: &'m Manager<'a>,
    pub(crate) pass: Pass<'a>,
    ghost of: { IsPassOf manager.now pass },
}

// A worker for each pass, in order.
fn workers_of<'m, 'a>(
    alloc: Global,
    manager: &'m Manager<'a>,
    passes: Vec<Pass<'a>>,
) -> Result<Vec<Worker<'m, 'a>>, OutOfMemory>
    requires { All (λ pass. IsPassOf manager.now pass) passes.items }
    ensures length { IfOk result (λ workers. vec_len workers ≡ vec_len passes.entry) }
    ensures manager { IfOk result (λ workers. All (λ worker. worker.manager.now ≡ manager.now) workers.items) }
{
    let mut workers = Vec::with_capacity(alloc, passes.len())?;
    for pass in passes {
        workers.push_reserved(Worker::new(manager, pass));
    }
    Ok(workers)
}

impl<'m, 'a> Worker<'m, 'a> {
    pub(crate) fn new(manager: &'m Manager<'a>, pass: Pass<'a>) -> Worker<'m, 'a>
        requires { IsPassOf manager.now pass }
        ensures { result.manager.now ≡ manager.now }
    {
        Worker { manager, pass }
    }

    // Makes calls until the thread has ended or is parked, and hands the pass back.
    fn run<R: Threads + Wait + Sync, G: Gate>(self, rt: &R, gate: &G) -> Pass<'a>
        ensures { IsPassOf self.entry.manager.now result }
    {
        let Worker { manager, mut pass } = self;
        for _ in rt.forever() {
            match manager.call(rt, &mut pass, gate) {
                Call::Done(_) => {}
                Call::Ended | Call::Parked(_) => return pass,
            }
        }
        unreachable!()
    }
}
