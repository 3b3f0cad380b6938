//! Numbered jobs over workers.

ghost use Rattle.std.specs.Prelude.{◌≡◌, ◌≤◌, IfOk, vec_len};
ghost use Rattle.shard_pool.specs.Shares.{AreAnswers};

use crate::Job;
use crate::plan::Plan;
use sp_base::{MAX_WORKERS, OutOfMemory};
use std::alloc::Global;
use std::marker::{Send, Sync};
use std::thread::Threads;

/// Does the jobs with the numbers 0 to `jobs` minus 1, and answers their answers in the order of the numbers, each once. The
/// number of workers has no part in what is promised. The only error is want of memory, in a job or here.
///
/// A worker does the jobs whose number leaves its own number when divided by the number of workers. The jobs of a worker that
/// cannot be started are done by the caller.
pub fn run_jobs<R: Threads + Sync, J: Job + Sync>(
    rt: &R,
    alloc: Global,
    jobs: u32,
    workers: u8,
    job: &J,
) -> Result<Vec<J::Answer>, OutOfMemory>
where
    J::Answer: Send + Drop,
    requires least_workers { 1 ≤ workers }
    requires greatest_workers { workers ≤ MAX_WORKERS }
    ensures length { IfOk result (λ answers. vec_len answers ≡ jobs) }
    ensures answers { IfOk result (λ answers. AreAnswers (J.answers job.now) answers.items) }
{
    if jobs == 0 {
        return Ok(Vec::new(alloc));
    }
    let workers = u32::from(workers).min(jobs);
    let plan = Plan { job, jobs, workers };
    let shares = plan.work_all(rt, alloc)?;
    plan.gather(alloc, shares)
}
