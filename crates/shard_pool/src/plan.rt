// How jobs are dealt out to workers.

ghost use Rattle.std.specs.Prelude.{◌≡◌, ◌+◌, ◌<◌, ◌≤◌, map, IfOk, Ok, vec_len};
ghost use Rattle.sp_base.specs.declared.limits.TheConstants.{MAX_WORKERS};
ghost use Rattle.shard_pool.specs.Shares.{AreAnswers, IsShare, AreShares};

use crate::Job;
use sp_base::{MAX_WORKERS, OutOfMemory};
use std::alloc::Global;
use std::marker::{Send, Sync};
use std::thread;
use std::thread::Threads;

// So many jobs, dealt out to so many workers: a worker does the jobs whose number leaves its own number when divided by the
// number of workers.
#[derive(Drop)]
pub(crate) struct Plan<'j, J> {
    pub(crate) job: &'j J,
    pub(crate) jobs: u32,
    pub(crate) workers: u32,
}

// The number that comes so many after a number, or one that is not below the limit.
fn next_number(number: u32, workers: u32, limit: u32) -> u32
    requires number { number < limit }
    requires workers { 0 < workers }
    ensures more { number < result }
    ensures most { result ≤ number + workers }
    ensures next { result < limit → result ≡ number + workers }
{
    number.saturating_add(workers)
}

// The values, where none of them is an error.
fn all_of<A: Drop>(
    alloc: Global,
    done: Vec<Result<Vec<A>, OutOfMemory>>,
) -> Result<Vec<Vec<A>>, OutOfMemory>
    ensures { IfOk result (λ shares. map Ok shares.items ≡ done.items) }
{
    let mut shares = Vec::with_capacity(alloc, done.len())?;
    for share in done {
        shares.push_reserved(share?);
    }
    Ok(shares)
}

impl<'j, J: Job> Plan<'j, J>
where
    J::Answer: Send + Drop,
{
    // Does the jobs of one worker, in the order of their numbers.
    fn work(&self, alloc: Global, worker: u32) -> Result<Vec<J::Answer>, OutOfMemory>
        requires worker { worker < self.now.workers }
        ensures { IfOk result (λ share. IsShare (J.answers self.now.job.now) self.now.workers self.now.jobs worker share.items) }
    {
        let mut share = Vec::new(alloc);
        let mut number = worker;
        while number < self.jobs {
            share.reserve(1)?;
            share.push_reserved(self.job.answer(number)?);
            number = next_number(number, self.workers, self.jobs);
        }
        Ok(share)
    }

    // Takes the answer to the last number out of the shares.
    fn take_last(&self, shares: &mut Vec<Vec<J::Answer>>, number: u32) -> J::Answer
        requires workers { 0 < self.now.workers }
        requires shares { AreShares (J.answers self.now.job.now) self.now.workers (number + 1) shares.old.items }
        ensures answer { J.answers self.now.job.now number result }
        ensures shares { AreShares (J.answers self.now.job.now) self.now.workers number shares.new.items }
    {
        let worker = (number % self.workers) as usize;
        let Some(answer) = shares[worker].pop() else {
            unreachable!()
        };
        answer
    }

    // Puts the shares of all workers together, in the order of the numbers.
    pub(crate) fn gather(
        &self,
        alloc: Global,
        mut shares: Vec<Vec<J::Answer>>,
    ) -> Result<Vec<J::Answer>, OutOfMemory>
        requires workers { 0 < self.now.workers }
        requires shares { AreShares (J.answers self.now.job.now) self.now.workers self.now.jobs shares.items }
        ensures length { IfOk result (λ answers. vec_len answers ≡ self.now.jobs) }
        ensures answers { IfOk result (λ answers. AreAnswers (J.answers self.now.job.now) answers.items) }
    {
        let mut answers = Vec::with_capacity(alloc, self.jobs as usize)?;
        let mut left = self.jobs;
        while left > 0 {
            left -= 1;
            answers.push_reserved(self.take_last(&mut shares, left));
        }
        answers.reverse();
        Ok(answers)
    }
}

impl<'j, J: Job + Sync> Plan<'j, J>
where
    J::Answer: Send + Drop,
{
    // Does all jobs, each worker on a thread of its own where one can be started.
    pub(crate) fn work_all<R: Threads + Sync>(
        &self,
        rt: &R,
        alloc: Global,
    ) -> Result<Vec<Vec<J::Answer>>, OutOfMemory>
        requires workers { self.now.workers ≤ MAX_WORKERS }
        ensures { IfOk result (λ shares. AreShares (J.answers self.now.job.now) self.now.workers self.now.jobs shares.items) }
    {
        let work = |worker: usize| -> Result<Vec<J::Answer>, OutOfMemory>
            requires { (worker < self.now.workers) × (self.now.workers ≤ MAX_WORKERS) }
            ensures { IfOk result (λ share. IsShare (J.answers self.entry.now.job.now) self.entry.now.workers self.entry.now.jobs worker share.items) }
        { self.work(alloc, worker as u32) };
        let done = thread::map_indices(rt, alloc, self.workers as usize, &work)?;
        all_of(alloc, done)
    }
}
