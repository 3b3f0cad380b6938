//! Numbered jobs over workers.
//!
//! `run_jobs` answers what each job answers, in the order of the numbers, each once, whatever the number of workers. The jobs
//! are dealt out to the workers by the remainders of their numbers. It stands on the threads of std alone, waits for nothing
//! but their ends, and must not know what the jobs do.
#![tactic(auto)]

mod job;
mod plan;
mod pool;
#[cfg(test)]
mod tests;

pub use job::Job;
pub use pool::run_jobs;
