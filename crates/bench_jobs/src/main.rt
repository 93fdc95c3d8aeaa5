//! The jobs that users wait for, for the benchmark in `bench/`.
//!
//! `bench_jobs JOB COUNT SEED` makes the input of a job from the number SEED, does it through public calls, and prints one
//! line: the job and a digest of all that it gave. COUNT says how much is to be done. `bench_jobs all COUNT SEED` does each
//! job in turn.
#![tactic(auto)]

use crate::job::JobFault;
use std::alloc::Global;
use std::env;
use std::process::ExitCode;

mod book;
mod clients;
mod digest;
mod draw;
mod job;
mod record;
mod relay;
mod reload;
mod replay;
mod serve;
mod texts;

/// The words are no job, or it was not done.
const FAILED: u8 = 1;

/// The jobs, by name.
const JOBS: [&str; 6] = ["tenants", "servers", "reload", "record", "replay", "relay"];

/// The digest of what the job of that name gives.
fn digest_of(alloc: Global, job: &str, count: u64, seed: u64) -> Result<u64, JobFault> {
    match job {
        "tenants" => serve::tenants(alloc, count, seed),
        "servers" => serve::servers(alloc, count, seed),
        "reload" => reload::run(alloc, count, seed),
        "record" => record::run(alloc, count, seed),
        "replay" => replay::run(alloc, count, seed),
        "relay" => relay::run(alloc, count, seed),
        _ => Err(JobFault::NoJob),
    }
}

/// Does the job of that name, and prints its digest.
fn do_job<R: AllocGlobal + Print + Eprint>(rt: &R, job: &str, count: u64, seed: u64) -> bool {
    match digest_of(rt.alloc(), job, count, seed) {
        Ok(digest) => println!(rt; "{job} {digest}").is_ok(),
        Err(fault) => {
            let _written = eprintln!(rt; "bench_jobs: {job}: {fault}");
            false
        }
    }
}

/// How much of a job is done where all are done in turn: a reload takes long, and a relayed connection too.
fn count_of(job: &str, count: u64) -> u64 {
    match job {
        "reload" => 1,
        "relay" => count / 10,
        _ => count,
    }
}

/// Does what the words ask for.
fn run<R: AllocGlobal + Print + Eprint>(rt: &R, job: &str, count: &str, seed: &str) -> bool {
    let (Ok(count), Ok(seed)) = (count.parse::<u64>(), seed.parse::<u64>()) else {
        let _written = eprintln!(rt; "bench_jobs: COUNT and SEED are numbers");
        return false;
    };
    if job != "all" {
        return do_job(rt, job, count, seed);
    }
    let mut all = true;
    for job in JOBS {
        all = do_job(rt, job, count_of(job, count), seed) && all;
    }
    all
}

fn main(rt: HostRuntime) -> ExitCode {
    let words = match env::args(&rt) {
        Ok(words) => words.collect(rt.alloc()),
        Err(_) => return ExitCode::from(FAILED),
    };
    let words: Vec<String> = match words {
        Ok(words) => words,
        Err(_) => return ExitCode::from(FAILED),
    };
    let done = match words.as_slice() {
        [_program, job, count, seed] => run(&rt, job.as_str(), count.as_str(), seed.as_str()),
        _ => {
            let _written = eprintln!(rt; "usage: bench_jobs JOB COUNT SEED");
            false
        }
    };
    ExitCode::from(if done { 0 } else { FAILED })
}
