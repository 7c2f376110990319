//! A thread for each job, which waits at a flag until all are started.
//!
//! The flag is written once: true where all threads were started, and false where one was not. Each thread hands its job
//! back with a token of the word that it read there, and two tokens of one flag agree. So either all jobs were run, or
//! none was begun.
ghost use Rattle.std.specs.Prelude.{◌≡◌, ◌+◌, ◌≤◌, true, false, vec_len, vec_capacity};
ghost use Rattle.std.specs.List.{All, AllZip};
ghost use Rattle.edge_io.specs.Crew.{Went};

use crate::crew::Job;
use std::snapshot::Snapshot;
use std::sync::{OnceLock, OnceToken, Wait};
use std::thread::{self, Promise, Scope, Threads};

/// What a thread comes back with: its job, and the token of the word that it read at the flag.
#[derive(Drop)]
struct Back<'a, J: Drop> {
    job: J,
    word: OnceToken<'a, bool>,
}

/// What a thread was started with, which says what it is to come back with.
#[derive(Drop)]
struct Start<'a, C, J> {
    flag: &'a OnceLock<bool>,
    shared: &'a C,
    job: Snapshot<J>,
}

impl<'a, C, J: Job<C>> Promise<Back<'a, J>> for Start<'a, C, J> {
    ghost use Rattle.std.specs.Prelude.{◌≡◌, true, false};
    ghost use Rattle.edge_io.specs.Crew.{Went};

    ghost kept_by = { λ p b. (b.word.of ≡ p.flag.now.id) × Went (J.ran p.shared.now) b.word.value p.job.value b.job };
}

/// Waits for the word at the flag.
fn word_at<'a, R: Wait>(rt: &R, flag: &'a OnceLock<bool>) -> OnceToken<'a, bool>
    ensures { result.of ≡ flag.now.id }
{
    for _ in rt.forever() {
        if let Some(word) = flag.witness() {
            return word;
        }
        flag.wait(rt);
    }
    unreachable!()
}

/// Runs the job where the word at the flag is true, and gives it back as it was where it is false.
fn work<'a, R: Wait, C, J: Job<C>>(
    rt: &R,
    flag: &'a OnceLock<bool>,
    shared: &C,
    mut job: J,
) -> Back<'a, J>
    requires { J.fits shared.now job }
    ensures flag { result.word.of ≡ flag.now.id }
    ensures went { Went (J.ran shared.now) result.word.value job result.job }
{
    let word = word_at(rt, flag);
    if *flag.value(&word) {
        job.run(rt, shared);
    }
    Back { job, word }
}

/// Starts a thread for each of the jobs, from the last to the first, writes the word at the flag, and joins the threads
/// from the first to the last. Where a thread was not started, its job waits at the flag here.
fn run_rest<'s, E, R: Threads + Wait + Sync + 's, C: Sync + 's, J: Job<C> + Send + 's>(
    rt: &'s R,
    scope: &Scope<'s, E>,
    flag: &'s OnceLock<bool>,
    shared: &'s C,
    mut jobs: Vec<J>,
    mut done: Vec<J>,
) -> (OnceToken<'s, bool>, Vec<J>)
    requires fits { All (J.fits shared.now) jobs.items }
    requires room { vec_len done + vec_len jobs ≤ vec_capacity done }
    requires empty { vec_len done ≡ 0 }
    ensures flag { result.0.of ≡ flag.now.id }
    ensures went { AllZip (Went (J.ran shared.now) result.0.value) jobs.items result.1.items }
    ensures room { vec_capacity result.1 ≡ vec_capacity done }
{
    let Some(job) = jobs.pop() else {
        return (flag.init(rt, || true), done);
    };
    let start = Start {
        flag,
        shared,
        job: Snapshot::of(&job),
    };
    let task = move || -> Back<'_, J>
        requires { J.fits shared.now job }
        ensures flag { result.word.of ≡ flag.entry.now.id }
        ensures went { Went (J.ran shared.entry.now) result.word.value job result.job }
    { work(rt, flag, shared, job) };
    match scope.spawn_with(start, task) {
        Ok(thread) => {
            let (word, mut done) = run_rest(rt, scope, flag, shared, jobs, done);
            let back = thread.join(rt);
            back.word.agrees(&word);
            done.push_reserved(back.job);
            (word, done)
        }
        Err(refused) => {
            flag.init(rt, || false);
            let (word, mut done) = run_rest(rt, scope, flag, shared, jobs, done);
            let back = (refused.value)();
            back.word.agrees(&word);
            done.push_reserved(back.job);
            (word, done)
        }
    }
}

/// Runs the jobs in threads of a scope, and answers whether they were run. They are handed back in `room`.
pub(crate) fn in_scope<R: Threads + Wait + Sync, C: Sync, J: Job<C> + Send>(
    rt: &R,
    flag: &OnceLock<bool>,
    shared: &C,
    jobs: Vec<J>,
    room: Vec<J>,
) -> (bool, Vec<J>)
    requires fits { All (J.fits shared.now) jobs.items }
    requires room { vec_len jobs ≤ vec_capacity room }
    requires empty { vec_len room ≡ 0 }
    ensures { AllZip (Went (J.ran shared.now) result.0) jobs.items result.1.items }
{
    thread::scope(
        thread::scope_env(),
        rt,
        move |scope| -> (bool, Vec<J>)
            requires fits { All (J.fits shared.now) jobs.items }
            requires room { vec_len jobs ≤ vec_capacity room }
            requires empty { vec_len room ≡ 0 }
            ensures { AllZip (Went (J.ran shared.entry.now) result.0) jobs.items result.1.items }
        {
            let (word, done) = run_rest(rt, scope, flag, shared, jobs, room);
            (*flag.value(&word), done)
        },
    )
}
