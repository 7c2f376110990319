//! Jobs.
ghost use Rattle.std.specs.Prelude.{◌≡◌, ◌-◌, ◌≤◌, length, drop, option_copied, Some, None, IfOk, IfErr, if◌then◌else◌};
ghost use Rattle.std.specs.Str.{byte};
ghost use Rattle.sh_text.specs.Bytes.{begins};
ghost use Rattle.sh_text.specs.Reading.{Gives, left_of, commands_at, ending_at, job_at, jobs_at};

use crate::bytes::after_blanks;
use crate::command::command;
use crate::fault::{Halt, stop_at};
use crate::tree::{Commands, Job, Jobs};
use std::alloc::Global;

/// How many commands a job has at most. The limit is this crate's own.
pub const MOST_COMMANDS: u8 = 8;

/// What follows a bar, where the bytes begin with one.
fn after_bar(bytes: &[u8]) -> Option<&[u8]>
    ensures { option_copied result ≡ (if begins (byte "|") bytes.now then Some (drop 1 bytes.now) else None) }
{
    match bytes.split_first() {
        Some((first, rest)) if *first == b'|' => Some(rest),
        _ => None,
    }
}

/// The commands of a job, and the bytes after them.
#[tactic(auto, unfolding(crate::specs::Reading::commands_at))]
fn commands(alloc: Global, bytes: &[u8]) -> Result<(Commands, &[u8]), Halt>
    ensures gives { Gives (λ x. (x.0, x.1.now)) result (commands_at bytes.now) }
    ensures within { IfErr result (λ halt. left_of halt ≤ length bytes.now) }
    ensures shorter { IfOk result (λ x. length x.1.now ≤ length bytes.now) }
{
    let mut commands = Commands::new(alloc);
    let mut more = MOST_COMMANDS - 1;
    let mut rest = bytes;
    loop {
        let (command, after) = command(alloc, rest)?;
        commands.push(command)?;
        let Some(next) = after_bar(after) else {
            return Ok((commands, after));
        };
        if more == 0 {
            return Ok((commands, after));
        }
        more -= 1;
        rest = next;
    }
}

/// Whether the job that ends here runs in the background, and the bytes after its end.
fn ending(bytes: &[u8]) -> Result<(bool, &[u8]), Halt>
    ensures gives { Gives (λ x. (x.0, x.1.now)) result (ending_at bytes.now) }
    ensures within { IfErr result (λ halt. left_of halt ≤ length bytes.now) }
    ensures shorter { IfOk result (λ x. length x.1.now ≤ length bytes.now - 1) }
{
    match bytes {
        [] => Ok((false, bytes)),
        [b';', rest @ ..] => Ok((false, rest)),
        [b'&', rest @ ..] => Ok((true, rest)),
        _ => Err(Halt::Text(stop_at(bytes))),
    }
}

/// A job, and the bytes after its end.
#[tactic(auto, unfolding(crate::specs::Reading::job_at))]
fn job(alloc: Global, bytes: &[u8]) -> Result<(Job, &[u8]), Halt>
    ensures gives { Gives (λ x. (x.0, x.1.now)) result (job_at bytes.now) }
    ensures within { IfErr result (λ halt. left_of halt ≤ length bytes.now) }
    ensures shorter { IfOk result (λ x. length x.1.now ≤ length bytes.now - 1) }
{
    let (commands, rest) = commands(alloc, bytes)?;
    let (background, rest) = ending(rest)?;
    Ok((
        Job {
            commands,
            background,
        },
        rest,
    ))
}

/// The jobs of a line.
#[tactic(auto, unfolding(crate::specs::Reading::jobs_at))]
pub(crate) fn jobs(alloc: Global, bytes: &[u8]) -> Result<Jobs, Halt>
    ensures gives { Gives (λ x. x) result (jobs_at bytes.now) }
    ensures within { IfErr result (λ halt. left_of halt ≤ length bytes.now) }
{
    let mut jobs = Jobs::new(alloc);
    let mut rest = after_blanks(bytes);
    while !rest.is_empty() {
        let (job, after) = job(alloc, rest)?;
        jobs.push(job)?;
        rest = after_blanks(after);
    }
    Ok(jobs)
}
