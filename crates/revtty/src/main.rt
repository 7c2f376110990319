//! The command `revtty`: a small kernel of labelled login terminals with revoke(2).
#![tactic(auto)]

use edge_io::{FileSource, MemSource, StdinSource, StdoutSink};
use std::alloc::AllocError;
use std::env::{self, Env};
use std::io::{Eprint, ErrorKind};
use std::process::ExitCode;
use tty_host::{Choice, Status, choose, plain_top};

/// The words after the program's name. Where one is not UTF-8 there are none, since they have no form.
fn words(rt: &(impl Env + AllocGlobal)) -> Result<Vec<String>, AllocError> {
    match env::args(rt) {
        Ok(args) => args.skip(1).collect(rt.alloc()),
        Err(error) if error.kind() == ErrorKind::OutOfMemory => Err(AllocError),
        Err(_) => Ok(Vec::new(rt.alloc())),
    }
}

/// What standard error is told of a status: what could not be read, written or had.
fn complaint(status: Status) -> Option<&'static str> {
    match status {
        Status::ReadFault => Some("revtty: cannot read the input"),
        Status::WriteFault => Some("revtty: cannot write standard output"),
        Status::Memory => Some("revtty: out of memory"),
        Status::Done | Status::Usage | Status::Input | Status::Full | Status::NoWorker => None,
    }
}

/// The exit status of a command that ended so, of which standard error is told.
fn exit(rt: &impl Eprint, status: Status) -> ExitCode {
    if let Some(text) = complaint(status) {
        // What cannot be written there changes nothing.
        let _ = rt.eprintln(text);
    }
    ExitCode::from(status.code())
}

fn main(rt: HostRuntime) -> ExitCode {
    let Ok(words) = words(&rt) else {
        return exit(&rt, Status::Memory);
    };
    let mut src = StdinSource::new(&rt);
    let mut out = StdoutSink::new(&rt);
    let status = match choose(&words) {
        Choice::Script { boot: Some(named) } => {
            let mut boot = FileSource::new(&rt, words[named].as_str());
            plain_top(rt.alloc(), &words, &mut boot, &mut src, &mut out)
        }
        Choice::Script { boot: None } | Choice::Load { .. } | Choice::Usage => {
            let mut boot = MemSource::new(Vec::new(rt.alloc()), Vec::new(rt.alloc()));
            plain_top(rt.alloc(), &words, &mut boot, &mut src, &mut out)
        }
    };
    exit(&rt, status)
}
