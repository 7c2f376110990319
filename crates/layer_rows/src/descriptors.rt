//! Descriptors of two processes that share an open file, and the open files that go with their last reference.

use fd_table::{FdTable, Open, Target};
use std::test::Fail;
use sys_types::{Node, Rule};

/// What is open for reading and writing of a target.
fn open_of(target: Target) -> Open {
    Open {
        target,
        readable: true,
        writable: true,
        append: false,
        nonblock: false,
        offset: 0,
    }
}

/// A file that is open at 0, 1 and 9 of slot 0 and, after a fork, of slot 1 has one offset.
#[test]
#[tactic(auto, using(fd_table::proofs::TableLemmas::closed_by))]
fn one_offset_for_all(rt: HostRuntime) -> Result<(), Fail> {
    let mut table = FdTable::new(rt.alloc())?;
    let opened = table.open_new(0, open_of(Target::File(Node::of(5))), false);
    let copied = table.dup(0, 0);
    let placed = table.dup2(0, 1, 9);
    if table.drop_first(1).is_none() {
        table.copy_all(0, 1);
    }
    if table.get(1, 9).is_some() {
        table.set_offset(1, 9, 70);
    }
    let offset = table.get(0, 0).map(|file| file.offset);
    assert!(rt; opened == Ok(0) && copied == Ok(1) && placed == Ok(None) && offset == Some(70));
    assert!(rt; table.live(&Target::File(Node::of(5))) == 1);
    Ok(())
}

/// The ends of a pipe take two numbers, and each goes with its last reference.
#[test]
fn ends_of_a_pipe(rt: HostRuntime) -> Result<(), Fail> {
    let mut table = FdTable::new(rt.alloc())?;
    let ends = table.open_pair(
        2,
        open_of(Target::PipeRead(3)),
        open_of(Target::PipeWrite(3)),
    );
    let copied = table.dup(2, 1);
    let kept = table.close(2, 1);
    let gone = table.close(2, 2);
    let twice = table.close(2, 2);
    assert!(rt; ends == Ok((0, 1)) && copied == Ok(2) && kept == Ok(None));
    assert!(rt; gone == Ok(Some(open_of(Target::PipeWrite(3)))) && twice == Err(Rule::BadFd));
    assert!(rt; table.live(&Target::PipeRead(3)) == 1 && table.live(&Target::PipeWrite(3)) == 0);
    Ok(())
}

/// A file of a line counts for the opening that it is of. A number that is closed on exec is found among the others.
#[test]
fn openings_of_a_line(rt: HostRuntime) -> Result<(), Fail> {
    let mut table = FdTable::new(rt.alloc())?;
    let old = Target::Line { line: 7, opened: 2 };
    let new = Target::Line { line: 7, opened: 3 };
    let first = table.open_new(31, open_of(old), false);
    let second = table.open_new(31, open_of(new), true);
    let counts = (table.live(&old), table.live(&new));
    let on_exec = table.close_exec_first(31);
    let none = table.close_exec_first(31);
    assert!(rt; first == Ok(0) && second == Ok(1) && counts == (1, 1));
    assert!(rt; on_exec == Some(Some(open_of(new))) && none == None);
    assert!(rt; table.room_rule(31, 31) == None && table.room_rule(31, 32) == Some(Rule::FdRoom));
    Ok(())
}
