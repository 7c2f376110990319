//! The table of 32 processes at a boot, and its first fork.

use proc_table::ProcTable;
use std::test::Fail;
use sys_types::{Piece, Rule};

/// At a boot pid 1 stands in slot 0, and a fork puts pid 2 into slot 1, of which a wait has no news yet.
#[test]
fn first_fork(rt: HostRuntime) -> Result<(), Fail> {
    let mut table = ProcTable::new(rt.alloc())?;
    let alone = table.child_news(0, 0, false);
    if table.running(0).is_none() {
        return Err("pid 1 runs".into());
    }
    let child = table.fork(0, &Piece::empty());
    let parent = table.get(1).map(|process| process.parent);
    assert!(rt; alone == Err(Rule::NoChild) && child == Ok(1) && parent == Some(1));
    assert!(rt;
        table.slot_of(1) == Some(0) && table.slot_of(2) == Some(1) && table.running(2).is_none()
    );
    assert!(rt;
        table.child_news(0, 0, false) == Ok(None)
            && table.child_news(0, 3, false) == Err(Rule::NoChild)
    );
    Ok(())
}
