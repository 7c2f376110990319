//! Bells in memory, bells over parkers, and the gate that holds nobody back.

use crate::{Bells, Ear, Gate, Heard, LinePort, MemBells, OpenGate, ParkBells, SocketPort};
use call_words::Call;
use std::alloc::Global;
use std::sync::Arc;
use std::test::Fail;
use std::{fs, thread};

/// Rings are counted at slots and lines together, but for the one that is to fail.
#[test]
fn bells_in_memory_count_rings(rt: HostRuntime) -> Result<(), Fail> {
    let bells = MemBells::new(vec![in rt.alloc(); 2]?);
    bells.ring(0);
    bells.ring_line(7);
    bells.ring_line(0);
    let mut ear = Ear::new();
    bells.wait(&rt, 31, &mut ear);
    bells.wait(&rt, 31, &mut ear);
    assert_eq!(rt; (bells.rings(), bells.faults(), ear.count()), (2, 1, 2));
    OpenGate.pass(&rt, 31, &Call::Pause);
    Ok(())
}

/// A ring before the wait ends it, and a ring of another thread does.
#[test]
fn a_ring_ends_a_wait(rt: HostRuntime) -> Result<(), Fail> {
    let bells: Arc<ParkBells, Global> = Arc::new(
        rt.alloc(),
        ParkBells::new(rt.alloc(), Vec::new(rt.alloc()))?,
    )?;
    let theirs = Arc::try_clone(&bells)?;
    let worker = thread::spawn(&rt, move || {
        let mut ear = Ear::new();
        theirs.wait(&rt, 31, &mut ear);
        theirs.ring(0);
        ear.count()
    })?;
    let mut ear = Ear::new();
    bells.ring(31);
    bells.wait(&rt, 0, &mut ear);
    assert_eq!(rt; (worker.join(&rt), ear.count()), (1, 1));
    Ok(())
}

/// The ring of a line ends the wait of its port. A line without a port has no bell.
#[test]
fn a_ring_of_a_line_ends_the_wait_of_its_port(rt: HostRuntime) -> Result<(), Fail> {
    let path = "edge_io_tty4";
    let (mut port, waker) = SocketPort::new(&rt, rt.alloc(), path);
    let bells = ParkBells::new(rt.alloc(), vec![in rt.alloc(); waker]?)?;
    bells.ring_line(0);
    bells.ring_line(7);
    assert_eq!(rt; port.wait(&rt, &mut [0]), Ok(Heard::Quiet));
    assert_eq!(rt; bells.faults(), 0);
    fs::remove_file(&rt, path)?;
    Ok(())
}
