//! Ports in memory, and ports over sockets with real clients.

use crate::{Answer, Failed, Heard, LinePort, MemPort, SocketPort};
use mio::Waker;
use std::alloc::Global;
use std::fs::{self, Files};
use std::io::{self, Read, Write};
use std::net::Net;
use std::os::unix::net::UnixStream;
use std::rt::Clock;
use std::sync::Wait;
use std::test::Fail;
use std::thread;
use std::time::Duration;

/// A port in memory with these answers and room for three bytes, whose wait with this number fails.
fn port(alloc: Global, answers: Vec<Answer>, failing_wait: u64) -> Result<MemPort, Fail> {
    let failing_waits = vec![in alloc; failing_wait]?;
    let none = Vec::new(alloc);
    Ok(MemPort::new(alloc, answers, 3, failing_waits, none)?)
}

/// A client that types "abc" and "de" and hangs up. Its third wait is heard in two pieces, since there is room for two bytes.
#[test]
fn a_port_in_memory_answers_in_pieces(rt: HostRuntime) -> Result<(), Fail> {
    let alloc: Global = rt.alloc();
    let answers = vec![in alloc;
        Answer::Up,
        Answer::Bytes(Vec::from_slice(alloc, b"abc")?),
        Answer::Bytes(Vec::from_slice(alloc, b"de")?),
        Answer::Down,
    ]?;
    let mut port = port(alloc, answers, 2)?;
    let mut room = [0; 2];
    assert_eq!(rt; port.wait(&rt, &mut room), Ok(Heard::Up));
    assert!(rt; port.wait(&rt, &mut room).is_err());
    for (heard, bytes) in [
        (Heard::Bytes(2), *b"ab"),
        (Heard::Bytes(1), *b"cb"),
        (Heard::Bytes(2), *b"de"),
        (Heard::Down, *b"de"),
        (Heard::Ended, *b"de"),
        (Heard::Ended, *b"de"),
    ] {
        assert_eq!(rt; (port.wait(&rt, &mut room), room), (Ok(heard), bytes));
    }
    assert_eq!(rt; port.end_count(), 2);
    Ok(())
}

/// A port takes what fits, and fails where no room is left.
#[test]
fn a_port_in_memory_takes_what_fits(rt: HostRuntime) -> Result<(), Fail> {
    let mut port = port(rt.alloc(), Vec::new(rt.alloc()), 0)?;
    assert_eq!(rt;
        (port.send(&rt, b"ab"), port.send(&rt, b"cd")),
        (Ok(2), Ok(1))
    );
    assert!(rt; port.send(&rt, b"e").is_err());
    assert_eq!(rt; port.sent(), b"abc".as_slice());
    Ok(())
}

/// The waits of a port until one fails or answers Ended.
fn waits<R: Wait>(rt: &R, port: &mut MemPort, most: u64) -> u64 {
    let mut room = [0; 8];
    for number in 1..=most {
        match port.wait(rt, &mut room) {
            Ok(Heard::Ended) | Err(_) => return number,
            Ok(_) => {}
        }
    }
    0
}

/// Of two ports the first fails at its third wait, and the second answers Ended at once.
#[test]
fn a_port_fails_and_another_ends(rt: HostRuntime) -> Result<(), Fail> {
    let alloc: Global = rt.alloc();
    let answers = vec![in alloc; Answer::Up, Answer::Quiet, Answer::Down]?;
    let mut first = port(alloc, answers, 3)?;
    let mut second = port(alloc, Vec::new(alloc), 3)?;
    assert_eq!(rt; (waits(&rt, &mut first, 9), first.end_count()), (3, 0));
    assert_eq!(rt; (waits(&rt, &mut second, 9), second.end_count()), (1, 1));
    Ok(())
}

/// What a port answered: its waits, its sends, and whether the client read what was sent while it was there.
type Served = ([Result<Heard, Failed>; 4], [Result<usize, Failed>; 3], bool);

/// A client comes, types, reads and goes. Then what is sent is lost. Before it goes the waker ends a wait.
fn serve_a_client<R: Wait + Files + Net>(
    rt: &R,
    path: &str,
    port: &mut SocketPort,
    waker: &Waker,
) -> io::Result<Served> {
    let mut room = [0; 8];
    let mut client = UnixStream::connect(rt, path)?;
    let up = port.wait(rt, &mut room);
    client.write_all(b"abc")?;
    let bytes = port.wait(rt, &mut room);
    let sent = port.send(rt, b"de");
    let count = client.read(&mut room)?;
    let is_read = count == 2 && room.starts_with(b"de");
    waker.wake()?;
    let quiet = port.wait(rt, &mut room);
    drop(client);
    let lost = port.send(rt, b"lost");
    let down = port.wait(rt, &mut room);
    let lost_too = port.send(rt, b"lost");
    Ok(([up, bytes, quiet, down], [sent, lost, lost_too], is_read))
}

/// Two clients come one after the other, and so they do again at a port that finds the socket of an earlier one.
#[test]
fn a_socket_serves_one_client_after_another(rt: HostRuntime) -> Result<(), Fail> {
    let path = "edge_io_tty0";
    let heard = [
        Ok(Heard::Up),
        Ok(Heard::Bytes(3)),
        Ok(Heard::Quiet),
        Ok(Heard::Down),
    ];
    for _ in 0..2 {
        let (mut port, waker) = SocketPort::new(&rt, rt.alloc(), path);
        let Some(waker) = waker else {
            panic!(rt; "no socket");
        };
        for _ in 0..2 {
            let served = serve_a_client(&rt, path, &mut port, &waker)?;
            assert_eq!(rt; served, (heard, [Ok(2), Ok(4), Ok(4)], true));
        }
        drop(port);
        assert!(rt; UnixStream::connect(&rt, path).is_err());
    }
    fs::remove_file(&rt, path)?;
    Ok(())
}

/// A file that is not a socket stays, and the port fails at its first wait and its first send.
#[test]
fn a_file_at_the_path_stays(rt: HostRuntime) -> Result<(), Fail> {
    let path = "edge_io_tty1";
    fs::write(&rt, path, "mine")?;
    let (mut port, waker) = SocketPort::new(&rt, rt.alloc(), path);
    assert!(rt; waker.is_none());
    assert!(rt; port.wait(&rt, &mut [0]).is_err());
    assert!(rt; port.send(&rt, b"a").is_err());
    assert_eq!(rt; fs::read_to_string(&rt, path)?.as_str(), "mine");
    fs::remove_file(&rt, path)?;
    Ok(())
}

/// How many bytes are sent to a client that reads late, or not at all. No socket holds so many.
const MANY: usize = 1_048_576;

/// Reads the stream to its end, after a while in which the sender comes to wait, and counts the bytes.
fn read_late<R: Clock>(rt: &R, mut client: UnixStream) -> io::Result<usize> {
    thread::sleep(rt, Duration::from_millis(200));
    let mut room = [0; 4096];
    let mut count = 0usize;
    for _ in 0..u64::MAX {
        let more = client.read(&mut room)?;
        if more == 0 {
            break;
        }
        count = count.saturating_add(more);
    }
    Ok(count)
}

/// Sends so many bytes, however many a send takes.
fn send_many<R: Wait>(rt: &R, port: &mut SocketPort) -> bool {
    let bytes = [b'x'; 4096];
    let mut left = MANY;
    for _ in 0..MANY {
        if left == 0 {
            break;
        }
        match port.send(rt, &bytes[..left.min(4096)]) {
            Ok(count) => left = left.saturating_sub(count),
            Err(_) => return false,
        }
    }
    left == 0
}

/// A send waits for room, and no byte that it took is lost. The client has all of them once the port has gone.
#[test]
fn a_send_waits_for_a_client_that_reads_late(rt: HostRuntime) -> Result<(), Fail> {
    let path = "edge_io_tty2";
    let (mut port, _) = SocketPort::new(&rt, rt.alloc(), path);
    let client = UnixStream::connect(&rt, path)?;
    assert_eq!(rt; port.wait(&rt, &mut [0]), Ok(Heard::Up));
    let reader = thread::spawn(&rt, move || read_late(&rt, client).ok())?;
    assert!(rt; send_many(&rt, &mut port));
    drop(port);
    assert_eq!(rt; reader.join(&rt), Some(MANY));
    fs::remove_file(&rt, path)?;
    Ok(())
}

/// A client that never reads holds up a send until it goes. A waker does not end that, and is told by the next wait.
#[test]
fn a_client_that_goes_ends_a_send(rt: HostRuntime) -> Result<(), Fail> {
    let path = "edge_io_tty3";
    let (mut port, waker) = SocketPort::new(&rt, rt.alloc(), path);
    let Some(waker) = waker else {
        panic!(rt; "no socket");
    };
    let client = UnixStream::connect(&rt, path)?;
    assert_eq!(rt; port.wait(&rt, &mut [0]), Ok(Heard::Up));
    let sitter = thread::spawn(&rt, move || {
        thread::sleep(&rt, Duration::from_millis(100));
        let is_rung = waker.wake().is_ok();
        thread::sleep(&rt, Duration::from_millis(100));
        drop(client);
        is_rung
    })?;
    assert!(rt; send_many(&rt, &mut port));
    assert!(rt; sitter.join(&rt));
    assert_eq!(rt; port.wait(&rt, &mut [0]), Ok(Heard::Quiet));
    assert_eq!(rt; port.wait(&rt, &mut [0]), Ok(Heard::Down));
    fs::remove_file(&rt, path)?;
    Ok(())
}
