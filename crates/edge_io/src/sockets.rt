//! The port of a line over a Unix socket, which has one client at a time. It tells nothing of its bytes, and contracts
//! see of it its count of faults.
ghost use Rattle.std.specs.Prelude.{◌≡◌, ◌<◌, ◌≤◌, length, IfOk};
ghost use Rattle.edge_io.specs.Port.{FitsRoom, end_count_after};

use crate::outside::Failed;
use crate::port::{Heard, LinePort};
use mio::net::{UnixListener, UnixStream};
use mio::{Events, Interest, Poll, Token, Waker};
use std::alloc::Global;
use std::fs::{self, Files};
use std::io::{self, ErrorKind, Read, Write};
use std::marker::Model;
use std::net::Net;
use std::os::unix::fs::FileTypeExt;
use std::sync::Wait;

/// A client comes.
const LISTENER: Token = Token(0);

/// The client sent something, went, or has room.
const CLIENT: Token = Token(1);

/// The waker was used.
const WAKER: Token = Token(2);

/// How many of these are reported at once.
const EVENTS: usize = 3;

/// A listening socket with its client, if there is one.
#[derive(Drop)]
struct Socket {
    poll: Poll,
    events: Events<Global>,
    listener: UnixListener,
    client: Option<UnixStream>,
    /// Whether the waker was used while a send waited, and no wait has answered Quiet since.
    is_woken: bool,
}

/// The port of a line over a Unix socket. A client that connects is a carrier that comes up, and one that goes, or that
/// sends nothing more, is a carrier that goes down. While there is one, the next waits to be heard.
#[derive(Drop)]
pub struct SocketPort {
    /// The socket, or `None` where it could not be made: then each call fails.
    socket: Option<Socket>,
    faults: u64,
}

impl Model for SocketPort {
    ghost use Rattle.std.specs.Prelude.{ℕ};

    ghost Value = { ℕ };

    ghost view = { λ p. p.faults };
}

impl SocketPort {
    /// A port at this path, and the waker that ends its wait from any thread. A socket that an earlier run left there
    /// is removed; any other file stays, and the port cannot be made. Where it cannot be made there is no waker, and
    /// the first wait fails.
    pub fn new<R: Files + Net>(rt: &R, alloc: Global, path: &str) -> (Self, Option<Waker>)
        ensures { result.0 ≡ 0 }
    {
        let (socket, waker) = match Socket::listen(rt, alloc, path) {
            Ok((socket, waker)) => (Some(socket), Some(waker)),
            Err(_) => (None, None),
        };
        (SocketPort { socket, faults: 0 }, waker)
    }
}

impl LinePort for SocketPort {
    ghost use Rattle.std.specs.Prelude.{None};

    ghost faults = { λ p. p };

    ghost heard = { λ p. None };

    ghost sent = { λ p. None };

    ghost end_count = { λ p. 0 };

    /// It never answers Ended. A client that goes is no fault.
    fn wait<R: Wait>(&mut self, rt: &R, into: &mut [u8]) -> Result<Heard, Failed> {
        if let Some(socket) = &mut self.socket
            && let Ok(heard) = socket.hear(rt, into)
        {
            return Ok(heard);
        }
        Err(Failed::count_in(&mut self.faults))
    }

    /// Where there is no client, the bytes are lost, as on a line without a carrier. Where the client does not read, this
    /// waits until it does or goes, and the waker does not end that.
    fn send<R: Wait>(&mut self, rt: &R, from: &[u8]) -> Result<usize, Failed> {
        if let Some(socket) = &mut self.socket
            && let Ok(count) = socket.put(rt, from)
        {
            return Ok(count);
        }
        Err(Failed::count_in(&mut self.faults))
    }
}

/// Removes what is at the path where it is a socket.
fn remove_stale_socket<R: Files>(rt: &R, path: &str) -> io::Result<()> {
    match fs::symlink_metadata(rt, path) {
        Ok(found) if found.file_type().is_socket() => fs::remove_file(rt, path),
        Ok(_) => Ok(()),
        Err(e) if e.kind() == ErrorKind::NotFound => Ok(()),
        Err(e) => Err(e),
    }
}

impl Socket {
    /// A socket that listens at the path, and what wakes it.
    fn listen<R: Files + Net>(rt: &R, alloc: Global, path: &str) -> io::Result<(Self, Waker)> {
        let poll = Poll::new(rt)?;
        let events = Events::with_capacity(alloc, EVENTS)?;
        let waker = Waker::new(poll.registry(), WAKER)?;
        remove_stale_socket(rt, path)?;
        let mut listener = UnixListener::bind(rt, path)?;
        poll.registry()
            .register(&mut listener, LISTENER, Interest::READABLE)?;
        let socket = Socket {
            poll,
            events,
            listener,
            client: None,
            is_woken: false,
        };
        Ok((socket, waker))
    }

    /// Waits for the next thing that is heard, or for the waker.
    fn hear<R: Wait>(&mut self, rt: &R, into: &mut [u8]) -> io::Result<Heard>
        requires { 0 < length into.old }
        ensures fits { IfOk result (λ h. FitsRoom h (length into.old)) }
        ensures no_end { IfOk result (λ h. end_count_after h 0 ≡ 0) }
    {
        if self.is_woken {
            self.is_woken = false;
            return Ok(Heard::Quiet);
        }
        for _ in rt.forever() {
            match self.try_hear(into) {
                Ok(heard) => return Ok(heard),
                Err(e) if is_to_be_tried_again(&e) => {}
                Err(e) if e.kind() == ErrorKind::WouldBlock => {
                    if self.sleep()? {
                        return Ok(Heard::Quiet);
                    }
                }
                Err(e) => return Err(e),
            }
        }
        unreachable!()
    }

    /// What the client says, or that one comes.
    fn try_hear(&mut self, into: &mut [u8]) -> io::Result<Heard>
        requires { 0 < length into.old }
        ensures fits { IfOk result (λ h. FitsRoom h (length into.old)) }
        ensures no_end { IfOk result (λ h. end_count_after h 0 ≡ 0) }
    {
        let Some(client) = &mut self.client else {
            self.accept()?;
            return Ok(Heard::Up);
        };
        match client.read(into) {
            Ok(count) if count > 0 => Ok(Heard::Bytes(count)),
            Err(e) if is_passing(&e) => Err(e),
            Ok(_) | Err(_) => {
                self.client = None;
                Ok(Heard::Down)
            }
        }
    }

    /// Takes the next client.
    fn accept(&mut self) -> io::Result<()> {
        let (mut client, _) = self.listener.accept()?;
        let both = Interest::READABLE | Interest::WRITABLE;
        self.poll.registry().register(&mut client, CLIENT, both)?;
        self.client = Some(client);
        Ok(())
    }

    /// Sends some bytes to the client, and waits for room where there is none. Where there is no client any more, the
    /// next wait hears it.
    fn put<R: Wait>(&mut self, rt: &R, from: &[u8]) -> io::Result<usize>
        requires { 0 < length from.now }
        ensures some { IfOk result (λ n. 0 < n) }
        ensures within { IfOk result (λ n. n ≤ length from.now) }
    {
        for _ in rt.forever() {
            let Some(client) = &mut self.client else {
                return Ok(from.len());
            };
            match client.write(from) {
                Ok(count) if count > 0 => return Ok(count),
                Err(e) if e.kind() == ErrorKind::Interrupted => {}
                Err(e) if e.kind() == ErrorKind::WouldBlock => {
                    if self.sleep()? {
                        self.is_woken = true;
                    }
                }
                Ok(_) | Err(_) => return Ok(from.len()),
            }
        }
        unreachable!()
    }

    /// Waits until something may be heard or sent, and answers whether the waker was used.
    fn sleep(&mut self) -> io::Result<bool> {
        self.poll.poll(&mut self.events, None)?;
        Ok(self.events.iter().any(|e| e.token() == WAKER))
    }
}

/// An error after which the same call may succeed: a signal came, or a client went before it was accepted.
fn is_to_be_tried_again(e: &io::Error) -> bool {
    matches!(
        e.kind(),
        ErrorKind::Interrupted | ErrorKind::ConnectionAborted
    )
}

/// An error that says nothing of the client.
fn is_passing(e: &io::Error) -> bool {
    matches!(e.kind(), ErrorKind::WouldBlock | ErrorKind::Interrupted)
}
