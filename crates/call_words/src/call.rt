//! What a process asks of the kernel.
ghost use Rattle.std.specs.Prelude.{◌≡◌};

use crate::attr::{Entries, WhichList};
use crate::open::{Access, OpenFlags};
use crate::proc::WaitFlags;
use crate::signal::{Action, To};
use crate::tty::{When, WhichQueue};
use acl_core::Cred;
use label_core::{Element, Subject};
use sys_types::{PathText, Piece, Sig};
use termios_core::Termios;

/// A system call with its arguments. Its fields are in the order in which a script names them.
#[derive(Drop)]
pub enum Call {
    /// open(2): opens the file at `path`. `mode` is the mode of a file that it creates, at
    /// most octal 777.
    Open {
        path: PathText,
        access: Access,
        flags: OpenFlags,
        mode: u16,
    },
    /// close(2): frees the number.
    Close {
        fd: u8,
    },
    /// dup(2): the lowest free number for the same open file.
    Dup {
        fd: u8,
    },
    /// dup2(2): the number `to` for the same open file; an open `to` is closed first.
    Dup2 {
        fd: u8,
        to: u8,
    },
    /// read(2): at most `max` bytes.
    Read {
        fd: u8,
        max: u16,
    },
    /// write(2): at most 512 bytes.
    Write {
        fd: u8,
        bytes: Piece,
    },
    /// pipe(2): a pipe, with a number for its end that is read and one for its end that is written.
    Pipe,
    /// chdir(2): the directory at `path` becomes that of the process.
    Chdir {
        path: PathText,
    },
    /// mkdir(2): makes a directory at `path`. `mode` is its mode, at most octal 777.
    Mkdir {
        path: PathText,
        mode: u16,
    },
    /// rmdir(2): removes the empty directory at `path`.
    Rmdir {
        path: PathText,
    },
    /// unlink(2): removes the file at `path`.
    Unlink {
        path: PathText,
    },
    /// getdirentries(2): the names in the directory at `path`, in byte order, without the first
    /// `from` of them, joined by `/`: as many whole names as fit 4,096 bytes.
    List {
        path: PathText,
        from: u16,
    },
    /// stat(2): what stands at `path`, as the text `KIND:UID:GID:MODE:SIZE`.
    Info {
        path: PathText,
    },
    /// chmod(2): `mode` becomes the mode of what stands at `path`, at most octal 777.
    Chmod {
        path: PathText,
        mode: u16,
    },
    /// chown(2): gives what stands at `path` to a user and a group.
    Chown {
        path: PathText,
        uid: u32,
        gid: u32,
    },
    /// acl_set_file(3): `list` becomes this access list of what stands at `path`. An empty default
    /// list takes it away.
    SetAcl {
        path: PathText,
        which: WhichList,
        list: Entries,
    },
    /// acl_get_file(3): this access list of what stands at `path`, as a text.
    GetAcl {
        path: PathText,
        which: WhichList,
    },
    /// mac_set_file(3): `element` becomes the label of what stands at `path`.
    SetLabel {
        path: PathText,
        element: Element,
    },
    /// mac_get_file(3): the label of what stands at `path`, as a text.
    GetLabel {
        path: PathText,
    },
    /// mac_set_proc(3): `subject` becomes the label of the process.
    SetProcLabel {
        subject: Subject,
    },
    /// getpid(2), getuid(2), getgroups(2) and mac_get_proc(3) in one: what the process is, as the
    /// text `PID:UID:GID:GROUPS:LABEL`.
    Ident,
    /// setuid(2), setgid(2) and setgroups(2) in one: the user, the group and the supplementary
    /// groups of the process.
    SetCred {
        cred: Cred,
    },
    /// umask(2): `mode`, at most octal 777, becomes the mask, the bits that are off in the modes of
    /// new files.
    Umask {
        mode: u16,
    },
    /// The first call of a process: the program that it runs, and its arguments.
    Begin,
    /// fork(2): a child, with `note`, of at most 512 bytes, as its arguments.
    Fork {
        note: Piece,
    },
    /// execve(2): the process runs the program at `path` with these arguments.
    Exec {
        path: PathText,
        args: Piece,
    },
    /// _exit(2): the process ends with this status.
    Exit {
        status: u8,
    },
    /// wait4(2): what became of the child `pid`, or of any where it is 0.
    Wait {
        pid: u32,
        flags: WaitFlags,
    },
    /// setsid(2): the process leads a new session and a new group.
    SetSid,
    /// setpgid(2): the process `pid` joins the group. As `pid` 0 is the caller, as `group` the target's pid.
    SetPgid {
        pid: u32,
        group: u32,
    },
    /// ps(1): the processes that the caller may see, as a text.
    Ps,
    /// reboot(2): the system takes no more events.
    Halt,
    /// kill(2): sends a signal to a process, or to each process of a group.
    Kill {
        to: To,
        sig: Sig,
    },
    /// sigaction(2): what the process does at a signal.
    SigSet {
        sig: Sig,
        action: Action,
    },
    /// sigwait(2) without a wait: the pending caught signal of the least number, taken away, or 0.
    SigTake,
    /// pause(3): sleeps until a signal is caught.
    Pause,
    /// tcsetsid(3): the line of the file becomes the controlling terminal of the caller's session (tty(4)).
    SetCtty {
        fd: u8,
    },
    /// tcgetattr(3): the settings of the file's line, as a text.
    TcGetAttr {
        fd: u8,
    },
    /// tcsetattr(3): `termios` become the settings of the file's line.
    TcSetAttr {
        fd: u8,
        when: When,
        termios: Termios,
    },
    /// tcflush(3): empties the input, the output or both of the file's line.
    TcFlush {
        fd: u8,
        which: WhichQueue,
    },
    /// tcdrain(3): sleeps until all output of the file's line was taken.
    TcDrain {
        fd: u8,
    },
    /// tcsetpgrp(3): `group` becomes the foreground group of the file's line.
    TcSetPgrp {
        fd: u8,
        group: u32,
    },
    /// tcgetpgrp(3): the foreground group of the file's line.
    TcGetPgrp {
        fd: u8,
    },
    /// fdevname(3): what the open file is of, as the text `ttyN`, `pipe` or `file`.
    FdName {
        fd: u8,
    },
    /// revoke(2): invalidates every open file of the line at `path`.
    Revoke {
        path: PathText,
    },
}

impl Call {
    /// An equal call.
    pub fn copy(&self) -> Self
        ensures { result ≡ self.now }
    {
        match self {
            Call::Open { .. } | Call::Close { .. } | Call::Dup { .. } | Call::Dup2 { .. } => {
                self.copy_open()
            }
            Call::Read { .. } | Call::Write { .. } => self.copy_io(),
            Call::Pipe => Call::Pipe,
            Call::Chdir { .. }
            | Call::Mkdir { .. }
            | Call::Rmdir { .. }
            | Call::Unlink { .. }
            | Call::List { .. } => self.copy_dir(),
            Call::Info { .. }
            | Call::Chmod { .. }
            | Call::Chown { .. }
            | Call::SetAcl { .. }
            | Call::GetAcl { .. }
            | Call::SetLabel { .. }
            | Call::GetLabel { .. } => self.copy_attr(),
            Call::SetProcLabel { .. } | Call::Ident | Call::SetCred { .. } | Call::Umask { .. } => {
                self.copy_cred()
            }
            Call::Begin
            | Call::Fork { .. }
            | Call::Exec { .. }
            | Call::Exit { .. }
            | Call::Wait { .. }
            | Call::SetSid
            | Call::SetPgid { .. }
            | Call::Ps
            | Call::Halt => self.copy_proc(),
            Call::Kill { .. } | Call::SigSet { .. } | Call::SigTake | Call::Pause => {
                self.copy_signal()
            }
            Call::SetCtty { .. }
            | Call::TcGetAttr { .. }
            | Call::TcSetAttr { .. }
            | Call::TcFlush { .. }
            | Call::TcDrain { .. }
            | Call::TcSetPgrp { .. }
            | Call::TcGetPgrp { .. }
            | Call::FdName { .. }
            | Call::Revoke { .. } => self.copy_tty(),
        }
    }
}
