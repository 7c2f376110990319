//! The rules by which a call is refused, the errno of each, and the words that are printed.
ghost use Rattle.std.specs.Prelude.{◌≡◌, ◌≤◌, length};
ghost use Rattle.sys_types.specs.Rules.{errno_of, rule_word, errno_word};

/// Why a call is refused. Each rule belongs to one errno.
#[derive(Clone, Copy, PartialEq, Eq)]
pub enum Rule {
    /// The caller's uid is neither the node's owner nor 0.
    Owner,
    /// The caller's uid is not 0.
    Super,
    /// The caller may not give this element to the node.
    Relabel,
    /// The caller may not take this label.
    Proclabel,
    /// The caller does not lead its session.
    NotLeader,
    /// The caller's session has a line.
    HasTty,
    /// The line has a session.
    LineTaken,
    /// The process leads a session, or the caller a group.
    Leader,
    /// The process is in another session.
    Session,
    /// There is no such group in the session.
    Group,
    /// The caller's uid is neither the target's nor 0.
    SigOwner,
    /// A directory on the path may not be searched.
    Search,
    /// The access list refuses.
    List,
    /// The caller's label does not dominate the object's.
    LabelRead,
    /// The object's label does not dominate the caller's.
    LabelWrite,
    /// No regular file, so it cannot be executed.
    NotFile,
    /// The child has executed a program since it was forked.
    ChildExec,
    /// No call of this slot is pending.
    Awake,
    /// The process has begun already.
    Begun,
    /// The flags of the open do not go together.
    Flags,
    /// More than 512 bytes are asked.
    Size,
    /// The entries are no access list.
    AclBad,
    /// The node is no line's.
    NoRevoke,
    /// TIME is not supported.
    Time,
    /// KILL and STOP have a fixed action.
    SigFixed,
    /// A call of this slot is pending.
    Asleep,
    /// Pid 1 does not exit.
    Init,
    /// The node is the root, some process's directory, or open.
    InUse,
    /// The node is a device.
    Device,
    /// The number is not open.
    BadFd,
    /// The file is not open for this.
    FdMode,
    /// The line was revoked after the file was opened.
    Dead,
    /// The line has lost its carrier.
    Zombie,
    /// The caller is in the background of the line and cannot be stopped.
    Background,
    /// The line has ended.
    Ended,
    /// The caller's session has no line.
    NoTty,
    /// The file is no line's.
    NotLine,
    /// The line is not that of the caller's session.
    NotCtty,
    /// The path has more than 1,023 bytes.
    PathLong,
    /// A name has more than 255 bytes.
    NameLong,
    /// A part of the path is absent.
    NoEntry,
    /// A part of the path is no directory.
    NotDir,
    /// The node is a directory.
    IsDir,
    /// The node is there already.
    Exists,
    /// The directory has an entry.
    NotEmpty,
    /// All 1,024 nodes are taken.
    NodeRoom,
    /// All contents would pass 4,194,304 bytes.
    FileSpace,
    /// The process has fewer free numbers than asked of its 32.
    FdRoom,
    /// Fewer of the 256 open files are free than asked.
    OpenRoom,
    /// Fewer blocks are free than asked.
    Pool,
    /// The call would have to wait.
    NotReady,
    /// No slot may be taken for a process.
    Slots,
    /// No such process can be seen.
    NoProcess,
    /// The caller has no such child.
    NoChild,
    /// The file names no program.
    Image,
    /// No open file reads the pipe.
    NoReader,
    /// A caught signal is pending.
    Signal,
}

/// The error number of a refusal, by its name and meaning in intro(2).
#[derive(Clone, Copy, PartialEq, Eq)]
pub enum Errno {
    /// Operation not permitted.
    EPERM,
    /// Permission denied.
    EACCES,
    /// Invalid argument.
    EINVAL,
    /// Device busy.
    EBUSY,
    /// Bad file descriptor.
    EBADF,
    /// Input/output error.
    EIO,
    /// Device not configured.
    ENXIO,
    /// Inappropriate ioctl for device.
    ENOTTY,
    /// File name too long.
    ENAMETOOLONG,
    /// No such file or directory.
    ENOENT,
    /// Not a directory.
    ENOTDIR,
    /// Is a directory.
    EISDIR,
    /// File exists.
    EEXIST,
    /// Directory not empty.
    ENOTEMPTY,
    /// No space left on device.
    ENOSPC,
    /// Too many open files.
    EMFILE,
    /// Too many open files in system.
    ENFILE,
    /// No buffer space available.
    ENOBUFS,
    /// Resource temporarily unavailable.
    EAGAIN,
    /// No such process.
    ESRCH,
    /// No child processes.
    ECHILD,
    /// Exec format error.
    ENOEXEC,
    /// Broken pipe.
    EPIPE,
    /// Interrupted system call.
    EINTR,
}

impl Rule {
    /// The errno that this rule belongs to.
    pub fn errno(self) -> Errno
        ensures { result ≡ errno_of self }
    {
        match self {
            Rule::Owner
            | Rule::Super
            | Rule::Relabel
            | Rule::Proclabel
            | Rule::NotLeader
            | Rule::HasTty
            | Rule::LineTaken
            | Rule::Leader
            | Rule::Session
            | Rule::Group
            | Rule::SigOwner => Errno::EPERM,
            Rule::Search
            | Rule::List
            | Rule::LabelRead
            | Rule::LabelWrite
            | Rule::NotFile
            | Rule::ChildExec => Errno::EACCES,
            Rule::Awake
            | Rule::Begun
            | Rule::Flags
            | Rule::Size
            | Rule::AclBad
            | Rule::NoRevoke
            | Rule::Time
            | Rule::SigFixed => Errno::EINVAL,
            Rule::Asleep | Rule::Init | Rule::InUse | Rule::Device => Errno::EBUSY,
            Rule::BadFd | Rule::FdMode => Errno::EBADF,
            Rule::Dead | Rule::Zombie | Rule::Background => Errno::EIO,
            Rule::Ended | Rule::NoTty => Errno::ENXIO,
            Rule::NotLine | Rule::NotCtty => Errno::ENOTTY,
            Rule::PathLong | Rule::NameLong => Errno::ENAMETOOLONG,
            Rule::NoEntry => Errno::ENOENT,
            Rule::NotDir => Errno::ENOTDIR,
            Rule::IsDir => Errno::EISDIR,
            Rule::Exists => Errno::EEXIST,
            Rule::NotEmpty => Errno::ENOTEMPTY,
            Rule::NodeRoom | Rule::FileSpace => Errno::ENOSPC,
            Rule::FdRoom => Errno::EMFILE,
            Rule::OpenRoom => Errno::ENFILE,
            Rule::Pool => Errno::ENOBUFS,
            Rule::NotReady | Rule::Slots => Errno::EAGAIN,
            Rule::NoProcess => Errno::ESRCH,
            Rule::NoChild => Errno::ECHILD,
            Rule::Image => Errno::ENOEXEC,
            Rule::NoReader => Errno::EPIPE,
            Rule::Signal => Errno::EINTR,
        }
    }

    /// The word that is printed of this rule: at most 11 bytes.
    pub fn word(self) -> &'static [u8]
        ensures word { result.now ≡ rule_word self }
        ensures most { length result.now ≤ 11 }
    {
        match self {
            Rule::Owner => b"owner",
            Rule::Super => b"super",
            Rule::Relabel => b"relabel",
            Rule::Proclabel => b"proclabel",
            Rule::NotLeader => b"not-leader",
            Rule::HasTty => b"has-tty",
            Rule::LineTaken => b"line-taken",
            Rule::Leader => b"leader",
            Rule::Session => b"session",
            Rule::Group => b"group",
            Rule::SigOwner => b"sig-owner",
            Rule::Search => b"search",
            Rule::List => b"list",
            Rule::LabelRead => b"label-read",
            Rule::LabelWrite => b"label-write",
            Rule::NotFile => b"not-file",
            Rule::ChildExec => b"child-exec",
            Rule::Awake => b"awake",
            Rule::Begun => b"begun",
            Rule::Flags => b"flags",
            Rule::Size => b"size",
            Rule::AclBad => b"acl-bad",
            Rule::NoRevoke => b"no-revoke",
            Rule::Time => b"time",
            Rule::SigFixed => b"sig-fixed",
            Rule::Asleep => b"asleep",
            Rule::Init => b"init",
            Rule::InUse => b"in-use",
            Rule::Device => b"device",
            Rule::BadFd => b"bad-fd",
            Rule::FdMode => b"fd-mode",
            Rule::Dead => b"dead",
            Rule::Zombie => b"zombie",
            Rule::Background => b"background",
            Rule::Ended => b"ended",
            Rule::NoTty => b"no-tty",
            Rule::NotLine => b"not-line",
            Rule::NotCtty => b"not-ctty",
            Rule::PathLong => b"path-long",
            Rule::NameLong => b"name-long",
            Rule::NoEntry => b"no-entry",
            Rule::NotDir => b"not-dir",
            Rule::IsDir => b"is-dir",
            Rule::Exists => b"exists",
            Rule::NotEmpty => b"not-empty",
            Rule::NodeRoom => b"node-room",
            Rule::FileSpace => b"file-space",
            Rule::FdRoom => b"fd-room",
            Rule::OpenRoom => b"open-room",
            Rule::Pool => b"pool",
            Rule::NotReady => b"not-ready",
            Rule::Slots => b"slots",
            Rule::NoProcess => b"no-process",
            Rule::NoChild => b"no-child",
            Rule::Image => b"image",
            Rule::NoReader => b"no-reader",
            Rule::Signal => b"signal",
        }
    }
}

impl Errno {
    /// The name that is printed of this errno: at most 12 bytes.
    pub fn name(self) -> &'static [u8]
        ensures word { result.now ≡ errno_word self }
        ensures most { length result.now ≤ 12 }
    {
        match self {
            Errno::EPERM => b"EPERM",
            Errno::EACCES => b"EACCES",
            Errno::EINVAL => b"EINVAL",
            Errno::EBUSY => b"EBUSY",
            Errno::EBADF => b"EBADF",
            Errno::EIO => b"EIO",
            Errno::ENXIO => b"ENXIO",
            Errno::ENOTTY => b"ENOTTY",
            Errno::ENAMETOOLONG => b"ENAMETOOLONG",
            Errno::ENOENT => b"ENOENT",
            Errno::ENOTDIR => b"ENOTDIR",
            Errno::EISDIR => b"EISDIR",
            Errno::EEXIST => b"EEXIST",
            Errno::ENOTEMPTY => b"ENOTEMPTY",
            Errno::ENOSPC => b"ENOSPC",
            Errno::EMFILE => b"EMFILE",
            Errno::ENFILE => b"ENFILE",
            Errno::ENOBUFS => b"ENOBUFS",
            Errno::EAGAIN => b"EAGAIN",
            Errno::ESRCH => b"ESRCH",
            Errno::ECHILD => b"ECHILD",
            Errno::ENOEXEC => b"ENOEXEC",
            Errno::EPIPE => b"EPIPE",
            Errno::EINTR => b"EINTR",
        }
    }
}
