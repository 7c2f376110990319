//! Worked sessions of one process, each from a boot of its own.

/// Scenes, in the form of the module scenes.
pub const SCENES: &str = "
== first run
# A byte that came before the revoke is read by nobody, and nothing is left to be sent.
0 open /dev/tty7 rw -> 0 ok 0
in tty7 68 -> tty7 noted
0 read 0 100 -> 0 bytes 68
0 write 0 6869 -> 0 ok 2
in tty7 79 -> tty7 noted
0 revoke /dev/tty7 -> 0 ok 0
0 read 0 100 -> 0 bytes -
0 write 0 7a -> 0 err EIO dead
take tty7 100 -> tty7 out -
0 close 0 -> 0 ok 0

== no earlier byte is read
# After a revoke a new descriptor reads no byte that came before it was opened.
0 open /dev/tty7 rw -> 0 ok 0
in tty7 41 -> tty7 noted
0 revoke /dev/tty7 -> 0 ok 0
in tty7 42 -> tty7 noted
0 open /dev/tty7 rw -> 0 ok 1
in tty7 43 -> tty7 noted
0 read 1 9 -> 0 bytes 43

== words of an open
# Flags that do not go together, a file that is there and is wanted absent, and an open with all
# of its words.
0 open /dev/tty7 r t -> 0 err EINVAL flags
0 open /dev/tty7 rw x -> 0 err EINVAL flags
0 open /dev/tty7 rw cx -> 0 err EEXIST exists
0 open /dev/tty7 rw n 600 -> 0 ok 0

== tree calls
# Directories and files, their modes and who may change them.
0 mkdir /tmp/d 700 -> 0 ok 0
0 open /tmp/d/f rw c 640 -> 0 ok 0
0 write 0 6162 -> 0 ok 2
0 info /tmp/d/f -> 0 text file:0:0:640:2
0 rmdir /tmp/d -> 0 err ENOTEMPTY not-empty
0 unlink /tmp/d/f -> 0 err EBUSY in-use
0 close 0 -> 0 ok 0
0 unlink /tmp/d/f -> 0 ok 0
0 setcred 1001 100 - -> 0 ok 0
0 chmod /tmp/d 777 -> 0 err EPERM owner
0 list /tmp/d 0 -> 0 err EACCES list
0 list /bin/../tmp 0 -> 0 text d

== labels at opens
# Labels at opens, by one process.
0 open /tmp/low rw c 666 -> 0 ok 0
0 setlabel /tmp/low mls/5:2 -> 0 ok 0
0 setproclabel mls/10:2(5:2-20:2+3) -> 0 ok 0
0 open /tmp/low w -> 0 err EACCES label-write
0 open /tmp/low r -> 0 ok 1
0 setproclabel mls/5:2(5:2-20:2+3) -> 0 ok 0
0 open /tmp/low w -> 0 ok 2
0 setproclabel mls/equal -> 0 err EPERM proclabel

== devices
# Lines and the devices. An open waits for the carrier, but not with flag n, and not of line 7, which has none.
0 open /dev/tty6 rw -> 0 sleep carrier
up tty6 -> tty6 noted wake 0
0 again -> 0 ok 0
0 open /dev/tty0 rw n -> 0 ok 1
0 open /dev/tty rw -> 0 err ENXIO no-tty
0 open /dev/../dev/./tty7 rw -> 0 ok 2
0 unlink /dev/tty7 -> 0 err EBUSY device
0 info /dev/tty7 -> 0 text line:0:0:600:0
0 open /dev r -> 0 err EISDIR is-dir

== offsets
# Offsets, appends, gaps of zeros and truncation (open(2), read(2), write(2)).
0 open /tmp/f rw c -> 0 ok 0
0 open /tmp/f rw a -> 0 ok 1
0 write 0 6162 -> 0 ok 2
0 write 1 63 -> 0 ok 1
0 read 1 9 -> 0 bytes -
0 read 0 9 -> 0 bytes 63
0 open /tmp/f w t -> 0 ok 2
0 write 0 64 -> 0 ok 1
0 open /tmp/f r -> 0 ok 3
0 read 3 9 -> 0 bytes 00000064
0 write 3 65 -> 0 err EBADF fd-mode

== texts
# Lists, labels and callers as texts; the umask, and where a directory has a default list.
0 ident -> 0 text 1:0:0:-:mls/equal(low-high)
0 umask 77 -> 0 ok 18
0 umask 22 -> 0 ok 63
0 mkdir /tmp/d 777 -> 0 ok 0
0 setacl /tmp/d default user::rwx,group::r-x,other::--- -> 0 ok 0
0 umask 777 -> 0 ok 18
0 open /tmp/d/f w c 666 -> 0 ok 0
0 getacl /tmp/d/f access -> 0 text user::rw-,group::r--,other::---
0 getacl /tmp/d default -> 0 text user::rwx,group::r-x,other::---
0 setacl /tmp/d default - -> 0 ok 0
0 getacl /tmp/d default -> 0 text -
0 getlabel /etc -> 0 text mls/low
0 getacl /tmp/d/f default -> 0 err ENOTDIR not-dir
0 setacl /tmp/d access - -> 0 err EINVAL acl-bad

== first rules
# The first rule of two is named, also below a directory that may not be searched, and only the owner revokes.
0 mkdir /tmp/d 700 -> 0 ok 0
0 open /dev/tty7 rw -> 0 ok 0
0 setcred 1001 100 20+30 -> 0 ok 0
0 revoke /dev/tty7 -> 0 err EPERM owner
0 info /tmp/d/x -> 0 err EACCES search
0 info /tmp/x -> 0 err ENOENT no-entry
0 unlink /tmp/d/x/y -> 0 err EACCES search
0 setcred 0 0 - -> 0 err EPERM super
0 ident -> 0 text 1:1001:100:20+30:mls/equal(low-high)
0 chdir /tmp/d -> 0 err EACCES search
0 open /tmp/f r x -> 0 err EINVAL flags

== who may revoke a line
# First the path, then that it leads to a line, and then that the caller is the line's owner or the superuser (revoke(2)). Of those with a
# remark a later rule would hold too.
0 revoke /tmp/x -> 0 err ENOENT no-entry
0 revoke /tmp -> 0 err EINVAL no-revoke
# `/dev/tty` is no line.
0 revoke /dev/tty -> 0 err EINVAL no-revoke
0 revoke /dev/tty0 -> 0 ok 0
0 setcred 1001 100 - -> 0 ok 0
# The owner.
0 revoke /bin/cat -> 0 err EINVAL no-revoke
0 revoke /dev/tty0 -> 0 err EPERM owner

== who of a high label may revoke a line
# An active element that no element but high and equal dominates.
0 setproclabel mls/high(low-high) -> 0 ok 0
# The label of the file.
0 revoke /bin/cat -> 0 err EINVAL no-revoke
0 revoke /dev/tty7 -> 0 ok 0
0 setcred 1001 100 - -> 0 ok 0
0 revoke /tmp -> 0 err EINVAL no-revoke

== a raised label with recheck == recheck on
# A label that was raised since the open stops a read only where labels are looked at again.
0 open /tmp/f rw c 644 -> 0 ok 0
0 write 0 6162 -> 0 ok 2
0 setlabel /tmp/f mls/5 -> 0 ok 0
0 open /tmp/f r -> 0 ok 1
0 setlabel /tmp/f mls/15 -> 0 ok 0
0 setproclabel mls/10(5-20) -> 0 ok 0
0 read 1 9 -> 0 err EACCES label-read
0 write 0 63 -> 0 ok 1

== a raised label without recheck
0 open /tmp/f rw c 644 -> 0 ok 0
0 write 0 6162 -> 0 ok 2
0 setlabel /tmp/f mls/5 -> 0 ok 0
0 open /tmp/f r -> 0 ok 1
0 setlabel /tmp/f mls/15 -> 0 ok 0
0 setproclabel mls/10(5-20) -> 0 ok 0
0 read 1 9 -> 0 bytes 6162
0 write 0 63 -> 0 ok 1
";
