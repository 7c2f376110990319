//! The raw line: what it passes on, what it holds, and what a revoke(2) leaves.

/// Scenes, in the form of the module scenes.
pub const SCENES: &str = "
== bytes pass a raw line as they are
# A null byte, the interrupt, newline and return, START and STOP, erase, and a byte with its high bit, in and out (termios(4)).
0 open /dev/tty7 rw -> 0 ok 0
in tty7 00030a0d11137fff -> tty7 noted~|tty7 noted*7~
0 read 0 512 -> 0 bytes 00030a0d11137fff
take tty7 512 -> tty7 out -
0 write 0 00030a0d11137fff -> 0 ok 8
take tty7 512 -> tty7 out 00030a0d11137fff

== reads and takings in parts
# What is not read yet stays, in order, and so does what is not taken yet.
0 open /dev/tty7 rw -> 0 ok 0
in tty7 6162636465 -> tty7 noted~|tty7 noted*4~
0 read 0 2 -> 0 bytes 6162
0 read 0 1 -> 0 bytes 63
in tty7 66 -> tty7 noted
0 read 0 512 -> 0 bytes 646566
0 write 0 6162636465 -> 0 ok 5
take tty7 2 -> tty7 out 6162
0 write 0 66 -> 0 ok 1
take tty7 3 -> tty7 out 636465
take tty7 3 -> tty7 out 66
take tty7 3 -> tty7 out -

== a full input drops what comes
# 1,024 bytes are kept, and those that come then are not, until some are read.
0 open /dev/tty7 rw n -> 0 ok 0
in tty7 ~61*512~ -> tty7 noted~|tty7 noted*511~
in tty7 ~62*512~ -> tty7 noted~|tty7 noted*511~
in tty7 63 -> tty7 noted
0 read 0 512 -> 0 bytes ~61*512~
in tty7 64 -> tty7 noted
0 read 0 512 -> 0 bytes ~62*512~
0 read 0 512 -> 0 bytes 64
0 read 0 512 -> 0 err EAGAIN not-ready

== a write that fits in part == recheck on
# The output holds 4,096 bytes. A write puts as many as fit, and none where none fits; the label, and that there are no bytes, come
# before that.
0 setproclabel mls/10(low-high) -> 0 ok 0
0 open /dev/tty7 rw n -> 0 ok 0
7 times 0 write 0 ~61*512~ -> 0 ok 512
0 write 0 ~62*510~ -> 0 ok 510
0 write 0 63646566 -> 0 ok 2
0 write 0 67 -> 0 err EAGAIN not-ready
0 write 0 - -> 0 ok 0
0 setlabel /dev/tty7 mls/5 -> 0 ok 0
0 write 0 67 -> 0 err EACCES label-write
0 write 0 - -> 0 err EACCES label-write
0 setlabel /dev/tty7 mls/10 -> 0 ok 0
7 times take tty7 512 -> tty7 out ~61*512~
take tty7 512 -> tty7 out ~62*510~6364
0 write 0 67 -> 0 ok 1
take tty7 512 -> tty7 out 67

== a read of no bytes asks for none
# MAX 0 comes before that nothing has come in, and after the label and a dead file.
0 open /dev/tty7 rw -> 0 ok 0
0 read 0 0 -> 0 bytes -
0 read 0 1 -> 0 sleep read
in tty7 61 -> tty7 noted wake 0
0 read 0 0 -> 0 err EBUSY asleep wake 0
0 again -> 0 bytes 61
in tty7 61 -> tty7 noted
0 read 0 0 -> 0 bytes -
0 read 0 1 -> 0 bytes 61
0 read 0 513 -> 0 err EINVAL size

== what a revoke leaves
# The files of the line are dead, what had come in is read by nobody, and what was to go out is gone. A regular file, the working
# directory and the label stay as they were.
0 open /tmp/f rw c -> 0 ok 0
0 open /dev/tty7 rw -> 0 ok 1
0 open /dev/tty7 r -> 0 ok 2
0 write 0 6162 -> 0 ok 2
0 write 1 6f6c64 -> 0 ok 3
in tty7 6f6c64 -> tty7 noted~|tty7 noted*2~
0 revoke /dev/tty7 -> 0 ok 0
take tty7 512 -> tty7 out -
0 write 0 6364 -> 0 ok 2
0 read 1 512 -> 0 bytes -
0 read 2 512 -> 0 bytes -
0 write 1 78 -> 0 err EIO dead
0 write 2 78 -> 0 err EBADF fd-mode
in tty7 78 -> tty7 noted
0 open /dev/tty7 rw n -> 0 ok 3
0 read 3 512 -> 0 err EAGAIN not-ready
take tty7 512 -> tty7 out -
0 write 3 6e6577 -> 0 ok 3
in tty7 6e -> tty7 noted
0 read 1 512 -> 0 bytes -
0 read 3 512 -> 0 bytes 6e
take tty7 512 -> tty7 out 6e6577
0 open /tmp/f r -> 0 ok 4
0 read 4 512 -> 0 bytes 61626364
0 close 1 -> 0 ok 0
0 close 2 -> 0 ok 0
0 write 3 61 -> 0 ok 1
take tty7 512 -> tty7 out 61
# A second revoke takes the new file too.
0 write 3 62 -> 0 ok 1
0 revoke /dev/tty7 -> 0 ok 0
0 read 3 512 -> 0 bytes -
take tty7 512 -> tty7 out -

== the last close empties the line
# The queues are emptied where the last file of the line that is not dead is closed, and not before.
0 open /dev/tty7 rw -> 0 ok 0
0 open /dev/tty7 rw -> 0 ok 1
in tty7 61 -> tty7 noted
0 write 0 62 -> 0 ok 1
0 close 0 -> 0 ok 0
0 read 1 512 -> 0 bytes 61
in tty7 63 -> tty7 noted
take tty7 512 -> tty7 out 62
0 write 1 64 -> 0 ok 1
0 close 1 -> 0 ok 0
take tty7 512 -> tty7 out -
in tty7 65 -> tty7 noted
0 open /dev/tty7 rw n -> 0 ok 0
0 read 0 512 -> 0 err EAGAIN not-ready
take tty7 512 -> tty7 out -
";
