//! close(2), read(2) and write(2), where of two rules that hold at once the first is named, and what is full.

/// Scenes, in the form of the module scenes.
pub const SCENES: &str = "
== each read and write is denied by its first rule == recheck on
# A file of grade 10 that a user of this grade has open, as number 0 to read and as number 1 to write.
0 setproclabel mls/10(low-high) -> 0 ok 0
0 setcred 1001 100 - -> 0 ok 0
0 open /tmp/ten r c -> 0 ok 0
0 open /tmp/ten w -> 0 ok 1
# Reads and writes at grade 10. Of the lines with a remark, here and below, a later rule would hold too.
# That the number has no file.
0 read 9 513 -> 0 err EINVAL size
0 read 9 512 -> 0 err EBADF bad-fd
0 read 255 0 -> 0 err EBADF bad-fd
0 write 9 61 -> 0 err EBADF bad-fd
0 close 9 -> 0 err EBADF bad-fd
0 setproclabel mls/5(low-high) -> 0 ok 0
# Reads at a grade that may not read the file, where labels are looked at again.
# The label.
0 read 1 512 -> 0 err EBADF fd-mode
0 read 0 512 -> 0 err EACCES label-read
# That nothing is asked for.
0 read 0 0 -> 0 err EACCES label-read
0 setproclabel mls/20(low-high) -> 0 ok 0
# Reads and writes at a grade that may not write the file, where labels are looked at again.
0 read 0 512 -> 0 bytes -
# The label.
0 write 0 61 -> 0 err EBADF fd-mode
0 write 1 61 -> 0 err EACCES label-write
# That there are no bytes.
0 write 1 - -> 0 err EACCES label-write

== labels are looked at again only with recheck == recheck off
0 setproclabel mls/10(low-high) -> 0 ok 0
0 setcred 1001 100 - -> 0 ok 0
0 open /tmp/ten r c -> 0 ok 0
0 open /tmp/ten w -> 0 ok 1
# That the number has no file.
0 read 9 513 -> 0 err EINVAL size
0 read 9 512 -> 0 err EBADF bad-fd
0 read 255 0 -> 0 err EBADF bad-fd
0 write 9 61 -> 0 err EBADF bad-fd
0 close 9 -> 0 err EBADF bad-fd
0 setproclabel mls/5(low-high) -> 0 ok 0
# The same where labels are looked at by the open alone.
0 read 0 0 -> 0 bytes -
0 write 1 61 -> 0 ok 1
0 setproclabel mls/20(low-high) -> 0 ok 0
0 write 1 - -> 0 ok 0
0 write 1 62 -> 0 ok 1
0 read 0 512 -> 0 bytes 6162

== a dead line is asked before its label == recheck on
# A line of grade 10 is open to read as number 0 and to write as number 1. A dead file is known before labels are looked at,
# and what a number was opened for before that.
0 setlabel /dev/tty7 mls/10 -> 0 ok 0
0 setproclabel mls/10(low-high) -> 0 ok 0
0 open /dev/tty7 r -> 0 ok 0
0 open /dev/tty7 w -> 0 ok 1
in tty7 41 -> tty7 noted
0 setproclabel mls/5(low-high) -> 0 ok 0
0 read 0 1 -> 0 err EACCES label-read
0 setproclabel mls/20(low-high) -> 0 ok 0
0 write 1 61 -> 0 err EACCES label-write
0 setproclabel mls/10(low-high) -> 0 ok 0
0 read 0 1 -> 0 bytes 41
0 write 1 61 -> 0 ok 1
0 revoke /dev/tty7 -> 0 ok 0
0 setproclabel mls/5(low-high) -> 0 ok 0
0 read 0 1 -> 0 bytes -
0 read 1 1 -> 0 err EBADF fd-mode
0 setproclabel mls/20(low-high) -> 0 ok 0
0 write 1 61 -> 0 err EIO dead
0 write 0 61 -> 0 err EBADF fd-mode

== no number is free
# After 32 opens no number is free. The file keeps its bytes and the new one is not made; then the lowest number is given again.
32 times 0 open /tmp/f rw c -> 0 ok ~#~
0 write 0 6b657074 -> 0 ok 4
# The rules before fd-room.
0 open /dev/tty3 r -> 0 sleep carrier
up tty3 -> tty3 noted wake 0
0 again -> 0 err EMFILE fd-room
0 open /dev/tty r -> 0 err ENXIO no-tty
0 open /tmp/f w t -> 0 err EMFILE fd-room
0 open /tmp/x w c -> 0 err EMFILE fd-room
0 open /dev/tty7 r -> 0 err EMFILE fd-room
0 close 9 -> 0 ok 0
0 close 5 -> 0 ok 0
0 close 5 -> 0 err EBADF bad-fd
0 open /tmp/x r -> 0 err ENOENT no-entry
0 open /tmp/f r -> 0 ok 5
0 read 5 512 -> 0 bytes 6b657074

== no node is free
# The standard boot has 39 nodes and `/tmp/f` is one more, so 984 more fit. The directory is asked first, and whether a number
# is free last.
32 times 0 open /tmp/f rw c -> 0 ok ~#~
984 times 0 mkdir /tmp/d~#~ 700 -> 0 ok 0
0 open /tmp/x w c -> 0 err ENOSPC node-room
0 mkdir /tmp/x 777 -> 0 err ENOSPC node-room
0 setcred 1001 100 - -> 0 ok 0
0 open /dev/x w c -> 0 err EACCES list
0 mkdir /dev/x 777 -> 0 err EACCES list

== no room for contents is left == recheck on
0 setproclabel mls/10(low-high) -> 0 ok 0
0 setcred 1001 100 - -> 0 ok 0
0 open /tmp/ten r c -> 0 ok 0
0 open /tmp/ten w -> 0 ok 1
# The standard files have 329 bytes: 22 of the form `image NAME` with a newline, whose names have 95 letters, and `/etc/ttys`
# with 80. So 4,193,975 bytes more fit, which is 8,191 times 512 and 183. What is missing before an offset counts too.
8191 times 0 write 1 ~61*512~ -> 0 ok 512
0 write 1 ~61*184~ -> 0 err ENOSPC file-space
0 write 1 ~61*183~ -> 0 ok 183
# The rules before file-space; no bytes want no room.
0 setproclabel mls/20(low-high) -> 0 ok 0
0 write 1 61 -> 0 err EACCES label-write
0 write 1 - -> 0 err EACCES label-write
0 setproclabel mls/5(low-high) -> 0 ok 0
0 write 1 61 -> 0 err ENOSPC file-space
0 write 1 - -> 0 ok 0
0 setproclabel mls/10(low-high) -> 0 ok 0
0 info /tmp/ten -> 0 text file:1001:0:644:4193975
0 open /tmp/ten w t -> 0 ok 2
0 write 2 61 -> 0 ok 1
0 write 1 61 -> 0 err ENOSPC file-space
";
