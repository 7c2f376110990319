//! Processes that share: descriptors, lines, pipes, slots, and the sleeps of the one and the other.

/// Scenes, in the form of the module scenes.
pub const SCENES: &str = "
== descriptors are shared
# dup(2), dup2(2) and fork(2) make numbers of one open file, which a revoke makes dead for all (revoke(2)).
0 open /dev/tty7 rw -> 0 ok 0
0 dup 0 -> 0 ok 1
0 fork -> 0 ok 2
1 dup2 1 9 -> 1 ok 9
1 dup2 9 9 -> 1 ok 9
0 revoke /dev/tty7 -> 0 ok 0
0 read 1 5 -> 0 bytes -
1 write 9 61 -> 1 err EIO dead
1 close 9 -> 1 ok 0
1 close 9 -> 1 err EBADF bad-fd

== a user may not revoke
0 open /tmp/f rw c 600 -> 0 ok 0
0 revoke /tmp/f -> 0 err EINVAL no-revoke
0 fork -> 0 ok 2
1 setcred 1001 100 - -> 1 ok 0
1 revoke /dev/tty0 -> 1 err EPERM owner
0 mkdir /tmp/d 700 -> 0 ok 0
# Nothing is told of what is below a directory that may not be searched.
1 revoke /tmp/d/x -> 1 err EACCES search
1 revoke /tmp/x -> 1 err ENOENT no-entry

== labels of a child
# A child takes a label of its own, and its opens go by that.
0 open /tmp/low rw c 666 -> 0 ok 0
0 setlabel /tmp/low mls/5:2 -> 0 ok 0
0 fork -> 0 ok 2
1 setproclabel mls/10:2(5:2-20:2+3) -> 1 ok 0
1 open /tmp/low w -> 1 err EACCES label-write
1 open /tmp/low r -> 1 ok 1
1 setproclabel mls/5:2(5:2-20:2+3) -> 1 ok 0
1 open /tmp/low w -> 1 ok 2
1 setproclabel mls/equal -> 1 err EPERM proclabel

== a label that another raises with recheck == recheck on
0 open /tmp/f rw c 644 -> 0 ok 0
0 write 0 6162 -> 0 ok 2
0 setlabel /tmp/f mls/5 -> 0 ok 0
0 fork -> 0 ok 2
1 setproclabel mls/10(5-20) -> 1 ok 0
1 open /tmp/f r -> 1 ok 1
0 setlabel /tmp/f mls/15 -> 0 ok 0
1 read 1 9 -> 1 err EACCES label-read

== a label that another raises without recheck
0 open /tmp/f rw c 644 -> 0 ok 0
0 write 0 6162 -> 0 ok 2
0 setlabel /tmp/f mls/5 -> 0 ok 0
0 fork -> 0 ok 2
1 setproclabel mls/10(5-20) -> 1 ok 0
1 open /tmp/f r -> 1 ok 1
0 setlabel /tmp/f mls/15 -> 0 ok 0
1 read 1 9 -> 1 bytes 6162

== two read one line
# The byte goes to the one that reads first; the other sleeps on, until the line is revoked.
0 open /dev/tty7 rw -> 0 ok 0
0 fork -> 0 ok 2
1 read 0 100 -> 1 sleep read
in tty7 78 -> tty7 noted wake 1
0 read 0 100 -> 0 bytes 78
1 again -> 1 sleep read
0 revoke /dev/tty7 -> 0 ok 0 wake 1
1 again -> 1 bytes -
1 again -> 1 err EINVAL awake

== a parent waits for its child
# wait4(2). A slot without a process sleeps in `begin` until there is one.
0 fork 7368 -> 0 ok 2
1 begin -> 1 image init 7368
1 begin -> 1 err EINVAL begun
0 wait 0 - -> 0 sleep child
1 exit 7 -> 1 ok 0 wake 0
0 again -> 0 child 2 exit 7
0 wait 0 - -> 0 err ECHILD no-child
1 begin -> 1 sleep begin

== a slot that is left
# The program of a process that a signal ended is answered once before its slot is taken again.
0 fork -> 0 ok 2
0 kill 2 KILL -> 0 ok 0
0 wait 0 - -> 0 child 2 signal 9
0 fork -> 0 ok 3
2 sigtake -> 2 ok 0
1 sigtake -> 1 gone
0 fork -> 0 ok 4
1 sigtake -> 1 ok 0

== all slots are taken
# 31 forks fill the 32 slots. After a child's exit and a wait there is room again, and no pid comes twice.
0 fork -> 0 ok 2
0 fork -> 0 ok 3
0 fork -> 0 ok 4
0 fork -> 0 ok 5
0 fork -> 0 ok 6
0 fork -> 0 ok 7
0 fork -> 0 ok 8
0 fork -> 0 ok 9
0 fork -> 0 ok 10
0 fork -> 0 ok 11
0 fork -> 0 ok 12
0 fork -> 0 ok 13
0 fork -> 0 ok 14
0 fork -> 0 ok 15
0 fork -> 0 ok 16
0 fork -> 0 ok 17
0 fork -> 0 ok 18
0 fork -> 0 ok 19
0 fork -> 0 ok 20
0 fork -> 0 ok 21
0 fork -> 0 ok 22
0 fork -> 0 ok 23
0 fork -> 0 ok 24
0 fork -> 0 ok 25
0 fork -> 0 ok 26
0 fork -> 0 ok 27
0 fork -> 0 ok 28
0 fork -> 0 ok 29
0 fork -> 0 ok 30
0 fork -> 0 ok 31
0 fork -> 0 ok 32
0 fork -> 0 err EAGAIN slots
1 exit 0 -> 1 ok 0
0 wait 0 - -> 0 child 2 exit 0
0 fork -> 0 ok 33

== a pipe that is full
# A write that does not fit whole waits until it does; without a reader PIPE ends the writer (pipe(2), write(2)).
0 pipe -> 0 pair 0 1
7 times 0 write 1 ~61*512~ -> 0 ok 512
0 write 1 ~61*116~ -> 0 ok 116
0 fork -> 0 ok 2
1 write 1 ~62*512~ -> 1 sleep write
0 read 0 115 -> 0 bytes ~61*115~
0 read 0 1 -> 0 bytes 61 wake 1
1 again -> 1 ok 512
0 close 0 -> 0 ok 0
1 close 0 -> 1 ok 0
1 write 1 61 -> 1 err EPIPE no-reader
1 again -> 1 gone

== a pipe has the label of its maker
0 setproclabel mls/10(5-20) -> 0 ok 0
0 pipe -> 0 pair 0 1
0 fork -> 0 ok 2
1 setproclabel mls/5(5-20) -> 1 ok 0
1 read 0 9 -> 1 err EACCES label-read

== room for blocks
# Seven lines of 40 blocks and seven pipes of 32 leave 8 of 512. A revoke gives the blocks of its line back.
7 times 0 open /dev/tty~#~ rw n -> 0 ok ~#~
0 pipe -> 0 pair 7 8
0 pipe -> 0 pair 9 10
0 pipe -> 0 pair 11 12
0 pipe -> 0 pair 13 14
0 pipe -> 0 pair 15 16
0 pipe -> 0 pair 17 18
0 pipe -> 0 pair 19 20
0 open /dev/tty7 rw -> 0 err ENOBUFS pool
0 revoke /dev/tty0 -> 0 ok 0
0 open /dev/tty7 rw -> 0 ok 21
";
