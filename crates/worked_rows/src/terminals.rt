//! Cooked terminal lines: editing and echo, sleepers at a revoke, job control, carriers, and floods (termios(4), tty(4), revoke(2)).

/// Scenes, in the form of the module scenes.
pub const SCENES: &str = "
== a cooked line echoes
up tty0 -> tty0 noted
0 open /dev/tty0 rw -> 0 ok 0
in tty0 680a -> tty0 noted|tty0 noted
0 read 0 100 -> 0 bytes 680a
take tty0 100 -> tty0 out 680d0a

== a revoke wakes a reader
up tty0 -> tty0 noted
0 open /dev/tty0 rw -> 0 ok 0
0 fork -> 0 ok 2
1 read 0 100 -> 1 sleep read
0 revoke /dev/tty0 -> 0 ok 0 wake 1
in tty0 78 -> tty0 noted wake 1
1 again -> 1 bytes -

== a revoke wakes a writer
# What the writer had put is not sent. The new descriptor writes and reads, and the old one does not.
up tty0 -> tty0 noted
0 open /dev/tty0 rw -> 0 ok 0
0 fork -> 0 ok 2
8 times 1 write 0 ~61*512~ -> 1 ok 512
1 write 0 ~61*512~ -> 1 sleep write
0 revoke /dev/tty0 -> 0 ok 0 wake 1
1 again -> 1 err EIO dead
take tty0 512 -> tty0 out -
0 open /dev/tty0 rw -> 0 ok 1
0 write 1 62 -> 0 ok 1
take tty0 512 -> tty0 out 62
0 read 0 10 -> 0 bytes -
0 read 1 10 -> 0 sleep read
0 close 0 -> 0 err EBUSY asleep

== a background read stops its process
up tty0 -> tty0 noted
0 open /dev/tty0 rw -> 0 ok 0
0 setctty 0 -> 0 ok 0
0 fork -> 0 ok 2
1 setpgid 0 0 -> 1 ok 0
1 read 0 9 -> 1 sleep stop
0 wait 2 u -> 0 child 2 stop 21
0 tcsetpgrp 0 2 -> 0 ok 0
0 kill 2 CONT -> 0 ok 0
in tty0 610a -> tty0 noted|tty0 noted wake 1
1 again -> 1 bytes 610a

== an orphan reads in the background
up tty0 -> tty0 noted
0 open /dev/tty0 rw -> 0 ok 0
0 fork -> 0 ok 2
1 setsid -> 1 ok 2
1 setctty 0 -> 1 ok 0
1 fork -> 1 ok 3
2 setpgid 0 0 -> 2 ok 0
2 fork -> 2 ok 4
2 exit 0 -> 2 ok 0
3 read 0 9 -> 3 err EIO background

== an interrupt that is caught
up tty0 -> tty0 noted
0 open /dev/tty0 rw -> 0 ok 0
0 fork -> 0 ok 2
1 setsid -> 1 ok 2
1 setctty 0 -> 1 ok 0
1 sigset INT catch -> 1 ok 0
1 read 0 9 -> 1 sleep read
in tty0 6103 -> tty0 noted|tty0 noted wake 1
1 again -> 1 err EINTR signal
take tty0 9 -> tty0 out 5e43
1 sigtake -> 1 ok 2
1 sigtake -> 1 ok 0

== an interrupt that is caught with noflsh
# The output stays.
up tty0 -> tty0 noted
0 open /dev/tty0 rw -> 0 ok 0
0 fork -> 0 ok 2
1 setsid -> 1 ok 2
1 setctty 0 -> 1 ok 0
1 sigset INT catch -> 1 ok 0
1 tcsetattr 0 now icrnl,ixon,opost,onlcr,hupcl,isig,icanon,echo,echoe,echok,echoctl,noflsh:3+28+127+21+4+255+17+19+26+1+0 -> 1 ok 0
1 read 0 9 -> 1 sleep read
in tty0 6103 -> tty0 noted|tty0 noted wake 1
1 again -> 1 err EINTR signal
take tty0 9 -> tty0 out 615e43

== lines are edited
# An ERASE on an empty line does nothing, and one on a line of two takes the last with its column.
up tty0 -> tty0 noted
0 open /dev/tty0 rw -> 0 ok 0
in tty0 7f61627f0a -> tty0 noted~|tty0 noted*4~
0 read 0 9 -> 0 bytes 610a
take tty0 99 -> tty0 out 61620820080d0a
# A line has 255 bytes and its newline.
in tty0 ~61*255~ -> tty0 noted~|tty0 noted*254~
in tty0 62 -> tty0 noted
in tty0 0a -> tty0 noted
0 read 0 512 -> 0 bytes ~61*255~0a
# An end of file ends a line, and alone it is no bytes.
in tty0 616204 -> tty0 noted~|tty0 noted*2~
0 read 0 5 -> 0 bytes 6162
in tty0 04 -> tty0 noted
0 read 0 5 -> 0 bytes -
# What a read leaves of a line is the next one's.
in tty0 616263640a -> tty0 noted~|tty0 noted*4~
0 read 0 2 -> 0 bytes 6162
0 read 0 9 -> 0 bytes 63640a

== a carrier that is lost
up tty0 -> tty0 noted
0 open /dev/tty0 rw -> 0 ok 0
0 fork -> 0 ok 2
1 setsid -> 1 ok 2
1 setctty 0 -> 1 ok 0
1 sigset HUP catch -> 1 ok 0
1 read 0 9 -> 1 sleep read
down tty0 -> tty0 noted wake 1
1 again -> 1 bytes -
1 write 0 61 -> 1 err EIO zombie
1 sigtake -> 1 ok 1
up tty0 -> tty0 noted
1 write 0 61 -> 1 err EIO zombie
0 revoke /dev/tty0 -> 0 ok 0
0 open /dev/tty0 rw -> 0 ok 1
0 write 1 61 -> 0 ok 1

== the line of a session
0 open /dev/tty rw -> 0 err ENXIO no-tty
up tty0 -> tty0 noted
0 open /dev/tty0 rw -> 0 ok 0
0 setctty 0 -> 0 ok 0
0 open /dev/tty rw -> 0 ok 1
0 fdname 1 -> 0 text tty0
0 revoke /dev/tty0 -> 0 ok 0
0 open /dev/tty rw -> 0 err ENXIO no-tty
0 setctty 0 -> 0 err EIO dead

== an open waits for its carrier
0 open /dev/tty0 r -> 0 sleep carrier
up tty0 -> tty0 noted wake 0
down tty0 -> tty0 noted
0 again -> 0 sleep carrier
up tty0 -> tty0 noted wake 0
0 again -> 0 ok 0

== the end of a session's leader
up tty0 -> tty0 noted
0 open /dev/tty0 rw -> 0 ok 0
0 fork -> 0 ok 2
1 setsid -> 1 ok 2
1 setctty 0 -> 1 ok 0
1 exit 0 -> 1 ok 0
0 read 0 9 -> 0 bytes -
0 wait 0 - -> 0 child 2 exit 0
1 again -> 1 gone

== a flood of bytes
# A line without its newline has 255 bytes, and no more are kept or echoed.
up tty0 -> tty0 noted
0 open /dev/tty0 rw -> 0 ok 0
10 times in tty0 ~61*500~ -> tty0 noted~|tty0 noted*499~
take tty0 512 -> tty0 out ~61*255~
take tty0 512 -> tty0 out -

== a flood of newlines
# There are 1,024 places for input, and each echoed newline is two bytes.
up tty0 -> tty0 noted
0 open /dev/tty0 rw -> 0 ok 0
2 times in tty0 ~0a*512~ -> tty0 noted~|tty0 noted*511~
in tty0 ~0a*76~ -> tty0 noted~|tty0 noted*75~
1024 times 0 read 0 512 -> 0 bytes 0a
0 read 0 512 -> 0 sleep read
4 times take tty0 512 -> tty0 out ~0d0a*256~
take tty0 512 -> tty0 out -

== a revoke before the carrier
0 revoke /dev/tty0 -> 0 ok 0
up tty0 -> tty0 noted
0 open /dev/tty0 rw -> 0 ok 0
in tty0 7f61627f0a -> tty0 noted~|tty0 noted*4~
0 read 0 9 -> 0 bytes 610a
take tty0 99 -> tty0 out 61620820080d0a

== a revoke before the open
up tty0 -> tty0 noted
0 revoke /dev/tty0 -> 0 ok 0
0 open /dev/tty0 rw -> 0 ok 0
in tty0 7f61627f0a -> tty0 noted~|tty0 noted*4~
0 read 0 9 -> 0 bytes 610a
take tty0 99 -> tty0 out 61620820080d0a

== a revoke before the bytes
up tty0 -> tty0 noted
0 open /dev/tty0 rw -> 0 ok 0
0 revoke /dev/tty0 -> 0 ok 0
in tty0 7f61627f0a -> tty0 noted~|tty0 noted*4~
0 read 0 9 -> 0 bytes -
take tty0 99 -> tty0 out -
0 write 0 61 -> 0 err EIO dead

== a revoke before the read
up tty0 -> tty0 noted
0 open /dev/tty0 rw -> 0 ok 0
in tty0 7f61627f0a -> tty0 noted~|tty0 noted*4~
0 revoke /dev/tty0 -> 0 ok 0
0 read 0 9 -> 0 bytes -
take tty0 99 -> tty0 out -
0 write 0 61 -> 0 err EIO dead

== a revoke before the taking
up tty0 -> tty0 noted
0 open /dev/tty0 rw -> 0 ok 0
in tty0 7f61627f0a -> tty0 noted~|tty0 noted*4~
0 read 0 9 -> 0 bytes 610a
0 revoke /dev/tty0 -> 0 ok 0
take tty0 99 -> tty0 out -
0 read 0 9 -> 0 bytes -
0 write 0 61 -> 0 err EIO dead
";
