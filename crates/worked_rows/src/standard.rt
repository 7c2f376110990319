//! The nodes that a boot makes, and the ways to them.

/// Scenes, in the form of the module scenes.
pub const SCENES: &str = "
== a boot makes the standard nodes
# Directories and their listings, and what is told of nodes. Grades above low may read all but `/dev` and `/tmp` alike.
0 list / 0 -> 0 text bin/dev/etc/home/tmp
0 list /bin 0 -> 0 text cat/chmod/chown/echo/getfacl/getfmac/getty/halt/id/init/kill/login/ls/mkdir/ps/revoke/rm/setfacl/setfmac/sh/stty/tty
0 list /etc 0 -> 0 text ttys/users
0 list /home 0 -> 0 text -
0 list /dev 0 -> 0 text tty/tty0/tty1/tty2/tty3/tty4/tty5/tty6/tty7
0 list /tmp 0 -> 0 text -
0 list / 3 -> 0 text home/tmp
0 list / 5 -> 0 text -
0 info / -> 0 text dir:0:0:755:0
0 info /bin -> 0 text dir:0:0:755:0
0 info /dev -> 0 text dir:0:0:755:0
0 info /tmp -> 0 text dir:0:0:777:0
0 info /bin/cat -> 0 text file:0:0:755:10
0 info /bin/getfacl -> 0 text file:0:0:755:14
0 info /etc/users -> 0 text file:0:0:600:0
0 info /etc/ttys -> 0 text file:0:0:644:80
0 info /dev/tty0 -> 0 text line:0:0:600:0
0 info /dev/tty3 -> 0 text line:0:0:600:0
0 info /dev/tty7 -> 0 text line:0:0:600:0
0 info /dev/tty -> 0 text tty:0:0:666:0
0 getlabel / -> 0 text mls/low
0 getlabel /bin -> 0 text mls/low
0 getlabel /bin/getfacl -> 0 text mls/low
0 getlabel /etc/users -> 0 text mls/low
0 getlabel /etc/ttys -> 0 text mls/low
0 getlabel /dev -> 0 text mls/equal
0 getlabel /dev/tty0 -> 0 text mls/equal
0 getlabel /dev/tty7 -> 0 text mls/equal
0 getlabel /dev/tty -> 0 text mls/equal
0 getlabel /tmp -> 0 text mls/equal
0 open /bin/cat r -> 0 ok 0
0 read 0 512 -> 0 bytes 696d616765206361740a

== paths lead where they should
# Empty parts and `.` are skipped, and `..` is the parent, of the root itself. A part that is absent may be the last one alone.
0 info . -> 0 text dir:0:0:755:0
0 info bin/cat -> 0 text file:0:0:755:10
0 list .. 0 -> 0 text bin/dev/etc/home/tmp
0 list /../../etc 0 -> 0 text ttys/users
0 info //bin//cat/ -> 0 text file:0:0:755:10
0 info /bin/./cat/. -> 0 text file:0:0:755:10
0 info /bin/../tmp -> 0 text dir:0:0:777:0
0 info % -> 0 err ENOENT no-entry
0 info /dev/tty8 -> 0 err ENOENT no-entry
0 mkdir /tmp/x/y 700 -> 0 err ENOENT no-entry
0 mkdir /tmp/x/.. 700 -> 0 err ENOENT no-entry
0 mkdir % 700 -> 0 err ENOENT no-entry
0 mkdir /bin/cat/x 700 -> 0 err ENOTDIR not-dir
0 info /bin/cat/.. -> 0 err ENOTDIR not-dir
0 mkdir /tmp/a/ 700 -> 0 ok 0
0 mkdir /tmp/b/. 700 -> 0 ok 0
0 chdir /tmp/b -> 0 ok 0
0 mkdir ../c 700 -> 0 ok 0
0 list .. 0 -> 0 text a/b/c
";
