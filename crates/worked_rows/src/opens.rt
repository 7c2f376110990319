//! open(2), where of two rules that hold at once the first is named.

/// Scenes, in the form of the module scenes.
pub const SCENES: &str = "
== each open is denied by its first rule
# Nodes of the superuser, some of a grade or of one with a compartment that grade 10 does not have. Then a user of grade 10 asks.
0 umask 0 -> 0 ok 18
0 mkdir /tmp/closed 700 -> 0 ok 0
0 mkdir /tmp/secret 700 -> 0 ok 0
0 open /tmp/f r c -> 0 ok 0
0 open /tmp/shut r c 600 -> 0 ok 1
0 open /tmp/high r c 600 -> 0 ok 2
0 open /tmp/low r c 600 -> 0 ok 3
0 open /tmp/side r c 666 -> 0 ok 4
0 setlabel /tmp/secret mls/20 -> 0 ok 0
0 setlabel /tmp/high mls/20 -> 0 ok 0
0 setlabel /tmp/low mls/5 -> 0 ok 0
0 setlabel /tmp/side mls/5:1 -> 0 ok 0
0 setlabel /dev/tty7 mls/10 -> 0 ok 0
0 chmod /dev/tty2 666 -> 0 ok 0
0 chmod /dev/tty7 666 -> 0 ok 0
0 umask 22 -> 0 ok 0
# Lines and the line of the caller, by the superuser, whom no list denies them.
0 open /dev/tty r -> 0 err ENXIO no-tty
0 open /dev/tty0 rw -> 0 sleep carrier
up tty0 -> tty0 noted wake 0
0 again -> 0 ok 5
0 close 5 -> 0 ok 0
0 open /dev/tty6 r n -> 0 ok 5
0 close 5 -> 0 ok 0
0 chmod /dev/tty 600 -> 0 ok 0
0 setproclabel mls/10(low-high) -> 0 ok 0
0 setcred 1001 100 - -> 0 ok 0
# Of the lines with a remark a later rule would hold too.
0 open /tmp/f r t -> 0 err EINVAL flags
0 open /tmp/f r a -> 0 err EINVAL flags
# The path.
0 open % w x -> 0 err EINVAL flags
0 open % r -> 0 err ENOENT no-entry
# That there is a node.
0 open /tmp/closed/.. r cx -> 0 err EACCES search
0 open /tmp/x r -> 0 err ENOENT no-entry
# The label of `/bin`.
0 open /bin/x w -> 0 err ENOENT no-entry
# The list of `/bin`.
0 open /bin/x w c -> 0 err EACCES label-write
0 open /dev/x w c -> 0 err EACCES list
0 open /tmp/f r cx -> 0 err EEXIST exists
# That it is a directory.
0 open /tmp r cx -> 0 err EEXIST exists
0 open /tmp r c -> 0 err EISDIR is-dir
# The label.
0 open /tmp/secret r -> 0 err EISDIR is-dir
# The list.
0 open /tmp/high r -> 0 err EACCES label-read
# The label as of a write.
0 open /tmp/side rw -> 0 err EACCES label-read
0 open /tmp/side w -> 0 err EACCES label-write
# The list.
0 open /tmp/low w -> 0 err EACCES label-write
0 open /tmp/shut r -> 0 err EACCES list
# That the caller has no line.
0 open /dev/tty r -> 0 err EACCES list
# That the line has no carrier.
0 open /dev/tty3 r -> 0 err EACCES list
0 open /dev/tty2 r -> 0 sleep carrier
up tty2 -> tty2 noted wake 0
0 again -> 0 ok 5
0 close 5 -> 0 ok 0
0 open /dev/tty7 rw -> 0 ok 5
0 open /tmp/f w ct -> 0 ok 6
0 open /bin/cat r -> 0 ok 7
0 open /tmp/x w cxta 666 -> 0 ok 8
0 info /tmp/x -> 0 text file:1001:0:644:0
0 getlabel /tmp/x -> 0 text mls/10

== a new file goes to its maker
# A file goes to its maker, who is of grade low, whatever the label and the list of its directory say of others.
0 setproclabel mls/low(low-high) -> 0 ok 0
0 open /bin/x w c -> 0 ok 0
0 info /bin/x -> 0 text file:0:0:644:0
0 setcred 1001 100 - -> 0 ok 0
0 open /bin/y w c -> 0 err EACCES list

== a default list is handed down
# A default list is handed down, and the umask plays no part then; a new directory takes the list too.
0 mkdir /tmp/d 777 -> 0 ok 0
0 setacl /tmp/d default user::rwx,group::rwx,other::rw- -> 0 ok 0
0 open /tmp/d/f w c -> 0 ok 0
0 getacl /tmp/d/f access -> 0 text user::rw-,group::rw-,other::rw-
0 getacl /tmp/d/f default -> 0 err ENOTDIR not-dir
0 mkdir /tmp/d/e 700 -> 0 ok 0
0 getacl /tmp/d/e access -> 0 text user::rwx,group::---,other::---
0 getacl /tmp/d/e default -> 0 text user::rwx,group::rwx,other::rw-
0 open /tmp/g w c -> 0 ok 1
0 getacl /tmp/g access -> 0 text user::rw-,group::r--,other::r--
";
