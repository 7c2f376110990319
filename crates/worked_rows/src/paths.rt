//! Paths and the rules that deny them, with the order of the rules where two hold at once.

/// Scenes, in the form of the module scenes.
pub const SCENES: &str = "
== each path is denied by its first rule
# A directory that only its owner may search, and one of grade 20 that is closed too. Then the superuser is of grade 10.
0 mkdir /tmp/closed 700 -> 0 ok 0
0 mkdir /tmp/secret 700 -> 0 ok 0
0 setlabel /tmp/secret mls/20 -> 0 ok 0
0 setproclabel mls/10(low-high) -> 0 ok 0
# Paths of a superuser: the answer relabel says that no rule denies the path.
0 setlabel / mls/equal -> 0 err EPERM relabel
0 setlabel tmp mls/equal -> 0 err EPERM relabel
0 setlabel /bin/../tmp/closed/ mls/equal -> 0 err EPERM relabel
0 setlabel /tmp/closed/. mls/equal -> 0 err EPERM relabel
0 setlabel % mls/equal -> 0 err ENOENT no-entry
0 setlabel /tmp/x mls/equal -> 0 err ENOENT no-entry
0 setlabel /x/y mls/equal -> 0 err ENOENT no-entry
0 setlabel /bin/cat/x mls/equal -> 0 err ENOTDIR not-dir
0 setlabel /bin/cat/.. mls/equal -> 0 err ENOTDIR not-dir
0 setlabel /tmp/closed/x mls/equal -> 0 err ENOENT no-entry
0 setlabel /tmp/closed/x/y mls/equal -> 0 err ENOENT no-entry
0 setlabel /tmp/closed/.. mls/equal -> 0 err EPERM relabel
# The label binds the superuser too.
0 setlabel /tmp/secret mls/equal -> 0 err EPERM relabel
0 setlabel /tmp/secret/x mls/equal -> 0 err EACCES label-read
0 setlabel /tmp/secret/.. mls/equal -> 0 err EACCES label-read
0 setlabel /x/../tmp/closed/x mls/equal -> 0 err ENOENT no-entry
0 setlabel /tmp/closed/../secret/x mls/equal -> 0 err EACCES label-read
0 setcred 1001 100 - -> 0 ok 0
# The same paths of a user: the answer owner says that no rule denies the path.
0 setlabel / mls/equal -> 0 err EPERM owner
0 setlabel tmp mls/equal -> 0 err EPERM owner
0 setlabel /bin/../tmp/closed/ mls/equal -> 0 err EPERM owner
0 setlabel /tmp/closed/. mls/equal -> 0 err EPERM owner
0 setlabel % mls/equal -> 0 err ENOENT no-entry
0 setlabel /tmp/x mls/equal -> 0 err ENOENT no-entry
0 setlabel /x/y mls/equal -> 0 err ENOENT no-entry
0 setlabel /bin/cat/x mls/equal -> 0 err ENOTDIR not-dir
0 setlabel /bin/cat/.. mls/equal -> 0 err ENOTDIR not-dir
# The directory is asked before what is absent in it, and on the way back up too.
0 setlabel /tmp/closed/x mls/equal -> 0 err EACCES search
0 setlabel /tmp/closed/x/y mls/equal -> 0 err EACCES search
0 setlabel /tmp/closed/.. mls/equal -> 0 err EACCES search
# The label is asked before the list.
0 setlabel /tmp/secret mls/equal -> 0 err EPERM owner
0 setlabel /tmp/secret/x mls/equal -> 0 err EACCES label-read
0 setlabel /tmp/secret/.. mls/equal -> 0 err EACCES label-read
# An earlier part is asked before a later one.
0 setlabel /x/../tmp/closed/x mls/equal -> 0 err ENOENT no-entry
0 setlabel /tmp/closed/../secret/x mls/equal -> 0 err EACCES search

== long paths and names are denied first
0 mkdir /tmp/closed 700 -> 0 ok 0
0 mkdir /tmp/secret 700 -> 0 ok 0
0 setlabel /tmp/secret mls/20 -> 0 ok 0
0 setproclabel mls/10(low-high) -> 0 ok 0
0 setcred 1001 100 - -> 0 ok 0
# Paths have at most 1,023 bytes and names at most 255.
# The name is too long too, and the directory is closed.
0 info /tmp/closed/~n*1012~ -> 0 err ENAMETOOLONG path-long
0 info /tmp/closed/~n*1011~ -> 0 err ENAMETOOLONG name-long
0 info /tmp/closed/~n*256~ -> 0 err ENAMETOOLONG name-long
0 info /tmp/closed/~n*255~ -> 0 err EACCES search
# The directories before it are asked first.
0 info /tmp/closed/x/~n*256~ -> 0 err EACCES search
0 info /tmp/x/~n*256~ -> 0 err ENOENT no-entry
0 info /tmp/~n*256~ -> 0 err ENAMETOOLONG name-long
0 info /tmp/~n*255~ -> 0 err ENOENT no-entry
0 info ~/*1023~ -> 0 text dir:0:0:755:0
0 info ~/*1024~ -> 0 err ENAMETOOLONG path-long
0 info ~/*1022~n -> 0 err ENOENT no-entry
";
