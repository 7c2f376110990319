//! chmod(2), chown(2), acl_set_file(3), mac_set_file(3), revoke(2) and the calls on who asks, where of two rules that hold at once
//! the first is named.

/// Scenes, in the form of the module scenes.
pub const SCENES: &str = "
== each call on rights is denied by its first rule
# Nodes of the superuser and of a user, 1001. Those of `mls/10:3` neither dominate nor are dominated by `mls/10:2`, and are
# outside the range of those who ask.
0 mkdir /tmp/closed 700 -> 0 ok 0
0 mkdir /tmp/dir 777 -> 0 ok 0
0 open /tmp/f r c 777 -> 0 ok 0
0 open /tmp/apart r c 777 -> 0 ok 1
0 open /tmp/closed/apart r c 777 -> 0 ok 2
0 open /tmp/mine r c 777 -> 0 ok 3
0 open /tmp/mine_low r c 777 -> 0 ok 4
0 open /tmp/mine_apart r c 777 -> 0 ok 5
0 open /tmp/his r c 777 -> 0 ok 6
0 chown /tmp/dir 1001 0 -> 0 ok 0
0 chown /tmp/mine 1001 0 -> 0 ok 0
0 chown /tmp/mine_low 1001 0 -> 0 ok 0
0 chown /tmp/mine_apart 1001 0 -> 0 ok 0
0 chown /tmp/his 1001 0 -> 0 ok 0
0 setlabel /tmp/dir mls/10:2 -> 0 ok 0
0 setlabel /tmp/apart mls/10:3 -> 0 ok 0
0 setlabel /tmp/closed/apart mls/10:3 -> 0 ok 0
0 setlabel /tmp/mine mls/10:2 -> 0 ok 0
0 setlabel /tmp/mine_low mls/5:2 -> 0 ok 0
0 setlabel /tmp/mine_apart mls/10:3 -> 0 ok 0
0 setlabel /tmp/his mls/10:2 -> 0 ok 0
0 setlabel /dev/tty7 mls/10:3 -> 0 ok 0
0 setproclabel mls/10:2(5:2-20:2+3) -> 0 ok 0
# Of the superuser. Of the lines with a remark, here and below, a later rule would hold too.
0 chmod /tmp/apart 640 -> 0 err EACCES label-write
0 chown /tmp/apart 7 8 -> 0 err EACCES label-write
0 chmod /tmp/his 640 -> 0 ok 0
0 chown /tmp/his 7 8 -> 0 ok 0
0 revoke /dev/tty7 -> 0 err EACCES label-write
0 setcred 1001 100 - -> 0 ok 0
# Of the user.
0 chmod /tmp/x 640 -> 0 err ENOENT no-entry
# The rules of the node too, here and below at each call.
0 chmod /tmp/closed/apart 640 -> 0 err EACCES search
# The owner too.
0 chmod /tmp/apart 640 -> 0 err EACCES label-write
0 chmod /tmp/mine_low 640 -> 0 err EACCES label-write
0 chmod /tmp/f 640 -> 0 err EPERM owner
0 chmod /tmp/mine 640 -> 0 ok 0
0 chown /tmp/x 7 8 -> 0 err ENOENT no-entry
0 chown /tmp/closed/apart 7 8 -> 0 err EACCES search
# That the user is no superuser too.
0 chown /tmp/apart 7 8 -> 0 err EACCES label-write
0 chown /tmp/mine 7 8 -> 0 err EPERM super
# The owner too.
0 revoke /dev/tty7 -> 0 err EACCES label-write
0 setlabel /tmp/x mls/10:3 -> 0 err ENOENT no-entry
0 setlabel /tmp/closed/apart mls/10:3 -> 0 err EACCES search
# The range too.
0 setlabel /tmp/apart mls/10:3 -> 0 err EPERM owner
# Of the new element, and of the old one.
0 setlabel /tmp/mine mls/10:3 -> 0 err EPERM relabel
0 setlabel /tmp/mine_apart mls/10:2 -> 0 err EPERM relabel
0 setlabel /tmp/mine mls/equal -> 0 err EPERM relabel
# That the old element does not dominate the user's is no rule of this call.
0 setlabel /tmp/mine_low mls/20:2+3 -> 0 ok 0
0 getlabel /tmp/x -> 0 err ENOENT no-entry
0 getlabel /tmp/closed/apart -> 0 err EACCES search
0 getlabel /tmp/apart -> 0 err EACCES label-read
0 setacl /tmp/closed/apart default user::rwx,group::r-x -> 0 err EACCES search
# The owner too, that it is a file, and the list.
0 setacl /tmp/apart default user::rwx,group::r-x -> 0 err EACCES label-write
# That it is a file too, and the list.
0 setacl /tmp/f default user::rwx,group::r-x -> 0 err EPERM owner
# The list too.
0 setacl /tmp/mine default user::rwx,group::r-x -> 0 err ENOTDIR not-dir
0 setacl /tmp/mine default - -> 0 err ENOTDIR not-dir
0 setacl /tmp/dir default user::rwx,group::r-x -> 0 err EINVAL acl-bad
0 setacl /tmp/dir access - -> 0 err EINVAL acl-bad
0 setacl /tmp/mine access user::rwx,group::r-x,other::--- -> 0 ok 0
0 getacl /tmp/closed/apart default -> 0 err EACCES search
# That it is a file too.
0 getacl /tmp/apart default -> 0 err EACCES label-read
0 getacl /tmp/f default -> 0 err ENOTDIR not-dir

== a revoke is denied by the way to the line
# A revoke below a directory that may not be searched. The owner would deny it too.
0 chmod /dev 700 -> 0 ok 0
0 setcred 1001 100 - -> 0 ok 0
0 revoke /dev/tty7 -> 0 err EACCES search

== what is given is told
# Changes by a superuser, and what is told of the node after each. The texts of lists and labels have one order.
0 open /tmp/mine r c 777 -> 0 ok 0
0 getacl /tmp/mine access -> 0 text user::rwx,group::r-x,other::r-x
0 setacl /tmp/mine access other::---,mask::r-x,user:1001:rwx,group::r--,user::rwx -> 0 ok 0
0 getacl /tmp/mine access -> 0 text user::rwx,user:1001:rwx,group::r--,mask::r-x,other::---
# Where a list has a mask, the bits of the group are the mask's.
0 chmod /tmp/mine 640 -> 0 ok 0
0 getacl /tmp/mine access -> 0 text user::rw-,user:1001:rwx,group::r--,mask::r--,other::---
0 chown /tmp/mine 7 8 -> 0 ok 0
0 info /tmp/mine -> 0 text file:7:8:640:0
0 setlabel /tmp/mine mls/20:3+2 -> 0 ok 0
0 getlabel /tmp/mine -> 0 text mls/20:2+3
0 mkdir /tmp/dir 700 -> 0 ok 0
0 getacl /tmp/dir default -> 0 text -
0 setacl /tmp/dir default other::---,mask::r-x,user:1001:rwx,group::r--,user::rwx -> 0 ok 0
0 getacl /tmp/dir default -> 0 text user::rwx,user:1001:rwx,group::r--,mask::r-x,other::---
0 setacl /tmp/dir default - -> 0 ok 0
0 getacl /tmp/dir default -> 0 text -

== a process becomes another
# The groups stay in their order and with repeats; the mask before is told in decimal.
0 setcred 0 0 - -> 0 ok 0
0 ident -> 0 text 1:0:0:-:mls/equal(low-high)
0 setproclabel mls/10:2(5:2-20:2+3) -> 0 ok 0
0 setcred 1001 100 7+5+7 -> 0 ok 0
0 ident -> 0 text 1:1001:100:7+5+7:mls/10:2(5:2-20:2+3)
0 setcred 0 0 - -> 0 err EPERM super
0 setproclabel mls/equal -> 0 err EPERM proclabel
0 setproclabel mls/5:2(5:2-20:2+3) -> 0 ok 0
0 umask 77 -> 0 ok 18
0 umask 22 -> 0 ok 63
";
