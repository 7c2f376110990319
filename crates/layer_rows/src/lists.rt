//! The texts of access lists (POSIX.1e), and where they have their faults.

use acl_core::{Acl, Entry, ListFault, TEXT_ROOM, print_entries, print_list, read_list};
use arrayvec::ArrayVec;
use std::alloc::Global;
use std::test::Fail;

type Text = ArrayVec<u8, TEXT_ROOM>;

/// What is printed of a list, in its own order or as its entries were given, or its fault.
pub const ROWS: &str = "
list - -> Missing
list user::rw-,user:7:r--,group::r--,other::--- -> NoMask
list user::rw-,group::r--,group:7:r--,other::--- -> NoMask
list user::rw-,group::r-- -> Missing
list user:7:r--,group::r--,other::--- -> Missing
list user::rw-,user::r-- -> Twice
list user::r--,user:7:r--,group::r--,user:7:---,other::--- -> Twice
list mask::r--,mask::r-- -> Twice
list  -> at 0
list -x -> at 1
list -- -> at 1
list -,user::rwx -> at 1
list x -> at 0
list USER::rwx -> at 0
list user -> at 4
list usr::rwx -> at 2
list u:1:rwx -> at 1
list user: -> at 5
list user:x:rwx -> at 5
list user:-1:rwx -> at 5
list user: :rwx -> at 5
list user:7rwx -> at 6
list user:01:rwx -> at 6
list user:00:rwx -> at 6
list user:4294967295 -> at 15
list user:4294967296:rwx -> at 14
list group:42949672950:r-- -> at 16
list user:: -> at 6
list user::wrx -> at 6
list user::rw -> at 8
list user::r-w -> at 8
list mask::rwX -> at 8
list user::rwxr -> at 9
list user::rwx, -> at 10
list user::rwx,, -> at 10
list user::rwx,- -> at 10
list user::rwx, other::--- -> at 10
list other::rwx\t -> at 10
list other:rwx -> at 6
list group:20:rwx,mask:5:r-- -> at 18
list other::--x,group:4294967295:-w-,user:20:r--,mask::rwx,user:3:---,group:0:r-x,group::r--,user::rw- -> user::rw-,user:3:---,user:20:r--,group::r--,group:0:r-x,group:4294967295:-w-,mask::rwx,other::--x
entries other::--x,group:4294967295:-w-,user:20:r--,mask::rwx,user:3:---,group:0:r-x,group::r--,user::rw- -> other::--x,group:4294967295:-w-,user:20:r--,mask::rwx,user:3:---,group:0:r-x,group::r--,user::rw-
entries - -> -
";

fn printed(alloc: Global, acl: &Acl) -> Option<Vec<u8>> {
    let mut text = Text::new();
    print_list(acl, &mut text);
    Vec::from_slice(alloc, text.as_slice()).ok()
}

/// What is printed of the list of these entries, or their fault.
fn list_or_fault(alloc: Global, entries: &[Entry]) -> Option<Vec<u8>> {
    match Acl::new(entries) {
        Ok(acl) => printed(alloc, &acl),
        Err(fault) => Some(format!(in alloc; "{fault:?}").ok()?.into_bytes()),
    }
}

/// What is printed of the list of a text, or its fault.
fn list(alloc: Global, text: &str) -> Option<Vec<u8>> {
    match read_list(text.as_bytes()) {
        Ok(entries) => list_or_fault(alloc, &entries),
        Err(fault) => Some(format!(in alloc; "at {}", fault.at).ok()?.into_bytes()),
    }
}

/// What is printed of the entries of a text as they are.
fn entries(alloc: Global, text: &str) -> Option<Vec<u8>> {
    let mut out = Text::new();
    print_entries(&read_list(text.as_bytes()).ok()?, &mut out);
    Vec::from_slice(alloc, out.as_slice()).ok()
}

/// The answer to a question about lists.
pub fn told(alloc: Global, asked: &str, of: &str) -> Option<Vec<u8>> {
    if asked == "entries" {
        entries(alloc, of)
    } else {
        list(alloc, of)
    }
}

/// A text has at most 64 entries; a 65th is a fault at the comma before it.
#[test]
fn a_text_has_at_most_64_entries(rt: HostRuntime) -> Result<(), Fail> {
    let mut text = "other::---,".repeat(rt.alloc(), 64)?;
    text.push_str("other::---")?;
    let most = read_list(&text.as_bytes()[11..]).err();
    let over = read_list(text.as_bytes()).err();
    assert!(rt; most.is_none() && over == Some(ListFault { at: 703 }));
    Ok(())
}
