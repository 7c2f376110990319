//! What the process that asks is, as a text: getpid(2), getuid(2), getgroups(2) and mac_get_proc(3) in one.
ghost use Rattle.std.specs.Prelude.{◌≡◌, ◌+◌, ◌*◌, ◌≤◌, ◌++◌, List, Option, length, codes};
ghost use Rattle.std.specs.Fmt.{decimal};
ghost use Rattle.std.specs.List.{flat_map};
ghost use Rattle.arrayvec.specs.ArrayVec.{array_vec_len};
ghost use Rattle.call_words.specs.Groups.{groups_word};
ghost use Rattle.proc_table.specs.Procs.{process_of};
ghost use Rattle.system_model.specs.CredCalls.{ident_text, ident_row};
ghost use Rattle.system_model.specs.Fit.{IsCaller};
ghost use Rattle.system_model.specs.Rows.{Does};
ghost use Rattle.system_model.specs.Tables.{Tables, seen_process, view_of};
ghost use Rattle.tree_model.specs.Tree.{NodeAt};

use acl_core::MOST_GROUPS;
use arrayvec::ArrayVec;
use call_words::{Decision, TEXT_BYTES, TextBuf, push_bytes, push_number};
use label_core::print_subject;
use proc_table::{Proc, ProcTable};
use system_model::caller;

/// A text that is being made.
pub(crate) type Text = ArrayVec<u8, TEXT_BYTES>;

/// How many bytes a number and the mark before it have at most.
const PART_BYTES: usize = 11;

/// Adds a colon and a number in decimal, of at most ten digits.
pub(crate) fn push_part(out: &mut Text, number: u32)
    requires { array_vec_len out.old + PART_BYTES ≤ TEXT_BYTES }
    ensures bytes { out.new.items ≡ out.old.items ++ codes ":" ++ decimal number }
    ensures len { array_vec_len out.new ≤ array_vec_len out.old + PART_BYTES }
{
    push_bytes(out, b":");
    push_number(out, number);
}

/// Adds numbers, each after a plus sign.
fn push_others(out: &mut Text, groups: &[u32])
    requires { array_vec_len out.old + PART_BYTES * length groups.now ≤ TEXT_BYTES }
    ensures bytes { out.new.items ≡ out.old.items ++ flat_map (λ group. codes "+" ++ decimal group) groups.now }
    ensures len { array_vec_len out.new ≤ array_vec_len out.old + PART_BYTES * length groups.now }
{
    for group in groups {
        push_bytes(out, b"+");
        push_number(out, *group);
    }
}

/// Adds the numbers of at most 16 groups, joined by plus signs, or a dash where there is none.
fn push_groups(out: &mut Text, groups: &[u32])
    requires room { array_vec_len out.old + PART_BYTES * MOST_GROUPS ≤ TEXT_BYTES }
    requires most { length groups.now ≤ MOST_GROUPS }
    ensures bytes { out.new.items ≡ out.old.items ++ groups_word groups.now }
    ensures len { array_vec_len out.new ≤ array_vec_len out.old + PART_BYTES * MOST_GROUPS }
{
    match groups.split_first() {
        None => push_bytes(out, b"-"),
        Some((first, others)) => {
            push_number(out, *first);
            push_others(out, others);
        }
    }
}

/// What is told of a process.
#[tactic(auto, unfolding(system_model::specs::CredCalls::ident_text))]
fn ident(who: &Proc) -> TextBuf
    ensures { (nodes : List (Option NodeAt)) → result ≡ ident_text (seen_process nodes (process_of who.now)) }
{
    let mut out = ArrayVec::new();
    push_number(&mut out, who.pid);
    push_part(&mut out, who.cred.uid);
    push_part(&mut out, who.cred.gid);
    push_bytes(&mut out, b":");
    push_groups(&mut out, who.cred.groups.as_slice());
    push_bytes(&mut out, b":");
    print_subject(&who.label, &mut out);
    TextBuf::from_slice(out.as_slice()).unwrap()
}

/// What the process is (getpid(2), getuid(2), getgroups(2), mac_get_proc(3)): answers a text
/// `PID:UID:GID:GROUPS:LABEL`, which fits 4,096 bytes. GROUPS are the supplementary groups as they were given, joined
/// by `+`, or `-` where there is none.
pub fn do_ident(procs: &ProcTable, slot: u8) -> Decision
    requires caller { IsCaller procs.now slot }
    ensures does { (t : Tables) → t.processes ≡ procs.now → Does (view_of t) (view_of t) result (ident_row (view_of t) slot) }
{
    Decision::text(ident(caller(procs, slot)))
}
