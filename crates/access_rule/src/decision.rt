//! The decision.
ghost use Rattle.std.specs.Prelude.{◌≡◌};
ghost use Rattle.access_rule.specs.Access.{list_refuses, list_rule, refusal, allowed_unless};

use crate::Attrs;
use acl_core::{Cred, Perm};
use label_core::{Subject, dominates};
use sys_types::Rule;

/// Whether the list refuses. A superuser is refused nothing but to execute a file of which no
/// entry has x.
fn list_refuses(cred: &Cred, node: &Attrs, want: Perm) -> bool
    ensures { result ≡ list_refuses cred.now node.now want }
{
    if cred.uid != 0 {
        return !node.list.check(cred, node.owner, node.group, want);
    }
    want.exec && !node.is_dir && !node.list.has_x()
}

/// The rule by which the list of a node refuses.
fn list_rule(node: &Attrs, exec: bool) -> Rule
    ensures { result ≡ list_rule node.now exec }
{
    if node.is_dir && exec {
        Rule::Search
    } else {
        Rule::List
    }
}

/// Whether a caller with this credential and label may read, write or execute a node; to execute
/// a directory is to search it.
///
/// Refused by the first rule that holds: `LabelRead`, where the caller's active element does not
/// dominate the node's for a read or an execute; `LabelWrite`, where the node's does not dominate
/// the caller's for a write; and where the list refuses, `Search` for a directory that is to be
/// searched and `List` for all else.
pub fn may(
    cred: &Cred,
    subject: &Subject,
    node: &Attrs,
    read: bool,
    write: bool,
    exec: bool,
) -> Result<(), Rule>
    ensures { result ≡ allowed_unless (refusal cred.now subject.now node.now read write exec) }
{
    if (read || exec) && !dominates(subject.active(), &node.element) {
        return Err(Rule::LabelRead);
    }
    if write && !dominates(&node.element, subject.active()) {
        return Err(Rule::LabelWrite);
    }
    if list_refuses(cred, node, Perm { read, write, exec }) {
        return Err(list_rule(node, exec));
    }
    Ok(())
}
