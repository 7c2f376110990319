//! Labels of multi-level security, after FreeBSD's mac_mls(4): elements with a grade and a set of
//! compartments, dominance among them, the subjects of processes, and the texts of both.
//!
//! Which of low, equal and high dominates which, the numbers of the compartments, and the places and
//! kinds of faults are this crate's own. No call takes memory.
#![tactic(auto)]

mod comp_set;
mod element;
mod fault;
pub mod laws;
mod printing;
mod reading;
mod subject;

pub use comp_set::{COMPARTMENTS, CompSet};
pub use element::{Element, dominates};
pub use fault::{LabelFault, LabelKind};
pub use printing::{ELEMENT_ROOM, LABEL_ROOM, TEXT_ROOM, print_element, print_subject};
pub use reading::{read_element, read_subject};
pub use subject::{Subject, inside, may_become, may_relabel};
