//! The file tree as definitions, which the contracts of the tree's table, of the file calls and of the machine cite.
//!
//! `specs/` has the map from paths to nodes and the walk of a path (`Tree`), the rules of a path (`Paths`), what a new node is
//! (`NewNodes`), what files hold (`Contents`), what directories list (`Listing`), and the nodes of a boot (`Standard`).
#![tactic(auto)]
