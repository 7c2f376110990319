//! The layers below the kernel, as tests worked out by hand: blocks, descriptors, pipes, processes, terminal lines, trails, boots, the outside,
//! and the texts of access lists, of shell lines and of terminal settings. They stand in a crate of their own, so that the crates below are
//! proved once, and not once more with their tests. What the definitions of labels, lists, event lines and answers say of worked rows is
//! computed in the proofs of script_model. Nothing else is in this crate.
#![tactic(auto)]

#[cfg(test)]
mod descriptors;
#[cfg(test)]
mod devices;
#[cfg(test)]
mod discipline;
#[cfg(test)]
mod laws;
#[cfg(test)]
mod line_table;
#[cfg(test)]
mod lists;
#[cfg(test)]
mod outside;
#[cfg(test)]
mod pipes;
#[cfg(test)]
mod processes;
#[cfg(test)]
mod rows;
#[cfg(test)]
mod shell_lines;
#[cfg(test)]
mod storage;
#[cfg(test)]
mod terminals;
