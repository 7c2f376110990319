//! Worked runs of the machine, as tests of the program's top call over memory.
//!
//! Their answers were worked out from the rules of the machine (docs/RULES.md), not by the
//! program. Nothing else is in this crate.
#![tactic(auto)]

#[cfg(test)]
mod directories;
#[cfg(test)]
mod files;
#[cfg(test)]
mod lines;
#[cfg(test)]
mod listings;
#[cfg(test)]
mod opens;
#[cfg(test)]
mod paths;
#[cfg(test)]
mod processes;
#[cfg(test)]
mod rights;
#[cfg(test)]
mod runs;
#[cfg(test)]
mod scenes;
#[cfg(test)]
mod session;
#[cfg(test)]
mod sessions;
#[cfg(test)]
mod standard;
#[cfg(test)]
mod terminals;
#[cfg(test)]
mod texts;
