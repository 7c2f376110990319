//! Scenes of the whole machine, computed from its definitions: lines of scripts, each beside its answer.
//!
//! `specs/Scenes` says what a scene is; `proofs/` has them by what they show, each a theorem that computes it.
#![tactic(auto)]
