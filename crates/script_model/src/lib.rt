//! What the program's runs are, as definitions that the contracts of the top calls cite.
//!
//! `specs/` says what the text of a script asks (`Reading`), what a script writes over a boot text and with which status it ends
//! (`Script`), the same from any moment on, by what calls see alone (`Seen`), and what the trail of a run is (`Trail`). `proofs/` shows
//! that these agree, that a trail is read again as its events, and that the definitions compute the worked runs, from the bytes of a
//! script to the bytes of its answers.
#![tactic(auto)]

mod laws;

pub use laws::trails_are_read_back;
