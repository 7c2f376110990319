//! The laws of the whole machine, proved of its definitions: they need no kernel.
//!
//! `specs/Laws` says what holds of each event of a run: refusals, revokes, labels, opens, who waits, and from which event each open file is;
//! `specs/Origins` tells the event that made what a number of a slot stands for, and `specs/OriginLaws` what then holds of revokes and labels;
//! `specs/ProvenanceLaws` tells of which events the bytes are that a line gives. `specs/RunLaws` says it of whole runs from a boot, `specs/Stands` for which states a kernel stands, and `specs/PendingCalls`, `EndingLists` and
//! `WaitingCalls` what a kernel asks besides: the calls that slots wait in, who is still to be ended, and which calls can wait. `proofs/` shows
//! that what calls see steps as the state does, that the endings of an event come to an end, that these laws hold of every run (`RunsObey`), and
//! what each event leaves of the kernel's bounds (`EventsKept`, `EndingRuns`).
#![tactic(auto)]
