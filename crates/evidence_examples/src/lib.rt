//! Worked examples of what `signature_objects` and `signature_evidence` define, on small documents and small evidence: the objects of a
//! signature with their numbers, what its time-stamps cover, and whole reports.
//!
//! The examples stand in `proofs/`, one file a topic, and nothing stands on this crate.
#![tactic(auto)]
