//! Worked examples of what `signature_model` defines, on small documents: the answer of reading for each line of the shape, the first
//! fault of a Reference, what is covered, the signing certificate, and what the items that are put in and `prepare` write.
//!
//! The examples stand in `proofs/`, one file a topic, and nothing stands on this crate.
#![tactic(auto)]
