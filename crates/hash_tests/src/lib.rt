//! Tests of the verifiers of hash-based signatures, of the digests, and of the signatures that the made-up world makes.
#![tactic(auto)]

#[cfg(test)]
mod kinds;
#[cfg(test)]
mod lms;
#[cfg(test)]
mod made;
#[cfg(test)]
mod xmss;
#[cfg(test)]
mod xmssmt;
