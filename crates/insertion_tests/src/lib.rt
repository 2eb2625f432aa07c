//! Tests of content that is put into documents. Expected bytes are written by hand.
#![tactic(auto)]

#[cfg(test)]
mod contents;
#[cfg(test)]
mod limits;
#[cfg(test)]
mod lives;
#[cfg(test)]
mod pieces;
