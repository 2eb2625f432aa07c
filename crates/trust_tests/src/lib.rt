//! Tests of times as texts, of policies, and of which certificates of the made-up world are accepted and complete.
#![tactic(auto)]

#[cfg(test)]
mod policies;
#[cfg(test)]
mod times;
#[cfg(test)]
mod walks;
