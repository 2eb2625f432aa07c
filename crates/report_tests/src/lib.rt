//! Tests of the texts of reports: each word of each line, with digests of known messages.
#![tactic(auto)]

#[cfg(test)]
mod facts;
#[cfg(test)]
mod texts;
