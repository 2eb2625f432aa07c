//! Tests of the octets that the value and the time-stamps of a signature cover, and of what stands against the next time-stamp.
#![tactic(auto)]

#[cfg(test)]
mod checked;
#[cfg(test)]
mod covered;
#[cfg(test)]
mod scene;
#[cfg(test)]
mod tokens;
