//! Tests of the way from a document to one with an archive time-stamp, by the commands alone over files in memory.
#![tactic(auto)]

#[cfg(test)]
mod asked;
#[cfg(test)]
mod changes;
#[cfg(test)]
mod desk;
#[cfg(test)]
mod journeys;
#[cfg(test)]
mod judged;
#[cfg(test)]
mod keys;
#[cfg(test)]
mod refused;
#[cfg(test)]
mod ways;
