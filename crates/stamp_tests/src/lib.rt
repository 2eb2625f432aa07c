//! Tests of the earliest times over the made-up world: what time-stamps prove.
#![tactic(auto)]

#[cfg(test)]
mod many_trees;
#[cfg(test)]
mod rows;
#[cfg(test)]
mod scene;
#[cfg(test)]
mod versions;
