//! Tests of drafts of signatures and of what is prepared from them.
#![tactic(auto)]

#[cfg(test)]
mod preparations;
#[cfg(test)]
mod scene;
