//! Tests of items that are attached to documents, and of what stands against them.
#![tactic(auto)]

#[cfg(test)]
mod attachments;
#[cfg(test)]
mod commands;
#[cfg(test)]
mod drafts;
#[cfg(test)]
mod refused;
#[cfg(test)]
mod scene;
