//! Tests of items that are put into documents, and of validation data that are read from a file.
#![tactic(auto)]

#[cfg(test)]
mod documents;
#[cfg(test)]
mod items;
#[cfg(test)]
mod scene;
