//! Tests of documents, node sets, identifiers and canonical text. Expected values are counted and written by hand, from XML 1.0,
//! Namespaces in XML 1.0, Canonical XML 1.0 and Exclusive XML Canonicalization 1.0.
#![tactic(auto)]

#[cfg(test)]
mod documents;
#[cfg(test)]
mod edges;
#[cfg(test)]
mod forms;
#[cfg(test)]
mod identifiers;
#[cfg(test)]
mod methods;
#[cfg(test)]
mod nodes;
#[cfg(test)]
mod sets;
#[cfg(test)]
mod tags;
#[cfg(test)]
mod texts;
