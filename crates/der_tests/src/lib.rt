//! Tests of DER values, certificates, CRLs and tokens: of rows that were worked out by hand, of objects that OpenSSL made, and of those of
//! the made-up world.
#![tactic(auto)]

#[cfg(test)]
mod bad_elements;
#[cfg(test)]
mod made_objects;
#[cfg(test)]
mod made_tokens;
#[cfg(test)]
mod openssl_token;
#[cfg(test)]
mod pieces;
#[cfg(test)]
mod values;
#[cfg(test)]
mod whole_objects;
