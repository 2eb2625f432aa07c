//! Tests of the top call over shelves and sinks in memory, and of the real ones over real files.
#![tactic(auto)]

#[cfg(test)]
mod attach;
#[cfg(test)]
mod canon;
#[cfg(test)]
mod failing;
#[cfg(test)]
mod octets;
#[cfg(test)]
mod outside;
#[cfg(test)]
mod prepare;
#[cfg(test)]
mod runs;
#[cfg(test)]
mod words;
