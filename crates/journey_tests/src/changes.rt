//! Octets that were changed.

use std::alloc::Global;
use std::test::Fail;
use xa_io::Octs;

/// Octets in which the first part that is the one text is the other.
pub(crate) fn replaced(alloc: Global, octets: &[u8], old: &str, new: &[u8]) -> Result<Octs, Fail> {
    for at in 0..octets.len() {
        if let Some(rest) = octets[at..].strip_prefix(old.as_bytes()) {
            let mut out = Octs::new(alloc);
            out.push_all(&octets[..at])?;
            out.push_all(new)?;
            out.push_all(rest)?;
            return Ok(out);
        }
    }
    Err(Fail::new("no such part"))
}

/// Octets without the last one.
pub(crate) fn cut(alloc: Global, octets: &[u8]) -> Result<Octs, Fail> {
    match octets {
        [front @ .., _] => {
            let mut out = Octs::new(alloc);
            out.push_all(front)?;
            Ok(out)
        }
        [] => Err(Fail::new("no octets")),
    }
}
