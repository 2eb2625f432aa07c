//! Pieces at places.

use insertions::{Insertions, apply};
use std::alloc::Global;
use xa_io::{Octs, OutOfMemory};

fn without_pieces(alloc: Global) -> Result<Octs, OutOfMemory> {
    apply(alloc, b"abc", &Insertions::new(alloc))
}

// Two at one place, and places that rise.
fn with_four(alloc: Global) -> Result<Octs, OutOfMemory> {
    let mut pieces = Insertions::new(alloc);
    pieces.add(0, b"v")?;
    pieces.add(1, b"wx")?;
    pieces.add(1, b"y")?;
    pieces.add(3, b"z")?;
    apply(alloc, b"abc", &pieces)
}

fn gives(new: Result<Octs, OutOfMemory>, wanted: &[u8]) -> bool {
    match new {
        Ok(new) => new.as_slice() == wanted,
        Err(OutOfMemory) => false,
    }
}

#[test]
fn puts_pieces_in_at_their_places(rt: HostRuntime) {
    let alloc = rt.alloc();
    assert!(rt; gives(without_pieces(alloc), b"abc"));
    assert!(rt; gives(with_four(alloc), b"vawxybcz"));
}
