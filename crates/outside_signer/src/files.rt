//! Files to be signed.

use crate::failed::Failed;
use std::alloc::Global;
use whole_files::{Role, Wanted, read_files};
use xa_io::{Octs, Shelf};

/// The octets of a file, of 33,554,432 at most.
pub fn read<S: Shelf>(alloc: Global, shelf: &mut S, name: &str) -> Result<Octs, Failed> {
    let wanted = [Wanted {
        role: Role::External,
        name,
    }];
    let mut files = read_files(alloc, shelf, &wanted)?;
    match files.pop() {
        Some(file) => Ok(file.bytes),
        None => Err(Failed),
    }
}
