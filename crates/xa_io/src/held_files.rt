// Files in memory.
ghost use Rattle.std.specs.Prelude.{◌≡◌, ◌-◌, ℕ, List, length, take, drop, min, Some, OnOk, OnErr};
ghost use Rattle.std.specs.Option.{option_copied};
ghost use Rattle.xa_io.specs.HeldFiles.{look_up};

use crate::octs::OutOfMemory;
use std::alloc::Global;

#[derive(Debug, Drop)]
pub(crate) struct HeldFile {
    pub(crate) name: String,
    pub(crate) bytes: Vec<u8>,
}

// The bytes of the first file of this name.
pub(crate) fn look<'a>(files: &'a Vec<HeldFile>, name: &str) -> Option<&'a [u8]>
    ensures { option_copied result ≡ look_up files.now.items name.now }
{
    for file in files {
        if file.name.as_str() == name {
            return Some(file.bytes.as_slice());
        }
    }
    None
}

// Puts a file before all others, so that it is the first of its name.
pub(crate) fn put_in_front(
    alloc: Global,
    files: &mut Vec<HeldFile>,
    name: &str,
    bytes: &[u8],
) -> Result<(), OutOfMemory>
    ensures named { OnOk result (look_up files.new.items name.now ≡ Some bytes.now) }
    ensures others { OnOk result ((other : List ℕ) → (name.now ≡ other → ⊥) → look_up files.new.items other ≡ look_up files.old.items other) }
    ensures err { OnErr result (files.new.items ≡ files.old.items) }
{
    let Ok(name) = String::from_str(alloc, name) else {
        return Err(OutOfMemory);
    };
    let Ok(bytes) = bytes.to_vec(alloc) else {
        return Err(OutOfMemory);
    };
    match files.insert(0, HeldFile { name, bytes }) {
        Ok(()) => Ok(()),
        Err(_) => Err(OutOfMemory),
    }
}

// Copies bytes from a place on, and tells how many.
pub(crate) fn copy_part(bytes: &[u8], at: u64, most: usize, into: &mut [u8]) -> usize
    ensures count { result ≡ min (min most (length into.old)) (length bytes.now - at) }
    ensures copied { take result into.new ≡ take result (drop at bytes.now) }
{
    let len = bytes.len();
    if at >= len as u64 {
        return 0;
    }
    let from = at as usize;
    let count = most.min(into.len()).min(len - from);
    into[..count].copy_from_slice(&bytes[from..from + count]);
    count
}
