// Files that are handed in for References.
ghost use Rattle.std.specs.Prelude.{◌≡◌, ℕ, List, map, IfOk};
ghost use Rattle.reference_chains.specs.HandedIn.{handed_in};
ghost use Rattle.whole_files.specs.Wants.{held_of};
ghost use Rattle.xades_cli.specs.Handing.{handed_by};

use references::Externals;
use std::alloc::Global;
use whole_files::File;
use xa_io::OutOfMemory;

/// Hands in the external files, each under its name.
pub fn hand_in(alloc: Global, files: Vec<File<'_>>) -> Result<Externals, OutOfMemory>
    ensures { IfOk result (λ externals. (wanted : List ℕ) → handed_in externals wanted ≡ handed_by (map held_of files.entry.items) wanted) }
{
    let mut externals = Externals::new(alloc);
    for file in files {
        if file.role.is_external() {
            externals.add(file.name, file.bytes)?;
        }
    }
    Ok(externals)
}
