//! Files that are wanted, and files that were read.

ghost use Rattle.std.specs.Prelude.{◌≤◌, length};
ghost use Rattle.whole_files.specs.Roles.{limit_of};

use crate::role::Role;
use xa_io::Octs;

/// A file that a command wants: what it is for, and its name.
#[derive(Clone, Copy, Debug)]
pub struct Wanted<'a> {
    pub role: Role,
    pub name: &'a str,
}

/// A file that was read. It isn't longer than its role allows.
#[derive(Debug, Drop)]
pub struct File<'a> {
    pub role: Role,
    pub name: &'a str,
    pub bytes: Octs,
    ghost within: { length bytes ≤ limit_of role },
}
