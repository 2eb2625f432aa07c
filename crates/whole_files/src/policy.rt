//! The policy among files that were read.

ghost use Rattle.std.specs.Prelude.{◌≡◌, map};
ghost use Rattle.whole_files.specs.Wants.{held_of, policy_of};

use crate::file::File;

/// The bytes of the first file that is the policy; none where there is no such file.
pub fn policy_of<'f>(files: &'f [File<'_>]) -> &'f [u8]
    ensures { result.now ≡ policy_of (map held_of files.now) }
{
    let mut rest = files;
    'files: loop {
        match rest {
            [file, others @ ..] => {
                if file.role.is_policy() {
                    return file.bytes.as_slice();
                }
                rest = others;
            }
            [] => return &[],
        }
    }
}
