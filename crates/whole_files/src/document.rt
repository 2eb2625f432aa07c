//! The document among files that were read.

ghost use Rattle.std.specs.Prelude.{◌≡◌, map};
ghost use Rattle.whole_files.specs.Wants.{held_of, document_of};

use crate::file::File;

/// The bytes of the first file that is the document; none where there is no such file.
pub fn document_of<'f>(files: &'f [File<'_>]) -> &'f [u8]
    ensures { result.now ≡ document_of (map held_of files.now) }
{
    let mut rest = files;
    'files: loop {
        match rest {
            [file, others @ ..] => {
                if file.role.is_document() {
                    return file.bytes.as_slice();
                }
                rest = others;
            }
            [] => return &[],
        }
    }
}
