//! The certificates of a signature that is prepared (XML Signature 1.1, section 4.5.4).

ghost use Rattle.std.specs.Prelude.{◌≡◌, ◌++◌, ◌∷◌, [], OnOk};
ghost use Rattle.signature_model.specs.Fragments.{written_octets};
ghost use Rattle.signature_drafts.specs.Parts.{certificate_nodes, key_info_nodes};

use crate::draft::Draft;
use crate::pieces::put_base64;
use std::alloc::Global;
use xa_io::{Octs, OutOfMemory};

// Appends an `X509Certificate`.
fn put_certificate(alloc: Global, out: &mut Octs, octets: &[u8]) -> Result<(), OutOfMemory>
    ensures { OnOk result (out.new ≡ out.old ++ written_octets (certificate_nodes (octets.now ∷ []))) }
{
    out.push_all(b"<ds:X509Certificate>")?;
    put_base64(alloc, out, octets)?;
    out.push_all(b"</ds:X509Certificate>")
}

// Appends one for each certificate of a draft.
fn put_certificates(alloc: Global, out: &mut Octs, draft: &Draft) -> Result<(), OutOfMemory>
    ensures { OnOk result (out.new ≡ out.old ++ written_octets (certificate_nodes draft.now.certificates)) }
{
    for number in 0..draft.certs() {
        put_certificate(alloc, out, draft.cert(number))?;
    }
    Ok(())
}

// Appends the `KeyInfo` with the certificates of a draft.
pub(crate) fn put_key_info(alloc: Global, out: &mut Octs, draft: &Draft) -> Result<(), OutOfMemory>
    ensures { OnOk result (out.new ≡ out.old ++ written_octets (key_info_nodes draft.now)) }
{
    out.push_all(b"<ds:KeyInfo><ds:X509Data>")?;
    put_certificates(alloc, out, draft)?;
    out.push_all(b"</ds:X509Data></ds:KeyInfo>")
}
