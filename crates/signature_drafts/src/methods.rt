//! Signature methods and digests with their algorithms (XML Signature 1.1, sections 4.4.2 and 4.4.3.5).

ghost use Rattle.std.specs.Prelude.{◌≡◌, ◌++◌, OnOk, codes};
ghost use Rattle.std.specs.Str.{chars};
ghost use Rattle.signature_model.specs.Fragments.{written_octets};
ghost use Rattle.signature_model.specs.Prepared.{algorithm};
ghost use Rattle.signature_model.specs.Vocabulary.{digest_name};
ghost use Rattle.signature_elements.specs.DigestKinds.{kind_in};
ghost use Rattle.signature_drafts.specs.Standing.{digest_standing};

use crate::pieces::{put_base64, put_quoted};
use crate::standing::Standing;
use algorithms::DigestKind;
use std::alloc::Global;
use xa_io::{Octs, OutOfMemory};

// Appends a `SignatureMethod`.
pub(crate) fn put_method(out: &mut Octs, uri: &str) -> Result<(), OutOfMemory>
    ensures { OnOk result (out.new ≡ out.old ++ written_octets (algorithm (codes "SignatureMethod") (chars uri.now))) }
{
    out.push_all(b"<ds:SignatureMethod Algorithm=\"")?;
    put_quoted(out, uri)?;
    out.push_all(b"\"></ds:SignatureMethod>")
}

// Appends a `DigestMethod` and a `DigestValue`.
pub(crate) fn put_digest(
    alloc: Global,
    out: &mut Octs,
    standing: Standing,
    kind: DigestKind,
    digest: &[u8],
) -> Result<(), OutOfMemory>
    ensures { OnOk result (out.new ≡ out.old ++ written_octets (digest_standing standing (digest_name (kind_in kind)) digest.now)) }
{
    out.push_all(b"<ds:DigestMethod")?;
    out.push_all(standing.ds().as_bytes())?;
    out.push_all(b" Algorithm=\"")?;
    out.push_all(kind.uri().as_bytes())?;
    out.push_all(b"\"></ds:DigestMethod><ds:DigestValue")?;
    out.push_all(standing.ds().as_bytes())?;
    out.push_all(b">")?;
    put_base64(alloc, out, digest)?;
    out.push_all(b"</ds:DigestValue>")
}
