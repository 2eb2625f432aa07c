//! The signature that is prepared from a draft.

ghost use Rattle.std.specs.Prelude.{◌≡◌, ◌++◌, List, ℕ, OnOk, length};
ghost use Rattle.signature_model.specs.Fragments.{written_octets};
ghost use Rattle.signature_model.specs.Prepared.{signature_nodes};
ghost use Rattle.signature_drafts.specs.Digests.{AreDigestsBy, IsPlain};
ghost use Rattle.signature_drafts.specs.Parts.{object_nodes, signed_info_nodes};

use crate::draft::Draft;
use crate::key_info::put_key_info;
use crate::methods::put_method;
use crate::pieces::put_quoted;
use crate::properties::put_properties;
use crate::references::{put_last_reference, put_references};
use crate::standing::Standing;
use algorithms::Digest;
use std::alloc::Global;
use xa_io::{Octs, OutOfMemory};

/// The digests that a signature tells, by the draft's algorithm: of the octets of each Reference that is asked for, in their order, of the
/// first certificate, and of the signed properties.
#[derive(Clone, Copy)]
pub struct Digests<'a> {
    pub references: &'a [Digest],
    pub certificate: &'a Digest,
    pub properties: &'a Digest,
}

// Appends the `SignedInfo`.
fn put_signed_info(
    alloc: Global,
    out: &mut Octs,
    draft: &Draft,
    digests: Digests<'_>,
) -> Result<(), OutOfMemory>
    requires plain { IsPlain draft.now }
    requires numbers { length draft.now.references ≡ length digests.references.now }
    ensures { (digest digest_of : List ℕ → List ℕ) (value : List ℕ) → AreDigestsBy digest digest_of value draft.now digests.entry
        → OnOk result (out.new ≡ out.old ++ written_octets (signed_info_nodes digest_of value draft.now)) }
{
    out.push_all(
        b"<ds:SignedInfo><ds:CanonicalizationMethod Algorithm=\"http://www.w3.org/2001/10/xml-exc-c14n#\"></ds:CanonicalizationMethod>",
    )?;
    put_method(out, draft.method())?;
    put_references(alloc, out, draft, digests.references)?;
    put_last_reference(alloc, out, draft, digests.properties.as_slice())?;
    out.push_all(b"</ds:SignedInfo>")
}

// Appends the `Object` with the signed properties, by the digest of the first certificate.
fn put_object(
    alloc: Global,
    out: &mut Octs,
    draft: &Draft,
    digest: &[u8],
) -> Result<(), OutOfMemory>
    requires { IsPlain draft.now }
    ensures { OnOk result (out.new ≡ out.old ++ written_octets (object_nodes digest.now draft.now)) }
{
    out.push_all(
        b"<ds:Object><xades:QualifyingProperties xmlns:xades=\"http://uri.etsi.org/01903/v1.3.2#\" Target=\"#",
    )?;
    put_quoted(out, draft.id())?;
    out.push_all(b"\">")?;
    put_properties(alloc, out, draft, Standing::InSignature, digest)?;
    out.push_all(b"</xades:QualifyingProperties></ds:Object>")
}

/// Appends the signature that is prepared from a draft: without a value, and with the digests that are given. After `OutOfMemory` a part
/// of it may have been appended.
pub fn put_signature(
    alloc: Global,
    out: &mut Octs,
    draft: &Draft,
    digests: Digests<'_>,
) -> Result<(), OutOfMemory>
    requires plain { IsPlain draft.now }
    requires numbers { length draft.now.references ≡ length digests.references.now }
    ensures { (digest digest_of : List ℕ → List ℕ) (value : List ℕ) → AreDigestsBy digest digest_of value draft.now digests.entry
        → OnOk result (out.new ≡ out.old ++ written_octets (signature_nodes digest digest_of value draft.now)) }
{
    out.push_all(b"<ds:Signature xmlns:ds=\"http://www.w3.org/2000/09/xmldsig#\" Id=\"")?;
    put_quoted(out, draft.id())?;
    out.push_all(b"\">")?;
    put_signed_info(alloc, out, draft, digests)?;
    out.push_all(b"<ds:SignatureValue></ds:SignatureValue>")?;
    put_key_info(alloc, out, draft)?;
    put_object(alloc, out, draft, digests.certificate.as_slice())?;
    out.push_all(b"</ds:Signature>")
}
