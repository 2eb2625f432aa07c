//! The signed properties of a signature that is prepared (EN 319 132-1, clauses 4.3.3, 5.2.1, 5.2.2 and 5.2.4).

ghost use Rattle.std.specs.Prelude.{◌≡◌, ◌++◌, ◌<◌, ◌^◌, List, ℕ, IfOk, OnOk, length};
ghost use Rattle.std.specs.Str.{chars};
ghost use Rattle.signature_model.specs.Chains.{place_named};
ghost use Rattle.signature_model.specs.Fragments.{written_octets};
ghost use Rattle.signature_model.specs.Prepared.{first_certificate, format_nodes, formats_from, mime_type, properties_octets};
ghost use Rattle.signature_drafts.specs.Digests.{IsPlain};
ghost use Rattle.signature_drafts.specs.Standing.{properties_standing};

use crate::draft::Draft;
use crate::methods::put_digest;
use crate::pieces::{put_number, put_quoted};
use crate::standing::Standing;
use crate::uris::{UriTarget, target_of};
use algorithms::Digest;
use std::alloc::Global;
use xa_io::{Octs, OutOfMemory};

// The media type of what a URI names.
fn media_type(uri: &str) -> &'static str
    ensures { result.now ≡ mime_type (place_named (chars uri.now)) }
{
    match target_of(uri) {
        UriTarget::Document | UriTarget::Element => "text/xml",
        UriTarget::Outside => "application/octet-stream",
    }
}

// Appends the format of a Reference by its number from 1 and its URI.
fn put_format(out: &mut Octs, draft: &Draft, k: u32, uri: &str) -> Result<(), OutOfMemory>
    ensures { OnOk result (out.new ≡ out.old ++ written_octets (format_nodes draft.now k (chars uri.now))) }
{
    out.push_all(b"<xades:DataObjectFormat ObjectReference=\"#")?;
    put_quoted(out, draft.id())?;
    out.push_all(b"-r")?;
    put_number(out, k)?;
    out.push_all(b"\"><xades:MimeType>")?;
    out.push_all(media_type(uri).as_bytes())?;
    out.push_all(b"</xades:MimeType></xades:DataObjectFormat>")
}

// Appends the formats of all References that are asked for.
fn put_formats(out: &mut Octs, draft: &Draft) -> Result<(), OutOfMemory>
    requires { length draft.now.references < 2 ^ 32 }
    ensures { OnOk result (out.new ≡ out.old ++ written_octets (formats_from draft.now 1 draft.now.references)) }
{
    for number in 0..draft.refs() {
        put_format(out, draft, number as u32 + 1, draft.uri(number))?;
    }
    Ok(())
}

// Appends the signed properties, by the digest of the first certificate.
pub(crate) fn put_properties(
    alloc: Global,
    out: &mut Octs,
    draft: &Draft,
    standing: Standing,
    digest: &[u8],
) -> Result<(), OutOfMemory>
    requires { IsPlain draft.now }
    ensures { OnOk result (out.new ≡ out.old ++ written_octets (properties_standing standing digest.now draft.now)) }
{
    out.push_all(b"<xades:SignedProperties")?;
    out.push_all(standing.xades().as_bytes())?;
    out.push_all(b" Id=\"")?;
    put_quoted(out, draft.id())?;
    out.push_all(b"-sp\"><xades:SignedSignatureProperties><xades:SigningTime>")?;
    out.push_all(draft.time())?;
    out.push_all(
        b"</xades:SigningTime><xades:SigningCertificateV2><xades:Cert><xades:CertDigest>",
    )?;
    put_digest(alloc, out, standing, draft.digest(), digest)?;
    out.push_all(
        b"</xades:CertDigest></xades:Cert></xades:SigningCertificateV2></xades:SignedSignatureProperties><xades:SignedDataObjectProperties>",
    )?;
    put_formats(out, draft)?;
    out.push_all(b"</xades:SignedDataObjectProperties></xades:SignedProperties>")
}

/// The octets of the signed properties that are digested for the Reference to them: their exclusive canonical form. `certificate` is the
/// digest of the draft's first certificate.
pub fn properties_text(
    alloc: Global,
    draft: &Draft,
    certificate: &Digest,
) -> Result<Octs, OutOfMemory>
    requires { IsPlain draft.now }
    ensures { (digest : List ℕ → List ℕ) → digest (first_certificate draft.now) ≡ certificate.now → IfOk result (λ octets. octets ≡ properties_octets digest draft.now) }
{
    let mut octets = Octs::new(alloc);
    put_properties(
        alloc,
        &mut octets,
        draft,
        Standing::Alone,
        certificate.as_slice(),
    )?;
    Ok(octets)
}
