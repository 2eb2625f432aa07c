//! The References of a signature that is prepared (XML Signature 1.1, section 4.4.3).

ghost use Rattle.std.specs.Prelude.{◌≡◌, ◌++◌, ◌+◌, ◌≤◌, ◌<◌, ◌^◌, List, ℕ, OnOk, length, map};
ghost use Rattle.std.specs.Str.{chars};
ghost use Rattle.signature_model.specs.Chains.{place_named};
ghost use Rattle.signature_model.specs.Fragments.{written_octets};
ghost use Rattle.signature_model.specs.Prepared.{last_reference, reference_nodes, references_from, transform_nodes};

use crate::draft::Draft;
use crate::methods::put_digest;
use crate::pieces::{put_number, put_quoted};
use crate::standing::Standing;
use crate::uris::{UriTarget, target_of};
use algorithms::Digest;
use std::alloc::Global;
use xa_io::{Octs, OutOfMemory};

// Appends the Transforms of a Reference by its URI: the enveloped signature transform for the whole document, and the exclusive form,
// unless it is external.
fn put_transforms(out: &mut Octs, uri: &str) -> Result<(), OutOfMemory>
    ensures { OnOk result (out.new ≡ out.old ++ written_octets (transform_nodes (place_named (chars uri.now)))) }
{
    match target_of(uri) {
        UriTarget::Document => out.push_all(
            b"<ds:Transforms><ds:Transform Algorithm=\"http://www.w3.org/2000/09/xmldsig#enveloped-signature\"></ds:Transform><ds:Transform Algorithm=\"http://www.w3.org/2001/10/xml-exc-c14n#\"></ds:Transform></ds:Transforms>",
        ),
        UriTarget::Element => out.push_all(
            b"<ds:Transforms><ds:Transform Algorithm=\"http://www.w3.org/2001/10/xml-exc-c14n#\"></ds:Transform></ds:Transforms>",
        ),
        UriTarget::Outside => Ok(()),
    }
}

// Appends a Reference by its number from 1, its URI and its digest.
fn put_reference(
    alloc: Global,
    out: &mut Octs,
    draft: &Draft,
    k: u32,
    uri: &str,
    digest: &[u8],
) -> Result<(), OutOfMemory>
    ensures { OnOk result (out.new ≡ out.old ++ written_octets (reference_nodes draft.now k (chars uri.now) digest.now)) }
{
    out.push_all(b"<ds:Reference Id=\"")?;
    put_quoted(out, draft.id())?;
    out.push_all(b"-r")?;
    put_number(out, k)?;
    out.push_all(b"\" URI=\"")?;
    put_quoted(out, uri)?;
    out.push_all(b"\">")?;
    put_transforms(out, uri)?;
    put_digest(alloc, out, Standing::InSignature, draft.digest(), digest)?;
    out.push_all(b"</ds:Reference>")
}

// Appends the References that are asked for, each with its digest.
pub(crate) fn put_references(
    alloc: Global,
    out: &mut Octs,
    draft: &Draft,
    digests: &[Digest],
) -> Result<(), OutOfMemory>
    requires same { length draft.now.references ≡ length digests.now }
    requires few { length draft.now.references < 2 ^ 32 }
    ensures { (digest_of : List ℕ → List ℕ) → digests.now ≡ map digest_of draft.now.references
        → OnOk result (out.new ≡ out.old ++ written_octets (references_from draft.now digest_of 1 draft.now.references)) }
{
    for number in 0..digests.len() {
        let digest = digests[number].as_slice();
        put_reference(
            alloc,
            out,
            draft,
            number as u32 + 1,
            draft.uri(number),
            digest,
        )?;
    }
    Ok(())
}

// Appends the Reference to the signed properties.
pub(crate) fn put_last_reference(
    alloc: Global,
    out: &mut Octs,
    draft: &Draft,
    digest: &[u8],
) -> Result<(), OutOfMemory>
    ensures { OnOk result (out.new ≡ out.old ++ written_octets (last_reference draft.now digest.now)) }
{
    out.push_all(b"<ds:Reference Type=\"http://uri.etsi.org/01903#SignedProperties\" URI=\"#")?;
    put_quoted(out, draft.id())?;
    out.push_all(
        b"-sp\"><ds:Transforms><ds:Transform Algorithm=\"http://www.w3.org/2001/10/xml-exc-c14n#\"></ds:Transform></ds:Transforms>",
    )?;
    put_digest(alloc, out, Standing::InSignature, draft.digest(), digest)?;
    out.push_all(b"</ds:Reference>")
}
