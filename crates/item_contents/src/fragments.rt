//! Items as they are written (EN 319 132-1, clauses 5.3, 5.4 and 5.5).

ghost use Rattle.std.specs.Prelude.{◌≡◌, ◌++◌, true, OnOk, map};
ghost use Rattle.der_values.specs.Distinct.{octets};
ghost use Rattle.signature_model.specs.Fragments.{written_octets, encoded, stamp_fragment, archive_fragment, certificates_fragment, lists_fragment, data_fragment};
ghost use Rattle.item_contents.specs.Contents.{certificate_elements, list_elements, fragment_by};
ghost use Rattle.item_contents.specs.Items.{item_of};

use crate::items::Item;
use signature_drafts::put_base64;
use std::alloc::Global;
use xa_io::{Octs, OutOfMemory};

// Appends octets in base64 between two texts.
fn put_between(
    alloc: Global,
    out: &mut Octs,
    before: &[u8],
    octets: &[u8],
    after: &[u8],
) -> Result<(), OutOfMemory>
    ensures { OnOk result (out.new ≡ out.old ++ (before.now ++ (written_octets (encoded octets.now) ++ after.now))) }
{
    out.push_all(before)?;
    put_base64(alloc, out, octets)?;
    out.push_all(after)
}

// Appends a `SignatureTimeStamp`.
fn put_stamp(alloc: Global, out: &mut Octs, token: &[u8]) -> Result<(), OutOfMemory>
    ensures { OnOk result (out.new ≡ out.old ++ written_octets (stamp_fragment token.now)) }
{
    put_between(
        alloc,
        out,
        b"<xades:SignatureTimeStamp xmlns:xades=\"http://uri.etsi.org/01903/v1.3.2#\"><ds:CanonicalizationMethod xmlns:ds=\"http://www.w3.org/2000/09/xmldsig#\" Algorithm=\"http://www.w3.org/2001/10/xml-exc-c14n#\"></ds:CanonicalizationMethod><xades:EncapsulatedTimeStamp>",
        token,
        b"</xades:EncapsulatedTimeStamp></xades:SignatureTimeStamp>",
    )
}

// Appends an `ArchiveTimeStamp`.
fn put_archive(alloc: Global, out: &mut Octs, token: &[u8]) -> Result<(), OutOfMemory>
    ensures { OnOk result (out.new ≡ out.old ++ written_octets (archive_fragment token.now)) }
{
    put_between(
        alloc,
        out,
        b"<xadesv141:ArchiveTimeStamp xmlns:xadesv141=\"http://uri.etsi.org/01903/v1.4.1#\"><ds:CanonicalizationMethod xmlns:ds=\"http://www.w3.org/2000/09/xmldsig#\" Algorithm=\"http://www.w3.org/2001/10/xml-exc-c14n#\"></ds:CanonicalizationMethod><xades:EncapsulatedTimeStamp xmlns:xades=\"http://uri.etsi.org/01903/v1.3.2#\">",
        token,
        b"</xades:EncapsulatedTimeStamp></xadesv141:ArchiveTimeStamp>",
    )
}

// Appends an `EncapsulatedX509Certificate` for each certificate.
fn put_each_certificate(
    alloc: Global,
    out: &mut Octs,
    certificates: &[&[u8]],
) -> Result<(), OutOfMemory>
    ensures { OnOk result (out.new ≡ out.old ++ written_octets (certificate_elements (map octets certificates.now))) }
{
    for certificate in certificates {
        put_between(
            alloc,
            out,
            b"<xades:EncapsulatedX509Certificate>",
            certificate,
            b"</xades:EncapsulatedX509Certificate>",
        )?;
    }
    Ok(())
}

// Appends the `CertificateValues` with some certificates; nothing where there are none.
fn put_certificates(
    alloc: Global,
    out: &mut Octs,
    certificates: &[&[u8]],
) -> Result<(), OutOfMemory>
    ensures { OnOk result (out.new ≡ out.old ++ written_octets (certificates_fragment (map octets certificates.now))) }
{
    if certificates.is_empty() {
        return Ok(());
    }
    out.push_all(b"<xades:CertificateValues xmlns:xades=\"http://uri.etsi.org/01903/v1.3.2#\">")?;
    put_each_certificate(alloc, out, certificates)?;
    out.push_all(b"</xades:CertificateValues>")
}

// Appends an `EncapsulatedCRLValue` for each revocation list.
fn put_each_list(alloc: Global, out: &mut Octs, lists: &[&[u8]]) -> Result<(), OutOfMemory>
    ensures { OnOk result (out.new ≡ out.old ++ written_octets (list_elements (map octets lists.now))) }
{
    for list in lists {
        put_between(
            alloc,
            out,
            b"<xades:EncapsulatedCRLValue>",
            list,
            b"</xades:EncapsulatedCRLValue>",
        )?;
    }
    Ok(())
}

// Appends the `RevocationValues` with some revocation lists; nothing where there are none.
fn put_lists(alloc: Global, out: &mut Octs, lists: &[&[u8]]) -> Result<(), OutOfMemory>
    ensures { OnOk result (out.new ≡ out.old ++ written_octets (lists_fragment (map octets lists.now))) }
{
    if lists.is_empty() {
        return Ok(());
    }
    out.push_all(
        b"<xades:RevocationValues xmlns:xades=\"http://uri.etsi.org/01903/v1.3.2#\"><xades:CRLValues>",
    )?;
    put_each_list(alloc, out, lists)?;
    out.push_all(b"</xades:CRLValues></xades:RevocationValues>")
}

// Appends both.
fn put_values(
    alloc: Global,
    out: &mut Octs,
    certificates: &[&[u8]],
    lists: &[&[u8]],
) -> Result<(), OutOfMemory>
    ensures { OnOk result (out.new ≡ out.old ++ written_octets (data_fragment true (map octets certificates.now) (map octets lists.now))) }
{
    put_certificates(alloc, out, certificates)?;
    put_lists(alloc, out, lists)
}

// Appends both, in a `TimeStampValidationData` unless they stand for themselves.
fn put_data(
    alloc: Global,
    out: &mut Octs,
    alone: bool,
    certificates: &[&[u8]],
    lists: &[&[u8]],
) -> Result<(), OutOfMemory>
    ensures { OnOk result (out.new ≡ out.old ++ written_octets (data_fragment alone (map octets certificates.now) (map octets lists.now))) }
{
    if alone {
        return put_values(alloc, out, certificates, lists);
    }
    out.push_all(
        b"<xadesv141:TimeStampValidationData xmlns:xadesv141=\"http://uri.etsi.org/01903/v1.4.1#\">",
    )?;
    put_values(alloc, out, certificates, lists)?;
    out.push_all(b"</xadesv141:TimeStampValidationData>")
}

// Appends what an item is without the elements around it; validation data stand for themselves or don't.
pub(crate) fn put_fragment(
    alloc: Global,
    out: &mut Octs,
    alone: bool,
    item: Item<'_>,
) -> Result<(), OutOfMemory>
    ensures { OnOk result (out.new ≡ out.old ++ written_octets (fragment_by alone (item_of item.entry))) }
{
    match item {
        Item::Value(value) => put_base64(alloc, out, value),
        Item::Stamp(token) => put_stamp(alloc, out, token),
        Item::Data {
            certificates,
            lists,
        } => put_data(alloc, out, alone, certificates, lists),
        Item::Archive(token) => put_archive(alloc, out, token),
    }
}
