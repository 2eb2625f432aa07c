//! Certificates, CRLs and tokens that stand in a signature (EN 319 132-1, clauses 5.3, 5.4 and 5.5): their octets, and the first that is
//! bad.

ghost use Rattle.std.specs.Prelude.{◌≡◌, ◌∷◌, [], IfOk, OnOk};
ghost use Rattle.doc_spans.specs.Seen.{document_in};
ghost use Rattle.signature_elements.specs.NamedLeft.{called_doc, called_left};
ghost use Rattle.signature_elements.specs.Standing.{spot_of, IsThere};
ghost use Rattle.signature_model.specs.Parts.{as_kind, key_certificates, Certificate};
ghost use Rattle.signature_parts.specs.Places.{Adds, IsWithin};
ghost use Rattle.qualifying_props.specs.Data.{datum_kind, octets_of, bad_places, Reads};

use crate::decoding::decode;
use crate::kinds::{DatumKind, is_whole};
use base64_texts::Base64Fault;
use doc_spans::{Doc, NodeId};
use signature_elements::{NamedElements, called, ds};
use signature_parts::{FirstPlace, key_data};
use std::alloc::Global;
use xa_io::{Octs, OutOfMemory};

// The octets of an element; none where its text isn't base64. A bad element is added to the others.
pub(crate) fn read_datum(
    alloc: Global,
    doc: Doc<'_>,
    kind: DatumKind,
    node: NodeId,
    bad: &mut FirstPlace,
) -> Result<Octs, OutOfMemory>
    requires within { IsWithin doc bad.old }
    requires there { IsThere doc node }
    ensures octets { IfOk result (λ octets. octets ≡ octets_of (document_in doc.entry) (record { kind = datum_kind kind; spot = spot_of doc.entry node })) }
    ensures bad { OnOk result (Adds doc.entry (bad_places (document_in doc.entry) (as_kind (datum_kind kind) (spot_of doc.entry node ∷ []))) bad.old bad.new) }
{
    match decode(alloc, doc, node) {
        Ok(octets) => {
            let is_bad = !is_whole(kind, octets.as_slice());
            bad.add_where(doc, node, is_bad);
            Ok(octets)
        }
        Err(Base64Fault::NotBase64 { .. }) => {
            bad.add(doc, node);
            Ok(Octs::new(alloc))
        }
        Err(Base64Fault::OutOfMemory) => Err(OutOfMemory),
    }
}

// Reads elements of one kind.
pub(crate) fn read_elements(
    alloc: Global,
    doc: Doc<'_>,
    kind: DatumKind,
    elements: NamedElements<'_, '_>,
    octets: &mut Vec<Octs>,
    bad: &mut FirstPlace,
) -> Result<(), OutOfMemory>
    requires within { IsWithin doc bad.old }
    requires same { called_doc elements ≡ doc }
    ensures { OnOk result (Reads doc.entry (as_kind (datum_kind kind) (called_left elements.entry)) octets.old.items octets.new.items bad.old bad.new) }
{
    for element in elements {
        let read = read_datum(alloc, doc, kind, element, bad)?;
        let Ok(_) = octets.push(read) else {
            return Err(OutOfMemory);
        };
    }
    Ok(())
}

// The certificates of KeyInfo (XML Signature 1.1, section 4.5.4).
pub(crate) fn read_key_certs(
    alloc: Global,
    doc: Doc<'_>,
    signature: NodeId,
    bad: &mut FirstPlace,
) -> Result<Vec<Octs>, OutOfMemory>
    requires within { IsWithin doc bad.old }
    requires there { IsThere doc signature }
    ensures { IfOk result (λ certs. Reads doc.entry (as_kind Certificate (key_certificates (document_in doc.entry) (spot_of doc.entry signature))) [] certs.items bad.old bad.new) }
{
    let mut certs = Vec::new(alloc);
    for holder in key_data(doc, signature) {
        let elements = called(doc, holder, ds("X509Certificate"));
        read_elements(
            alloc,
            doc,
            DatumKind::Certificate,
            elements,
            &mut certs,
            bad,
        )?;
    }
    Ok(certs)
}
