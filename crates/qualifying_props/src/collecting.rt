//! The parts of a signature whose shape is sound.

ghost use Rattle.std.specs.Prelude.{◌≡◌, ◌∷◌, [], None, IfErr, IfOk, OnOk};
ghost use Rattle.doc_spans.specs.Seen.{document_in};
ghost use Rattle.signature_elements.specs.Standing.{spot_of, IsThere};
ghost use Rattle.signature_model.specs.Faults.{first_place};
ghost use Rattle.signature_model.specs.Parts.{counted};
ghost use Rattle.signature_model.specs.Readable.{by_data, bad_data};
ghost use Rattle.qualifying_props.specs.Answers.{IsFault};
ghost use Rattle.qualifying_props.specs.Collected.{AreValuesOf, IsSignerOf, ArePartsAt};
ghost use Rattle.qualifying_props.specs.Nodes.{IsShaped};
ghost use Rattle.qualifying_props.specs.Whole.{is_whole};

use crate::beginnings::beginning;
use crate::decoding::octets_or_none;
use crate::faults::PartFault;
use crate::lists::{has_values, object_nodes, reference_nodes};
use crate::method_names::method_name;
use crate::nodes::{cert_digest_kind, part_nodes};
use crate::parts::{SignatureParts, Signer, Values};
use crate::property::read_properties;
use crate::signer::signing_cert;
use crate::values::read_key_certs;
use doc_spans::{Doc, NodeId};
use signature_parts::{FirstPlace, certificate_digest, digest_value, value};
use std::alloc::Global;
use xa_io::{Octs, OutOfMemory};

// Certificates, CRLs and tokens, or the first that is bad.
fn read_values(alloc: Global, doc: Doc<'_>, signature: NodeId) -> Result<Values, PartFault>
    requires { IsThere doc signature }
    ensures values { IfOk result (AreValuesOf doc.entry (document_in doc.entry) (spot_of doc.entry signature)) }
    ensures none { OnOk result (first_place (bad_data is_whole (document_in doc.entry) (spot_of doc.entry signature)) ≡ None) }
    ensures err { IfErr result (IsFault doc.entry (by_data (spot_of doc.entry signature) (first_place (bad_data is_whole (document_in doc.entry) (spot_of doc.entry signature))))) }
{
    let mut bad = FirstPlace::none();
    let key_certs = read_key_certs(alloc, doc, signature, &mut bad)?;
    let properties = read_properties(alloc, doc, signature, &mut bad)?;
    match bad.node() {
        Some(node) => Err(PartFault::PropertyData {
            at: beginning(doc, node),
        }),
        None => Ok(Values {
            key_certs,
            properties,
        }),
    }
}

// The digest of the first Cert, and which certificate of KeyInfo has it.
fn read_signer(
    alloc: Global,
    doc: Doc<'_>,
    signature: NodeId,
    certs: &[Octs],
) -> Result<Signer, OutOfMemory>
    requires there { IsThere doc signature }
    requires shaped { IsShaped (document_in doc) (spot_of doc signature) }
    ensures { IfOk result (IsSignerOf (document_in doc.entry) (spot_of doc.entry signature) certs.now) }
{
    let kind = cert_digest_kind(doc, signature);
    let holder = certificate_digest(doc, signature);
    let digest = octets_or_none(alloc, doc, digest_value(doc, holder))?;
    let number = signing_cert(kind, digest.as_slice(), certs);
    Ok(Signer {
        kind,
        digest,
        number,
    })
}

// All parts.
pub(crate) fn collect(
    alloc: Global,
    doc: Doc<'_>,
    signature: NodeId,
) -> Result<SignatureParts, PartFault>
    requires there { IsThere doc signature }
    requires only { counted (document_in doc) ≡ spot_of doc signature ∷ [] }
    requires shaped { IsShaped (document_in doc) (spot_of doc signature) }
    ensures parts { IfOk result (ArePartsAt doc.entry signature) }
    ensures none { OnOk result (first_place (bad_data is_whole (document_in doc.entry) (spot_of doc.entry signature)) ≡ None) }
    ensures err { IfErr result (IsFault doc.entry (by_data (spot_of doc.entry signature) (first_place (bad_data is_whole (document_in doc.entry) (spot_of doc.entry signature))))) }
{
    let values = read_values(alloc, doc, signature)?;
    let signer = read_signer(alloc, doc, signature, values.key_certs.as_slice())?;
    Ok(SignatureParts {
        nodes: part_nodes(doc, signature),
        references: reference_nodes(alloc, doc, signature)?,
        objects: object_nodes(alloc, doc, signature)?,
        method: method_name(alloc, doc, signature)?,
        value: octets_or_none(alloc, doc, value(doc, signature))?,
        has_values: has_values(doc, signature),
        values,
        signer,
    })
}
