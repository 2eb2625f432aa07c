//! The one signature of a document, or the first thing that is wrong.

ghost use Rattle.std.specs.Prelude.{◌≡◌, ◌∷◌, [], None, IfErr, IfOk, OnOk};
ghost use Rattle.doc_spans.specs.Seen.{document_in};
ghost use Rattle.signature_elements.specs.Standing.{spot_of, IsThere};
ghost use Rattle.signature_model.specs.Faults.{first_fault, first_place};
ghost use Rattle.signature_model.specs.Parts.{counted, includes};
ghost use Rattle.signature_model.specs.Readable as model;
ghost use Rattle.signature_model.specs.Readable.{Answer, Read, by_data, by_include, by_shape, bad_data};
ghost use Rattle.signature_model.specs.Shape.{shape_faults};
ghost use Rattle.signature_model.specs.Spots.{paths};
ghost use Rattle.qualifying_props.specs.Answers.{IsAnswer, IsFault};
ghost use Rattle.qualifying_props.specs.Nodes.{IsShaped};
ghost use Rattle.qualifying_props.specs.Collected.{ArePartsAt};
ghost use Rattle.qualifying_props.specs.Whole.{is_whole};

use crate::beginnings::beginning;
use crate::collecting::collect;
use crate::faults::PartFault;
use crate::includes::first_include;
use crate::parts::SignatureParts;
use doc_spans::{Doc, NodeId};
use signature_elements::{SignatureCount, counted};
use signature_shape::first_fault;
use std::alloc::Global;

fn judge_shape(alloc: Global, doc: Doc<'_>, signature: NodeId) -> Result<(), PartFault>
    requires { IsThere doc signature }
    ensures ok { OnOk result (IsShaped (document_in doc.entry) (spot_of doc.entry signature)) }
    ensures err { IfErr result (λ fault. (next : Answer) → IsFault doc.entry (by_shape next (first_fault (shape_faults (document_in doc.entry) (spot_of doc.entry signature)))) fault) }
{
    let found = first_fault(alloc, doc, signature)?;
    match found {
        Some(fault) => Err(PartFault::Shape {
            at: beginning(doc, fault.node),
            what: fault.what,
        }),
        None => Ok(()),
    }
}

fn judge_includes(doc: Doc<'_>, signature: NodeId) -> Result<(), PartFault>
    requires { IsThere doc signature }
    ensures ok { OnOk result (first_place (paths (includes (document_in doc.entry) (spot_of doc.entry signature))) ≡ None) }
    ensures err { IfErr result (λ fault. (next : Answer) → IsFault doc.entry (by_include next (first_place (paths (includes (document_in doc.entry) (spot_of doc.entry signature))))) fault) }
{
    match first_include(doc, signature).node() {
        Some(node) => Err(PartFault::Include {
            at: beginning(doc, node),
        }),
        None => Ok(()),
    }
}

// The parts of the only signature.
fn read_parts(alloc: Global, doc: Doc<'_>, signature: NodeId) -> Result<SignatureParts, PartFault>
    requires there { IsThere doc signature }
    requires only { counted (document_in doc) ≡ spot_of doc signature ∷ [] }
    ensures parts { IfOk result (ArePartsAt doc.entry signature) }
    ensures read { OnOk result (model.read_parts is_whole (document_in doc.entry) (spot_of doc.entry signature) ≡ Read (spot_of doc.entry signature)) }
    ensures err { IfErr result (IsFault doc.entry (model.read_parts is_whole (document_in doc.entry) (spot_of doc.entry signature))) }
{
    judge_shape(alloc, doc, signature)?;
    judge_includes(doc, signature)?;
    collect(alloc, doc, signature)
}

/// The one signature of a document with its parts, whose certificates, CRLs and tokens are whole objects of their kinds.
///
/// Signatures are elements `Signature` of XML Signature that have no such element around them. Err: the first of these that holds: there is
/// none; there are several; its shape is broken, at the first element where it is, and of several lines there the first; a time-stamp has
/// an `Include`; the text of a certificate, CRL or token isn't base64 of one whole object of its kind. Or memory could not be had. The work
/// is linear in the document.
pub fn read_signature(alloc: Global, doc: Doc<'_>) -> Result<SignatureParts, PartFault>
    ensures { IsAnswer doc.entry result }
{
    match counted(doc) {
        SignatureCount::Nothing => Err(PartFault::NoSignature),
        SignatureCount::Several => Err(PartFault::Several),
        SignatureCount::One(signature) => read_parts(alloc, doc, signature),
    }
}
