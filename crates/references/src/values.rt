//! The digests that References tell (XML Signature 1.1, sections 4.4.3.5 and 4.4.3.6).

ghost use Rattle.std.specs.Prelude.{◌≡◌, ◌<◌, ◌^◌, ◌∷◌, [], length, None, IfErr, IfOk, IfSome, OnOk};
ghost use Rattle.std.specs.List.{All};
ghost use Rattle.doc_spans.specs.Seen.{document_in};
ghost use Rattle.signature_elements.specs.Standing.{spot_of, IsThere};
ghost use Rattle.signature_model.specs.Chains.{first_of, no_digest};
ghost use Rattle.signature_model.specs.Parts.{digest_values, octets_or_none};
ghost use Rattle.reference_chains.specs.References.{IsReference};
ghost use Rattle.references.specs.Answers.{IsFault};
ghost use Rattle.references.specs.Found.{reference_spots, AreRows};

use crate::faults::RefFault;
use crate::rows::Row;
use doc_spans::{Doc, NodeId};
use qualifying_props::octets_or_none;
use reference_chains::{Reference, digest_kind_of};
use signature_parts::digest_value;
use std::alloc::Global;
use xa_io::{Octs, OutOfMemory};

// The octets of a Reference's DigestValue: none where there is none, or where its text isn't base64.
fn value_of(alloc: Global, doc: Doc<'_>, reference: NodeId) -> Result<Octs, OutOfMemory>
    requires { IsThere doc reference }
    ensures { IfOk result (λ octets. octets ≡ octets_or_none (document_in doc.entry) (digest_values (document_in doc.entry) (spot_of doc.entry reference ∷ []))) }
{
    octets_or_none(alloc, doc, digest_value(doc, Some(reference)))
}

// The References with their digests, or the first whose digest method isn't known.
pub(crate) fn digest_all(
    alloc: Global,
    doc: Doc<'_>,
    all: &[Reference],
) -> Result<Vec<Row>, RefFault>
    requires each { All (IsReference doc) all.now }
    requires few { length all.now < 2 ^ 32 }
    ensures rows { IfOk result (λ rows. AreRows doc.entry (reference_spots doc.entry all.now) rows.items) }
    ensures none { OnOk result (first_of (no_digest (document_in doc.entry)) 1 (reference_spots doc.entry all.now) ≡ None) }
    ensures err { IfErr result (IsFault (first_of (no_digest (document_in doc.entry)) 1 (reference_spots doc.entry all.now))) }
{
    let mut rows = Vec::new(alloc);
    for (number, reference) in all.iter().enumerate() {
        let reference = *reference;
        let Some(kind) = digest_kind_of(doc, reference.node) else {
            return Err(RefFault::DigestName {
                k: number as u32 + 1,
            });
        };
        let value = value_of(alloc, doc, reference.node)?;
        let row = Row {
            reference,
            kind,
            value,
        };
        let Ok(_) = rows.push(row) else {
            return Err(RefFault::OutOfMemory);
        };
    }
    Ok(rows)
}
