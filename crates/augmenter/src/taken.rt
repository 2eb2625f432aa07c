//! Whether identifiers that a signature would have are in a document.

ghost use Rattle.std.specs.Prelude.{◌≡◌, ◌++◌, ◌+◌, ◌<◌, ◌^◌, string_bytes, IfOk, length};
ghost use Rattle.std.specs.Str.{chars};
ghost use Rattle.doc_spans.specs.declared.documents.Doc.{Doc};
ghost use Rattle.doc_spans.specs.Seen.{document_in};
ghost use Rattle.node_index.specs.Identifiers.{AreOf};
ghost use Rattle.prepared_documents.specs.Tests.{id_taken, is_taken, references_taken};
ghost use Rattle.signature_model.specs.Prepared.{properties_id, reference_id};

use itoa::Buffer;
use node_index::Identifiers;
use node_sets::IdAnswer;
use signature_drafts::Draft;
use std::alloc::Global;
use xa_io::OutOfMemory;

// Whether an identifier is in the document.
fn is_taken(identifiers: &Identifiers, identifier: &str) -> bool
    ensures { (doc : Doc) → AreOf doc identifiers.now → result ≡ is_taken (document_in doc) (chars identifier.now) }
{
    !matches!(identifiers.find(identifier), IdAnswer::Absent)
}

// Three texts as one.
fn joined(alloc: Global, front: &str, middle: &str, end: &str) -> Result<String, OutOfMemory>
    ensures { IfOk result (λ text. string_bytes text ≡ front.now ++ middle.now ++ end.now) }
{
    let Ok(mut text) = String::from_str(alloc, front) else {
        return Err(OutOfMemory);
    };
    let Ok(()) = text.push_str(middle) else {
        return Err(OutOfMemory);
    };
    match text.push_str(end) {
        Ok(()) => Ok(text),
        Err(_) => Err(OutOfMemory),
    }
}

// Whether the identifier of the signed properties is in the document.
fn are_properties_taken(
    alloc: Global,
    identifiers: &Identifiers,
    id: &str,
) -> Result<bool, OutOfMemory>
    ensures { (doc : Doc) → AreOf doc identifiers.now → IfOk result (λ taken. taken ≡ is_taken (document_in doc) (properties_id (chars id.now))) }
{
    let identifier = joined(alloc, id, "-sp", "")?;
    Ok(is_taken(identifiers, identifier.as_str()))
}

// Whether the identifier of a Reference is in the document, by the Reference's number from 1.
fn is_reference_taken(
    alloc: Global,
    identifiers: &Identifiers,
    id: &str,
    k: u32,
) -> Result<bool, OutOfMemory>
    ensures { (doc : Doc) → AreOf doc identifiers.now → IfOk result (λ taken. taken ≡ is_taken (document_in doc) (reference_id (chars id.now) k)) }
{
    let mut buffer = Buffer::new();
    let identifier = joined(alloc, id, "-r", buffer.format(k))?;
    Ok(is_taken(identifiers, identifier.as_str()))
}

// Whether the identifier of one of the References that are asked for is in the document.
fn are_references_taken(
    alloc: Global,
    identifiers: &Identifiers,
    draft: &Draft,
) -> Result<bool, OutOfMemory>
    requires { length draft.now.references < 2 ^ 32 }
    ensures { (doc : Doc) → AreOf doc identifiers.now → IfOk result (λ taken. taken ≡ references_taken (document_in doc) draft.now 1 draft.now.references) }
{
    for number in 0..draft.refs() {
        if is_reference_taken(alloc, identifiers, draft.id(), number as u32 + 1)? {
            return Ok(true);
        }
    }
    Ok(false)
}

/// Whether an identifier that the signature of a draft would have is in the document.
pub(crate) fn is_any_taken(
    alloc: Global,
    identifiers: &Identifiers,
    draft: &Draft,
) -> Result<bool, OutOfMemory>
    requires { length draft.now.references < 2 ^ 32 }
    ensures { (doc : Doc) → AreOf doc identifiers.now → IfOk result (λ taken. taken ≡ id_taken (document_in doc) draft.now) }
{
    if is_taken(identifiers, draft.id()) {
        return Ok(true);
    }
    if are_properties_taken(alloc, identifiers, draft.id())? {
        return Ok(true);
    }
    are_references_taken(alloc, identifiers, draft)
}
