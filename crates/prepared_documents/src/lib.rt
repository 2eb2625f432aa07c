//! The document that is prepared for signing: what its signature covers, that it is read, and that its digests are right.
//!
//! The definitions stand in `specs/`; the prepared document itself is signature_model's `prepared`. Each function here has an empty body, and
//! its contract is a law. All are on trees but `prepared_bytes_are_right`.
#![tactic(auto)]

ghost use Rattle.prepared_documents.specs.Bytes.{PreparedBytesAreRight};
ghost use Rattle.prepared_documents.specs.Covering.{CoversTheOriginal};
ghost use Rattle.prepared_documents.specs.Judged.{CertificateIsFirst, DigestsAreRight, MethodIsTheDrafts, ReferencesAreSound};
ghost use Rattle.prepared_documents.specs.PreparedRead.{PreparedIsRead, PreparedTakesAValue};
ghost use Rattle.prepared_documents.specs.TakenAway.{TakesAway};
ghost use Rattle.prepared_documents.specs.Tests.{TestsDecide};

/// Where an element is put last into another one, the whole document without it is the document as it was, in its nodes and in its text by
/// each canonical form. So a Reference to the whole document is over the original one, by the enveloped signature transform (XML Signature
/// 1.1, "Enveloped Signature Transform").
pub fn element_is_taken_away()
    ensures { TakesAway }
{}

/// The signature of a prepared document covers the octets that its URIs name in the original document, in their order, then its
/// SignedProperties, and nothing else.
pub fn prepared_covers_the_original()
    ensures { CoversTheOriginal }
{}

/// A prepared document is read, with the new signature, which has no value yet and is free.
pub fn prepared_is_read()
    ensures { PreparedIsRead }
{}

/// The new signature takes a value, any one.
pub fn prepared_takes_a_value()
    ensures { PreparedTakesAValue }
{}

/// Where the octets of external References are handed in, no Reference of a prepared document has a fault.
pub fn references_are_sound()
    ensures { ReferencesAreSound }
{}

/// Each Reference of a prepared document has the digest that it tells, the one to the SignedProperties too.
pub fn digests_are_right()
    ensures { DigestsAreRight }
{}

/// The signing certificate of a prepared document is the first certificate of the draft.
pub fn certificate_is_first()
    ensures { CertificateIsFirst }
{}

/// The SignatureMethod of a prepared document is the draft's.
pub fn method_is_the_drafts()
    ensures { MethodIsTheDrafts }
{}

/// All of this holds of the document that the prepared bytes spell, unless these pass the limit on depth or nodes, which their fault then
/// tells.
pub fn prepared_bytes_are_right()
    ensures { PreparedBytesAreRight }
{}

/// The tests before a signature is prepared (no signature yet, each target there once and not the document element by its identifier, new
/// identifiers) pass exactly where the document may be prepared.
pub fn tests_decide()
    ensures { TestsDecide }
{}
