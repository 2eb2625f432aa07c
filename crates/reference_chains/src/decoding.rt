//! The text of a set of nodes, decoded as base64.

ghost use Rattle.std.specs.Prelude.{◌≡◌, ℕ, List, IfOk};
ghost use Rattle.document_model.specs.NodeSets.{part};
ghost use Rattle.doc_spans.specs.Seen.{document_in};
ghost use Rattle.node_sets.specs.Sets.{set_in, doc_in};
ghost use Rattle.signature_model.specs.Chains.{texts};
ghost use Rattle.base64_texts.specs.Answers.{Decodes};
ghost use Rattle.base64_texts.specs.Scans.{scanned};
ghost use Rattle.reference_chains.specs.Decoding.{decoded};

use crate::set_texts::hand_on_set;
use base64_texts::{Base64Fault, Decoder, Scanner};
use node_sets::NodeSet;
use std::alloc::Global;
use xa_io::{Octs, OutOfMemory};

// The octets that the text of a set spells, and none where it isn't base64.
pub(crate) fn decode_set(alloc: Global, set: &NodeSet<'_>) -> Result<Octs, OutOfMemory>
    ensures { IfOk result (λ octets. octets ≡ decoded (texts (part (set_in set.now) (document_in (doc_in set.now))))) }
{
    let mut decoder = Decoder::new(alloc);
    hand_on_set(&mut decoder, set)?;
    or_none(alloc, decoder.finish())
}

// What was decoded, and no octets where the text isn't base64.
pub(crate) fn or_none(alloc: Global, found: Result<Octs, Base64Fault>) -> Result<Octs, OutOfMemory>
    ensures { (text : List ℕ) → Decodes text found → IfOk result (λ octets. octets ≡ decoded text) }
{
    match found {
        Ok(octets) => Ok(octets),
        Err(Base64Fault::NotBase64 { at: _ }) => Ok(Octs::new(alloc)),
        Err(Base64Fault::OutOfMemory) => Err(OutOfMemory),
    }
}

// A scanner that took the text of a set.
pub(crate) fn scan_set(set: &NodeSet<'_>) -> Scanner
    ensures { result ≡ scanned (texts (part (set_in set.now) (document_in (doc_in set.now)))) }
{
    let mut scanner = Scanner::new();
    match hand_on_set(&mut scanner, set) {
        Ok(()) => scanner,
        Err(never) => match never {},
    }
}
