//! Where the text that a chain decodes isn't base64.

ghost use Rattle.std.specs.Prelude.{◌≡◌, ℕ, List, option_map, option_and_then};
ghost use Rattle.doc_spans.specs.Seen.{Has, document_in, path_in};
ghost use Rattle.signature_model.specs.Chains.{chain, decoded_text, whole_text};
ghost use Rattle.signature_model.specs.Spots.{without_white};
ghost use Rattle.signature_elements.specs.Standing.{spot_of};
ghost use Rattle.base64_texts.specs.Scans.{scanned};
ghost use Rattle.reference_chains.specs.Decoding.{characters_of, fault_told};
ghost use Rattle.reference_chains.specs.HandedIn.{handed_in};
ghost use Rattle.reference_chains.specs.References.{IsReference};

use crate::chains::Made;
use crate::decoding::scan_set;
use crate::externals::Externals;
use crate::handing::handed_to;
use crate::references::{Reference, node_set_of};
use base64_texts::Scanner;
use doc_spans::{Doc, NodeId};

/// Where the text that a Reference's chain decodes stops to be base64, unless it is that: the length, in characters without white space,
/// of the longest prefix with which some strict base64 begins; each of these characters is ASCII. None where the chain decodes nothing.
/// The greatest `u32` stands for each place from there on. It takes no memory.
pub fn base64_fault(
    doc: Doc<'_>,
    signature: NodeId,
    reference: Reference,
    externals: &Externals,
) -> Option<u32>
    requires signature { Has doc signature }
    requires reference { IsReference doc reference }
    ensures { result ≡ option_and_then fault_told (decoded_text (whole_text (handed_in externals.now) (document_in doc.entry) (path_in doc.entry signature) (spot_of doc.entry reference.node)) (chain (document_in doc.entry) (spot_of doc.entry reference.node))) }
{
    match reference.chain.made {
        Made::Decoded => match scan_text(doc, signature, reference, externals) {
            Some(scanner) => fault_told(scanner),
            None => None,
        },
        _ => None,
    }
}

// A scanner that took the text of a Reference's nodes, or of the octets that are handed in.
fn scan_text(
    doc: Doc<'_>,
    signature: NodeId,
    reference: Reference,
    externals: &Externals,
) -> Option<Scanner>
    requires signature { Has doc signature }
    requires reference { IsReference doc reference }
    ensures { result ≡ option_map scanned (characters_of (handed_in externals.now) (document_in doc.entry) (path_in doc.entry signature) (spot_of doc.entry reference.node)) }
{
    match node_set_of(doc, signature, reference) {
        Some(set) => Some(scan_set(&set)),
        None => match handed_to(doc, reference, externals) {
            Some(octets) => Some(scan_octets(octets)),
            None => None,
        },
    }
}

fn scan_octets(octets: &[u8]) -> Scanner
    ensures { result ≡ scanned octets.now }
{
    let mut scanner = Scanner::new();
    scanner.push_octets(octets);
    scanner
}

// The place that a scanner tells, as far as it goes.
fn fault_told(scanner: Scanner) -> Option<u32>
    ensures { (text : List ℕ) → scanner ≡ scanned text → result ≡ fault_told (without_white text) }
{
    match scanner.fault() {
        Some(at) => Some(at.min(u32::MAX as usize) as u32),
        None => None,
    }
}
