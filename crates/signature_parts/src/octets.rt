//! Whether an element's text is base64.

ghost use Rattle.std.specs.Prelude.{◌≡◌, is_some};
ghost use Rattle.doc_spans.specs.Seen.{Has, document_in};
ghost use Rattle.signature_elements.specs.Standing.{spot_of};
ghost use Rattle.signature_model.specs.Parts.{octets_in};

use base64_texts::Scanner;
use doc_spans::{Doc, NodeId, Piece};
use signature_elements::texts;

/// Whether an element's text is strict base64 with white space skipped (RFC 4648, section 4). It takes no memory.
pub fn has_octets(doc: Doc<'_>, node: NodeId) -> bool
    requires { Has doc node }
    ensures { result ≡ is_some (octets_in (document_in doc.entry) (spot_of doc.entry node)) }
{
    let mut scanner = Scanner::new();
    for piece in texts(doc, node) {
        match piece {
            Piece::Run(text) => scanner.push(text),
            Piece::One(c) => scanner.push_char(c),
        }
    }
    scanner.is_strict()
}
