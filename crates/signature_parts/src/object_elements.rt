//! The objects of a signature that hold its qualifying properties (EN 319 132-1, clause 4.4).

ghost use Rattle.std.specs.Prelude.{◌≡◌, codes};
ghost use Rattle.doc_spans.specs.Seen.{Has, document_in};
ghost use Rattle.signature_elements.specs.NamedLeft.{called_doc, called_left};
ghost use Rattle.signature_elements.specs.Standing.{spot_of};
ghost use Rattle.signature_model.specs.Spots.{first};
ghost use Rattle.signature_model.specs.Parts.{objects, is_qualifying, qualifying_objects};
ghost use Rattle.signature_parts.specs.Parts.{IsPart};

use doc_spans::{Doc, NodeId};
use signature_elements::{NamedElements, called, ds, first_called, xades};

/// The `Object` elements of a signature.
pub fn objects<'a>(doc: Doc<'a>, signature: NodeId) -> NamedElements<'a, 'static>
    requires { Has doc signature }
    ensures doc { called_doc result ≡ doc.entry }
    ensures spots { called_left result ≡ objects (document_in doc.entry) (spot_of doc.entry signature) }
{
    called(doc, signature, ds("Object"))
}

/// Whether an object holds qualifying properties.
pub fn is_qualifying(doc: Doc<'_>, object: NodeId) -> bool
    requires { Has doc object }
    ensures { result ≡ is_qualifying (document_in doc.entry) (spot_of doc.entry object) }
{
    first_called(doc, object, xades("QualifyingProperties")).is_some()
}

/// The objects of a signature that hold qualifying properties and are still to come, in document order. It takes no memory.
#[derive(Drop)]
pub struct QualifyingObjects<'a> {
    doc: Doc<'a>,
    objects: NamedElements<'a, 'static>,
    ghost same: { called_doc objects ≡ doc },
}

impl<'a> QualifyingObjects<'a> {
    ghost use Rattle.signature_parts.specs.QualifyingLeft.{qualifying_doc, qualifying_left};

    /// Those of a signature.
    pub fn of(doc: Doc<'a>, signature: NodeId) -> QualifyingObjects<'a>
        requires { Has doc signature }
        ensures doc { qualifying_doc result ≡ doc.entry }
        ensures spots { qualifying_left result ≡ qualifying_objects (document_in doc.entry) (spot_of doc.entry signature) }
    {
        QualifyingObjects {
            doc,
            objects: objects(doc, signature),
        }
    }
}

impl<'a> Iterator for QualifyingObjects<'a> {
    type Item = NodeId;

    ghost use Rattle.signature_elements.specs.Standing.{GivesSpot, spots_count};
    ghost use Rattle.signature_parts.specs.QualifyingLeft.{qualifying_doc, qualifying_left};

    ghost next_gives = { GivesSpot qualifying_doc qualifying_left };

    ghost remaining = { spots_count qualifying_left };

    fn next(&mut self) -> Option<NodeId> {
        'objects: while let Some(node) = self.objects.next() {
            if is_qualifying(self.doc, node) {
                return Some(node);
            }
        }
        None
    }
}

/// The first object that holds qualifying properties.
pub fn first_qualifying_object(doc: Doc<'_>, signature: NodeId) -> Option<NodeId>
    requires { Has doc signature }
    ensures { IsPart doc.entry (first (qualifying_objects (document_in doc.entry) (spot_of doc.entry signature))) result }
{
    QualifyingObjects::of(doc, signature).next()
}
