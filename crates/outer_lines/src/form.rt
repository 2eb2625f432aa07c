//! The canonicalization methods of SignedInfo and of time-stamps (XML Signature 1.1, section 4.4.1; EN 319 132-1, clause 5.1.4).

ghost use Rattle.std.specs.Prelude.{◌≡◌, IfSome, is_none};
ghost use Rattle.doc_spans.specs.Seen.{Has, document_in};
ghost use Rattle.signature_elements.specs.Standing.{spot_of, spot_or_none, IsThere};
ghost use Rattle.signature_model.specs.Holding.{with_stray_text};
ghost use Rattle.signature_model.specs.Parts.{form_in};
ghost use Rattle.signature_model.specs.Shape.{form_line, stamp_methods};
ghost use Rattle.outer_lines.specs.LineParts.{formless};
ghost use Rattle.signature_parts.specs.Places.{Adds, IsFirst, IsWithin};

use canon_methods::read_form;
use doc_spans::{Doc, NodeId};
use signature_parts::{FirstPlace, StampElements, method, stamp_method};

/// The first method that names none of the four canonical forms, or that holds text beside its elements where it is a time-stamp's.
pub fn form_line(doc: Doc<'_>, signature: NodeId) -> FirstPlace
    requires { IsThere doc signature }
    ensures { IsFirst doc.entry (form_line (document_in doc.entry) (spot_of doc.entry signature)) result }
{
    let mut places = FirstPlace::none();
    add_stray_methods(&mut places, doc, signature);
    add_without_form(&mut places, doc, method(doc, signature));
    add_formless_methods(&mut places, doc, signature);
    places
}

// The method, where it names no canonical form.
fn add_without_form(places: &mut FirstPlace, doc: Doc<'_>, method: Option<NodeId>)
    requires within { IsWithin doc places.old }
    requires method { IfSome method (IsThere doc) }
    ensures { Adds doc.entry (formless (document_in doc.entry) (spot_or_none doc.entry method)) places.old places.new }
{
    if let Some(node) = method {
        places.add_where(doc, node, is_formless(doc, node));
    }
}

fn is_formless(doc: Doc<'_>, method: NodeId) -> bool
    requires { IsThere doc method }
    ensures { result ≡ is_none (form_in (document_in doc.entry) (spot_of doc.entry method)) }
{
    read_form(doc, method).is_none()
}

fn add_stray_methods(places: &mut FirstPlace, doc: Doc<'_>, signature: NodeId)
    requires within { IsWithin doc places.old }
    requires signature { Has doc signature }
    ensures { let document = document_in doc.entry in
        Adds doc.entry (with_stray_text document (stamp_methods document (spot_of doc.entry signature))) places.old places.new }
{
    for stamp in StampElements::of(doc, signature) {
        places.add_with_stray_text(doc, stamp_method(doc, stamp));
    }
}

fn add_formless_methods(places: &mut FirstPlace, doc: Doc<'_>, signature: NodeId)
    requires within { IsWithin doc places.old }
    requires signature { Has doc signature }
    ensures { let document = document_in doc.entry in
        Adds doc.entry (formless document (stamp_methods document (spot_of doc.entry signature))) places.old places.new }
{
    for stamp in StampElements::of(doc, signature) {
        add_without_form(places, doc, stamp_method(doc, stamp));
    }
}
