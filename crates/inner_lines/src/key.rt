//! The certificates of KeyInfo.

ghost use Rattle.std.specs.Prelude.{◌≡◌, not};
ghost use Rattle.doc_spans.specs.Seen.{Has, document_in};
ghost use Rattle.document_model.specs.Characters.{is_empty};
ghost use Rattle.signature_elements.specs.Standing.{spot_of, spot_or_none, IsThere};
ghost use Rattle.signature_model.specs.Parts.{key_certificates, key_data};
ghost use Rattle.signature_model.specs.Shape.{key_line};
ghost use Rattle.inner_lines.specs.LineParts.{key_data_faults, without_certificate};
ghost use Rattle.signature_parts.specs.Places.{Adds, IsFirst, IsWithin};

use doc_spans::{Doc, NodeId};
use signature_elements::{called, ds, first_called, first_in};
use signature_parts::{FirstPlace, key_data, key_info};

/// There is a certificate: an `X509Certificate` in an `X509Data` of `KeyInfo` (XML Signature 1.1, section 4.5.4).
pub fn key_line(doc: Doc<'_>, signature: NodeId) -> FirstPlace
    requires { Has doc signature }
    ensures { IsFirst doc.entry (key_line (document_in doc.entry) (spot_of doc.entry signature)) result }
{
    let info = key_info(doc, signature);
    let mut place = FirstPlace::none();
    place.add_with_stray_text(doc, info);
    place.add_lacking(doc, ds("X509Data"), info);
    add_data(&mut place, doc, signature);
    add_without_certificate(&mut place, doc, signature);
    place
}

// Those of the `X509Data` elements that hold stray text, and certificates in them that hold something else than text.
fn add_data(place: &mut FirstPlace, doc: Doc<'_>, signature: NodeId)
    requires within { IsWithin doc place.old }
    requires has { Has doc signature }
    ensures { Adds doc.entry (key_data_faults (document_in doc.entry) (key_data (document_in doc.entry) (spot_of doc.entry signature))) place.old place.new }
{
    for holder in key_data(doc, signature) {
        add_one_data(place, doc, holder);
    }
}

fn add_one_data(place: &mut FirstPlace, doc: Doc<'_>, holder: NodeId)
    requires within { IsWithin doc place.old }
    requires there { IsThere doc holder }
    ensures { Adds doc.entry (key_data_faults (document_in doc.entry) (spot_or_none doc.entry (Some holder))) place.old place.new }
{
    place.add_with_stray_text(doc, Some(holder));
    place.add_each_without_value(doc, called(doc, holder, ds("X509Certificate")));
}

// The first `X509Data`, where none has a certificate.
fn add_without_certificate(place: &mut FirstPlace, doc: Doc<'_>, signature: NodeId)
    requires within { IsWithin doc place.old }
    requires has { Has doc signature }
    ensures { Adds doc.entry (without_certificate (document_in doc.entry) (spot_of doc.entry signature)) place.old place.new }
{
    if !has_certificate(doc, signature) {
        place.add_part(doc, first_in(doc, key_info(doc, signature), ds("X509Data")));
    }
}

fn has_certificate(doc: Doc<'_>, signature: NodeId) -> bool
    requires { Has doc signature }
    ensures { result ≡ not (is_empty (key_certificates (document_in doc.entry) (spot_of doc.entry signature))) }
{
    for holder in key_data(doc, signature) {
        if first_called(doc, holder, ds("X509Certificate")).is_some() {
            return true;
        }
    }
    false
}
