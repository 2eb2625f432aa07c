//! The signed properties of the signature.

ghost use Rattle.std.specs.Prelude.{◌≡◌, ◌++◌, IfSome, codes, filter, is_none};
ghost use Rattle.doc_spans.specs.Seen.{Has, document_in};
ghost use Rattle.signature_elements.specs.Standing.{spot_of, spot_or_none, IsThere};
ghost use Rattle.signature_model.specs.Holding.{with_stray_text};
ghost use Rattle.signature_model.specs.Shape.{signed_line};
ghost use Rattle.signature_parts.specs.Places.{Adds, IsFirst, IsWithin};
ghost use Rattle.inner_lines.specs.LineParts.{digest_faults, nameless_methods, time_faults, certificate_faults};

use doc_spans::{Doc, NodeId};
use signature_elements::{digest_kind, ds, xades};
use signature_parts::{
    FirstPlace, certificate, certificate_digest, digest_method, digest_value, signed_properties,
    signed_signature_properties, signing_certificate_property, signing_time,
};

/// There is a `SigningTime` that isn't blank, and a `SigningCertificateV2`, in which the first `Cert` gives a digest by one of the three
/// functions, in base64 (EN 319 132-1, clauses 5.2.1 and 5.2.2).
pub fn signed_line(doc: Doc<'_>, signature: NodeId) -> FirstPlace
    requires { Has doc signature }
    ensures { IsFirst doc.entry (signed_line (document_in doc.entry) (spot_of doc.entry signature)) result }
{
    let properties = signed_signature_properties(doc, signature);
    let mut place = FirstPlace::none();
    place.add_with_stray_text(doc, properties);
    place.add_not_one(
        doc,
        xades("SignedSignatureProperties"),
        signed_properties(doc, signature),
    );
    add_time(&mut place, doc, properties, signing_time(doc, signature));
    place.add_not_one(doc, xades("SigningCertificateV2"), properties);
    add_certificate(
        &mut place,
        doc,
        signing_certificate_property(doc, signature),
        certificate(doc, signature),
        certificate_digest(doc, signature),
    );
    place
}

// The time.
fn add_time(place: &mut FirstPlace, doc: Doc<'_>, properties: Option<NodeId>, time: Option<NodeId>)
    requires within { IsWithin doc place.old }
    requires properties { IfSome properties (IsThere doc) }
    requires time { IfSome time (IsThere doc) }
    ensures { Adds doc.entry (time_faults (document_in doc.entry) (spot_or_none doc.entry properties) (spot_or_none doc.entry time)) place.old place.new }
{
    place.add_not_one(doc, xades("SigningTime"), properties);
    place.add_without_text(doc, time);
}

// What the property of the certificate holds.
fn add_certificate(
    place: &mut FirstPlace,
    doc: Doc<'_>,
    property: Option<NodeId>,
    certificate: Option<NodeId>,
    digest: Option<NodeId>,
)
    requires within { IsWithin doc place.old }
    requires property { IfSome property (IsThere doc) }
    requires certificate { IfSome certificate (IsThere doc) }
    requires digest { IfSome digest (IsThere doc) }
    ensures { Adds doc.entry (certificate_faults (document_in doc.entry) (spot_or_none doc.entry property) (spot_or_none doc.entry certificate) (spot_or_none doc.entry digest)) place.old place.new }
{
    place.add_with_stray_text(doc, property);
    place.add_with_stray_text(doc, certificate);
    place.add_with_stray_text(doc, digest);
    place.add_lacking(doc, xades("Cert"), property);
    place.add_lacking(doc, xades("CertDigest"), certificate);
    add_digest(place, doc, digest);
}

// The digest.
fn add_digest(place: &mut FirstPlace, doc: Doc<'_>, digest: Option<NodeId>)
    requires within { IsWithin doc place.old }
    requires digest { IfSome digest (IsThere doc) }
    ensures { Adds doc.entry (digest_faults (document_in doc.entry) (spot_or_none doc.entry digest)) place.old place.new }
{
    place.add_lacking(doc, ds("DigestMethod"), digest);
    add_nameless(place, doc, digest_method(doc, digest));
    place.add_lacking(doc, ds("DigestValue"), digest);
    place.add_without_octets(doc, digest_value(doc, digest));
}

// A method that names none of the digest functions.
fn add_nameless(place: &mut FirstPlace, doc: Doc<'_>, method: Option<NodeId>)
    requires within { IsWithin doc place.old }
    requires method { IfSome method (IsThere doc) }
    ensures { Adds doc.entry (nameless_methods (spot_or_none doc.entry method)) place.old place.new }
{
    if let Some(node) = method {
        place.add_where(doc, node, digest_kind(doc, node).is_none());
    }
}
