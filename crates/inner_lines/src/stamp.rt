//! The time-stamps.

ghost use Rattle.std.specs.Prelude.{◌≡◌, IfSome, codes, filter, not};
ghost use Rattle.doc_spans.specs.Seen.{Has, document_in};
ghost use Rattle.signature_elements.specs.Standing.{spot_of, spot_or_none, IsThere};
ghost use Rattle.signature_model.specs.Shape.{is_in_stamp, stamp_line};
ghost use Rattle.signature_model.specs.Spots.{is_called, elements_in, paths};
ghost use Rattle.signature_model.specs.Vocabulary.{ds, xades};
ghost use Rattle.signature_parts.specs.Places.{Adds, IsFirst, IsWithin};
ghost use Rattle.inner_lines.specs.LineParts.{stamp_faults};

use doc_spans::{Doc, NodeId};
use signature_elements::{ds, elements, is_called, xades};
use signature_parts::{FirstPlace, StampElements, token_element};

/// Each time-stamp holds one `EncapsulatedTimeStamp`, perhaps a `CanonicalizationMethod`, and `Include` elements, which are judged apart
/// (EN 319 132-1, clause 5.1.4).
pub fn stamp_line(doc: Doc<'_>, signature: NodeId) -> FirstPlace
    requires { Has doc signature }
    ensures { IsFirst doc.entry (stamp_line (document_in doc.entry) (spot_of doc.entry signature)) result }
{
    let mut place = FirstPlace::none();
    for stamp in StampElements::of(doc, signature) {
        add_stamp(&mut place, doc, stamp);
    }
    place
}

fn add_stamp(place: &mut FirstPlace, doc: Doc<'_>, stamp: NodeId)
    requires within { IsWithin doc place.old }
    requires there { IsThere doc stamp }
    ensures { Adds doc.entry (stamp_faults (document_in doc.entry) (spot_or_none doc.entry (Some stamp))) place.old place.new }
{
    place.add_with_stray_text(doc, Some(stamp));
    place.add_further(doc, ds("CanonicalizationMethod"), Some(stamp));
    place.add_not_one(doc, xades("EncapsulatedTimeStamp"), Some(stamp));
    add_others(place, doc, stamp);
    place.add_without_value(doc, token_element(doc, stamp));
}

// The children that may not stand in a time-stamp.
fn add_others(place: &mut FirstPlace, doc: Doc<'_>, stamp: NodeId)
    requires within { IsWithin doc place.old }
    requires there { IsThere doc stamp }
    ensures { Adds doc.entry (paths (filter (λ child. not (is_in_stamp child)) (elements_in (document_in doc.entry) (spot_of doc.entry stamp)))) place.old place.new }
{
    for child in elements(doc, stamp) {
        place.add_where(doc, child, !is_in_stamp(doc, child));
    }
}

fn is_in_stamp(doc: Doc<'_>, child: NodeId) -> bool
    requires { IsThere doc child }
    ensures { result ≡ is_in_stamp (spot_of doc.entry child) }
{
    is_method(doc, child) || is_token(doc, child) || is_include(doc, child)
}

fn is_method(doc: Doc<'_>, child: NodeId) -> bool
    requires { IsThere doc child }
    ensures { result ≡ is_called (ds (codes "CanonicalizationMethod")) (spot_of doc.entry child) }
{
    is_called(doc, child, ds("CanonicalizationMethod"))
}

fn is_token(doc: Doc<'_>, child: NodeId) -> bool
    requires { IsThere doc child }
    ensures { result ≡ is_called (xades (codes "EncapsulatedTimeStamp")) (spot_of doc.entry child) }
{
    is_called(doc, child, xades("EncapsulatedTimeStamp"))
}

fn is_include(doc: Doc<'_>, child: NodeId) -> bool
    requires { IsThere doc child }
    ensures { result ≡ is_called (xades (codes "Include")) (spot_of doc.entry child) }
{
    is_called(doc, child, xades("Include"))
}
