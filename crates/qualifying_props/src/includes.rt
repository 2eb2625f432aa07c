//! Time-stamps that say by `Include` what they cover (EN 319 132-1, clause 5.1.4), which is refused.

ghost use Rattle.std.specs.Prelude.{◌≡◌};
ghost use Rattle.doc_spans.specs.Seen.{document_in};
ghost use Rattle.signature_elements.specs.Standing.{spot_of, IsThere};
ghost use Rattle.signature_model.specs.Parts.{includes};
ghost use Rattle.signature_model.specs.Spots.{paths};
ghost use Rattle.signature_parts.specs.Places.{IsFirst};

use doc_spans::{Doc, NodeId};
use signature_elements::{called, xades};
use signature_parts::{FirstPlace, StampElements};

// The first `Include` of a signature's time-stamps.
pub(crate) fn first_include(doc: Doc<'_>, signature: NodeId) -> FirstPlace
    requires { IsThere doc signature }
    ensures { IsFirst doc.entry (paths (includes (document_in doc.entry) (spot_of doc.entry signature))) result }
{
    let mut place = FirstPlace::none();
    for stamp in StampElements::of(doc, signature) {
        place.add_all(doc, called(doc, stamp, xades("Include")));
    }
    place
}
