//! The canonical forms in which signed and stamped elements are written (XML Signature 1.1, section 4.4.1; EN 319 132-1, clause 5.1.4).

ghost use Rattle.std.specs.Prelude.{◌≡◌, unwrap_or};
ghost use Rattle.canon_forms.specs.Forms as forms;
ghost use Rattle.doc_spans.specs.Seen.{document_in};
ghost use Rattle.signature_elements.specs.Standing.{spot_of, IsThere};
ghost use Rattle.signature_model.specs.Octets.{next_form};
ghost use Rattle.signature_model.specs.Parts.{form_in, plain_form, stamp_form};

use canon_forms::{Form, Prefixes, read_form};
use doc_spans::{Doc, NodeId};
use signature_parts::stamp_method;

// Canonical XML 1.0 without comments.
const PLAIN: Form<'static> = Form::Inclusive { comments: false };

// The form that a method names; the plain one where it names none.
pub(crate) fn method_form<'a>(doc: Doc<'a>, method: NodeId) -> Form<'a>
    requires { IsThere doc method }
    ensures { forms.form_in result ≡ unwrap_or (form_in (document_in doc.entry) (spot_of doc.entry method)) plain_form }
{
    match read_form(doc, method) {
        Some(form) => form,
        None => PLAIN,
    }
}

// The form of a time-stamp: that of its own method, and the plain one where it has none.
pub(crate) fn stamp_form<'a>(doc: Doc<'a>, property: NodeId) -> Form<'a>
    requires { IsThere doc property }
    ensures { forms.form_in result ≡ stamp_form (document_in doc.entry) (spot_of doc.entry property) }
{
    match stamp_method(doc, property) {
        Some(method) => method_form(doc, method),
        None => PLAIN,
    }
}

// The form of the next time-stamp: exclusive, without comments.
pub(crate) fn next_form() -> Form<'static>
    ensures { forms.form_in result ≡ next_form }
{
    Form::Exclusive {
        comments: false,
        prefixes: Prefixes::none(),
    }
}
