//! The canonical form that a method or a transform names.

ghost use Rattle.std.specs.Prelude.{◌≡◌, option_map};
ghost use Rattle.document_model.specs.Methods.{form_at, form_named, prefixes_among};
ghost use Rattle.doc_spans.specs.Pieces.{characters_left};
ghost use Rattle.doc_spans.specs.Seen.{Has, document_in, nodes_in, path_in};
ghost use Rattle.node_sets.specs.Scopes.{scope_of};
ghost use Rattle.canon_methods.specs.Rules.{prefixes_in};
ghost use Rattle.canon_methods.specs.Forms.{form_in};
ghost use Rattle.canon_methods.specs.Listed.{prefixes_listed};

use crate::forms::Form;
use crate::rules::Prefixes;
use doc_spans::{Doc, NodeId, Pieces};
use node_sets::{attribute, is_named};

const INCLUSIVE: &str = "http://www.w3.org/TR/2001/REC-xml-c14n-20010315";

const INCLUSIVE_WITH_COMMENTS: &str =
    "http://www.w3.org/TR/2001/REC-xml-c14n-20010315#WithComments";

const EXCLUSIVE: &str = "http://www.w3.org/2001/10/xml-exc-c14n#";

const EXCLUSIVE_WITH_COMMENTS: &str = "http://www.w3.org/2001/10/xml-exc-c14n#WithComments";

/// The canonical form that an element names as a method or a transform does, by its attribute `Algorithm`; none where the algorithm is
/// none of the four (XML Signature 1.1, section 6.5). Of an exclusive form the prefixes are those of the attribute `PrefixList` of its
/// first child `InclusiveNamespaces` (Exclusive XML Canonicalization 1.0, section 4). The element is of any name.
pub fn read_form<'a>(doc: Doc<'a>, method: NodeId) -> Option<Form<'a>>
    requires { Has doc method }
    ensures { option_map form_in result ≡ form_at (document_in doc.entry) (path_in doc.entry method) }
{
    match attribute(doc, method, "", "Algorithm") {
        Some(name) => form_of(name, listed_prefixes(doc, method)),
        None => None,
    }
}

// The form with a name, and with these prefixes where it is exclusive.
fn form_of<'a>(name: Pieces<'_>, prefixes: Prefixes<'a>) -> Option<Form<'a>>
    ensures { option_map form_in result ≡ form_named (prefixes_in prefixes.entry) (characters_left name.entry) }
{
    if name.same(INCLUSIVE) {
        Some(Form::Inclusive { comments: false })
    } else if name.same(INCLUSIVE_WITH_COMMENTS) {
        Some(Form::Inclusive { comments: true })
    } else if name.same(EXCLUSIVE) {
        Some(Form::Exclusive {
            comments: false,
            prefixes,
        })
    } else if name.same(EXCLUSIVE_WITH_COMMENTS) {
        Some(Form::Exclusive {
            comments: true,
            prefixes,
        })
    } else {
        None
    }
}

// The prefixes that the first `InclusiveNamespaces` in an element lists.
fn listed_prefixes<'a>(doc: Doc<'a>, method: NodeId) -> Prefixes<'a>
    requires { Has doc method }
    ensures { prefixes_in result ≡ prefixes_among (scope_of doc.entry method) (nodes_in doc.entry method) }
{
    for child in doc.children(method) {
        if is_named(doc, child, EXCLUSIVE, "InclusiveNamespaces") {
            return prefix_list(doc, child);
        }
    }
    Prefixes::none()
}

// The prefixes of an `InclusiveNamespaces`.
fn prefix_list<'a>(doc: Doc<'a>, node: NodeId) -> Prefixes<'a>
    requires { Has doc node }
    ensures { prefixes_in result ≡ prefixes_listed doc.entry node }
{
    match attribute(doc, node, "", "PrefixList") {
        Some(list) => Prefixes::of_list(list),
        None => Prefixes::none(),
    }
}
