//! A set as it is written by a form, from its apex down.

ghost use Rattle.std.specs.Prelude.{◌≡◌, true, false, IfSome, IfNone};
ghost use Rattle.document_model.specs.Canonical.{in_form};
ghost use Rattle.doc_spans.specs.Seen.{Has, path_in};
ghost use Rattle.doc_spans.specs.Shown.{outer_path};
ghost use Rattle.node_sets.specs.Sets.{set_in, doc_in};
ghost use Rattle.canon_methods.specs.Rules.{rule_in};
ghost use Rattle.canon_methods.specs.Forms.{form_in};
ghost use Rattle.canon_forms.specs.Writing.{is_at_top, IsReached};
ghost use Rattle.canon_forms.specs.Walks.{doc_of, held_in, holds, keeps_kind};

use canon_methods::{Form, Rule};
use doc_spans::{Doc, Kind, NodeId};
use node_sets::NodeSet;

// The set that is written, without comments where the form writes none, and which namespace declarations are.
#[derive(Clone, Copy)]
pub(crate) struct Walk<'a, 'p> {
    pub(crate) set: NodeSet<'a>,
    pub(crate) rule: Rule<'p>,
}

impl<'a, 'p> Walk<'a, 'p> {
    pub(crate) fn of(set: &NodeSet<'a>, form: &Form<'p>) -> Walk<'a, 'p>
        ensures doc { doc_of result ≡ doc_in set.now }
        ensures held { held_in result ≡ in_form (form_in form.now) (set_in set.now) }
        ensures rule { rule_in result.rule ≡ (form_in form.now).rule }
    {
        let rule = form.rule();
        if form.has_comments() {
            return Walk { set: *set, rule };
        }
        Walk {
            set: set.without_comments(),
            rule,
        }
    }

    pub(crate) fn doc(&self) -> Doc<'a>
        ensures { result ≡ doc_of self.now }
    {
        self.set.doc()
    }

    // The apex, where an element holds it.
    pub(crate) fn deep_apex(&self) -> Option<NodeId>
        ensures some { IfSome result (λ apex. Has (doc_of self.now) apex × (path_in (doc_of self.now) apex ≡ (held_in self.now).apex) × (is_at_top (held_in self.now).apex ≡ false)) }
        ensures none { IfNone result (is_at_top (held_in self.now).apex ≡ true) }
    {
        let apex = match self.set.apex() {
            Some(apex) => apex,
            None => return None,
        };
        match self.doc().parent(apex) {
            Some(_) => Some(apex),
            None => None,
        }
    }

    // Whether the set holds the node.
    pub(crate) fn has(&self, node: NodeId) -> bool
        requires { Has (doc_of self.now) node }
        ensures { result ≡ holds self.now node }
    {
        self.set.has(node)
    }

    // The same where the set reaches the node that holds it.
    pub(crate) fn has_below(&self, node: NodeId) -> bool
        requires has { Has (doc_of self.now) node }
        requires reached { IsReached (held_in self.now) (outer_path (path_in (doc_of self.now) node)) }
        ensures { result ≡ holds self.now node }
    {
        let is_kept = self.has_kind(node);
        is_kept && !self.set.is_removed(node)
    }

    // Whether it is no comment, or the set has comments.
    fn has_kind(&self, node: NodeId) -> bool
        requires { Has (doc_of self.now) node }
        ensures { result ≡ keeps_kind self.now node }
    {
        let is_comment = matches!(self.doc().kind(node), Kind::Comment);
        self.set.keeps_comments() || !is_comment
    }
}
