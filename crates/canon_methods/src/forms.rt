//! Canonical forms.

ghost use Rattle.std.specs.Prelude.{◌≡◌};
ghost use Rattle.canon_methods.specs.Rules.{rule_in};

use crate::rules::{Prefixes, Rule};

/// A canonical form.
#[derive(Clone, Copy)]
pub enum Form<'p> {
    /// Canonical XML 1.0.
    Inclusive {
        /// Whether comments are written.
        comments: bool,
    },
    /// Exclusive XML Canonicalization 1.0.
    Exclusive {
        /// Whether comments are written.
        comments: bool,
        /// The prefixes that are treated as in the inclusive form (section 3, "InclusiveNamespaces PrefixList").
        prefixes: Prefixes<'p>,
    },
}

impl<'p> Form<'p> {
    ghost use Rattle.canon_methods.specs.Forms.{form_in};

    /// The rule by which it writes namespace declarations.
    pub fn rule(&self) -> Rule<'p>
        ensures { rule_in result ≡ (form_in self.now).rule }
    {
        match *self {
            Form::Inclusive { comments: _ } => Rule::Inclusive,
            Form::Exclusive {
                comments: _,
                prefixes,
            } => Rule::Exclusive(prefixes),
        }
    }

    /// Whether it writes comments.
    pub fn has_comments(&self) -> bool
        ensures { result ≡ (form_in self.now).comments }
    {
        match *self {
            Form::Inclusive { comments } => comments,
            Form::Exclusive {
                comments,
                prefixes: _,
            } => comments,
        }
    }
}
