//! The two rules, and lists of prefixes.

ghost use Rattle.std.specs.Prelude.{◌≡◌, [], map};
ghost use Rattle.std.specs.Str.{chars};
ghost use Rattle.document_model.specs.Methods.{words_at, prefix_named, prefixes_of};
ghost use Rattle.document_model.specs.Canonical.{is_among};
ghost use Rattle.doc_spans.specs.Pieces.{characters_left};
ghost use Rattle.canon_methods.specs.Words.{is_comma};

use crate::sought::{Sought, behind, behind_text, is_found, word_of};
use doc_spans::{Piece, Pieces};
use xml_items::texts::is;

/// Prefixes that an exclusive form treats as the inclusive form does: an InclusiveNamespaces PrefixList (Exclusive XML
/// Canonicalization 1.0, section 3). The word `#default` stands for the default namespace.
#[derive(Clone, Copy)]
pub struct Prefixes<'p> {
    text: Pieces<'p>,
    by_commas: bool,
}

impl<'p> Prefixes<'p> {
    ghost use Rattle.canon_methods.specs.Rules.{prefixes_in};

    /// No prefix.
    pub fn none() -> Prefixes<'p>
        ensures { prefixes_in result ≡ [] }
    {
        Prefixes::of_words("")
    }

    /// The prefixes of an attribute value, parted by white space.
    pub fn of_list(list: Pieces<'p>) -> Prefixes<'p>
        ensures { prefixes_in result ≡ prefixes_of (characters_left list.entry) }
    {
        Prefixes {
            text: list,
            by_commas: false,
        }
    }

    /// The prefixes of a text, parted by commas.
    pub fn of_words(list: &'p str) -> Prefixes<'p>
        ensures { prefixes_in result ≡ map prefix_named (words_at is_comma (chars list.now)) }
    {
        Prefixes {
            text: Pieces::of(list),
            by_commas: true,
        }
    }

    /// Whether a prefix, empty for the default, is one of them.
    pub fn has(&self, prefix: &str) -> bool
        ensures { result ≡ is_among (chars prefix.now) (prefixes_in self.now) }
    {
        if is(prefix, "#default") {
            return false;
        }
        let word = word_of(prefix);
        let mut sought = Sought::Word(word);
        'pieces: for piece in self.text {
            sought = match piece {
                Piece::Run(text) => behind_text(sought, word, self.by_commas, text),
                Piece::One(c) => behind(sought, word, self.by_commas, c),
            };
        }
        is_found(sought)
    }
}

/// A rule of canonical text: which namespace declarations are written.
#[derive(Clone, Copy)]
pub enum Rule<'p> {
    /// Canonical XML 1.0: all that are in scope.
    Inclusive,
    /// Exclusive XML Canonicalization 1.0: those that are used, and those of the list.
    Exclusive(Prefixes<'p>),
}
