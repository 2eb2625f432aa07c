//! A word that is looked for among the words of a list, one character after another.

ghost use Rattle.std.specs.Prelude.{◌≡◌, ◌++◌, ◌∷◌, List, [], ℕ, Bool};
ghost use Rattle.document_model.specs.Methods.{cut_at, first_longer};
ghost use Rattle.std.specs.Str.{chars};
ghost use Rattle.canon_methods.specs.Words.{parts, word_of};
ghost use Rattle.canon_methods.specs.Sought.{holds, holds_if_read};

use xml_items::classes::{Class, first, has};
use xml_items::texts::is_empty;

// What is known at a place in the list: that the word was found before it; what of the word is still to come, where the word of the list
// that goes on there begins as it does; or that this is another.
#[derive(Clone, Copy)]
pub(crate) enum Sought<'w> {
    Found,
    Word(&'w str),
    Other,
}

// The word of a list that stands for a prefix.
pub(crate) fn word_of(prefix: &str) -> &str
    ensures { chars result.now ≡ word_of (chars prefix.now) }
{
    if is_empty(prefix) { "#default" } else { prefix }
}

// Whether a character parts words.
fn is_between(by_commas: bool, c: char) -> bool
    ensures { result ≡ parts by_commas c }
{
    if by_commas {
        c == ','
    } else {
        has(Class::White, c)
    }
}

// Behind a character that parts words.
fn behind_word<'w>(sought: Sought<'w>, word: &'w str) -> Sought<'w>
    ensures { (test : ℕ → Bool) (cs : List ℕ) → holds test (chars word.now) result cs ≡ holds_if_read (chars word.now) sought.entry ([] ∷ cut_at test cs) }
{
    match sought {
        Sought::Found => Sought::Found,
        Sought::Word(rest) => {
            if is_empty(rest) {
                Sought::Found
            } else {
                Sought::Word(word)
            }
        }
        Sought::Other => Sought::Word(word),
    }
}

// Behind another character.
fn behind_character<'w>(sought: Sought<'w>, c: char) -> Sought<'w>
    ensures { (test : ℕ → Bool) (word cs : List ℕ) → holds test word result cs ≡ holds_if_read word sought.entry (first_longer c (cut_at test cs)) }
{
    match sought {
        Sought::Found => Sought::Found,
        Sought::Word(rest) => match first(rest) {
            Some((d, further)) => {
                if c == d {
                    Sought::Word(further)
                } else {
                    Sought::Other
                }
            }
            None => Sought::Other,
        },
        Sought::Other => Sought::Other,
    }
}

// Behind a character.
pub(crate) fn behind<'w>(sought: Sought<'w>, word: &'w str, by_commas: bool, c: char) -> Sought<'w>
    ensures { (cs : List ℕ) → holds (parts by_commas) (chars word.now) result cs ≡ holds (parts by_commas) (chars word.now) sought.entry (c ∷ cs) }
{
    if is_between(by_commas, c) {
        behind_word(sought, word)
    } else {
        behind_character(sought, c)
    }
}

// Behind a text.
pub(crate) fn behind_text<'w>(
    sought: Sought<'w>,
    word: &'w str,
    by_commas: bool,
    text: &str,
) -> Sought<'w>
    ensures { (cs : List ℕ) → holds (parts by_commas) (chars word.now) result cs ≡ holds (parts by_commas) (chars word.now) sought.entry (chars text.now ++ cs) }
{
    let mut rest = text;
    let mut now = sought;
    'characters: loop {
        match first(rest) {
            Some((c, further)) => {
                now = behind(now, word, by_commas, c);
                rest = further;
            }
            None => return now,
        }
    }
}

// At the end of the list.
pub(crate) fn is_found(sought: Sought<'_>) -> bool
    ensures { (test : ℕ → Bool) (word : List ℕ) → result ≡ holds test word sought.entry [] }
{
    match sought {
        Sought::Found => true,
        Sought::Word(rest) => is_empty(rest),
        Sought::Other => false,
    }
}
