//! Patterns of words.

ghost use Rattle.std.specs.Prelude.{◌≡◌, List, map};
ghost use Rattle.word_patterns.specs.Grammar.{is_of_form, is_of_one};
ghost use Rattle.word_patterns.specs.Patterns.{form_in};

use crate::keys::behind_key;
use crate::text_forms::TextForm;

/// A form of words.
#[derive(Clone, Copy, Debug)]
pub enum WordForm<'g> {
    /// This text alone.
    Plain(&'g str),
    /// A key with a text behind it.
    Keyed(&'g str, TextForm),
}

/// A part of a pattern: words of some forms, one after another, at least and at most so many.
#[derive(Clone, Copy, Debug)]
pub struct Part<'g> {
    /// The forms.
    pub forms: &'g [WordForm<'g>],
    /// How many words there are at least.
    pub least: u32,
    /// How many words there are at most.
    pub most: u32,
}

fn is_of_form(form: WordForm<'_>, word: &str) -> bool
    ensures { result ≡ is_of_form (form_in form.entry) word.now }
{
    match form {
        WordForm::Plain(text) => word.as_bytes() == text.as_bytes(),
        WordForm::Keyed(key, text) => match behind_key(word, key) {
            Some(behind) => text.allows(behind),
            None => false,
        },
    }
}

// Whether a word is of one of the forms.
pub(crate) fn is_of_one(forms: &[WordForm<'_>], word: &str) -> bool
    ensures { result ≡ is_of_one (map form_in forms.now) word.now }
{
    let mut rest = forms;
    'forms: loop {
        match rest {
            [form, others @ ..] => {
                if is_of_form(*form, word) {
                    return true;
                }
                rest = others;
            }
            [] => return false,
        }
    }
}
