//! Words that begin with one of several keys.

ghost use Rattle.std.specs.Prelude.{◌≡◌, ◌++◌, ◌∷◌, [], map, option_map, string_bytes, IfOk, OnOk};
ghost use Rattle.word_patterns.specs.Keyed.{keyed_text, keyed_texts, key_now, keyed_now};

use crate::keys::behind_key;
use std::alloc::Global;
use xa_io::OutOfMemory;

// What a word is, by the first of the keys that it begins with, and the text behind that key.
fn keyed_text<'a, K: Copy>(keys: &[(&str, K)], word: &'a str) -> Option<(K, &'a str)>
    ensures { option_map keyed_now result ≡ keyed_text (map key_now keys.now) word.now }
{
    let mut rest = keys;
    'keys: loop {
        match rest {
            [(key, kind), others @ ..] => {
                if let Some(text) = behind_key(word, *key) {
                    return Some((*kind, text));
                }
                rest = others;
            }
            [] => return None,
        }
    }
}

// Puts what the word is and the text behind its key, where it begins with one of the keys.
fn put_keyed<'a, K: Copy>(
    texts: &mut Vec<(K, &'a str)>,
    keys: &[(&str, K)],
    word: &'a str,
) -> Result<(), OutOfMemory>
    ensures { OnOk result (map keyed_now texts.new.items ≡ map keyed_now texts.old.items ++ keyed_texts (map key_now keys.now) (word.now ∷ [])) }
{
    let Some(item) = keyed_text(keys, word) else {
        return Ok(());
    };
    match texts.push(item) {
        Ok(()) => Ok(()),
        Err(_) => Err(OutOfMemory),
    }
}

/// Of each word that begins with one of some keys, in the order of the words: what the first such key stands for, and the text behind it.
pub fn keyed_texts<'a, K: Copy>(
    alloc: Global,
    keys: &[(&str, K)],
    words: &'a [String],
) -> Result<Vec<(K, &'a str)>, OutOfMemory>
    ensures { IfOk result (λ texts. map keyed_now texts.items ≡ keyed_texts (map key_now keys.now) (map string_bytes words.now)) }
{
    let mut texts = Vec::new(alloc);
    for word in words {
        put_keyed(&mut texts, keys, word.as_str())?;
    }
    Ok(texts)
}
