//! Texts behind keys.

ghost use Rattle.std.specs.Prelude.{◌≡◌, ◌++◌, ◌∷◌, [], map, string_bytes, IfOk, OnOk};
ghost use Rattle.word_patterns.specs.Grammar.{text_behind, texts_behind, text_now};

use crate::keys::behind_key;
use std::alloc::Global;
use xa_io::OutOfMemory;

/// The text behind the key in the first word that begins with it; the empty text where none does.
pub fn text_behind<'a>(key: &str, words: &'a [String]) -> &'a str
    ensures { result.now ≡ text_behind key.now (map string_bytes words.now) }
{
    let mut rest = words;
    'words: loop {
        match rest {
            [word, others @ ..] => {
                if let Some(text) = behind_key(word.as_str(), key) {
                    return text;
                }
                rest = others;
            }
            [] => return "",
        }
    }
}

// Puts the text behind the key, where the word begins with it.
fn put_behind<'a>(texts: &mut Vec<&'a str>, key: &str, word: &'a str) -> Result<(), OutOfMemory>
    ensures { OnOk result (map text_now texts.new.items ≡ map text_now texts.old.items ++ texts_behind key.now (word.now ∷ [])) }
{
    let Some(text) = behind_key(word, key) else {
        return Ok(());
    };
    match texts.push(text) {
        Ok(()) => Ok(()),
        Err(_) => Err(OutOfMemory),
    }
}

/// The texts behind the key, in each word that begins with it.
pub fn texts_behind<'a>(
    alloc: Global,
    key: &str,
    words: &'a [String],
) -> Result<Vec<&'a str>, OutOfMemory>
    ensures { IfOk result (λ texts. map text_now texts.items ≡ texts_behind key.now (map string_bytes words.now)) }
{
    let mut texts = Vec::new(alloc);
    for word in words {
        put_behind(&mut texts, key, word.as_str())?;
    }
    Ok(texts)
}
