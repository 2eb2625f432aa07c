//! The verdict on a signature that another program made.

use crate::failed::Failed;
use algorithms::{SignatureKind, verify};
use std::alloc::Global;

fn octets_of(alloc: Global, words: &[String], place: usize) -> Result<Vec<u8>, Failed> {
    match words.get(place) {
        Some(word) => match hex::decode(alloc, word.as_str()) {
            Ok(octets) => Ok(octets),
            Err(_) => Err(Failed),
        },
        None => Err(Failed),
    }
}

fn kind_of(words: &[String]) -> Result<SignatureKind, Failed> {
    let Some(word) = words.get(1) else {
        return Err(Failed);
    };
    match word.as_str() {
        "hss" => Ok(SignatureKind::Hss),
        "xmss" => Ok(SignatureKind::Xmss),
        "xmssmt" => Ok(SignatureKind::XmssMt),
        _ => Err(Failed),
    }
}

/// `good` or `bad`, of a kind, a key, a message and a signature, which the words behind the first one give, the last three in hexadecimal.
pub fn judge(alloc: Global, words: &[String]) -> Result<String, Failed> {
    let kind = kind_of(words)?;
    let key = octets_of(alloc, words, 2)?;
    let message = octets_of(alloc, words, 3)?;
    let signature = octets_of(alloc, words, 4)?;
    let holds = verify(
        kind,
        key.as_slice(),
        message.as_slice(),
        signature.as_slice(),
    );
    let verdict = if holds { "good" } else { "bad" };
    Ok(format!(in alloc; "{verdict}")?)
}
