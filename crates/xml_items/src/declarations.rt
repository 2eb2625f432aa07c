// The XML declaration.
ghost use Rattle.std.specs.Prelude.{◌≡◌, ◌∷◌, [], is_some};
ghost use Rattle.std.specs.Str.{chars};
ghost use Rattle.document_model.specs.Items.{is_encoded, is_standalone, declaration_of};
ghost use Rattle.xml_items.specs.Pairs.{pair_in, passes_pairs, tells_encoding, tells_version};

use crate::tags::{Pair, pair_at};
use crate::texts::{is, is_lowered, without_space_behind};

// Whether a pair says that a document stands alone, or does not.
fn tells_standalone(pair: &Pair) -> bool
    ensures { result ≡ is_standalone (pair_in pair.now ∷ []) }
{
    is(pair.name, "standalone") && (is(pair.text, "yes") || is(pair.text, "no"))
}

// Whether a pair says that a document is in UTF-8.
fn tells_encoding(pair: &Pair) -> bool
    ensures { result ≡ tells_encoding (pair_in pair.now) }
{
    is(pair.name, "encoding") && is_lowered(pair.text, "utf-8")
}

// Whether a pair says that the version is 1.0.
fn tells_version(pair: &Pair) -> bool
    ensures { result ≡ tells_version (pair_in pair.now) }
{
    is(pair.name, "version") && is(pair.text, "1.0")
}

// Whether a text is nothing, or one pair that says whether a document stands alone.
fn is_standalone(text: &str) -> bool
    ensures { result ≡ passes_pairs is_standalone 1 (chars text.now) }
{
    if text.is_empty() {
        return true;
    }
    match pair_at(text) {
        Some((pair, rest)) => rest.is_empty() && tells_standalone(&pair),
        None => false,
    }
}

// Whether a text is what may follow the version.
fn is_encoded(text: &str) -> bool
    ensures { result ≡ passes_pairs is_encoded 2 (chars text.now) }
{
    if text.is_empty() {
        return true;
    }
    match pair_at(text) {
        Some((pair, rest)) => {
            if tells_encoding(&pair) {
                is_standalone(rest)
            } else {
                is_standalone(text)
            }
        }
        None => false,
    }
}

// Whether a text is what stands between `<?xml` and `?>` of an XML declaration.
pub fn is_declaration(text: &str) -> bool
    ensures { result ≡ is_some (declaration_of (chars text.now)) }
{
    let trimmed = without_space_behind(text);
    if trimmed.is_empty() {
        return false;
    }
    match pair_at(trimmed) {
        Some((pair, rest)) => tells_version(&pair) && is_encoded(rest),
        None => false,
    }
}
