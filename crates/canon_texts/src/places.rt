//! Where characters are written, and which of them are escaped there (Canonical XML 1.0, section 2.3).

ghost use Rattle.std.specs.Prelude.{◌≡◌, [], ◌∷◌, MatchOption};
ghost use Rattle.document_model.specs.Canonical.{text_character, value_character};
ghost use Rattle.canon_texts.specs.WrittenAt.{written_at};

// Where characters are written.
#[derive(Clone, Copy)]
pub(crate) enum Place {
    // Between tags.
    Text,
    // In the quotes of an attribute or a namespace declaration.
    Value,
    // In a comment or a processing instruction, where nothing is escaped.
    Markup,
}

// What stands for a byte that isn't written as it is.
pub(crate) fn reference(place: Place, byte: u8) -> Option<&'static [u8]>
    ensures { MatchOption result (written_at place byte ≡ byte ∷ []) (λ text. text.now ≡ written_at place byte) }
{
    match place {
        Place::Text => text_reference(byte),
        Place::Value => value_reference(byte),
        Place::Markup => None,
    }
}

fn text_reference(byte: u8) -> Option<&'static [u8]>
    ensures { MatchOption result (text_character byte ≡ byte ∷ []) (λ text. text.now ≡ text_character byte) }
{
    match byte {
        b'&' => Some(b"&amp;"),
        b'<' => Some(b"&lt;"),
        b'>' => Some(b"&gt;"),
        b'\r' => Some(b"&#xD;"),
        _ => None,
    }
}

fn value_reference(byte: u8) -> Option<&'static [u8]>
    ensures { MatchOption result (value_character byte ≡ byte ∷ []) (λ text. text.now ≡ value_character byte) }
{
    match byte {
        b'&' => Some(b"&amp;"),
        b'<' => Some(b"&lt;"),
        b'"' => Some(b"&quot;"),
        b'\t' => Some(b"&#x9;"),
        b'\n' => Some(b"&#xA;"),
        b'\r' => Some(b"&#xD;"),
        _ => None,
    }
}
