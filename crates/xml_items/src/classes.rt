// Runs of characters of one class.
ghost use Rattle.std.specs.Prelude.{◌≡◌, ◌++◌, ◌∷◌, ◌<◌, length, MatchOption, IfSome};
ghost use Rattle.std.specs.Str.{chars, IsUtf8};
ghost use Rattle.std.specs.Prelude.{option_map};
ghost use Rattle.std.specs.List.{list_all};
ghost use Rattle.document_model.specs.Characters.{span};
ghost use Rattle.document_model.specs.Items.{behind_one};
ghost use Rattle.xml_items.specs.Classes.{passes};

#[derive(Clone, Copy)]
pub enum Class {
    Char,
    White,
    NameStart,
    NamePart,
    NamePartOrColon,
    Except(char),
    Only(char),
    Quote,
    Decimal,
    Hexadecimal,
    NotWhite,
    // What stands for itself in an attribute value.
    InValue,
    // What stands for itself wherever a text goes on.
    InText,
}

#[inline(always)]
pub fn has(class: Class, c: char) -> bool
    ensures { result ≡ passes class c }
{
    let n = c as u32;
    match class {
        Class::Char => is_char(n),
        Class::White => matches!(n, 0x9..=0xA | 0xD | 0x20),
        Class::NameStart => starts_name(n),
        Class::NamePart => continues_name(n),
        Class::NamePartOrColon => continues_name(n) || n == 0x3A,
        Class::Except(d) => c != d,
        Class::Only(d) => c == d,
        Class::Quote => n == 0x22 || n == 0x27,
        Class::NotWhite => !matches!(n, 0x9..=0xA | 0xD | 0x20),
        Class::InValue => !matches!(n, 0x9..=0xA | 0xD | 0x26),
        Class::InText => matches!(
            n,
            0x9..=0xA
                | 0x20..=0x25
                | 0x27..=0x3B
                | 0x3D
                | 0x3F..=0x5C
                | 0x5E..=0x7E
                | 0x80..=0xD7FF
                | 0xE000..=0xFFFD
                | 0x1_0000..=0x10_FFFF
        ),
        Class::Decimal => matches!(n, 0x30..=0x39),
        Class::Hexadecimal => matches!(n, 0x30..=0x39 | 0x41..=0x46 | 0x61..=0x66),
    }
}

#[inline(always)]
pub fn is_char(n: u32) -> bool
    ensures { result ≡ Rattle.document_model.specs.Characters.is_char n }
{
    matches!(n, 0x9..=0xA | 0xD | 0x20..=0xD7FF | 0xE000..=0xFFFD | 0x1_0000..=0x10_FFFF)
}

#[inline(always)]
fn starts_name(n: u32) -> bool
    ensures { result ≡ Rattle.document_model.specs.Characters.starts_name n }
{
    matches!(
        n,
        0x41..=0x5A
            | 0x5F
            | 0x61..=0x7A
            | 0xC0..=0xD6
            | 0xD8..=0xF6
            | 0xF8..=0x2FF
            | 0x370..=0x37D
            | 0x37F..=0x1FFF
            | 0x200C..=0x200D
            | 0x2070..=0x218F
            | 0x2C00..=0x2FEF
            | 0x3001..=0xD7FF
            | 0xF900..=0xFDCF
            | 0xFDF0..=0xFFFD
            | 0x1_0000..=0xE_FFFF
    )
}

// Most characters of names are small letters, so these are asked for first.
#[inline(always)]
fn continues_name(n: u32) -> bool
    ensures { result ≡ Rattle.document_model.specs.Characters.continues_name n }
{
    matches!(n, 0x61..=0x7A)
        || starts_name(n)
        || matches!(n, 0x2D..=0x2E | 0x30..=0x39 | 0xB7 | 0x300..=0x36F | 0x203F..=0x2040)
}

// The longest front of characters of the class, and what is behind it. Most of them are ASCII.
#[inline(always)]
pub fn front<'a>(text: &'a str, class: Class) -> (&'a str, &'a str)
    ensures split { span (passes class) (chars text.now) ≡ (chars result.0.now, chars result.1.now) }
    ensures joined { result.0.now ++ result.1.now ≡ text.now }
    ensures front_utf8 { IsUtf8 result.0.now }
    ensures behind_utf8 { IsUtf8 result.1.now }
{
    let bytes = text.as_bytes();
    let mut at = 0;
    'bytes: while at < bytes.len() && bytes[at] < 0x80 && has(class, bytes[at] as char) {
        at += 1;
    }
    if at == bytes.len() || bytes[at] < 0x80 {
        return text.split_at(at);
    }
    let (_, further) = text.split_at(at);
    let mut rest = further.chars();
    loop {
        let behind = rest.as_str();
        match rest.next() {
            Some(c) if has(class, c) => {}
            _ => return text.split_at(text.len() - behind.len()),
        }
    }
}

// The first character, and what is behind it.
#[inline(always)]
pub fn first<'a>(text: &'a str) -> Option<(char, &'a str)>
    ensures chars { MatchOption result (length text.now ≡ 0) (λ r. chars text.now ≡ r.0 ∷ chars r.1.now) }
    ensures utf8 { IfSome result (λ r. IsUtf8 r.1.now) }
    ensures shorter { IfSome result (λ r. length r.1.now < length text.now) }
{
    let mut rest = text.chars();
    match rest.next() {
        Some(c) => Some((c, rest.as_str())),
        None => None,
    }
}

// Whether all characters are of the class.
pub fn all(text: &str, class: Class) -> bool
    ensures { result ≡ list_all (passes class) (chars text.now) }
{
    let (_, behind) = front(text, class);
    behind.is_empty()
}

// The first character, where it is of the class, and what is behind it.
#[inline(always)]
pub fn behind_one<'a>(text: &'a str, class: Class) -> Option<(char, &'a str)>
    ensures found { behind_one (passes class) (chars text.now) ≡ option_map (λ r. (r.0, chars r.1.now)) result }
    ensures utf8 { IfSome result (λ r. IsUtf8 r.1.now) }
{
    let mut rest = text.chars();
    match rest.next() {
        Some(c) if has(class, c) => Some((c, rest.as_str())),
        _ => None,
    }
}
