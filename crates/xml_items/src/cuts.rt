// Where an item ends.
ghost use Rattle.std.specs.Prelude.{◌≡◌, ◌≤◌, ◌-◌, ◌++◌, length, take, drop};
ghost use Rattle.document_model.specs.Items.{through, through_after, through_tag, kind_at, cut};
ghost use Rattle.std.specs.Prelude.{None, Some};
ghost use Rattle.xml_items.specs.Kinds.{kind_of};

#[derive(Clone, Copy)]
pub enum Kind {
    Comment,
    Cdata,
    Instruction,
    EndTag,
    Tag,
    Reference,
    Character,
}

// The kind that the first bytes tell.
pub fn kind_at(bytes: &[u8]) -> Kind
    ensures { kind_of result ≡ kind_at bytes.now }
{
    match bytes {
        [b'<', b'/', ..] => Kind::EndTag,
        [b'<', b'?', ..] => Kind::Instruction,
        [b'<', ..] if bytes.starts_with(b"<!--") => Kind::Comment,
        [b'<', ..] if bytes.starts_with(b"<![CDATA[") => Kind::Cdata,
        [b'<', ..] => Kind::Tag,
        [b'&', ..] => Kind::Reference,
        _ => Kind::Character,
    }
}

// How many bytes there are through the first place where a text stands, or all of them.
fn through(bytes: &[u8], close: &[u8]) -> usize
    ensures bound { result ≤ length bytes.now }
    ensures cut { through close.now bytes.now ≡ (take result bytes.now, drop result bytes.now) }
{
    for at in 0..bytes.len() {
        let rest = &bytes[at..];
        if rest.starts_with(close) {
            return bytes.len() - rest.len() + close.len();
        }
    }
    bytes.len()
}

// How many bytes there are through the first `>` outside quotes, or all of them.
fn through_tag(bytes: &[u8]) -> usize
    ensures bound { result ≤ length bytes.now }
    ensures cut { through_tag None bytes.now ≡ (take result bytes.now, drop result bytes.now) }
{
    let mut at = 0;
    'bytes: while at < bytes.len() {
        let byte = bytes[at];
        at += 1;
        if byte == b'>' {
            return at;
        }
        if byte == b'"' || byte == b'\'' {
            at = behind_quote(bytes, at, byte);
        }
    }
    bytes.len()
}

// The place behind the next quote of this kind from a place on, or that behind all bytes.
fn behind_quote(bytes: &[u8], start: usize, quote: u8) -> usize
    requires { start ≤ length bytes.now }
    ensures order { start ≤ result }
    ensures bound { result ≤ length bytes.now }
    ensures cut { through_tag (Some quote) (drop start bytes.now) ≡ (take (result - start) (drop start bytes.now) ++ (through_tag None (drop result bytes.now)).0, (through_tag None (drop result bytes.now)).1) }
{
    let mut at = start;
    'quoted: while at < bytes.len() {
        let byte = bytes[at];
        at += 1;
        if byte == quote {
            return at;
        }
    }
    at
}

// How many bytes the first character has; CR LF is one.
fn character_len(bytes: &[u8]) -> usize
    ensures bound { result ≤ length bytes.now }
    ensures cut { cut (kind_of Kind.Character) bytes.now ≡ (take result bytes.now, drop result bytes.now) }
{
    let len = match bytes {
        [] => 0,
        [_] => 1,
        [0xD, 0xA, ..] => 2,
        [0..=0x7F, ..] => 1,
        [0x80..=0xDF, ..] => 2,
        [0xE0..=0xEF, ..] => 3,
        _ => 4,
    };
    if len < bytes.len() { len } else { bytes.len() }
}

// The same as `through` from behind an opening text.
fn through_after(bytes: &[u8], n: usize, close: &[u8]) -> usize
    ensures bound { result ≤ length bytes.now }
    ensures cut { through_after n close.now bytes.now ≡ (take result bytes.now, drop result bytes.now) }
{
    if n < bytes.len() {
        n + through(&bytes[n..], close)
    } else {
        bytes.len()
    }
}

// How many bytes the item of that kind has.
pub fn cut(kind: Kind, bytes: &[u8]) -> usize
    ensures bound { result ≤ length bytes.now }
    ensures cut { cut (kind_of kind) bytes.now ≡ (take result bytes.now, drop result bytes.now) }
{
    match kind {
        Kind::Comment => through_after(bytes, 4, b"-->"),
        Kind::Cdata => through_after(bytes, 9, b"]]>"),
        Kind::Instruction => through_after(bytes, 2, b"?>"),
        Kind::EndTag => through(bytes, b">"),
        Kind::Tag => through_tag(bytes),
        Kind::Reference => through(bytes, b";"),
        Kind::Character => character_len(bytes),
    }
}
