//! Texts and the octets that they spell: RFC 4648, section 10, and texts with a fault, whose places follow from the standard's table.

use base64_texts::{Base64Fault, Decoder, Scanner, decode};
use std::alloc::Global;
use std::test::Fail;

// Whether the text spells the octets, as a text in one piece, as characters and as octets.
fn spells(alloc: Global, text: &str, octets: &[u8]) -> Result<bool, Fail> {
    let whole = decode(alloc, text.as_bytes())?;
    let mut pieces = Decoder::new(alloc);
    for c in text.chars() {
        pieces.push_char(c)?;
    }
    let joined = pieces.finish()?;
    let mut scanner = Scanner::new();
    scanner.push(text);
    Ok(whole.as_slice() == octets && joined.as_slice() == octets && scanner.is_strict())
}

// Whether each way to read the text tells this place of its fault.
fn stops_at(alloc: Global, text: &str, place: usize) -> Result<bool, Fail> {
    let fault = Base64Fault::NotBase64 { at: place };
    let mut decoder = Decoder::new(alloc);
    decoder.push(text)?;
    let mut scanner = Scanner::new();
    for c in text.chars() {
        scanner.push_char(c);
    }
    let told = matches!(decoder.finish(), Err(found) if found == fault);
    let octets_too = matches!(decode(alloc, text.as_bytes()), Err(found) if found == fault);
    Ok(told && octets_too && scanner.fault() == Some(place))
}

type Spelling = (&'static str, &'static [u8]);

fn all_spell(alloc: Global, spellings: &[Spelling]) -> Result<bool, Fail> {
    for spelling in spellings {
        if !spells(alloc, spelling.0, spelling.1)? {
            return Ok(false);
        }
    }
    Ok(true)
}

// Texts with the place at which each stops to be base64.
fn all_stop(alloc: Global, texts: &[(&'static str, usize)]) -> Result<bool, Fail> {
    for text in texts {
        if !stops_at(alloc, text.0, text.1)? {
            return Ok(false);
        }
    }
    Ok(true)
}

const EXAMPLES: [Spelling; 7] = [
    ("", b""),
    ("Zg==", b"f"),
    ("Zm8=", b"fo"),
    ("Zm9v", b"foo"),
    ("Zm9vYg==", b"foob"),
    ("Zm9vYmE=", b"fooba"),
    ("Zm9vYmFy", b"foobar"),
];

#[test]
fn decodes_the_examples_of_the_standard(rt: HostRuntime) -> Result<(), Fail> {
    assert!(rt; all_spell(rt.alloc(), &EXAMPLES)?);
    Ok(())
}

const SPACED: [Spelling; 3] = [
    (" aGVs\r\n\tbG8=\n", b"hello"),
    ("aGVsbG8 = \n", b"hello"),
    (" \n", b""),
];

#[test]
fn skips_white_space(rt: HostRuntime) -> Result<(), Fail> {
    assert!(rt; all_spell(rt.alloc(), &SPACED)?);
    assert!(rt; stops_at(rt.alloc(), "a G\nV s * bG8=", 4)?);
    Ok(())
}

const STOPPING: [(&str, usize); 8] = [
    ("aGVs*G8=", 4),
    ("*AAA*", 0),
    ("aGVsbG8", 7),
    ("aGVsbG9=", 7),
    ("aGVsbG8=aGVs", 8),
    ("=", 0),
    ("Zg=", 3),
    ("Zh==", 2),
];

#[test]
fn tells_where_base64_stops(rt: HostRuntime) -> Result<(), Fail> {
    assert!(rt; all_stop(rt.alloc(), &STOPPING)?);
    Ok(())
}

const NO_SYMBOLS: [(&str, usize); 4] = [
    ("ab-_", 2),
    ("abc\u{e9}", 3),
    ("abc\u{a0}d", 3),
    ("\u{1f600}", 0),
];

#[test]
fn refuses_what_is_no_symbol(rt: HostRuntime) -> Result<(), Fail> {
    let alloc = rt.alloc();
    assert!(rt; all_stop(alloc, &NO_SYMBOLS)?);
    let high = decode(alloc, b"abcd\xe9");
    assert!(rt; matches!(high, Err(Base64Fault::NotBase64 { at: 4 })));
    Ok(())
}

// The octets so many times.
fn repeated(alloc: Global, piece: &[u8], times: usize) -> Result<Vec<u8>, Fail> {
    let mut all = Vec::new(alloc);
    for _ in 0..times {
        all.extend_from_slice(piece)?;
    }
    Ok(all)
}

#[test]
fn decodes_several_blocks(rt: HostRuntime) -> Result<(), Fail> {
    let alloc = rt.alloc();
    let mut decoder = Decoder::new(alloc);
    let text = repeated(alloc, b"Zm9v\n", 1000)?;
    decoder.push_octets(text.as_slice())?;
    decoder.push("Zg==")?;
    let decoded = decoder.finish()?;
    let mut octets = repeated(alloc, b"foo", 1000)?;
    octets.push(b'f')?;
    assert!(rt; decoded.as_slice() == octets.as_slice());
    Ok(())
}

#[test]
fn decodes_full_blocks(rt: HostRuntime) -> Result<(), Fail> {
    let alloc = rt.alloc();
    for times in [255, 256, 257, 512] {
        let text = repeated(alloc, b"Zm9v", times)?;
        let octets = repeated(alloc, b"foo", times)?;
        let decoded = decode(alloc, text.as_slice())?;
        assert!(rt; decoded.as_slice() == octets.as_slice());
    }
    Ok(())
}

#[test]
fn tells_places_behind_several_blocks(rt: HostRuntime) -> Result<(), Fail> {
    let alloc = rt.alloc();
    let text = repeated(alloc, b"Zm9v", 1000)?;
    let mut decoder = Decoder::new(alloc);
    decoder.push_octets(text.as_slice())?;
    decoder.push("Zg=")?;
    decoder.push("?")?;
    decoder.push_octets(text.as_slice())?;
    assert!(rt; matches!(decoder.finish(), Err(Base64Fault::NotBase64 { at: 4003 })));
    Ok(())
}

#[test]
fn scans_several_blocks(rt: HostRuntime) -> Result<(), Fail> {
    let text = repeated(rt.alloc(), b"Zm9v", 1000)?;
    let mut scanner = Scanner::new();
    scanner.push_octets(text.as_slice());
    assert!(rt; scanner.fault().is_none());
    scanner.push("Zg=?");
    scanner.push_octets(text.as_slice());
    assert!(rt; scanner.fault() == Some(4003) && !scanner.is_strict());
    Ok(())
}
