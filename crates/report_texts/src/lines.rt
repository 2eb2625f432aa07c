//! The lines of a report.

ghost use Rattle.std.specs.Prelude.{◌≡◌, ◌∷◌, ◌++◌, All, OnOk, IfOk, Some, map};
ghost use Rattle.hex.specs.Hex.{encode_lower};
ghost use Rattle.der_values.specs.Distinct.{octets};
ghost use Rattle.signature_evidence.specs.Report.{line};
ghost use Rattle.signature_evidence.specs.Reporting.{code};
ghost use Rattle.time_texts.specs.Clock.{IsOfYears, clock};
ghost use Rattle.report_texts.specs.Facts.{token_shown, IsCertificateTimed};
ghost use Rattle.report_texts.specs.Texts.{each_from, numbered, reference_line, certificate_line, value_line, token_line, object_line};
ghost use Rattle.report_texts.specs.Words.{behind};

use crate::facts::{CertificateFact, ObjectFact, ReferenceFact, TokenFact, ValueFact};
use crate::words::{
    accepted_word, good_word, kind_word, match_word, object_word, soundness_word, stamp_word,
    value_word, walk_word,
};
use itoa::Buffer;
use std::alloc::Global;
use time_texts::clock;
use xa_io::{Octs, OutOfMemory};

// Appends words, each behind a space.
fn put_words(out: &mut Octs, words: &[&[u8]]) -> Result<(), OutOfMemory>
    ensures { OnOk result (out.new ≡ out.old ++ behind (map octets words.now)) }
{
    for word in words {
        out.push_all(b" ")?;
        out.push_all(word)?;
    }
    Ok(())
}

// Appends a line of words.
pub(crate) fn put_line(out: &mut Octs, first: &[u8], words: &[&[u8]]) -> Result<(), OutOfMemory>
    ensures { OnOk result (out.new ≡ out.old ++ line (first.now ∷ map octets words.now)) }
{
    out.push_all(first)?;
    put_words(out, words)?;
    out.push_all(b"\n")
}

// A number with a colon.
fn numbered(alloc: Global, k: usize) -> Result<Octs, OutOfMemory>
    ensures { IfOk result (λ text. text ≡ numbered k) }
{
    let mut buffer = Buffer::new();
    let mut text = Octs::new(alloc);
    text.push_all(buffer.format(k).as_bytes())?;
    text.push_all(b":")?;
    Ok(text)
}

// The code with a number.
pub(crate) fn coded(alloc: Global, number: u8) -> Result<Octs, OutOfMemory>
    ensures { IfOk result (λ text. text ≡ code number) }
{
    let mut buffer = Buffer::new();
    let mut text = Octs::new(alloc);
    text.push_all(b"A")?;
    text.push_all(buffer.format(number as u32).as_bytes())?;
    Ok(text)
}

// Bytes in hexadecimal digits.
fn hex_of(alloc: Global, bytes: &[u8]) -> Result<Octs, OutOfMemory>
    ensures { IfOk result (λ text. text ≡ encode_lower bytes.now) }
{
    match hex::encode(alloc, bytes) {
        Ok(digits) => {
            let mut text = Octs::new(alloc);
            text.push_all(digits.as_bytes())?;
            Ok(text)
        }
        Err(_) => Err(OutOfMemory),
    }
}

// Appends the line of a Reference by its number.
fn put_reference(
    alloc: Global,
    out: &mut Octs,
    k: usize,
    fact: &ReferenceFact,
) -> Result<(), OutOfMemory>
    requires { IsOfYears fact.now.time }
    ensures { OnOk result (out.new ≡ out.old ++ reference_line k fact.now) }
{
    let number = numbered(alloc, k)?;
    let computed = hex_of(alloc, fact.computed.as_slice())?;
    put_line(
        out,
        b"reference",
        &[
            number.as_slice(),
            fact.kind.word().as_bytes(),
            computed.as_slice(),
            match_word(fact.matches),
            accepted_word(fact.accepted),
            &clock(fact.time),
        ],
    )
}

// Appends the lines of the References.
pub(crate) fn put_references(
    alloc: Global,
    out: &mut Octs,
    facts: &[ReferenceFact],
) -> Result<(), OutOfMemory>
    requires { All (λ fact. IsOfYears fact.time) facts.now }
    ensures { OnOk result (out.new ≡ out.old ++ each_from reference_line 1 facts.now) }
{
    for number in 0..facts.len() {
        put_reference(alloc, out, number + 1, &facts[number])?;
    }
    Ok(())
}

// Appends the line of a signing certificate that is there.
fn put_found(alloc: Global, out: &mut Octs, fact: &CertificateFact) -> Result<(), OutOfMemory>
    requires { IsOfYears fact.now.time }
    ensures { OnOk result (out.new ≡ out.old ++ certificate_line (Some fact.now)) }
{
    let digest = hex_of(alloc, fact.digest.as_slice())?;
    put_line(
        out,
        b"certificate:",
        &[
            fact.kind.word().as_bytes(),
            digest.as_slice(),
            b"match",
            accepted_word(fact.accepted),
            &clock(fact.time),
        ],
    )
}

// Appends the line of the signing certificate.
pub(crate) fn put_certificate(
    alloc: Global,
    out: &mut Octs,
    fact: &Option<CertificateFact>,
) -> Result<(), OutOfMemory>
    requires { IsCertificateTimed fact.now }
    ensures { OnOk result (out.new ≡ out.old ++ certificate_line fact.now) }
{
    match fact {
        Some(fact) => put_found(alloc, out, fact),
        None => out.push_all(b"certificate: missing\n"),
    }
}

// Appends the line of the value.
pub(crate) fn put_value(out: &mut Octs, fact: &ValueFact) -> Result<(), OutOfMemory>
    requires { IsOfYears fact.now.time }
    ensures { OnOk result (out.new ≡ out.old ++ value_line fact.now) }
{
    put_line(
        out,
        b"value:",
        &[
            kind_word(fact.kind),
            good_word(fact.good),
            value_word(fact),
            &clock(fact.time),
        ],
    )
}

// Appends the line of a time-stamp by its number.
fn put_token(alloc: Global, out: &mut Octs, k: usize, fact: &TokenFact) -> Result<(), OutOfMemory>
    requires { IsOfYears fact.now.gen_time × IsOfYears fact.now.time }
    ensures { OnOk result (out.new ≡ out.old ++ token_line k (token_shown fact.now)) }
{
    let number = numbered(alloc, k)?;
    put_line(
        out,
        b"token",
        &[
            number.as_slice(),
            stamp_word(fact.kind),
            &clock(fact.gen_time),
            soundness_word(fact.soundness),
            walk_word(fact.accepted),
            &clock(fact.time),
        ],
    )
}

// Appends the lines of the time-stamps.
pub(crate) fn put_tokens(
    alloc: Global,
    out: &mut Octs,
    facts: &[TokenFact],
) -> Result<(), OutOfMemory>
    requires { All (λ fact. IsOfYears fact.gen_time × IsOfYears fact.time) (map token_shown facts.now) }
    ensures { OnOk result (out.new ≡ out.old ++ each_from token_line 1 (map token_shown facts.now)) }
{
    for number in 0..facts.len() {
        put_token(alloc, out, number + 1, &facts[number])?;
    }
    Ok(())
}

// Appends the line of a certificate or revocation list by its number.
fn put_object(alloc: Global, out: &mut Octs, k: usize, fact: &ObjectFact) -> Result<(), OutOfMemory>
    requires { IsOfYears fact.now.time }
    ensures { OnOk result (out.new ≡ out.old ++ object_line k fact.now) }
{
    let number = numbered(alloc, k)?;
    put_line(
        out,
        b"object",
        &[
            number.as_slice(),
            object_word(fact.is_certificate),
            &clock(fact.time),
        ],
    )
}

// Appends the lines of the certificates and revocation lists.
pub(crate) fn put_objects(
    alloc: Global,
    out: &mut Octs,
    facts: &[ObjectFact],
) -> Result<(), OutOfMemory>
    requires { All (λ fact. IsOfYears fact.time) facts.now }
    ensures { OnOk result (out.new ≡ out.old ++ each_from object_line 1 facts.now) }
{
    for number in 0..facts.len() {
        put_object(alloc, out, number + 1, &facts[number])?;
    }
    Ok(())
}
