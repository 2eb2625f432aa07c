//! Layouts of DER objects, and the first element that isn't as its layout has it.

ghost use Rattle.std.specs.Prelude.{IsOk, ◌↔◌, ◌≡◌, ◌+◌, ◌<◌, ◌≤◌, ◌^◌, length, IfOk, IfErr, MatchResult, Ok, Err, nat_lt, if◌then◌else◌};
ghost use Rattle.der_values.specs.Layout.{next, take_one, held, all_of, read, read_object, repeated, many, element};
ghost use Rattle.der_values.specs.Distinct.{AreApart, StandsAt, firsts};
ghost use Rattle.der_values.specs.Fits.{IsObject};
ghost use Rattle.der_values.specs.Meaning.{meaning};
ghost use Rattle.der_values.specs.View.{view, content_view};

use crate::content::Content;
use crate::distinct::distinct;
use crate::rules::{Rule, Test, allows, decides};
use crate::tlv::{DerFault, Tlv, read_tlv};

/// The layout of an object: what the content of an element has to be.
///
/// A list is a chain of `Both`, an optional layout is `Told` by its tag with `Nothing` as the other one.
#[derive(Clone, Copy)]
pub enum Layout<'a> {
    /// No bytes.
    Nothing,
    /// One layout after another.
    Both(&'a Layout<'a>, &'a Layout<'a>),
    /// An element of this tag that meets the rule; what it holds has the layout, to its end.
    Element(u8, Rule, &'a Layout<'a>),
    /// All that is left of the content, whatever it is.
    Unread,
    /// Any whole element.
    WholeElement,
    /// As many of one layout as come, up to the end of the content.
    Many(&'a Layout<'a>),
    /// One of two layouts: the first where the test holds.
    Told(Test, &'a Layout<'a>, &'a Layout<'a>),
}

#[tactic(auto, unfolding(crate::specs::Layout::next))]
fn next_element<'a>(content: &Content<'a>, offset: usize) -> Result<Tlv<'a>, DerFault>
    requires { offset ≤ length content.now.bytes.now }
    ensures value { MatchResult result
        (λ tlv. next (content_view content.now) offset ≡ Ok (view tlv))
        (λ fault. next (content_view content.now) offset ≡ Err fault.at) }
    ensures within { IfOk result (λ tlv. offset + length tlv.whole.now ≤ length content.now.bytes.now) }
    ensures inside { IfOk result (λ tlv. length tlv.content.now < length tlv.whole.now) }
    ensures place { IfErr result (λ fault. fault.at < content.now.begin + length content.now.bytes.now) }
{
    if offset == content.bytes.len() {
        return Err(DerFault { at: content.holder });
    }
    match read_tlv(content.bytes, offset) {
        Ok(tlv) => Ok(tlv),
        Err(_) => Err(DerFault {
            at: content.begin + offset,
        }),
    }
}

#[tactic(auto, unfolding(crate::specs::Layout::take_one))]
pub(crate) fn take<'a>(
    tag: u8,
    rule: Rule,
    content: &Content<'a>,
    offset: usize,
) -> Result<Tlv<'a>, DerFault>
    requires { offset ≤ length content.now.bytes.now }
    ensures value { MatchResult result
        (λ tlv. take_one tag rule (content_view content.now) offset ≡ Ok (view tlv))
        (λ fault. take_one tag rule (content_view content.now) offset ≡ Err fault.at) }
    ensures within { IfOk result (λ tlv. offset + length tlv.whole.now ≤ length content.now.bytes.now) }
    ensures inside { IfOk result (λ tlv. length tlv.content.now < length tlv.whole.now) }
    ensures place { IfErr result (λ fault. fault.at < content.now.begin + length content.now.bytes.now) }
{
    let tlv = next_element(content, offset)?;
    if tlv.tag == tag && allows(rule, &content.bytes[..offset], &tlv) {
        Ok(tlv)
    } else {
        Err(DerFault {
            at: content.begin + offset,
        })
    }
}

#[tactic(auto, unfolding(crate::specs::Layout::all_of))]
pub(crate) fn no_more(content: &Content<'_>, end: usize) -> Result<(), DerFault>
    requires { end ≤ length content.now.bytes.now }
    ensures value { MatchResult result
        (λ full. (all_of (content_view content.now) end ≡ Ok end)
        × (end ≡ length content.now.bytes.now))
        (λ fault. all_of (content_view content.now) end ≡ Err fault.at) }
    ensures place { IfErr result (λ fault. fault.at < content.now.begin + length content.now.bytes.now) }
{
    if end < content.bytes.len() {
        Err(DerFault {
            at: content.begin + end,
        })
    } else {
        Ok(())
    }
}

// One layout as often as it comes, up to the end of the content.
#[cycle(judging)]
#[tactic(auto, using(crate::proofs::Walks::again, crate::proofs::Walks::again_fails, crate::proofs::Walks::again_ends, crate::proofs::Walks::again_no_more), unfolding(crate::specs::Layout::read, crate::specs::Layout::all_of))]
fn judge_all(one: &Layout<'_>, content: &Content<'_>, offset: usize) -> Result<usize, DerFault>
    requires { offset ≤ length content.now.bytes.now }
    ensures value { MatchResult result
        (λ end. read (many (meaning one.now)) (content_view content.now) offset ≡ Ok end)
        (λ fault. read (many (meaning one.now)) (content_view content.now) offset ≡ Err fault.at) }
    ensures within { IfOk result (λ end. end ≤ length content.now.bytes.now) }
    ensures place { IfErr result (λ fault. fault.at < content.now.begin + length content.now.bytes.now) }
{
    let mut reached = offset;
    for _ in 0..content.bytes.len() {
        if reached == content.bytes.len() {
            return Ok(reached);
        }
        reached = judge(one, content, reached)?;
    }
    no_more(content, reached)?;
    Ok(reached)
}

// The rule that elements are judged by of which so many at the front are known to differ.
fn distinct_rule(number: usize, apart: usize) -> Rule
    ensures { result ≡ (if nat_lt number apart then Rule.Any else Rule.NotTwice) }
{
    if number < apart {
        Rule::Any
    } else {
        Rule::NotTwice
    }
}

// The element of a number, where so many at the front are known to differ.
#[cycle(judging)]
fn judge_next(
    tag: u8,
    inner: &Layout<'_>,
    content: &Content<'_>,
    offset: usize,
    number: usize,
    apart: usize,
) -> Result<usize, DerFault>
    requires within { offset ≤ length content.now.bytes.now }
    requires stands { StandsAt content.now.bytes.now offset number }
    requires apart { AreApart apart (firsts content.now.bytes.now) }
    ensures value { MatchResult result
        (λ end. read (element tag Rule.NotTwice (meaning inner.now)) (content_view content.now) offset ≡ Ok end)
        (λ fault. read (element tag Rule.NotTwice (meaning inner.now)) (content_view content.now) offset ≡ Err fault.at) }
    ensures next { IfOk result (λ end. StandsAt content.now.bytes.now end (number + 1)) }
    ensures within { IfOk result (λ end. end ≤ length content.now.bytes.now) }
    ensures place { IfErr result (λ fault. fault.at < content.now.begin + length content.now.bytes.now) }
{
    let rule = distinct_rule(number, apart);
    match judge_element(tag, rule, inner, content, offset) {
        Ok(end) => Ok(end),
        Err(fault) => Err(fault),
    }
}

// Elements of one tag up to the end of the content, none of which begins with the same element as one before.
#[cycle(judging)]
#[tactic(auto, using(crate::proofs::Walks::again, crate::proofs::Walks::again_fails, crate::proofs::Walks::again_ends, crate::proofs::Walks::again_no_more, crate::proofs::NotTwice::stands_at_0), unfolding(crate::specs::Layout::read, crate::specs::Layout::all_of))]
fn judge_distinct(tag: u8, inner: &Layout<'_>, content: &Content<'_>) -> Result<usize, DerFault>
    ensures value { MatchResult result
        (λ end. read (many (element tag Rule.NotTwice (meaning inner.now))) (content_view content.now) 0 ≡ Ok end)
        (λ fault. read (many (element tag Rule.NotTwice (meaning inner.now))) (content_view content.now) 0 ≡ Err fault.at) }
    ensures within { IfOk result (λ end. end ≤ length content.now.bytes.now) }
    ensures place { IfErr result (λ fault. fault.at < content.now.begin + length content.now.bytes.now) }
{
    let apart = distinct(content.bytes);
    let mut reached = 0;
    for number in 0..content.bytes.len() {
        if reached == content.bytes.len() {
            return Ok(reached);
        }
        reached = judge_next(tag, inner, content, reached, number, apart)?;
    }
    no_more(content, reached)?;
    Ok(reached)
}

// One layout as often as it comes, up to the end of the content.
#[cycle(judging)]
#[tactic(auto, unfolding(crate::specs::Layout::read))]
fn judge_many(one: &Layout<'_>, content: &Content<'_>, offset: usize) -> Result<usize, DerFault>
    requires { offset ≤ length content.now.bytes.now }
    ensures value { MatchResult result
        (λ end. read (many (meaning one.now)) (content_view content.now) offset ≡ Ok end)
        (λ fault. read (many (meaning one.now)) (content_view content.now) offset ≡ Err fault.at) }
    ensures within { IfOk result (λ end. end ≤ length content.now.bytes.now) }
    ensures place { IfErr result (λ fault. fault.at < content.now.begin + length content.now.bytes.now) }
{
    if offset != 0 {
        return judge_all(one, content, offset);
    }
    match one {
        Layout::Element(tag, Rule::NotTwice, inner) => judge_distinct(*tag, inner, content),
        _ => judge_all(one, content, offset),
    }
}

// An element of this tag that meets the rule, and what it holds.
#[cycle(judging)]
#[tactic(auto, unfolding(crate::specs::Layout::read))]
fn judge_element(
    tag: u8,
    rule: Rule,
    inner: &Layout<'_>,
    content: &Content<'_>,
    offset: usize,
) -> Result<usize, DerFault>
    requires { offset ≤ length content.now.bytes.now }
    ensures value { MatchResult result
        (λ end. read (element tag rule (meaning inner.now)) (content_view content.now) offset ≡ Ok end)
        (λ fault. read (element tag rule (meaning inner.now)) (content_view content.now) offset ≡ Err fault.at) }
    ensures within { IfOk result (λ end. end ≤ length content.now.bytes.now) }
    ensures place { IfErr result (λ fault. fault.at < content.now.begin + length content.now.bytes.now) }
{
    let tlv = take(tag, rule, content, offset)?;
    let held = Content {
        holder: content.begin + offset,
        begin: content.begin + offset + (tlv.whole.len() - tlv.content.len()),
        bytes: tlv.content,
    };
    let end = judge(inner, &held, 0)?;
    no_more(&held, end)?;
    Ok(offset + tlv.whole.len())
}

/// How far the layout reads the content from an offset on, or the first bad element.
#[cycle(judging)]
#[tactic(auto, unfolding(crate::specs::Layout::read))]
fn judge(layout: &Layout<'_>, content: &Content<'_>, offset: usize) -> Result<usize, DerFault>
    requires { offset ≤ length content.now.bytes.now }
    ensures value { MatchResult result
        (λ end. read (meaning layout.now) (content_view content.now) offset ≡ Ok end)
        (λ fault. read (meaning layout.now) (content_view content.now) offset ≡ Err fault.at) }
    ensures within { IfOk result (λ end. end ≤ length content.now.bytes.now) }
    ensures place { IfErr result (λ fault. fault.at < content.now.begin + length content.now.bytes.now) }
{
    match layout {
        Layout::Nothing => Ok(offset),
        Layout::Both(front, back) => {
            let middle = judge(front, content, offset)?;
            judge(back, content, middle)
        }
        Layout::Element(tag, rule, inner) => { judge_element(*tag, *rule, inner, content, offset) }
        Layout::Unread => Ok(content.bytes.len()),
        Layout::WholeElement => {
            let tlv = next_element(content, offset)?;
            Ok(offset + tlv.whole.len())
        }
        Layout::Many(one) => { judge_many(one, content, offset) }
        Layout::Told(test, first, second) => {
            if decides(*test, &content.bytes[..offset], &content.bytes[offset..]) {
                judge(first, content, offset)
            } else {
                judge(second, content, offset)
            }
        }
    }
}

#[tactic(auto, unfolding(crate::specs::Layout::read_object))]
fn judge_object(layout: &Layout<'_>, bytes: &[u8]) -> Result<(), DerFault>
    ensures value { MatchResult result
        (λ full. read_object (meaning layout.now) bytes.now ≡ Ok (length bytes.now))
        (λ fault. read_object (meaning layout.now) bytes.now ≡ Err fault.at) }
    ensures place { IfErr result (λ fault. 0 < length bytes.now → fault.at < length bytes.now) }
{
    if bytes.is_empty() {
        return Err(DerFault { at: 0 });
    }
    let content = Content {
        holder: 0,
        begin: 0,
        bytes,
    };
    let end = judge(layout, &content, 0)?;
    no_more(&content, end)?;
    Ok(())
}

/// Judges whether the bytes are one whole object of the layout.
///
/// The fault names the first bad element: its tag, or, where a content ends before an element that has to stand, the tag of the
/// element that holds this content. Its place is below the length; of no bytes at all it is 0.
pub fn check(layout: &Layout<'_>, bytes: &[u8]) -> Result<(), DerFault>
    // Ok exactly where the bytes are one object, by the relation that knows no places.
    ensures exact { IsOk result ↔ IsObject (meaning layout.now) bytes.now }

    // Which element is the first bad one.
    ensures value { MatchResult result
        (λ full. read_object (meaning layout.now) bytes.now ≡ Ok (length bytes.now))
        (λ fault. read_object (meaning layout.now) bytes.now ≡ Err fault.at) }
    ensures place { IfErr result (λ fault. 0 < length bytes.now → fault.at < length bytes.now) }
{
    judge_object(layout, bytes)
}
