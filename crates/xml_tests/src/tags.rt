//! Start tags as the two standards write them.

use canon_tags::{Around, Prefixes, Rule};
use doc_spans::{OpenTag, Pieces};
use std::alloc::Global;
use std::test::Fail;
use xa_io::Octs;
use xml_items::items::Found;
use xml_items::scanner::next_item;

// The start tag that stands at the front of a text.
fn tag(text: &str) -> Option<OpenTag<'_>> {
    match next_item(text.as_bytes(), 0) {
        Some(scanned) => match scanned.found {
            Found::StartTag(name, attributes) => Some(OpenTag { name, attributes }),
            _ => None,
        },
        None => None,
    }
}

// Whether this is written of elements, one inside the other, of which the first stands in others.
fn are_written(
    alloc: Global,
    held: &[&str],
    opened: &[&str],
    rule: &Rule<'_>,
    expected: &str,
) -> Result<bool, Fail> {
    let mut around = Around::new(alloc);
    let mut out = Octs::new(alloc);
    for text in held {
        around.hold(tag(text).ok_or("no tag")?)?;
    }
    for text in opened {
        around.open(&mut out, rule, tag(text).ok_or("no tag")?)?;
    }
    Ok(out.as_slice() == expected.as_bytes())
}

#[test]
fn writes_what_is_used(rt: HostRuntime) -> Result<(), Fail> {
    let rule = Rule::Exclusive(Prefixes::none());
    let tags = [
        "<b:a xmlns:b=\"u\" z=\"1\" b:y=\"2\" x=\"&#9;\">",
        "<c xmlns=\"\" xmlns:b=\"u\">",
    ];
    let expected = "<b:a xmlns:b=\"u\" x=\"&#x9;\" z=\"1\" b:y=\"2\"><c>";
    let is_right = are_written(rt.alloc(), &[], &tags, &rule, expected)?;
    assert!(rt; is_right);
    Ok(())
}

// Whether this is written of one element by a rule.
fn is_apex(alloc: Global, rule: &Rule<'_>, expected: &str) -> Result<bool, Fail> {
    let held = ["<r xmlns=\"u\" xmlns:p=\"v\" xml:lang=\"de\">"];
    let tags = ["<p:x id=\"k\" a=\"1\">"];
    are_written(alloc, &held, &tags, rule, expected)
}

#[test]
fn writes_an_apex_by_each_rule(rt: HostRuntime) -> Result<(), Fail> {
    let alloc = rt.alloc();
    let used = Rule::Exclusive(Prefixes::none());
    let by_use = is_apex(alloc, &used, "<p:x xmlns:p=\"v\" a=\"1\" id=\"k\">")?;
    let all = "<p:x xmlns=\"u\" xmlns:p=\"v\" a=\"1\" id=\"k\" xml:lang=\"de\">";
    let by_scope = is_apex(alloc, &Rule::Inclusive, all)?;
    assert!(rt; by_use && by_scope);
    Ok(())
}

#[test]
fn writes_an_apex_by_a_list(rt: HostRuntime) -> Result<(), Fail> {
    let alloc = rt.alloc();
    let listed = "<p:x xmlns=\"u\" xmlns:p=\"v\" a=\"1\" id=\"k\">";
    let words = Rule::Exclusive(Prefixes::of_words("q,#default"));
    let by_words = is_apex(alloc, &words, listed)?;
    let list = Rule::Exclusive(Prefixes::of_list(Pieces::of(" q\n#default")));
    let by_list = is_apex(alloc, &list, listed)?;
    assert!(rt; by_words && by_list);
    Ok(())
}

#[test]
fn leaves_an_element(rt: HostRuntime) -> Result<(), Fail> {
    let rule = Rule::Exclusive(Prefixes::none());
    let mut around = Around::new(rt.alloc());
    let mut out = Octs::new(rt.alloc());
    around.open(&mut out, &rule, tag("<a>").ok_or("no tag")?)?;
    let inner = tag("<p:b xmlns:p=\"u\">").ok_or("no tag")?;
    let outside = around.open(&mut out, &rule, inner)?;
    around.close(outside);
    around.open(&mut out, &rule, inner)?;
    assert!(rt; out.as_slice() == b"<a><p:b xmlns:p=\"u\"><p:b xmlns:p=\"u\">".as_slice());
    Ok(())
}

#[test]
fn looks_for_prefixes(rt: HostRuntime) {
    let list = Prefixes::of_words("ab,#default,c");
    assert!(rt; list.has("ab") && list.has("") && list.has("c"));
    assert!(rt; !list.has("a") && !list.has("abc") && !list.has("#default"));
    assert!(rt; !Prefixes::none().has(""));
}
