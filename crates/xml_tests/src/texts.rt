//! What is written for each character: Canonical XML 1.0, section 2.3.

use canon_texts::{put_comment, put_instruction, put_text, put_value};
use doc_spans::Pieces;
use std::test::Fail;
use xa_io::Octs;

const CHARACTERS: &str = "a<b>&\"'\t\n\r\u{E4}";

#[test]
fn escapes_texts_and_values(rt: HostRuntime) -> Result<(), Fail> {
    let mut text = Octs::new(rt.alloc());
    put_text(&mut text, Pieces::of(CHARACTERS))?;
    assert!(rt; text.as_slice() == "a&lt;b&gt;&amp;\"'\t\n&#xD;\u{E4}".as_bytes());
    let mut value = Octs::new(rt.alloc());
    put_value(&mut value, Pieces::of(CHARACTERS))?;
    assert!(rt; value.as_slice() == "a&lt;b>&amp;&quot;'&#x9;&#xA;&#xD;\u{E4}".as_bytes());
    Ok(())
}

#[test]
fn writes_comments_and_instructions(rt: HostRuntime) -> Result<(), Fail> {
    let mut out = Octs::new(rt.alloc());
    put_comment(&mut out, Pieces::of("a<&>\r"))?;
    put_instruction(&mut out, "t", Pieces::of("a<&>"))?;
    put_instruction(&mut out, "t", Pieces::of(""))?;
    assert!(rt; out.as_slice() == b"<!--a<&>\r--><?t a<&>?><?t?>".as_slice());
    Ok(())
}
