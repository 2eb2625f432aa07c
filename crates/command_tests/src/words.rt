//! Which words fit, on a small pattern.

use crate::runs::words_of;
use std::test::Fail;
use word_patterns::{Part, TextForm, WordForm, faulty_word, text_behind, texts_behind};

// one or two files, and then perhaps `end`
const PATTERN: &[Part<'static>] = &[
    Part {
        forms: &[
            WordForm::Keyed("file=", TextForm::FileName),
            WordForm::Keyed("prefixes=", TextForm::Prefixes),
        ],
        least: 1,
        most: 2,
    },
    Part {
        forms: &[WordForm::Plain("end")],
        least: 0,
        most: 1,
    },
];

// Words, and the number of the faulty one; 0 where they fit.
const ROWS: &[(&[&str], u32)] = &[
    (&[], 1),
    (&["end"], 1),
    (&["file="], 1),
    (&["file=a"], 0),
    (&["file=a", "file=b", "end"], 0),
    (&["file=a", "file=b", "file=c"], 3),
    (&["file=a", "end", "end"], 3),
    (&["prefixes=a,#default,b.c"], 0),
    (&["prefixes="], 1),
    (&["prefixes=a,"], 1),
    (&["prefixes=#other"], 1),
    (&["prefixes=a:b"], 1),
];

// The number of the faulty word; 0 where they fit.
fn faulty_of(rt: &HostRuntime, texts: &[&str]) -> Result<u32, Fail> {
    let words = words_of(rt, texts)?;
    match faulty_word(rt.alloc(), &[PATTERN], words.as_slice()) {
        Ok(Some(found)) => Ok(found),
        Ok(None) => Ok(0),
        Err(_) => Err(Fail::new("no memory")),
    }
}

#[test]
fn tells_the_first_word_that_no_pattern_goes_on_with(rt: HostRuntime) -> Result<(), Fail> {
    'rows: for (texts, number) in ROWS {
        assert!(rt; faulty_of(&rt, texts)? == *number, "{texts:?}");
    }
    Ok(())
}

#[test]
fn gives_the_first_text_behind_a_key(rt: HostRuntime) -> Result<(), Fail> {
    let words = words_of(&rt, &["file=a", "file=b"])?;
    assert!(rt; text_behind("file=", words.as_slice()).as_bytes() == b"a".as_slice());
    assert!(rt; text_behind("end", words.as_slice()).is_empty());
    Ok(())
}

#[test]
fn gives_all_texts_behind_a_key(rt: HostRuntime) -> Result<(), Fail> {
    let words = words_of(&rt, &["file=a", "end", "file=", "fil=c", "file=b"])?;
    match texts_behind(rt.alloc(), "file=", words.as_slice())?.as_slice() {
        [first, second, third] => {
            assert!(rt;
                first.as_bytes() == b"a".as_slice()
                    && second.is_empty()
                    && third.as_bytes() == b"b".as_slice()
            );
            Ok(())
        }
        _ => Err(Fail::new("another number of texts")),
    }
}
