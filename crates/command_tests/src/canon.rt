//! Canonical texts, faults of documents, and words of no command.

ghost use Rattle.std.specs.Prelude.{◌<◌};

use crate::runs::{NONE, answer_of, is};
use std::test::Fail;
use xa_io::Octs;

pub const CANON: &[&str] = &["canon", "doc=a"];

// A run, and what it must come to.
#[derive(Clone, Copy)]
struct Row {
    words: &'static [&'static str],
    document: &'static [u8],
    number: u8,
    out: &'static [u8],
    err: &'static [u8],
}

// A run that is carried out.
fn done(words: &'static [&'static str], document: &'static [u8], out: &'static [u8]) -> Row {
    Row {
        words,
        document,
        number: 0,
        out,
        err: b"",
    }
}

// A run that ends with a line on `err` and nothing on `out`.
fn fails(
    words: &'static [&'static str],
    document: &'static [u8],
    number: u8,
    err: &'static [u8],
) -> Row {
    Row {
        words,
        document,
        number,
        out: b"",
        err,
    }
}

// Whether a row comes to what it must, with files that are given in parts of a size.
fn comes(rt: &HostRuntime, row: &Row, most: usize) -> Result<bool, Fail>
    requires { 0 < most }
{
    let answer = answer_of(rt, row.words, row.document, most, &NONE)?;
    Ok(is(&answer, row.number, row.out, row.err))
}

// The number of the first row that comes to something else with files in parts of some size, from 1; 0 where there is none.
fn first_other(rt: &HostRuntime, rows: &[Row]) -> Result<usize, Fail> {
    'rows: for (number, row) in rows.iter().enumerate() {
        if !(comes(rt, row, 1)? && comes(rt, row, 3)? && comes(rt, row, 100)?) {
            return Ok(number.saturating_add(1));
        }
    }
    Ok(0)
}

const COMMENTS: &[&str] = &["canon", "doc=a", "comments=yes"];

const PREFIXED: &[u8] =
    b"<b:a xmlns:b=\"u\" z=\"1\" b:y=\"2\" x=\"&#9;\"><c xmlns=\"\" xmlns:b=\"u\"/></b:a>";

const INNER: &[u8] =
    b"<r xmlns=\"u\" xmlns:p=\"v\" xml:lang=\"de\"><p:x id=\"k\" a=\"1\"><y/></p:x></r>";

const AROUND: &[u8] = b"<?x 1?><!--c--><a/><!--d--><?y?>";

#[test]
fn writes_canonical_texts(rt: HostRuntime) -> Result<(), Fail> {
    let rows = [
        done(CANON, b"<a/>", b"<a></a>"),
        done(
            CANON,
            b"<a><b>x > y</b>\n<c /></a>",
            b"<a><b>x &gt; y</b>\n<c></c></a>",
        ),
        done(CANON, b"<a>&lt;</a>", b"<a>&lt;</a>"),
        done(
            CANON,
            PREFIXED,
            b"<b:a xmlns:b=\"u\" x=\"&#x9;\" z=\"1\" b:y=\"2\"><c></c></b:a>",
        ),
        done(
            &["canon", "doc=a", "id=k"],
            INNER,
            b"<p:x xmlns:p=\"v\" a=\"1\" id=\"k\"><y xmlns=\"u\"></y></p:x>",
        ),
        done(
            &["canon", "doc=a", "form=inclusive", "id=k"],
            INNER,
            b"<p:x xmlns=\"u\" xmlns:p=\"v\" a=\"1\" id=\"k\" xml:lang=\"de\"><y></y></p:x>",
        ),
        done(
            &["canon", "doc=a", "prefixes=#default", "id=k"],
            INNER,
            b"<p:x xmlns=\"u\" xmlns:p=\"v\" a=\"1\" id=\"k\"><y></y></p:x>",
        ),
        done(
            CANON,
            b"<a t=\"x\r\ny\">p\r\nq<![CDATA[r\rs]]>&#13;</a>",
            b"<a t=\"x y\">p\nqr\ns&#xD;</a>",
        ),
        done(CANON, AROUND, b"<?x 1?>\n<a></a>\n<?y?>"),
        done(
            COMMENTS,
            AROUND,
            b"<?x 1?>\n<!--c-->\n<a></a>\n<!--d-->\n<?y?>",
        ),
        done(
            &["canon", "doc=a", "form=inclusive", "comments=yes"],
            AROUND,
            b"<?x 1?>\n<!--c-->\n<a></a>\n<!--d-->\n<?y?>",
        ),
    ];
    assert!(rt; first_other(&rt, &rows)? == 0);
    Ok(())
}

#[test]
fn tells_the_fault_of_a_document(rt: HostRuntime) -> Result<(), Fail> {
    let rows = [
        fails(
            CANON,
            b"<!--c--><!DOCTYPE a><a/>",
            7,
            b"xades: document fault 2 at 8\n",
        ),
        fails(CANON, b"<a><b", 7, b"xades: document fault 1 at 3\n"),
        fails(CANON, b"", 7, b"xades: document fault 5 at 0\n"),
        fails(CANON, b"<a>", 7, b"xades: document fault 5 at 3\n"),
        fails(CANON, b"<a>&x;</a>", 7, b"xades: document fault 1 at 3\n"),
        fails(CANON, b"<a>]]></a>", 7, b"xades: document fault 1 at 5\n"),
        fails(
            CANON,
            b"<a b=\"1\" b=\"2\"/>",
            7,
            b"xades: document fault 1 at 0\n",
        ),
        fails(CANON, b"<p:a/>", 7, b"xades: document fault 1 at 0\n"),
        fails(CANON, b"<a></b>", 7, b"xades: document fault 1 at 3\n"),
        fails(CANON, b"<a/>x", 7, b"xades: document fault 1 at 4\n"),
        fails(CANON, b"<a/><b/>", 7, b"xades: document fault 1 at 4\n"),
        fails(
            CANON,
            b"<?xml version=\"1.1\"?><a/>",
            7,
            b"xades: document fault 1 at 0\n",
        ),
        fails(CANON, b"\xEF\xBB\xBF", 7, b"xades: document fault 5 at 3\n"),
        fails(CANON, b"<a>&#0;</a>", 7, b"xades: document fault 1 at 3\n"),
    ];
    assert!(rt; first_other(&rt, &rows)? == 0);
    Ok(())
}

#[test]
fn refuses_identifiers_and_missing_files(rt: HostRuntime) -> Result<(), Fail> {
    let two = b"<r><a Id=\"x\"/><b ID=\"x\"/></r>";
    let rows = [
        fails(
            &["canon", "doc=a", "id=x"],
            two,
            10,
            b"xades: item 0 refused: A7\n",
        ),
        fails(
            &["canon", "doc=a", "id=y"],
            two,
            10,
            b"xades: item 0 refused: A6\n",
        ),
        fails(
            &["canon", "doc=a", "id=x"],
            b"<r xmlns:p=\"u\"><a p:id=\"x\"/></r>",
            10,
            b"xades: item 0 refused: A6\n",
        ),
        fails(&["canon", "doc=b"], b"<a/>", 3, b"xades: no such file: b\n"),
    ];
    assert!(rt; first_other(&rt, &rows)? == 0);
    Ok(())
}

// Words that no command goes on with, and the number of the first of them.
const STRAY: &[(&[&str], u8)] = &[
    (&[], b'1'),
    (&["frob"], b'1'),
    (&["canon"], b'2'),
    (&["canon", "doc="], b'2'),
    (&["canon", "doc=a", "id="], b'3'),
    (&["canon", "doc=a", "doc=a"], b'3'),
    (&["canon", "doc=a", "form=both"], b'3'),
    (&["canon", "doc=a", "comments=maybe"], b'3'),
    (&["canon", "doc=a", "prefixes="], b'3'),
    (&["canon", "doc=a", "prefixes=a,,b"], b'3'),
    (&["canon", "doc=a", "prefixes=a:b"], b'3'),
    (&["octets"], b'2'),
    (&["octets", "form=exclusive"], b'2'),
    (&["octets", "doc=a"], b'3'),
    (&["octets", "doc=a", "ext=e"], b'3'),
    (&["octets", "doc=a", "for=stamps"], b'3'),
    (&["octets", "doc=a", "for=both"], b'3'),
    (&["octets", "doc=a", "for=signature", "ext="], b'4'),
    (&["octets", "doc=a", "for=signature", "ext=e", "id=x"], b'5'),
    (&["prepare"], b'2'),
    (&["prepare", "doc=a", "cert=c"], b'3'),
    (
        &["prepare", "doc=a", "policy=p", "time=2030-01-01T00:00:00Z"],
        b'4',
    ),
    (
        &["prepare", "doc=a", "policy=p", "cert=c", "time=2030-01-01"],
        b'5',
    ),
    (&["canon", "doc=a", "for=signature"], b'3'),
    (&["canon", "doc=a", "id=x", "id=x"], b'4'),
    (&["canon", "doc=a", "comments=no", "form=exclusive"], b'4'),
    (&["canon", "doc=a", "form=inclusive", "prefixes=a"], b'4'),
    (
        &[
            "canon",
            "doc=a",
            "form=inclusive",
            "comments=no",
            "prefixes=a",
        ],
        b'5',
    ),
    (
        &[
            "canon",
            "doc=a",
            "form=exclusive",
            "comments=no",
            "prefixes=a,#default",
            "id=x",
            "x",
        ],
        b'7',
    ),
];

// Whether the word with this number is told to be faulty.
fn is_stray(rt: &HostRuntime, words: &[&str], digit: u8) -> Result<bool, Fail> {
    let answer = answer_of(rt, words, b"<a/>", 100, &NONE)?;
    let mut err = Octs::new(rt.alloc());
    err.push_all(b"xades: word ")?;
    err.push_all(&[digit])?;
    err.push_all(b" is not understood\n")?;
    Ok(is(&answer, 2, b"", err.as_slice()))
}

#[test]
fn tells_the_first_stray_word(rt: HostRuntime) -> Result<(), Fail> {
    'rows: for (words, digit) in STRAY {
        assert!(rt; is_stray(&rt, words, *digit)?, "{words:?}");
    }
    Ok(())
}

// So many elements inside each other, with their end tags where `closed`.
fn nested(rt: &HostRuntime, depth: usize, closed: bool) -> Result<Octs, Fail> {
    let mut document = Octs::new(rt.alloc());
    'starts: for _start in 0..depth {
        document.push_all(b"<a>")?;
    }
    if closed {
        'ends: for _end in 0..depth {
            document.push_all(b"</a>")?;
        }
    }
    Ok(document)
}

#[test]
fn reads_256_elements_inside_each_other(rt: HostRuntime) -> Result<(), Fail> {
    let deep = nested(&rt, 256, true)?;
    let answer = answer_of(&rt, CANON, deep.as_slice(), 1000, &NONE)?;
    assert!(rt; is(&answer, 0, deep.as_slice(), b""));
    let deeper = nested(&rt, 257, false)?;
    let answer = answer_of(&rt, CANON, deeper.as_slice(), 1000, &NONE)?;
    assert!(rt; is(&answer, 7, b"", b"xades: document fault 3 at 768\n"));
    Ok(())
}
