//! The forms that elements name.

ghost use Rattle.std.specs.Prelude.{◌≤◌, length};

use crate::documents::Ledger;
use crate::forms::is_part;
use canon_forms::{Form, read_form};
use doc_spans::{Doc, Tree};
use std::alloc::Global;
use std::test::Fail;
use xa_io::Steps;

// The document element is a method: whether it names the inclusive form, and with comments; none where it names no form.
fn named(alloc: Global, bytes: &[u8]) -> Result<Option<(bool, bool)>, Fail>
    requires { length bytes.now ≤ 16777216 }
{
    let mut steps: Steps<Ledger> = Steps::new();
    let tree = Tree::read(alloc, bytes, &mut steps)?;
    let doc = Doc::of(bytes, &tree);
    Ok(match read_form(doc, doc.root()) {
        Some(Form::Inclusive { comments }) => Some((true, comments)),
        Some(Form::Exclusive { comments, .. }) => Some((false, comments)),
        None => None,
    })
}

fn names_form(alloc: Global, bytes: &[u8], inclusive: bool, comments: bool) -> Result<bool, Fail>
    requires { length bytes.now ≤ 16777216 }
{
    match named(alloc, bytes)? {
        Some(found) => Ok(found.0 == inclusive && found.1 == comments),
        None => Ok(false),
    }
}

const INCLUSIVE: &[u8] = b"<m Algorithm=\"http://www.w3.org/TR/2001/REC-xml-c14n-20010315\"/>";

const INCLUSIVE_COMMENTS: &[u8] =
    b"<m Algorithm=\"http://www.w3.org/TR/2001/REC-xml-c14n-20010315#WithComments\"/>";

const EXCLUSIVE: &[u8] = b"<m Algorithm=\"http://www.w3.org/2001/10/xml-exc-c14n#\"/>";

const EXCLUSIVE_COMMENTS: &[u8] =
    b"<m Algorithm=\"http://www.w3.org/2001/10/xml-exc-c14n#WithComments\"/>";

#[test]
fn reads_the_four_forms(rt: HostRuntime) -> Result<(), Fail> {
    let alloc = rt.alloc();
    let inclusive = names_form(alloc, INCLUSIVE, true, false)?
        && names_form(alloc, INCLUSIVE_COMMENTS, true, true)?;
    let exclusive = names_form(alloc, EXCLUSIVE, false, false)?
        && names_form(alloc, EXCLUSIVE_COMMENTS, false, true)?;
    assert!(rt; inclusive && exclusive);
    Ok(())
}

#[test]
fn knows_no_other_form(rt: HostRuntime) -> Result<(), Fail> {
    let other = b"<m Algorithm=\"http://www.w3.org/2006/12/xml-c14n11\"/>";
    let is_unknown = named(rt.alloc(), other)?.is_none();
    let is_unnamed = named(rt.alloc(), b"<m/>")?.is_none();
    assert!(rt; is_unknown && is_unnamed);
    Ok(())
}

const LISTED: &[u8] =
    b"<m xmlns:e=\"http://www.w3.org/2001/10/xml-exc-c14n#\" xmlns:f=\"v\" Algorithm=\"http://www.w3.org/2001/10/xml-exc-c14n#\"><e:InclusiveNamespaces PrefixList=\"f\t#default\"/><n Id=\"k\"/></m>";

#[test]
fn uses_the_listed_prefixes(rt: HostRuntime) -> Result<(), Fail> {
    let mut steps: Steps<Ledger> = Steps::new();
    let tree = Tree::read(rt.alloc(), LISTED, &mut steps)?;
    let doc = Doc::of(LISTED, &tree);
    let form = read_form(doc, doc.root()).ok_or("a form")?;
    let is_right = is_part(
        rt.alloc(),
        LISTED,
        "k",
        form,
        "<n xmlns:f=\"v\" Id=\"k\"></n>",
    )?;
    assert!(rt; is_right);
    Ok(())
}
