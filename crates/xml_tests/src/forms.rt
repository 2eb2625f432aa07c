//! Canonical texts of documents and of parts of them.

ghost use Rattle.std.specs.Prelude.{◌≤◌, length};

use crate::documents::Ledger;
use canon_forms::{Form, Prefixes, to_vec};
use doc_spans::{Doc, Tree};
use node_sets::{IdAnswer, NodeSet, find_id};
use std::alloc::Global;
use std::test::Fail;
use xa_io::Steps;

const INCLUSIVE: Form<'static> = Form::Inclusive { comments: false };

// Exclusive, without a list of prefixes.
pub(crate) fn exclusive() -> Form<'static> {
    Form::Exclusive {
        comments: false,
        prefixes: Prefixes::none(),
    }
}

// Whether this is the text of a whole document.
pub(crate) fn is_whole(
    alloc: Global,
    bytes: &[u8],
    form: Form<'_>,
    expected: &str,
) -> Result<bool, Fail>
    requires { length bytes.now ≤ 16777216 }
{
    let mut steps: Steps<Ledger> = Steps::new();
    let tree = Tree::read(alloc, bytes, &mut steps)?;
    let text = to_vec(alloc, &NodeSet::whole(Doc::of(bytes, &tree)), &form)?;
    Ok(text.as_slice() == expected.as_bytes())
}

// Whether this is the text of the element with an identifier.
pub(crate) fn is_part(
    alloc: Global,
    bytes: &[u8],
    id: &str,
    form: Form<'_>,
    expected: &str,
) -> Result<bool, Fail>
    requires { length bytes.now ≤ 16777216 }
{
    let mut steps: Steps<Ledger> = Steps::new();
    let tree = Tree::read(alloc, bytes, &mut steps)?;
    let doc = Doc::of(bytes, &tree);
    match find_id(doc, id) {
        IdAnswer::One(node) => {
            let text = to_vec(alloc, &NodeSet::subtree(doc, node), &form)?;
            Ok(text.as_slice() == expected.as_bytes())
        }
        _ => Ok(false),
    }
}

// Whether this is the text of a document without the element with an identifier.
fn is_rest(alloc: Global, bytes: &[u8], id: &str, expected: &str) -> Result<bool, Fail>
    requires { length bytes.now ≤ 16777216 }
{
    let mut steps: Steps<Ledger> = Steps::new();
    let tree = Tree::read(alloc, bytes, &mut steps)?;
    let doc = Doc::of(bytes, &tree);
    match find_id(doc, id) {
        IdAnswer::One(node) => {
            let text = to_vec(alloc, &NodeSet::whole(doc).without(node), &exclusive())?;
            Ok(text.as_slice() == expected.as_bytes())
        }
        _ => Ok(false),
    }
}

#[test]
fn writes_declarations_and_attributes_in_order(rt: HostRuntime) -> Result<(), Fail> {
    let document =
        b"<b:a xmlns:b=\"u\" z=\"1\" b:y=\"2\" x=\"&#9;\"><c xmlns=\"\" xmlns:b=\"u\"/></b:a>";
    let expected = "<b:a xmlns:b=\"u\" x=\"&#x9;\" z=\"1\" b:y=\"2\"><c></c></b:a>";
    let is_right = is_whole(rt.alloc(), document, exclusive(), expected)?;
    assert!(rt; is_right);
    Ok(())
}

const APEX: &[u8] =
    b"<r xmlns=\"u\" xmlns:p=\"v\" xml:lang=\"de\"><p:x id=\"k\" a=\"1\"><y/></p:x></r>";

#[test]
fn writes_what_stands_around_an_apex(rt: HostRuntime) -> Result<(), Fail> {
    let alloc = rt.alloc();
    let used = "<p:x xmlns:p=\"v\" a=\"1\" id=\"k\"><y xmlns=\"u\"></y></p:x>";
    let by_use = is_part(alloc, APEX, "k", exclusive(), used)?;
    let all = "<p:x xmlns=\"u\" xmlns:p=\"v\" a=\"1\" id=\"k\" xml:lang=\"de\"><y></y></p:x>";
    let by_scope = is_part(alloc, APEX, "k", INCLUSIVE, all)?;
    assert!(rt; by_use && by_scope);
    Ok(())
}

#[test]
fn writes_a_listed_default(rt: HostRuntime) -> Result<(), Fail> {
    let listed = Form::Exclusive {
        comments: false,
        prefixes: Prefixes::of_words("#default"),
    };
    let expected = "<p:x xmlns=\"u\" xmlns:p=\"v\" a=\"1\" id=\"k\"><y></y></p:x>";
    let is_right = is_part(rt.alloc(), APEX, "k", listed, expected)?;
    assert!(rt; is_right);
    Ok(())
}

#[test]
fn reads_line_ends_and_keeps_references(rt: HostRuntime) -> Result<(), Fail> {
    let document = b"<a t=\"x\r\ny\">p\r\nq<![CDATA[r\rs]]>&#13;</a>";
    let expected = "<a t=\"x y\">p\nqr\ns&#xD;</a>";
    let is_right = is_whole(rt.alloc(), document, exclusive(), expected)?;
    assert!(rt; is_right);
    Ok(())
}

#[test]
fn writes_lines_outside_the_document_element(rt: HostRuntime) -> Result<(), Fail> {
    let alloc = rt.alloc();
    let document = b"<?x 1?><!--c--><a/><!--d--><?y?>";
    let without = is_whole(alloc, document, INCLUSIVE, "<?x 1?>\n<a></a>\n<?y?>")?;
    let form = Form::Inclusive { comments: true };
    let expected = "<?x 1?>\n<!--c-->\n<a></a>\n<!--d-->\n<?y?>";
    let with = is_whole(alloc, document, form, expected)?;
    assert!(rt; without && with);
    Ok(())
}

#[test]
fn leaves_a_subtree_out(rt: HostRuntime) -> Result<(), Fail> {
    let alloc = rt.alloc();
    let document = b"<?x?><r><!--c--><s Id=\"k\"><t/>u</s>v<w><z/></w></r><?y?>";
    let expected = "<?x?>\n<r>v<w><z></z></w></r>\n<?y?>";
    let inside = is_rest(alloc, document, "k", expected)?;
    let outer = b"<?x?><!--c--><r Id=\"k\"/><?y?>";
    let at_top = is_rest(alloc, outer, "k", "<?x?>\n\n<?y?>")?;
    assert!(rt; inside && at_top);
    Ok(())
}
