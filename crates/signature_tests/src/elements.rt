//! Elements, text and signatures of documents; the expected values follow from Namespaces in XML 1.0 and XML Signature 1.1.

ghost use Rattle.std.specs.Prelude.{IfSome};
ghost use Rattle.doc_spans.specs.Seen.{Has};
ghost use Rattle.signature_elements.specs.Standing.{IsThere};

use doc_spans::{Doc, NodeId, Piece, Tree};
use signature_elements::{
    ElementName, SignatureCount, attribute, called, counted, ds, elements, first_called, first_in,
    has_attribute, has_stray_text, is_blank, is_called, is_element, is_text_alone, points_to,
    texts, xades, xadesv141,
};
use std::test::Fail;
use xa_io::Steps;

struct Ledger;

const TEXT: &[u8] = b"<a xmlns:d=\"http://www.w3.org/2000/09/xmldsig#\" \
xmlns:x=\"http://uri.etsi.org/01903/v1.3.2#\" xmlns=\"u\"><d:Signature Id=\"s\" d:URI=\"t\"><!--c-->\
<d:Object> <d:Signature/> </d:Object><Object>x</Object><d:KeyInfo>y<!--c-->&amp;z</d:KeyInfo>\
<d:SignatureValue>x</d:SignatureValue><d:Object/>\
<x:Object xmlns:x=\"http://uri.etsi.org/01903/v1.4.1#\" Target=\"&#x23;s\"/></d:Signature></a>";

const TWO: &[u8] =
    b"<a xmlns=\"http://www.w3.org/2000/09/xmldsig#\"><Signature/><b><Signature/></b></a>";

// Whether more than one child has a name.
fn are_several(doc: Doc<'_>, node: NodeId, name: ElementName<'_>) -> bool
    requires { Has doc node }
{
    let mut children = called(doc, node, name);
    children.next().is_some() && children.next().is_some()
}

// The signature right below the document element.
fn signature_in(doc: Doc<'_>) -> Option<NodeId>
    ensures { IfSome result (IsThere doc.entry) }
{
    first_called(doc, doc.root(), ds("Signature"))
}

fn has_its_name(doc: Doc<'_>, signature: NodeId) -> bool
    requires { IsThere doc signature }
{
    is_element(doc, signature)
        && is_called(doc, signature, ds("Signature"))
        && !is_called(doc, signature, xades("Signature"))
}

fn holds_objects(doc: Doc<'_>, signature: NodeId) -> bool
    requires { IsThere doc signature }
{
    let first = first_called(doc, signature, ds("Object"));
    let later = first_called(doc, signature, xadesv141("Object"));
    elements(doc, signature).next() == first
        && first_called(doc, signature, xades("Object")).is_none()
        && first_in(doc, later, ds("Object")).is_none()
        && first_in(doc, first, ds("Signature")).is_some()
        && first_in(doc, None, ds("Signature")).is_none()
}

#[test]
fn finds_elements_by_their_names(rt: HostRuntime) -> Result<(), Fail> {
    let mut steps: Steps<Ledger> = Steps::new();
    let tree = Tree::read(rt.alloc(), TEXT, &mut steps)?;
    let doc = Doc::of(TEXT, &tree);
    let signature = signature_in(doc).expect(&rt, "a signature");
    assert!(rt; has_its_name(doc, signature));
    assert!(rt; holds_objects(doc, signature));
    Ok(())
}

fn has_attributes(doc: Doc<'_>, signature: NodeId) -> bool
    requires { IsThere doc signature }
{
    let is_named = match attribute(doc, signature, "Id") {
        Some(id) => id.same("s"),
        None => false,
    };
    is_named && has_attribute(doc, signature, "Id") && !has_attribute(doc, signature, "URI")
}

fn points_by_number_sign(doc: Doc<'_>, signature: NodeId) -> bool
    requires { IsThere doc signature }
{
    let id = attribute(doc, signature, "Id");
    let target = match first_called(doc, signature, xadesv141("Object")) {
        Some(object) => attribute(doc, object, "Target"),
        None => None,
    };
    points_to(target, id) && !points_to(id, id) && !points_to(None, id) && points_to(None, None)
}

#[test]
fn reads_attributes_without_prefix(rt: HostRuntime) -> Result<(), Fail> {
    let mut steps: Steps<Ledger> = Steps::new();
    let tree = Tree::read(rt.alloc(), TEXT, &mut steps)?;
    let doc = Doc::of(TEXT, &tree);
    let signature = signature_in(doc).expect(&rt, "a signature");
    assert!(rt; has_attributes(doc, signature));
    assert!(rt; points_by_number_sign(doc, signature));
    Ok(())
}

// Whether an element holds stray text, nothing but text, and nothing but white space.
fn holds(doc: Doc<'_>, element: Option<NodeId>, stray: bool, alone: bool, blank: bool) -> bool
    requires { IfSome element (IsThere doc) }
{
    match element {
        Some(node) => {
            has_stray_text(doc, node) == stray
                && is_text_alone(doc, node) == alone
                && is_blank(doc, node) == blank
        }
        None => false,
    }
}

fn tells_kinds_of_content(doc: Doc<'_>, signature: NodeId) -> bool
    requires { IsThere doc signature }
{
    let object = first_called(doc, signature, ds("Object"));
    let info = first_called(doc, signature, ds("KeyInfo"));
    let value = first_called(doc, signature, ds("SignatureValue"));
    holds(doc, Some(signature), false, false, true)
        && holds(doc, object, false, false, true)
        && holds(doc, info, true, false, false)
        && holds(doc, value, true, true, false)
}

#[test]
fn tells_text_from_other_content(rt: HostRuntime) -> Result<(), Fail> {
    let mut steps: Steps<Ledger> = Steps::new();
    let tree = Tree::read(rt.alloc(), TEXT, &mut steps)?;
    let doc = Doc::of(TEXT, &tree);
    let signature = signature_in(doc).expect(&rt, "a signature");
    assert!(rt; tells_kinds_of_content(doc, signature));
    Ok(())
}

fn has_two_pieces(doc: Doc<'_>) -> bool {
    let mut pieces = texts(doc, doc.root());
    matches!(pieces.next(), Some(Piece::Run("y")))
        && matches!(pieces.next(), Some(Piece::One('&')))
        && pieces.next().is_none()
}

#[test]
fn gives_text_piece_by_piece(rt: HostRuntime) -> Result<(), Fail> {
    let mut steps: Steps<Ledger> = Steps::new();
    let tree = Tree::read(rt.alloc(), b"<a>y<!--c-->&amp;<b>q</b></a>", &mut steps)?;
    let doc = Doc::of(b"<a>y<!--c-->&amp;<b>q</b></a>", &tree);
    assert!(rt; has_two_pieces(doc));
    assert!(rt; has_stray_text(doc, doc.root()) && !is_blank(doc, doc.root()));
    Ok(())
}

fn is_counted(doc: Doc<'_>, signature: NodeId) -> bool
    requires { IsThere doc signature }
{
    matches!(counted(doc), SignatureCount::One(node) if node == signature)
        && are_several(doc, signature, ds("Object"))
        && !are_several(doc, signature, ds("KeyInfo"))
}

#[test]
fn counts_signatures_that_have_none_around_them(rt: HostRuntime) -> Result<(), Fail> {
    let mut steps: Steps<Ledger> = Steps::new();
    let tree = Tree::read(rt.alloc(), TEXT, &mut steps)?;
    let doc = Doc::of(TEXT, &tree);
    let signature = signature_in(doc).expect(&rt, "a signature");
    assert!(rt; is_counted(doc, signature));
    Ok(())
}

#[test]
fn tells_several_signatures_and_none(rt: HostRuntime) -> Result<(), Fail> {
    let mut steps: Steps<Ledger> = Steps::new();
    let two = Tree::read(rt.alloc(), TWO, &mut steps)?;
    let none = Tree::read(rt.alloc(), b"<Signature/>", &mut steps)?;
    assert!(rt; matches!(counted(Doc::of(TWO, &two)), SignatureCount::Several));
    assert!(rt;
        matches!(
            counted(Doc::of(b"<Signature/>", &none)),
            SignatureCount::Nothing
        )
    );
    Ok(())
}
