//! References of one document, one after another; the expected values follow from XML Signature 1.1, the two standards of canonical text
//! and RFC 4648.

ghost use Rattle.std.specs.Prelude.{IfOk, IfSome};
ghost use Rattle.signature_elements.specs.Standing.{IsThere};
ghost use Rattle.reference_chains.specs.References.{IsReference};

use algorithms::DigestKind;
use canon_forms::Form;
use doc_spans::{Doc, NodeId, Tree};
use node_index::Identifiers;
use node_sets::{IdAnswer, find_id};
use reference_chains::{
    Externals, Made, Place, Reference, base64_fault, chain_of, digest_kind_of, handed_to,
    is_reached, node_set_of, octets_of, place_of,
};
use signature_elements::{ds, first_called, first_in};
use std::alloc::Global;
use std::test::Fail;
use xa_io::{Octs, Steps};

struct Ledger;

const TEXT: &[u8] =
    b"<r xmlns:q=\"u\"><!--c--><d Id=\"d\">aGVs\n<!--c-->bG8=</d><t Id=\"t\"/><t id=\"t\"/><b Id=\"star\">aGV*bG8=</b>\
<b Id=\"short\">aGV<x>sbG8</x></b>\
<ds:Signature xmlns:ds=\"http://www.w3.org/2000/09/xmldsig#\">\
<ds:whole><ds:Reference URI=\"\"><ds:DigestMethod Algorithm=\"http://www.w3.org/2001/04/xmlenc#sha256\"/>\
</ds:Reference></ds:whole>\
<ds:absent><ds:Reference><ds:DigestMethod Algorithm=\"http://www.w3.org/2001/04/xmldsig-more#sha384\"/></ds:Reference>\
</ds:absent>\
<ds:missing><ds:Reference URI=\"#z\"><ds:DigestMethod Algorithm=\"http://www.w3.org/2001/04/xmlenc#sha512\"/>\
</ds:Reference></ds:missing>\
<ds:single><ds:Reference URI=\"#d\"><ds:DigestMethod Algorithm=\"u\"/></ds:Reference></ds:single>\
<ds:double><ds:Reference URI=\"#t\"></ds:Reference></ds:double>\
<ds:outside><ds:Reference URI=\"e\"></ds:Reference></ds:outside>\
<ds:unknown><ds:Reference URI=\"f\"></ds:Reference></ds:unknown>\
<ds:enveloped><ds:Reference URI=\"\"><ds:Transforms>\
<ds:Transform Algorithm=\"http://www.w3.org/2000/09/xmldsig#enveloped-signature\"></ds:Transform></ds:Transforms>\
</ds:Reference></ds:enveloped>\
<ds:comments><ds:Reference URI=\"\"><ds:Transforms>\
<ds:Transform Algorithm=\"http://www.w3.org/2000/09/xmldsig#enveloped-signature\"></ds:Transform>\
<ds:Transform Algorithm=\"http://www.w3.org/TR/2001/REC-xml-c14n-20010315#WithComments\"></ds:Transform>\
</ds:Transforms></ds:Reference></ds:comments>\
<ds:exclusive><ds:Reference URI=\"#d\"><ds:Transforms>\
<ds:Transform Algorithm=\"http://www.w3.org/2001/10/xml-exc-c14n#\">\
<e:InclusiveNamespaces xmlns:e=\"http://www.w3.org/2001/10/xml-exc-c14n#\" PrefixList=\"q\"/></ds:Transform>\
</ds:Transforms></ds:Reference></ds:exclusive>\
<ds:decoded><ds:Reference URI=\"#d\"><ds:Transforms>\
<ds:Transform Algorithm=\"http://www.w3.org/2000/09/xmldsig#base64\"></ds:Transform></ds:Transforms></ds:Reference>\
</ds:decoded>\
<ds:both><ds:Reference URI=\"#d\"><ds:Transforms>\
<ds:Transform Algorithm=\"http://www.w3.org/2000/09/xmldsig#enveloped-signature\"></ds:Transform>\
<ds:Transform Algorithm=\"http://www.w3.org/2000/09/xmldsig#base64\"></ds:Transform></ds:Transforms></ds:Reference>\
</ds:both>\
<ds:turned><ds:Reference URI=\"#d\"><ds:Transforms>\
<ds:Transform Algorithm=\"http://www.w3.org/2000/09/xmldsig#base64\"></ds:Transform>\
<ds:Transform Algorithm=\"http://www.w3.org/2000/09/xmldsig#enveloped-signature\"></ds:Transform></ds:Transforms>\
</ds:Reference></ds:turned>\
<ds:forms><ds:Reference URI=\"#d\"><ds:Transforms><ds:Transform Algorithm=\"http://www.w3.org/2001/10/xml-exc-c14n#\">\
<e:InclusiveNamespaces xmlns:e=\"http://www.w3.org/2001/10/xml-exc-c14n#\" PrefixList=\"q\"/></ds:Transform>\
<ds:Transform Algorithm=\"http://www.w3.org/TR/2001/REC-xml-c14n-20010315#WithComments\"></ds:Transform>\
</ds:Transforms></ds:Reference></ds:forms>\
<ds:other><ds:Reference URI=\"#d\"><ds:Transforms><ds:Transform Algorithm=\"u\"></ds:Transform></ds:Transforms>\
</ds:Reference></ds:other>\
<ds:stranger><ds:Reference URI=\"#d\"><ds:Transforms><ds:X Algorithm=\"http://www.w3.org/2000/09/xmldsig#base64\"/>\
</ds:Transforms></ds:Reference></ds:stranger>\
<ds:star><ds:Reference URI=\"#star\"><ds:Transforms>\
<ds:Transform Algorithm=\"http://www.w3.org/2000/09/xmldsig#base64\"></ds:Transform></ds:Transforms></ds:Reference>\
</ds:star>\
<ds:short><ds:Reference URI=\"#short\"><ds:Transforms>\
<ds:Transform Algorithm=\"http://www.w3.org/2000/09/xmldsig#base64\"></ds:Transform></ds:Transforms></ds:Reference>\
</ds:short>\
<ds:spelled><ds:Reference URI=\"e\"><ds:Transforms>\
<ds:Transform Algorithm=\"http://www.w3.org/2000/09/xmldsig#base64\"></ds:Transform></ds:Transforms></ds:Reference>\
</ds:spelled>\
<ds:written><ds:Reference URI=\"e\"><ds:Transforms><ds:Transform Algorithm=\"http://www.w3.org/2001/10/xml-exc-c14n#\">\
<e:InclusiveNamespaces xmlns:e=\"http://www.w3.org/2001/10/xml-exc-c14n#\" PrefixList=\"q\"/></ds:Transform>\
</ds:Transforms></ds:Reference></ds:written>\
<ds:SignatureValue/></ds:Signature></r>";

// The document without its signature and its comments.
const REST: &[u8] = b"<r xmlns:q=\"u\"><d Id=\"d\">aGVs\nbG8=</d><t Id=\"t\"></t><t id=\"t\"></t>\
<b Id=\"star\">aGV*bG8=</b><b Id=\"short\">aGV<x>sbG8</x></b></r>";

const PLAIN: Form<'static> = Form::Inclusive { comments: false };

const WITH_COMMENTS: Form<'static> = Form::Inclusive { comments: true };

// The Reference in the child of the signature that has a local name.
fn reference_in(doc: Doc<'_>, name: &str) -> Option<NodeId>
    ensures { IfSome result (IsThere doc.entry) }
{
    let signature = first_called(doc, doc.root(), ds("Signature"));
    let holder = first_in(doc, signature, ds(name));
    first_in(doc, holder, ds("Reference"))
}

// The same with what was found of it.
fn found(alloc: Global, doc: Doc<'_>, name: &str) -> Result<Option<Reference>, Fail>
    ensures { IfOk result (λ r. IfSome r (IsReference doc.entry)) }
{
    match reference_in(doc, name) {
        Some(node) => {
            let identifiers = Identifiers::of(alloc, doc)?;
            let place = place_of(alloc, doc, &identifiers, node)?;
            Ok(Reference::of(doc, node, place))
        }
        None => Ok(None),
    }
}

// Octets that are handed in.
fn externals(alloc: Global) -> Result<Externals, Fail> {
    let mut externals = Externals::new(alloc);
    let mut first = Octs::new(alloc);
    first.push_all(b"YWJj IA==")?;
    externals.add("e", first)?;
    externals.add("e", Octs::new(alloc))?;
    Ok(externals)
}

// Whether the octets of a Reference are these.
fn gives(alloc: Global, name: &str, form: &Form<'_>, octets: &[u8]) -> Result<bool, Fail> {
    let mut steps: Steps<Ledger> = Steps::new();
    let tree = Tree::read(alloc, TEXT, &mut steps)?;
    let doc = Doc::of(TEXT, &tree);
    let externals = externals(alloc)?;
    let Some(signature) = first_called(doc, doc.root(), ds("Signature")) else {
        return Ok(false);
    };
    match found(alloc, doc, name)? {
        Some(reference) => {
            let made = octets_of(alloc, doc, signature, reference, &externals, form)?;
            Ok(made.as_slice() == octets)
        }
        None => Ok(false),
    }
}

// Where the text of a Reference isn't base64.
fn fault(alloc: Global, name: &str) -> Result<Option<u32>, Fail> {
    let mut steps: Steps<Ledger> = Steps::new();
    let tree = Tree::read(alloc, TEXT, &mut steps)?;
    let doc = Doc::of(TEXT, &tree);
    let externals = externals(alloc)?;
    let Some(signature) = first_called(doc, doc.root(), ds("Signature")) else {
        return Ok(None);
    };
    match found(alloc, doc, name)? {
        Some(reference) => Ok(base64_fault(doc, signature, reference, &externals)),
        None => Ok(None),
    }
}

// Whether the nodes of a Reference hold the empty SignatureValue.
fn reaches_value(alloc: Global, name: &str) -> Result<bool, Fail> {
    let mut steps: Steps<Ledger> = Steps::new();
    let tree = Tree::read(alloc, TEXT, &mut steps)?;
    let doc = Doc::of(TEXT, &tree);
    let Some(signature) = first_called(doc, doc.root(), ds("Signature")) else {
        return Ok(false);
    };
    let value = first_called(doc, signature, ds("SignatureValue"));
    match (found(alloc, doc, name)?, value) {
        (Some(reference), Some(value)) => Ok(is_reached(doc, signature, value, reference)),
        _ => Ok(false),
    }
}

// What a Reference's URI names.
fn place(alloc: Global, doc: Doc<'_>, name: &str) -> Result<Option<Place>, Fail> {
    let identifiers = Identifiers::of(alloc, doc)?;
    match reference_in(doc, name) {
        Some(node) => Ok(Some(place_of(alloc, doc, &identifiers, node)?)),
        None => Ok(None),
    }
}

fn is_document(place: Option<Place>) -> bool {
    matches!(place, Some(Place::Document))
}

// Whether it names an identifier that one element has, that none has, or that several have.
fn is_answered(place: Option<Place>, answer: IdAnswer) -> bool {
    match place {
        Some(Place::Named(found)) => found == answer,
        _ => false,
    }
}

#[test]
fn names_the_document_and_what_is_outside(rt: HostRuntime) -> Result<(), Fail> {
    let alloc = rt.alloc();
    let mut steps: Steps<Ledger> = Steps::new();
    let tree = Tree::read(alloc, TEXT, &mut steps)?;
    let doc = Doc::of(TEXT, &tree);
    assert!(rt;
        is_document(place(alloc, doc, "whole")?) && is_document(place(alloc, doc, "absent")?)
    );
    assert!(rt; matches!(place(alloc, doc, "outside")?, Some(Place::External)));
    Ok(())
}

#[test]
fn names_elements_by_their_identifiers(rt: HostRuntime) -> Result<(), Fail> {
    let alloc = rt.alloc();
    let mut steps: Steps<Ledger> = Steps::new();
    let tree = Tree::read(alloc, TEXT, &mut steps)?;
    let doc = Doc::of(TEXT, &tree);
    let single = find_id(doc, "d");
    assert!(rt;
        matches!(single, IdAnswer::One(_)) && is_answered(place(alloc, doc, "single")?, single)
    );
    assert!(rt;
        is_answered(place(alloc, doc, "missing")?, IdAnswer::Absent)
            && is_answered(place(alloc, doc, "double")?, IdAnswer::Many)
    );
    Ok(())
}

// What a chain makes: the same nodes, or octets by base64.
fn is_made(made: Made, decoded: bool) -> bool {
    match made {
        Made::NodesAlone => !decoded,
        Made::Decoded => decoded,
        Made::InForm(_) => false,
    }
}

// Whether a Reference's transforms are a chain that begins so and decodes or not, and names no form.
fn has_chain(alloc: Global, name: &str, enveloped: bool, decoded: bool) -> Result<bool, Fail> {
    let mut steps: Steps<Ledger> = Steps::new();
    let tree = Tree::read(alloc, TEXT, &mut steps)?;
    let doc = Doc::of(TEXT, &tree);
    match found(alloc, doc, name)? {
        Some(reference) => match chain_of(doc, reference.node, reference.place) {
            Some(again) => Ok(
                reference.chain.enveloped == enveloped
                    && again.enveloped == enveloped
                    && is_made(reference.chain.made, decoded)
                    && is_made(again.made, decoded),
            ),
            None => Ok(false),
        },
        None => Ok(false),
    }
}

// Whether they are a chain.
fn is_chain(alloc: Global, name: &str) -> Result<bool, Fail> {
    let mut steps: Steps<Ledger> = Steps::new();
    let tree = Tree::read(alloc, TEXT, &mut steps)?;
    Ok(found(alloc, Doc::of(TEXT, &tree), name)?.is_some())
}

const CHAINS: [(&str, bool, bool); 5] = [
    ("whole", false, false),
    ("enveloped", true, false),
    ("decoded", false, true),
    ("both", true, true),
    ("spelled", false, true),
];

fn all_have_chains(alloc: Global) -> Result<bool, Fail> {
    for chain in CHAINS {
        if !has_chain(alloc, chain.0, chain.1, chain.2)? {
            return Ok(false);
        }
    }
    Ok(true)
}

fn any_is_chain(alloc: Global, names: &[&str]) -> Result<bool, Fail> {
    for name in names {
        if is_chain(alloc, name)? {
            return Ok(true);
        }
    }
    Ok(false)
}

#[test]
fn reads_chains(rt: HostRuntime) -> Result<(), Fail> {
    let alloc = rt.alloc();
    assert!(rt; all_have_chains(alloc)?);
    assert!(rt; is_chain(alloc, "exclusive")? && is_chain(alloc, "comments")?);
    assert!(rt; !any_is_chain(alloc, &["turned", "forms", "other", "stranger", "written"])?);
    Ok(())
}

// The digest of a Reference.
fn digest(alloc: Global, name: &str) -> Result<Option<DigestKind>, Fail> {
    let mut steps: Steps<Ledger> = Steps::new();
    let tree = Tree::read(alloc, TEXT, &mut steps)?;
    let doc = Doc::of(TEXT, &tree);
    match reference_in(doc, name) {
        Some(node) => Ok(digest_kind_of(doc, node)),
        None => Ok(None),
    }
}

fn names_no_digest(alloc: Global, name: &str) -> Result<bool, Fail> {
    Ok(digest(alloc, name)?.is_none())
}

#[test]
fn names_digests(rt: HostRuntime) -> Result<(), Fail> {
    let alloc = rt.alloc();
    assert!(rt;
        matches!(digest(alloc, "whole")?, Some(DigestKind::Sha256))
            && matches!(digest(alloc, "absent")?, Some(DigestKind::Sha384))
            && matches!(digest(alloc, "missing")?, Some(DigestKind::Sha512))
    );
    assert!(rt; names_no_digest(alloc, "single")? && names_no_digest(alloc, "double")?);
    Ok(())
}

// References by their names, whether nodes are written with comments, and their octets.
type Octets = (&'static str, bool, &'static [u8]);

fn all_give(alloc: Global, wanted: &[Octets]) -> Result<bool, Fail> {
    for case in wanted {
        let form = if case.1 { &WITH_COMMENTS } else { &PLAIN };
        if !gives(alloc, case.0, form, case.2)? {
            return Ok(false);
        }
    }
    Ok(true)
}

const APART: &[u8] = b"<d xmlns:q=\"u\" Id=\"d\">aGVs\nbG8=</d>";

const OF_NODES: [Octets; 7] = [
    ("single", false, APART),
    ("exclusive", false, APART),
    ("enveloped", false, REST),
    ("enveloped", true, REST),
    ("comments", true, REST),
    ("decoded", false, b"hello"),
    ("both", false, b"hello"),
];

const OTHERS: [Octets; 7] = [
    ("outside", false, b"YWJj IA=="),
    ("spelled", false, b"abc "),
    ("unknown", false, b""),
    ("missing", false, b""),
    ("double", false, b""),
    ("star", false, b""),
    ("short", false, b""),
];

#[test]
fn gives_octets(rt: HostRuntime) -> Result<(), Fail> {
    assert!(rt; all_give(rt.alloc(), &OF_NODES)? && all_give(rt.alloc(), &OTHERS)?);
    Ok(())
}

const STOPS: [(&str, Option<u32>); 6] = [
    ("star", Some(3)),
    ("short", Some(7)),
    ("decoded", None),
    ("spelled", None),
    ("outside", None),
    ("single", None),
];

fn all_stop(alloc: Global) -> Result<bool, Fail> {
    for case in STOPS {
        if fault(alloc, case.0)? != case.1 {
            return Ok(false);
        }
    }
    Ok(true)
}

#[test]
fn tells_where_base64_stops(rt: HostRuntime) -> Result<(), Fail> {
    assert!(rt; all_stop(rt.alloc())?);
    Ok(())
}

fn any_reaches_value(alloc: Global, names: &[&str]) -> Result<bool, Fail> {
    for name in names {
        if reaches_value(alloc, name)? {
            return Ok(true);
        }
    }
    Ok(false)
}

#[test]
fn tells_what_is_reached(rt: HostRuntime) -> Result<(), Fail> {
    let alloc = rt.alloc();
    assert!(rt; reaches_value(alloc, "whole")?);
    assert!(rt; !any_reaches_value(alloc, &["enveloped", "single", "missing", "outside"])?);
    Ok(())
}

#[test]
fn hands_in_the_first_of_equal_names(rt: HostRuntime) -> Result<(), Fail> {
    let externals = externals(rt.alloc())?;
    assert!(rt;
        externals.get("e") == Some(b"YWJj IA==".as_slice()) && externals.get("f").is_none()
    );
    Ok(())
}

#[test]
fn hands_octets_to_external_references_alone(rt: HostRuntime) -> Result<(), Fail> {
    let alloc = rt.alloc();
    let mut steps: Steps<Ledger> = Steps::new();
    let tree = Tree::read(alloc, TEXT, &mut steps)?;
    let doc = Doc::of(TEXT, &tree);
    let externals = externals(alloc)?;
    let outside = found(alloc, doc, "outside")?.expect(&rt, "a Reference");
    let single = found(alloc, doc, "single")?.expect(&rt, "a Reference");
    let signature = first_called(doc, doc.root(), ds("Signature")).expect(&rt, "a signature");
    assert!(rt;
        handed_to(doc, outside, &externals).is_some()
            && handed_to(doc, single, &externals).is_none()
    );
    assert!(rt;
        node_set_of(doc, signature, single).is_some()
            && node_set_of(doc, signature, outside).is_none()
    );
    Ok(())
}
