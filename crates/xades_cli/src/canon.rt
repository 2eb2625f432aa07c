// The canonical form of a document.
ghost use Rattle.std.specs.Prelude.{◌≡◌, ◌≤◌, length, IfOk};
ghost use Rattle.doc_spans.specs.Seen.{document_in};
ghost use Rattle.canon_forms.specs.Forms.{form_in};
ghost use Rattle.command_words.specs.Asked.{form_of, option_now};
ghost use Rattle.xades_cli.specs.Canon.{canon_outcome, text_outcome};
ghost use Rattle.document_model.specs.Canonical.{octets_of};
ghost use Rattle.node_sets.specs.Sets.{set_in, doc_in};
ghost use Rattle.xades_cli.specs.Outcomes.{IsOf, Writes};

use crate::answers::Answer;
use crate::documents::read_document;
use crate::stop::{Stop, refuse};
use augmenter::Code;
use canon_forms::{Form, Prefixes, to_vec};
use command_words::Method;
use doc_spans::Doc;
use node_sets::{IdAnswer, NodeSet, find_id};
use std::alloc::Global;

/// The canonical form of the document, or of the element with the identifier.
pub fn canonicalize(
    alloc: Global,
    method: Method<'_>,
    id: Option<&str>,
    document: &[u8],
) -> Result<Answer, Stop>
    requires { length document.now ≤ 16777216 }
    ensures { IsOf (canon_outcome (form_of method.entry) (option_now id.entry) document.now) result }
{
    let tree = read_document(alloc, document)?;
    write_asked(alloc, method, id, Doc::of(document, &tree))
}

// The form that a method names.
fn form<'a>(method: Method<'a>) -> Form<'a>
    ensures { form_in result ≡ form_of method.entry }
{
    let comments = method.comments;
    if method.inclusive {
        Form::Inclusive { comments }
    } else {
        Form::Exclusive {
            comments,
            prefixes: Prefixes::of_words(method.prefixes),
        }
    }
}

// What is written of a document that was read.
fn write_asked(
    alloc: Global,
    method: Method<'_>,
    id: Option<&str>,
    doc: Doc<'_>,
) -> Result<Answer, Stop>
    ensures { IsOf (text_outcome (form_of method.entry) (option_now id.entry) (document_in doc.entry)) result }
{
    let form = form(method);
    match id {
        None => write_set(alloc, &NodeSet::whole(doc), &form),
        Some(id) => match find_id(doc, id) {
            IdAnswer::One(node) => write_set(alloc, &NodeSet::subtree(doc, node), &form),
            IdAnswer::Absent => Err(refuse(Code::TargetMissing { k: 0 })),
            IdAnswer::Many => Err(refuse(Code::TargetTwice { k: 0 })),
        },
    }
}

// The canonical text of a set.
pub(crate) fn write_set(alloc: Global, set: &NodeSet<'_>, form: &Form<'_>) -> Result<Answer, Stop>
    ensures { IsOf (Writes (octets_of (form_in form.now) (set_in set.now) (document_in (doc_in set.now)))) result }
{
    let text = to_vec(alloc, set, form)?;
    Ok(Answer::Text(text))
}
