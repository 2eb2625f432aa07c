//! The octets of a Reference.

ghost use Rattle.std.specs.Prelude.{◌≡◌, ℕ, List, IfOk};
ghost use Rattle.document_model.specs.Canonical.{octets_of as form_octets, Form as CanonicalForm};
ghost use Rattle.document_model.specs.Tree.{Nodes};
ghost use Rattle.doc_spans.specs.Seen.{Has, document_in, path_in};
ghost use Rattle.node_sets.specs.Sets.{set_in, doc_in};
ghost use Rattle.canon_forms.specs.Forms.{form_in};
ghost use Rattle.signature_model.specs.Chains.{made_of_set, made_of_octets};
ghost use Rattle.signature_model.specs.Octets.{octets_by, reference_octets};
ghost use Rattle.signature_elements.specs.Standing.{spot_of, IsThere};
ghost use Rattle.reference_chains.specs.ChainsIn.{form_of, made_in, HasMade};
ghost use Rattle.reference_chains.specs.HandedIn.{handed_in};
ghost use Rattle.reference_chains.specs.References.{IsReference};

use crate::chains::Made;
use crate::decoding::{decode_set, or_none};
use crate::externals::Externals;
use crate::handing::handed_to;
use crate::references::{Reference, node_set_of};
use base64_texts::decode;
use canon_forms::{Form, read_form, to_vec};
use doc_spans::{Doc, NodeId};
use node_sets::NodeSet;
use std::alloc::Global;
use xa_io::{Octs, OutOfMemory};

/// The octets of a Reference of a signature: what its chain makes of its nodes, or of the octets that are handed in (XML Signature 1.1,
/// section 4.4.3.2). Nodes of which the chain makes no octets are written in the form that is given. A Reference without a target, whose
/// octets aren't handed in, or of which the text isn't base64 has none.
pub fn octets_of(
    alloc: Global,
    doc: Doc<'_>,
    signature: NodeId,
    reference: Reference,
    externals: &Externals,
    form: &Form<'_>,
) -> Result<Octs, OutOfMemory>
    requires signature { Has doc signature }
    requires reference { IsReference doc reference }
    ensures { IfOk result (λ octets. octets ≡ reference_octets (form_in form.now) (handed_in externals.now) (document_in doc.entry) (path_in doc.entry signature) (spot_of doc.entry reference.node)) }
{
    match node_set_of(doc, signature, reference) {
        Some(set) => made_of_set(alloc, &set, reference.chain.made, form),
        None => match handed_to(doc, reference, externals) {
            Some(given) => made_of_octets(alloc, given, reference.chain.made),
            None => Ok(Octs::new(alloc)),
        },
    }
}

// What is made of a set, as octets.
fn made_of_set(
    alloc: Global,
    set: &NodeSet<'_>,
    made: Made,
    form: &Form<'_>,
) -> Result<Octs, OutOfMemory>
    requires { HasMade (doc_in set.now) made }
    ensures { IfOk result (λ octets. octets ≡ octets_by (form_in form.now) (document_in (doc_in set.now)) (made_of_set form_octets (document_in (doc_in set.now)) (set_in set.now) (made_in (doc_in set.now) made))) }
{
    match made {
        Made::NodesAlone => to_vec(alloc, set, form),
        Made::InForm(node) => to_vec(alloc, set, &form_of(set.doc(), node)),
        Made::Decoded => decode_set(alloc, set),
    }
}

// The form that a transform names; any one where it names none.
fn form_of<'a>(doc: Doc<'a>, node: NodeId) -> Form<'a>
    requires { IsThere doc node }
    ensures { form_in result ≡ form_of doc.entry node }
{
    match read_form(doc, node) {
        Some(form) => form,
        None => Form::Inclusive { comments: false },
    }
}

// What is made of octets that are handed in.
fn made_of_octets(alloc: Global, given: &[u8], made: Made) -> Result<Octs, OutOfMemory>
    ensures { (form : CanonicalForm) (document : Nodes) (doc : Doc) → IfOk result (λ octets. octets ≡ octets_by form document (made_of_octets given.now (made_in doc made))) }
{
    match made {
        Made::NodesAlone => copied(alloc, given),
        Made::InForm(_) => Ok(Octs::new(alloc)),
        Made::Decoded => or_none(alloc, decode(alloc, given)),
    }
}

fn copied(alloc: Global, given: &[u8]) -> Result<Octs, OutOfMemory>
    ensures { IfOk result (λ octets. octets ≡ given.now) }
{
    let mut octets = Octs::new(alloc);
    octets.push_all(given)?;
    Ok(octets)
}
