//! The canonical text of a node set.

ghost use Rattle.std.specs.Prelude.{◌≡◌, IfOk};
ghost use Rattle.document_model.specs.Canonical.{octets_of};
ghost use Rattle.doc_spans.specs.Seen.{document_in};
ghost use Rattle.node_sets.specs.Sets.{set_in, doc_in};
ghost use Rattle.canon_methods.specs.Forms.{form_in};

use crate::apexes::put_apex;
use crate::lines::put_lines;
use crate::walks::Walk;
use canon_methods::Form;
use canon_tags::Around;
use node_sets::NodeSet;
use std::alloc::Global;
use xa_io::{Octs, OutOfMemory};

/// The canonical text of the set by the form, in UTF-8: Canonical XML 1.0, section 2, and Exclusive XML Canonicalization 1.0, section 3.
/// A comment is written where both the set and the form have comments.
pub fn to_vec(alloc: Global, set: &NodeSet<'_>, form: &Form<'_>) -> Result<Octs, OutOfMemory>
    ensures { IfOk result (λ octs. octs ≡ octets_of (form_in form.now) (set_in set.now) (document_in (doc_in set.now))) }
{
    let walk = Walk::of(set, form);
    let mut out = Octs::new(alloc);
    let mut around = Around::new(alloc);
    match walk.deep_apex() {
        Some(apex) => put_apex(&mut out, &mut around, &walk, apex)?,
        None => put_lines(&mut out, &mut around, &walk)?,
    }
    Ok(out)
}
