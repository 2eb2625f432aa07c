//! All References of a signature, or the first fault of one.

ghost use Rattle.std.specs.Prelude.{◌≡◌, None, IfErr, IfOk, OnOk};
ghost use Rattle.reference_chains.specs.HandedIn.{handed_in};
ghost use Rattle.qualifying_props.specs.PartsOf.{AreParts};
ghost use Rattle.references.specs.Answers.{fault_in, IsFault};
ghost use Rattle.references.specs.RefsOf.{AreRefsOf};

use crate::chaining::chain_all;
use crate::faults::RefFault;
use crate::handing::{refuse_undecoded, refuse_wanting};
use crate::rows::Refs;
use crate::targets::seek_targets;
use crate::values::digest_all;
use doc_spans::Doc;
use qualifying_props::SignatureParts;
use reference_chains::Externals;
use std::alloc::Global;

/// The References of a signature, each with what its URI names, its chain of transforms and its digest (XML Signature 1.1, section 4.4.3).
/// An identifier is looked up once for each Reference.
///
/// Err: a fault that a Reference has, which is the first in the order of `RefFault`, and of this the one of the first Reference; or memory
/// could not be had.
pub fn read_refs(
    alloc: Global,
    doc: Doc<'_>,
    parts: &SignatureParts,
    externals: &Externals,
) -> Result<Refs, RefFault>
    requires { AreParts doc parts.now }
    ensures refs { IfOk result (AreRefsOf doc.entry parts.now) }
    ensures none { OnOk result (fault_in (handed_in externals.now) doc.entry parts.now.signature ≡ None) }
    ensures err { IfErr result (IsFault (fault_in (handed_in externals.now) doc.entry parts.now.signature)) }
{
    let signature = parts.signature();
    let all = seek_targets(alloc, doc, parts)?;
    let references = chain_all(alloc, doc, &all)?;
    let rows = digest_all(alloc, doc, &references)?;
    refuse_wanting(doc, &references, externals)?;
    refuse_undecoded(doc, signature, &references, externals)?;
    Ok(Refs { signature, rows })
}
