//! What a signature has on the data objects of its References, found once for all of them.

ghost use Rattle.std.specs.Prelude.{◌≡◌, IfOk};
ghost use Rattle.doc_spans.specs.Seen.{Has};
ghost use Rattle.inner_lines.specs.DataObjects.{IsFound};

use crate::formats::formats_by_target;
use doc_spans::{Doc, NodeId};
use node_index::NodeIndex;
use signature_parts::{key_info, signed_data_properties};
use std::alloc::Global;
use xa_io::OutOfMemory;

/// What a signature has on the data objects of its References.
#[derive(Drop)]
pub(crate) struct DataObjects {
    /// The signature.
    pub(crate) signature: NodeId,
    /// Its `KeyInfo`.
    pub(crate) key: Option<NodeId>,
    /// Its `SignedDataObjectProperties`.
    pub(crate) properties: Option<NodeId>,
    /// The `DataObjectFormat` elements there, by what they point to.
    pub(crate) formats: NodeIndex,
}

impl DataObjects {
    /// Those of a signature.
    pub(crate) fn of(
        alloc: Global,
        doc: Doc<'_>,
        signature: NodeId,
    ) -> Result<DataObjects, OutOfMemory>
        requires { Has doc signature }
        ensures found { IfOk result (IsFound doc.entry) }
        ensures signature { IfOk result (λ objects. objects.signature ≡ signature) }
    {
        let key = key_info(doc, signature);
        let properties = signed_data_properties(doc, signature);
        let formats = formats_by_target(alloc, doc, properties)?;
        Ok(DataObjects {
            signature,
            key,
            properties,
            formats,
        })
    }
}
