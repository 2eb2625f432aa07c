//! The children of a node, one after another.

ghost use Rattle.doc_spans.specs.Shown.{path_at, IsChild};

use crate::documents::NodeId;
use crate::trees::Tree;

// The nodes of one parent, from one on.
#[derive(Drop)]
pub struct Children<'a> {
    pub(crate) tree: &'a Tree,
    pub(crate) node: u32,
    pub(crate) next: u32,
    ghost child: { IsChild tree.now (path_at tree.now node) next },
}

impl<'a> Iterator for Children<'a> {
    type Item = NodeId;

    ghost use Rattle.doc_spans.specs.Rest.{rest};
    ghost use Rattle.std.specs.Iterator.{YieldsFirstBy, item_count};

    ghost next_gives = { YieldsFirstBy (λ x. x.0) rest };

    ghost remaining = { item_count rest };

    fn next(&mut self) -> Option<NodeId> {
        let tree = self.tree;
        let found = self.next;
        if (found as usize) < tree.len() {
            self.next = tree.row(found).next;
            Some(NodeId(found))
        } else {
            None
        }
    }
}
