//! The nodes under one text.

ghost use Rattle.std.specs.Prelude.{◌≡◌};

use doc_spans::NodeId;

/// The nodes that were added under a text, as far as the first two.
#[derive(Clone, Copy, PartialEq, Eq)]
pub enum Sightings {
    /// No node.
    Absent,
    /// This one alone.
    One(NodeId),
    /// Several: the first, and the one behind it.
    Several {
        /// The one that was added first.
        first: NodeId,
        /// The one that was added next.
        second: NodeId,
    },
}

impl Sightings {
    ghost use Rattle.node_index.specs.Sightings.{with_node};

    // With one more node.
    pub(crate) fn with(self, node: NodeId) -> Sightings
        ensures { result ≡ with_node node self }
    {
        match self {
            Sightings::Absent => Sightings::One(node),
            Sightings::One(first) => Sightings::Several {
                first,
                second: node,
            },
            Sightings::Several { first, second } => Sightings::Several { first, second },
        }
    }
}
