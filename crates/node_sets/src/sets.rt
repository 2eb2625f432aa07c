//! A set of the nodes of a document.

ghost use Rattle.std.specs.Prelude.{◌≡◌, None, option_map};
ghost use Rattle.std.specs.Option.{ForSome};
ghost use Rattle.document_model.specs.Characters.{◌is◌};
ghost use Rattle.document_model.specs.NodeSets.{whole, subtree, without_comments, without, has};
ghost use Rattle.doc_spans.specs.Seen.{Has, document_in, path_in};

use doc_spans::{Doc, Kind, NodeId};

/// A set of the nodes of a document (XML Signature 1.1, section 4.4.3; Canonical XML 1.0, section 2.1): a node with all that is below
/// it, or the whole document, with or without comments, less one subtree. Attributes and namespaces go with their element. None of its
/// calls takes memory.
#[derive(Clone, Copy)]
pub struct NodeSet<'a> {
    doc: Doc<'a>,
    apex: Option<NodeId>,
    comments: bool,
    removed: Option<NodeId>,
    ghost apex_there: { ForSome apex (Has doc) },
    ghost removed_there: { ForSome removed (Has doc) },
}

impl<'a> NodeSet<'a> {
    ghost use Rattle.document_model.specs.NodeSets.{is_within, is_removed};
    ghost use Rattle.node_sets.specs.Sets.{set_in, doc_in, apex_path, is_top, keeps_kind};

    /// All nodes of the document, with its comments.
    pub fn whole(doc: Doc<'a>) -> NodeSet<'a>
        ensures set { set_in result ≡ whole }
        ensures doc { doc_in result ≡ doc.entry }
    {
        NodeSet {
            doc,
            apex: None,
            comments: true,
            removed: None,
        }
    }

    /// A node and all that is below it, with the comments.
    pub fn subtree(doc: Doc<'a>, apex: NodeId) -> NodeSet<'a>
        requires { Has doc apex }
        ensures set { set_in result ≡ subtree (path_in doc.entry apex) }
        ensures doc { doc_in result ≡ doc.entry }
    {
        NodeSet {
            doc,
            apex: Some(apex),
            comments: true,
            removed: None,
        }
    }

    /// The same without its comments.
    pub fn without_comments(self) -> NodeSet<'a>
        ensures set { set_in result ≡ without_comments (set_in self.entry) }
        ensures doc { doc_in result ≡ doc_in self.entry }
    {
        let mut set = self;
        set.comments = false;
        set
    }

    /// The same without a node and all that is below it. No node was left out before.
    pub fn without(self, node: NodeId) -> NodeSet<'a>
        requires has { Has (doc_in self) node }
        requires first { (set_in self).removed ≡ None }
        ensures set { set_in result ≡ without (set_in self.entry) (path_in (doc_in self.entry) node) }
        ensures doc { doc_in result ≡ doc_in self.entry }
    {
        NodeSet {
            doc: self.doc,
            apex: self.apex,
            comments: self.comments,
            removed: Some(node),
        }
    }

    /// The document whose nodes they are.
    pub fn doc(&self) -> Doc<'a>
        ensures { result ≡ doc_in self.now }
    {
        self.doc
    }

    /// The node at the top of the set; none where that is the document.
    pub fn apex(&self) -> Option<NodeId>
        ensures path { apex_path (doc_in self.now) result ≡ (set_in self.now).apex }
        ensures has { ForSome result (Has (doc_in self.now)) }
    {
        self.apex
    }

    /// Whether the comments are in the set.
    pub fn keeps_comments(&self) -> bool
        ensures { result ≡ (set_in self.now).comments }
    {
        self.comments
    }

    /// The node at the top of the subtree that is left out, where one is.
    pub fn removed(&self) -> Option<NodeId>
        ensures path { option_map (path_in (doc_in self.now)) result ≡ (set_in self.now).removed }
        ensures has { ForSome result (Has (doc_in self.now)) }
    {
        self.removed
    }

    /// Whether the node is the one at the top of the subtree that is left out.
    pub fn is_removed(&self, node: NodeId) -> bool
        requires { Has (doc_in self.now) node }
        ensures { result ≡ is_top (set_in self.now).removed (path_in (doc_in self.now) node) }
    {
        match self.removed {
            Some(top) => self.doc.is_same(top, node),
            None => false,
        }
    }

    // Whether a node is the apex or below it.
    fn is_in_apex(&self, node: NodeId) -> bool
        requires { Has (doc_in self.now) node }
        ensures { result ≡ is_within (set_in self.now).apex (path_in (doc_in self.now) node) }
    {
        match self.apex {
            Some(apex) => self.doc.is_within(apex, node),
            None => true,
        }
    }

    // Whether it is in the subtree that is left out.
    fn is_left_out(&self, node: NodeId) -> bool
        requires { Has (doc_in self.now) node }
        ensures { result ≡ is_removed (set_in self.now).removed (path_in (doc_in self.now) node) }
    {
        match self.removed {
            Some(top) => self.doc.is_within(top, node),
            None => false,
        }
    }

    // Whether a node may be in the set by its kind.
    fn keeps(&self, kind: Kind) -> bool
        ensures { result ≡ keeps_kind (set_in self.now) kind }
    {
        self.comments || !matches!(kind, Kind::Comment)
    }

    /// Whether a node of the document is in the set.
    pub fn has(&self, node: NodeId) -> bool
        requires { Has (doc_in self.now) node }
        ensures { result ≡ has (set_in self.now) (document_in (doc_in self.now)) (path_in (doc_in self.now) node) }
    {
        let is_kept = self.keeps(self.doc.kind(node));
        let is_left = self.is_in_apex(node) && !self.is_left_out(node);
        is_kept && is_left
    }
}
