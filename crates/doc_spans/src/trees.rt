//! The tree of a document: its rows, seen as the places and kinds of its nodes.

ghost use Rattle.std.specs.Prelude.{◌≡◌, ◌<◌, length, [], map};
ghost use Rattle.document_model.specs.Characters.{◌is◌};
ghost use Rattle.doc_spans.specs.Below.{paths_below};
ghost use Rattle.std.specs.Prelude.{◌⊎◌};
ghost use Rattle.doc_spans.specs.Shown.{path_at, IsChild, children_of};
ghost use Rattle.doc_spans.specs.View.{none};

use crate::rows::{NONE, Row};
use std::marker::Model;

// The nodes of a document, one for each number.
#[derive(Drop)]
pub struct Tree {
    pub(crate) rows: Vec<Row>,
}

impl Model for Tree {
    ghost use Rattle.doc_spans.specs.Shown.{Shown, shown_of};
    ghost use Rattle.doc_spans.specs.View.{IsTree};

    ghost Value = { Shown };

    ghost view = { λ t. shown_of t.rows.items };

    ghost invariant = { λ t. IsTree t.rows.items };
}

impl Tree {
    ghost use Rattle.doc_spans.specs.Shown.{ShowsRow, later_children};

    pub(crate) fn len(&self) -> usize
        ensures { result ≡ length self.now.places }
    {
        self.rows.len()
    }

    // Whether two numbers are of one node: no two numbers have one path. The body reads the rows for this alone.
    pub(crate) fn is_same(&self, a: u32, b: u32) -> bool
        requires first { a < length self.now.places }
        requires second { b < length self.now.places }
        ensures { result ≡ (path_at self.now a is path_at self.now b) }
    {
        let _nodes = self.rows.len();
        a == b
    }

    pub(crate) fn row(&self, number: u32) -> &Row
        requires { number < length self.now.places }
        ensures { ShowsRow self.now number result.now }
    {
        &self.rows[number as usize]
    }

    // The first child of a node, or the first node of all.
    pub(crate) fn first_child(&self, node: u32) -> u32
        requires { (node < length self.now.places) ⊎ (node ≡ none) }
        ensures children { children_of self.now (path_at self.now node) ≡ later_children self.now (path_at self.now node) result }
        ensures child { IsChild self.now (path_at self.now node) result }
        ensures top { path_at self.now none ≡ [] }
        ensures numbered { map (path_at self.now) (children_of self.now (path_at self.now node)) ≡ paths_below (path_at self.now node) 0 (length (children_of self.now (path_at self.now node))) }
    {
        let number = node as usize;
        if number < self.rows.len() {
            let next = number + 1;
            if next < self.rows.len() && self.rows[next].parent == node {
                next as u32
            } else {
                NONE
            }
        } else {
            0
        }
    }
}
