//! How the rows of a tree grow by one item after another.

ghost use Rattle.std.specs.Prelude.{◌≡◌, ◌<◌, length, IfOk};

use crate::rows::{Kind, NONE, Row, Shape, end_at, link, parent_at};
use crate::trees::Tree;
use std::alloc::{AllocError, Global};

#[derive(Drop)]
pub struct Builder {
    pub(crate) rows: Vec<Row>,
    current: u32,
    previous: u32,
    in_text: bool,
    at: u32,
}

impl Builder {
    ghost use Rattle.doc_spans.specs.Building.{state_of, new, begun, gone_on, step};
    ghost use Rattle.doc_spans.specs.Shown.{shown_of};
    ghost use Rattle.doc_spans.specs.View.{IsTree};

    pub fn new(alloc: Global) -> Builder
        ensures { state_of result ≡ new }
    {
        Builder {
            rows: Vec::new(alloc),
            current: NONE,
            previous: NONE,
            in_text: false,
            at: 0,
        }
    }

    fn begin(&mut self, kind: Kind, end: u32) -> Result<(), AllocError>
        requires { length self.old.rows.items < 16777216 }
        ensures { IfOk result (λ _. state_of self.new ≡ begun kind end (state_of self.old)) }
    {
        let number = self.rows.len() as u32;
        link(&mut self.rows, self.previous, number);
        self.rows.push(Row {
            parent: self.current,
            next: NONE,
            start: self.at,
            first_end: end,
            end,
            kind,
        })?;
        self.previous = number;
        self.at = end;
        Ok(())
    }

    fn go_on(&mut self, end: u32)
        ensures { state_of self.new ≡ gone_on end (state_of self.old) }
    {
        end_at(&mut self.rows, self.previous, end);
        self.at = end;
    }

    // Adds an item that ends at a place.
    pub fn add(&mut self, shape: Shape, end: u32) -> Result<(), AllocError>
        requires { length self.old.rows.items < 16777216 }
        ensures { IfOk result (λ _. state_of self.new ≡ step shape end (state_of self.old)) }
    {
        match shape {
            Shape::Nothing => {
                self.at = end;
            }
            Shape::Start => {
                self.begin(Kind::Element, end)?;
                self.current = self.previous;
                self.previous = NONE;
                self.in_text = false;
            }
            Shape::Whole { kind } => {
                self.begin(kind, end)?;
                self.in_text = false;
            }
            Shape::End => {
                self.close(end);
            }
            Shape::Characters => {
                if self.in_text {
                    self.go_on(end);
                } else if self.current == NONE {
                    self.at = end;
                } else {
                    self.begin(Kind::Text, end)?;
                    self.in_text = true;
                }
            }
            Shape::EmptySection => {
                if self.in_text {
                    self.go_on(end);
                } else {
                    self.at = end;
                }
            }
        }
        Ok(())
    }

    fn close(&mut self, end: u32)
        ensures { state_of self.new ≡ step Shape.End end (state_of self.old) }
    {
        let parent = parent_at(&self.rows, self.current);
        end_at(&mut self.rows, self.current, end);
        self.previous = self.current;
        self.current = parent;
        self.in_text = false;
        self.at = end;
    }

    // The tree, where no element is open.
    pub fn finish(self) -> Tree
        requires { IsTree self.rows.items }
        ensures { result ≡ shown_of self.rows.items }
    {
        Tree { rows: self.rows }
    }
}
