//! The rows of a flat tree: one for each node, in document order, with places in the bytes alone.

ghost use Rattle.std.specs.Prelude.{◌≡◌};
ghost use Rattle.doc_spans.specs.Building.{with_next, with_end, parent_of};

#[derive(Clone, Copy, PartialEq, Eq)]
pub enum Kind {
    Element,
    Text,
    Comment,
    Pi,
}

// One node: the number of its parent and of the node behind it, and where its bytes stand.
#[derive(Drop)]
pub struct Row {
    pub(crate) parent: u32,
    pub(crate) next: u32,
    pub(crate) start: u32,
    pub(crate) first_end: u32,
    pub(crate) end: u32,
    pub(crate) kind: Kind,
}

pub(crate) const NONE: u32 = 4294967295;

const _: () = prove!(std::mem::size_of::<Row>() == 24);

// What an item does to the tree.
#[derive(Clone, Copy, PartialEq, Eq)]
pub enum Shape {
    Nothing,
    Start,
    Whole { kind: Kind },
    End,
    Characters,
    EmptySection,
}

// A row's next row, where the number names one.
pub(crate) fn link(rows: &mut Vec<Row>, at: u32, next: u32)
    ensures { rows.new.items ≡ with_next at next rows.old.items }
{
    let at = at as usize;
    if at < rows.len() {
        rows[at].next = next;
    }
}

pub(crate) fn end_at(rows: &mut Vec<Row>, at: u32, end: u32)
    ensures { rows.new.items ≡ with_end at end rows.old.items }
{
    let at = at as usize;
    if at < rows.len() {
        rows[at].end = end;
    }
}

pub(crate) fn parent_at(rows: &Vec<Row>, at: u32) -> u32
    ensures { result ≡ parent_of at rows.now.items }
{
    let at = at as usize;
    if at < rows.len() {
        rows[at].parent
    } else {
        NONE
    }
}
