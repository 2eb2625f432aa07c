//! What is kept of the items before a place, to tell which item may follow there.

ghost use Rattle.std.specs.Prelude.{◌≡◌, ◌+◌, ◌≤◌, ◌||◌, [], ◌∷◌, IfOk, length, drop, if◌then◌else◌};
ghost use Rattle.document_model.specs.Characters.{is_empty, with_line_ends};
ghost use Rattle.std.specs.Str.{chars};
ghost use Rattle.doc_spans.specs.Standing.{standing_of, goes_on, may_stand, may_stand_as_text, may_open, is_deep, new_texts, nodes_added, is_one_too_many, is_complete, after, outer_after, begins_element, is_the_character, text_after};
ghost use Rattle.doc_spans.specs.OpenTags.{tag_in};
ghost use Rattle.doc_spans.specs.Scopes.{tags_around};
ghost use Rattle.document_model.specs.Items.{cdata};
ghost use Rattle.document_model.specs.Documents.{closes, limits};
ghost use Rattle.xml_items.specs.Found.{name_in, IsNameText};
ghost use Rattle.xml_items.specs.Items.{item_in, IsRead};

use crate::open_tags::OpenTag;
use crate::soundness::Scope;
use crate::stacks::Scopes;
use std::alloc::{AllocError, Global};
use xml_items::items::Found;
use xml_items::names::same_name;
use xml_items::tags::attribute_count;
use xml_items::texts::is_empty;

// The deepest that an element may stand; the document element has depth 1.
const MOST_DEPTH: usize = 256;

// The most nodes of a document, attributes and declarations among them.
const MOST_NODES: u32 = 1_048_576;

// The most nodes that one item adds: an element with as many attributes as one may have.
const MOST_ADDED: u32 = 257;

// What the items so far say.
#[derive(Drop)]
pub(crate) struct Standing<'a> {
    pub(crate) open: Scopes<'a>,
    pub(crate) begun: bool,
    pub(crate) first: bool,
    pub(crate) front: bool,
    pub(crate) bracket: bool,
    pub(crate) brackets: bool,
    pub(crate) in_text: bool,
    pub(crate) nodes: u32,
}

impl<'a> Standing<'a> {
    ghost use Rattle.doc_spans.specs.Kept.{standing_in};

    // Before the first item.
    pub(crate) fn new(alloc: Global) -> Standing<'a>
        ensures { standing_in result ≡ standing_of [] }
    {
        Standing {
            open: Scopes::new(alloc),
            begun: false,
            first: true,
            front: true,
            bracket: false,
            brackets: false,
            in_text: false,
            nodes: 0,
        }
    }

    // Whether the items are a whole document.
    pub(crate) fn is_complete(&self) -> bool
        ensures { result ≡ is_complete (standing_in self.now) }
    {
        self.begun && self.is_outside()
    }

    // How many elements are open.
    fn depth(&self) -> usize
        ensures { result ≡ length (tags_around self.now.open) }
    {
        self.open.tags.len()
    }

    // Whether no element is open.
    fn is_outside(&self) -> bool
        ensures { result ≡ is_empty (tags_around self.now.open) }
    {
        self.open.tags.is_empty()
    }

    // Whether a text goes on in an element, behind a character that no rule looks back to.
    pub(crate) fn goes_on(&self) -> bool
        ensures { result ≡ goes_on (standing_in self.now) }
    {
        self.in_text
            && !self.is_outside()
            && !(self.bracket || self.brackets || self.first || self.front)
    }

    // Whether an item may follow, the limits aside.
    pub(crate) fn may_stand(&self, found: Found<'a>) -> bool
        requires { IsRead found }
        ensures { result ≡ may_stand (standing_in self.now) (item_in found.entry) }
    {
        match found {
            Found::Declaration => self.front,
            Found::StartTag(name, attributes) | Found::EmptyTag(name, attributes) => {
                self.may_open(OpenTag { name, attributes })
            }
            Found::EndTag(name) => closes(name, &self.open),
            Found::Character(c) => self.may_stand_as_text(c),
            Found::Reference(_) | Found::Cdata(_) => !self.is_outside(),
            Found::Comment(_) | Found::Instruction(_, _) => true,
        }
    }

    fn may_open(&self, tag: OpenTag<'a>) -> bool
        ensures { result ≡ may_open (standing_in self.now) (tag_in tag.entry).name (tag_in tag.entry).attributes }
    {
        (!self.is_outside() || !self.begun)
            && {
                let scope = Scope {
                    outer: &self.open,
                    tag,
                };
                scope.is_sound()
            }
    }

    fn may_stand_as_text(&self, c: char) -> bool
        ensures { result ≡ may_stand_as_text (standing_in self.now) c }
    {
        if self.is_outside() {
            matches!(c, '\t' | '\n' | '\r' | ' ') || (c == '\u{FEFF}' && self.first)
        } else {
            !(c == '>' && self.brackets)
        }
    }

    // Whether an item is an element that would be too deep.
    pub(crate) fn is_too_deep(&self, found: Found<'a>) -> bool
        ensures { result ≡ is_deep (standing_in self.now) (item_in found.entry) }
    {
        match found {
            Found::StartTag(_, _) | Found::EmptyTag(_, _) => self.depth() >= MOST_DEPTH,
            _ => false,
        }
    }

    // How many nodes an item adds, attributes and declarations among them.
    pub(crate) fn nodes_added(&self, found: Found<'a>) -> u32
        requires { IsRead found }
        ensures count { result ≡ nodes_added (standing_in self.now) (item_in found.entry) }
        ensures bound { result ≤ 257 }
    {
        match found {
            Found::StartTag(_, attributes) | Found::EmptyTag(_, attributes) => {
                1 + attribute_count(attributes) as u32
            }
            Found::Declaration | Found::EndTag(_) => 0,
            Found::Character(_) | Found::Reference(_) => self.texts_added(),
            Found::Cdata(text) => self.section_texts_added(text),
            Found::Comment(_) | Found::Instruction(_, _) => 1,
        }
    }

    // One, where a text begins with a character that stands here.
    fn texts_added(&self) -> u32
        ensures count { result ≡ (if is_empty (tags_around self.now.open) || self.now.in_text then 0 else 1) }
        ensures bound { result ≤ 1 }
    {
        if self.is_outside() || self.in_text {
            0
        } else {
            1
        }
    }

    // The same of a CDATA section, which may be empty.
    fn section_texts_added(&self, text: &str) -> u32
        ensures count { result ≡ new_texts (standing_in self.now) (with_line_ends (chars text.now)) }
        ensures bound { result ≤ 1 }
    {
        if is_empty(text) {
            0
        } else {
            self.texts_added()
        }
    }

    // Whether an item would pass the most nodes.
    pub(crate) fn has_too_many(&self, found: Found<'a>) -> bool
        requires read { IsRead found }
        requires few { self.now.nodes ≤ limits.nodes }
        ensures { result ≡ is_one_too_many (standing_in self.now) (item_in found.entry) }
    {
        self.nodes > MOST_NODES - MOST_ADDED && self.nodes_added(found) + self.nodes > MOST_NODES
    }

    // Takes one more item.
    pub(crate) fn enter(&mut self, found: Found<'a>) -> Result<(), AllocError>
        requires read { IsRead found }
        requires few { nodes_added (standing_in self.old) (item_in found) + self.old.nodes ≤ limits.nodes }
        ensures { IfOk result (λ _. standing_in self.new ≡ after (item_in found.entry) (standing_in self.old)) }
    {
        let nodes = self.nodes_added(found) + self.nodes;
        enter_element(&mut self.open, found)?;
        let bracket = is_the_character(']', found);
        self.begun = begins_element(found) || self.begun;
        self.front = is_the_character('\u{FEFF}', found) && self.first;
        self.first = false;
        self.brackets = bracket && self.bracket;
        self.bracket = bracket;
        self.in_text = text_after(found, self.in_text);
        self.nodes = nodes;
        Ok(())
    }
}

// Whether an end tag of this name closes the innermost of elements that are open.
fn closes(name: &str, elements: &Scopes<'_>) -> bool
    requires { IsNameText name.now }
    ensures { result ≡ closes (name_in (chars name.now)) (tags_around elements.now) }
{
    match elements.tags.last() {
        Some(opened) => same_name(name, opened.tag.name),
        None => false,
    }
}

// The elements that are open after one more item.
fn enter_element<'a>(elements: &mut Scopes<'a>, found: Found<'a>) -> Result<(), AllocError>
    requires { IsRead found }
    ensures { IfOk result (λ _. tags_around elements.new ≡ outer_after (item_in found.entry) (tags_around elements.old)) }
{
    match found {
        Found::StartTag(name, attributes) => {
            elements.push(OpenTag { name, attributes })?;
            Ok(())
        }
        Found::EndTag(_) => {
            elements.pop();
            Ok(())
        }
        _ => Ok(()),
    }
}

fn begins_element(found: Found) -> bool
    ensures { result ≡ begins_element (item_in found.entry) }
{
    matches!(found, Found::StartTag(_, _) | Found::EmptyTag(_, _))
}

// Whether an item is this literal character.
fn is_the_character(c: char, found: Found) -> bool
    ensures { result ≡ is_the_character c (item_in found.entry) }
{
    match found {
        Found::Character(d) => c == d,
        _ => false,
    }
}

// Whether a text goes on behind an item.
fn text_after(found: Found, in_text: bool) -> bool
    ensures { result ≡ text_after (item_in found.entry) in_text }
{
    match found {
        Found::Character(_) | Found::Reference(_) => true,
        Found::Cdata(text) => section_goes_on(text, in_text),
        _ => false,
    }
}

// The same behind a CDATA section, which may be empty.
fn section_goes_on(text: &str, in_text: bool) -> bool
    ensures { result ≡ text_after (cdata (with_line_ends (chars text.now))) in_text }
{
    in_text || !is_empty(text)
}
