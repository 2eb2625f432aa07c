//! The elements around a place, and the declarations that are in scope in them.

ghost use Rattle.std.specs.Prelude.{◌≡◌, ◌++◌, ◌∷◌, ◌+◌, ◌≤◌, [], List, OnOk, OnErr, IfOk, length, take, drop, vec_len};
ghost use Rattle.std.specs.Str.{chars};
ghost use Rattle.xml_items.specs.Attributes.{attributes_left};
ghost use Rattle.xml_items.specs.Found.{attributes_in};
ghost use Rattle.doc_spans.specs.OpenTags.{tag_in};
ghost use Rattle.doc_spans.specs.Scoped.{with_declarations, scope_of};
ghost use Rattle.doc_spans.specs.Declarations.{nearest_first};
ghost use Rattle.doc_spans.specs.Opened.{opened_in};
ghost use Rattle.doc_spans.specs.declared.declarations.Declaration.{Declaration};
ghost use Rattle.doc_spans.specs.declared.opened.Opened.{Opened};

use crate::declarations::Declaration;
use crate::open_tags::OpenTag;
use crate::opened::Opened;
use crate::scopes::declared_prefix;
use std::alloc::{AllocError, Global};
use xml_items::attribute_walk::Attributes;

/// The elements from the outermost in, and what they declare: a nearer declaration stands behind a further one.
#[derive(Drop)]
pub struct Scopes<'a> {
    /// The elements.
    pub tags: Vec<Opened<'a>>,
    /// Their declarations.
    pub declarations: Vec<Declaration<'a>>,
    ghost scoped: { nearest_first declarations.items ≡ scope_of (opened_in tags.items) },
}

impl<'a> Scopes<'a> {
    ghost use Rattle.doc_spans.specs.Scopes.{tags_around};

    /// No element.
    pub fn new(alloc: Global) -> Scopes<'a>
        ensures { tags_around result ≡ [] }
    {
        Scopes {
            tags: Vec::new(alloc),
            declarations: Vec::new(alloc),
        }
    }

    /// Takes one more element, inside the others. Answers how many declarations are in scope around it. After an error the elements are as
    /// before.
    pub fn push(&mut self, tag: OpenTag<'a>) -> Result<usize, AllocError>
        ensures tags { IfOk result (λ _. tags_around self.new ≡ tag_in tag.entry ∷ tags_around self.old) }
        ensures outside { IfOk result (λ n. take n self.new.declarations.items ≡ self.old.declarations.items) }
        ensures bound { IfOk result (λ n. n ≤ vec_len self.new.declarations) }
        ensures inner { OnOk result ((last : Opened) × (self.new.tags.items ≡ self.old.tags.items ++ last ∷ [])) }
        ensures err { OnErr result (tags_around self.new ≡ tags_around self.old) }
    {
        let outside = self.declarations.len();
        match push_opened(&mut self.tags, &mut self.declarations, tag) {
            Ok(()) => Ok(outside),
            Err(error) => {
                self.declarations.truncate(outside);
                Err(error)
            }
        }
    }

    /// Lets the innermost element go.
    pub fn pop(&mut self)
        ensures { tags_around self.new ≡ drop 1 (tags_around self.old) }
    {
        if let Some(opened) = self.tags.pop() {
            let left = self.declarations.len().saturating_sub(opened.count);
            self.declarations.truncate(left);
        }
    }
}

// Takes an element and its declarations. On an error some of the declarations stand behind the others, and the element doesn't.
fn push_opened<'a>(
    tags: &mut Vec<Opened<'a>>,
    declarations: &mut Vec<Declaration<'a>>,
    tag: OpenTag<'a>,
) -> Result<(), AllocError>
    ensures tags { OnOk result (opened_in tags.new.items ≡ tag_in tag.entry ∷ opened_in tags.old.items) }
    ensures scope { OnOk result (nearest_first declarations.new.items ≡ with_declarations (tag_in tag.entry).attributes (nearest_first declarations.old.items)) }
    ensures inner { OnOk result ((last : Opened) × (tags.new.items ≡ tags.old.items ++ last ∷ [])) }
    ensures err { OnErr result (tags.new.items ≡ tags.old.items) }
    ensures behind { (more : List Declaration) × (declarations.new.items ≡ declarations.old.items ++ more) }
{
    let count = push_declarations(declarations, Attributes::of(tag.attributes))?;
    tags.push(Opened { tag, count })?;
    Ok(())
}

// Puts the declarations among attributes behind others, the last one first, since of two declarations of a prefix in one tag the first
// counts. Answers how many there are.
fn push_declarations<'a>(
    declarations: &mut Vec<Declaration<'a>>,
    attributes: Attributes<'a>,
) -> Result<usize, AllocError>
    ensures scope { OnOk result (nearest_first declarations.new.items ≡ with_declarations (attributes_left attributes.entry) (nearest_first declarations.old.items)) }
    ensures count { IfOk result (λ n. n ≡ length (with_declarations (attributes_left attributes.entry) [])) }
    ensures few { IfOk result (λ n. n ≤ attributes.entry.left) }
    ensures behind { (more : List Declaration) × (declarations.new.items ≡ declarations.old.items ++ more) }
{
    match attributes.first() {
        Some((a, behind)) => {
            let count = push_declarations(declarations, behind)?;
            match declared_prefix(a) {
                Some(prefix) => {
                    let value = a.value;
                    declarations.push(Declaration { prefix, value })?;
                    Ok(count + 1)
                }
                None => Ok(count),
            }
        }
        None => Ok(0),
    }
}
