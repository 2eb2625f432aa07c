//! The elements around a node, and what they wrote.

ghost use Rattle.std.specs.Prelude.{◌≡◌, ◌++◌, ◌∷◌, List, [], true, take, ◌≤◌, vec_len, if◌then◌else◌, codes, flat_map, OnOk, IfOk, encode_utf8_all};
ghost use Rattle.document_model.specs.Names.{spelled};
ghost use Rattle.document_model.specs.Scopes.{Tag};
ghost use Rattle.document_model.specs.Canonical.{Around as Surroundings, at_apex, inside, start_text, declarations, declaration_text, attributes_text};
ghost use Rattle.doc_spans.specs.OpenTags.{tag_in};
ghost use Rattle.canon_methods.specs.Rules.{rule_in};
ghost use Rattle.doc_spans.specs.Declarations.{nearest_first};
ghost use Rattle.canon_tags.specs.Entries.{entries_in, entries_text};
ghost use Rattle.doc_spans.specs.Scopes.{tags_around};
ghost use Rattle.canon_tags.specs.Givers.{givers_by};

use crate::attributes::arrange;
use crate::entries::Entry;
use crate::entry_lists::put_entries;
use crate::prefixes::{gather, keep_rendered, put_declarations};
use crate::tables::tabulate;
use canon_methods::Rule;
use doc_spans::OpenTag;
use doc_spans::declarations::{Declaration, Declared};
use doc_spans::stacks::Scopes;
use std::alloc::{AllocError, Global};
use xa_io::{Octs, OutOfMemory};
use xml_items::attribute_walk::{Attribute, Attributes};

/// The elements around a node, and what they wrote.
#[derive(Drop)]
pub struct Around<'a> {
    scopes: Scopes<'a>,
    below: bool,
    rendered: Vec<Declaration<'a>>,
    table: Vec<Attribute<'a>>,
    found: Vec<&'a str>,
    pending: Vec<Entry<'a>>,
    entries: Vec<Entry<'a>>,
}

/// What leads out of an element again, behind its last node.
#[derive(Clone, Copy)]
pub struct Outside {
    below: bool,
    rendered: usize,
}

impl<'a> Around<'a> {
    ghost use Rattle.canon_tags.specs.Around.{around_in, found_in, LeadsBack};

    /// Around a node that no element holds.
    pub fn new(alloc: Global) -> Around<'a>
        ensures { around_in result ≡ at_apex [] }
    {
        Around {
            scopes: Scopes::new(alloc),
            below: false,
            rendered: Vec::new(alloc),
            table: Vec::new(alloc),
            found: Vec::new(alloc),
            pending: Vec::new(alloc),
            entries: Vec::new(alloc),
        }
    }

    /// Takes one more element around an apex, inside those that were taken: it is in scope, and isn't written. After `OutOfMemory` what
    /// stands around isn't known.
    pub fn hold(&mut self, tag: OpenTag<'a>) -> Result<(), OutOfMemory>
        ensures { OnOk result ((outer : List Tag) → around_in self.old ≡ at_apex outer → around_in self.new ≡ at_apex (tag_in tag.entry ∷ outer)) }
    {
        match self.scopes.push(tag) {
            Ok(_) => {
                self.below = false;
                Ok(())
            }
            Err(AllocError) => Err(OutOfMemory),
        }
    }

    /// Appends the start tag of an element by a rule, and goes into the element: Canonical XML 1.0, section 2.3; Exclusive XML
    /// Canonicalization 1.0, section 3. After `OutOfMemory` a part of the tag may have been appended, and what stands around isn't known.
    pub fn open(
        &mut self,
        out: &mut Octs,
        rule: &Rule<'_>,
        tag: OpenTag<'a>,
    ) -> Result<Outside, OutOfMemory>
        ensures text { OnOk result (out.new ≡ out.old ++ encode_utf8_all (start_text (rule_in rule.now) (around_in self.old) (tag_in tag.entry))) }
        ensures inside { OnOk result (around_in self.new ≡ inside (rule_in rule.now) (around_in self.old) (tag_in tag.entry)) }
        ensures back { IfOk result (λ outside. LeadsBack (around_in self.new) outside (around_in self.old)) }
    {
        let outside = Outside {
            below: self.below,
            rendered: self.rendered.len(),
        };
        if let Err(AllocError) = self.enter(rule, tag) {
            return Err(OutOfMemory);
        }
        self.put_tag(out, tag)?;
        match self.render() {
            Ok(()) => Ok(outside),
            Err(AllocError) => Err(OutOfMemory),
        }
    }

    // How many of the elements around give `xml:` attributes to an element that is opened: all, to the apex of an inclusive text.
    fn givers(&self, rule: &Rule<'_>) -> usize
        ensures givers { take result self.now.scopes.tags.items ≡ givers_by (rule_in rule.now) self.now.below self.now.scopes.tags.items }
        ensures bound { result ≤ vec_len self.now.scopes.tags }
    {
        match rule {
            Rule::Inclusive if !self.below => self.scopes.tags.len(),
            _ => 0,
        }
    }

    // How many declarations the nearest written element has in scope, where so many are in scope around a tag: none at an apex.
    fn shared(&self, outside: usize) -> usize
        ensures shared { result ≡ (if self.now.below then outside else 0) }
        ensures bound { result ≤ outside }
    {
        if self.below { outside } else { 0 }
    }

    // Goes into an element. Takes the prefixes whose declarations it is written with, and its attributes.
    fn enter(&mut self, rule: &Rule<'_>, tag: OpenTag<'a>) -> Result<(), AllocError>
        ensures outer { OnOk result (tags_around self.new.scopes ≡ tag_in tag.entry ∷ tags_around self.old.scopes) }
        ensures below { self.new.below ≡ self.old.below }
        ensures rendered { self.new.rendered.items ≡ self.old.rendered.items }
        ensures declarations { OnOk result (found_in self.new ≡ declarations (rule_in rule.now) (around_in self.old) (tag_in tag.entry)) }
        ensures attributes { OnOk result (entries_text (entries_in self.new.entries.items) ≡ attributes_text (rule_in rule.now) (around_in self.old) (tag_in tag.entry)) }
    {
        let givers = self.givers(rule);
        let outside = self.scopes.push(tag)?;
        let shared = self.shared(outside);
        self.table.clear();
        tabulate(&mut self.table, Attributes::of(tag.attributes))?;
        gather(
            &mut self.found,
            &self.scopes,
            shared,
            &self.rendered,
            rule,
            tag,
            self.table.as_slice(),
        )?;
        arrange(
            &mut self.entries,
            &mut self.pending,
            &self.scopes,
            tag,
            self.table.as_slice(),
            givers,
        )?;
        Ok(())
    }

    // Appends the start tag.
    fn put_tag(&self, out: &mut Octs, tag: OpenTag<'a>) -> Result<(), OutOfMemory>
        ensures { OnOk result (out.new ≡ out.old ++ encode_utf8_all (codes "<" ++ spelled (tag_in tag.entry).name ++ flat_map declaration_text (found_in self.now) ++ entries_text (entries_in self.now.entries.items) ++ codes ">")) }
    {
        let scope = Declared {
            items: self.scopes.declarations.as_slice(),
        };
        out.push_all(b"<")?;
        out.push_all(tag.name.as_bytes())?;
        put_declarations(out, scope, self.found.as_slice())?;
        put_entries(out, self.entries.as_slice())?;
        out.push_all(b">")?;
        Ok(())
    }

    // Keeps what was written for the elements inside.
    fn render(&mut self) -> Result<(), AllocError>
        ensures outer { tags_around self.new.scopes ≡ tags_around self.old.scopes }
        ensures below { OnOk result (self.new.below ≡ true) }
        ensures rendered { OnOk result (nearest_first self.new.rendered.items ≡ found_in self.old ++ nearest_first self.old.rendered.items) }
    {
        keep_rendered(&mut self.rendered, &self.scopes, &mut self.found)?;
        self.below = true;
        Ok(())
    }

    /// Goes out of the innermost element, behind its last node.
    pub fn close(&mut self, outside: Outside)
        ensures { (before : Surroundings) → LeadsBack (around_in self.old) outside before → around_in self.new ≡ before }
    {
        self.scopes.pop();
        self.below = outside.below;
        self.rendered.truncate(outside.rendered);
    }
}
