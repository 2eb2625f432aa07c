//! The prefixes whose declarations a tag is written with.

ghost use Rattle.std.specs.Prelude.{◌≡◌, ◌++◌, ◌∷◌, ◌≤◌, not, List, [], map, length, take, drop, insert, vec_len, if◌then◌else◌, OnOk, encode_utf8_all, flat_map};
ghost use Rattle.std.specs.Str.{chars};
ghost use Rattle.document_model.specs.Characters.{is_empty};
ghost use Rattle.document_model.specs.Canonical.{is_before, placed, is_among, with_prefix, rendered_value, declaration_text, declared_as};
ghost use Rattle.xml_items.specs.Attributes.{attribute_in};
ghost use Rattle.doc_spans.specs.OpenTags.{tag_in};
ghost use Rattle.canon_methods.specs.Rules.{prefixes_in, rule_in};
ghost use Rattle.doc_spans.specs.Scoped.{space_in};
ghost use Rattle.canon_tags.specs.Scoped.{prefixes_of, is_bound, changes_in, is_unrendered_in, is_declared_anew, is_rendered_anew, with_used, used_by, gathered, gathered_by};
ghost use Rattle.doc_spans.specs.Declarations.{nearest_first};
ghost use Rattle.doc_spans.specs.Looked.{declared};
ghost use Rattle.canon_tags.specs.Texts.{texts_in};
ghost use Rattle.canon_tags.specs.Own.{own_prefixes};

use crate::orders::is_before;
use crate::writing::put_declaration;
use canon_methods::{Prefixes, Rule};
use doc_spans::OpenTag;
use doc_spans::declarations::{Declaration, Declared};
use doc_spans::stacks::Scopes;
use std::alloc::AllocError;
use xa_io::{Octs, OutOfMemory};
use xml_items::attribute_walk::Attribute;
use xml_items::names::name_parts;
use xml_items::texts::{is, is_empty, same};
use xml_items::value_texts::same_values;

// The declarations in scope at a tag and at the nearest written element, and those that the written elements around it have.
#[derive(Clone, Copy)]
pub(crate) struct Standing<'s, 'a> {
    pub(crate) scope: Declared<'s, 'a>,
    pub(crate) written: Declared<'s, 'a>,
    pub(crate) rendered: Declared<'s, 'a>,
}

impl<'s, 'a> Standing<'s, 'a> {
    // Whether the value of a prefix is another than at the nearest written element.
    fn changes(&self, prefix: &str) -> bool
        ensures { result ≡ changes_in (declared self.now.scope) (declared self.now.written) (chars prefix.now) }
    {
        !same_values(self.scope.space_of(prefix), self.written.space_of(prefix))
    }

    // Whether it is another than the nearest element that wrote it wrote.
    fn is_unrendered(&self, prefix: &str) -> bool
        ensures { result ≡ is_unrendered_in (declared self.now.scope) (declared self.now.rendered) (chars prefix.now) }
    {
        !same_values(
            self.scope.space_of(prefix),
            self.rendered.value_or_none(prefix),
        )
    }

    // Whether a prefix is declared; the default always is.
    fn is_bound(&self, prefix: &str) -> bool
        ensures { result ≡ is_bound (chars prefix.now) (declared self.now.scope) }
    {
        self.scope.value_of(prefix).is_some() || is_empty(prefix)
    }

    // Whether a prefix that is declared is written, used or not.
    fn is_declared_anew(&self, rule: &Rule<'_>, prefix: &str) -> bool
        ensures { result ≡ is_declared_anew (rule_in rule.now) (declared self.now.scope) (declared self.now.written) (chars prefix.now) }
    {
        match rule {
            Rule::Inclusive => self.changes(prefix),
            Rule::Exclusive(prefixes) => {
                !is(prefix, "xml") && prefixes.has(prefix) && self.changes(prefix)
            }
        }
    }

    // Whether a prefix that is used is written by the exclusive rule.
    fn is_rendered_anew(&self, prefixes: &Prefixes<'_>, prefix: &str) -> bool
        ensures { result ≡ is_rendered_anew (prefixes_in prefixes.now) (declared self.now.scope) (declared self.now.written) (declared self.now.rendered) (chars prefix.now) }
    {
        self.is_bound(prefix) && !is(prefix, "xml") && self.differs(prefixes, prefix)
    }

    fn differs(&self, prefixes: &Prefixes<'_>, prefix: &str) -> bool
        ensures { result ≡ (if is_among (chars prefix.now) (prefixes_in prefixes.now) then changes_in (declared self.now.scope) (declared self.now.written) (chars prefix.now) else is_unrendered_in (declared self.now.scope) (declared self.now.rendered) (chars prefix.now)) }
    {
        if prefixes.has(prefix) {
            self.changes(prefix)
        } else {
            self.is_unrendered(prefix)
        }
    }
}

fn is_there(found: &[&str], prefix: &str) -> bool
    ensures { result ≡ is_among (chars prefix.now) (texts_in found.now) }
{
    'prefixes: for other in found {
        if same(prefix, other) {
            return true;
        }
    }
    false
}

// The place of a prefix among others: before the first that isn't before it.
fn place_of(found: &[&str], prefix: &str) -> usize
    ensures bound { result ≤ length found.now }
    ensures place { placed is_before (chars prefix.now) (texts_in found.now) ≡ insert (texts_in found.now) result (chars prefix.now) }
{
    let mut at = 0;
    'prefixes: while at < found.len() {
        if !is_before(found[at], prefix) {
            return at;
        }
        at += 1;
    }
    at
}

// Puts a prefix among others, once.
fn place<'a>(found: &mut Vec<&'a str>, prefix: &'a str) -> Result<(), AllocError>
    ensures { OnOk result (texts_in found.new.items ≡ with_prefix (chars prefix.now) (texts_in found.old.items)) }
{
    if !is_there(found.as_slice(), prefix) {
        let at = place_of(found.as_slice(), prefix);
        found.insert(at, prefix)?;
    }
    Ok(())
}

// Takes the prefixes of declarations that are written, used or not.
fn gather_declared<'a>(
    found: &mut Vec<&'a str>,
    standing: &Standing<'_, 'a>,
    rule: &Rule<'_>,
    own: &[Declaration<'a>],
) -> Result<(), AllocError>
    ensures { OnOk result (texts_in found.new.items ≡ gathered (is_declared_anew (rule_in rule.now) (declared standing.now.scope) (declared standing.now.written)) (own_prefixes own.now) (texts_in found.old.items)) }
{
    'own: for declaration in own {
        if standing.is_declared_anew(rule, declaration.prefix) {
            place(found, declaration.prefix)?;
        }
    }
    Ok(())
}

// Takes a prefix that is used, where it is written.
fn gather_one<'a>(
    found: &mut Vec<&'a str>,
    standing: &Standing<'_, 'a>,
    prefixes: &Prefixes<'_>,
    prefix: &'a str,
) -> Result<(), AllocError>
    ensures { OnOk result (texts_in found.new.items ≡ gathered (is_rendered_anew (prefixes_in prefixes.now) (declared standing.now.scope) (declared standing.now.written) (declared standing.now.rendered)) (chars prefix.now ∷ []) (texts_in found.old.items)) }
{
    if standing.is_rendered_anew(prefixes, prefix) {
        place(found, prefix)?;
    }
    Ok(())
}

// Takes the prefixes of attributes.
fn gather_used<'a>(
    found: &mut Vec<&'a str>,
    standing: &Standing<'_, 'a>,
    prefixes: &Prefixes<'_>,
    attributes: &[Attribute<'a>],
) -> Result<(), AllocError>
    ensures { OnOk result (texts_in found.new.items ≡ gathered (is_rendered_anew (prefixes_in prefixes.now) (declared standing.now.scope) (declared standing.now.written) (declared standing.now.rendered)) (with_used (map attribute_in attributes.now) []) (texts_in found.old.items)) }
{
    let mut rest = attributes;
    'attributes: while let [a, behind @ ..] = rest {
        if !is_empty(a.prefix) {
            gather_one(found, standing, prefixes, a.prefix)?;
        }
        rest = behind;
    }
    Ok(())
}

// Takes all prefixes whose declarations are written, in order. The first of the declarations, so many, are those that the nearest written
// element has in scope too.
pub(crate) fn gather<'a>(
    found: &mut Vec<&'a str>,
    scopes: &Scopes<'a>,
    shared: usize,
    rendered: &Vec<Declaration<'a>>,
    rule: &Rule<'_>,
    tag: OpenTag<'a>,
    table: &[Attribute<'a>],
) -> Result<(), AllocError>
    requires shared { shared ≤ vec_len scopes.now.declarations }
    requires table { map attribute_in table.now ≡ (tag_in tag).attributes }
    ensures { OnOk result (texts_in found.new.items ≡ gathered_by (rule_in rule.now) (own_prefixes (drop shared scopes.now.declarations.items)) (nearest_first scopes.now.declarations.items) (nearest_first (take shared scopes.now.declarations.items)) (nearest_first rendered.now.items) (tag_in tag.entry)) }
{
    found.clear();
    let declarations = scopes.declarations.as_slice();
    let (written, own) = declarations.split_at(shared);
    let standing = Standing {
        scope: Declared {
            items: declarations,
        },
        written: Declared { items: written },
        rendered: Declared {
            items: rendered.as_slice(),
        },
    };
    gather_declared(found, &standing, rule, own)?;
    if let Rule::Exclusive(prefixes) = rule {
        let (prefix, _) = name_parts(tag.name);
        gather_one(found, &standing, prefixes, prefix)?;
        gather_used(found, &standing, prefixes, table)?;
    }
    Ok(())
}

// Appends the declaration of a prefix.
fn put_one(out: &mut Octs, scope: Declared<'_, '_>, prefix: &str) -> Result<(), OutOfMemory>
    ensures { OnOk result (out.new ≡ out.old ++ encode_utf8_all (declaration_text (declared_as (chars prefix.now) (space_in (chars prefix.now) (declared scope.entry))))) }
{
    put_declaration(out, prefix, scope.space_of(prefix))?;
    Ok(())
}

// Appends the declarations of prefixes.
pub(crate) fn put_declarations(
    out: &mut Octs,
    scope: Declared<'_, '_>,
    found: &[&str],
) -> Result<(), OutOfMemory>
    ensures { OnOk result (out.new ≡ out.old ++ encode_utf8_all (flat_map declaration_text (map (λ prefix. declared_as prefix (space_in prefix (declared scope.entry))) (texts_in found.now)))) }
{
    'prefixes: for prefix in found {
        put_one(out, scope, prefix)?;
    }
    Ok(())
}

// Keeps the declarations of prefixes as rendered, the first of them nearest.
pub(crate) fn keep_rendered<'a>(
    rendered: &mut Vec<Declaration<'a>>,
    scopes: &Scopes<'a>,
    found: &mut Vec<&'a str>,
) -> Result<(), AllocError>
    ensures { OnOk result (nearest_first rendered.new.items ≡ map (λ prefix. declared_as prefix (space_in prefix (nearest_first scopes.now.declarations.items))) (texts_in found.old.items) ++ nearest_first rendered.old.items) }
{
    let scope = Declared {
        items: scopes.declarations.as_slice(),
    };
    'prefixes: while let Some(prefix) = found.pop() {
        let value = scope.space_of(prefix);
        rendered.push(Declaration { prefix, value })?;
    }
    Ok(())
}
