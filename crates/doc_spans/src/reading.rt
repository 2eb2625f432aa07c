//! Reading a document: its legal items, one after another, and the rows that they make.

ghost use Rattle.std.specs.Prelude.{◌≡◌, ◌<◌, ◌≤◌, ◌+◌, true, take, drop, length, Some, IfSome, IfOk, IfErr, OnOk, option_map, not, ◌&&◌, if◌then◌else◌};
ghost use Rattle.document_model.specs.Documents.{limits, Depth, TooMany};
ghost use Rattle.xml_items.specs.Items.{item_in, IsRead};
ghost use Rattle.xml_items.specs.Scanned.{piece_in};
ghost use Rattle.doc_spans.specs.Standing.{is_deep, is_one_too_many, legal_here, fault_with, legal_within_here, goes_on, after};
ghost use Rattle.doc_spans.specs.Faults.{fault_in, MissesItem, IsFirstFault};
ghost use Rattle.doc_spans.specs.Kept.{standing_in};
ghost use Rattle.doc_spans.specs.Marks.{shape_of};
ghost use Rattle.doc_spans.specs.Building.{state_of, step};
ghost use Rattle.doc_spans.specs.Shown.{shown_of, IsShownOf};
ghost use Rattle.doc_spans.specs.View.{IsTree};
ghost use Rattle.document_model.specs.Characters.{with_line_ends};
ghost use Rattle.document_model.specs.Items.{cdata};
ghost use Rattle.std.specs.Str.{chars, IsUtf8};
ghost use Rattle.std.specs.List.{list_all};
ghost use Rattle.xml_items.specs.Runs.{is_text};
ghost use Rattle.xa_io.specs.Causes.{counted};

use crate::building::Builder;
use crate::faults::DocFault;
use crate::rows::{Kind, Shape};
use crate::standing::Standing;
use crate::trees::Tree;
use std::alloc::Global;
use xa_io::Steps;
use xml_items::items::Found;
use xml_items::runs::text_run;
use xml_items::scanner::{Scanned, next_item};
use xml_items::texts::is_empty;

impl Tree {
    /// Reads a document, and counts one step for each of its bytes.
    ///
    /// Ok exactly where the bytes spell a document of at most 256 elements inside each other and 1,048,576 nodes, as far as there is
    /// memory; the tree is that document's. Else the fault is the first, with its place: XML 1.0, "Well-Formed XML Documents";
    /// Namespaces in XML 1.0. The bytes are at most 16,777,216.
    pub fn read<L>(alloc: Global, bytes: &[u8], steps: &mut Steps<L>) -> Result<Tree, DocFault>
        requires { length bytes.now ≤ 16777216 }
        ensures tree { IfOk result (λ tree. IsShownOf tree bytes.now) }
        ensures fault { IfErr result (λ e. IsFirstFault e bytes.now) }
        ensures steps { OnOk result (steps.new ≡ counted steps.old (length bytes.now)) }
    {
        let builder = read_rows(alloc, bytes, steps)?;
        Ok(builder.finish())
    }
}

// The item that begins at a place, where it may follow the items before it, the limits aside.
fn item_there<'a>(bytes: &'a [u8], at: usize, standing: &Standing<'a>) -> Option<Scanned<'a>>
    requires { at ≤ length bytes.now }
    ensures legal { legal_here (standing_in standing.now) (drop at bytes.now) ≡ option_map (piece_in bytes.now at) result }
    ensures within { IfSome result (λ scanned. (at < scanned.end) × (scanned.end ≤ length bytes.now)) }
    ensures read { IfSome result (λ scanned. IsRead scanned.found) }
{
    match next_item(bytes, at) {
        Some(item) => {
            if standing.may_stand(item.found) {
                Some(item)
            } else {
                None
            }
        }
        None => None,
    }
}

// The legal item that begins at a place, or the fault that is there.
fn legal_item<'a>(
    bytes: &'a [u8],
    at: usize,
    standing: &Standing<'a>,
) -> Result<Scanned<'a>, DocFault>
    requires at { at < length bytes.now }
    requires small { length bytes.now ≤ 16777216 }
    requires few { standing.now.nodes ≤ limits.nodes }
    ensures legal { IfOk result (λ scanned. legal_within_here (standing_in standing.now) (drop at bytes.now) ≡ Some (piece_in bytes.now at scanned)) }
    ensures within { IfOk result (λ scanned. (at < scanned.end) × (scanned.end ≤ length bytes.now)) }
    ensures read { IfOk result (λ scanned. IsRead scanned.found) }
    ensures fault { IfErr result (λ e. MissesItem (standing_in standing.now) at (drop at bytes.now) e) }
{
    match item_there(bytes, at, standing) {
        Some(item) => {
            if is_within_limits(standing, item.found) {
                Ok(item)
            } else {
                Err(fault_there(bytes, at, standing, Some(item)))
            }
        }
        None => Err(fault_there(bytes, at, standing, None)),
    }
}

// The fault at a place where no legal item stands, or one that passes the limits.
fn fault_there<'a>(
    bytes: &'a [u8],
    at: usize,
    standing: &Standing<'a>,
    found: Option<Scanned<'a>>,
) -> DocFault
    requires at { at ≤ length bytes.now }
    requires small { length bytes.now ≤ 16777216 }
    ensures { fault_in result ≡ Some (fault_with (standing_in standing.now) at (drop at bytes.now) (option_map (piece_in bytes.now at) found.entry)) }
{
    let place = at as u32;
    if bytes[at..].starts_with(b"<!DOCTYPE") && !standing.begun {
        return DocFault::Doctype { at: place };
    }
    match found {
        Some(item) => limit_fault(place, standing, item.found),
        None => DocFault::Item { at: place },
    }
}

fn limit_fault<'a>(at: u32, standing: &Standing<'a>, found: Found<'a>) -> DocFault
    ensures { fault_in result ≡ Some (if is_deep (standing_in standing.now) (item_in found.entry) then Depth at else TooMany at) }
{
    if standing.is_too_deep(found) {
        DocFault::Depth { at }
    } else {
        DocFault::Nodes { at }
    }
}

fn is_within_limits<'a>(standing: &Standing<'a>, found: Found<'a>) -> bool
    requires read { IsRead found }
    requires few { standing.now.nodes ≤ limits.nodes }
    ensures { result ≡ (not (is_deep (standing_in standing.now) (item_in found.entry)) && not (is_one_too_many (standing_in standing.now) (item_in found.entry))) }
{
    !standing.is_too_deep(found) && !standing.has_too_many(found)
}

// What an item does to the tree.
fn shape_of(found: Found) -> Shape
    ensures { result ≡ shape_of (item_in found.entry) }
{
    match found {
        Found::Declaration => Shape::Nothing,
        Found::StartTag(_, _) => Shape::Start,
        Found::EmptyTag(_, _) => Shape::Whole {
            kind: Kind::Element,
        },
        Found::EndTag(_) => Shape::End,
        Found::Character(_) | Found::Reference(_) => Shape::Characters,
        Found::Cdata(text) => section_shape(text),
        Found::Comment(_) => Shape::Whole {
            kind: Kind::Comment,
        },
        Found::Instruction(_, _) => Shape::Whole { kind: Kind::Pi },
    }
}

fn section_shape(text: &str) -> Shape
    ensures { result ≡ shape_of (cdata (with_line_ends (chars text.now))) }
{
    if is_empty(text) {
        Shape::EmptySection
    } else {
        Shape::Characters
    }
}

// How many bytes at a place are characters that stand for themselves and do nothing but go on with a text.
fn run_there<'a>(bytes: &[u8], at: usize, standing: &Standing<'a>) -> usize
    requires { at ≤ length bytes.now }
    ensures bound { at + result ≤ length bytes.now }
    ensures going { 0 < result → goes_on (standing_in standing.now) ≡ true }
    ensures utf8 { IsUtf8 (take result (drop at bytes.now)) }
    ensures text { list_all is_text (chars (take result (drop at bytes.now))) ≡ true }
{
    if standing.goes_on() {
        text_run(bytes, at)
    } else {
        0
    }
}

// Takes a legal item.
fn take_item<'a>(
    builder: &mut Builder,
    standing: &mut Standing<'a>,
    item: Scanned<'a>,
) -> Result<(), DocFault>
    requires small { item.end ≤ 16777216 }
    requires rows { length builder.old.rows.items < 16777216 }
    requires read { IsRead item.found }
    requires few { (after (item_in item.found) (standing_in standing.old)).nodes ≤ limits.nodes }
    ensures rows { IfOk result (λ _. state_of builder.new ≡ step (shape_of (item_in item.entry.found)) item.entry.end (state_of builder.old)) }
    ensures standing { IfOk result (λ _. standing_in standing.new ≡ after (item_in item.entry.found) (standing_in standing.old)) }
    ensures fault { IfErr result (λ e. e ≡ DocFault.OutOfMemory) }
{
    standing.enter(item.found)?;
    builder.add(shape_of(item.found), item.end as u32)?;
    Ok(())
}

// Counts one step for each of so many bytes.
fn count_bytes<L>(steps: &mut Steps<L>, bytes: usize)
    requires { 0 < bytes }
    ensures { steps.new ≡ counted steps.old bytes }
{
    for _byte in 0..bytes {
        steps.tick();
    }
}

// The rows of a document.
fn read_rows<L>(alloc: Global, bytes: &[u8], steps: &mut Steps<L>) -> Result<Builder, DocFault>
    requires { length bytes.now ≤ 16777216 }
    ensures tree { IfOk result (λ builder. IsTree builder.rows.items × IsShownOf (shown_of builder.rows.items) bytes.now) }
    ensures fault { IfErr result (λ e. IsFirstFault e bytes.now) }
    ensures steps { OnOk result (steps.new ≡ counted steps.old (length bytes.now)) }
{
    let mut builder = Builder::new(alloc);
    let mut standing = Standing::new(alloc);
    let mut at = 0;
    'items: while at < bytes.len() {
        let run = run_there(bytes, at, &standing);
        let end = if run > 0 {
            builder.add(Shape::Characters, (at + run) as u32)?;
            at + run
        } else {
            let item = legal_item(bytes, at, &standing)?;
            take_item(&mut builder, &mut standing, item)?;
            item.end
        };
        count_bytes(steps, end - at);
        at = end;
    }
    if standing.is_complete() {
        Ok(builder)
    } else {
        Err(DocFault::End)
    }
}
