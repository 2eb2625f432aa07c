// The item that a whole text is, kind by kind.
ghost use Rattle.std.specs.Prelude.{◌≡◌, ◌∷◌, [], option_map, option_and_then, is_some, codes, IfSome, IsTrue, Some, ℕ, List, ◌++◌, ◌+◌, length};
ghost use Rattle.std.specs.Str.{chars};
ghost use Rattle.document_model.specs.Characters.{between, with_line_ends};
ghost use Rattle.document_model.specs.Items.{item_of, character_of, comment, cdata, character, end_tag, reference, instruction, instruction_of, declaration_of, tag_of, start_tag, empty_tag, CommentKind, CdataKind, InstructionKind, EndTagKind, TagKind, ReferenceKind, CharacterKind};
ghost use Rattle.xml_items.specs.Found.{name_in, attributes_in, IsNameText, AreAttributesText};
ghost use Rattle.xml_items.specs.Items.{item_in, IsRead};
ghost use Rattle.xml_items.specs.Spans.{StandsAt, IsPlaced};
ghost use Rattle.xml_items.specs.Kinds.{kind_of};

use crate::classes::{Class, first, front};
use crate::cuts::Kind;
use crate::declarations::is_declaration;
use crate::names::{is_name, is_plain_name};
use crate::references::referred;
use crate::tags::tag;
use crate::texts::{between, contains, is, is_lowered, without_space_behind};

// What a comment holds.
pub fn comment(text: &str) -> Option<&str>
    ensures item { item_of CommentKind (chars text.now) ≡ option_map (λ inside. comment (with_line_ends (chars inside.now))) result }
    ensures placed { IfSome result (λ inside. text.now ≡ codes "<!--" ++ (inside.now ++ codes "-->")) }
{
    let inside = between(text, "<!--", "-->")?;
    // What it holds, with the first dash of its end.
    let dashed = between(text, "<!--", "->")?;
    if contains(dashed, "--") {
        return None;
    }
    Some(inside)
}

// What a CDATA section holds.
pub fn cdata(text: &str) -> Option<&str>
    ensures item { item_of CdataKind (chars text.now) ≡ option_map (λ inside. cdata (with_line_ends (chars inside.now))) result }
    ensures placed { IfSome result (λ inside. text.now ≡ codes "<![CDATA[" ++ (inside.now ++ codes "]]>")) }
{
    let inside = between(text, "<![CDATA[", "]]>")?;
    if contains(inside, "]]>") {
        return None;
    }
    Some(inside)
}

// The name in an end tag.
pub fn end_tag(text: &str) -> Option<&str>
    ensures item { item_of EndTagKind (chars text.now) ≡ option_map (λ name. end_tag (name_in (chars name.now))) result }
    ensures placed { IfSome result (λ name. StandsAt text.now 2 name.now) }
    ensures read { IfSome result (λ name. IsNameText name.now) }
{
    let inside = between(text, "</", ">")?;
    let name = without_space_behind(inside);
    if !is_name(name) {
        return None;
    }
    Some(name)
}

// The character that a reference stands for.
pub fn reference(text: &str) -> Option<u32>
    ensures { item_of ReferenceKind (chars text.now) ≡ option_map reference result }
{
    let inside = between(text, "&", ";")?;
    referred(inside)
}

// One literal character; CR LF, and CR alone, are LF.
pub fn character(text: &str) -> Option<char>
    ensures { item_of CharacterKind (chars text.now) ≡ option_map character result }
{
    match first(text) {
        Some((c, rest)) => {
            if rest.is_empty() {
                alone(c)
            } else if is(text, "\r\n") {
                Some('\n')
            } else {
                None
            }
        }
        None => None,
    }
}

fn alone(c: char) -> Option<char>
    ensures { character_of (c ∷ []) ≡ option_map character result }
{
    match c {
        '<' | '&' => None,
        '\r' => Some('\n'),
        _ => Some(c),
    }
}

// The target and the content of a PI, by what stands between `<?` and `?>`.
fn instruction<'a>(text: &'a str) -> Option<(&'a str, &'a str)>
    ensures placed { IfSome result (λ r. (space : List ℕ) × (text.now ≡ r.0.now ++ (space ++ r.1.now))) }
    ensures item { instruction_of (chars text.now) ≡ option_map (λ r. instruction (chars r.0.now) (with_line_ends (chars r.1.now))) result }
{
    let (target, behind) = front(text, Class::NotWhite);
    if !is_plain_name(target) || is_lowered(target, "xml") || contains(text, "?>") {
        return None;
    }
    let (_, content) = front(behind, Class::White);
    Some((target, content))
}

// An item, by the texts in it that a tree keeps.
#[derive(Clone, Copy)]
pub enum Found<'a> {
    Declaration,
    StartTag(&'a str, &'a str),
    EmptyTag(&'a str, &'a str),
    EndTag(&'a str),
    Character(char),
    Reference(u32),
    Cdata(&'a str),
    Comment(&'a str),
    Instruction(&'a str, &'a str),
}

// The item that a whole text is, if it is one of that kind.
pub fn item_of<'a>(kind: Kind, text: &'a str) -> Option<Found<'a>>
    ensures item { item_of (kind_of kind) (chars text.now) ≡ option_map item_in result }
    ensures placed { IfSome result (IsPlaced text.now) }
    ensures read { IfSome result IsRead }
{
    match kind {
        Kind::Comment => match comment(text) {
            Some(inside) => Some(Found::Comment(inside)),
            None => None,
        },
        Kind::Cdata => match cdata(text) {
            Some(inside) => Some(Found::Cdata(inside)),
            None => None,
        },
        Kind::Instruction => instruction_or_declaration(text),
        Kind::EndTag => match end_tag(text) {
            Some(name) => Some(Found::EndTag(name)),
            None => None,
        },
        Kind::Tag => start_or_empty_tag(text),
        Kind::Reference => match reference(text) {
            Some(c) => Some(Found::Reference(c)),
            None => None,
        },
        Kind::Character => match character(text) {
            Some(c) => Some(Found::Character(c)),
            None => None,
        },
    }
}

fn instruction_or_declaration<'a>(text: &'a str) -> Option<Found<'a>>
    ensures item { item_of InstructionKind (chars text.now) ≡ option_map item_in result }
    ensures placed { IfSome result (IsPlaced text.now) }
    ensures read { IfSome result IsRead }
{
    if is_xml_declaration(text) {
        return Some(Found::Declaration);
    }
    match between(text, "<?", "?>") {
        Some(inside) => match instruction(inside) {
            Some((target, content)) => Some(Found::Instruction(target, content)),
            None => None,
        },
        None => None,
    }
}

fn is_xml_declaration(text: &str) -> bool
    ensures { result ≡ is_some (option_and_then declaration_of (between (codes "<?xml") (codes "?>") (chars text.now))) }
{
    match between(text, "<?xml", "?>") {
        Some(inside) => is_declaration(inside),
        None => false,
    }
}

fn start_or_empty_tag<'a>(text: &'a str) -> Option<Found<'a>>
    ensures item { item_of TagKind (chars text.now) ≡ option_map item_in result }
    ensures placed { IfSome result (IsPlaced text.now) }
    ensures read { IfSome result IsRead }
{
    match empty_tag(text) {
        Some((name, attributes)) => Some(Found::EmptyTag(name, attributes)),
        None => match start_tag(text) {
            Some((name, attributes)) => Some(Found::StartTag(name, attributes)),
            None => None,
        },
    }
}

fn empty_tag<'a>(text: &'a str) -> Option<(&'a str, &'a str)>
    ensures placed { IfSome result (λ r. StandsAt text.now 1 r.0.now × StandsAt text.now (1 + length r.0.now) r.1.now) }
    ensures read { IfSome result (λ r. IsNameText r.0.now × AreAttributesText r.1.now) }
    ensures item { option_and_then (tag_of empty_tag) (between (codes "<") (codes "/>") (chars text.now)) ≡ option_map (λ r. empty_tag (name_in (chars r.0.now)) (attributes_in (chars r.1.now))) result }
{
    match between(text, "<", "/>") {
        Some(inside) => tag(inside),
        None => None,
    }
}

fn start_tag<'a>(text: &'a str) -> Option<(&'a str, &'a str)>
    ensures placed { IfSome result (λ r. StandsAt text.now 1 r.0.now × StandsAt text.now (1 + length r.0.now) r.1.now) }
    ensures read { IfSome result (λ r. IsNameText r.0.now × AreAttributesText r.1.now) }
    ensures item { option_and_then (tag_of start_tag) (between (codes "<") (codes ">") (chars text.now)) ≡ option_map (λ r. start_tag (name_in (chars r.0.now)) (attributes_in (chars r.1.now))) result }
{
    match between(text, "<", ">") {
        Some(inside) => tag(inside),
        None => None,
    }
}

// The name and the attributes of a start tag, where a tag is known to stand. None of an empty tag.
pub(crate) fn known_start_tag<'a>(text: &'a str) -> Option<(&'a str, &'a str)>
    requires { IsTrue (is_some (item_of TagKind (chars text.now))) }
    ensures placed { IfSome result (λ r. StandsAt text.now 1 r.0.now × StandsAt text.now (1 + length r.0.now) r.1.now) }
    ensures item { IfSome result (λ r. item_of TagKind (chars text.now) ≡ Some (start_tag (name_in (chars r.0.now)) (attributes_in (chars r.1.now)))) }
    ensures read { IfSome result (λ r. IsNameText r.0.now × AreAttributesText r.1.now) }
{
    if between(text, "<", "/>").is_some() {
        return None;
    }
    match between(text, "<", ">") {
        Some(inside) => {
            let (name, attributes) = front(without_space_behind(inside), Class::NamePartOrColon);
            Some((name, attributes))
        }
        None => None,
    }
}
