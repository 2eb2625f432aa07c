// One item at the front of bytes.
ghost use Rattle.std.specs.Prelude.{◌≡◌, ◌-◌, take, ◌<◌, ◌≤◌, IfSome, IsTrue, Some, drop, length, is_some, option_map};
ghost use Rattle.document_model.specs.Items.{piece_at};
ghost use Rattle.xml_items.specs.Scanned.{piece_in};
ghost use Rattle.xml_items.specs.Items.{IsRead};
ghost use Rattle.xml_items.specs.Spans.{IsPlaced};

use crate::cuts::{Kind, cut, kind_at};
use crate::items::{Found, item_of, known_start_tag};
use crate::runs::is_ordinary;
use crate::short_tags::short_tag;
use crate::texts::characters;

// An item, and where it ends.
#[derive(Clone, Copy)]
pub struct Scanned<'a> {
    pub found: Found<'a>,
    pub end: usize,
}

// The item that begins at a place, if one stands there.
pub fn next_item<'a>(bytes: &'a [u8], at: usize) -> Option<Scanned<'a>>
    requires { at ≤ length bytes.now }
    ensures item { piece_at (drop at bytes.now) ≡ option_map (piece_in bytes.now at) result }
    ensures placed { IfSome result (λ scanned. IsPlaced (take (scanned.end - at) (drop at bytes.now)) scanned.found) }
    ensures read { IfSome result (λ scanned. IsRead scanned.found) }
    ensures within { IfSome result (λ scanned. (at < scanned.end) × (scanned.end ≤ length bytes.now)) }
{
    match short_item(bytes, at) {
        Some(scanned) => Some(scanned),
        None => match short_tag(bytes, at) {
            Some(scanned) => Some(scanned),
            None => scan(bytes, at),
        },
    }
}

// A character that stands for itself, or CR LF: most items that aren't markup are known by a byte or two.
fn short_item<'a>(bytes: &'a [u8], at: usize) -> Option<Scanned<'a>>
    requires { at ≤ length bytes.now }
    ensures item { IfSome result (λ scanned. piece_at (drop at bytes.now) ≡ Some (piece_in bytes.now at scanned)) }
    ensures placed { IfSome result (λ scanned. IsPlaced (take (scanned.end - at) (drop at bytes.now)) scanned.found) }
    ensures read { IfSome result (λ scanned. IsRead scanned.found) }
    ensures within { IfSome result (λ scanned. (at < scanned.end) × (scanned.end ≤ length bytes.now)) }
{
    if at < bytes.len() && is_ordinary(bytes[at]) {
        return Some(Scanned {
            found: Found::Character(bytes[at] as char),
            end: at + 1,
        });
    }
    if at + 1 < bytes.len() && bytes[at] == b'\r' && bytes[at + 1] == b'\n' {
        return Some(Scanned {
            found: Found::Character('\n'),
            end: at + 2,
        });
    }
    None
}

// The item that begins at a place, by its kind and its end.
fn scan<'a>(bytes: &'a [u8], at: usize) -> Option<Scanned<'a>>
    requires { at ≤ length bytes.now }
    ensures item { piece_at (drop at bytes.now) ≡ option_map (piece_in bytes.now at) result }
    ensures placed { IfSome result (λ scanned. IsPlaced (take (scanned.end - at) (drop at bytes.now)) scanned.found) }
    ensures read { IfSome result (λ scanned. IsRead scanned.found) }
    ensures within { IfSome result (λ scanned. (at < scanned.end) × (scanned.end ≤ length bytes.now)) }
{
    let rest = &bytes[at..];
    let kind = kind_at(rest);
    let len = cut(kind, rest);
    match characters(&rest[..len]) {
        Some(text) => match item_of(kind, text) {
            Some(found) => Some(Scanned {
                found,
                end: at + len,
            }),
            None => None,
        },
        None => None,
    }
}

// The item that begins at a place where one is known to stand: a start tag isn't tested again.
pub fn known_item<'a>(bytes: &'a [u8], at: usize) -> Option<Scanned<'a>>
    requires at { at ≤ length bytes.now }
    requires stands { IsTrue (is_some (piece_at (drop at bytes.now))) }
    ensures item { piece_at (drop at bytes.now) ≡ option_map (piece_in bytes.now at) result }
    ensures placed { IfSome result (λ scanned. IsPlaced (take (scanned.end - at) (drop at bytes.now)) scanned.found) }
    ensures read { IfSome result (λ scanned. IsRead scanned.found) }
    ensures within { IfSome result (λ scanned. (at < scanned.end) × (scanned.end ≤ length bytes.now)) }
{
    match short_tag(bytes, at) {
        Some(scanned) => Some(scanned),
        None => match known_start(bytes, at) {
            Some(scanned) => Some(scanned),
            None => next_item(bytes, at),
        },
    }
}

// The start tag that begins there, where it is one.
fn known_start<'a>(bytes: &'a [u8], at: usize) -> Option<Scanned<'a>>
    requires at { at ≤ length bytes.now }
    requires stands { IsTrue (is_some (piece_at (drop at bytes.now))) }
    ensures item { IfSome result (λ scanned. piece_at (drop at bytes.now) ≡ Some (piece_in bytes.now at scanned)) }
    ensures placed { IfSome result (λ scanned. IsPlaced (take (scanned.end - at) (drop at bytes.now)) scanned.found) }
    ensures read { IfSome result (λ scanned. IsRead scanned.found) }
    ensures within { IfSome result (λ scanned. (at < scanned.end) × (scanned.end ≤ length bytes.now)) }
{
    let rest = &bytes[at..];
    match kind_at(rest) {
        Kind::Tag => {
            let len = cut(Kind::Tag, rest);
            match str::from_utf8(&rest[..len]) {
                Ok(text) => match known_start_tag(text) {
                    Some((name, attributes)) => Some(Scanned {
                        found: Found::StartTag(name, attributes),
                        end: at + len,
                    }),
                    None => None,
                },
                Err(_) => None,
            }
        }
        _ => None,
    }
}
