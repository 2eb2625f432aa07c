//! The elements of a content.

ghost use Rattle.std.specs.Prelude.{◌≡◌, ◌==◌, find, slice_get, map};
ghost use Rattle.std.specs.Option.{option_map};
ghost use Rattle.std.specs.List.{list_any};
ghost use Rattle.std.specs.Str.{bytes_eq};
ghost use Rattle.std.specs.Iterator.{YieldsFirstBy, item_count};
ghost use Rattle.der_values.specs.View.{view, elements_left};
ghost use Rattle.der_values.specs.Elements.{elements, tagged, first_named};
ghost use Rattle.der_values.specs.Rules.{has_named, stands_in};

use crate::rules::{part, piece};
use crate::tlv::{Tlv, read_tlv};

/// The elements that are left of a content.
#[derive(Clone, Drop)]
pub struct Elements<'a> {
    rest: &'a [u8],
}

/// The elements of a content, up to the first place where none is legal.
pub fn elements_of<'a>(content: &'a [u8]) -> Elements<'a>
    ensures { elements_left result ≡ elements content.now }
{
    Elements { rest: content }
}

impl<'a> Elements<'a> {
    /// The same elements once more.
    pub(crate) fn again(&self) -> Elements<'a>
        ensures { elements_left result ≡ elements_left self.now }
    {
        Elements { rest: self.rest }
    }
}

impl<'a> Iterator for Elements<'a> {
    type Item = Tlv<'a>;

    ghost next_gives = { YieldsFirstBy view elements_left };

    ghost remaining = { item_count elements_left };

    #[tactic(auto, using(crate::proofs::Steps::elements_step, crate::proofs::Steps::elements_none, crate::proofs::Steps::elements_nil))]
    fn next(&mut self) -> Option<Tlv<'a>> {
        match read_tlv(self.rest, 0) {
            Ok(tlv) => {
                self.rest = self.rest.split_at(tlv.whole.len()).1;
                Some(tlv)
            }
            Err(_) => {
                self.rest = &[];
                None
            }
        }
    }
}

/// The first element of a tag.
pub fn with_tag<'a>(tag: u8, content: &'a [u8]) -> Option<Tlv<'a>>
    ensures { option_map view result ≡ tagged tag content.now }
{
    elements_of(content).find(|e| e.tag == tag)
}

/// The first element that begins with an element of this content.
pub fn named<'a>(name: &[u8], content: &'a [u8]) -> Option<Tlv<'a>>
    ensures { option_map view result ≡ first_named name.now content.now }
{
    elements_of(content).find(|e| part(0, e.content) == name)
}

/// Whether an element has this content.
pub fn has_octets(octets: &[u8], content: &[u8]) -> bool
    ensures { result ≡ list_any (λ e. bytes_eq e.content octets.now) (elements content.now) }
{
    elements_of(content).any(|e| e.content == octets)
}

/// Whether an element begins with an element of this content.
pub(crate) fn has_named(name: &[u8], content: &[u8]) -> bool
    ensures { result ≡ has_named name.now content.now }
{
    elements_of(content).any(|e| part(0, e.content) == name)
}

/// Whether an element begins with the same element as this one.
pub(crate) fn stands_in(tlv: &Tlv<'_>, content: &[u8]) -> bool
    ensures { result ≡ stands_in (view tlv.now) content.now }
{
    let first = piece(0, tlv.content);
    elements_of(content).any(|e| piece(0, e.content) == first)
}
