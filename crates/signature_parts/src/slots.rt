//! Children in an order.

ghost use Rattle.std.specs.Prelude.{◌≡◌, IfSome, map, option_map};
ghost use Rattle.doc_spans.specs.Seen.{Has, document_in};
ghost use Rattle.signature_elements.specs.Names.{expanded};
ghost use Rattle.signature_elements.specs.Standing.{spot_of, spot_or_none, IsThere};
ghost use Rattle.signature_model.specs.Spots.{elements_in, paths};
ghost use Rattle.signature_model.specs.Holding.{one, at_most_one, any_number, one_or_more, after, first_misfit, lacks_one, misfits, misfits_among};
ghost use Rattle.signature_parts.specs.Places.{Adds, IsWithin};
ghost use Rattle.signature_parts.specs.Slots.{is_lacking, slot_in, slots_left};

use crate::places::FirstPlace;
use doc_spans::{Doc, NodeId};
use signature_elements::{ElementName, elements, first_called, is_called};

/// Where children with a name may stand in an order of children.
#[derive(Clone, Copy)]
pub struct Slot<'n> {
    /// The name.
    pub name: ElementName<'n>,
    /// Whether there has to be a child with the name.
    pub required: bool,
    /// Whether there may be several, beside each other.
    pub many: bool,
}

impl<'n> Slot<'n> {
    /// One child.
    pub fn one(name: ElementName<'n>) -> Slot<'n>
        ensures { slot_in result ≡ one (expanded name.entry) }
    {
        Slot {
            name,
            required: true,
            many: false,
        }
    }

    /// One child, or none.
    pub fn at_most_one(name: ElementName<'n>) -> Slot<'n>
        ensures { slot_in result ≡ at_most_one (expanded name.entry) }
    {
        Slot {
            name,
            required: false,
            many: false,
        }
    }

    /// Any number of children.
    pub fn any_number(name: ElementName<'n>) -> Slot<'n>
        ensures { slot_in result ≡ any_number (expanded name.entry) }
    {
        Slot {
            name,
            required: false,
            many: true,
        }
    }

    /// At least one child.
    pub fn one_or_more(name: ElementName<'n>) -> Slot<'n>
        ensures { slot_in result ≡ one_or_more (expanded name.entry) }
    {
        Slot {
            name,
            required: true,
            many: true,
        }
    }
}

// The slots that are left while children are gone through in their order.
#[derive(Clone, Copy)]
struct Order<'s, 'n> {
    left: &'s [Slot<'n>],
}

impl<'s, 'n> Order<'s, 'n> {
    // Those that are left behind a child, if one of them takes it.
    fn after(self, doc: Doc<'_>, child: NodeId) -> Option<Order<'s, 'n>>
        requires { IsThere doc child }
        ensures { option_map slots_left result ≡ after (spot_of doc.entry child) (slots_left self.entry) }
    {
        match self.left {
            [] => None,
            [slot, behind @ ..] => {
                if is_called(doc, child, slot.name) {
                    Some(if slot.many {
                        self
                    } else {
                        Order { left: behind }
                    })
                } else if slot.required && !slot.many {
                    None
                } else {
                    Order { left: behind }.after(doc, child)
                }
            }
        }
    }
}

// Whether a slot wants a child that isn't there.
fn is_lacking(doc: Doc<'_>, holder: NodeId, slot: Slot<'_>) -> bool
    requires { Has doc holder }
    ensures { result ≡ is_lacking (slot_in slot.entry) (elements_in (document_in doc.entry) (spot_of doc.entry holder)) }
{
    slot.required && first_called(doc, holder, slot.name).is_none()
}

fn lacks_one(doc: Doc<'_>, holder: NodeId, slots: &[Slot<'_>]) -> bool
    requires { Has doc holder }
    ensures { result ≡ lacks_one (map slot_in slots.now) (elements_in (document_in doc.entry) (spot_of doc.entry holder)) }
{
    match slots {
        [] => false,
        [slot, behind @ ..] => is_lacking(doc, holder, *slot) || lacks_one(doc, holder, behind),
    }
}

// The first child that no slot takes.
fn first_misfit(doc: Doc<'_>, holder: NodeId, slots: &[Slot<'_>]) -> Option<NodeId>
    requires { Has doc holder }
    ensures place { let children = elements_in (document_in doc.entry) (spot_of doc.entry holder) in
        paths (spot_or_none doc.entry result) ≡ first_misfit (map slot_in slots.now) children }
    ensures there { IfSome result (IsThere doc.entry) }
{
    let mut order = Order { left: slots };
    for child in elements(doc, holder) {
        match order.after(doc, child) {
            Some(next) => order = next,
            None => return Some(child),
        }
    }
    None
}

// The element, where a child is missing in it, and else its first child that is too many or out of place.
fn misfit(doc: Doc<'_>, holder: NodeId, slots: &[Slot<'_>]) -> Option<NodeId>
    requires { IsThere doc holder }
    ensures place { let spot = spot_of doc.entry holder in
        paths (spot_or_none doc.entry result) ≡ misfits_among (map slot_in slots.now) spot (elements_in (document_in doc.entry) spot) }
    ensures there { IfSome result (IsThere doc.entry) }
{
    if lacks_one(doc, holder, slots) {
        return Some(holder);
    }
    first_misfit(doc, holder, slots)
}

impl FirstPlace {
    /// The element, where its children aren't those of some slots in their order and one is missing; else its first child that is too many
    /// or out of place.
    pub fn add_misfits(&mut self, doc: Doc<'_>, slots: &[Slot<'_>], holder: Option<NodeId>)
        requires within { IsWithin doc self.old }
        requires holder { IfSome holder (IsThere doc) }
        ensures { Adds doc.entry (misfits (document_in doc.entry) (map slot_in slots.now) (spot_or_none doc.entry holder)) self.old self.new }
    {
        if let Some(node) = holder {
            if let Some(place) = misfit(doc, node, slots) {
                self.add(doc, place);
            }
        }
    }
}
