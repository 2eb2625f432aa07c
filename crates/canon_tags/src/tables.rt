//! The attributes of a tag, read once.

ghost use Rattle.std.specs.Prelude.{◌≡◌, ◌++◌, map, OnOk};
ghost use Rattle.xml_items.specs.Attributes.{attribute_in, attributes_left};

use std::alloc::AllocError;
use xml_items::attribute_walk::{Attribute, Attributes};

// Takes attributes into a table, behind those that it has.
pub(crate) fn tabulate<'a>(
    table: &mut Vec<Attribute<'a>>,
    attributes: Attributes<'a>,
) -> Result<(), AllocError>
    ensures { OnOk result (map attribute_in table.new.items ≡ map attribute_in table.old.items ++ attributes_left attributes.entry) }
{
    let mut rest = attributes;
    'attributes: loop {
        match rest.first() {
            Some((a, behind)) => {
                table.push(a)?;
                rest = behind;
            }
            None => return Ok(()),
        }
    }
}
