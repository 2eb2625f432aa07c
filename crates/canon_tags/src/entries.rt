//! Attributes with their expanded names.

ghost use Rattle.std.specs.Prelude.{◌≡◌};
ghost use Rattle.xml_items.specs.Found.{IsValueText};
ghost use Rattle.std.specs.Str.{chars};

use crate::orders::{is_before, is_value_before};
use xml_items::value_texts::same_values;

// An attribute's name and its value, as it stands between the quotes, and the text of its namespace name.
#[derive(Clone, Copy)]
pub(crate) struct Entry<'a> {
    pub(crate) prefix: &'a str,
    pub(crate) local: &'a str,
    pub(crate) value: &'a str,
    pub(crate) space: &'a str,
    ghost read: { IsValueText value.now },
    ghost bound: { IsValueText space.now },
}

impl<'a> Entry<'a> {
    ghost use Rattle.canon_tags.specs.Entries.{entry_in, is_named_before};

    // Whether it is written before another.
    pub(crate) fn is_before(&self, other: &Entry<'a>) -> bool
        ensures { result ≡ is_named_before (entry_in self.now) (entry_in other.now) }
    {
        is_value_before(self.space, other.space)
            || (same_values(self.space, other.space) && is_before(self.local, other.local))
    }
}
