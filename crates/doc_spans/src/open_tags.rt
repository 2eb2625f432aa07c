//! Start tags, by their texts.

ghost use Rattle.xml_items.specs.Found.{IsNameText, AreAttributesText};

/// A start tag or an empty tag, as it is written: `attribute_walk` of `xml_items` reads its attributes again and meets no fault.
#[derive(Clone, Copy)]
pub struct OpenTag<'a> {
    /// Its name.
    pub name: &'a str,
    /// What stands behind the name: the attributes and namespace declarations.
    pub attributes: &'a str,
    ghost named: { IsNameText name.now },
    ghost read: { AreAttributesText attributes.now },
}
