//! Laws of items that are attached, over the definitions alone.

ghost use Rattle.augmenter.specs.Attaching.{AnswersAreOne};

/// At most one answer of `attach` fits, want of memory aside: the new document, the fault of the document, or the first item that is refused
/// with its code.
pub fn answers_are_one()
    ensures { AnswersAreOne }
{}
