//! Items that are accepted one after another: each file in between is read with the same free signature, and keeps all that it covers.
//!
//! The definitions stand in `specs/`. Each function here has an empty body, and its contract is a law, on files.
#![tactic(auto)]

ghost use Rattle.attached_lists.specs.Covering.{FilesCover};
ghost use Rattle.attached_lists.specs.Files.{CallsCompose, FilesAreSpelled, ItemsHold};

/// Of any two of the files that accepted items give, both spell a document that is read with the same free signature; what the signature
/// covers in the earlier one is a front of what it covers in the later one; and the later one is the earlier one with bytes put in.
pub fn items_hold()
    ensures { ItemsHold }
{}

/// Each file spells the tree that the items give.
pub fn files_are_spelled()
    ensures { FilesAreSpelled }
{}

/// Items in one call and in several calls give the same file.
pub fn calls_compose()
    ensures { CallsCompose }
{}

/// What accepted items add to what the signature covers: the entries of each item over the file that it is put into, and nothing else.
pub fn files_cover()
    ensures { FilesCover }
{}
