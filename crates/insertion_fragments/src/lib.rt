//! What is put into documents is legal content: items that are attached, and prepared signatures. So the new bytes spell the new tree.
//!
//! The definitions stand in `specs/`. Each function here has an empty body, and its contract is a law.
#![tactic(auto)]

ghost use Rattle.insertion_fragments.specs.Drafts.{PreparedIsSpelled};
ghost use Rattle.insertion_fragments.specs.Fragment.{FragmentsAreContent};
ghost use Rattle.insertion_fragments.specs.Items.{ItemsAreSpelled};

/// Nodes of elements and simple text, whose tags are sound in the scope of an element, are legal content of it once they are written, and the
/// content's nodes are these. Values of attributes may have any character but tab, line feed and carriage return.
pub fn fragments_are_content()
    ensures { FragmentsAreContent }
{}

/// An item that is put into an element of a document gives bytes that spell the document with the item, unless this passes the limit on depth
/// or nodes, which the fault of the bytes then tells. It holds for the four kinds of items, in each host.
pub fn items_are_spelled()
    ensures { ItemsAreSpelled }
{}

/// The signature of a draft put into a document gives bytes that spell the prepared document, unless this passes such a limit.
pub fn prepared_is_spelled()
    ensures { PreparedIsSpelled }
{}
