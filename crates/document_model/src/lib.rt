//! Documents, scopes, node sets, canonical text and insertion: the definitions that the contracts of the crates above cite, and the
//! laws that are proved of them.
//!
//! The definitions stand in `specs/`, one file a topic. Each function here has an empty body, and its contract is a law.
#![tactic(auto)]

ghost use Rattle.document_model.specs.Insertion.{KeepsTexts, KeepsTextsBeside, KeepsTargets, PutsLast, OpensTag, OnlyAdds, ExtendsItself, ExtendsThrough};

/// A node set's part and canonical text stay where content is put in as the last children of an element that the set doesn't reach
/// (`outside`), and where signatures are put in beside a set without signatures (`beside`).
pub fn texts_stay()
    ensures outside { KeepsTexts }
    ensures beside { KeepsTextsBeside }
{}

/// Putting content into an element changes and moves no byte of a document: all its bytes stand in the new one, in their order (`adds`).
/// So it is after no content (`whole`) and after one content after another (`through`).
pub fn documents_only_grow()
    ensures adds { OnlyAdds }
    ensures whole { ExtendsItself }
    ensures through { ExtendsThrough }
{}

/// Content without identifiers changes no target of a same-document reference (XML Signature 1.1, "Same-Document URI-References").
pub fn targets_stay()
    ensures { KeepsTargets }
{}

/// Items put in before an end tag are the last children of its element in the tree (`put`), also where an empty tag was opened for
/// them (`opened`).
pub fn items_are_put_last()
    ensures put { PutsLast }
    ensures opened { OpensTag }
{}
