//! What a signature shows once it has taken an archive time-stamp, and the renewal of its verdict.
//!
//! The definitions stand in `specs/`. Each function here has an empty body, and its contract is a law.
#![tactic(auto)]

ghost use Rattle.renewed_documents.specs.Growing.{ArchiveIsShown};
ghost use Rattle.renewed_documents.specs.Files.{FilesRenew};
ghost use Rattle.renewed_documents.specs.OnBytes.{ArchivedRenews};
ghost use Rattle.renewed_documents.specs.Renewing.{RenewalKeepsYesOfDocuments};

/// With an archive time-stamp a signature shows what it showed, and the time-stamp over all of it.
pub fn archive_is_shown()
    ensures { ArchiveIsShown }
{}

/// An archive time-stamp that a signature takes keeps its verdict.
pub fn renewal_keeps_yes_of_documents()
    ensures { RenewalKeepsYesOfDocuments }
{}

/// The same on the bytes of documents, where the new bytes spell the new tree.
pub fn archived_renews()
    ensures { ArchivedRenews }
{}

/// A file that is read renews its verdict by an archive time-stamp, where the new file passes no limit.
pub fn files_renew()
    ensures { FilesRenew }
{}
