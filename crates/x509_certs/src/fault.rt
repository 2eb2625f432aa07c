//! Why a reader refuses.

/// The bytes are no whole object: `at` is the place of the first bad element.
///
/// Elements are judged from the front, one before what it holds. An element that isn't legal, isn't allowed where it stands or has
/// a value that isn't allowed is bad at its tag. Where a content ends before an element that has to stand, the element with this
/// content is bad. Of no bytes at all the place is 0, else it is below their number.
#[derive(Clone, Copy, Debug, PartialEq, Eq)]
pub struct CertFault {
    pub at: usize,
}
