//! Why octets aren't taken as the token of the next time-stamp of a signature.

use tst_tokens::TokenFault;

/// What stands against a sound token as the next time-stamp of a signature. Times are in seconds since 1970.
#[derive(Clone, Copy, Debug, PartialEq, Eq)]
pub enum OrderFault {
    /// Its time is after the moment.
    FromFuture { gen_time: i64, moment: i64 },
    /// A time-stamp that it would cover has a later time: `earlier` is that of the first such.
    TimeOrder { gen_time: i64, earlier: i64 },
    /// It is for the signature, which has a time-stamp on the archive already.
    AfterArchive,
    /// It is for the archive, and the signature has no time-stamp on the signature.
    NotStamped,
}

/// What stands against octets as the token of the next time-stamp of a signature.
#[derive(Debug, Drop)]
pub enum StampFault {
    /// They are no token that is sound over what it would cover; or memory could not be had.
    Token(TokenFault),
    /// They are one, and it isn't taken.
    Order(OrderFault),
}
