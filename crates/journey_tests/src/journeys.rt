//! A document on its way: prepared, signed, stamped, with validation data, and archived; each file by the name of what it is.

use crate::desk::{Desk, copied};
use crate::keys::Keys;
use std::alloc::Global;
use std::test::Fail;

const BILL: &[u8] = b"<r><a Id=\"x\">text</a></r>";

/// The times of the tokens, in seconds since 1970: the first of February and the first of March 2030.
pub(crate) const STAMPED: i64 = 1_896_134_400;

pub(crate) const ARCHIVED: i64 = 1_898_553_600;

/// The words that attach something to a file at a moment behind both.
pub(crate) const NOW: &str = "at=2030-04-01T00:00:00Z";

const PREPARE: &[&str] = &[
    "prepare",
    "doc=bill",
    "policy=policy",
    "cert=certificate",
    "time=2030-01-15T00:00:00Z",
    "id=s",
    "method=urn:sample:hss",
    "digest=sha256",
    "ref=",
    "ref=#x",
];

/// A desk with a bill that is prepared, and what was signed so far: `bill`, `policy`, `certificate`, `lists`, `prepared`, `value`.
pub(crate) fn signed(alloc: Global) -> Result<(Desk, Keys), Fail> {
    let mut keys = Keys::new(alloc)?;
    let mut desk = Desk::new(alloc);
    desk.put("bill", copied(alloc, BILL)?)?;
    desk.put("policy", copied(alloc, keys.policy.as_slice())?)?;
    desk.put("certificate", copied(alloc, keys.certificate.as_slice())?)?;
    desk.put("lists", copied(alloc, keys.lists.as_slice())?)?;
    desk.keep("prepared", PREPARE)?;
    desk.keep("to_sign", &["octets", "doc=prepared", "for=signature"])?;
    let value = keys.value(desk.file("to_sign")?)?;
    desk.put("value", value)?;
    desk.keep(
        "signed",
        &[
            "attach",
            "doc=prepared",
            "policy=policy",
            NOW,
            "value=value",
        ],
    )?;
    Ok((desk, keys))
}

/// And stamped, with validation data: `stamp`, `stamped`, `lasting`.
pub(crate) fn lasting(alloc: Global) -> Result<(Desk, Keys), Fail> {
    let (mut desk, mut keys) = signed(alloc)?;
    desk.keep("to_stamp", &["octets", "doc=signed", "for=stamp"])?;
    let stamp = keys.stamp(desk.file("to_stamp")?, STAMPED)?;
    desk.put("stamp", stamp)?;
    desk.keep(
        "stamped",
        &["attach", "doc=signed", "policy=policy", NOW, "stamp=stamp"],
    )?;
    desk.keep(
        "lasting",
        &["attach", "doc=stamped", "policy=policy", NOW, "data=lists"],
    )?;
    Ok((desk, keys))
}

/// And archived at a time: `archive`, `archived`.
pub(crate) fn archived(alloc: Global) -> Result<(Desk, Keys), Fail> {
    let (mut desk, mut keys) = lasting(alloc)?;
    desk.keep("to_archive", &["octets", "doc=lasting", "for=archive"])?;
    let archive = keys.archive(desk.file("to_archive")?, ARCHIVED)?;
    desk.put("archive", archive)?;
    desk.keep(
        "archived",
        &[
            "attach",
            "doc=lasting",
            "policy=policy",
            NOW,
            "archive=archive",
        ],
    )?;
    Ok((desk, keys))
}
