//! What is written on the way. What is expected follows from EN 319 132-1, clauses 4.3, 5.3, 5.4 and 5.5.

use crate::changes::replaced;
use crate::journeys::{NOW, archived, signed};
use std::test::Fail;

const ALL: &[&str] = &[
    "attach",
    "doc=prepared",
    "policy=policy",
    NOW,
    "value=value",
    "stamp=stamp",
    "data=lists",
    "archive=archive",
];

// Whether octets have a part that is a text.
fn has(octets: &[u8], text: &str) -> bool {
    for at in 0..octets.len() {
        if octets[at..].starts_with(text.as_bytes()) {
            return true;
        }
    }
    false
}

#[test]
fn one_call_and_four_calls_give_the_same(rt: HostRuntime) -> Result<(), Fail> {
    let (desk, _) = archived(rt.alloc())?;
    let ran = desk.run(ALL)?;
    assert!(rt; ran.status == 0);
    assert!(rt; ran.out.as_slice() == desk.file("archived")?);
    Ok(())
}

#[test]
fn an_empty_host_is_opened_with_its_white_space(rt: HostRuntime) -> Result<(), Fail> {
    let (mut desk, mut keys) = signed(rt.alloc())?;
    let end = "</xades:QualifyingProperties>";
    let host = b"<xades:UnsignedProperties /></xades:QualifyingProperties>";
    let changed = replaced(rt.alloc(), desk.file("signed")?, end, host)?;
    desk.put("signed", changed)?;
    desk.keep("to_stamp", &["octets", "doc=signed", "for=stamp"])?;
    let stamp = keys.stamp(desk.file("to_stamp")?, crate::journeys::STAMPED)?;
    desk.put("stamp", stamp)?;
    let ran = desk.run(&["attach", "doc=signed", "policy=policy", NOW, "stamp=stamp"])?;
    assert!(rt; ran.status == 0);
    assert!(rt;
        has(
            ran.out.as_slice(),
            "<xades:UnsignedProperties ><xades:UnsignedSignatureProperties "
        )
    );
    assert!(rt;
        has(
            ran.out.as_slice(),
            "</xades:UnsignedSignatureProperties></xades:UnsignedProperties></xades:QualifyingProperties>"
        )
    );
    Ok(())
}

#[test]
fn a_renewal_covers_the_first_time_stamp_on_the_archive(rt: HostRuntime) -> Result<(), Fail> {
    let (mut desk, mut keys) = archived(rt.alloc())?;
    desk.keep("to_renew", &["octets", "doc=archived", "for=archive"])?;
    assert!(rt; has(desk.file("to_renew")?, "ArchiveTimeStamp"));
    let renewal = keys.archive(desk.file("to_renew")?, crate::journeys::ARCHIVED)?;
    desk.put("renewal", renewal)?;
    desk.keep(
        "renewed",
        &[
            "attach",
            "doc=archived",
            "policy=policy",
            NOW,
            "archive=renewal",
        ],
    )?;
    Ok(())
}
