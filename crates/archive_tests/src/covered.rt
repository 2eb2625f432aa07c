//! What the value and the time-stamps of a signature cover. What is expected follows from XML Signature 1.1, section 3.1.2, and EN 319 132-1,
//! clauses 5.1.4, 5.3 and 5.5.2.

use crate::scene::{
    Asked, PLAIN_VALUE, VALUE, covers, under_archive, under_value, with_four, with_two,
};
use archive_octets::StampKind;
use std::test::Fail;

const NEXT_SIGNATURE: Asked = Asked::Next(StampKind::Signature);

const NEXT_ARCHIVE: Asked = Asked::Next(StampKind::Archive);

#[test]
fn a_value_covers_signed_info_in_its_own_form(rt: HostRuntime) -> Result<(), Fail> {
    let alloc = rt.alloc();
    let document = with_two(alloc)?;
    let wanted = under_value(alloc)?;
    assert!(rt; covers(alloc, document.as_str(), Asked::Value, wanted.as_str())?);
    Ok(())
}

#[test]
fn a_signature_stamp_covers_the_value_as_an_element(rt: HostRuntime) -> Result<(), Fail> {
    let alloc = rt.alloc();
    let document = with_four(alloc)?;
    let document = document.as_str();
    assert!(rt; covers(alloc, document, Asked::Property(0), VALUE)?);
    assert!(rt; covers(alloc, document, Asked::Property(3), PLAIN_VALUE)?);
    Ok(())
}

#[test]
fn the_next_signature_stamp_is_in_the_exclusive_form(rt: HostRuntime) -> Result<(), Fail> {
    let alloc = rt.alloc();
    let document = with_four(alloc)?;
    assert!(rt; covers(alloc, document.as_str(), NEXT_SIGNATURE, VALUE)?);
    Ok(())
}

#[test]
fn an_archive_stamp_covers_neither_itself_nor_what_is_behind(rt: HostRuntime) -> Result<(), Fail> {
    let alloc = rt.alloc();
    let document = with_four(alloc)?;
    let wanted = under_archive(alloc)?;
    assert!(rt;
        covers(
            alloc,
            document.as_str(),
            Asked::Property(2),
            wanted.as_str()
        )?
    );
    Ok(())
}

#[test]
fn the_next_archive_stamp_covers_what_it_will_cover_there(rt: HostRuntime) -> Result<(), Fail> {
    let alloc = rt.alloc();
    let document = with_two(alloc)?;
    let wanted = under_archive(alloc)?;
    assert!(rt; covers(alloc, document.as_str(), NEXT_ARCHIVE, wanted.as_str())?);
    Ok(())
}

#[test]
fn another_property_covers_nothing(rt: HostRuntime) -> Result<(), Fail> {
    let alloc = rt.alloc();
    let document = with_two(alloc)?;
    assert!(rt; covers(alloc, document.as_str(), Asked::Property(1), "")?);
    Ok(())
}
