//! Documents to which a value is attached, and to which nothing is. What is expected follows from XML Signature 1.1, sections 3.1.2 and 4.3.

use crate::scene::{LISTED, Scene};
use std::test::Fail;

#[test]
fn a_value_is_put_in(rt: HostRuntime) -> Result<(), Fail> {
    let scene = Scene::new(rt.alloc())?;
    let Ok(document) = scene.attached(LISTED, scene.prepared(), &[scene.value()])? else {
        return Err(Fail::new("refused"));
    };
    let signed = scene.signed()?;
    assert!(rt; document.as_slice() == signed.as_slice());
    Ok(())
}

#[test]
fn nothing_is_put_in_without_items(rt: HostRuntime) -> Result<(), Fail> {
    let scene = Scene::new(rt.alloc())?;
    let Ok(document) = scene.attached(LISTED, scene.prepared(), &[])? else {
        return Err(Fail::new("refused"));
    };
    assert!(rt; document.as_slice() == scene.prepared());
    Ok(())
}

#[test]
fn a_document_without_signature_stays_without_items(rt: HostRuntime) -> Result<(), Fail> {
    let scene = Scene::new(rt.alloc())?;
    let Ok(document) = scene.attached(LISTED, b"<r/>", &[])? else {
        return Err(Fail::new("refused"));
    };
    assert!(rt; document.as_slice() == b"<r/>".as_slice());
    Ok(())
}
