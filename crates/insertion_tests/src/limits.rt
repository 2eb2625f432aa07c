//! Content that passes a limit, and content that just doesn't.

use crate::lives::{deepen, read};
use insertions::GraftFault;
use std::alloc::{AllocError, Global};
use std::test::Fail;

// A document: its front, one part so many times, its end.
fn repeated(
    alloc: Global,
    front: &[u8],
    part: &[u8],
    count: u32,
    end: &[u8],
) -> Result<Vec<u8>, AllocError> {
    let mut bytes = Vec::new(alloc);
    bytes.extend_from_slice(front)?;
    for _ in 0..count {
        bytes.extend_from_slice(part)?;
    }
    bytes.extend_from_slice(end)?;
    Ok(bytes)
}

// So many elements, each inside the last.
fn nested(alloc: Global, count: u32) -> Result<Vec<u8>, AllocError> {
    let mut bytes = repeated(alloc, b"", b"<a>", count, b"")?;
    for _ in 0..count {
        bytes.extend_from_slice(b"</a>")?;
    }
    Ok(bytes)
}

// Whether an element may be put into the deepest one.
fn may_deepen(alloc: Global, bytes: &[u8]) -> bool {
    if bytes.len() > 16_777_216 {
        return false;
    }
    match read(alloc, bytes) {
        Some(mut live) => deepen(&mut live).is_ok() && live.bytes().len() > bytes.len(),
        None => false,
    }
}

// Whether the document would be too large then, and is as before.
fn is_too_large(alloc: Global, bytes: &[u8]) -> bool {
    if bytes.len() > 16_777_216 {
        return false;
    }
    match read(alloc, bytes) {
        Some(mut live) => {
            matches!(deepen(&mut live), Err(GraftFault::TooLarge)) && live.bytes() == bytes
        }
        None => false,
    }
}

#[test]
fn takes_elements_of_depth_256(rt: HostRuntime) -> Result<(), Fail> {
    let alloc = rt.alloc();
    assert!(rt; may_deepen(alloc, &nested(alloc, 255)?));
    assert!(rt; is_too_large(alloc, &nested(alloc, 256)?));
    Ok(())
}

#[test]
fn takes_1048576_nodes(rt: HostRuntime) -> Result<(), Fail> {
    let alloc = rt.alloc();
    let fewer = repeated(alloc, b"<a>", b"<b/>", 1_048_574, b"</a>")?;
    assert!(rt; may_deepen(alloc, &fewer));
    let most = repeated(alloc, b"<a>", b"<b/>", 1_048_575, b"</a>")?;
    assert!(rt; is_too_large(alloc, &most));
    Ok(())
}

// Opening `<b/>` for `<c/>` takes seven bytes.
#[test]
fn takes_16777216_bytes(rt: HostRuntime) -> Result<(), Fail> {
    let alloc = rt.alloc();
    let shorter = repeated(alloc, b"<a><b/>", b"x", 16_777_198, b"</a>")?;
    assert!(rt; may_deepen(alloc, &shorter));
    let longer = repeated(alloc, b"<a><b/>", b"x", 16_777_199, b"</a>")?;
    assert!(rt; is_too_large(alloc, &longer));
    Ok(())
}
